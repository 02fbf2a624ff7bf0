//! Pieces of extents that are read, written and copied.

ghost use Rattle.std.specs.Prelude.{◌≡◌, ◌≤◌, IfSome};
ghost use Rattle.std.specs.Bool.{OnTrue};
ghost use Rattle.asm_formats.specs.Regions.{reserved_units};
ghost use Rattle.group_engine.specs.Mounts.{Takes};
ghost use Rattle.file_extents.specs.group_pieces.Spare.{IsRunOf};
ghost use Rattle.file_extents.specs.group_pieces.Usable.{FitsExtent};

use crate::answers::{Answer, refused};
use crate::disks::all_of;
use crate::steps::Piece;
use asm_base::{DiskSet, ExtentId, Home, Shape};
use bay::{Bay, Fault};
use file_extents::{ReadError, WriteError, read_piece, write_piece, write_spare, write_usable};
use group_engine::Mounted;
use relocation::{CopyError, copy_piece};
use std::alloc::Global;
use striping::units_of;

/// Whether so many bytes from an inner byte on lie in an extent, on sectors.
#[tactic(auto, using(file_extents::proofs::Layouts::fits_in))]
fn fits(shape: Shape, index: u32, inner: u64, len: usize) -> bool
    ensures { OnTrue result (FitsExtent shape index inner len) }
{
    let size = units_of(shape.step, index as u64) as u64 * shape.au as u64;
    if inner > size || len as u64 > size - inner {
        return false;
    }
    inner % 512 == 0 && len % 512 == 0
}

fn extent_of(piece: Piece) -> ExtentId
    ensures index { result.index ≡ piece.1 }
{
    ExtentId {
        file: piece.0,
        index: piece.1,
    }
}

/// Whether a piece lies in its extent and in a buffer of a unit.
fn may_call(m: &Mounted, piece: Piece) -> bool
    ensures fits { OnTrue result (FitsExtent m.now.catalog.shape piece.1 piece.2 piece.3) }
    ensures few { OnTrue result (piece.3 ≤ 4096) }
{
    piece.3 <= 4096 && fits(m.catalog().shape(), piece.1, piece.2, piece.3)
}

/// Reads a piece. Each byte of it is one.
#[tactic(auto, using(crate::proofs::Taking::kept_takes))]
pub fn read<B: Bay>(m: &Mounted, bay: &mut B, piece: Piece) -> Answer
    requires takes { Takes m.now (B.state bay.old) }
    ensures takes { Takes m.now (B.state bay.new) }
{
    if !may_call(m, piece) || !m.is_mounted() {
        return Answer::MayNot;
    }
    let mut buf = [0u8; 4096];
    match read_piece(m, bay, extent_of(piece), piece.2, &mut buf[..piece.3]) {
        Ok(()) => all_of(&buf[..piece.3]),
        Err(ReadError::Lost) => Answer::Lost(piece.0, piece.1),
        Err(ReadError::Fault { disk }) => Answer::ReadFault(disk),
    }
}

/// It is done, but on disks that failed.
fn done_but(failed: DiskSet) -> Answer {
    if failed.bits() == 0 {
        Answer::Done
    } else {
        Answer::Failed(failed.bits())
    }
}

/// Writes a piece, and records what failed, at second 7.
#[tactic(auto, using(crate::proofs::Taking::kept_takes))]
pub fn write<B: Bay>(m: &mut Mounted, alloc: Global, bay: &mut B, piece: Piece, byte: u8) -> Answer
    requires takes { Takes m.old (B.state bay.old) }
    ensures takes { Takes m.new (B.state bay.new) }
{
    if !may_call(m, piece) {
        return Answer::MayNot;
    }
    let bytes = [byte; 4096];
    match write_piece(
        m,
        alloc,
        bay,
        extent_of(piece),
        piece.2,
        &bytes[..piece.3],
        7,
    ) {
        Ok(failed) => done_but(failed),
        Err(refusal) => refused(refusal),
    }
}

/// Writes a piece on its usable copies alone.
#[tactic(auto, using(crate::proofs::Taking::wrote_takes))]
pub fn usable<B: Bay>(m: &Mounted, bay: &mut B, piece: Piece, byte: u8) -> Answer
    requires takes { Takes m.now (B.state bay.old) }
    ensures takes { Takes m.now (B.state bay.new) }
{
    if !may_call(m, piece) || !m.is_mounted() {
        return Answer::MayNot;
    }
    let bytes = [byte; 4096];
    match write_usable(m, bay, extent_of(piece), piece.2, &bytes[..piece.3]) {
        Ok(failed) => done_but(failed),
        Err(WriteError::Lost) => Answer::Lost(piece.0, piece.1),
        Err(WriteError::Fault { disk }) => Answer::WriteFault(disk),
    }
}

/// Units of a disk that hold no bytes of files. None where a unit has no bytes.
#[tactic(auto, unfolding(asm_formats::specs::Regions::reserved_units))]
fn reserved(shape: &Shape) -> Option<u64>
    ensures { IfSome result (λ units. units ≡ reserved_units shape.now) }
{
    let blocks = 14 + 2 * shape.dir_blocks as u64;
    let au = shape.au as u64;
    if au == 0 {
        return None;
    }
    Some((blocks * 4096 + (au - 1)) / au)
}

/// Whether so many bytes from an inner byte of a unit on lie on an attached disk, behind its
/// directories.
fn is_run(m: &Mounted, home: Home, inner: u64, len: usize) -> bool
    ensures { OnTrue result (IsRunOf m.now home 1 inner len) }
{
    if home.disk >= 64 {
        return false;
    }
    let Some(_slot) = m.slot(home.disk) else {
        return false;
    };
    let Some(size) = m.size(home.disk) else {
        return false;
    };
    let shape = m.catalog().shape();
    let Some(reserved) = reserved(&shape) else {
        return false;
    };
    let au = shape.au as u64;
    let Some(end) = (home.unit as u64 + 1).checked_mul(au) else {
        return false;
    };
    if reserved > home.unit as u64 || end > size || inner > au {
        return false;
    }
    len as u64 <= au - inner && inner % 512 == 0 && len % 512 == 0
}

/// Writes bytes of a unit.
#[tactic(auto, using(crate::proofs::Taking::kept_takes))]
pub fn spare<B: Bay>(
    m: &Mounted,
    bay: &mut B,
    home: Home,
    inner: u64,
    len: usize,
    byte: u8,
) -> Answer
    requires takes { Takes m.now (B.state bay.old) }
    ensures takes { Takes m.now (B.state bay.new) }
{
    if len > 4096 || !is_run(m, home, inner, len) || !m.is_mounted() {
        return Answer::MayNot;
    }
    let bytes = [byte; 4096];
    match write_spare(m, bay, home, inner, &bytes[..len]) {
        Ok(()) => Answer::Done,
        Err(Fault) => Answer::WriteFault(home.disk),
    }
}

/// Copies a piece to a home.
#[tactic(auto, using(crate::proofs::Taking::kept_takes))]
pub fn copy<B: Bay>(m: &Mounted, bay: &mut B, piece: Piece, to: Home) -> Answer
    requires takes { Takes m.now (B.state bay.old) }
    ensures takes { Takes m.now (B.state bay.new) }
{
    if !may_call(m, piece) || !m.is_mounted() {
        return Answer::MayNot;
    }
    let mut buf = [0u8; 4096];
    match copy_piece(m, bay, extent_of(piece), to, piece.2, &mut buf[..piece.3]) {
        Ok(()) => Answer::Done,
        Err(CopyError::Unread { disk }) => Answer::ReadFault(disk),
        Err(CopyError::Unwritten { disk }) => Answer::WriteFault(disk),
        Err(CopyError::Nowhere) => Answer::Nowhere,
    }
}
