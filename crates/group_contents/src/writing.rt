//! The bytes of a file are written.
ghost use Rattle.std.specs.Prelude.{◌≡◌, ◌⊎◌, ◌+◌, ◌<◌, ◌^◌, ℕ, IfErr, IfOk, IfSome, OnOk, length, replicate, true};
ghost use Rattle.asm_formats.specs.Sets.{has_bit};
ghost use Rattle.refusal_lines.specs.declared.refusal.Refusal.TheVariants.{WriteFault};
ghost use Rattle.striping.specs.Pieces.{IsAllowedLayout};
ghost use Rattle.file_extents.specs.group_engine.Mounts.{IsMounted, Takes};
ghost use Rattle.file_extents.specs.group_engine.Own.{KeepsGroup};
ghost use Rattle.file_extents.specs.group_pieces.Held.{PieceHeld};
ghost use Rattle.file_extents.specs.group_pieces.Usable.{FitsExtent};
ghost use Rattle.file_extents.specs.Filling.{FailsMore, FillCause, PutCause};
ghost use Rattle.group_contents.specs.Files.{WriteCause, WriteFileCause};
ghost use Rattle.group_contents.specs.Writing.{IsLayoutOf, WritesFile, WritesSpan, done_of};

use crate::buffers::buffer;
use crate::entry_copies::EntryCopies;
use crate::opening::{OpenFile, open_span};
use asm_base::{DiskSet, Path};
use bay::Bay;
use file_extents::{Mounted, Piece, first_piece, layout_of, write_piece};
use refusal_lines::{DiskRef, Refusal};
use std::alloc::Global;
use striping::Layout;

/// A disk, where it is in the set.
fn among(disk: Option<u8>, failed: DiskSet) -> Option<u8>
    ensures { IfSome result (λ disk. (disk < 64) × (has_bit failed disk ≡ true)) }
{
    match disk {
        Some(disk) => {
            if disk < 64 && failed.has(disk) {
                Some(disk)
            } else {
                None
            }
        }
        None => None,
    }
}

/// The refusal where no copy of an extent is usable any more: by its first copy that was as the
/// call began, whose disk failed since.
fn lost_on_the_way(first: Option<u8>, failed: DiskSet) -> Refusal
    ensures { FillCause failed result }
{
    match among(first, failed) {
        Some(disk) => Refusal::WriteFault {
            disk: DiskRef::Number(disk),
        },
        None => Refusal::NoMemory,
    }
}

/// The refusal where all copies of an extent failed that were usable still, that on this disk
/// first. It names the first copy that was usable as the call began: that is this one, where the
/// disk of the first hasn't failed before.
fn failed_on_the_way(first: Option<u8>, failed: DiskSet, disk: DiskRef) -> Refusal
    ensures { FillCause failed result ⊎ (result ≡ WriteFault disk) }
{
    match among(first, failed) {
        Some(disk) => Refusal::WriteFault {
            disk: DiskRef::Number(disk),
        },
        None => Refusal::WriteFault { disk },
    }
}

/// The disks of two sets.
#[tactic(auto, using(crate::proofs::Failed::joined_bits))]
fn joined(one: DiskSet, other: DiskSet) -> DiskSet
    ensures { (k : ℕ) → k < 64 → has_bit result k ≡ true
        → (has_bit one k ≡ true) ⊎ (has_bit other k ≡ true) }
{
    DiskSet::from_bits(one.bits() | other.bits())
}

/// Writes a piece of an extent, of which the first copy that was usable as the call began is on
/// this disk. Gives the set of the disks that failed, with those of this set. Refusals: WriteFault,
/// where no copy took it; Dismounted; NoMemory.
fn write_one<B: Bay>(
    m: &mut Mounted,
    alloc: Global,
    bay: &mut B,
    piece: Piece,
    bytes: &[u8],
    now: u64,
    failed: DiskSet,
    first: Option<u8>,
) -> Result<DiskSet, Refusal>
    requires takes { Takes m.old (B.state bay.old) }
    requires piece { FitsExtent m.old.catalog.shape piece.x.index piece.inner (length bytes.now) }
    ensures keeps { KeepsGroup m.old m.new (B.state bay.old) (B.state bay.new) }
    ensures mounted { OnOk result (IsMounted m.new) }
    ensures cause { IfErr result (PutCause m.old failed m.new (B.state bay.old) (B.state bay.new)) }
    ensures failed { IfOk result (λ more. FailsMore m.old failed more (B.state bay.old)
        (B.state bay.new)) }
    ensures held { PieceHeld m.old piece.x piece.inner bytes.now result m.new (B.state bay.old)
        (B.state bay.new) }
{
    match write_piece(m, alloc, bay, piece.x, piece.inner, bytes, now) {
        Ok(more) => Ok(joined(failed, more)),
        Err(Refusal::Lost { .. }) => Err(lost_on_the_way(first, failed)),
        Err(Refusal::WriteFault { disk }) => Err(failed_on_the_way(first, failed, disk)),
        Err(Refusal::Dismounted { disk }) => Err(Refusal::Dismounted { disk }),
        Err(_) => Err(Refusal::NoMemory),
    }
}

/// The file that is written, how its pieces lie, and the time in seconds.
#[derive(Clone, Copy)]
struct Writing {
    file: OpenFile,
    layout: Layout,
    now: u64,
}

/// Writes bytes of a file from one on, piece by piece. Gives the set of the disks that failed, with
/// those of this set.
fn write_bytes<B: Bay>(
    m: &mut Mounted,
    alloc: Global,
    bay: &mut B,
    writing: Writing,
    at: u64,
    bytes: &[u8],
    failed: DiskSet,
    entry: &mut EntryCopies,
) -> Result<DiskSet, Refusal>
    requires mounted { IsMounted m.old }
    requires takes { Takes m.old (B.state bay.old) }
    requires layout { IsAllowedLayout writing.layout }
    ensures keeps { KeepsGroup m.old m.new (B.state bay.old) (B.state bay.new) }
    ensures mounted { OnOk result (IsMounted m.new) }
    ensures cause { IfErr result (PutCause m.old failed m.new (B.state bay.old) (B.state bay.new)) }
    ensures failed { IfOk result (λ more. FailsMore m.old failed more (B.state bay.old)
        (B.state bay.new)) }
    ensures end { OnOk result (at + length bytes.now < 2 ^ 64) }
    ensures held { IsLayoutOf writing.layout writing.file m.old.catalog.shape
        → WritesSpan m.old writing.file at bytes.now (done_of result) m.new (B.state bay.old) (B.state bay.new) }
{
    let mut failed = failed;
    let mut from = at;
    let mut done = 0;
    while done < bytes.len() {
        let left = (bytes.len() - done) as u64;
        let shape = m.catalog().shape();
        let Some(piece) = first_piece(shape, writing.layout, writing.file.file, from, left) else {
            return Err(Refusal::NoMemory);
        };
        let part = &bytes[done..done + piece.len];
        let first = entry.first_of(m, piece.x);
        match write_one(m, alloc, bay, piece, part, writing.now, failed, first) {
            Ok(more) => failed = more,
            Err(refusal) => return Err(refusal),
        }
        from = from.saturating_add(piece.len as u64);
        done += piece.len;
    }
    Ok(failed)
}

/// Fills so many bytes of a file from one on with those of a buffer, again and again.
fn fill_bytes<B: Bay>(
    m: &mut Mounted,
    alloc: Global,
    bay: &mut B,
    writing: Writing,
    at: u64,
    len: u64,
    buf: &[u8],
) -> Result<(), Refusal>
    requires mounted { IsMounted m.old }
    requires takes { Takes m.old (B.state bay.old) }
    requires layout { IsAllowedLayout writing.layout }
    ensures keeps { KeepsGroup m.old m.new (B.state bay.old) (B.state bay.new) }
    ensures mounted { OnOk result (IsMounted m.new) }
    ensures cause { IfErr result (PutCause m.old 0 m.new (B.state bay.old) (B.state bay.new)) }
    ensures held { (byte : ℕ) → buf.now ≡ replicate (length buf.now) byte
        → IsLayoutOf writing.layout writing.file m.old.catalog.shape
        → WritesSpan m.old writing.file at (replicate len byte) result m.new (B.state bay.old) (B.state bay.new) }
{
    let mut failed = DiskSet::empty();
    let mut entry = EntryCopies::now(m);
    let mut from = at;
    let mut left = len;
    while left > 0 {
        let n = left.min(buf.len() as u64) as usize;
        if n == 0 {
            return Err(Refusal::NoMemory);
        }
        match write_bytes(m, alloc, bay, writing, from, &buf[..n], failed, &mut entry) {
            Ok(more) => failed = more,
            Err(refusal) => return Err(refusal),
        }
        from = from.saturating_add(n as u64);
        left -= n as u64;
    }
    Ok(())
}

/// Fills a span of a file with the bytes of a buffer, again and again. All bytes of the buffer are
/// the same.
pub(crate) fn fill_span<B: Bay>(
    m: &mut Mounted,
    alloc: Global,
    bay: &mut B,
    file: &OpenFile,
    at: u64,
    len: u64,
    buf: &[u8],
    now: u64,
) -> Result<(), Refusal>
    requires mounted { IsMounted m.old }
    requires takes { Takes m.old (B.state bay.old) }
    ensures keeps { KeepsGroup m.old m.new (B.state bay.old) (B.state bay.new) }
    ensures mounted { OnOk result (IsMounted m.new) }
    ensures cause { IfErr result (WriteCause m.old m.new (B.state bay.old) (B.state bay.new)) }
    ensures held { (byte : ℕ) → buf.now ≡ replicate (length buf.now) byte
        → WritesSpan m.old file.now at (replicate len byte) result m.new (B.state bay.old) (B.state bay.new) }
{
    match layout_of(m.catalog().shape(), file.stripe) {
        Some(layout) => {
            let writing = Writing {
                file: *file,
                layout,
                now,
            };
            fill_bytes(m, alloc, bay, writing, at, len, buf)
        }
        None => Err(Refusal::NoMemory),
    }
}

/// Writes bytes of a file from one on.
fn write_span<B: Bay>(
    m: &mut Mounted,
    alloc: Global,
    bay: &mut B,
    file: &OpenFile,
    at: u64,
    bytes: &[u8],
    now: u64,
) -> Result<(), Refusal>
    requires mounted { IsMounted m.old }
    requires takes { Takes m.old (B.state bay.old) }
    ensures keeps { KeepsGroup m.old m.new (B.state bay.old) (B.state bay.new) }
    ensures cause { IfErr result (WriteCause m.old m.new (B.state bay.old) (B.state bay.new)) }
    ensures held { WritesSpan m.old file.now at bytes.now result m.new (B.state bay.old)
        (B.state bay.new) }
{
    let Some(layout) = layout_of(m.catalog().shape(), file.stripe) else {
        return Err(Refusal::NoMemory);
    };
    let writing = Writing {
        file: *file,
        layout,
        now,
    };
    let mut entry = EntryCopies::now(m);
    match write_bytes(
        m,
        alloc,
        bay,
        writing,
        at,
        bytes,
        DiskSet::empty(),
        &mut entry,
    ) {
        Ok(_) => Ok(()),
        Err(refusal) => Err(refusal),
    }
}

/// Writes bytes of the file at a path from one on. Refusals in their order: NoName, NotSectors,
/// OutOfFile, Lost; then WriteFault, where all copies of an extent that were usable as the call
/// began failed in it, with the first of them, and Dismounted. After the last two, and after want
/// of memory behind the first write, the bytes of the span are free.
pub fn write<B: Bay>(
    m: &mut Mounted,
    alloc: Global,
    bay: &mut B,
    path: &Path,
    at: u64,
    bytes: &[u8],
    now: u64,
) -> Result<(), Refusal>
    requires takes { Takes m.old (B.state bay.old) }
    ensures keeps { KeepsGroup m.old m.new (B.state bay.old) (B.state bay.new) }
    ensures cause { IfErr result (WriteFileCause m.old path.now.parts at (length bytes.now) m.new
        (B.state bay.old) (B.state bay.new)) }
    // Of a group that takes calls: what the disks hold at each moment, and what is mounted in the
    // end.
    ensures does { IsMounted m.old
        → WritesFile m.old path.now.parts at bytes.now result m.new (B.state bay.old) (B.state bay.new) }
{
    match m.takes_calls() {
        Ok(()) => {}
        Err(refusal) => return Err(refusal),
    }
    match open_span(m, path, at, bytes.len() as u64) {
        Ok(file) => write_span(m, alloc, bay, &file, at, bytes, now),
        Err(refusal) => Err(refusal),
    }
}

/// Fills a span of the file at a path with a byte, as `write` does.
pub fn fill<B: Bay>(
    m: &mut Mounted,
    alloc: Global,
    bay: &mut B,
    path: &Path,
    at: u64,
    len: u64,
    byte: u8,
    now: u64,
) -> Result<(), Refusal>
    requires takes { Takes m.old (B.state bay.old) }
    ensures keeps { KeepsGroup m.old m.new (B.state bay.old) (B.state bay.new) }
    ensures cause { IfErr result (WriteFileCause m.old path.now.parts at len m.new (B.state bay.old)
        (B.state bay.new)) }
    ensures does { IsMounted m.old
        → WritesFile m.old path.now.parts at (replicate len byte) result m.new (B.state bay.old) (B.state bay.new) }
{
    match m.takes_calls() {
        Ok(()) => {}
        Err(refusal) => return Err(refusal),
    }
    let file = match open_span(m, path, at, len) {
        Ok(file) => file,
        Err(refusal) => return Err(refusal),
    };
    match buffer(alloc, len, byte) {
        Ok(buf) => {
            let answer = fill_span(m, alloc, bay, &file, at, len, &buf, now);
            drop(buf);
            answer
        }
        Err(_) => Err(Refusal::NoMemory),
    }
}
