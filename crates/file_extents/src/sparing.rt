// Bytes of extents that aren't committed yet.
ghost use Rattle.std.specs.Bool.{OnTrue};
ghost use Rattle.std.specs.Prelude.{◌≡◌, ◌≤◌, IfSome};
ghost use Rattle.group_pieces.specs.group_engine.Mounts.{IsMounted, Takes};
ghost use Rattle.group_pieces.specs.group_engine.Own.{KeepsGroup};
ghost use Rattle.group_pieces.specs.Spare.{IsRunOf};
ghost use Rattle.file_extents.specs.Filling.{FailsMore, HasFailedWrite};

use crate::layout::Piece;
use asm_base::{DiskSet, Home, Homes, Shape};
use bay::{Bay, Fault};
use catalog_tables::units_of;
use disk_sizes::reserved_units;
use group_pieces::{Mounted, write_spare};

/// Whether so many bytes from an inner byte on are whole sectors of a copy of so many units, and
/// these units, from the home's on, lie on an attached disk behind its reserved ones.
pub fn is_run(m: &Mounted, home: Home, units: u32, inner: u64, len: usize) -> bool
    requires { units ≤ 16 }
    ensures { OnTrue result (IsRunOf m.now home units inner len) }
{
    if home.disk >= 64 {
        return false;
    }
    let Some(_slot) = m.slot(home.disk) else {
        return false;
    };
    let Some(size) = m.size(home.disk) else {
        return false;
    };
    let shape = m.catalog().shape();
    let reserved = reserved_units(&shape);
    let au = shape.au as u64;
    let Some(end) = (home.unit as u64 + units as u64).checked_mul(au) else {
        return false;
    };
    let bytes = units as u64 * au;
    if reserved > home.unit as u64 || end > size || inner > u32::MAX as u64 {
        return false;
    }
    if inner > bytes || len as u64 > bytes - inner {
        return false;
    }
    if inner % 512 != 0 || len % 512 != 0 {
        return false;
    }
    true
}

/// What became of the copies of an extent that is filled.
#[derive(Clone, Copy)]
pub(crate) struct Filled {
    /// Bit k is set where copy k didn't take its bytes.
    pub(crate) marks: u8,
    /// The disks that failed.
    pub(crate) failed: DiskSet,
}

/// What became of a write to one copy.
enum Took {
    /// It has the bytes.
    All,
    /// Its disk failed.
    Failed,
    /// Its units don't lie on an attached disk behind the reserved ones, or the piece isn't whole
    /// sectors of them.
    Nowhere,
}

/// Writes a piece to a copy.
fn write_copy<B: Bay>(m: &Mounted, bay: &mut B, home: Home, piece: Piece, bytes: &[u8]) -> Took
    requires mounted { IsMounted m.now }
    requires takes { Takes m.now (B.state bay.old) }
    ensures keeps { KeepsGroup m.now m.now (B.state bay.old) (B.state bay.new) }
    ensures failed { HasFailedWrite m.now home.disk result (B.state bay.old) (B.state bay.new) }
{
    let units = units_of(m.catalog().shape().step, piece.x.index as u64);
    if !is_run(m, home, units, piece.inner, bytes.len()) {
        return Took::Nowhere;
    }
    match write_spare(m, bay, home, piece.inner, bytes) {
        Ok(()) => Took::All,
        Err(Fault) => Took::Failed,
    }
}

/// Writes a piece to a copy that is there and has taken all before. The copy's bit among the marks
/// is this one.
fn fill_copy<B: Bay>(
    m: &Mounted,
    bay: &mut B,
    home: Option<Home>,
    bit: u8,
    piece: Piece,
    bytes: &[u8],
    filled: Filled,
) -> Filled
    requires mounted { IsMounted m.now }
    requires takes { Takes m.now (B.state bay.old) }
    ensures keeps { KeepsGroup m.now m.now (B.state bay.old) (B.state bay.new) }
    ensures failed { FailsMore m.now filled.failed result.failed (B.state bay.old)
        (B.state bay.new) }
{
    let Some(home) = home else {
        return filled;
    };
    if filled.marks & bit != 0 {
        return filled;
    }
    match write_copy(m, bay, home, piece, bytes) {
        Took::All => filled,
        Took::Failed => Filled {
            marks: filled.marks | bit,
            failed: filled.failed.with(home.disk),
        },
        Took::Nowhere => Filled {
            marks: filled.marks | bit,
            failed: filled.failed,
        },
    }
}

/// Writes a piece to the copies of its extent that have taken all before.
pub(crate) fn fill_copies<B: Bay>(
    m: &Mounted,
    bay: &mut B,
    homes: &Homes,
    piece: Piece,
    bytes: &[u8],
    filled: Filled,
) -> Filled
    requires mounted { IsMounted m.now }
    requires takes { Takes m.now (B.state bay.old) }
    ensures keeps { KeepsGroup m.now m.now (B.state bay.old) (B.state bay.new) }
    ensures failed { FailsMore m.now filled.failed result.failed (B.state bay.old)
        (B.state bay.new) }
{
    let homes = *homes;
    let filled = fill_copy(m, bay, homes.first, 1, piece, bytes, filled);
    let filled = fill_copy(m, bay, homes.second, 2, piece, bytes, filled);
    fill_copy(m, bay, homes.third, 4, piece, bytes, filled)
}

/// Whether each copy that is there has its mark.
pub(crate) fn are_all_marked(homes: &Homes, marks: u8) -> bool {
    let homes = *homes;
    is_marked(homes.first, 1, marks)
        && is_marked(homes.second, 2, marks)
        && is_marked(homes.third, 4, marks)
}

fn is_marked(home: Option<Home>, bit: u8, marks: u8) -> bool {
    home.is_none() || marks & bit != 0
}
