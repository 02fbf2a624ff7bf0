// Copies that didn't take what was written are marked stale.
ghost use Rattle.std.specs.Prelude.{◌≡◌, ◌<◌, ◌≤◌, ◌^◌, IsTrue, OnOk, ℕ};
ghost use Rattle.asm_group.specs.Shape.{is_shape};
ghost use Rattle.record_laws.specs.catalog_tables.Faults.{IsCatalog};
ghost use Rattle.record_laws.specs.group_engine.Commits.{KeepsRecord, turns_at_most};
ghost use Rattle.record_laws.specs.group_engine.Mounts.{IsMounted, Takes};
ghost use Rattle.record_laws.specs.group_engine.Pending.{GoesOn};
ghost use Rattle.group_pieces.specs.Held.{RecordsHeld};
ghost use Rattle.group_pieces.specs.Marking.{AreMarked, MarksMore, bit_if, is_left, left_of, took};

use crate::copies::Place;
use crate::usable::{extent_of, place};
use asm_base::{DiskSet, ExtentId};
use bay::Bay;
use record_laws::{Extent, Mounted};
use refusal_lines::Refusal;
use std::alloc::Global;

/// Marks the copies of an extent stale that are there and aren't marked, and that didn't take the
/// bytes from an inner byte on, which the usable ones took but those on disks that failed.
/// Refusals: Dismounted; NoMemory.
pub(crate) fn mark_left<B: Bay>(
    m: &mut Mounted,
    alloc: Global,
    bay: &mut B,
    x: ExtentId,
    inner: u64,
    failed: DiskSet,
) -> Result<(), Refusal>
    requires mounted { IsMounted m.old }
    requires takes { Takes m.old (B.state bay.old) }
    requires short { inner < 2 ^ 32 }
    ensures goes { GoesOn m.old result m.new (B.state bay.old) (B.state bay.new) }
    ensures marked { OnOk result (AreMarked m.old x inner failed m.new.catalog.tables) }
    ensures still { left_of m.old x inner failed ≡ 0 → bay.new ≡ bay.old }
    // A group that is mounted with the piece Free is held so all the while, and mounted with the
    // bytes once it is done.
    ensures held { RecordsHeld m.old x inner failed result m.new (B.state bay.old)
        (B.state bay.new) }
    // Heads, names, homes and marks stay, but that copies are marked.
    ensures places { OnOk result (MarksMore m.old.catalog.tables m.new.catalog.tables) }
    // Entries stay, and no turns are taken but those of copies that were given up.
    ensures status { KeepsRecord m.old.register.value m.new.register.value }
    ensures turns { turns_at_most m.new ≤ turns_at_most m.old }
{
    let left = left_copies(m, x, inner, failed);
    if left == 0 {
        return Ok(());
    }
    match m.catalog().plan_marks(alloc, x, left, 0) {
        Ok(change) => m.commit_plan(alloc, bay, &change),
        Err(_) => Err(Refusal::NoMemory),
    }
}

/// The copies that a write of an extent leaves behind: bit k for copy k.
fn left_copies(m: &Mounted, x: ExtentId, inner: u64, failed: DiskSet) -> u8
    requires shape { IsTrue (is_shape m.now.catalog.shape) }
    requires short { inner < 2 ^ 32 }
    ensures value { result ≡ left_of m.now x inner failed }
    ensures rules { IsCatalog m.now.catalog }
{
    let extent = extent_of(m, x);
    let first = bit_if(is_left(m, &extent, inner, failed, 0), 1);
    let second = bit_if(is_left(m, &extent, inner, failed, 1), 2);
    let third = bit_if(is_left(m, &extent, inner, failed, 2), 4);
    first + second + third
}

/// Whether a copy is there and not marked, and didn't take the bytes.
fn is_left(m: &Mounted, extent: &Extent, inner: u64, failed: DiskSet, copy: u8) -> bool
    requires shape { IsTrue (is_shape m.now.catalog.shape) }
    requires short { inner < 2 ^ 32 }
    requires few { extent.now.units ≤ 16 }
    requires copy { copy < 3 }
    ensures { result ≡ is_left m.now extent.now inner failed copy }
{
    extent.home(copy).is_some()
        && !extent.has_mark(copy)
        && !took(place(m, extent, copy, inner), failed)
}

/// Whether the copy at a place took the bytes: it is there, and its disk isn't one of those that
/// failed.
fn took(place: Option<Place>, failed: DiskSet) -> bool
    ensures { result ≡ took failed place }
{
    match place {
        Some(place) => !failed.has(place.disk),
        None => false,
    }
}

fn bit_if(is: bool, bit: u8) -> u8
    ensures { result ≡ bit_if is bit }
{
    if is { bit } else { 0 }
}
