//! What the copies of one extent lack.

ghost use Rattle.std.specs.Prelude.{◌≡◌, ◌<◌, ◌≤◌, ◌&&◌, ◌||◌, ◌==◌, not, get_or, is_some, is_none};
ghost use Rattle.asm_placement.specs.Modes.{is_dropping, is_forced, is_online};
ghost use Rattle.asm_placement.specs.Copies.{is_doubled, is_on, shares_group, wants_fill, wants_shift};
ghost use Rattle.rebalance.specs.Searching.{extent_in_tables};
ghost use Rattle.extent_copies.specs.Extents.{can_be_read_at, copy_of};
ghost use Rattle.rebalance.specs.Extents.{any_from, has_other_at, has_source_at, is_marked_at};

use crate::homes::{entry_at, staying_disk};
use asm_base::{ExtentId, Home, Homes, Mode};
use catalog_laws::Catalog;
use extent_copies::Extent;
use partnership::PstEntry;

/// The extent of a file with so many copies, as a catalog has it.
pub fn extent_of(catalog: &Catalog, id: ExtentId, copies: u8, homes: &Homes) -> Extent
    ensures is { result ≡ extent_in_tables catalog.now.shape catalog.now.tables id.file copies
        id.index homes.now }
    ensures long { 0 < result.units }
{
    Extent {
        id,
        homes: *homes,
        marks: catalog.marks(id),
        copies,
        units: catalog.units_of(id.index),
    }
}

fn homes_of(extent: &Extent) -> [Option<Home>; 3]
    ensures { result ≡ extent.now.homes }
{
    let homes = extent.homes;
    [homes.first, homes.second, homes.third]
}

fn is_dropping(disks: &[PstEntry], extent: &Extent, copy: u8) -> bool
    ensures { result ≡ is_on is_dropping disks.now (copy_of extent.now copy) }
{
    match entry_at(disks, extent.home(copy)) {
        Some(disk) => matches!(disk.mode, Mode::Dropping),
        None => false,
    }
}

fn is_forced(disks: &[PstEntry], extent: &Extent, copy: u8) -> bool
    ensures { result ≡ is_on is_forced disks.now (copy_of extent.now copy) }
{
    match entry_at(disks, extent.home(copy)) {
        Some(disk) => matches!(disk.mode, Mode::Forced),
        None => false,
    }
}

/// Whether the copy is there and stale, and its disk is Online.
pub fn is_stale_online(disks: &[PstEntry], extent: &Extent, copy: u8) -> bool
    requires { copy < 3 }
    ensures { result ≡ (is_marked_at extent.now copy
        && is_on is_online disks.now (copy_of extent.now copy)) }
{
    extent.home(copy).is_some() && extent.has_mark(copy) && extent.is_on_online(disks, copy)
}

/// Whether the copy is absent, or its disk is Forced.
pub fn wants_fill(disks: &[PstEntry], extent: &Extent, copy: u8) -> bool
    ensures { result ≡ wants_fill disks.now (copy_of extent.now copy) }
{
    extent.home(copy).is_none() || is_forced(disks, extent, copy)
}

/// Whether the copy's disk is Dropping, or the copy is doubled.
pub fn wants_shift(disks: &[PstEntry], extent: &Extent, copy: u8) -> bool
    requires { copy < 3 }
    ensures { result ≡ wants_shift disks.now (copy_of extent.now copy) }
{
    is_dropping(disks, extent, copy) || is_doubled(disks, extent, copy)
}

/// Whether the copy's disk and that of an earlier copy share a failure group, and neither leaves
/// the group.
fn is_doubled(disks: &[PstEntry], extent: &Extent, copy: u8) -> bool
    requires { copy < 3 }
    ensures { result ≡ is_doubled disks.now (copy_of extent.now copy) }
{
    let disk = staying_disk(disks, extent.home(copy));
    let homes = homes_of(extent);
    homes[..copy as usize]
        .iter()
        .any(|home| share_group(disk, staying_disk(disks, *home)))
}

fn share_group(a: Option<PstEntry>, b: Option<PstEntry>) -> bool
    ensures { result ≡ shares_group a b }
{
    match (a, b) {
        (Some(a), Some(b)) => a.failgroup == b.failgroup,
        _ => false,
    }
}

/// Whether a copy of the extent is usable.
#[tactic(auto, using(crate::proofs::Verdicts::any_more, crate::proofs::Verdicts::any_found, crate::proofs::Verdicts::any_start, crate::proofs::Verdicts::any_end))]
pub fn has_source(disks: &[PstEntry], extent: &Extent) -> bool
    requires { extent.now.copies ≤ 3 }
    ensures { result ≡ has_source_at disks.now extent.now }
{
    for copy in 0..extent.copies {
        if extent.can_be_read(disks, copy) {
            return true;
        }
    }
    false
}

/// Whether another copy of the extent is usable.
#[tactic(auto, using(crate::proofs::Verdicts::any_more, crate::proofs::Verdicts::any_found, crate::proofs::Verdicts::any_start, crate::proofs::Verdicts::any_end))]
pub fn has_other_source(disks: &[PstEntry], extent: &Extent, copy: u8) -> bool
    requires { extent.now.copies ≤ 3 }
    ensures { result ≡ has_other_at disks.now extent.now copy }
{
    for other in 0..extent.copies {
        if is_other_source(disks, extent, copy, other) {
            return true;
        }
    }
    false
}

fn is_other_source(disks: &[PstEntry], extent: &Extent, copy: u8, other: u8) -> bool
    requires { other < 3 }
    ensures { result ≡ (not (other == copy) && can_be_read_at disks.now extent.now other) }
{
    other != copy && extent.can_be_read(disks, other)
}
