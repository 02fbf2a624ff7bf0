// That no home lies on a disk of a quorum failure group, as the search for the next move asks.
ghost use Rattle.std.specs.Bool.{OnFalse, OnTrue};
ghost use Rattle.std.specs.List.{list_all};
ghost use Rattle.std.specs.Prelude.{◌≡◌};
ghost use Rattle.asm_placement.specs.Work.{is_regular};
ghost use Rattle.rebalance.specs.catalog_tables.Rules.{AreOnRegular, are_on_regular, first_wrong, is_on_regular, is_regular_chunk};
ghost use Rattle.rebalance.specs.catalog_tables.Tables.{AreTables};
ghost use Rattle.rebalance.specs.Cursors.{passes_at};

use asm_base::{Home, Homes};
use rebalance::{Catalog, entry_of};
use status_register::PstEntry;

/// Whether no home of the tables lies on a disk of a quorum failure group.
pub(crate) fn are_all_regular(catalog: &Catalog, disks: &[PstEntry]) -> bool
    ensures yes { OnTrue result (AreOnRegular disks.now catalog.now.tables) }
    ensures no { OnFalse result (AreOnRegular disks.now catalog.now.tables → ⊥) }
{
    first_on_quorum(catalog, disks).is_none()
}

/// Whether a chunk is there and none of its homes does.
pub(crate) fn is_chunk_regular(catalog: &Catalog, disks: &[PstEntry], at: (u32, u32)) -> bool
    requires { AreTables catalog.now.tables }
    ensures { result ≡ passes_at (is_regular_chunk disks.now) catalog.now.tables.extents at }
{
    match catalog.chunks_from(at).next() {
        Some((first, chunk)) => {
            at.cmp(first).is_eq() && are_on_regular_all(disks, chunk.as_slice())
        }
        None => false,
    }
}

/// The first chunk with a home on such a disk.
fn first_on_quorum(catalog: &Catalog, disks: &[PstEntry]) -> Option<(u32, u32)>
    ensures { result ≡ first_wrong (is_regular_chunk disks.now) catalog.now.tables.extents }
{
    for (at, chunk) in catalog.chunks() {
        if !are_on_regular_all(disks, chunk.as_slice()) {
            return Some(*at);
        }
    }
    None
}

fn are_on_regular_all(disks: &[PstEntry], homes: &[Homes]) -> bool
    ensures { result ≡ list_all (are_on_regular disks.now) homes.now }
{
    homes.iter().all(|extent| are_on_regular(disks, extent))
}

/// Whether no home of an extent lies on such a disk.
fn are_on_regular(disks: &[PstEntry], homes: &Homes) -> bool
    ensures { result ≡ are_on_regular disks.now homes.now }
{
    let homes = *homes;
    is_on_regular(disks, homes.first)
        && is_on_regular(disks, homes.second)
        && is_on_regular(disks, homes.third)
}

fn is_on_regular(disks: &[PstEntry], home: Option<Home>) -> bool
    ensures { result ≡ is_on_regular disks.now home }
{
    match home {
        None => true,
        Some(home) => is_regular(entry_of(disks, home.disk)),
    }
}

/// Whether a disk, where it has an entry, is in no quorum failure group.
fn is_regular(entry: Option<PstEntry>) -> bool
    ensures { result ≡ is_regular entry }
{
    match entry {
        None => true,
        Some(entry) => !entry.quorum,
    }
}
