//! Whether a copy of an extent may have a home.

ghost use Rattle.std.specs.Bool.{OnTrue};
ghost use Rattle.std.specs.Prelude.{◌≡◌, ◌<◌, IsTrue, Some, is_some, slice_set};
ghost use Rattle.asm_placement.specs.Layout.{units_of};
ghost use Rattle.plan_records.specs.allocator.UnitMaps.{IsFreeRun};
ghost use Rattle.plan_records.specs.extent_map.Extents.{HasExtent};
ghost use Rattle.plan_records.specs.file_directory.Files.{head_at};
ghost use Rattle.catalog.specs.ExtentPlans.{MayMove, homes_moved, is_copy_of};
ghost use Rattle.plan_records.specs.catalog_tables.Placing.{home_taken};
ghost use Rattle.plan_records.specs.catalog_tables.Rules.{are_on_disks};

use crate::catalog::Catalog;
use asm_base::{ExtentId, Home, Homes};
use plan_records::{Units, are_on_disks};

impl Catalog {
    /// Whether a copy of an extent may move to a home: the extent is there and may have the copy,
    /// its other copies are on other disks, and the disk's lowest run of free units that is long
    /// enough begins at the unit.
    pub fn may_move(&self, x: ExtentId, copy: u8, to: Home) -> bool
        ensures { OnTrue result (MayMove self.now x.file x.index copy to) }
    {
        is_copy(self, x.file, copy) && is_apart(self, x, copy, to) && is_free(self, x.index, to)
    }
}

/// Whether a file, where it has a head, has a copy of this number.
fn is_copy(catalog: &Catalog, file: u32, copy: u8) -> bool
    ensures three { OnTrue result (copy < 3) }
    ensures below { OnTrue result (IsTrue (is_copy_of (head_at catalog.now.tables.files file)
        copy)) }
{
    match catalog.file(file) {
        Some(head) => copy < 3 && copy < head.copies,
        None => copy < 3,
    }
}

/// Whether an extent is there and its other copies are on other disks.
#[tactic(auto, using(crate::proofs::MovedHomes::extent_there))]
fn is_apart(catalog: &Catalog, x: ExtentId, copy: u8, to: Home) -> bool
    requires { copy < 3 }
    ensures there { OnTrue result (HasExtent catalog.now.tables.extents x.file x.index) }
    ensures apart { OnTrue result (IsTrue (are_on_disks
        (homes_moved catalog.now.tables x.file x.index copy to))) }
{
    match catalog.homes(x) {
        Some(homes) => are_on_disks(&with_home(homes, copy, to)),
        None => false,
    }
}

/// The homes of an extent with this one of a copy.
pub(crate) fn with_home(homes: Homes, copy: u8, home: Home) -> Homes
    requires { copy < 3 }
    ensures { result ≡ slice_set homes copy (Some home) }
{
    let Homes {
        first,
        second,
        third,
    } = homes;
    match copy {
        0 => Homes {
            first: Some(home),
            second,
            third,
        },
        1 => Homes {
            first,
            second: Some(home),
            third,
        },
        _ => Homes {
            first,
            second,
            third: Some(home),
        },
    }
}

/// Whether the disk's lowest run of free units for an extent of this index begins at the unit.
fn is_free(catalog: &Catalog, index: u32, to: Home) -> bool
    ensures { OnTrue result (IsTrue (is_some
        (home_taken catalog.now.units to (units_of catalog.now.shape.step index)))) }
{
    has_run(catalog.units(), to, catalog.units_of(index))
}

/// Whether the lowest run of so many free units of a home's disk begins at its unit.
fn has_run(units: &[Units], home: Home, n: u32) -> bool
    requires { 0 < n }
    ensures { OnTrue result (IsTrue (is_some (home_taken units.now home n))) }
{
    let disk = home.disk as usize;
    if disk >= units.len() {
        return false;
    }
    begins_at(&units[disk], n, home.unit)
}

/// Whether the lowest run of so many free units begins at this one.
fn begins_at(units: &Units, n: u32, unit: u32) -> bool
    requires { 0 < n }
    ensures { OnTrue result (IsFreeRun units.now unit n) }
{
    match units.lowest(n) {
        Some(first) => first == unit,
        None => false,
    }
}
