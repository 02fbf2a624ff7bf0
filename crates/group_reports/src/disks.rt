//! What lsdg shows of a group's disks together.

ghost use Rattle.std.specs.Prelude.{◌≡◌, ◌≤◌, ◌*◌, ◌^◌, List, length, filter, slice_get};
ghost use Rattle.asm_group.specs.Modes.{is_offline};
ghost use Rattle.asm_group.specs.Shape.{Shape};
ghost use Rattle.asm_formats.specs.Items.{Item};
ghost use Rattle.asm_placement.specs.Space.{total};
ghost use Rattle.extent_copies.specs.partnership.UnitsOf.{AreUnitsOf};
ghost use Rattle.group_reports.specs.Disks as specs;
ghost use Rattle.group_reports.specs.Disks.{counted_disks, free_at, free_in, group_row, is_counted, offline_disks, row_by};

use allocator::Units;
use asm_base::Mode;
use catalog_laws::Catalog;
use status_table::{PstEntry, PstRecord};
use std::marker::Model;

/// The numbers of a row of `lsdg`. Contracts see the row of the reports.
#[derive(Clone, Copy, Debug, PartialEq, Eq)]
pub struct GroupTotals {
    /// Whether a rebalance is active, with whatever power.
    pub rebalancing: bool,
    /// Units of the regular disks that aren't Forced.
    pub total: u64,
    /// Free user units of these.
    pub free: u64,
    /// How many disks are Offline.
    pub offline: u64,
}

impl Model for GroupTotals {
    ghost use Rattle.asm_world.specs.Reports.{GroupRow};

    ghost Value = { GroupRow };

    ghost view = { λ t. record { rebalancing = t.rebalancing; total = t.total; free = t.free; offline = t.offline } };

    ghost inverse = { λ r. record { rebalancing = r.rebalancing; total = r.total; free = r.free; offline = r.offline } };
}

/// The totals of a group: what lsdg shows. It goes over the disks, and takes no memory.
#[tactic(auto, using(crate::proofs::Free::row_placed))]
pub fn group_totals(catalog: &Catalog, status: &PstRecord) -> GroupTotals
    ensures value { result ≡ group_row catalog.now status.now.entries }
    // Where the units are those of a group's records, the free ones are those under no home.
    ensures placement { (s : Shape) (items : List Item)
        → AreUnitsOf s items status.now.entries catalog.now.units
        → result ≡ row_by (specs.free_units s items) catalog.now.tables.operations.rebalance
        status.now.entries }
{
    totals(catalog, status)
}

fn totals(catalog: &Catalog, status: &PstRecord) -> GroupTotals
    ensures { result ≡ group_row catalog.now status.now.entries }
{
    totals_by(catalog.rebalance(), status.entries(), catalog.units())
}

fn totals_by(power: Option<u16>, disks: &[PstEntry], units: &[Units]) -> GroupTotals
    requires { length disks.now ≤ 64 }
    ensures { result ≡ row_by (free_at units.now) power disks.now }
{
    GroupTotals {
        rebalancing: power.is_some(),
        total: units_of_all(disks),
        free: free_of_all(disks, units),
        offline: offline_disks(disks),
    }
}

/// The units of the disks that count.
fn units_of_all(disks: &[PstEntry]) -> u64
    requires { length disks.now ≤ 64 }
    ensures total { result ≡ total (λ e. e.units) (counted_disks disks.now) }
    ensures small { result ≤ length disks.now * 2 ^ 32 }
{
    match disks {
        [] => 0,
        [first, later @ ..] => {
            let others = units_of_all(later);
            if is_counted(first) {
                others + first.units as u64
            } else {
                others
            }
        }
    }
}

/// Their free user units.
fn free_of_all(disks: &[PstEntry], units: &[Units]) -> u64
    requires { length disks.now ≤ 64 }
    ensures total { result ≡ total (free_at units.now) (counted_disks disks.now) }
    ensures small { result ≤ length disks.now * 2 ^ 32 }
{
    match disks {
        [] => 0,
        [first, later @ ..] => {
            let others = free_of_all(later, units);
            if is_counted(first) {
                others + free_at(units, first.number) as u64
            } else {
                others
            }
        }
    }
}

fn offline_disks(disks: &[PstEntry]) -> u64
    requires { length disks.now ≤ 64 }
    ensures count { result ≡ offline_disks disks.now }
    ensures few { result ≤ length disks.now }
{
    match disks {
        [] => 0,
        [first, later @ ..] => {
            let others = offline_disks(later);
            if is_offline(first.mode) {
                others + 1
            } else {
                others
            }
        }
    }
}

/// Whether the disk counts for the totals: it is regular and not Forced.
fn is_counted(disk: &PstEntry) -> bool
    ensures { result ≡ is_counted disk.now }
{
    !disk.quorum && !matches!(disk.mode, Mode::Forced)
}

pub(crate) fn is_offline(mode: Mode) -> bool
    ensures { result ≡ is_offline mode }
{
    matches!(mode, Mode::Offline)
}

/// The free user units of a disk, and 0 where no unit map is at the place of its number.
pub(crate) fn free_at(units: &[Units], disk: u8) -> u32
    ensures { result ≡ free_in (slice_get units.now disk) }
{
    match units.get(disk as usize) {
        Some(map) => map.total() - map.used(),
        None => 0,
    }
}
