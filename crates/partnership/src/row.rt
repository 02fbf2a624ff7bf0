//! Homes for a row of new extents.

ghost use Rattle.std.specs.Prelude.{◌≡◌, ◌<◌, ◌≤◌, ◌+◌, ◌∷◌, ◌^◌, [], length, take, if◌then◌else◌, IfSome, IfNone, IsTrue, None, Some, true};
ghost use Rattle.asm_formats.specs.Status.{ascends_from};
ghost use Rattle.asm_placement.specs.DiskSets.{numbers};
ghost use Rattle.partnership.specs.Candidates.{candidates, chosen_homes};
ghost use Rattle.partnership.specs.Rows.{IsRow, home_used, homes_for_extent, homes_used};

use crate::homes::choose_homes;
use allocator::{Home, Homes, Units};
use status_table::PstEntry;
use striping::units_of;

/// Homes for new extents in turn, each chosen as `choose_homes` does while the units of those
/// before it are used: that of index `first` at the first place of the row, and so on. How many
/// extents have homes: all of the row, or those before the first for which there is no space. The
/// places behind them are as they were. `units` has the map of disk k at place k, and has the units
/// of the row's homes used afterwards. `step` is the group's number of extents of each size. It
/// takes no memory.
pub fn choose_row(
    disks: &[PstEntry],
    units: &mut [Units],
    copies: u8,
    step: u32,
    first: u64,
    row: &mut [Homes],
) -> usize
    requires order { IsTrue (ascends_from 0 (numbers disks.now)) }
    requires few { first + length row.old < 2 ^ 63 }
    ensures places { length row.new ≡ length row.old }
    ensures within { result ≤ length row.new }
    ensures row { IsRow (record { entries = disks.now; copies = copies; step = step }) first
        units.old (take result row.new) units.new }
    ensures no_space { result < length row.new → homes_for_extent
        (record { entries = disks.now; copies = copies; step = step }) units.new (first + result)
        ≡ None }
{
    for place in 0..row.len() {
        match choose_next(disks, units, copies, units_of(step, first + place as u64)) {
            Some(homes) => row[place] = homes,
            None => return place,
        }
    }
    row.len()
}

/// Homes for one extent of n units, whose units are used then.
fn choose_next(disks: &[PstEntry], units: &mut [Units], copies: u8, n: u32) -> Option<Homes>
    requires order { IsTrue (ascends_from 0 (numbers disks.now)) }
    requires some { 0 < n }
    ensures chosen { result ≡ chosen_homes (candidates n disks.now units.old) copies }
    ensures used { IfSome result (λ homes. homes_used n units.old homes ≡ Some units.new) }
    ensures same { IfNone result (units.new ≡ units.old) }
{
    let homes = choose_homes(disks, units, copies, n)?;
    let _all_are_free = use_homes(units, &homes, n);
    Some(homes)
}

/// Makes the units of an extent's homes used. False where one of them isn't free.
fn use_homes(units: &mut [Units], homes: &Homes, n: u32) -> bool
    requires { 0 < n }
    ensures { homes_used n units.old homes.now ≡ (if result then Some units.new else None) }
{
    let homes = *homes;
    use_three(units, homes.first, homes.second, homes.third, n)
}

#[tactic(auto, using(crate::proofs::Rows::first_refused, crate::proofs::Rows::second_refused, crate::proofs::Rows::third_is))]
fn use_three(
    units: &mut [Units],
    first: Option<Home>,
    second: Option<Home>,
    third: Option<Home>,
    n: u32,
) -> bool
    requires { 0 < n }
    ensures { homes_used n units.old (first ∷ second ∷ third ∷ [])
        ≡ (if result then Some units.new else None) }
{
    if !use_home(units, first, n) {
        return false;
    }
    if !use_home(units, second, n) {
        return false;
    }
    use_home(units, third, n)
}

/// The same for one home, where it is there.
fn use_home(units: &mut [Units], home: Option<Home>, n: u32) -> bool
    requires { 0 < n }
    ensures { home_used n units.old home ≡ (if result then Some units.new else None) }
{
    match home {
        None => true,
        Some(home) => use_run(units, home, n),
    }
}

#[tactic(auto, using(crate::proofs::Rows::no_disk))]
fn use_run(units: &mut [Units], home: Home, n: u32) -> bool
    requires { 0 < n }
    ensures { home_used n units.old (Some home) ≡ (if result then Some units.new else None) }
{
    let disk = home.disk as usize;
    if disk >= units.len() {
        return false;
    }
    units[disk].mark(home.unit, n)
}
