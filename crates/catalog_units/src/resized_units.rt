//! The units of the disks whose number of units a status record changes.

ghost use Rattle.std.specs.Prelude.{◌≡◌, ◌≤◌, ◌++◌, ◌∷◌, [], IfOk, IsTrue, OnOk, Some, slice_set};
ghost use Rattle.std.specs.List.{list_all, slice_get};
ghost use Rattle.asm_formats.specs.Status.{is_entry};
ghost use Rattle.catalog_tables.specs.Placing.{changed_map, changed_maps, disk_units, put_maps};

use asm_base::{MOST_DISKS, NoMemory};
use catalog_tables::{PstEntry, Units, disk_units};
use std::alloc::Global;

/// The maps of the disks whose number of units some entries change, each with its number.
pub fn changed_maps(
    alloc: Global,
    units: &[Units],
    entries: &[PstEntry],
) -> Result<Vec<(u8, Units)>, NoMemory>
    requires { IsTrue (list_all is_entry entries.now) }
    ensures { IfOk result (λ v. v.items ≡ changed_maps units.now entries.now) }
{
    let mut changed = Vec::new(alloc);
    for number in 0..MOST_DISKS {
        push_changed(&mut changed, units, entries, number)?;
    }
    Ok(changed)
}

/// One disk's map behind the others, where the entries change its number of units.
fn push_changed(
    changed: &mut Vec<(u8, Units)>,
    units: &[Units],
    entries: &[PstEntry],
    number: u8,
) -> Result<(), NoMemory>
    requires { IsTrue (list_all is_entry entries.now) }
    ensures { OnOk result (changed.new.items
        ≡ changed.old.items ++ changed_map number (disk_units entries.now number)
        (slice_get units.now number)) }
{
    match units.get(number as usize) {
        Some(map) => push_resized(changed, number, map, disk_units(entries, number)),
        None => Ok(()),
    }
}

/// The same of a map.
#[tactic(auto, using(crate::proofs::ResizedUnits::changed_none, crate::proofs::ResizedUnits::changed_one))]
fn push_resized(
    changed: &mut Vec<(u8, Units)>,
    number: u8,
    map: &Units,
    count: u32,
) -> Result<(), NoMemory>
    requires { count ≤ 16777216 }
    ensures { OnOk result (changed.new.items
        ≡ changed.old.items ++ changed_map number count (Some map.now)) }
{
    if map.size() == count {
        return Ok(());
    }
    let map = map.resized(count)?;
    push(changed, number, map)
}

fn push(changed: &mut Vec<(u8, Units)>, number: u8, map: Units) -> Result<(), NoMemory>
    ensures { OnOk result (changed.new.items ≡ changed.old.items ++ (number, map) ∷ []) }
{
    match changed.push((number, map)) {
        Ok(_) => Ok(()),
        Err(_) => Err(NoMemory),
    }
}

/// Puts maps in the places of their numbers.
pub fn put_in(units: &mut Vec<Units>, changed: Vec<(u8, Units)>)
    ensures { units.new.items ≡ put_maps units.old.items changed.items }
{
    put_maps(units, changed);
}

/// The same in a slice.
fn put_maps(units: &mut [Units], changed: Vec<(u8, Units)>)
    ensures { units.new ≡ put_maps units.old changed.items }
{
    for (number, map) in changed {
        put_map(units, number, map);
    }
}

fn put_map(units: &mut [Units], number: u8, map: Units)
    ensures { units.new ≡ slice_set units.old number map }
{
    let place = number as usize;
    if place < units.len() {
        units[place] = map;
    }
}
