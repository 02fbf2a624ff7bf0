//! The units of the disks, from the homes that the tables name.

ghost use Rattle.std.specs.Prelude.{◌≡◌, ◌↔◌, ◌≤◌, ◌<◌, ◌+◌, ◌*◌, ◌∷◌, ◌++◌, [], ◌^◌, length, map, if◌then◌else◌, IfOk, IsTrue, None, OnErr, OnOk, Some, true, IfNone};
ghost use Rattle.std.specs.Bool.{OnFalse, OnTrue};
ghost use Rattle.std.specs.List.{list_all, slice_get};
ghost use Rattle.asm_formats.specs.Items.{Home as FormatHome};
ghost use Rattle.asm_formats.specs.Regions.{reserved_units};
ghost use Rattle.asm_formats.specs.Status.{is_entry};
ghost use Rattle.asm_group.specs.Shape.{is_shape};
ghost use Rattle.partnership.specs.asm_placement.Placed.{placed_copies, placed_extents};
ghost use Rattle.catalog_tables.specs.Placing.{AreFit, IsFit, after_chunks, after_homes, disk_units, have_units, home_placed, home_taken, map_units, first_misplaced, unused_maps};

use asm_base::{Home, Homes, MOST_DISKS, NoMemory, Shape};
use extent_map::ExtentMap;
use page_map::Units;
use partnership::{PstEntry, units_of};
use std::alloc::Global;

/// Makes the units of the homes of all chunks used. The first chunk that has a home whose units
/// aren't free.
#[tactic(auto, using(crate::proofs::PlacingLaws::next_chunk, crate::proofs::PlacingLaws::no_chunks, crate::proofs::PlacingLaws::chunk_refused))]
fn place_all(units: &mut [Units], step: u32, extents: &ExtentMap) -> Option<(u32, u32)>
    ensures fault { result ≡ first_misplaced step units.old extents.now }
    ensures after { IfNone result (after_chunks step units.old extents.now ≡ Some units.new) }
{
    for (at, chunk) in extents.iter() {
        if !place_chunk(units, step, at.0, at.1 as u64 * 256, chunk.as_slice()) {
            return Some(*at);
        }
    }
    None
}

/// The same of a vector.
pub(crate) fn place_in(units: &mut Vec<Units>, step: u32, extents: &ExtentMap) -> Option<(u32, u32)>
    ensures fault { result ≡ first_misplaced step units.old.items extents.now }
    ensures after { IfNone result (after_chunks step units.old.items extents.now
        ≡ Some units.new.items) }
{
    place_all(units, step, extents)
}

/// The same for the extents of a chunk, the first of which has this index. `false` where one has a
/// home whose units aren't free.
#[tactic(auto, using(crate::proofs::PlacingLaws::next_extent, crate::proofs::PlacingLaws::extent_refused, crate::proofs::PlacingLaws::no_extents))]
pub fn place_chunk(units: &mut [Units], step: u32, file: u32, first: u64, extents: &[Homes]) -> bool
    requires { first + length extents.now < 2 ^ 63 }
    ensures { after_homes units.old (placed_extents step file first extents.now)
        ≡ (if result then Some units.new else None) }
{
    let mut index = first;
    for homes in extents {
        if !place_extent(units, file, index, units_of(step, index), homes) {
            return false;
        }
        index += 1;
    }
    true
}

/// The same for the homes of an extent of so many units.
pub fn place_extent(units: &mut [Units], file: u32, index: u64, len: u32, homes: &Homes) -> bool
    requires { 0 < len }
    ensures { after_homes units.old (placed_copies file index len homes.now)
        ≡ (if result then Some units.new else None) }
{
    let homes = *homes;
    place_three(
        units,
        file,
        index,
        len,
        homes.first,
        homes.second,
        homes.third,
    )
}

#[tactic(auto, using(crate::proofs::PlacingLaws::first_refused, crate::proofs::PlacingLaws::second_refused, crate::proofs::PlacingLaws::third_is))]
fn place_three(
    units: &mut [Units],
    file: u32,
    index: u64,
    len: u32,
    first: Option<Home>,
    second: Option<Home>,
    third: Option<Home>,
) -> bool
    requires { 0 < len }
    ensures { after_homes units.old (placed_copies file index len (first ∷ second ∷ third ∷ []))
        ≡ (if result then Some units.new else None) }
{
    if !place(units, first, len) {
        return false;
    }
    if !place(units, second, len) {
        return false;
    }
    place(units, third, len)
}

/// The same for one home, where it is there.
fn place(units: &mut [Units], home: Option<Home>, len: u32) -> bool
    requires { 0 < len }
    ensures { home_placed units.old home len ≡ (if result then Some units.new else None) }
{
    match home {
        None => true,
        Some(home) => take(units, home, len),
    }
}

/// Makes a run of units used, where they are free user units of its disk.
#[tactic(auto, using(crate::proofs::PlacingLaws::no_disk, crate::proofs::PlacingLaws::taken_is))]
fn take(units: &mut [Units], home: Home, len: u32) -> bool
    requires { 0 < len }
    ensures { home_taken units.old home len ≡ (if result then Some units.new else None) }
{
    let disk = home.disk as usize;
    if disk >= units.len() {
        return false;
    }
    units[disk].mark(home.unit, len)
}

/// The units of all disk numbers, with no user unit used. A number without an entry has none.
#[tactic(auto, using(crate::proofs::UnusedLaws::one_more))]
pub(crate) fn unused_units(
    alloc: Global,
    shape: &Shape,
    entries: &[PstEntry],
) -> Result<Vec<Units>, NoMemory>
    requires shape { IsTrue (is_shape shape.now) }
    requires entries { IsTrue (list_all is_entry entries.now) }
    ensures { IfOk result (λ v. v.items ≡ unused_maps shape.now entries.now) }
{
    let first = reserved_units(shape);
    let mut units = Vec::new(alloc);
    for number in 0..MOST_DISKS {
        let map = Units::new(alloc, first, disk_units(entries, number))?;
        push(&mut units, map)?;
    }
    Ok(units)
}

/// Whether the maps have as many units as the entries give each disk number.
pub fn have_units(units: &[Units], entries: &[PstEntry]) -> bool
    ensures { result ≡ have_units units.now entries.now }
{
    for number in 0..MOST_DISKS {
        if map_units(units, number) != units_in(entries, number) {
            return false;
        }
    }
    true
}

/// Whether no unit is used that a disk lacks by its entry.
pub fn are_fit(units: &[Units], entries: &[PstEntry]) -> bool
    ensures fit { OnTrue result (AreFit units.now entries.now) }
    ensures not { OnFalse result (¬ AreFit units.now entries.now) }
{
    for number in 0..MOST_DISKS {
        if !is_fit(units, entries, number) {
            return false;
        }
    }
    true
}

fn is_fit(units: &[Units], entries: &[PstEntry], number: u8) -> bool
    ensures { IsTrue result ↔ IsFit (slice_get units.now number) (disk_units entries.now number) }
{
    match units.get(number as usize) {
        Some(map) => map.is_unused_from(units_in(entries, number)),
        None => true,
    }
}

/// The units of a disk by its map, reserved ones included, and 0 where there is no map.
fn map_units(units: &[Units], number: u8) -> u32
    ensures { result ≡ map_units (slice_get units.now number) }
{
    match units.get(number as usize) {
        Some(map) => map.size(),
        None => 0,
    }
}

fn push(units: &mut Vec<Units>, map: Units) -> Result<(), NoMemory>
    ensures { OnOk result (units.new.items ≡ units.old.items ++ map ∷ []) }
{
    match units.push(map) {
        Ok(_) => Ok(()),
        Err(_) => Err(NoMemory),
    }
}

/// The units of a disk by its entry, reserved ones included.
#[tactic(auto, using(crate::proofs::UnusedLaws::few_found))]
pub fn disk_units(entries: &[PstEntry], number: u8) -> u32
    requires { IsTrue (list_all is_entry entries.now) }
    ensures units { result ≡ disk_units entries.now number }
    ensures few { result ≤ 16777216 }
{
    units_in(entries, number)
}

fn units_in(entries: &[PstEntry], number: u8) -> u32
    ensures { result ≡ disk_units entries.now number }
{
    for entry in entries {
        if entry.number == number {
            return entry.units;
        }
    }
    0
}

/// Units of a disk that hold no user bytes.
fn reserved_units(shape: &Shape) -> u32
    requires { IsTrue (is_shape shape.now) }
    ensures { result ≡ reserved_units shape.now }
{
    disk_sizes::reserved_units(shape) as u32
}
