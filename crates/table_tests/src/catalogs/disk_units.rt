//! The units of the disks are taken from the next status record.

use crate::catalogs::making::play;
use crate::catalogs::steps::{Fact, Step};
use catalog::Catalog;
use sample_group::disks;
use status_table::{PstRecord, is_status};
use std::alloc::Global;
use std::test::Fail;

/// The status record by which the second of two disks has so many units, and is in a quorum failure
/// group or not.
pub fn with_second(units: u32, quorum: bool) -> PstRecord {
    let mut status = disks(2);
    let second = &mut status.entries[1];
    second.units = units;
    second.quorum = quorum;
    status
}

/// The status record by which the two disks have so many units.
pub fn with_units(units: [u32; 2]) -> PstRecord {
    let mut status = disks(2);
    let first = &mut status.entries[0];
    first.units = units[0];
    let second = &mut status.entries[1];
    second.units = units[1];
    status
}

/// Gives a catalog the units of its disks by a next status record, where they cover its homes.
/// Whether they do; none where the record isn't one, or where there is no memory.
#[tactic(auto, unfolding(asm_formats::specs::Status::is_status))]
pub fn resized(alloc: Global, group: &mut Catalog, next: &PstRecord) -> Option<bool> {
    if !is_status(next) {
        return None;
    }
    if !group.covers(next.entries()) {
        return Some(false);
    }
    match group.ready_disks(alloc, next) {
        Ok(()) => {
            group.apply_disks(next);
            Some(true)
        }
        Err(_) => None,
    }
}

/// What is told of the user units of the two disks, on each of which three are used: how many there
/// are, and the lowest free one.
fn told(first: (u32, Option<u32>), second: (u32, Option<u32>)) -> [Step<'static>; 3] {
    [
        Step::Tells(Fact::Units(0, Some((first.0, 3, first.1)))),
        Step::Tells(Fact::Units(1, Some((second.0, 3, second.1)))),
        Step::Tells(Fact::Units(63, Some((0, 0, None)))),
    ]
}

/// Plays a row: the disks get units, and then others, where these cover the homes. What is told is
/// told after each.
fn play_two(
    alloc: Global,
    name: &'static str,
    units: [([u32; 2], bool); 2],
    told: [[Step<'static>; 3]; 2],
) -> Result<(), Fail> {
    play(
        alloc,
        name,
        &[],
        0,
        &[
            Step::Resize(units[0].0, units[0].1),
            told[0][0],
            told[0][1],
            told[0][2],
            Step::Resize(units[1].0, units[1].1),
            told[1][0],
            told[1][1],
            told[1][2],
        ],
    )
}

/// The units are those of the next entries, and those of the homes are used. Two units of a disk
/// are reserved, and the homes take the next three.
pub fn units_of_a_status_record(alloc: Global) -> Result<(), Fail> {
    let usual = told((62, Some(5)), (62, Some(5)));
    play_two(
        alloc,
        "units by as many and by fewer",
        [([64, 64], true), ([64, 32], true)],
        [usual, told((62, Some(5)), (30, Some(5)))],
    )?;
    play_two(
        alloc,
        "units up to the last used one and as before",
        [([64, 5], true), ([64, 64], true)],
        [told((62, Some(5)), (3, None)), usual],
    )?;
    play_two(
        alloc,
        "units below a used one",
        [([64, 4], false), ([4, 96], false)],
        [usual, usual],
    )?;
    play_two(
        alloc,
        "units of both disks",
        [([5, 130], true), ([6, 4], false)],
        [
            told((3, None), (128, Some(5))),
            told((3, None), (128, Some(5))),
        ],
    )
}
