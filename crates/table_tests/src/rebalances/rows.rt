//! Rows of a rebalance: what it does first, and whole ones, move by move. In each row file 256 has
//! extents of one unit in two copies, none of which is stale, and each of five disks has a record.

use crate::rebalances::group::{Step, play};
use asm_base::Mode;
use sample_group::Edit;
use std::alloc::Global;
use std::test::*;

/// The homes of an extent: disk and unit of the one copy and of the other.
type Pair = [u8; 4];

/// One extent, on disks 0 and 1.
const ONE_EXTENT: [Edit<'static>; 6] = [
    Edit::Head(2, 1_048_576),
    Edit::Chunk(256, 0, &[[0, 2, 1, 2]]),
    Edit::Marks(256, 0, &[]),
    Edit::Disk(2, 3),
    Edit::Disk(3, 4),
    Edit::Disk(4, 5),
];

/// Nothing is left to do where each copy is on an Online disk and none of these is far from its
/// share.
const DONE: [Step; 1] = [Step::Done];

/// Where no other disk may take the copy, there is no space for it.
const NO_SPACE: [Step; 1] = [Step::NoSpace(0)];

/// Two extents, of which one has a copy on disk 3.
const DROPPED: [Edit<'static>; 6] = [
    Edit::Head(2, 2_097_152),
    Edit::Chunk(256, 0, &[[0, 2, 1, 2], [3, 2, 1, 3]]),
    Edit::Marks(256, 0, &[]),
    Edit::Disk(2, 3),
    Edit::Disk(3, 4),
    Edit::Disk(4, 5),
];

/// A copy on a disk that is dropped goes to the first of the others in order.
const REMOVAL: [Step; 1] = [Step::Shift(1, 0, 2, 2)];

/// The same, but it is the other copy.
const FORCED: [Edit<'static>; 6] = [
    Edit::Head(2, 2_097_152),
    Edit::Chunk(256, 0, &[[0, 2, 1, 2], [0, 3, 3, 2]]),
    Edit::Marks(256, 0, &[]),
    Edit::Disk(2, 3),
    Edit::Disk(3, 4),
    Edit::Disk(4, 5),
];

/// A copy on a disk that was dropped by force is filled.
const FILLED: [Step; 1] = [Step::Fill(1, 1, 2, 2)];

/// Two extents, on two disks each.
const OFFLINE: [Edit<'static>; 6] = [
    Edit::Head(2, 2_097_152),
    Edit::Chunk(256, 0, &[[2, 2, 3, 2], [0, 2, 1, 2]]),
    Edit::Marks(256, 0, &[]),
    Edit::Disk(2, 3),
    Edit::Disk(3, 4),
    Edit::Disk(4, 5),
];

/// An extent whose disks are both offline is lost.
const LOST: [Step; 1] = [Step::Lost(1)];

/// 14 extents, in turn on disks 0 and 1 and on disks 2 and 3.
const FIRST: [Pair; 14] = [
    [0, 2, 1, 2],
    [2, 2, 3, 2],
    [0, 3, 1, 3],
    [2, 3, 3, 3],
    [0, 4, 1, 4],
    [2, 4, 3, 4],
    [0, 5, 1, 5],
    [2, 5, 3, 5],
    [0, 6, 1, 6],
    [2, 6, 3, 6],
    [0, 7, 1, 7],
    [2, 7, 3, 7],
    [0, 8, 1, 8],
    [2, 8, 3, 8],
];

/// The same behind them.
const SECOND: [Pair; 14] = [
    [0, 9, 1, 9],
    [2, 9, 3, 9],
    [0, 10, 1, 10],
    [2, 10, 3, 10],
    [0, 11, 1, 11],
    [2, 11, 3, 11],
    [0, 12, 1, 12],
    [2, 12, 3, 12],
    [0, 13, 1, 13],
    [2, 13, 3, 13],
    [0, 14, 1, 14],
    [2, 14, 3, 14],
    [0, 15, 1, 15],
    [2, 15, 3, 15],
];

/// Two files of 14 extents.
const TWO_FILES: [Edit<'static>; 9] = [
    Edit::Head(2, 14_680_064),
    Edit::Chunk(256, 0, &FIRST),
    Edit::Marks(256, 0, &[]),
    Edit::Second(2, 14_680_064),
    Edit::Chunk(257, 0, &SECOND),
    Edit::Marks(257, 0, &[]),
    Edit::Disk(2, 3),
    Edit::Disk(3, 4),
    Edit::Disk(4, 5),
];

/// Four disks of 16 user units, of which the last is dropped: four copies find room, and then none.
const NO_SPACE_LEFT: [Step; 5] = [
    Step::Shift(1, 1, 0, 16),
    Step::Shift(3, 1, 1, 16),
    Step::Shift(5, 1, 0, 17),
    Step::Shift(7, 1, 1, 17),
    Step::NoSpace(9),
];

/// The homes of the first file once these four copies have moved.
const MOVED: [Pair; 14] = [
    [0, 2, 1, 2],
    [2, 2, 0, 16],
    [0, 3, 1, 3],
    [2, 3, 1, 16],
    [0, 4, 1, 4],
    [2, 4, 0, 17],
    [0, 5, 1, 5],
    [2, 5, 1, 17],
    [0, 6, 1, 6],
    [2, 6, 3, 6],
    [0, 7, 1, 7],
    [2, 7, 3, 7],
    [0, 8, 1, 8],
    [2, 8, 3, 8],
];

/// That file alone.
const ONE_FILE: [Edit<'static>; 6] = [
    Edit::Head(2, 14_680_064),
    Edit::Chunk(256, 0, &MOVED),
    Edit::Marks(256, 0, &[]),
    Edit::Disk(2, 3),
    Edit::Disk(3, 4),
    Edit::Disk(4, 5),
];

/// Once the second file is removed, the other three copies move, and two more for balance.
const REMOVAL_DONE: [Step; 6] = [
    Step::Shift(9, 1, 0, 9),
    Step::Shift(11, 1, 1, 9),
    Step::Shift(13, 1, 0, 10),
    Step::Shift(0, 0, 2, 9),
    Step::Shift(2, 0, 2, 10),
    Step::Done,
];

/// Four extents, in turn on disks 0 and 1 and on disks 2 and 3.
const FOUR_EXTENTS: [Edit<'static>; 6] = [
    Edit::Head(2, 4_194_304),
    Edit::Chunk(
        256,
        0,
        &[[0, 2, 1, 2], [2, 2, 3, 2], [0, 3, 1, 3], [2, 3, 3, 3]],
    ),
    Edit::Marks(256, 0, &[]),
    Edit::Disk(2, 3),
    Edit::Disk(3, 4),
    Edit::Disk(4, 5),
];

/// A fifth disk takes one copy of a file of four extents.
const ADDING_A_DISK: [Step; 2] = [Step::Shift(0, 0, 4, 2), Step::Done];

/// Modes of the disks: four or five that are Online.
const FOUR: [Mode; 4] = [Mode::Online; 4];

const FIVE: [Mode; 5] = [Mode::Online; 5];

/// Two, of which the second is dropped.
const SECOND_DROPS: [Mode; 2] = [Mode::Online, Mode::Dropping];

/// Four, of which the last is dropped, or was by force.
const LAST_DROPS: [Mode; 4] = [Mode::Online, Mode::Online, Mode::Online, Mode::Dropping];

const LAST_IS_FORCED: [Mode; 4] = [Mode::Online, Mode::Online, Mode::Online, Mode::Forced];

/// Four, of which the first two are offline.
const TWO_ARE_OFFLINE: [Mode; 4] = [Mode::Offline, Mode::Offline, Mode::Online, Mode::Online];

/// Plays the rows, each in a group of its own.
fn play_rows(alloc: Global) -> Result<(), Fail> {
    play(alloc, "done", &ONE_EXTENT, (&FOUR, 64), &DONE)?;
    play(
        alloc,
        "no space",
        &ONE_EXTENT,
        (&SECOND_DROPS, 64),
        &NO_SPACE,
    )?;
    play(alloc, "removal", &DROPPED, (&LAST_DROPS, 64), &REMOVAL)?;
    play(alloc, "filled", &FORCED, (&LAST_IS_FORCED, 64), &FILLED)?;
    play(alloc, "lost", &OFFLINE, (&TWO_ARE_OFFLINE, 64), &LOST)?;
    play(
        alloc,
        "no space left",
        &TWO_FILES,
        (&LAST_DROPS, 18),
        &NO_SPACE_LEFT,
    )?;
    play(
        alloc,
        "removal done",
        &ONE_FILE,
        (&LAST_DROPS, 18),
        &REMOVAL_DONE,
    )?;
    play(
        alloc,
        "adding a disk",
        &FOUR_EXTENTS,
        (&FIVE, 64),
        &ADDING_A_DISK,
    )
}

#[test]
fn rebalances(rt: HostRuntime) -> Result<(), Fail> {
    play_rows(rt.alloc())
}
