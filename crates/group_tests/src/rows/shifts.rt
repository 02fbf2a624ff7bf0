//! Rows on slices of a rebalance: copies that move, are written anew or filled, directory copies,
//! status tables, disks that leave, and how it ends. File 256 has four extents of a unit, by turns
//! on disks 0 and 1, and on 2 and 3.

use crate::answers::Answer;
use crate::facts::{Fact, Report};
use crate::rows::shared::{D0, D3, F3, MAKE, SECOND};
use crate::steps::{Next, Statement, Step, Wrong};
use crate::trials::{Then, play};
use asm_base::{ExtentId, Mode};
use group_recovery::MountOption;
use relocation::Slice;
use std::alloc::Global;

const DONE: Answer = Answer::Ends(Slice::Done);

const MORE: Answer = Answer::Ends(Slice::More);

/// Disk 3 is dropped by a rebalance of power 4.
const DROP_3: Step = Step::State(Statement::Drop(&[D3], 4), Answer::Done);

/// Disk 0 is dropped, which has a status table and a directory copy.
const DROP_0: Step = Step::State(Statement::Drop(&[D0], 8), Answer::Done);

/// Where nothing is to be done the rebalance ends.
const NOTHING: [Step; 7] = [
    MAKE,
    Step::State(Statement::Rebalance(Some(3)), Answer::Done),
    Step::ToEnd(0, 0, MORE),
    Step::Tells(Fact::Rebalance(Some(3))),
    Step::Slice(3, 0, DONE),
    Step::Tells(Fact::Rebalance(None)),
    Step::Tells(Fact::Record(1, 1)),
];

/// Two copies move to disks 0 and 1, and the disk leaves.
const DROPPED: [Step; 17] = [
    MAKE,
    Step::Write(SECOND, 61, Answer::Done),
    DROP_3,
    Step::ToEnd(4, 2, DONE),
    Step::Tells(Fact::Home(1, 0, Some((2, 270)))),
    Step::Tells(Fact::Home(1, 1, Some((0, 272)))),
    Step::Tells(Fact::Home(3, 0, Some((2, 271)))),
    Step::Tells(Fact::Home(3, 1, Some((1, 272)))),
    Step::Sector(0, 272, 0, Answer::Bytes(61)),
    Step::Sector(0, 272, 3584, Answer::Bytes(61)),
    Step::Tells(Fact::Mode(3, None)),
    Step::Tells(Fact::Attached(0b111)),
    Step::Tells(Fact::HasInfo(3, false)),
    Step::Tells(Fact::Dirs(0b111)),
    Step::Tells(Fact::Rebalance(None)),
    Step::Tells(Fact::Prints(Report::Check, b"check 4 0\n")),
    Step::Slice(1, 0, DONE),
];

const THREE_DISKS: Then = Then::Mount(
    MountOption::NoForce,
    &[
        Step::Tells(Fact::Attached(0b111)),
        Step::Fails(2, true),
        Step::Read(SECOND, Answer::Bytes(61)),
    ],
);

/// A slice does as many steps as its power. A disk that isn't dropped any more gets a copy for
/// balance, and then nothing is left.
const SLICES: [Step; 11] = [
    MAKE,
    DROP_3,
    Step::Slice(1, 1, MORE),
    Step::Tells(Fact::Home(1, 1, Some((0, 272)))),
    Step::Tells(Fact::Home(3, 1, Some((3, 271)))),
    Step::Tells(Fact::Rebalance(Some(4))),
    Step::State(Statement::Undrop, Answer::Done),
    Step::Slice(1, 1, DONE),
    Step::Tells(Fact::Home(0, 0, Some((3, 270)))),
    Step::Tells(Fact::Rebalance(None)),
    Step::Tells(Fact::Attached(0b1111)),
];

/// The directory copy and the status table go to disk 3, in a step each.
const TABLES: [Step; 12] = [
    DROP_0,
    Step::Slice(1, 1, MORE),
    Step::Tells(Fact::Dirs(0b1111)),
    Step::Tells(Fact::Holders(0b111, 0)),
    Step::Tells(Fact::Mode(0, Some(Mode::Dropping))),
    Step::Slice(1, 1, DONE),
    Step::Tells(Fact::Holders(0b1110, 0)),
    Step::Tells(Fact::Dirs(0b1110)),
    Step::Tells(Fact::Mode(0, None)),
    Step::Tells(Fact::Attached(0b1110)),
    Step::MakeDir(b"+D/a", Answer::Done),
    Step::Fails(0, true),
];

const MOVED: Then = Then::Mount(
    MountOption::NoForce,
    &[
        Step::Tells(Fact::Attached(0b1110)),
        Step::Tells(Fact::HasDir(b"+D/a", true)),
        Step::Tells(Fact::Holders(0b1110, 0)),
    ],
);

/// The disk that is to have the directory copy fails. The rebalance stays active, and goes on.
const COPY_FAILS: [Step; 10] = [
    DROP_0,
    Step::Fails(3, true),
    Step::Slice(8, 0, Answer::WriteFault(3)),
    Step::Tells(Fact::Rebalance(Some(8))),
    Step::Tells(Fact::Mode(3, Some(Mode::Online))),
    Step::Tells(Fact::Dirs(0b111)),
    Step::Tells(Fact::IsMounted(true)),
    Step::Fails(3, false),
    Step::ToEnd(8, 2, DONE),
    Step::Tells(Fact::Dirs(0b1110)),
];

/// Both copies of an extent are on Offline disks.
const LOST: [Step; 6] = [
    MAKE,
    Step::Record(Next::Mode(2, Mode::Offline), Answer::Done),
    Step::Record(Next::Mode(3, Mode::Offline), Answer::Done),
    Step::State(Statement::Rebalance(Some(4)), Answer::Done),
    Step::Slice(
        4,
        0,
        Answer::Ends(Slice::Lost(ExtentId {
            file: 256,
            index: 1,
        })),
    ),
    Step::Tells(Fact::Rebalance(None)),
];

/// All sources fail: the move stays, and so do the modes and the rebalance.
const SOURCES_FAIL: [Step; 15] = [
    MAKE,
    DROP_3,
    Step::Fails(2, true),
    Step::Fails(3, true),
    Step::Slice(4, 0, Answer::ReadFault(2)),
    Step::Tells(Fact::IsMoving(true)),
    Step::Tells(Fact::Copied(0)),
    Step::Tells(Fact::Rebalance(Some(4))),
    Step::Tells(Fact::Mode(2, Some(Mode::Online))),
    Step::Tells(Fact::Mode(3, Some(Mode::Dropping))),
    Step::Tells(Fact::Home(1, 1, Some((3, 270)))),
    Step::Fails(2, false),
    // The header of the disk that leaves can't be closed, which isn't answered.
    Step::Slice(4, 2, DONE),
    Step::Tells(Fact::Mode(3, None)),
    Step::Tells(Fact::Attached(0b111)),
];

/// One source fails: the other is read. The commits lose the directory copy on the disk, which is
/// to be restored then.
const SOURCE_FAILS: [Step; 12] = [
    MAKE,
    Step::Write(SECOND, 61, Answer::Done),
    DROP_3,
    Step::Fails(2, true),
    Step::Slice(4, 2, Answer::WriteFault(2)),
    Step::Tells(Fact::Home(1, 1, Some((0, 272)))),
    Step::Tells(Fact::Home(3, 1, Some((1, 272)))),
    Step::Tells(Fact::Dirs(0b11)),
    Step::Tells(Fact::Rebalance(Some(4))),
    Step::Fails(2, false),
    Step::Slice(4, 1, DONE),
    Step::Tells(Fact::Dirs(0b111)),
];

/// The target fails: the move is given up, and begins anew.
const TARGET_FAILS: [Step; 13] = [
    MAKE,
    Step::Write(SECOND, 61, Answer::Done),
    DROP_3,
    Step::Fails(0, true),
    Step::Slice(4, 0, Answer::WriteFault(0)),
    Step::Tells(Fact::IsMoving(false)),
    Step::Tells(Fact::Rebalance(Some(4))),
    Step::Tells(Fact::Mode(0, Some(Mode::Online))),
    Step::Tells(Fact::Home(1, 1, Some((3, 270)))),
    Step::Tells(Fact::IsMounted(true)),
    Step::Fails(0, false),
    Step::Slice(4, 2, DONE),
    Step::Sector(0, 272, 0, Answer::Bytes(61)),
];

/// The commit of the new home reaches one directory copy, and no majority takes the record that
/// says so.
const UNWRITTEN: [Step; 6] = [
    MAKE,
    DROP_3,
    Step::Fails(1, true),
    Step::Fails(2, true),
    Step::Slice(4, 0, Answer::Dismounted(0b110)),
    Step::Tells(Fact::Dismounted(0b110)),
];

/// A stale copy on an Online disk is written anew in place.
const RECOPIED: [Step; 11] = [
    MAKE,
    Step::Write(SECOND, 61, Answer::Done),
    Step::Fails(3, true),
    Step::Write(SECOND, 62, Answer::Failed(0b1000)),
    Step::Fails(3, false),
    Step::Record(Next::Mode(3, Mode::Online), Answer::Done),
    Step::Slice(1, 1, DONE),
    Step::Tells(Fact::Marks(1, 0)),
    Step::Tells(Fact::Home(1, 1, Some((3, 270)))),
    Step::Sector(3, 270, 0, Answer::Bytes(62)),
    Step::Sector(3, 270, 3584, Answer::Bytes(62)),
];

/// The copies of a disk that was dropped by force are filled from the others, and it leaves.
const FILLED: [Step; 11] = [
    MAKE,
    Step::Write(SECOND, 61, Answer::Done),
    Step::State(Statement::Drop(&[F3], 4), Answer::Done),
    Step::Fails(3, true),
    Step::ToEnd(1, 2, DONE),
    Step::Tells(Fact::Home(1, 1, Some((0, 272)))),
    Step::Tells(Fact::Home(3, 1, Some((1, 272)))),
    Step::Sector(0, 272, 0, Answer::Bytes(61)),
    Step::Tells(Fact::Mode(3, None)),
    Step::Tells(Fact::Attached(0b111)),
    Step::Tells(Fact::FileUnits(256, 8)),
];

/// A move that is on its way goes on behind the bytes that are copied.
const GOES_ON: [Step; 9] = [
    MAKE,
    Step::Write(SECOND, 61, Answer::Done),
    DROP_3,
    Step::FlyTo(1, 1, (0, 272), 2048),
    Step::Slice(1, 1, MORE),
    Step::Tells(Fact::IsMoving(false)),
    Step::Tells(Fact::Home(1, 1, Some((0, 272)))),
    Step::Sector(0, 272, 1536, Answer::Bytes(0)),
    Step::Sector(0, 272, 2048, Answer::Bytes(61)),
];

/// Each disk has 16 units for users, and each of two files 14 extents: four copies find room, and
/// then none. Once the second file is gone the other three move, and two for balance.
const NO_SPACE: [Step; 14] = [
    Step::State(Statement::Resize(0b1111, Some(286 * 4096), 1), Answer::Done),
    Step::Slice(64, 0, DONE),
    Step::MakeFile(14, Answer::Done),
    Step::MakeFile(14, Answer::Done),
    DROP_3,
    Step::ToEnd(
        64,
        4,
        Answer::Ends(Slice::NoSpace(ExtentId {
            file: 256,
            index: 9,
        })),
    ),
    Step::Tells(Fact::Rebalance(None)),
    Step::Tells(Fact::Mode(3, Some(Mode::Dropping))),
    Step::Tells(Fact::Attached(0b1111)),
    Step::RemoveFile(b"+D/o/DATAFILE/t.257.2", Answer::Done),
    Step::State(Statement::Rebalance(Some(64)), Answer::Done),
    Step::ToEnd(64, 5, DONE),
    Step::Tells(Fact::Mode(3, None)),
    Step::Tells(Fact::Rebalance(None)),
];

pub fn play_shifts(alloc: Global) -> Result<(), Wrong> {
    play(alloc, "nothing to move", &NOTHING, Then::Ends)?;
    play(alloc, "dropped disk", &DROPPED, THREE_DISKS)?;
    play(alloc, "slices", &SLICES, Then::Ends)?;
    play(alloc, "tables move", &TABLES, MOVED)?;
    play(alloc, "directory copy fails", &COPY_FAILS, Then::Ends)?;
    play(alloc, "rebalance finds a lost extent", &LOST, Then::Ends)?;
    play(alloc, "sources fail", &SOURCES_FAIL, Then::Ends)?;
    play(alloc, "source fails", &SOURCE_FAILS, Then::Ends)?;
    play(alloc, "target fails", &TARGET_FAILS, Then::Ends)?;
    play(alloc, "move isn't written", &UNWRITTEN, Then::Ends)?;
    play(alloc, "copy is written anew", &RECOPIED, Then::Ends)?;
    play(alloc, "copies are filled", &FILLED, Then::Ends)?;
    play(alloc, "move goes on", &GOES_ON, Then::Ends)?;
    play(alloc, "no space", &NO_SPACE, Then::Ends)
}
