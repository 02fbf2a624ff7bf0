//! Rows on the resync of disk 3, whose copies of extents 1 and 3 of file 256 are stale: their other
//! copies are on disk 2.

use crate::answers::Answer;
use crate::facts::Fact;
use crate::rows::shared::{FOURTH, MAKE, SECOND};
use crate::steps::{Next, Statement, Step, Wrong};
use crate::trials::{Then, play};
use asm_base::{ExtentId, Mode};
use group_recovery::MountOption;
use relocation::Resynced;
use std::alloc::Global;

/// Disk 3 doesn't take the bytes of extent 1.
const STALE: Step = Step::Write(SECOND, 62, Answer::Failed(0b1000));

/// It is to be written anew.
const SYNCING: Step = Step::Record(Next::Mode(3, Mode::Syncing), Answer::Done);

/// The copy is copied whole, its mark goes, and the disk is Online. The move that is on its way is
/// given up.
const ONE_COPY: [Step; 18] = [
    MAKE,
    Step::Sync(3, 0, Answer::Synced(Resynced::Online)),
    Step::Fails(3, true),
    STALE,
    Step::Fails(3, false),
    Step::Tells(Fact::Syncing(None)),
    SYNCING,
    Step::Tells(Fact::Syncing(Some(3))),
    Step::FlyTo(0, 0, (2, 300), 0),
    Step::Sync(2, 0, Answer::Synced(Resynced::Online)),
    Step::Sync(3, 1, Answer::Synced(Resynced::Online)),
    Step::Tells(Fact::Marks(1, 0)),
    Step::Tells(Fact::Mode(3, Some(Mode::Online))),
    Step::Tells(Fact::IsMoving(false)),
    Step::Sector(3, 270, 0, Answer::Bytes(62)),
    Step::Sector(3, 270, 3584, Answer::Bytes(62)),
    Step::Sector(3, 271, 0, Answer::Bytes(0)),
    Step::Tells(Fact::Record(1, 4)),
];

const ONLINE: Then = Then::Mount(
    MountOption::NoForce,
    &[
        Step::Tells(Fact::Mode(3, Some(Mode::Online))),
        Step::Fails(2, true),
        Step::Read(SECOND, Answer::Bytes(62)),
    ],
);

/// A disk that fails ends the slice: no mode changes, and the mark stays.
const FAULTS: [Step; 19] = [
    MAKE,
    Step::Fails(3, true),
    STALE,
    Step::Fails(3, false),
    SYNCING,
    Step::Fails(2, true),
    Step::Sync(3, 0, Answer::ReadFault(2)),
    Step::Fails(2, false),
    Step::Fails(3, true),
    Step::Sync(3, 0, Answer::WriteFault(3)),
    Step::Tells(Fact::Marks(1, 0b10)),
    Step::Tells(Fact::Mode(3, Some(Mode::Syncing))),
    Step::Tells(Fact::Record(1, 3)),
    Step::Tells(Fact::IsMounted(true)),
    Step::Fails(3, false),
    Step::Fails(0, true),
    Step::Fails(1, true),
    Step::Sync(3, 0, Answer::Dismounted(0b11)),
    Step::Tells(Fact::Dismounted(0b11)),
];

/// No copy of the extents is usable: they are passed over, and the first is named.
const LEFT: [Step; 13] = [
    MAKE,
    Step::Fails(3, true),
    STALE,
    Step::Fails(3, false),
    Step::Write(FOURTH, 63, Answer::Done),
    SYNCING,
    Step::Record(Next::Mode(2, Mode::Offline), Answer::Done),
    Step::Sync(
        3,
        0,
        Answer::Synced(Resynced::Left(ExtentId {
            file: 256,
            index: 1,
        })),
    ),
    Step::Tells(Fact::Mode(3, Some(Mode::Online))),
    Step::Tells(Fact::Marks(1, 0b10)),
    Step::Tells(Fact::Marks(3, 0b10)),
    Step::Tells(Fact::Syncing(None)),
    Step::Sector(3, 271, 0, Answer::Bytes(0)),
];

/// A slice does 64 steps, by file and index. Of 140 extents 70 have a copy on disk 3.
const MANY: [Step; 13] = [
    Step::MakeFile(140, Answer::Done),
    Step::State(Statement::Offline(0b1000, None), Answer::Done),
    Step::FillFile(b"+D/o/DATAFILE/t.256.1", 140, 61, Answer::Done),
    Step::Tells(Fact::Marks(1, 0b10)),
    Step::Tells(Fact::Marks(139, 0b10)),
    Step::Record(Next::Mode(3, Mode::Syncing), Answer::Done),
    Step::Sync(3, 64, Answer::Synced(Resynced::More)),
    Step::Tells(Fact::Mode(3, Some(Mode::Syncing))),
    Step::Tells(Fact::Marks(127, 0)),
    Step::Tells(Fact::Marks(129, 0b10)),
    Step::Sync(3, 6, Answer::Synced(Resynced::Online)),
    Step::Tells(Fact::Marks(139, 0)),
    Step::Sector(3, 339, 3584, Answer::Bytes(61)),
];

/// Where none is left behind the 64th, the slice says so.
const SIXTY_FOUR: [Step; 5] = [
    Step::MakeFile(128, Answer::Done),
    Step::State(Statement::Offline(0b1000, None), Answer::Done),
    Step::FillFile(b"+D/o/DATAFILE/t.256.1", 128, 61, Answer::Done),
    Step::Record(Next::Mode(3, Mode::Syncing), Answer::Done),
    Step::Sync(3, 64, Answer::Synced(Resynced::Online)),
];

pub fn play_resyncs(alloc: Global) -> Result<(), Wrong> {
    play(alloc, "stale copy", &ONE_COPY, ONLINE)?;
    play(alloc, "resync fails", &FAULTS, Then::Ends)?;
    play(alloc, "stale copies are left", &LEFT, Then::Ends)?;
    play(alloc, "many stale copies", &MANY, Then::Ends)?;
    play(alloc, "64 stale copies", &SIXTY_FOUR, Then::Ends)
}
