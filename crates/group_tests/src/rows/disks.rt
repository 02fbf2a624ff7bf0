//! Rows on disks that leave and are attached.

use crate::answers::Answer;
use crate::facts::Fact;
use crate::rows::shared::{IS_MOUNTED, MAKE_A};
use crate::steps::{Step, Wrong};
use crate::trials::{SIZE, Then, play};
use asm_base::Mode;
use group_recovery::MountOption;
use std::alloc::Global;

/// A disk leaves the record, the attached disks and the disk records. Its image may come to another
/// number then.
const LEAVE: [Step; 13] = [
    Step::FlyTo(0, 0, (0, 300), 0),
    Step::Leave(3, Answer::Done),
    IS_MOUNTED,
    Step::Tells(Fact::IsMoving(false)),
    Step::Tells(Fact::Disk(3, None)),
    Step::Tells(Fact::Attached(0b111)),
    Step::Tells(Fact::Mode(3, None)),
    Step::Tells(Fact::HasInfo(3, false)),
    Step::Tells(Fact::Record(1, 2)),
    Step::Tells(Fact::FreeBlocks(121)),
    Step::Attach(3, 5, 9, Answer::Done),
    Step::Tells(Fact::Disk(5, Some((3, SIZE)))),
    MAKE_A,
];

/// Its copy goes with it.
const COPY_LEAVES: [Step; 4] = [
    Step::Copy(3, Answer::Done),
    Step::Leave(3, Answer::Done),
    Step::Tells(Fact::Dirs(0b111)),
    MAKE_A,
];

/// A disk that holds the record stays. The move is given up.
const STAYS: [Step; 9] = [
    Step::FlyTo(0, 0, (0, 300), 0),
    Step::Tells(Fact::IsMoving(true)),
    Step::Leave(0, Answer::NoMemory),
    Step::Tells(Fact::IsMoving(false)),
    Step::Leave(64, Answer::NoMemory),
    IS_MOUNTED,
    Step::Tells(Fact::Disk(0, Some((0, SIZE)))),
    Step::Tells(Fact::Record(1, 1)),
    MAKE_A,
];

/// Too few disks take the record without it.
const LEAVE_UNWRITTEN: [Step; 4] = [
    Step::Fails(1, true),
    Step::Fails(2, true),
    Step::Leave(3, Answer::Dismounted(0b110)),
    Step::Tells(Fact::Dismounted(0b110)),
];

/// A disk is attached where its number and its slot are free. It has no entry, so it may have no
/// copy.
const ATTACH: [Step; 9] = [
    Step::Attach(4, 64, 5, Answer::MayNot),
    Step::Attach(4, 3, 4, Answer::MayNot),
    Step::Attach(3, 4, 5, Answer::MayNot),
    Step::Attach(4, 4, 5, Answer::Done),
    Step::Tells(Fact::Disk(4, Some((4, SIZE)))),
    Step::Tells(Fact::Attached(0b1_1111)),
    Step::Attach(4, 5, 5, Answer::MayNot),
    Step::Copy(4, Answer::NoMemory),
    MAKE_A,
];

/// The group is mounted without disk 3.
const MISSING: [Step; 1] = [Step::Fails(3, true)];

/// Its number has an entry still, with birth 4. So the disk comes back with that alone.
const COMES_BACK: Then = Then::Mount(
    MountOption::Force,
    &[
        Step::Tells(Fact::Disk(3, None)),
        Step::Tells(Fact::Attached(0b111)),
        Step::Tells(Fact::Mode(3, Some(Mode::Offline))),
        Step::Copy(3, Answer::WriteFault(3)),
        Step::Fails(3, false),
        Step::Attach(3, 3, 5, Answer::MayNot),
        Step::Attach(3, 3, 4, Answer::Done),
        Step::Tells(Fact::Disk(3, Some((3, SIZE)))),
        Step::Copy(3, Answer::Done),
        Step::Tells(Fact::Dirs(0b1111)),
        MAKE_A,
    ],
);

pub fn play_disks(alloc: Global) -> Result<(), Wrong> {
    play(alloc, "leave", &LEAVE, Then::Ends)?;
    play(alloc, "copy leaves", &COPY_LEAVES, Then::Ends)?;
    play(alloc, "holder stays", &STAYS, Then::Ends)?;
    play(alloc, "leave isn't written", &LEAVE_UNWRITTEN, Then::Ends)?;
    play(alloc, "attach", &ATTACH, Then::Ends)?;
    play(alloc, "missing disk comes back", &MISSING, COMES_BACK)
}
