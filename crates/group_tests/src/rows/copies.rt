//! Rows on directory copies that are stored on a disk.

use crate::answers::Answer;
use crate::facts::Fact;
use crate::rows::shared::{HAS_A, IS_MOUNTED, IS_NOT_MOUNTED, MAKE_A};
use crate::steps::{Next, Step, Wrong};
use crate::trials::{Then, play};
use group_recovery::MountOption;
use std::alloc::Global;

/// The record names the copy once it is there. A disk that is named has one.
const COPY: [Step; 8] = [
    MAKE_A,
    Step::Copy(3, Answer::Done),
    Step::Tells(Fact::Dirs(0b1111)),
    Step::Tells(Fact::Record(1, 2)),
    Step::Copy(0, Answer::Done),
    Step::Tells(Fact::Record(1, 2)),
    Step::CommitDir(b"+D/b", Answer::Done),
    Step::Record(Next::Dirs(0b1000), Answer::Done),
];

/// It alone is read.
const NEW_COPY: Then = Then::Mount(
    MountOption::NoForce,
    &[
        HAS_A,
        Step::Tells(Fact::HasDir(b"+D/b", true)),
        Step::Tells(Fact::Dirs(0b1000)),
    ],
);

/// A disk that fails gets no copy, and nothing changes. The group takes the next call.
const COPY_REFUSED: [Step; 10] = [
    Step::Fails(3, true),
    Step::Copy(3, Answer::WriteFault(3)),
    IS_MOUNTED,
    Step::Tells(Fact::Dirs(0b111)),
    Step::Tells(Fact::Record(1, 1)),
    MAKE_A,
    Step::Fails(3, false),
    Step::Copy(3, Answer::Done),
    Step::Tells(Fact::Dirs(0b1111)),
    HAS_A,
];

/// No disk is attached at these numbers.
const NO_DISK: [Step; 5] = [
    Step::Copy(4, Answer::WriteFault(4)),
    Step::Copy(63, Answer::WriteFault(63)),
    Step::Copy(64, Answer::WriteFault(64)),
    IS_MOUNTED,
    Step::Tells(Fact::Record(1, 1)),
];

/// The copy is there, and too few disks take the record that names it.
const COPY_UNNAMED: [Step; 5] = [
    Step::Fails(0, true),
    Step::Fails(1, true),
    Step::Copy(3, Answer::Dismounted(0b11)),
    IS_NOT_MOUNTED,
    Step::Tells(Fact::Dismounted(0b11)),
];

pub fn play_copies(alloc: Global) -> Result<(), Wrong> {
    play(alloc, "copy", &COPY, NEW_COPY)?;
    play(alloc, "copy is refused", &COPY_REFUSED, Then::Ends)?;
    play(alloc, "no disk", &NO_DISK, Then::Ends)?;
    play(alloc, "copy isn't named", &COPY_UNNAMED, Then::Ends)
}
