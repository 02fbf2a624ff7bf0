//! Rows on what is pending, and on groups that are closed and dropped.

use crate::answers::Answer;
use crate::facts::Fact;
use crate::rows::shared::{IS_NOT_MOUNTED, MAKE_A, OFFLINE};
use crate::steps::{Step, Wrong};
use crate::trials::{Then, play};
use group_recovery::MountOption;
use std::alloc::Global;

/// Where nothing is pending there is nothing to end.
const PENDING: [Step; 7] = [
    Step::EndPending(Answer::Done),
    Step::Tells(Fact::Record(1, 1)),
    Step::Begin(Answer::Done),
    Step::Tells(Fact::IsPending(true)),
    Step::EndPending(Answer::Done),
    Step::Tells(Fact::IsPending(false)),
    MAKE_A,
];

/// What can't be ended dismounts the group, and the next mount ends it.
const PENDING_STAYS: [Step; 8] = [
    Step::Begin(Answer::Done),
    Step::Fails(0, true),
    Step::Fails(1, true),
    Step::Fails(2, true),
    Step::EndPending(Answer::Dismounted(0b111)),
    Step::Fails(0, false),
    Step::Fails(1, false),
    Step::Fails(2, false),
];

const ENDED: Then = Then::Mount(
    MountOption::NoForce,
    &[Step::Tells(Fact::IsPending(false)), MAKE_A],
);

const HAS_NO_A: Step = Step::Tells(Fact::HasDir(b"+D/a", false));

/// A closed group answers that there is no memory, and the next mount finds it as it was.
const CLOSED: [Step; 12] = [
    Step::Begin(Answer::Done),
    Step::Close,
    IS_NOT_MOUNTED,
    Step::Tells(Fact::Takes(Answer::NoMemory)),
    Step::Tells(Fact::Dismounted(0)),
    Step::CommitDir(b"+D/a", Answer::NoMemory),
    Step::EndPending(Answer::NoMemory),
    Step::Record(OFFLINE, Answer::NoMemory),
    Step::Copy(3, Answer::NoMemory),
    Step::Leave(3, Answer::NoMemory),
    Step::End(Answer::NoMemory),
    HAS_NO_A,
];

/// A group that is dropped takes no calls, and isn't found.
const DROPPED: [Step; 4] = [
    Step::End(Answer::Done),
    IS_NOT_MOUNTED,
    Step::Tells(Fact::Dismounted(0)),
    Step::CommitDir(b"+D/a", Answer::NoMemory),
];

/// Too few disks take the record that says so. A mount that reads it finds no group.
const HALF_DROPPED: [Step; 6] = [
    Step::Fails(1, true),
    Step::Fails(2, true),
    Step::End(Answer::Dismounted(0b110)),
    IS_NOT_MOUNTED,
    Step::Fails(1, false),
    Step::Fails(2, false),
];

/// One that doesn't finds the group.
const UNDROPPED: [Step; 6] = [
    Step::Fails(1, true),
    Step::Fails(2, true),
    Step::End(Answer::Dismounted(0b110)),
    Step::Fails(0, true),
    Step::Fails(1, false),
    Step::Fails(2, false),
];

const FORCED: Then = Then::Mount(
    MountOption::Force,
    &[
        Step::Tells(Fact::Attached(0b1110)),
        Step::Tells(Fact::Dirs(0b110)),
        MAKE_A,
    ],
);

pub fn play_ends(alloc: Global) -> Result<(), Wrong> {
    play(alloc, "pending", &PENDING, Then::Ends)?;
    play(alloc, "pending stays", &PENDING_STAYS, ENDED)?;
    play(alloc, "closed", &CLOSED, ENDED)?;
    play(alloc, "dropped", &DROPPED, Then::Goes)?;
    play(alloc, "half dropped", &HALF_DROPPED, Then::Goes)?;
    play(alloc, "half dropped is found", &UNDROPPED, FORCED)
}
