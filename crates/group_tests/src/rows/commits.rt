//! Rows on a new group and on commits: what a commit writes, copies that fail, and directories that
//! are full.

use crate::answers::Answer;
use crate::facts::Fact;
use crate::rows::shared::{HAS_A, IS_MOUNTED, IS_NOT_MOUNTED, MAKE_A, OFFLINE};
use crate::steps::{Step, Wrong};
use crate::trials::{SIZE, Then, play};
use asm_base::Mode;
use group_recovery::MountOption;
use std::alloc::Global;

/// The record and the directories are on the first three disks. Of the 128 blocks of a copy two are
/// kept, and six have the records of the settings, of the templates and of four disks.
const NEW: [Step; 19] = [
    IS_MOUNTED,
    Step::Tells(Fact::Takes(Answer::Done)),
    Step::Tells(Fact::Dismounted(0)),
    Step::Tells(Fact::Name(b"D")),
    Step::Tells(Fact::Disk(0, Some((0, SIZE)))),
    Step::Tells(Fact::Disk(3, Some((3, SIZE)))),
    Step::Tells(Fact::Disk(4, None)),
    Step::Tells(Fact::Disk(63, None)),
    Step::Tells(Fact::Attached(0b1111)),
    Step::Tells(Fact::Record(1, 1)),
    Step::Tells(Fact::Holders(0b111, 0)),
    Step::Tells(Fact::Dirs(0b111)),
    Step::Tells(Fact::Mode(3, Some(Mode::Online))),
    Step::Tells(Fact::Mode(4, None)),
    Step::Tells(Fact::HasInfo(3, true)),
    Step::Tells(Fact::HasInfo(4, false)),
    Step::Tells(Fact::FreeBlocks(120)),
    Step::Tells(Fact::IsPending(false)),
    Step::Tells(Fact::IsMoving(false)),
];

/// A mount writes the record under the next epoch.
pub const FOUND: Then = Then::Mount(
    MountOption::NoForce,
    &[
        IS_MOUNTED,
        HAS_A,
        Step::Tells(Fact::Record(2, 1)),
        Step::Tells(Fact::Dirs(0b111)),
    ],
);

/// A commit writes no record where no copy fails.
const COMMIT: [Step; 6] = [
    MAKE_A,
    IS_MOUNTED,
    HAS_A,
    Step::Tells(Fact::Record(1, 1)),
    Step::Tells(Fact::Dirs(0b111)),
    Step::Tells(Fact::FreeBlocks(119)),
];

/// The copy of disk 1 fails: a record without it is written, and later commits go to the others.
const COPY_FAILS: [Step; 11] = [
    Step::Fails(1, true),
    MAKE_A,
    IS_MOUNTED,
    HAS_A,
    Step::Tells(Fact::Dirs(0b101)),
    Step::Tells(Fact::Record(1, 2)),
    Step::CommitDir(b"+D/b", Answer::Done),
    Step::Fails(1, false),
    Step::CommitDir(b"+D/c", Answer::Done),
    Step::Tells(Fact::Dirs(0b101)),
    Step::Tells(Fact::Record(1, 2)),
];

/// A mount names no copy that wasn't named.
const TWO_COPIES: Then = Then::Mount(
    MountOption::NoForce,
    &[
        HAS_A,
        Step::Tells(Fact::HasDir(b"+D/c", true)),
        Step::Tells(Fact::Dirs(0b101)),
    ],
);

/// The first call of a commit is one on the first copy.
const CALL_FAILS: [Step; 4] = [
    Step::FailsAt(1),
    MAKE_A,
    Step::Tells(Fact::Dirs(0b110)),
    Step::Tells(Fact::Record(1, 2)),
];

/// Each call of a group that disk 1 or 2 has dismounted.
const CALLS: [Step; 14] = [
    Step::Fails(1, true),
    Step::Fails(2, true),
    Step::CommitDir(b"+D/a", Answer::Dismounted(0b110)),
    IS_NOT_MOUNTED,
    Step::Tells(Fact::Takes(Answer::Dismounted(0b110))),
    Step::Tells(Fact::Dismounted(0b110)),
    Step::Begin(Answer::Dismounted(0b110)),
    Step::EndPending(Answer::Dismounted(0b110)),
    Step::Record(OFFLINE, Answer::Dismounted(0b110)),
    Step::Copy(3, Answer::Dismounted(0b110)),
    Step::Leave(3, Answer::Dismounted(0b110)),
    Step::End(Answer::Dismounted(0b110)),
    Step::Fails(1, false),
    Step::Fails(2, false),
];

/// Where all copies fail none is left for the directories.
const ALL_COPIES: [Step; 8] = [
    Step::Fails(0, true),
    Step::Fails(1, true),
    Step::Fails(2, true),
    Step::CommitDir(b"+D/a", Answer::Dismounted(0b111)),
    IS_NOT_MOUNTED,
    Step::Tells(Fact::Dismounted(0b111)),
    Step::Close,
    Step::Tells(Fact::Takes(Answer::Dismounted(0b111))),
];

/// New records want a block each, also those that the same commit takes away. A commit that is
/// refused leaves all as it was.
const FULL: [Step; 12] = [
    Step::CommitDirs(118),
    Step::Tells(Fact::FreeBlocks(2)),
    Step::PutHeads(2, Answer::Done),
    Step::Tells(Fact::FreeBlocks(2)),
    Step::PutHeads(3, Answer::DirectoryFull(3, 2)),
    IS_MOUNTED,
    Step::CommitDir(b"+D/y", Answer::Done),
    MAKE_A,
    Step::PutHeads(1, Answer::DirectoryFull(1, 0)),
    // Two blocks are kept for operations.
    Step::Begin(Answer::Done),
    Step::EndPending(Answer::Done),
    HAS_A,
];

/// The change of a plan is committed where it takes the last free block. Where none is free the
/// plan is refused, but for one that puts no new record, or that of an operation.
const LAST_BLOCK: [Step; 9] = [
    Step::CommitDirs(119),
    Step::Tells(Fact::FreeBlocks(1)),
    MAKE_A,
    Step::Tells(Fact::FreeBlocks(0)),
    Step::CommitDir(b"+D/y", Answer::DirectoryFull(1, 0)),
    IS_MOUNTED,
    Step::Begin(Answer::Done),
    Step::EndPending(Answer::Done),
    HAS_A,
];

/// The record without the two copies stands on disk 0, and is the greatest that a mount reads.
const ONE_COPY: Then = Then::Mount(MountOption::NoForce, &[HAS_A, Step::Tells(Fact::Dirs(0b1))]);

pub fn play_commits(alloc: Global) -> Result<(), Wrong> {
    play(alloc, "new group", &NEW, Then::Ends)?;
    play(alloc, "commit", &COMMIT, FOUND)?;
    play(
        alloc,
        "copy that fails is named no more",
        &COPY_FAILS,
        TWO_COPIES,
    )?;
    play(alloc, "first call fails", &CALL_FAILS, Then::Ends)?;
    play(alloc, "too few disks take the record", &CALLS, ONE_COPY)?;
    play(alloc, "all copies fail", &ALL_COPIES, Then::Ends)?;
    play(alloc, "no blocks are free", &FULL, Then::Ends)?;
    play(alloc, "last block", &LAST_BLOCK, FOUND)
}
