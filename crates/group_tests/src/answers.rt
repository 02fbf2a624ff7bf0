//! What comes of calls.

use asm_base::Mode;
use refusal_lines::{DiskRef, Refusal};
use relocation::{Resynced, Slice};

/// What comes of a call.
#[derive(Clone, Copy, PartialEq, Eq)]
pub enum Answer {
    Done,
    /// The call isn't one that may be made, the record may not come next, or there is no place for
    /// the disk: nothing was called.
    MayNot,
    /// The group is dismounted by a disk, which is one of this set.
    Dismounted(u64),
    /// How many blocks are needed, and how many are free.
    DirectoryFull(u64, u64),
    WriteFault(u8),
    ReadFault(u8),
    /// It is done, but the disks of this set failed.
    Failed(u64),
    /// Each byte is this one.
    Bytes(u8),
    /// There is nothing to copy from or to.
    Nowhere,
    /// The file and the index of an extent.
    Lost(u32, u32),
    WouldLose(u32, u32),
    NoSpace(u32, u32),
    DiskState(u8, Mode),
    HoldsDirectories(u8),
    /// How many units are needed.
    TooSmall(u8, u64),
    /// How many are needed, and how many there are.
    TooFewGroups(u64, u64),
    /// The disk expires, where one does.
    Expires(Option<u8>),
    /// So a slice of a rebalance ends.
    Ends(Slice),
    /// So a slice of a resync ends.
    Synced(Resynced),
    NoMemory,
    /// What no row asks for.
    Another,
}

/// The disk in a refusal, or 255 where it is spelt.
fn number_of(disk: &DiskRef) -> u8 {
    match disk {
        DiskRef::Number(number) => *number,
        DiskRef::Spelt(_) => 255,
    }
}

/// The set of one disk, and none of another number.
pub fn alone(disk: u8) -> u64 {
    if disk < 64 {
        1u64 << (disk as u64 & 63)
    } else {
        0
    }
}

/// Whether an answer is the one that is wanted.
pub fn is_answer(answer: Answer, wanted: Answer) -> bool {
    match (answer, wanted) {
        (Answer::Dismounted(by), Answer::Dismounted(set)) => by & set != 0,
        _ => answer == wanted,
    }
}

fn answer_in(refusal: &Refusal) -> Answer {
    match refusal {
        Refusal::Dismounted { disk } => Answer::Dismounted(alone(number_of(disk))),
        Refusal::DirectoryFull { need, free } => Answer::DirectoryFull(*need, *free),
        Refusal::WriteFault { disk } => Answer::WriteFault(number_of(disk)),
        Refusal::ReadFault { disk } => Answer::ReadFault(number_of(disk)),
        Refusal::NoMemory => Answer::NoMemory,
        Refusal::Lost { extent } => Answer::Lost(extent.file, extent.index),
        Refusal::WouldLose { extent } => Answer::WouldLose(extent.file, extent.index),
        Refusal::NoSpace { extent } => Answer::NoSpace(extent.file, extent.index),
        Refusal::DiskState { disk, mode } => Answer::DiskState(number_of(disk), *mode),
        Refusal::HoldsDirectories { disk } => Answer::HoldsDirectories(number_of(disk)),
        Refusal::TooSmall { disk, need } => Answer::TooSmall(number_of(disk), *need),
        Refusal::TooFewGroups { need, have } => Answer::TooFewGroups(*need, *have),
        _ => Answer::Another,
    }
}

/// What comes of a call. A refusal is dropped by a call here alone, since what goes in place is
/// proved in place.
pub fn answer_of(called: Result<(), Refusal>) -> Answer {
    match called {
        Ok(()) => Answer::Done,
        Err(refusal) => refused(refusal),
    }
}

/// Why a call or a plan is refused.
pub fn refused(refusal: Refusal) -> Answer {
    let answer = answer_in(&refusal);
    drop(refusal);
    answer
}
