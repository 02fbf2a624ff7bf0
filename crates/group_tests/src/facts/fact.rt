//! The facts that a group tells.

use crate::answers::Answer;
use crate::steps::Unit;
use asm_base::Mode;
use disk_modes::GroupSort;

/// What a group tells.
#[derive(Clone, Copy)]
pub enum Fact {
    /// The bytes of its name.
    Name(&'static [u8]),
    /// Whether it takes calls.
    IsMounted(bool),
    /// What it answers a call.
    Takes(Answer),
    /// It is dismounted by one disk of the set, or isn't where the set is empty.
    Dismounted(u64),
    /// The slot and the size of a disk's image, where it is attached.
    Disk(u8, Option<(u32, u64)>),
    /// The set of attached disks.
    Attached(u64),
    /// The epoch and the turn of the record that holds.
    Record(u64, u64),
    /// The set of disks that hold the record, and the one beside it.
    Holders(u64, u64),
    /// The set of disks with directory copies.
    Dirs(u64),
    /// The mode of a disk by the record.
    Mode(u8, Option<Mode>),
    /// Whether there is a disk record of a number.
    HasInfo(u8, bool),
    /// Whether there is a directory of a path.
    HasDir(&'static [u8], bool),
    /// How many blocks are free.
    FreeBlocks(u64),
    /// Whether an operation is pending.
    IsPending(bool),
    /// Whether a move is on its way.
    IsMoving(bool),
    /// How many bytes of the move that is on its way are copied.
    Copied(u64),
    /// The power of the active rebalance.
    Rebalance(Option<u16>),
    /// Since when a disk is Offline, and for how many seconds until it expires.
    Since(u8, u64, u64),
    /// The units of a disk.
    Units(u8, u32),
    /// The partners of a disk.
    Partners(u8, u64),
    /// The disks that serve, and those that are Offline.
    Sets(u64, u64),
    /// The number of the disk of a name.
    Named(&'static [u8], Option<u8>),
    /// The disks of a failure group of a sort and a name.
    InGroup(GroupSort, &'static [u8], Option<u64>),
    /// The Syncing disk of the least number.
    Syncing(Option<u8>),
    /// The disk that expires next at a second.
    Expiring(u64, Option<u8>),
    /// Whether a rebalance moves something.
    Rebalances(bool),
    /// The disk and the unit of a copy of an extent of file 256: the index and the copy.
    Home(u32, u8, Option<Unit>),
    /// The stale copies of an extent of file 256, bit k for copy k.
    Marks(u32, u8),
    /// Whether no copy of an extent of file 256 is usable.
    IsLost(u32, bool),
    /// Which copies of an extent of file 256 count.
    Copies(u32, Copies),
    /// The first extent of file 256 with all its current copies on a disk.
    FirstLost(u8, Option<u32>),
    /// The failure groups that serve.
    ServingGroups(usize),
    /// The copies of the template for a type and a name.
    Template(&'static [u8], Option<&'static [u8]>, Option<u8>),
    /// The units of all copies of a file.
    FileUnits(u32, u64),
    /// Whether a rebalance is active, the units, the free ones, and the Offline disks.
    Totals(bool, u64, u64, u64),
    /// The directory at a path.
    Directory(&'static [u8], Found),
    /// A report is this text.
    Prints(Report, &'static [u8]),
}

/// Which copies of an extent are so, bit k for copy k; the first usable one, and whether the extent
/// is full.
#[derive(Clone, Copy, PartialEq, Eq)]
pub struct Copies {
    pub online: u8,
    pub read: u8,
    pub fresh: u8,
    pub current: u8,
    pub usable: u8,
    pub first: Option<u8>,
    pub is_full: bool,
}

/// What is at a path.
#[derive(Clone, Copy, PartialEq, Eq)]
pub enum Found {
    Directory,
    NoName,
    NotDirectory,
    Another,
}

/// A report of the group. Paths have their parts alone.
#[derive(Clone, Copy)]
pub enum Report {
    Attributes,
    Templates,
    Disks,
    Group,
    Dismounted,
    Check,
    /// What the names at a path are, in short or long.
    Names(&'static [&'static [u8]], bool),
    /// The row of the group at `+`.
    Root,
    /// The path of the node at a path.
    PathOf(&'static [u8]),
    /// The names in the directory at a path that match a pattern.
    Under(&'static [u8], &'static [u8]),
    /// The name at a path, where it matches a pattern.
    Row(&'static [u8], &'static [u8]),
    /// The paths below a directory whose last part matches a pattern.
    Found(&'static [&'static [u8]], &'static [u8]),
    /// What the files below a directory take.
    Usage(&'static [&'static [u8]]),
    /// The name of a disk.
    DiskName(u8),
}
