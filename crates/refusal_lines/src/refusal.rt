//! Why a command is refused.

ghost use Rattle.std.specs.Prelude.{◌≡◌};

use asm_base::{ExtentId, Mode, Text};

/// A disk in a refusal: by its number where it has an entry in a mounted group's status, and
/// otherwise as it is spelt.
#[derive(Debug, Drop)]
pub enum DiskRef {
    Number(u8),
    Spelt(Text),
}

/// Of what there are too many.
#[derive(Clone, Copy, Debug, PartialEq, Eq)]
pub enum Limited {
    Disks,
    Groups,
    Templates,
}

/// Why a command is refused. Sizes are in units, blocks or bytes as each says.
#[derive(Debug, Drop)]
pub enum Refusal {
    /// The command isn't in the grammar: `at` is its first byte that no command has there.
    Syntax { at: u64 },
    /// No group of the name is in the session, or on the images that a mount found.
    NoGroup,
    /// A group of the name is in the session.
    GroupExists,
    /// A group of the name is mounted.
    AlreadyMounted,
    /// The path isn't among the images, or its image can't be had.
    NoDisk { text: DiskRef },
    /// The image is a member of a group.
    DiskTaken { path: Text },
    /// Fewer regular failure groups than the group needs.
    TooFewGroups { need: u64, have: u64 },
    /// The disk has fewer units than it needs.
    TooSmall { disk: DiskRef, need: u64 },
    /// Fewer disks of a set were read, or took the claim, than a majority of it.
    NoMajority { seen: u8, need: u8 },
    /// No directory copy was read with a content.
    DirectoriesLost,
    /// This disk is missing, and FORCE isn't said.
    MissingDisks { disk: DiskRef },
    /// Two groups of one name, each with a majority.
    TwoGroups,
    /// That block of the image isn't one of its place.
    Damaged { path: Text, block: u64 },
    /// There is nothing of the name.
    NoName,
    /// The name is taken.
    NameTaken,
    /// The name is that of a file, where a directory is needed.
    NotDirectory,
    /// The directory isn't empty.
    NotEmpty,
    /// The file has an alias.
    HasAlias,
    /// The name is a system name.
    SystemName,
    /// There is no such template.
    NoTemplate,
    /// The template is a system template, which can't be dropped.
    SystemTemplate,
    /// The attribute isn't one, or not one that can have this value.
    BadAttribute { name: Text },
    /// The power of a rebalance isn't one.
    BadPower { n: u64 },
    /// The group's kind doesn't allow this redundancy.
    BadRedundancy,
    /// There is no choice of homes for this extent.
    NoSpace { extent: ExtentId },
    /// More record blocks are needed than are free.
    DirectoryFull { need: u64, free: u64 },
    /// The bytes aren't all in the file.
    OutOfFile,
    /// A size, an offset or a length isn't a number of whole sectors.
    NotSectors,
    /// The extent has no usable copy.
    Lost { extent: ExtentId },
    /// The reads that were asked of this disk, and of the others that had the bytes, failed.
    ReadFault { disk: DiskRef },
    /// The writes that were asked of this disk, and of the others that should have taken the bytes,
    /// failed.
    WriteFault { disk: DiskRef },
    /// The group lost a majority or its last directory copy by this disk.
    Dismounted { disk: DiskRef },
    /// The extent would have no usable copy.
    WouldLose { extent: ExtentId },
    /// The disk's mode isn't one that the statement takes.
    DiskState { disk: DiskRef, mode: Mode },
    /// No call answers this one: its number stays unused.
    HoldsStatus { disk: DiskRef },
    /// The limit of disks, mounted groups or templates is reached.
    TooMany { kind: Limited, limit: u64 },
    /// The host failed at this path.
    HostFault { path: Text },
    /// The group has files, and INCLUDING CONTENTS isn't said.
    GroupNotEmpty,
    /// Want of memory.
    NoMemory,
    /// The named disks have all directory copies.
    HoldsDirectories { disk: DiskRef },
}
