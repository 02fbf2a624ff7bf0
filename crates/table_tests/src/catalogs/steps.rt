//! Steps of a row: plans that are made, and what the catalog tells.

use asm_base::{PendingKind, Stripe};
use refusal_lines::Refusal;

/// A step of a row.
#[derive(Clone, Copy)]
pub enum Step<'a> {
    /// A plan is asked for, and made where it is given. This comes of it.
    Make(Plan<'a>, Answer),
    /// A copy of an extent moves to a disk and a unit: file, index, copy, disk, unit.
    Move(u32, u32, u8, u8, u32),
    /// The two disks get so many units by a next status record, where these cover the homes.
    /// Whether they do.
    Resize([u32; 2], bool),
    /// The catalog tells this.
    Tells(Fact<'a>),
}

/// A plan that a catalog is asked for.
#[derive(Clone, Copy)]
pub enum Plan<'a> {
    /// An attribute, by name, gets a value.
    Attribute(&'a [u8], &'a [u8]),
    /// Marks of an extent, by file and index: those that are set, and those that are cleared.
    Marks(u32, u32, u8, u8),
    /// The first chunk of a file gets an extent in the lowest free units of disks 0 and 1, with
    /// these stale marks.
    Append(u32, u8),
    /// The extents of a file's first chunk go from a place on.
    Cut(u32, u32),
    /// File 256 gets a size, in bytes.
    Size(u64),
    /// File 256 goes.
    Remove,
    /// The rebalance gets a power, or ends.
    Power(Option<u16>),
    /// The operation that makes file 257 begins.
    Begin,
    /// The operation ends.
    End,
    /// A disk gets a record with a birth.
    Disk(u8, u64),
    /// Two disks get records in one change, with births 3 and 4.
    Disks(u8, u8),
    /// A disk gets no record.
    NoDisk(u8),
    /// A template of a name is added: three copies, striped finely.
    Template(&'a [u8]),
    /// The tree of names is edited by one path or two.
    Tree(Verb, &'a [u8], &'a [u8]),
    /// The file that is being made gets its name at a path: no bytes, two copies, striped finely.
    Name(&'a [u8]),
}

/// What an edit of the tree does.
#[derive(Clone, Copy)]
pub enum Verb {
    MakeDir,
    DropDir,
    RenameDir,
    AddAlias,
    RenameAlias,
    DropAlias,
}

/// What comes of a plan that is asked for.
#[derive(Clone, Copy, PartialEq, Eq)]
pub enum Answer {
    /// It was made.
    Done,
    /// It may not be asked for, or there is no memory, or it is refused by a cause that no row asks
    /// for.
    Another,
    /// The attribute is named.
    BadAttribute,
    HasAlias,
    NameTaken,
    NoTemplate,
    NotDirectory,
    NotEmpty,
    NotSectors,
    /// DirectoryFull: how many blocks are needed, and how many are free.
    Full(u64, u64),
}

/// Why a plan is refused. The refusal is dropped by a call here alone, since what goes in place is
/// proved in place.
pub fn answer_of(refusal: Refusal) -> Answer {
    let answer = answer_in(&refusal);
    drop(refusal);
    answer
}

fn answer_in(refusal: &Refusal) -> Answer {
    match refusal {
        Refusal::HasAlias => Answer::HasAlias,
        Refusal::NameTaken => Answer::NameTaken,
        Refusal::NoTemplate => Answer::NoTemplate,
        Refusal::NotDirectory => Answer::NotDirectory,
        Refusal::NotEmpty => Answer::NotEmpty,
        Refusal::NotSectors => Answer::NotSectors,
        Refusal::DirectoryFull { need, free } => Answer::Full(*need, *free),
        _ => Answer::Another,
    }
}

/// The copies, the bytes, the incarnation and the nodes of a file's head.
pub type Head = (u8, u64, u64, u32, u32);

/// Units of a disk: how many are user units, how many of these are used, and the lowest that isn't.
pub type Units = (u32, u32, Option<u32>);

/// What a catalog tells.
#[derive(Clone, Copy)]
pub enum Fact<'a> {
    /// The node at a path.
    Find(&'a [u8], Option<u32>),
    /// The file of a node.
    Node(u32, Option<u32>),
    /// The nodes of a directory in their order.
    Children(u32, &'a [u32]),
    /// The parts of a node's path in the group `data`, or none.
    Path(u32, &'a [&'a [u8]]),
    /// Whether the next file may have a path and a size: how many nodes its name makes, or why not.
    Check(&'a [u8], u64, Result<u64, Answer>),
    /// How many records the change of a plan puts, and how many keys go.
    Change(Plan<'a>, usize, usize),
    /// The head of a file.
    Head(u32, Option<Head>),
    /// The first file from a number on.
    FileFrom(u32, Option<u32>),
    /// The number of the next file.
    NextFile(u32),
    /// The disks and units of an extent's two copies, by file and index.
    Homes(u32, u32, Option<((u8, u32), (u8, u32))>),
    /// The stale copies of an extent, by file and index: bit k for copy k.
    Marks(u32, u32, u8),
    /// The first extent from one on that has a stale copy on a disk: disk, file, index.
    Marked(u8, u32, u32, Option<(u32, u32)>),
    /// The keys of the first two chunks.
    Chunks(Option<(u32, u32)>, Option<(u32, u32)>),
    /// The units of a disk.
    Units(usize, Option<Units>),
    /// The birth of a disk by its record.
    Birth(u8, Option<u64>),
    /// How many templates there are.
    Templates(usize),
    /// The copies and the stripe of the template at a place.
    Template(usize, Option<(u8, Stripe)>),
    /// The repair time, in seconds.
    Repair(u64),
    /// The text of compatible.rdbms.
    Rdbms(&'a [u8]),
    /// The next incarnation.
    Incarnation(u64),
    /// The pending operation: what it does, its file, and the extents that the file keeps.
    Pending(Option<(PendingKind, u32, u64)>),
    /// The power of the rebalance.
    Power(Option<u16>),
    /// The blocks of a directory copy.
    Blocks(u32),
    /// The blocks that are free.
    FreeBlocks(u64),
}
