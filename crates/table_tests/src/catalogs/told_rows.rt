//! Rows of what is told of records.

use crate::catalogs::making::play;
use crate::catalogs::steps::{Fact, Step};
use asm_base::{NodeKind, PendingKind};
use sample_group::Edit;
use std::alloc::Global;
use std::test::Fail;

/// Files and their names, in any case; the first file from a number on, and the next number.
const FILES: [Step<'static>; 8] = [
    Step::Tells(Fact::Find(b"+DATA/DB/U.256.1", Some(2))),
    Step::Tells(Fact::Find(b"+DATA/X", Some(3))),
    Step::Tells(Fact::Find(b"+DATA/y", None)),
    Step::Tells(Fact::Head(256, Some((2, 3_145_728, 1, 2, 3)))),
    Step::Tells(Fact::Node(2, Some(256))),
    Step::Tells(Fact::FileFrom(0, Some(256))),
    Step::Tells(Fact::FileFrom(257, None)),
    Step::Tells(Fact::NextFile(257)),
];

/// Where the extents lie, and which copies are stale. Three extents of one unit have a copy on both
/// disks each.
const EXTENTS: [Step<'static>; 7] = [
    Step::Tells(Fact::Homes(256, 1, Some(((1, 3), (0, 3))))),
    Step::Tells(Fact::Marks(256, 1, 2)),
    Step::Tells(Fact::Homes(256, 3, None)),
    Step::Tells(Fact::Marks(256, 3, 0)),
    Step::Tells(Fact::Units(0, Some((62, 3, Some(5))))),
    Step::Tells(Fact::Units(1, Some((62, 3, Some(5))))),
    Step::Tells(Fact::Units(63, Some((0, 0, None)))),
];

/// Disks, templates, settings and blocks: a head, a chunk, its marks, three nodes, two disks,
/// templates and settings take ten blocks, and two are kept.
const DISKS: [Step<'static>; 7] = [
    Step::Tells(Fact::Birth(1, Some(2))),
    Step::Tells(Fact::Templates(13)),
    Step::Tells(Fact::Repair(12_960)),
    Step::Tells(Fact::Blocks(128)),
    Step::Tells(Fact::FreeBlocks(116)),
    Step::Tells(Fact::Pending(None)),
    Step::Tells(Fact::Power(None)),
];

/// A file that is being made has extents and no head, and a disk that is gone a record and no
/// entry.
const HALF_MADE: [Edit<'static>; 4] = [
    Edit::Begun(257),
    Edit::Chunk(257, 0, &[[1, 63, 0, 63]]),
    Edit::Marks(257, 0, &[2]),
    Edit::Disk(2, 3),
];

/// What a stop may leave is taken, and the number of the file isn't free.
const TAKEN: [Step<'static>; 6] = [
    Step::Tells(Fact::Pending(Some((PendingKind::Create, 257, 0)))),
    Step::Tells(Fact::Power(None)),
    Step::Tells(Fact::Units(0, Some((62, 4, Some(5))))),
    Step::Tells(Fact::Blocks(128)),
    Step::Tells(Fact::FreeBlocks(113)),
    Step::Tells(Fact::NextFile(258)),
];

/// All blocks but the two that are kept may be taken.
const FULL: [Step<'static>; 2] = [
    Step::Tells(Fact::Blocks(128)),
    Step::Tells(Fact::FreeBlocks(0)),
];

/// A directory with a long name.
const ARCHIVE: [Edit<'static>; 1] = [Edit::Node(4, 0, NodeKind::Directory, 0, b"ARCHIVE")];

/// The nodes of a directory are in the order of their names, of which a long one may come first.
const CHILDREN: [Step<'static>; 3] = [
    Step::Tells(Fact::Children(0, &[4, 1, 3])),
    Step::Tells(Fact::Children(1, &[2])),
    Step::Tells(Fact::Children(4, &[])),
];

/// Plays the rows, each in a group of its own.
pub fn records_told(alloc: Global) -> Result<(), Fail> {
    play(alloc, "files and names", &[], 0, &FILES)?;
    play(alloc, "extents and units", &[], 0, &EXTENTS)?;
    play(alloc, "disks and blocks", &[], 0, &DISKS)?;
    play(alloc, "half made file is taken", &HALF_MADE, 0, &TAKEN)?;
    play(alloc, "last block is taken", &[], 116, &FULL)?;
    play(alloc, "children", &ARCHIVE, 0, &CHILDREN)
}
