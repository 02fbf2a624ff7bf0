//! Rows of files, the rebalance and the operation, disks, templates and attributes.

use crate::catalogs::making::play;
use crate::catalogs::steps::{Answer, Fact, Plan, Step};
use asm_base::{PendingKind, Stripe};
use std::alloc::Global;
use std::test::Fail;

/// A file that shrinks is to keep the extents that it has then. One that keeps its size keeps what
/// is pending, and one that grows ends it.
const SIZES: [Step<'static>; 15] = [
    Step::Make(Plan::Size(3_145_728), Answer::Done),
    Step::Tells(Fact::Head(256, Some((2, 3_145_728, 1, 2, 3)))),
    Step::Tells(Fact::Pending(None)),
    Step::Make(Plan::Size(1_049_088), Answer::Done),
    Step::Tells(Fact::Head(256, Some((2, 1_049_088, 1, 2, 3)))),
    Step::Tells(Fact::Pending(Some((PendingKind::Shrink, 256, 2)))),
    Step::Make(Plan::Size(1_049_088), Answer::Done),
    Step::Tells(Fact::Head(256, Some((2, 1_049_088, 1, 2, 3)))),
    Step::Tells(Fact::Pending(Some((PendingKind::Shrink, 256, 2)))),
    Step::Make(Plan::Size(3_145_728), Answer::Done),
    Step::Tells(Fact::Head(256, Some((2, 3_145_728, 1, 2, 3)))),
    Step::Tells(Fact::Pending(None)),
    Step::Make(Plan::Size(0), Answer::Done),
    Step::Tells(Fact::Head(256, Some((2, 0, 1, 2, 3)))),
    Step::Tells(Fact::Pending(Some((PendingKind::Shrink, 256, 0)))),
];

/// A file that is removed is gone with both names, and its removal is pending. Its directory stays,
/// and so do its extents, till the removal is done.
const REMOVALS: [Step<'static>; 7] = [
    Step::Make(Plan::Remove, Answer::Done),
    Step::Tells(Fact::Head(256, None)),
    Step::Tells(Fact::Pending(Some((PendingKind::Remove, 256, 0)))),
    Step::Tells(Fact::Node(1, Some(0))),
    Step::Tells(Fact::Node(2, None)),
    Step::Tells(Fact::Node(3, None)),
    Step::Tells(Fact::Homes(256, 0, Some(((0, 2), (1, 2))))),
];

/// A rebalance is made the active one and ended, and so is an operation. Each leaves the other.
const OPERATIONS: [Step<'static>; 12] = [
    Step::Make(Plan::Power(Some(4)), Answer::Done),
    Step::Tells(Fact::Pending(None)),
    Step::Tells(Fact::Power(Some(4))),
    Step::Make(Plan::Begin, Answer::Done),
    Step::Tells(Fact::Pending(Some((PendingKind::Create, 257, 0)))),
    Step::Tells(Fact::Power(Some(4))),
    Step::Make(Plan::Power(None), Answer::Done),
    Step::Tells(Fact::Pending(Some((PendingKind::Create, 257, 0)))),
    Step::Tells(Fact::Power(None)),
    Step::Make(Plan::End, Answer::Done),
    Step::Tells(Fact::Pending(None)),
    Step::Tells(Fact::Power(None)),
];

/// A disk gets a record, which takes a block, and then has none. The record of another stays.
const DISKS: [Step<'static>; 10] = [
    Step::Make(Plan::Disk(2, 3), Answer::Done),
    Step::Tells(Fact::Birth(1, Some(2))),
    Step::Tells(Fact::Birth(2, Some(3))),
    Step::Tells(Fact::Birth(3, None)),
    Step::Tells(Fact::FreeBlocks(115)),
    Step::Make(Plan::NoDisk(2), Answer::Done),
    Step::Tells(Fact::Birth(1, Some(2))),
    Step::Tells(Fact::Birth(2, None)),
    Step::Tells(Fact::Birth(3, None)),
    Step::Tells(Fact::FreeBlocks(116)),
];

/// The last free block is given to a record, and the next record is refused. One that is there may
/// still be another.
const LAST_BLOCK: [Step<'static>; 7] = [
    Step::Make(Plan::Disk(2, 3), Answer::Done),
    Step::Make(Plan::Disk(3, 4), Answer::Full(1, 0)),
    Step::Make(Plan::Disk(2, 4), Answer::Done),
    Step::Tells(Fact::Birth(1, Some(2))),
    Step::Tells(Fact::Birth(2, Some(4))),
    Step::Tells(Fact::Birth(3, None)),
    Step::Tells(Fact::FreeBlocks(0)),
];

/// Two disks get records in one change, each of which takes a block.
const TWO_DISKS: [Step<'static>; 5] = [
    Step::Make(Plan::Disks(2, 3), Answer::Done),
    Step::Tells(Fact::Birth(1, Some(2))),
    Step::Tells(Fact::Birth(2, Some(3))),
    Step::Tells(Fact::Birth(3, Some(4))),
    Step::Tells(Fact::FreeBlocks(114)),
];

/// They may have the last two blocks.
const LAST_TWO_BLOCKS: [Step<'static>; 5] = [
    Step::Make(Plan::Disks(2, 3), Answer::Done),
    Step::Tells(Fact::Birth(1, Some(2))),
    Step::Tells(Fact::Birth(2, Some(3))),
    Step::Tells(Fact::Birth(3, Some(4))),
    Step::Tells(Fact::FreeBlocks(0)),
];

/// Where one block is free, neither gets one.
const ONE_BLOCK: [Step<'static>; 5] = [
    Step::Make(Plan::Disks(2, 3), Answer::Full(2, 1)),
    Step::Tells(Fact::Birth(1, Some(2))),
    Step::Tells(Fact::Birth(2, None)),
    Step::Tells(Fact::Birth(3, None)),
    Step::Tells(Fact::FreeBlocks(1)),
];

/// A template is added by name, between those of flashback logs and of online logs, and the same
/// name is then refused.
const TEMPLATES: [Step<'static>; 5] = [
    Step::Make(Plan::Template(b"mine"), Answer::Done),
    Step::Make(Plan::Template(b"MINE"), Answer::NameTaken),
    Step::Tells(Fact::Templates(14)),
    Step::Tells(Fact::Template(9, Some((3, Stripe::Fine)))),
    Step::Tells(Fact::Template(10, Some((2, Stripe::Coarse)))),
];

/// An attribute gets a value, in any case of its name; an attribute of a creation, or another
/// value, is refused.
const ATTRIBUTES: [Step<'static>; 6] = [
    Step::Make(Plan::Attribute(b"Disk_Repair_Time", b"5m"), Answer::Done),
    Step::Make(
        Plan::Attribute(b"compatible.rdbms", b"11.2.0.4"),
        Answer::Done,
    ),
    Step::Make(Plan::Attribute(b"au_size", b"4M"), Answer::BadAttribute),
    Step::Make(
        Plan::Attribute(b"disk_repair_time", b"1.25h"),
        Answer::BadAttribute,
    ),
    Step::Tells(Fact::Repair(300)),
    Step::Tells(Fact::Rdbms(b"11.2.0.4")),
];

/// Plays the rows, each in a group of its own.
pub fn files_and_disks(alloc: Global) -> Result<(), Fail> {
    play(alloc, "sizes", &[], 0, &SIZES)?;
    play(alloc, "removals", &[], 0, &REMOVALS)?;
    play(alloc, "operations", &[], 0, &OPERATIONS)?;
    play(alloc, "disks", &[], 0, &DISKS)?;
    play(alloc, "last block", &[], 115, &LAST_BLOCK)?;
    play(alloc, "two disks", &[], 0, &TWO_DISKS)?;
    play(alloc, "last two blocks", &[], 114, &LAST_TWO_BLOCKS)?;
    play(alloc, "one block for two disks", &[], 115, &ONE_BLOCK)?;
    play(alloc, "templates", &[], 0, &TEMPLATES)?;
    play(alloc, "attributes", &[], 0, &ATTRIBUTES)
}
