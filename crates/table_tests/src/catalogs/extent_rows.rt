//! Rows of marks, homes and chunks of extents.

use crate::catalogs::making::play;
use crate::catalogs::steps::{Answer, Fact, Plan, Step};
use sample_group::Edit;
use std::alloc::Global;
use std::test::Fail;

/// Marks of an extent are set, and then both are cleared, but one of them is set. Those of the
/// others stay.
const MARKS: [Step<'static>; 8] = [
    Step::Make(Plan::Marks(256, 2, 3, 0), Answer::Done),
    Step::Tells(Fact::Marks(256, 2, 3)),
    Step::Make(Plan::Marks(256, 2, 2, 3), Answer::Done),
    Step::Tells(Fact::Marks(256, 2, 2)),
    Step::Tells(Fact::Marks(256, 0, 0)),
    Step::Tells(Fact::Marks(256, 1, 2)),
    Step::Make(Plan::Marks(256, 1, 0, 7), Answer::Done),
    Step::Tells(Fact::Marks(256, 1, 0)),
];

/// A copy moves to another unit of its disk and back: its old units are free then, the new ones
/// used, and its mark is gone.
const MOVES: [Step<'static>; 12] = [
    Step::Move(256, 1, 1, 0, 5),
    Step::Tells(Fact::Homes(256, 1, Some(((1, 3), (0, 5))))),
    Step::Tells(Fact::Marks(256, 1, 0)),
    Step::Tells(Fact::Units(0, Some((62, 3, Some(3))))),
    Step::Tells(Fact::Units(1, Some((62, 3, Some(5))))),
    Step::Move(256, 1, 1, 0, 3),
    Step::Tells(Fact::Homes(256, 1, Some(((1, 3), (0, 3))))),
    Step::Tells(Fact::Marks(256, 1, 0)),
    Step::Tells(Fact::Units(0, Some((62, 3, Some(5))))),
    Step::Tells(Fact::Units(1, Some((62, 3, Some(5))))),
    Step::Tells(Fact::Homes(256, 0, Some(((0, 2), (1, 2))))),
    Step::Tells(Fact::Marks(256, 0, 0)),
];

/// A chunk that is there gets an extent, which takes no block. Its marks stay.
const MORE_EXTENTS: [Step<'static>; 8] = [
    Step::Make(Plan::Append(256, 0), Answer::Done),
    Step::Tells(Fact::Homes(256, 3, Some(((0, 5), (1, 5))))),
    Step::Tells(Fact::Marks(256, 3, 0)),
    Step::Tells(Fact::Units(0, Some((62, 4, Some(6))))),
    Step::Tells(Fact::Units(1, Some((62, 4, Some(6))))),
    Step::Tells(Fact::Marks(256, 1, 2)),
    Step::Tells(Fact::Chunks(Some((256, 0)), None)),
    Step::Tells(Fact::FreeBlocks(116)),
];

/// File 257 is being made.
const BEGUN: [Edit<'static>; 1] = [Edit::Begun(257)];

/// The file that is made gets a first chunk, which takes two blocks. The chunk goes, and its blocks
/// and units are free.
const NEW_CHUNK: [Step<'static>; 14] = [
    Step::Make(Plan::Append(257, 0), Answer::Done),
    Step::Tells(Fact::Homes(257, 0, Some(((0, 5), (1, 5))))),
    Step::Tells(Fact::Marks(257, 0, 0)),
    Step::Tells(Fact::Units(0, Some((62, 4, Some(6))))),
    Step::Tells(Fact::Units(1, Some((62, 4, Some(6))))),
    Step::Tells(Fact::Chunks(Some((256, 0)), Some((257, 0)))),
    Step::Tells(Fact::FreeBlocks(114)),
    Step::Make(Plan::Cut(257, 0), Answer::Done),
    Step::Tells(Fact::Homes(257, 0, None)),
    Step::Tells(Fact::Marks(257, 0, 0)),
    Step::Tells(Fact::Units(0, Some((62, 3, Some(5))))),
    Step::Tells(Fact::Units(1, Some((62, 3, Some(5))))),
    Step::Tells(Fact::Chunks(Some((256, 0)), None)),
    Step::Tells(Fact::FreeBlocks(116)),
];

/// A new chunk is refused where one block is free, and a chunk that is there gets an extent.
const ONE_BLOCK: [Step<'static>; 4] = [
    Step::Make(Plan::Append(257, 0), Answer::Full(2, 1)),
    Step::Make(Plan::Append(256, 0), Answer::Done),
    Step::Tells(Fact::Chunks(Some((256, 0)), None)),
    Step::Tells(Fact::FreeBlocks(1)),
];

/// An extent goes, and its marks and units with it. The ones before it stay, and one that comes in
/// its place has no mark.
const LAST_EXTENT: [Step<'static>; 29] = [
    // three extents, of which the last two have marks
    Step::Make(Plan::Append(257, 0), Answer::Done),
    Step::Make(Plan::Append(257, 2), Answer::Done),
    Step::Make(Plan::Append(257, 3), Answer::Done),
    Step::Tells(Fact::Homes(257, 1, Some(((0, 6), (1, 6))))),
    Step::Tells(Fact::Marks(257, 1, 2)),
    Step::Tells(Fact::Homes(257, 2, Some(((0, 7), (1, 7))))),
    Step::Tells(Fact::Marks(257, 2, 3)),
    Step::Tells(Fact::Units(0, Some((62, 6, Some(8))))),
    Step::Tells(Fact::Units(1, Some((62, 6, Some(8))))),
    Step::Tells(Fact::Chunks(Some((256, 0)), Some((257, 0)))),
    Step::Tells(Fact::FreeBlocks(114)),
    Step::Make(Plan::Cut(257, 2), Answer::Done),
    Step::Tells(Fact::Homes(257, 1, Some(((0, 6), (1, 6))))),
    Step::Tells(Fact::Marks(257, 1, 2)),
    Step::Tells(Fact::Homes(257, 2, None)),
    Step::Tells(Fact::Marks(257, 2, 0)),
    Step::Tells(Fact::Units(0, Some((62, 5, Some(7))))),
    Step::Tells(Fact::Units(1, Some((62, 5, Some(7))))),
    Step::Tells(Fact::Chunks(Some((256, 0)), Some((257, 0)))),
    Step::Tells(Fact::FreeBlocks(114)),
    Step::Make(Plan::Append(257, 0), Answer::Done),
    Step::Tells(Fact::Homes(257, 1, Some(((0, 6), (1, 6))))),
    Step::Tells(Fact::Marks(257, 1, 2)),
    Step::Tells(Fact::Homes(257, 2, Some(((0, 7), (1, 7))))),
    Step::Tells(Fact::Marks(257, 2, 0)),
    Step::Tells(Fact::Units(0, Some((62, 6, Some(8))))),
    Step::Tells(Fact::Units(1, Some((62, 6, Some(8))))),
    Step::Tells(Fact::Chunks(Some((256, 0)), Some((257, 0)))),
    Step::Tells(Fact::FreeBlocks(114)),
];

/// The first stale copy on a disk from an extent on: that extent's, or one of its chunk or of a
/// later one.
const FIRST_MARKED: [Step<'static>; 13] = [
    // extent 1 of file 256 has its stale copy on disk 0, that of file 257 on disk 1; extent 2 of
    // file 257 has two
    Step::Make(Plan::Append(257, 0), Answer::Done),
    Step::Make(Plan::Append(257, 0), Answer::Done),
    Step::Make(Plan::Append(257, 0), Answer::Done),
    Step::Make(Plan::Marks(257, 1, 2, 0), Answer::Done),
    Step::Make(Plan::Marks(257, 2, 3, 0), Answer::Done),
    Step::Tells(Fact::Marked(0, 0, 0, Some((256, 1)))),
    Step::Tells(Fact::Marked(0, 256, 1, Some((256, 1)))),
    Step::Tells(Fact::Marked(0, 256, 2, Some((257, 2)))),
    Step::Tells(Fact::Marked(0, 257, 3, None)),
    Step::Tells(Fact::Marked(1, 0, 0, Some((257, 1)))),
    Step::Tells(Fact::Marked(1, 257, 2, Some((257, 2)))),
    Step::Tells(Fact::Marked(1, 300, 0, None)),
    Step::Tells(Fact::Marked(2, 0, 0, None)),
];

/// Plays the rows, each in a group of its own.
pub fn extents(alloc: Global) -> Result<(), Fail> {
    play(alloc, "marks", &[], 0, &MARKS)?;
    play(alloc, "moves", &[], 0, &MOVES)?;
    play(alloc, "more extents", &[], 0, &MORE_EXTENTS)?;
    play(alloc, "new chunk", &BEGUN, 0, &NEW_CHUNK)?;
    play(alloc, "one block for a chunk", &BEGUN, 115, &ONE_BLOCK)?;
    play(alloc, "last extent", &BEGUN, 0, &LAST_EXTENT)?;
    play(alloc, "first marked", &BEGUN, 0, &FIRST_MARKED)
}
