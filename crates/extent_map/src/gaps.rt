//! What the rule of a table comes to. Each law is the contract of a function that does nothing.

ghost use Rattle.extent_map.specs.Laws.{AppendsExtents, CutsChunks, FillsChunks, NumbersExtents, ReplacesExtents, TakesChunks, TakesLast};

/// The extents of each file of a table are numbered from 0 without a gap.
#[tactic(auto, using(crate::proofs::Numbering::numbers_extents))]
pub fn extents_have_no_gap()
    ensures { NumbersExtents }
{}

/// A table with an extent more at a file's end is a table.
#[tactic(auto, using(crate::proofs::FileEnds::appends_extents))]
pub fn an_extent_may_be_appended()
    ensures { AppendsExtents }
{}

/// A table without a file's last extent is a table.
#[tactic(auto, using(crate::proofs::FileEnds::takes_last))]
pub fn the_last_extent_may_go()
    ensures { TakesLast }
{}

/// A table in which an extent that is there has other homes is a table.
#[tactic(auto, using(crate::proofs::ChunkEnds::replaces_extents))]
pub fn an_extent_may_move()
    ensures { ReplacesExtents }
{}

/// A table in which a chunk that is its file's first, or stands behind a full one, has more extents
/// is a table.
#[tactic(auto, using(crate::proofs::ChunkEnds::fills_chunks))]
pub fn extents_may_be_appended()
    ensures { FillsChunks }
{}

/// A table without a chunk behind which its file has no extent is a table.
#[tactic(auto, using(crate::proofs::ChunkEnds::takes_chunks))]
pub fn a_last_chunk_may_go()
    ensures { TakesChunks }
{}

/// A table in which a chunk behind which its file has no extent has lost those from a place on is a
/// table.
#[tactic(auto, using(crate::proofs::CutChunks::cuts_chunks))]
pub fn a_last_chunk_may_be_cut()
    ensures { CutsChunks }
{}
