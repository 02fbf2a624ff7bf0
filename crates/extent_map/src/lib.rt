//! Where the copies of the extents of a group's files begin.
#![tactic(auto)]

mod changing;
mod chunk;
mod counting;
mod faults;
mod gaps;
mod reading;
mod rule;
mod table;
mod writing;

pub use chunk::{Chunk, has_home};
pub use counting::may_stand;
pub use gaps::{
    a_last_chunk_may_be_cut, a_last_chunk_may_go, an_extent_may_be_appended, an_extent_may_move,
    extents_have_no_gap, extents_may_be_appended, the_last_extent_may_go,
};
pub use table::ExtentMap;
pub use writing::chunk_record;
