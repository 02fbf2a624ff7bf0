//! The next move of a group's rebalance, and what it stands on: the shares of the disks, and what
//! an extent lacks. No call takes memory.
#![tactic(auto)]

pub use catalog_laws::{
    Catalog, FileBy, FileHead, NewFile, blocks_are_counted, items_say_tables, tables_have_items,
};
pub use extent_copies::{Extent as ExtentCopies, copies_for, serving_groups, template_for};
pub use partnership::{Layout, entry_of, extents_for, partners};

mod cursor;
mod extent;
mod homes;
mod laws;
mod moves;
mod next;
mod search;
mod shares;
mod stages;

pub use cursor::Cursor;
pub use laws::{
    next_moves_may_be_planned, planned_moves_change_one_chunk, planned_moves_lower_the_work,
};
pub use moves::{Move, Next};
pub use next::{next_move, next_move_from, share};
pub use shares::Shares;

#[cfg(test)]
mod tests;
