//! Which disks are partners, where new copies go, and which disks hold the status tables and
//! directory copies.
#![tactic(auto)]

pub use status_table::{
    PstEntry, PstRecord, is_status, with_holders, with_mode, with_next_holders,
};
pub use striping::{Layout, extents_for, next_piece, units_of};

mod candidate;
mod choice;
mod disks;
mod failure_groups;
mod homes;
mod pairs;
mod partner_table;
mod replacement;
mod room;
mod row;
mod table_disks;

pub use homes::choose_homes;
pub use partner_table::partners;
pub use replacement::{choose_copy, choose_copy_on, eligible, entry_of};
pub use row::choose_row;
pub use table_disks::{directory_target, first_directories, first_holders, status_target};

#[cfg(test)]
mod tests;
