//! The disks that a creation or an ADD names: whether a name of theirs is taken, and their failure
//! groups. No call takes memory.
#![tactic(auto)]

pub use group_sql::{Attribute, NewDisk, NewFailgroup};

mod failure_groups;
mod rows;
mod taken;

pub use failure_groups::{has_disks_in, is_in_failgroup, needed_groups, regular_groups};
pub use rows::{DiskRow, PlannedDisk};
pub use taken::is_name_taken;
