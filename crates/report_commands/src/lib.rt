//! The commands that show something, and those that move the session's place. None changes a group.
#![tactic(auto)]

mod group_rows;
mod listing;
mod places;
mod reports;
mod shown;

pub use places::{cd, pwd};
pub use reports::{
    check, find, list_attributes, list_disks, list_groups, list_templates, ls, usage,
};
