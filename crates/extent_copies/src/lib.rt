//! Which copies of an extent count, by its homes and marks and a group's status record, and how
//! many copies a new file has. No call takes memory.
#![tactic(auto)]

pub use partnership::{partners, units_of};
pub use template_directory::Template;

mod extent;
mod fullness;
mod homes;
mod new_files;
mod usable;

pub use extent::Extent;
pub use new_files::{copies_for, serving_groups, template_for};
