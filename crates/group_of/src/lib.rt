//! The group that a catalog's tables are, and what plans make of it.
#![tactic(auto)]

pub use catalog_laws::{FileBy, NewFile, TreeEdit};

mod describing;
mod edits;
mod files;

pub use describing::{
    described_groups_are_of_tables, next_tables_describe, surplus_describes, tables_describe,
};
pub use edits::{edits_are_the_worlds, edits_lead_on, refusals_of_edits_are_the_worlds};
pub use files::{
    files_lead_on, new_files_are_the_worlds, numbers_are_the_worlds, put_files_have_their_cells,
    refusals_of_names_are_the_worlds, removals_are_the_worlds, resized_files_have_cells,
    sizes_are_the_worlds,
};
