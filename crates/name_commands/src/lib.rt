//! The commands on names and settings of a group: directories, aliases, templates and attributes.
#![tactic(auto)]

mod names;
mod settings;

pub use names::{
    add_alias, add_directory, drop_alias, drop_directory, make_alias, make_directory, remove_alias,
    rename_alias, rename_directory,
};
pub use settings::{add_template, drop_template, modify_template, set_attribute};
