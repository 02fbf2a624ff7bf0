//! Names, templates and attributes of a mounted group.
#![tactic(auto)]

mod attributes;
mod edit;
mod names;
mod templates;

pub use attributes::edit_attribute;
pub use edit::{GroupEdit, edit_group};
pub use names::edit_tree;
pub use templates::edit_template;
