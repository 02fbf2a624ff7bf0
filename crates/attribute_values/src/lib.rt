//! The attributes of a group as they are given in text: how their values are read, the settings
//! that they leave, and what a creation makes of them.
#![tactic(auto)]

pub use template_directory::{
    Settings, Template, TemplateEdit, are_allowed, settings_value, system, templates_value,
};

mod creation;
mod digits;
mod number;
mod repair;
mod setting;
mod version;

pub use creation::Creation;
pub use repair::repair_seconds;
pub use setting::with_attribute;
pub use version::is_version;
