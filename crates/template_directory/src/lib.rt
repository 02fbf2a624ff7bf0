//! The templates of a group and its settings, as the group's directory holds them.
#![tactic(auto)]

pub use asm_base::{
    DiskSet, ExtentId, GroupKind, Home, Homes, Mode, Name, NoMemory, Shape, Text, folded_byte,
    is_dir_blocks, is_step, is_unit_size,
};

mod changing;
mod editing;
mod reading;
mod settings;
mod system_templates;
mod table;
mod template;
mod writing;

pub use editing::TemplateEdit;
pub use reading::are_allowed;
pub use settings::Settings;
pub use system_templates::system;
pub use table::TemplateTable;
pub use template::Template;
pub use writing::{settings_value, templates_value};
