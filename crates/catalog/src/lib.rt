//! The catalog of a group: its tables, with the units of its disks, as one value, and the plans of
//! its changes.
#![tactic(auto)]

pub use plan_records::{
    CatalogError, Creation, DiskInfo, FileHead, Settings, TreeEdit, are_allowed, disk_record,
    has_home, partners, settings_value, system, templates_value,
};

mod applying;
mod catalog;
mod disk_units;
mod listing;
mod marked;
mod moving;
mod new_file;
mod next_file;
mod plans;
mod reads;
mod spare;

pub use catalog::Catalog;
pub use new_file::{FileBy, NewFile};
