//! The disks of a group: how a group comes to be on them, how it is mounted and goes, and how an
//! image is made.
#![tactic(auto)]

pub use group_engine::{Attached, Mounted};
pub use group_recovery::{
    Catalog, CatalogError, Creation, DiskInfo, Found, Headed, MountError, MountOption, Settings,
    are_allowed, disk_record, has_region, is_held, settings_value, system, templates_value,
};

mod bringing;
mod choose;
mod clearing;
mod create;
mod directory;
mod dropping;
mod find;
mod first_change;
mod give;
mod laws;
mod making;
mod mount;
mod mount_new;
mod new_group;

pub use choose::{disk_taken, no_disk, write_fault};
pub use create::create_group;
pub use dropping::drop_group;
pub use laws::{
    formed_is_held, forming_creates, nothing_is_mounted, reads_named, refusals_have_causes,
};
pub use making::create_disk;
pub use mount::mount_group;
