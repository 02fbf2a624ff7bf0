//! The disk directory: what the records of disks say, by number.
#![tactic(auto)]

mod disk_info;
mod table;
mod writing;

pub use disk_info::DiskInfo;
pub use table::{DiskTable, is_mine};
pub use writing::{disk_key, disk_record};
