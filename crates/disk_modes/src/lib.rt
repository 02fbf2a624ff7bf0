//! Statements that change the modes and the units of a mounted group's disks, their expiry, and
//! what the statements name.
#![tactic(auto)]

pub use group_reports::{
    attribute_rows, check, clause_path, directory_at, directory_row, disk_name, disk_rows,
    dismounted_row, expiring as expiring_disk, file_units, first_lost, group_row, group_totals,
    is_directory, is_moving, path_at, path_to, paths_found, row_at, rows_listed, rows_under,
    syncing, target, template_rows, usage_below,
};
pub use record_laws::Mounted;

mod changing;
mod checking;
mod dropping;
mod ending;
mod finding;
mod losing;
mod offline;
mod records;
mod resizing;
mod sizes;

pub use dropping::{DropDisk, drop_disks, undrop_disks};
pub use ending::{expire, set_rebalance};
pub use finding::{GroupSort, disk_named, disks_in_group, offline_set, serving_disks};
pub use offline::offline_disks;
pub use resizing::resize_disks;
