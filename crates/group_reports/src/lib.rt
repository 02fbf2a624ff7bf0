//! What the reports show of a mounted group, by its catalog and its status record.
#![tactic(auto)]

pub use catalog_laws::Catalog;
pub use extent_copies::{Extent, partners, serving_groups, units_of};
pub use verb_paths::{clause_path, target};

mod attributes;
mod checking;
mod disks;
mod expiry;
mod extents;
mod files;
mod listing;
mod places;
mod rows;
mod searching;
mod taking;
mod usage;
mod words;

pub use attributes::attribute_rows;
pub use checking::{Checked, check, first_lost};
pub use disks::{GroupTotals, group_totals};
pub use expiry::{expiring, is_moving, syncing};
pub use extents::extent_there;
pub use listing::{directory_row, path_to, row_at, rows_listed, rows_under};
pub use places::{directory_at, is_directory, path_at};
pub use rows::{disk_name, disk_rows, dismounted_row, group_row, template_rows};
pub use searching::paths_found;
pub use taking::{Taken, usage_below};
pub use usage::file_units;
