//! New groups of every kind: what a creation is refused for, what its disks become, and how they
//! are formed and mounted.
#![tactic(auto)]

pub use mounted_groups::{Headed, mount_group};
pub use new_disks::{DiskRow, NewDisk, NewFailgroup, PlannedDisk, is_name_taken};
pub use partnership::partners;

mod asked;
mod attributes;
mod checking;
mod create;
mod draft;
mod entries;
mod first_records;
mod forming;
mod lists;
mod mounting;
mod places;
mod planned;
mod preparing;
mod refusals;
mod sizes;

pub use asked::{GroupAsked, Known, Taken};
pub use checking::{are_apart, is_there};
pub use create::create_group;
pub use places::{Place, Shown, check_all_free, find_places};
pub use planned::{Terms, disks_within, planned_disk};
pub use sizes::all_units;
