//! What a group does between two commands: expired disks are dropped before a command's text,
//! slices of resync and rebalance run after its reply.
#![tactic(auto)]

pub use disk_modes::{
    DropDisk, GroupSort, clause_path, disk_named, disks_in_group, drop_disks, offline_disks,
    offline_set, resize_disks, serving_disks, set_rebalance, target, undrop_disks,
};
pub use relocation::{Resynced as SyncedSlice, Slice, run_to_end, sync_slice};

mod expiring;
mod failure;
mod slicing;
mod taking;

pub use failure::{Failure, failure_of, shown_name};
pub use slicing::{rebalanced, resynced};
pub use taking::{Turn, Turned, take_turn};
