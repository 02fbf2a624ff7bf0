//! The commands on the disks of a group: which there are, how large they are, whether they are
//! online.
#![tactic(auto)]

pub use session::{Answer, Desk, GroupTurn as Turn, Reply, Session, Turned, no_memory, unreadable};

mod disk_works;
mod disks;
mod waiting;

pub use disks::{
    add_disks, create_disk, drop_disks, drop_failgroup, offline_disk, offline_disks, online_all,
    online_disk, online_disks, resize_all, resize_disk, set_power, start_rebalance, undrop_disks,
};
