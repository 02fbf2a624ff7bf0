//! The session: its groups by their names, its place, and what holds of each command that is
//! answered.
#![tactic(auto)]

pub use disk_joining::{
    GroupAsked, Known, add_disks, create_group as create_new_group, online_disks,
};
pub use group_contents::{
    Contents, FileWork, Filling, Mounted, OpenFile, begin_new, buffer, check_source, check_span,
    create, finish_new, give_up, open, put_next, read_next, work_on_file,
};
pub use group_turns::{
    DropDisk, GroupSort, Slice, SyncedSlice, Turn as GroupTurn, Turned, disk_named, disks_in_group,
    drop_disks, offline_disks, offline_set, rebalanced, resize_disks, resynced as group_resynced,
    run_to_end, serving_disks, set_rebalance, shown_name, sync_slice, undrop_disks,
};
pub use session_claims::{
    GroupEdit, create_disk, create_group as create_on_disk, drop_group, mount_group,
};

mod answer;
mod desk;
mod editing;
mod entry;
mod found;
mod group_name;
mod holding;
mod joining;
mod naming;
mod paths;
mod refusing;
mod reply;
mod session;
mod spelling;
mod turn;

pub use answer::{Answer, answer_lines, answer_of};
pub use desk::Desk;
pub use entry::Entry;
pub use found::FoundIds;
pub use group_name::GroupName;
pub use joining::Attaching;
pub use naming::GroupWork;
pub use paths::{path_in, path_of_verb};
pub use refusing::{no_memory, refuse, refused, too_many_groups, unreadable};
pub use reply::Reply;
pub use session::Session;
pub use spelling::spelt;
