//! Disks that come to a mounted group: new ones by ADD, and those that come back by ONLINE. Both
//! attach images.
#![tactic(auto)]

pub use new_groups::{GroupAsked, Known, Taken, create_group};
pub use status_table::{PstEntry, PstRecord};

mod adding;
mod asked;
mod attaching;
mod checking;
mod heading;
mod joined;
mod joining;
mod looking;
mod naming;
mod onlining;
mod recording;
mod returning;
mod slots;

pub use adding::add_disks;
pub use onlining::online_disks;
