//! What the disks of a group mean: members, the status register, which directory copy counts, the
//! group that disks hold, and what every image keeps at every moment for every set of disks that
//! may be left. The laws over these definitions are contracts of functions that do nothing.
#![tactic(auto)]

pub mod cells;
pub mod contents;
pub mod covering;
pub mod created;
pub mod images;
pub mod meaning;
pub mod mounted;
pub mod mounting;
pub mod others;
pub mod puts;
pub mod register;
pub mod rows;
pub mod steps;
pub mod writes;
