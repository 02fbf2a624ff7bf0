//! Where bytes and copies go: the layout of files over extents, the partners of disks, the homes of
//! copies, and the next move of a rebalance. Laws over these definitions are contracts of functions
//! that do nothing.
#![tactic(auto)]

pub mod ends;
pub mod homes;
pub mod layout;
pub mod partners;
pub mod rows;
pub mod work;
