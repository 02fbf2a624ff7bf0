//! The status register as a pure machine: a program that surveys, claims an epoch and writes
//! records may stop at any moment, and disks come and go. The laws over every list of events are
//! contracts of functions that do nothing.
#![tactic(auto)]

pub mod machine;
pub mod rows;
