//! How the value of each kind of record is read: the reading of each kind, the laws that it takes
//! the one spelling of each value that fits and is what a record is decoded to, and the fields that
//! records of several kinds have.
#![tactic(auto)]

mod fields;

pub use fields::{take_copies, take_home, take_named, take_system};
