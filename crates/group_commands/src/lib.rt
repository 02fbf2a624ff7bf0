//! The commands by which groups come and go.
#![tactic(auto)]

mod groups;
mod mounting;

pub use groups::{create, dismount, drop_group, mount};
