//! The lines that tell what happened between two commands, and the lines of WAIT. They take no
//! memory.
#![tactic(auto)]

mod event;
mod short;

pub use event::{Event, Rebalanced, Resynced};
pub use short::Outcome;
