//! The script of `--generate`, as a source. It is made line by line as it is read, and is never
//! whole in memory.
#![tactic(auto)]

mod choice;
mod creations;
mod lines;
mod script_source;

pub use script_source::GeneratedScript;
