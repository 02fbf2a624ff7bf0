//! The statements of the DISKGROUP language, written.
#![tactic(auto)]

mod line;
mod writing;
mod written_clauses;
mod written_disks;

pub use writing::write_statement;
