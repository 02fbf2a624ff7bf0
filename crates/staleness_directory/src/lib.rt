//! The stale marks of a group's extents: of each extent of a chunk, the copies that lack a write.
#![tactic(auto)]

mod marks;
mod reading;
mod table;
mod writing;

pub use marks::Marks;
pub use table::StaleTable;
pub use writing::marks_record;
