//! The files of a group: of each number the head of the file.
#![tactic(auto)]

mod head;
mod reading;
mod table;
mod writing;

pub use head::FileHead;
pub use table::FileTable;
pub use writing::record_of;
