//! Tables of items by key: of each key at most one item, and each is what one record says.
#![tactic(auto)]

mod listed;
mod numbers;
mod table;
mod writing;

pub use listed::Listed;
pub use table::KeyTable;
pub use writing::Recorded;
