//! The directories of a group: records by key, each on a page of its own, and what a change does to
//! both.
#![tactic(auto)]

pub use allocator::Units;

mod all_pages;
mod change;
mod free;
mod laws;
mod loaded;
mod table;

pub use change::{PageError, apply};
pub use laws::shown_is_content;
pub use loaded::{LoadedError, from_pages};
pub use table::PageMap;
