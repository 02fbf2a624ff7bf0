//! Whether a block is a page of a directory copy: zeros, or the block of one record. It takes no
//! memory.
#![tactic(auto)]

mod fields;
mod page;
mod templates;
mod text;
mod values;

pub use page::is_page;
pub use values::is_value;
