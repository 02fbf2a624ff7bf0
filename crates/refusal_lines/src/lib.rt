//! Why a command is refused, and the line that says so.
#![tactic(auto)]

mod refusal;
mod refusal_text;

pub use refusal::{DiskRef, Limited, Refusal};
pub use refusal_text::{mode_text, no_memory_line};
