//! A script is cut into commands before they are read, so that reading goes on after a refused one.
#![tactic(auto)]

mod cutter;
mod first_word;

pub use cutter::{Cutter, Span, State, goes_on_with_more, next_command};
pub use first_word::opens_statement;
