//! The words of the program, `asm [--generate N] IMAGE...`, and what it says of itself.
#![tactic(auto)]

mod checks;
mod help;
mod misuse;
mod parse;
mod rows;
mod words;

pub use help::Notice;
pub use misuse::{Misuse, misuse_of};
pub use rows::word_rows;
pub use words::{MOST_IMAGES, Words, WordsError, read_words};
