//! Grammars as data: what they mean, how they are read, and how far a text fits.
#![tactic(auto)]

mod arguments;
mod laws;
mod scan;
mod stage;
mod words;

pub use arguments::{
    TextKind, byte_word, exact, hex_value, hex_word, line_end, number_word, size_word, text,
    try_exact, try_text,
};
pub use laws::{
    no_text_goes_further, numbers_are_as_said, reads_each_text, reads_only_texts,
    reads_what_is_written, reads_whole_lines, reads_whole_texts, refuses_at_longest_front,
    refuses_at_the_later, refuses_lines_at_longest_front, says_one_thing, texts_are_as_said,
};
pub use scan::key_prefix;
pub use words::{
    Place, ReadError, end, key, mark, minutes, name, number, quoted, size, try_key, try_mark,
};
