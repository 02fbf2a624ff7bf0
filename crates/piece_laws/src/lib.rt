//! What writes to the copies of an extent, and reads of one, mean for the group. Each function does
//! nothing; its contract is the law.
#![tactic(auto)]

pub use striping::units_of;

mod files;
mod pieces;

pub use files::{
    freed_forgets, freed_is_free, pieces_agree, rewritten_is_described, settled_is_written,
    span_is_free, walks_exist,
};
pub use pieces::{
    fewer_current_hold, freed_is_held, reading_agrees, settling_knows, spare_write_keeps,
    writing_frees,
};
