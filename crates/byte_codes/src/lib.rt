//! The bytes that stand for words: the kind of a group, the mode of a disk, the stripe of a file,
//! and their like.
#![tactic(auto)]

mod word;

pub use word::{
    put_kind, put_mode, put_node_kind, put_pending_kind, put_stripe, take_kind, take_mode,
    take_node_kind, take_pending_kind, take_stripe,
};
