//! The slices of a rebalance. A slice does at most so many steps as the rebalance's power: a step
//! copies at most 1 MiB of one copy of an extent, or a directory copy, or moves the status tables.
//! One move may be on its way over many slices. Where nothing is left to do the emptied disks
//! leave, and the rebalance ends.
#![tactic(auto)]

pub use resync::{
    CopyError, Resynced, copy_piece, extent_bytes, piece_buffer, piece_len, refusal_of, sync_slice,
    syncing_disk,
};

mod asking;
mod ending;
mod fitting;
mod slicing;
mod steps;

pub use asking::Slice;
pub use slicing::{run_to_end, slice};
