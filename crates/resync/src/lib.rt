//! Disks that come back: the copies on them that are stale are copied anew, extent by extent. A
//! step copies one of them whole, syncs it and clears its mark; nothing else is written to user
//! units.
#![tactic(auto)]

pub use file_extents::{
    Attached, Catalog, Flight, Mounted, Move, Next, PstRecord, entry_of, is_lost, items_say_tables,
    planned_moves_change_one_chunk, tables_have_items, with_holders, with_next_holders,
};

mod copying;
mod runs;
mod searching;
mod slice;

pub use copying::{CopyError, copy_piece, piece_buffer, refusal_of};
pub use runs::{extent_bytes, piece_len};
pub use slice::{Resynced, STEPS, sync_slice, syncing_disk};
