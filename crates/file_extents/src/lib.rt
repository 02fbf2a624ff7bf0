//! The extents of a mounted group's files: where bytes lie on them, and how new ones are chosen,
//! filled and put behind those that are there.
#![tactic(auto)]

pub use catalog_tables::{
    DiskInfo, PendingKind, PstEntry, PstRecord, entry_of, units_of, with_holders, with_mode,
    with_next_holders,
};
pub use group_pieces::{
    Attached, Catalog, Extent, FileBy, Flight, Mounted, Move, NewFile, Next, Place, ReadError,
    TreeEdit, WriteError, copies_for, is_lost, items_say_tables, planned_moves_change_one_chunk,
    read_copies, read_piece, same_disks_are_next, serving_groups, tables_have_items, template_for,
    write_copies, write_piece, write_spare, write_usable,
};

mod appending;
mod beginning;
mod committing;
mod filling;
mod layout;
mod placing;
mod rows;
mod sparing;

pub use appending::{has_all, is_within_file};
pub use beginning::{begin_operation, give_homes};
pub use committing::{give_back, is_at_rest, or_shut};
pub use filling::{Contents, Filling, prepare, put_next, put_zeros};
pub use layout::{LONGEST_PIECE, Piece, bytes_before, first_piece, layout_of};
pub use rows::{CHUNK, NewExtents};
pub use sparing::is_run;
