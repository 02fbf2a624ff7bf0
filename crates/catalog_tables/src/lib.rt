//! The tables of a group as one value, with the rules that hold across them.
#![tactic(auto)]

pub use asm_base::{Change, Home, Homes, Key, Shape, Value, record_kind};
pub use disk_directory::{DiskInfo, DiskTable, disk_key, disk_record};
pub use extent_map::{Chunk, ExtentMap, chunk_record, has_home};
pub use file_directory::{FileHead, record_of};
pub use operations_directory::{Pending, PendingKind, pending_record, rebalance_record};
pub use page_map::Units;
pub use partnership::{
    Layout, PstEntry, PstRecord, choose_row, entry_of, extents_for, next_piece, partners, units_of,
    with_holders, with_mode, with_next_holders,
};
pub use staleness_directory::{Marks, marks_record};

mod changing;
mod checking;
mod chunk_rules;
mod disk_rules;
mod error;
mod file_rules;
mod mark_rules;
mod marked_chunks;
mod name_rules;
mod opening;
mod parts;
mod placing;
mod reading;

pub use changing::a_change_leaves_one_set_of_tables;
pub use checking::file_key;
pub use chunk_rules::{are_on_disks, are_within, is_pending};
pub use error::CatalogError;
pub use marked_chunks::has_stale_on;
pub use parts::Parts;
pub use placing::{are_fit, disk_units, have_units, place_chunk, place_extent};
pub use reading::node_key;
