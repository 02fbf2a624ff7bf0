//! The bytes of a mounted group: pieces of extents, read from and written to their copies.
#![tactic(auto)]

pub use record_laws::{
    Attached, Catalog, Extent, FileBy, Flight, Mounted, Move, NewFile, Next, TreeEdit, copies_for,
    items_say_tables, planned_moves_change_one_chunk, same_disks_are_next, serving_groups,
    tables_have_items, template_for,
};

mod copies;
mod failing;
mod laws;
mod marking;
mod moving;
mod piece;
mod reading;
mod spare;
mod usable;
mod writing;

pub use copies::{Place, read_copies, write_copies};
pub use laws::bytes_mount;
pub use piece::write_piece;
pub use reading::{ReadError, read_piece};
pub use spare::write_spare;
pub use usable::is_lost;
pub use writing::{WriteError, write_usable};
