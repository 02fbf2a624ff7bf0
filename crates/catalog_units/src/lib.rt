//! The used units of each disk, brought up by a change of records in work that goes by the change,
//! and the units of the disks that a status record gives others.
#![tactic(auto)]

pub use catalog_tables::{
    CatalogError, Chunk, DiskInfo, FileHead, Layout, Marks, Parts, Pending, PendingKind, PstEntry,
    PstRecord, Units, are_fit, are_on_disks, chunk_record, disk_key, disk_record, disk_units,
    extents_for, file_key, has_home, has_stale_on, have_units, is_pending, marks_record, node_key,
    partners, pending_record, rebalance_record, record_of, units_of,
};

mod changed_units;
mod giving;
mod resized_units;

pub use changed_units::follow;
pub use resized_units::{changed_maps, put_in};
