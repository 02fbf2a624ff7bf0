//! What a mounted group tells.

mod disks;
mod extents;
mod fact;
mod records;
mod reports;
mod tables;

use crate::answers::{answer_of, is_answer};
use disks::is_of_disks;
use extents::is_of_extents;
pub use fact::{Copies, Fact, Found, Report};
use group_engine::Mounted;
use records::is_of_record;
use reports::{are_totals, is_printed};
use std::alloc::Global;
use tables::is_of_tables;

/// How many bytes of the move that is on its way are copied.
fn copied(m: &Mounted) -> Option<u64> {
    match m.in_flight() {
        Some(flight) => Some(flight.copied),
        None => None,
    }
}

/// Whether the group tells this.
pub fn is_told(alloc: Global, m: &Mounted, fact: Fact) -> bool {
    match fact {
        Fact::Name(name) => m.name().as_bytes() == name,
        Fact::IsMounted(is_mounted) => m.is_mounted() == is_mounted,
        Fact::Takes(answer) => is_answer(answer_of(m.takes_calls()), answer),
        Fact::IsMoving(is_moving) => m.in_flight().is_some() == is_moving,
        Fact::Copied(bytes) => copied(m) == Some(bytes),
        Fact::Totals(active, units, free, offline) => {
            are_totals(m, (active, units, free, offline))
        }
        Fact::Prints(report, text) => is_printed(alloc, m, report, text),
        _ => is_told_of(alloc, m, fact),
    }
}

/// Whether the group tells this of a part.
fn is_told_of(alloc: Global, m: &Mounted, fact: Fact) -> bool {
    match fact {
        Fact::Record(..)
        | Fact::Holders(..)
        | Fact::Dirs(..)
        | Fact::Mode(..)
        | Fact::Since(..)
        | Fact::Units(..)
        | Fact::Partners(..)
        | Fact::Syncing(_)
        | Fact::ServingGroups(_) => is_of_record(m, fact),
        Fact::Dismounted(_)
        | Fact::Attached(_)
        | Fact::Disk(..)
        | Fact::Sets(..)
        | Fact::Named(..)
        | Fact::InGroup(..)
        | Fact::Expiring(..) => is_of_disks(alloc, m, fact),
        Fact::Home(..)
        | Fact::Marks(..)
        | Fact::IsLost(..)
        | Fact::Copies(..)
        | Fact::FirstLost(..)
        | Fact::Template(..) => is_of_extents(alloc, m, fact),
        _ => is_of_tables(alloc, m, fact),
    }
}
