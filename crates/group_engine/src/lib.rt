//! A mounted group: the calls that change its metadata.
#![tactic(auto)]

pub use group_of::TreeEdit;
pub use rebalance::{
    Catalog, ExtentCopies as Extent, FileBy, Move, NewFile, Next, copies_for, items_say_tables,
    partners, planned_moves_change_one_chunk, serving_groups, tables_have_items, template_for,
};

mod access;
mod attached;
mod attaching;
mod births;
mod byte_laws;
mod changing;
mod commit;
mod commit_laws;
mod copying;
mod dropping;
mod extent_commit;
mod flight;
mod forgetting;
mod frames;
mod gone;
mod leaving;
mod letting_laws;
mod mounted;
mod next_laws;
mod next_record;
mod pending;
mod quorum;
mod search;
mod status;

pub use access::Access;
pub use attached::Attached;
pub use byte_laws::{
    mounted_bytes_stand, same_bytes_hold, surplus_is_held, surplus_is_planned, surplus_leads_on,
};
pub use commit_laws::{committed_is_sound, committing_is_sound, committing_is_standing};
pub use flight::Flight;
pub use frames::{
    calls_keep, causes_join, giving_up_keeps, mounted_elsewhere, others_are_spared,
    ready_elsewhere, ready_with_own, spared_is_held, stays_attached,
};
pub use letting_laws::{keeping_lets_go, lettings_join};
pub use mounted::Mounted;
pub use next_laws::same_disks_are_next;
