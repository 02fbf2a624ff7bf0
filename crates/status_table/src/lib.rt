//! The status record of a group, which says what each of its disks is for, the claim of an epoch,
//! and their spellings in a block. No call takes memory.
#![tactic(auto)]

pub use asm_base::{Block, DiskSet};
pub use disk_blocks::{BLOCK, FIRST_CLAIM, FIRST_STATUS, SECOND_CLAIM, SECOND_STATUS};

mod changes;
mod claim;
mod entries;
mod follows;
mod reading;
mod record;
mod rules;
mod writing;

pub use changes::{
    majority, next_majority, with_births, with_dirs, with_gone, with_holders, with_next_holders,
};
pub use claim::{Claim, decode_claim, encode_claim};
pub use entries::{
    least_free_failgroup, with_entries, with_entry, with_mode, with_offline, with_partners,
    with_repair, with_units, without_entry,
};
pub use follows::same_sets_follow;
pub use reading::decode;
pub use record::{PstEntry, PstRecord};
pub use rules::is_status;
pub use writing::encode;
