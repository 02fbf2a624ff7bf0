//! One status record of a disk group, kept by majorities of the disks that hold it. No call takes
//! memory.
#![tactic(auto)]

pub use status_table::{
    PstEntry, PstRecord, is_status, with_dirs, with_gone, with_offline, with_partners,
    without_entry,
};

mod bodies;
mod claiming;
mod error;
mod gates;
mod holders;
mod kept_laws;
mod laws;
mod losses;
mod majorities;
mod member;
mod members;
mod places;
mod reading;
mod register;
mod storing;
mod survey;
mod tally;
mod writing;

pub use claiming::claim_first;
pub use error::{Dead, SurveyError};
pub use holders::is_of_entry;
pub use kept_laws::{
    attached_keeps, fits_stay, history_stays, no_records_fit, register_keeps_elsewhere,
    same_sets_reach,
};
pub use laws::{
    attached_disks_descend, claimed_record_begins, claims_keep_members, greater_numbers_first,
    ordered_puts_are_a_row, records_keep_members, shown_claim_is_seen, stored_claims_fit,
    stored_record_completes, stored_records_fit, surveyed_epoch_is_above, surveyed_record_counts,
};
pub use majorities::missing;
pub use member::Member;
pub use register::Register;
pub use survey::Survey;
