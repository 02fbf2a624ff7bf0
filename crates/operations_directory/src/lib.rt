//! The operation that a group has begun and not ended, and its rebalance.
#![tactic(auto)]

mod changing;
mod pending;
mod reading;
mod table;
mod writing;

pub use asm_base::PendingKind;
pub use pending::Pending;
pub use table::OperationTable;
pub use writing::{pending_record, rebalance_record};
