//! What the program meets outside: disks, a folder of files, a source, a sink and a clock. Each
//! counts its faults, and tells its content where it can.
#![tactic(auto)]

mod disk;
mod fault;
mod host;
mod laws;
mod stream;

pub use disk::Bay;
pub use fault::{BayError, Fault, HostError};
pub use host::Host;
pub use laws::{
    Claim, Deed, Slots, Step, Things, calls_go_on, calls_join, calls_on_each,
    calls_stay_on_their_slot, calls_widen, claims_are_kept, claims_are_reached, claims_go_on,
    device_calls_are_calls, marks_go_on, new_marks, settled_disks_stay, syncs_settle,
    two_calls_are_one,
};
pub use stream::{Clock, Sink, Source, write_all};
