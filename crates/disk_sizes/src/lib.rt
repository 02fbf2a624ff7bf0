//! How many units a disk has, how many it must have, and how far its directory region reaches.
#![tactic(auto)]

mod sizes;

pub use sizes::{least_units, region_bytes, reserved_units, units_in};
