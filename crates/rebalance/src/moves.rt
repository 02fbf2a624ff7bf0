//! The moves of a rebalance.

use asm_base::{DiskSet, ExtentId, Home};

/// What a rebalance does next.
#[derive(Clone, Copy, Debug, PartialEq, Eq)]
pub enum Move {
    /// The copy is written anew in place.
    Recopy { x: ExtentId, copy: u8 },
    /// A copy that is absent, or on a Forced disk, gets this home.
    Fill { x: ExtentId, copy: u8, to: Home },
    /// A copy moves to this home.
    Shift { x: ExtentId, copy: u8, to: Home },
    /// The disk gets a directory copy.
    Directory { to: u8 },
    /// The status tables move to these disks.
    Status { to: DiskSet },
}

/// The next move of a rebalance, or its end.
#[derive(Clone, Copy, Debug, PartialEq, Eq)]
pub enum Next {
    Move(Move),
    /// Nothing is left to do.
    Done,
    /// No disk can take a copy of the extent that is to be elsewhere.
    NoSpace(ExtentId),
    /// The extent has no usable copy.
    Lost(ExtentId),
}
