//! Disks change their modes by what happens to them alone: by the statement that names them, a
//! failed write, expiry, or what a mount finds. Each function does nothing; its contract is the
//! law.
#![tactic(auto)]

ghost use Rattle.std.specs.Prelude.{ℕ};
ghost use Rattle.mode_laws.specs.Coming.{JoiningChanges, LeavingChanges, OnlineChanges, SyncChanges};
ghost use Rattle.mode_laws.specs.Events.{TableOfModes};
ghost use Rattle.mode_laws.specs.Others.{ExpiryChanges, FailedAreTaken, FailedChanges, MountChanges, TakingOverChanges};
ghost use Rattle.mode_laws.specs.Statements.{DropChanges, OfflineChanges, RebalanceChanges, ResizeChanges, UndropChanges};

use bay::Bay;

/// The table of events has for each mode these by which it is left, and no others.
pub fn modes_are_left_by_events()
    ensures { (since repair : ℕ) → TableOfModes since repair }
{}

/// A statement on disks changes the modes of the disks that it names alone, and a RESIZE their
/// units.
pub fn statements_change_modes()
    ensures offline { OfflineChanges }
    ensures drop { DropChanges }
    ensures undrop { UndropChanges }
    ensures resize { ResizeChanges }
    ensures rebalance { RebalanceChanges }
{}

/// Expiry changes the mode of the disk whose time is up alone.
pub fn expiry_changes_modes()
    ensures { ExpiryChanges }
{}

/// A mount changes modes by disks that it doesn't find and by stale copies that it finds alone.
pub fn mounts_change_modes()
    ensures { MountChanges }
{}

/// In a group that a mount takes over they have changed so, and without FORCE the mount has found
/// each disk.
pub fn taking_over_changes_modes<B: Bay>(start: &B, end: &B)
    ensures { TakingOverChanges (B.state start.now) (B.state end.now) }
{}

/// Failed writes change the modes of the disks that failed alone.
pub fn failed_writes_change_modes()
    ensures entries { FailedChanges }
    ensures failed { FailedAreTaken }
{}

/// A disk that comes, goes, comes back, or is at the end of its resync, changes the entries by that
/// alone.
pub fn disks_come_and_go()
    ensures joining { JoiningChanges }
    ensures leaving { LeavingChanges }
    ensures online { OnlineChanges }
    ensures sync { SyncChanges }
{}
