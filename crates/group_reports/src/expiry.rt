//! What comes by itself in a group: the disk that expires next, the one that is written anew, and
//! the rebalance.

ghost use Rattle.std.specs.Prelude.{◌≡◌, ◌&&◌, ◌+◌, nat_le, find};
ghost use Rattle.group_reports.specs.Disks.{expiring, holds_all, is_repair_time_up, is_moving, is_syncing, may_go, number_of_entry_if_any, syncing};

use crate::checking::first_lost;
use crate::disks::is_offline;
use asm_base::{DiskSet, Mode};
use catalog_laws::Catalog;
use status_table::{PstEntry, PstRecord};

/// The least Syncing disk.
pub fn syncing(status: &PstRecord) -> Option<u8>
    ensures { result ≡ syncing status.now.entries }
{
    first_syncing(status.entries())
}

fn first_syncing(disks: &[PstEntry]) -> Option<u8>
    ensures { result ≡ syncing disks.now }
{
    for disk in disks {
        if is_syncing(disk.mode) {
            return Some(disk.number);
        }
    }
    None
}

fn is_syncing(mode: Mode) -> bool
    ensures { result ≡ is_syncing mode }
{
    matches!(mode, Mode::Syncing)
}

/// Whether a rebalance is active with a power of at least 1.
pub fn is_moving(catalog: &Catalog) -> bool
    ensures { result ≡ is_moving catalog.now.tables.operations.rebalance }
{
    match catalog.rebalance() {
        None => false,
        Some(power) => power >= 1,
    }
}

/// The disk that expiry drops next at a second: the least Offline disk whose time is up, that has
/// neither the only directory copy nor all current copies of an extent. The extents are asked of
/// such disks alone.
pub fn expiring(catalog: &Catalog, status: &PstRecord, now: u64) -> Option<u8>
    ensures { result ≡ expiring catalog.now status.now now }
{
    first_expiring(catalog, status, status.entries(), now)
}

fn first_expiring(catalog: &Catalog, status: &PstRecord, disks: &[PstEntry], now: u64) -> Option<u8>
    ensures { result ≡ number_of_entry_if_any
        (find (λ e. is_repair_time_up now e && may_go catalog.now status.now e.number) disks.now) }
{
    for disk in disks {
        if is_due(disk, now) && may_go(catalog, status, disk.number) {
            return Some(disk.number);
        }
    }
    None
}

/// Whether the time of an Offline disk is up.
fn is_due(disk: &PstEntry, now: u64) -> bool
    ensures { result ≡ is_repair_time_up now disk.now }
{
    is_offline(disk.mode) && has_passed(disk.since, disk.repair, now)
}

fn has_passed(since: u64, repair: u64, now: u64) -> bool
    ensures { result ≡ nat_le (since + repair) now }
{
    since <= now && repair <= now - since
}

/// Whether the disk may be dropped by force.
fn may_go(catalog: &Catalog, status: &PstRecord, disk: u8) -> bool
    ensures { result ≡ may_go catalog.now status.now disk }
{
    !holds_all(status.dirs, disk) && first_lost(catalog, status, disk).is_none()
}

/// Whether the only directory copy is on the disk.
fn holds_all(directories: DiskSet, disk: u8) -> bool
    ensures { result ≡ holds_all directories disk }
{
    directories.has(disk) && directories.count() == 1
}
