//! The first status record of a new group.
ghost use Rattle.std.specs.Prelude.{◌≡◌, IsTrue, false};
ghost use Rattle.asm_formats.specs.Status.{is_status};

use asm_base::{DiskSet, GroupKind, Mode, Name, NoMemory};
use new_disks::PlannedDisk;
use partnership::{first_directories, first_holders, partners};
use status_table::{
    PstEntry, PstRecord, is_status, least_free_failgroup, with_dirs, with_entry, with_holders,
    with_partners,
};
use std::alloc::Global;

/// A record of number (1, 1) without disks.
fn bare_record(id: u64, births: u64) -> PstRecord
    ensures { result.gone ≡ false }
{
    PstRecord {
        id,
        epoch: 1,
        turn: 1,
        gone: false,
        births,
        holders: DiskSet::empty(),
        next_holders: DiskSet::empty(),
        dirs: DiskSet::empty(),
        count: 0,
        entries: [PstEntry::blank(); 64],
    }
}

/// The number of a failure group: that of the disks that have it, else the least that none has.
fn failgroup_of(status: &PstRecord, disks: &[PlannedDisk], failgroup: &Name) -> u8 {
    for (k, entry) in status.entries().iter().enumerate() {
        if let Some(disk) = disks.get(k) {
            if disk.failgroup.is_same(failgroup) {
                return entry.failgroup;
            }
        }
    }
    least_free_failgroup(status)
}

/// The entry of a new disk: births begin at 1.
fn entry_of(number: u8, failgroup: u8, disk: &PlannedDisk, units: u32) -> PstEntry {
    PstEntry {
        number,
        birth: number as u64 + 1,
        mode: Mode::Online,
        failgroup,
        quorum: disk.quorum,
        units,
        since: 0,
        repair: 0,
        partners: DiskSet::empty(),
    }
}

/// The record with an entry more, where there is room.
fn with_disk(
    status: &PstRecord,
    named: &[PlannedDisk],
    number: usize,
    disk: &PlannedDisk,
    units: u32,
) -> PstRecord {
    if number >= 64 || status.entries().len() >= 64 {
        return status.copy();
    }
    let failgroup = failgroup_of(status, named, &disk.failgroup);
    let entry = entry_of(number as u8, failgroup, disk, units);
    with_entry(status, entry)
}

/// The record with an entry more for each of the disks. `named` are the disks from the first on, of
/// which the record has the first ones.
fn with_disks(status: PstRecord, named: &[PlannedDisk], units: &[u32]) -> PstRecord {
    let mut status = status;
    for (i, disk) in named.iter().enumerate() {
        if let Some(own) = units.get(i) {
            status = with_disk(&status, named, i, disk, *own);
        }
    }
    status
}

/// The record with its sets: who holds the status record and the directories, and who are partners.
#[tactic(auto, using(partnership::proofs::Selected::entries_numbered))]
fn with_sets(alloc: Global, status: &PstRecord, kind: GroupKind) -> Result<PstRecord, NoMemory>
    requires { IsTrue (is_status status.now) }
{
    let holders = first_holders(kind, status.entries());
    let directories = first_directories(kind, status.entries());
    let held = with_holders(status, holders);
    let named = with_dirs(&held, directories);
    let sets = partners(alloc, named.entries())?;
    Ok(with_partners(&named, &sets))
}

/// The first record of a group of these disks with so many units each. None where it isn't one of
/// the format.
pub fn first_record(
    alloc: Global,
    id: u64,
    kind: GroupKind,
    disks: &[PlannedDisk],
    units: &[u32],
) -> Result<Option<PstRecord>, NoMemory> {
    let bare = bare_record(id, disks.len() as u64);
    let status = with_disks(bare, disks, units);
    if !is_status(&status) {
        return Ok(None);
    }
    let whole = with_sets(alloc, &status, kind)?;
    Ok(Some(whole))
}
