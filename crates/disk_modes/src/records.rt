// The status records that statements on disks put.
ghost use Rattle.std.specs.Prelude.{◌≡◌, IfOk, IsTrue, map};
ghost use Rattle.asm_formats.specs.Status.{is_status};
ghost use Rattle.asm_placement.specs.Partners.{with_partners};
ghost use Rattle.record_laws.specs.group_engine.Dropping.{IsWithout};
ghost use Rattle.record_laws.specs.group_engine.NextRecords.{KeepsDisks};
ghost use Rattle.disk_modes.specs.declared.records.NewModes.TheVariants as modes;
ghost use Rattle.disk_modes.specs.Records.{HasFewer, IsChanged, IsUnder, change_of, entry_after, status_as, taken_off, with_partners_for};

use asm_base::{DiskSet, Mode, NoMemory};
use group_reports::partners;
use status_table::{PstEntry, PstRecord, with_dirs, with_mode, with_offline, with_partners};
use std::alloc::Global;

/// What becomes of the modes of disks.
#[derive(Clone, Copy)]
pub enum NewModes {
    /// These are Offline since a second, to be dropped after so many seconds.
    Offline {
        disks: DiskSet,
        since: u64,
        repair: u64,
    },
    /// These are being dropped, and those by force.
    Dropped {
        dropping: DiskSet,
        forced: DiskSet,
    },
    /// Each that is being dropped is Online.
    Undropped,
}

/// What becomes of the entry of one disk.
#[derive(Clone, Copy)]
pub enum Becomes {
    Same,
    Offline { since: u64, repair: u64 },
    InMode { mode: Mode },
}

/// The record with new modes. Disks that go Offline or by force have no directory copy then. Where
/// disks come to the table of partners or leave it, that is made anew.
#[tactic(auto, using(crate::proofs::Keeping::changed_by, crate::proofs::Entries::under_by))]
pub(crate) fn next_record(
    alloc: Global,
    status: &PstRecord,
    new: &NewModes,
) -> Result<PstRecord, NoMemory>
    requires { IsTrue (is_status status.now) }
    ensures status { IfOk result (λ next. IsTrue (is_status next)) }
    ensures changed { IfOk result (IsChanged status.now) }
    ensures under { IfOk result (IsUnder new.now status.now) }
{
    let modes = with_modes(status, new);
    let next = with_partners_for(alloc, &modes, new)?;
    Ok(without_copies(&next, taken_off(new)))
}

/// The record with new modes, and all else as it was.
pub(crate) fn with_modes(status: &PstRecord, new: &NewModes) -> PstRecord
    requires { IsTrue (is_status status.now) }
    ensures status { IsTrue (is_status result) }
    ensures disks { KeepsDisks status.now result }
    ensures modes { result ≡ record status.now
        { entries = map (entry_after new.now) status.now.entries } }
{
    let mut next = status.copy();
    for entry in status.entries() {
        next = with_changed(&next, entry, change_of(entry, new));
    }
    next
}

/// What becomes of an entry.
fn change_of(entry: &PstEntry, new: &NewModes) -> Becomes
    ensures { result ≡ change_of new.now entry.now }
{
    match *new {
        NewModes::Offline {
            disks,
            since,
            repair,
        } => {
            if disks.has(entry.number) {
                Becomes::Offline { since, repair }
            } else {
                Becomes::Same
            }
        }
        NewModes::Dropped { dropping, forced } => dropped(entry, dropping, forced),
        NewModes::Undropped => {
            if matches!(entry.mode, Mode::Dropping) {
                Becomes::InMode { mode: Mode::Online }
            } else {
                Becomes::Same
            }
        }
    }
}

/// What becomes of the entry of a disk where some are being dropped, and some by force.
fn dropped(entry: &PstEntry, dropping: DiskSet, forced: DiskSet) -> Becomes
    ensures { result ≡ change_of (modes.Dropped dropping forced) entry.now }
{
    if forced.has(entry.number) {
        Becomes::InMode { mode: Mode::Forced }
    } else if dropping.has(entry.number) {
        Becomes::InMode {
            mode: Mode::Dropping,
        }
    } else {
        Becomes::Same
    }
}

/// The record with the change of one disk. Since when it was Offline stays where it isn't Offline
/// then.
#[tactic(auto, using(crate::proofs::Keeping::keeps_same, crate::proofs::Keeping::keeps_offline, crate::proofs::Keeping::keeps_mode))]
fn with_changed(status: &PstRecord, entry: &PstEntry, change: Becomes) -> PstRecord
    requires { IsTrue (is_status status.now) }
    ensures status { IsTrue (is_status result) }
    ensures disks { KeepsDisks status.now result }
    ensures value { result ≡ status_as change entry.now status.now }
{
    match change {
        Becomes::Same => status.copy(),
        Becomes::Offline { since, repair } => with_offline(status, entry.number, since, repair),
        Becomes::InMode { mode } => with_mode(status, entry.number, mode, entry.since),
    }
}

/// The record with the partners of its disks, where disks come to their table or leave it.
fn with_partners_for(
    alloc: Global,
    status: &PstRecord,
    new: &NewModes,
) -> Result<PstRecord, NoMemory>
    requires { IsTrue (is_status status.now) }
    ensures status { IfOk result (λ next. IsTrue (is_status next)) }
    ensures disks { IfOk result (KeepsDisks status.now) }
    ensures births { IfOk result (λ next. next.births ≡ status.now.births) }
    ensures partners { IfOk result (λ next. next.entries
        ≡ with_partners_for new.now status.now.entries) }
{
    match *new {
        NewModes::Offline { .. } => Ok(status.copy()),
        NewModes::Dropped { .. } => with_new_partners(alloc, status),
        NewModes::Undropped => with_new_partners(alloc, status),
    }
}

fn with_new_partners(alloc: Global, status: &PstRecord) -> Result<PstRecord, NoMemory>
    requires { IsTrue (is_status status.now) }
    ensures status { IfOk result (λ next. IsTrue (is_status next)) }
    ensures disks { IfOk result (KeepsDisks status.now) }
    ensures births { IfOk result (λ next. next.births ≡ status.now.births) }
    ensures partners { IfOk result (λ next. next.entries ≡ with_partners status.now.entries) }
{
    let sets = partners(alloc, status.entries())?;
    Ok(with_partners(status, &sets))
}

/// The disks that have no directory copy any more.
fn taken_off(new: &NewModes) -> DiskSet
    ensures { result ≡ taken_off new.now }
{
    match *new {
        NewModes::Offline { disks, .. } => disks,
        NewModes::Dropped { forced, .. } => forced,
        NewModes::Undropped => DiskSet::empty(),
    }
}

/// The record without the directory copies of some disks.
fn without_copies(status: &PstRecord, gone: DiskSet) -> PstRecord
    requires { IsTrue (is_status status.now) }
    ensures status { IsTrue (is_status result) }
    ensures fewer { HasFewer status.now result }
    ensures left { IsWithout result.directories status.now.directories gone }
{
    let left = without(status.dirs, gone);
    with_dirs(status, left)
}

/// A set without the disks of another.
fn without(all: DiskSet, gone: DiskSet) -> DiskSet
    ensures { IsWithout result all gone }
{
    let mut left = all;
    for disk in 0..64u8 {
        if gone.has(disk) {
            left = left.without(disk);
        }
    }
    left
}
