// Disks that failed in a write are taken Offline.
ghost use Rattle.std.specs.Prelude.{◌≡◌, IfOk, OnOk, IsTrue};
ghost use Rattle.std.specs.List.{list_any};
ghost use Rattle.asm_formats.specs.Status.{is_status};
ghost use Rattle.record_laws.specs.group_engine.Mounts.{IsMounted, Takes};
ghost use Rattle.record_laws.specs.group_engine.NextRecords.{KeepsDisks};
ghost use Rattle.record_laws.specs.group_engine.Pending.{GoesOn};
ghost use Rattle.group_pieces.specs.Failing.{AreOffline, CostsFaults, FailsModes, FewerServe, is_dropping_in, status_failed};
ghost use Rattle.group_pieces.specs.Held.{FailedHeld};

use asm_base::{DiskSet, Mode, NoMemory};
use bay::Bay;
use record_laws::{
    Mounted, PstEntry, PstRecord, partners_of as partners, with_offline, with_partners,
};
use refusal_lines::Refusal;
use std::alloc::Global;

/// Takes disks Offline since a second, with the repair time of the group's attribute. Refusals:
/// Dismounted; NoMemory.
pub(crate) fn take_offline<B: Bay>(
    m: &mut Mounted,
    alloc: Global,
    bay: &mut B,
    failed: DiskSet,
    since: u64,
) -> Result<(), Refusal>
    requires mounted { IsMounted m.old }
    requires takes { Takes m.old (B.state bay.old) }
    ensures goes { GoesOn m.old result m.new (B.state bay.old) (B.state bay.new) }
    ensures tables { m.new.catalog.tables ≡ m.old.catalog.tables }
    ensures offline { OnOk result (AreOffline failed since m.new.register.value) }
    ensures still { failed ≡ 0 → bay.new ≡ bay.old }
    // A group that is mounted is held all the while, and mounted once it is done, where these disks
    // serve.
    ensures held { FailedHeld m.old failed result m.new (B.state bay.old) (B.state bay.new) }
    // A record costs a turn, and one disk at least that served.
    ensures turns { OnOk result (CostsFaults m.old failed m.new) }
{
    if failed.bits() == 0 {
        return Ok(());
    }
    let repair = m.catalog().settings().repair;
    match with_failed(alloc, m.status(), failed, since, repair) {
        Ok(next) => m.set_status(alloc, bay, &next),
        Err(NoMemory) => Err(Refusal::NoMemory),
    }
}

/// The record with disks Offline since a second. Where one of them was being dropped, it joins the
/// table of partners again.
fn with_failed(
    alloc: Global,
    status: &PstRecord,
    failed: DiskSet,
    since: u64,
    repair: u64,
) -> Result<PstRecord, NoMemory>
    requires { IsTrue (is_status status.now) }
    ensures status { IfOk result (λ next. IsTrue (is_status next)) }
    ensures disks { IfOk result (KeepsDisks status.now) }
    ensures offline { IfOk result (AreOffline failed since) }
    // Where these disks serve, modes alone change, and the partners are those of the table.
    ensures modes { IfOk result (FailsModes status.now failed) }
    // Fewer disks serve then.
    ensures fewer { IfOk result (FewerServe status.now failed) }
{
    let next = without_disks(status, failed, since, repair);
    if !any_dropping(status.entries(), failed) {
        return Ok(next);
    }
    let sets = partners(alloc, next.entries())?;
    Ok(with_partners(&next, &sets))
}

/// The record with disks Offline since a second, to be dropped after so many seconds.
fn without_disks(status: &PstRecord, failed: DiskSet, since: u64, repair: u64) -> PstRecord
    requires { IsTrue (is_status status.now) }
    ensures status { IsTrue (is_status result) }
    ensures value { result ≡ status_failed status.now failed 64 since repair }
{
    let mut next = status.copy();
    for disk in 0..64u8 {
        if failed.has(disk) {
            next = with_offline(&next, disk, since, repair);
        }
    }
    next
}

/// Whether one of the disks is being dropped.
fn any_dropping(entries: &[PstEntry], disks: DiskSet) -> bool
    ensures { result ≡ list_any (is_dropping_in disks) entries.now }
{
    entries.iter().any(|entry| matches!(entry.mode, Mode::Dropping) && disks.has(entry.number))
}
