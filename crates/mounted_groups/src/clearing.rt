// What a stop left undone of a group is ended by the mount: records of disks without an entry, and
// the pending operation.
ghost use Rattle.std.specs.Prelude.{◌≡◌, OnOk};
ghost use Rattle.mounted_groups.specs.Clearing.{CleansUp, HaveDropped, IsDead, IsRefusalOf, is_left_over, without_left_over};
ghost use Rattle.group_engine.specs.Mounts.{IsMounted, Takes};
ghost use Rattle.group_engine.specs.Pending.{EndsOn};

use bay::Bay;
use group_engine::Mounted;
use group_recovery::{Catalog, MountError};
use refusal_lines::{DiskRef, Refusal};
use status_register::{Member, is_of_entry};
use status_table::PstRecord;
use std::alloc::Global;

/// Whether a disk has a record without an entry of its birth.
fn is_left_over(catalog: &Catalog, status: &PstRecord, number: u8) -> bool
    ensures { result ≡ is_left_over status.now.entries catalog.now.tables.disks number }
{
    match catalog.disk(number) {
        Some(info) => {
            let disk = Member {
                slot: 0,
                number,
                birth: info.birth,
                sector: 512,
            };
            !is_of_entry(status.entries(), disk)
        }
        None => false,
    }
}

/// Takes away the record of a disk that has no entry.
fn drop_record<B: Bay>(
    alloc: Global,
    bay: &mut B,
    m: &mut Mounted,
    number: u8,
) -> Result<(), Refusal>
    requires mounted { IsMounted m.old }
    requires takes { Takes m.old (B.state bay.old) }
    ensures ends { EndsOn m.old result m.new (B.state bay.old) (B.state bay.new) }
    ensures dropped { OnOk result (m.new.catalog.tables
        ≡ without_left_over m.old.register.value.entries m.old.catalog.tables number) }
{
    if !is_left_over(m.catalog(), m.status(), number) {
        return Ok(());
    }
    let change = m.catalog().plan_disk(alloc, number, None)?;
    m.commit_plan(alloc, bay, &change)
}

/// Takes away the disk records that have no entry.
fn drop_records<B: Bay>(alloc: Global, bay: &mut B, m: &mut Mounted) -> Result<(), Refusal>
    requires mounted { IsMounted m.old }
    requires takes { Takes m.old (B.state bay.old) }
    ensures ends { EndsOn m.old result m.new (B.state bay.old) (B.state bay.new) }
    // Once it is done, just the records that were left over are gone.
    ensures dropped { OnOk result (HaveDropped m.old.register.value.entries m.old.catalog.tables 64
        m.new.catalog.tables) }
{
    for number in 0..64u8 {
        drop_record(alloc, bay, m, number)?;
    }
    Ok(())
}

/// Ends what a stop left undone: records of disks without an entry, and the pending operation.
/// After Ok the group takes calls.
pub fn clean_up<B: Bay>(alloc: Global, bay: &mut B, m: &mut Mounted) -> Result<(), Refusal>
    requires mounted { IsMounted m.old }
    requires takes { Takes m.old (B.state bay.old) }
    ensures { CleansUp m.old result m.new (B.state bay.old) (B.state bay.new) }
{
    drop_records(alloc, bay, m)?;
    m.end_pending(alloc, bay)
}

/// Dead by a disk, of which slot and name are told.
fn dead(m: &Mounted, disk: u8) -> MountError
    ensures { IsDead m.now disk result }
{
    if disk >= 64 {
        return MountError::NoMemory;
    }
    let Some(slot) = m.slot(disk) else {
        return MountError::NoMemory;
    };
    let Some(info) = m.catalog().disk(disk) else {
        return MountError::NoMemory;
    };
    match info.name.copy() {
        Ok(name) => MountError::Dead { slot, name },
        Err(_) => MountError::NoMemory,
    }
}

/// The refusal of a commit as that of a mount. A commit that makes no record wants no block.
pub fn refusal_of_commit(m: &Mounted, refusal: Refusal) -> MountError
    ensures { IsRefusalOf m.now refusal result }
{
    match refusal {
        Refusal::Dismounted {
            disk: DiskRef::Number(disk),
        } => dead(m, disk),
        _ => MountError::NoMemory,
    }
}
