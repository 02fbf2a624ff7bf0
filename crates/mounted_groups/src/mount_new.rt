// A new group is mounted as it was created: its parts are what was written.
ghost use Rattle.std.specs.Prelude.{◌≡◌, [], Some, IfErr, IfOk};
ghost use Rattle.refusal_lines.specs.Refusals.{meaning_of};
ghost use Rattle.asm_group.specs.Refusal.{NoMemory as WithoutMemory};
ghost use Rattle.group_recovery.specs.catalog_tables.Faults.{IsCatalogOf};
ghost use Rattle.group_recovery.specs.directory_store.Stores.{AreFirst};
ghost use Rattle.mounted_groups.specs.Creating.{usual_shape};
ghost use Rattle.mounted_groups.specs.FirstParts.{IsFirstStore, IsMountedOnSlot, first_disks};
ghost use Rattle.mounted_groups.specs.Planned.{IsGroupPlan, first_entries, record_of_plan};

use crate::new_group::{NewGroup, first_status};
use asm_base::{GroupKind, NoMemory, Shape};
use bay::Bay;
use group_engine::{Attached, Mounted};
use group_recovery::{Catalog, CatalogError, Store};
use refusal_lines::Refusal;
use status_register::{Member, Register};
use status_table::PstRecord;
use std::alloc::Global;

/// The shape of a group without attributes: units of 1 MB, sectors of 512 bytes.
const USUAL: Shape = Shape {
    kind: GroupKind::External,
    au: 1_048_576,
    sector: 512,
    step: 20_000,
    dir_blocks: 1_024,
};

/// Disk 0 alone is attached.
fn first_attached(disk: Attached) -> [Option<Attached>; 64]
    ensures { result ≡ first_disks disk }
{
    let mut disks = [None; 64];
    disks[0] = Some(disk);
    disks
}

/// The catalog of a new group's records, none of which is at fault.
fn first_catalog(
    alloc: Global,
    store: &Store,
    group: &NewGroup,
    status: &PstRecord,
) -> Result<Catalog, NoMemory>
    requires plan { IsGroupPlan group.now }
    requires status { status.now ≡ record_of_plan group.now }
    requires records { AreFirst (first_entries group.now) [] store.now.table }
    ensures catalog { IfOk result (IsCatalogOf store.now.table.records status.now.entries) }
    ensures shape { IfOk result (λ c. c.shape ≡ usual_shape) }
{
    let content = store.content();
    // The records come in the order of their keys.
    let _ = content.iter();
    match Catalog::from_store(alloc, content, status, USUAL) {
        Ok(catalog) => Ok(catalog),
        Err(CatalogError::Damaged { .. }) => unreachable!(),
        Err(CatalogError::NoMemory) => Err(NoMemory),
    }
}

/// The group whose parts were all written on a disk. Nothing is written.
pub fn mount_new<B: Bay>(
    alloc: Global,
    bay: &B,
    disk: Attached,
    group: NewGroup,
    store: Store,
) -> Result<Mounted, Refusal>
    requires plan { IsGroupPlan group }
    requires attached { (B.state bay.now).attached disk.slot ≡ Some disk.size }
    requires store { IsFirstStore disk.slot group store (B.state bay.now) }
    ensures mounted { IfOk result (λ m. IsMountedOnSlot disk.slot group m (B.state bay.now)) }
    ensures err { IfErr result (λ refusal. meaning_of (λ _. []) refusal ≡ WithoutMemory) }
{
    let status = first_status(&group);
    let Ok(catalog) = first_catalog(alloc, &store, &group, &status) else {
        return Err(Refusal::NoMemory);
    };
    let members = [Member {
        slot: disk.slot,
        number: 0,
        birth: 1,
        sector: 512,
    }];
    let register = Register::standing(bay, &status, &members);
    let disks = first_attached(disk);
    Ok(Mounted::new(group.name, catalog, store, register, disks))
}
