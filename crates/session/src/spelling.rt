// Refusals in which each disk is spelt.
ghost use Rattle.std.specs.Prelude.{◌≡◌, ◌⊎◌, [], IfOk};
ghost use Rattle.refusal_lines.specs.Refusals.{referred_disk_name as name_of, meaning_of};
ghost use Rattle.asm_group.specs.Refusal.{NoMemory as WantOfMemory};
ghost use Rattle.session.specs.Entries.{disk_name};

use asm_base::{NoMemory, Text};
use group_contents::Mounted;
use refusal_lines::{DiskRef, Refusal};
use std::alloc::Global;

/// A disk by its name, as the group's tables have it.
fn spelt_disk(alloc: Global, m: &Mounted, disk: DiskRef) -> Result<DiskRef, NoMemory>
    ensures { IfOk result (λ spelt. name_of (λ _. []) spelt ≡ name_of (disk_name m.now) disk) }
{
    match disk {
        DiskRef::Number(number) => {
            let name = match m.catalog().disk(number) {
                Some(info) => Text::from_slice(alloc, info.name.as_bytes())?,
                None => Text::new(alloc),
            };
            Ok(DiskRef::Spelt(name))
        }
        DiskRef::Spelt(name) => Ok(DiskRef::Spelt(name)),
    }
}

fn spelt_refusal(alloc: Global, m: &Mounted, refusal: Refusal) -> Result<Refusal, NoMemory>
    ensures { IfOk result (λ spelt. meaning_of (λ _. []) spelt
        ≡ meaning_of (disk_name m.now) refusal) }
{
    Ok(match refusal {
        Refusal::NoDisk { text } => Refusal::NoDisk {
            text: spelt_disk(alloc, m, text)?,
        },
        Refusal::TooSmall { disk, need } => Refusal::TooSmall {
            disk: spelt_disk(alloc, m, disk)?,
            need,
        },
        Refusal::MissingDisks { disk } => Refusal::MissingDisks {
            disk: spelt_disk(alloc, m, disk)?,
        },
        Refusal::ReadFault { disk } => Refusal::ReadFault {
            disk: spelt_disk(alloc, m, disk)?,
        },
        Refusal::WriteFault { disk } => Refusal::WriteFault {
            disk: spelt_disk(alloc, m, disk)?,
        },
        Refusal::Dismounted { disk } => Refusal::Dismounted {
            disk: spelt_disk(alloc, m, disk)?,
        },
        Refusal::DiskState { disk, mode } => Refusal::DiskState {
            disk: spelt_disk(alloc, m, disk)?,
            mode,
        },
        Refusal::HoldsStatus { disk } => Refusal::HoldsStatus {
            disk: spelt_disk(alloc, m, disk)?,
        },
        Refusal::HoldsDirectories { disk } => Refusal::HoldsDirectories {
            disk: spelt_disk(alloc, m, disk)?,
        },
        other => other,
    })
}

/// A refusal of a call on a group, with the names of the disks that it has by number.
pub fn spelt(alloc: Global, m: &Mounted, refusal: Refusal) -> Refusal
    ensures { (meaning_of (λ _. []) result ≡ meaning_of (disk_name m.now) refusal)
        ⊎ (meaning_of (λ _. []) result ≡ WantOfMemory) }
{
    match spelt_refusal(alloc, m, refusal) {
        Ok(spelt) => spelt,
        Err(NoMemory) => Refusal::NoMemory,
    }
}
