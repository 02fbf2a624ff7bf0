//! What an ADD that is refused gives back: the headers of the disks, and their directory records.
ghost use Rattle.std.specs.Prelude.{◌⊎◌, ◌<◌, length};
ghost use Rattle.file_extents.specs.group_engine.Mounts.{IsMounted, Takes};
ghost use Rattle.file_extents.specs.group_engine.Pending.{GoesOn};
ghost use Rattle.disk_joining.specs.AddCauses.{IsWriteFault};
ghost use Rattle.disk_joining.specs.Causes.{StepCause};
ghost use Rattle.disk_joining.specs.Joiners.{AreJoiners};
ghost use Rattle.disk_joining.specs.Taking.{IsApart, TakesIn};

use crate::heading::take_headers;
use asm_base::{NoMemory, Text};
use bay::Bay;
use file_extents::Mounted;
use new_groups::Headed;
use refusal_lines::{DiskRef, Refusal};
use std::alloc::Global;

/// Takes away the directory record of a disk that didn't join.
fn drop_record<B: Bay>(
    m: &mut Mounted,
    alloc: Global,
    bay: &mut B,
    number: u8,
) -> Result<(), Refusal>
    requires takes { Takes m.old (B.state bay.old) }
    ensures goes { GoesOn m.old result m.new (B.state bay.old) (B.state bay.new) }
{
    match m.catalog().plan_disk(alloc, number, None) {
        Ok(change) => m.commit_plan(alloc, bay, &change),
        Err(_) => Err(Refusal::NoMemory),
    }
}

/// Takes away the directory records of disks that didn't join.
fn drop_records<B: Bay>(
    m: &mut Mounted,
    alloc: Global,
    bay: &mut B,
    disks: &[Headed],
) -> Result<(), Refusal>
    requires mounted { IsMounted m.old }
    requires takes { Takes m.old (B.state bay.old) }
    ensures goes { GoesOn m.old result m.new (B.state bay.old) (B.state bay.new) }
{
    for disk in disks {
        match drop_record(m, alloc, bay, disk.header.number) {
            Ok(()) => {}
            Err(refusal) => return Err(refusal),
        }
    }
    Ok(())
}

/// WriteFault by a disk that failed.
fn write_fault(alloc: Global, disk: &Headed) -> Refusal
    ensures { IsWriteFault result }
{
    match Text::from_slice(alloc, disk.header.disk.as_bytes()) {
        Ok(text) => Refusal::WriteFault {
            disk: DiskRef::Spelt(text),
        },
        Err(NoMemory) => Refusal::NoMemory,
    }
}

/// Gives back what was done for new disks, of which the one at a place failed: closes the headers
/// of those that were reached, and takes all their directory records away. Births that were given
/// stay so. Gives the refusal: WriteFault with that disk's name, or Dismounted or NoMemory where
/// that comes meanwhile.
pub fn give_back<B: Bay>(
    m: &mut Mounted,
    alloc: Global,
    bay: &mut B,
    held: &[u32],
    disks: &[Headed],
    failed: usize,
) -> Refusal
    requires mounted { IsMounted m.old }
    requires takes { Takes m.old (B.state bay.old) }
    requires apart { IsApart held.now m.old }
    requires joiners { AreJoiners held.now m.old disks.now (B.state bay.old) }
    requires inside { failed < length disks.now }
    ensures taken { TakesIn held.now m.old m.new (B.state bay.old) (B.state bay.new) }
    ensures cause { IsWriteFault result ⊎ StepCause m.old m.new (B.state bay.old) (B.state bay.new)
        result }
{
    let _held = held;
    let shape = m.catalog().shape();
    take_headers(bay, disks, failed + 1, shape);
    match drop_records(m, alloc, bay, disks) {
        Ok(()) => write_fault(alloc, &disks[failed]),
        Err(refusal) => refusal,
    }
}
