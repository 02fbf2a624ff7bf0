// Why an expiry or a slice ended early.
ghost use Rattle.std.specs.Prelude.{◌≡◌, Option};
ghost use Rattle.std.specs.Option.{option_copied};
ghost use Rattle.group_turns.specs.Slices.{failure_by, failure_of, fault_by, shown_name};

use asm_base::Name;
use disk_modes::Mounted;
use refusal_lines::{DiskRef, Refusal};

/// Why an expiry or a slice ended early, with the disk by its number.
#[derive(Clone, Copy, Debug)]
pub enum Failure {
    /// The disk failed, and the group stays mounted.
    Fault { disk: u8 },
    /// The group is dismounted by the failure of the disk.
    Dismounted { disk: u8 },
    NoMemory,
}

/// What a refusal of an expiry or a slice says. Its disks are numbers, and it has no cause but
/// these.
pub fn failure_of(refusal: &Refusal) -> Failure
    ensures { result ≡ failure_of refusal.now }
{
    match refusal {
        Refusal::ReadFault { disk } => fault_by(disk),
        Refusal::WriteFault { disk } => fault_by(disk),
        Refusal::Dismounted { disk } => dismounted_by(disk),
        _ => Failure::NoMemory,
    }
}

fn fault_by(disk: &DiskRef) -> Failure
    ensures { result ≡ fault_by disk.now }
{
    match disk {
        DiskRef::Number(disk) => Failure::Fault { disk: *disk },
        DiskRef::Spelt(_) => Failure::NoMemory,
    }
}

fn dismounted_by(disk: &DiskRef) -> Failure
    ensures { result ≡ failure_by disk.now }
{
    match disk {
        DiskRef::Number(disk) => Failure::Dismounted { disk: *disk },
        DiskRef::Spelt(_) => Failure::NoMemory,
    }
}

/// A disk's name for an event line. Each disk that a call on the group names has its record, so
/// that the group's own name stands for none.
pub fn shown_name(m: &Mounted, disk: u8) -> &Name
    ensures { result.now ≡ shown_name m.now disk }
{
    match m.catalog().disk(disk) {
        Some(info) => &info.name,
        None => m.name(),
    }
}
