// Whether a disk can be given to a new group, and the new group's id and names.
ghost use Rattle.std.specs.Prelude.{◌≡◌, ◌==◌, ◌≤◌, ◌<◌, ◌++◌, [], All, IfOk, IfErr, IsTrue, take, codes};
ghost use Rattle.std.specs.List.{list_any};
ghost use Rattle.bay.specs.Counts.{last_count};
ghost use Rattle.asm_group.specs.Names.{is_name};
ghost use Rattle.refusal_lines.specs.Refusals.{meaning_of};
ghost use Rattle.asm_group.specs.Refusal.{NoDisk, DiskTaken, TooSmall, WriteFault};
ghost use Rattle.mounted_groups.specs.Creating.{units_needed};
ghost use Rattle.mounted_groups.specs.Probes.{IsUsableProbe, IsUnusable, SaysRefusal, size_shown};

use crate::find::Probe;
use asm_base::{MOST_UNITS, Name, NoMemory, Text};
use refusal_lines::{DiskRef, Refusal};
use std::alloc::Global;

/// The bytes of a unit.
const UNIT: u64 = 1_048_576;

/// The units that the disk of a new group must have: `least_units` of the usual shape.
const LEAST_UNITS: u32 = 25;

/// The units of the disk that a look has shown, where it can be given to a new group.
pub fn usable_units(alloc: Global, path: &[u8], disk: &Name, probe: Probe) -> Result<u32, Refusal>
    ensures ok { IfOk result (λ units. IsUsableProbe probe units) }
    ensures cause { IfErr result (λ refusal. IsUnusable path.now disk.now probe
        (meaning_of (λ _. []) refusal)) }
{
    match probe {
        Probe::Absent => Err(no_disk(alloc, path)),
        Probe::Unread { .. } => Err(write_fault(alloc, disk)),
        Probe::Read { id: Some(_), .. } => Err(disk_taken(alloc, path)),
        Probe::Read { size, id: None } => {
            let units = (size / UNIT).min(MOST_UNITS) as u32;
            if units < LEAST_UNITS {
                Err(too_small(alloc, disk))
            } else {
                Ok(units)
            }
        }
    }
}

/// The size in bytes that a look has shown, and 0 of an image that wasn't attached.
pub fn shown_size(probe: Probe) -> u64
    ensures { result ≡ size_shown probe }
{
    match probe {
        Probe::Absent => 0,
        Probe::Unread { size } => size,
        Probe::Read { size, .. } => size,
    }
}

/// Whether a slot is one of these.
pub fn is_held(held: &[u32], slot: u32) -> bool
    ensures { result ≡ list_any (λ s. s == slot) held.now }
{
    held.iter().any(|other| *other == slot)
}

/// The id of a new group: at least the floor, and above each of these as long as ids don't run out.
pub fn next_id(floor: u64, ids: &[u64]) -> u64
    ensures floor { floor ≤ result }
    ensures above { result < last_count → All (λ other. other < result) ids.now }
{
    let mut next = floor;
    for id in ids {
        next = next.max(id.saturating_add(1));
    }
    next
}

/// The name of the first disk: the first 25 bytes of the group's name, and the disk's number in
/// four digits.
pub fn first_disk_name(alloc: Global, group: &Name) -> Result<Name, NoMemory>
    requires { IsTrue (is_name group.now) }
    ensures named { IfOk result (λ disk. disk ≡ take 25 group.now ++ codes "_0000") }
    ensures name { IfOk result (λ disk. IsTrue (is_name disk)) }
{
    let bytes = numbered(alloc, front(group.as_bytes()))?;
    match Name::read(alloc, &bytes, 30)? {
        Some(disk) => Ok(disk),
        None => unreachable!(),
    }
}

/// The first 25 bytes.
fn front(name: &[u8]) -> &[u8]
    ensures { result.now ≡ take 25 name.now }
{
    &name[..name.len().min(25)]
}

/// The bytes, and the number of the first disk behind them.
fn numbered(alloc: Global, front: &[u8]) -> Result<Vec<u8>, NoMemory>
    ensures { IfOk result (λ bytes. bytes.items ≡ front.now ++ codes "_0000") }
{
    let mut bytes = Vec::from_slice(alloc, front).map_err(|_| NoMemory)?;
    bytes.extend_from_slice(b"_0000").map_err(|_| NoMemory)?;
    Ok(bytes)
}

/// The path isn't among the images, or its image can't be had.
pub fn no_disk(alloc: Global, path: &[u8]) -> Refusal
    ensures { SaysRefusal (NoDisk path.now) result }
{
    match Text::from_slice(alloc, path) {
        Ok(text) => Refusal::NoDisk {
            text: DiskRef::Spelt(text),
        },
        Err(NoMemory) => Refusal::NoMemory,
    }
}

/// The image at the path has an open header, or a group has its slot.
pub fn disk_taken(alloc: Global, path: &[u8]) -> Refusal
    ensures { SaysRefusal (DiskTaken path.now) result }
{
    match Text::from_slice(alloc, path) {
        Ok(path) => Refusal::DiskTaken { path },
        Err(NoMemory) => Refusal::NoMemory,
    }
}

/// The disk has too few units.
fn too_small(alloc: Global, disk: &Name) -> Refusal
    ensures { SaysRefusal (TooSmall disk.now units_needed) result }
{
    match Text::from_slice(alloc, disk.as_bytes()) {
        Ok(text) => Refusal::TooSmall {
            disk: DiskRef::Spelt(text),
            need: LEAST_UNITS as u64,
        },
        Err(NoMemory) => Refusal::NoMemory,
    }
}

/// The disk failed.
pub fn write_fault(alloc: Global, disk: &Name) -> Refusal
    ensures { SaysRefusal (WriteFault disk.now) result }
{
    match Text::from_slice(alloc, disk.as_bytes()) {
        Ok(text) => Refusal::WriteFault {
            disk: DiskRef::Spelt(text),
        },
        Err(NoMemory) => Refusal::NoMemory,
    }
}
