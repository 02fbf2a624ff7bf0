//! Refusals of a creation. Each wants memory for the text that it names: where there is none, it is
//! NoMemory.
ghost use Rattle.asm_group.specs.Refusal.{BadAttribute, TooSmall};
ghost use Rattle.mounted_groups.specs.Probes.{SaysRefusal};

use asm_base::{Name, NoMemory, Text};
use refusal_lines::{DiskRef, Refusal};
use std::alloc::Global;

/// The attribute isn't one, or can't have the value.
pub fn bad_attribute(alloc: Global, name: &[u8]) -> Refusal
    ensures { SaysRefusal (BadAttribute name.now) result }
{
    match Text::from_slice(alloc, name) {
        Ok(name) => Refusal::BadAttribute { name },
        Err(NoMemory) => Refusal::NoMemory,
    }
}

/// The disk has fewer units than it needs.
pub fn too_small(alloc: Global, disk: &Name, need: u64) -> Refusal
    ensures { SaysRefusal (TooSmall disk.now need) result }
{
    match Text::from_slice(alloc, disk.as_bytes()) {
        Ok(text) => Refusal::TooSmall {
            disk: DiskRef::Spelt(text),
            need,
        },
        Err(NoMemory) => Refusal::NoMemory,
    }
}
