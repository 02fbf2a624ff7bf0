//! An image is made anew, of zeros.
ghost use Rattle.std.specs.Prelude.{◌≤◌, [], IfErr, OnOk, length, map};
ghost use Rattle.std.specs.String.{string_bytes};
ghost use Rattle.refusal_lines.specs.Refusals.{meaning_of};
ghost use Rattle.asm_group.specs.Refusal.{ReadFault};
ghost use Rattle.mounted_groups.specs.FirstParts.{SparesAllBut};
ghost use Rattle.mounted_groups.specs.Found.{counts_of};
ghost use Rattle.mounted_groups.specs.Making.{IsLookFree, IsImageMade, IsNotFree, MakeCause, StaysBut};
ghost use Rattle.mounted_groups.specs.Holding.{SparesHeld};
ghost use Rattle.mounted_groups.specs.Probes.{SaysRefusal};

use crate::choose::{disk_taken, is_held, no_disk};
use crate::find::slot_of;
use asm_base::{NoMemory, Text};
use bay::{Bay, BayError};
use group_recovery::{Looked, look_at};
use refusal_lines::{DiskRef, Refusal};
use std::alloc::Global;

/// The image at the path couldn't be read.
fn read_fault(alloc: Global, path: &[u8]) -> Refusal
    ensures { SaysRefusal (ReadFault path.now) result }
{
    match Text::from_slice(alloc, path) {
        Ok(text) => Refusal::ReadFault {
            disk: DiskRef::Spelt(text),
        },
        Err(NoMemory) => Refusal::NoMemory,
    }
}

/// Whether the image that was looked at may be made anew: it is absent, or has no open header.
fn check_free(alloc: Global, path: &[u8], looked: Looked) -> Result<(), Refusal>
    ensures free { OnOk result (IsLookFree looked) }
    ensures cause { IfErr result (λ refusal. IsNotFree path.now looked
        (meaning_of (λ _. []) refusal)) }
{
    match looked {
        Looked::Absent => Ok(()),
        Looked::Unread { .. } => Err(read_fault(alloc, path)),
        Looked::Read {
            header: Some(_),
            ..
        } => Err(disk_taken(alloc, path)),
        Looked::Read { header: None, .. } => Ok(()),
    }
}

/// Makes an image of zeros of a size in bytes at a path, which is one of the program's images.
/// Images in the slots `held` are attached to groups. Refusals: NoDisk where the path is none of
/// the images, or the making failed; DiskTaken where the image is attached to a group, or was a
/// member of one; ReadFault where the old image failed. Where the making fails the image is as it
/// was, none, or zeros of any length, and isn't attached.
pub fn create_disk<B: Bay>(
    alloc: Global,
    bay: &mut B,
    paths: &[String],
    path: &[u8],
    size: u64,
    held: &[u32],
) -> Result<(), Refusal>
    requires few { length paths.now ≤ 512 }
    ensures cause { IfErr result (λ refusal. MakeCause (map string_bytes paths.now) path.now
        held.now (meaning_of (λ _. []) refusal) (counts_of (B.state bay.old))
        (counts_of (B.state bay.new))) }
    ensures made { OnOk result (IsImageMade (map string_bytes paths.now) path.now held.now size
        (B.state bay.old) (B.state bay.new)) }
    ensures attached { StaysBut (map string_bytes paths.now) path.now held.now (B.state bay.old)
        (B.state bay.new) }
    // No disk changes but that of the path, and none in a slot that is held.
    ensures spares { SparesAllBut (map string_bytes paths.now) path.now (length paths.now)
        (B.state bay.old) (B.state bay.new) }
    ensures held { SparesHeld held.now (length paths.now) (B.state bay.old) (B.state bay.new) }
{
    let Some(slot) = slot_of(paths, path) else {
        return Err(no_disk(alloc, path));
    };
    if is_held(held, slot) {
        return Err(disk_taken(alloc, path));
    }
    let image = paths[slot as usize].as_str();
    let Ok(looked) = look_at(alloc, bay, slot, image) else {
        return Err(Refusal::NoMemory);
    };
    check_free(alloc, path, looked)?;
    match bay.make(slot, image, size) {
        Ok(()) => Ok(()),
        Err(BayError::Fault) => Err(no_disk(alloc, path)),
        Err(BayError::NoMemory) => Err(Refusal::NoMemory),
    }
}
