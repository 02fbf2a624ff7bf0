//! What is written is tried before the first write: a draft whose parts don't agree isn't written.
ghost use Rattle.std.specs.Prelude.{◌≡◌, Some, slice_get};
ghost use Rattle.new_groups.specs.Tests.{are_disks_apart, are_fit, has_disk_number, have_disks, is_apart, is_right_disk, is_image_there, may_form, shows_size};

use crate::draft::Draft;
use crate::lists::member_of;
use asm_base::{DiskSet, Shape};
use disk_header::is_header;
use disk_images::Looked;
use mounted_groups::{Headed, has_region, is_held};
use status_register::is_of_entry;
use status_table::{PstEntry, is_status};

/// Whether the look has shown an image of this size.
fn shows_size(looked: &Looked, size: u64) -> bool
    ensures { result ≡ shows_size (Some looked.now) size }
{
    match looked {
        Looked::Absent => false,
        Looked::Unread { .. } => false,
        Looked::Read { size: shown, .. } => *shown == size,
    }
}

/// Whether the look has shown an image of this size in the slot.
fn has_size(looked: &[Looked], slot: u32, size: u64) -> bool
    ensures { result ≡ shows_size (slice_get looked.now slot) size }
{
    match looked.get(slot as usize) {
        Some(image) => shows_size(image, size),
        None => false,
    }
}

/// Whether the header is one that a disk of the group may have, and the disk that of an entry.
fn is_right(shape: &Shape, entries: &[PstEntry], disk: &Headed) -> bool
    ensures { result ≡ is_right_disk shape.now entries.now disk.now }
{
    is_header(&disk.header)
        && (disk.header.sector == shape.sector
            && (disk.header.dir_blocks == shape.dir_blocks
                && is_of_entry(entries, member_of(disk))))
}

/// Whether the image is there, is long enough, and is no other group's.
pub fn is_there(looked: &[Looked], held: &[u32], disk: &Headed) -> bool
    ensures { result ≡ is_image_there looked.now held.now disk.now }
{
    has_size(looked, disk.slot, disk.size)
        && (has_region(disk.header.dir_blocks, disk.size) && !is_held(held, disk.slot))
}

/// Whether all of the disks are right and there.
fn are_fit(
    shape: &Shape,
    entries: &[PstEntry],
    looked: &[Looked],
    held: &[u32],
    disks: &[Headed],
) -> bool
    ensures { result ≡ are_fit shape.now entries.now looked.now held.now disks.now }
{
    match disks {
        [] => true,
        [first, rest @ ..] => {
            is_right(shape, entries, first)
                && (is_there(looked, held, first) && are_fit(shape, entries, looked, held, rest))
        }
    }
}

/// Whether none of the others has the disk's slot or number.
fn is_apart(disk: &Headed, others: &[Headed]) -> bool
    ensures { result ≡ is_apart disk.now others.now }
{
    match others {
        [] => true,
        [first, rest @ ..] => {
            first.slot != disk.slot
                && (first.header.number != disk.header.number && is_apart(disk, rest))
        }
    }
}

/// Whether no two of the disks have one slot or one number.
pub fn are_apart(disks: &[Headed]) -> bool
    ensures { result ≡ are_disks_apart disks.now }
{
    match disks {
        [] => true,
        [first, rest @ ..] => is_apart(first, rest) && are_apart(rest),
    }
}

/// Whether one of the disks has the number.
fn has_disk(disks: &[Headed], number: u8) -> bool
    ensures { result ≡ has_disk_number disks.now number }
{
    match disks {
        [] => false,
        [first, rest @ ..] => first.header.number == number || has_disk(rest, number),
    }
}

/// Whether each number of the set that is below this one is that of a disk.
#[tactic(auto, using(crate::proofs::Trying::none_left, crate::proofs::Trying::one_less))]
fn have_disks(disks: &[Headed], set: DiskSet, below: u8) -> bool
    ensures { result ≡ have_disks disks.now set below }
{
    if below == 0 {
        return true;
    }
    let number = below - 1;
    (!set.has(number) || has_disk(disks, number)) && have_disks(disks, set, number)
}

/// Whether a draft may be written on these images, of which none in a slot that is held.
pub fn may_form(draft: &Draft, looked: &[Looked], held: &[u32]) -> bool
    ensures { result ≡ may_form draft.now looked.now held.now }
{
    let status = &draft.status;
    let disks = draft.disks.as_slice();
    is_status(status)
        && (!status.gone
            && (draft.shape.is_allowed()
                && (disks.len() <= 64
                    && (are_fit(&draft.shape, status.entries(), looked, held, disks)
                        && (are_apart(disks)
                            && (have_disks(disks, status.holders, 64)
                                && have_disks(disks, status.dirs, 64)))))))
}
