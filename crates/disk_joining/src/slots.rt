//! Slots: those of a group's attached disks, and those of others.
ghost use Rattle.std.specs.Prelude.{◌≡◌, ◌==◌};
ghost use Rattle.std.specs.List.{list_any};
ghost use Rattle.disk_joining.specs.Attaching.{has_disk_in_slot, is_in};

use file_extents::{Attached, Mounted};

/// Whether an attached disk is in the slot.
fn is_in(place: Option<Attached>, slot: u32) -> bool
    ensures { result ≡ is_in place slot }
{
    match place {
        Some(attached) => attached.slot == slot,
        None => false,
    }
}

/// Whether one of the attached disks is in the slot.
fn has_slot(disks: &[Option<Attached>], slot: u32) -> bool
    ensures { result ≡ has_disk_in_slot disks.now slot }
{
    match disks {
        [] => false,
        [first, rest @ ..] => is_in(*first, slot) || has_slot(rest, slot),
    }
}

/// Whether an attached disk of the group is in the slot.
pub fn is_own(m: &Mounted, slot: u32) -> bool
    ensures { result ≡ has_disk_in_slot m.now.disks slot }
{
    has_slot(m.disks(), slot)
}

/// Whether a slot is one of these.
pub fn is_held(held: &[u32], slot: u32) -> bool
    ensures { result ≡ list_any (λ s. s == slot) held.now }
{
    held.iter().any(|other| *other == slot)
}
