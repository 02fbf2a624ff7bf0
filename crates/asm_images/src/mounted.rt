//! A mounted group stays what it is while other disks change, and what it says is there with its
//! attached disks.

ghost use Rattle.asm_images.specs.Kept.{BystandersAreHeld, CompleteStands, FewerSlotsAreSound, HeldStands, SameIsHeld};

/// Where so many slots are sound by a history, fewer are.
pub fn fewer_slots_are_sound()
    ensures { FewerSlotsAreSound }
{}

/// A complete record stands wherever members that are enough for it and one of its copies are left.
pub fn complete_stands()
    ensures { CompleteStands }
{}

/// A mounted group that rests stands with its attached disks and any others.
pub fn held_stands()
    ensures { HeldStands }
{}

/// A mounted group is held where its disks are the same.
pub fn same_is_held()
    ensures { SameIsHeld }
{}

/// It is held where a disk changes that isn't attached to it, by a step that keeps its history.
pub fn bystanders_are_held()
    ensures { BystandersAreHeld }
{}
