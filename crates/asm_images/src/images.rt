//! From an image of the bay to the lists of bytes of its disks.

ghost use Rattle.asm_images.specs.Bridge.{BeyondIsUnseen, BytesAreListed, DisksAreListed, MadeIsZeros, RangeChangeIsWritten, SameIsSame, ShownIsPut, SlotChangeIsWritten};

/// Each slot's disk is the list of its bytes.
pub fn disks_are_listed()
    ensures { DisksAreListed }
{}

/// A disk's list has its length and its bytes, and any part of it is the window there.
pub fn bytes_are_listed()
    ensures { BytesAreListed }
{}

/// A change of one slot's disk, also of its size, changes that list alone.
pub fn slot_change_is_written()
    ensures { SlotChangeIsWritten }
{}

/// A change in one range of one slot's disk changes that list alone, and there the range alone.
pub fn range_change_is_written()
    ensures { RangeChangeIsWritten }
{}

/// A change in slots beyond these changes none of these disks.
pub fn beyond_is_unseen()
    ensures { BeyondIsUnseen }
{}

/// Images with the same disks have the same lists.
pub fn same_is_same()
    ensures { SameIsSame }
{}

/// A disk that is made is zeros.
pub fn made_is_zeros()
    ensures { MadeIsZeros }
{}

/// A change inside a slot's two blocks, after which it shows what it did, nothing or a body, is a
/// moment of putting that body.
pub fn shown_is_put()
    ensures { ShownIsPut }
{}
