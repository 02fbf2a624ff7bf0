//! Records that may be taken for Status where another may.

ghost use Rattle.asm_images.specs.RecordLaws.{EntriesAreCovered, FewerCopiesAreCovered, ModesAreCovered};

/// A record with other modes may be taken for Status as the record may.
pub fn modes_are_covered()
    ensures { ModesAreCovered }
{}

/// So may the record that names fewer directory copies.
pub fn fewer_copies_are_covered()
    ensures { FewerCopiesAreCovered }
{}

/// So may a record with other entries that fit what the directories say: disks are added, resized,
/// or leave.
pub fn entries_are_covered()
    ensures { EntriesAreCovered }
{}
