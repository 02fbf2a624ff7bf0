//! Whether a status record may come next: all that is asked of it, tried.
ghost use Rattle.std.specs.Prelude.{◌≡◌, ◌<◌, ℕ, All, IsTrue};
ghost use Rattle.std.specs.Bool.{OnTrue};
ghost use Rattle.asm_formats.specs.Following.{Follows, disks_of};
ghost use Rattle.asm_formats.specs.Sets.{elements};
ghost use Rattle.asm_formats.specs.Among.{IsAmong};
ghost use Rattle.group_engine.specs.Mounts.{HaveBirths};
ghost use Rattle.group_engine.specs.Statuses.{IsNextOf, NamesCopies};
ghost use Rattle.group_engine.specs.Trying.{HasBirthAt, HasDirectoryCopy, IsRecordOf, IsRightCopy};

use crate::births::{has_birth, has_same_birth};
use crate::mounted::Mounted;
use asm_base::DiskSet;
use directory_store::DirCopy;
use status_register::{PstEntry, PstRecord, is_of_entry, is_status};

/// Whether two sets have the same numbers, and each of them the same birth by some entries and by
/// others.
fn are_same_disks(one: &[PstEntry], set: DiskSet, other: &[PstEntry], other_set: DiskSet) -> bool
    ensures { OnTrue result (disks_of one.now set ≡ disks_of other.now other_set) }
{
    if set.bits() != other_set.bits() {
        return false;
    }
    for disk in 0..64u8 {
        if set.has(disk) && !has_same_birth(one, other, disk) {
            return false;
        }
    }
    true
}

/// Whether a record may be written after another by their sets: both stay or the second one alone
/// after two, and the one stays, with or without next holders, after one.
fn follows(value: &PstRecord, next: &PstRecord) -> bool
    ensures { OnTrue result (Follows value.now next.now) }
{
    let old = value.entries();
    let new = next.entries();
    if value.next_holders.bits() == 0 {
        return are_same_disks(old, value.holders, new, next.holders);
    }
    if next.next_holders.bits() == 0 {
        return are_same_disks(old, value.next_holders, new, next.holders);
    }
    are_same_disks(old, value.holders, new, next.holders)
        && are_same_disks(old, value.next_holders, new, next.next_holders)
}

impl Mounted {
    /// Whether a record may come next, so that `set_status` may write it: it is one of this group
    /// and of the formats, not marked gone, may be written after the one that holds, is reached by
    /// the attached disks and has their births, names copies that the group has, and its entries
    /// have the units of all homes. It takes no memory. Work goes by the record and by the units
    /// that it takes away.
    pub fn may_get(&self, next: &PstRecord) -> bool
        ensures { OnTrue result (IsNextOf self.now next.now) }
    {
        if !is_status(next) || !self.is_record(next) {
            return false;
        }
        if !self.has_births(next) || !self.names_copies(next) {
            return false;
        }
        self.catalog.covers(next.entries())
    }

    /// Whether the record is one of the group, not marked gone, may be written after the one that
    /// holds, and is reached.
    fn is_record(&self, next: &PstRecord) -> bool
        ensures { OnTrue result (IsRecordOf self.now next.now) }
    {
        let value = self.register.value();
        if next.id != value.id || next.gone {
            return false;
        }
        follows(value, next) && self.register.reaches(next)
    }

    /// Whether each attached disk whose number has an entry has the entry's birth.
    fn has_births(&self, next: &PstRecord) -> bool
        ensures { OnTrue result (HaveBirths next.now self.now.register.members) }
    {
        // Reading a place shows that there are 64 of them.
        let _place = self.register.member(0);
        for disk in 0..64u8 {
            if !self.has_birth_at(next, disk) {
                return false;
            }
        }
        true
    }

    fn has_birth_at(&self, next: &PstRecord, disk: u8) -> bool
        requires { disk < 64 }
        ensures { OnTrue result (HasBirthAt next.now.entries self.now.register.members disk) }
    {
        match self.register.member(disk) {
            Some(member) => has_birth(next.entries(), disk, member.birth),
            None => true,
        }
    }

    /// Whether the record names copies of the store alone, each on its attached disk.
    fn names_copies(&self, next: &PstRecord) -> bool
        ensures { OnTrue result (NamesCopies self.now next.now) }
    {
        self.has_copies(next.dirs) && self.are_right_copies(next)
    }

    /// Whether each disk of a set has a copy in the store.
    fn has_copies(&self, dirs: DiskSet) -> bool
        ensures { OnTrue result ((d : ℕ) → IsAmong (elements dirs) d
            → HasDirectoryCopy self.now.store.copies d) }
    {
        for disk in 0..64u8 {
            if dirs.has(disk) && !self.store.has(disk) {
                return false;
            }
        }
        true
    }

    /// Whether each copy that the record names is of an attached disk with the record's entry.
    fn are_right_copies(&self, next: &PstRecord) -> bool
        ensures { OnTrue result (All (IsRightCopy self.now next.now) self.now.store.copies) }
    {
        for copy in self.store.copies() {
            if !self.is_right_copy(next, copy) {
                return false;
            }
        }
        true
    }

    fn is_right_copy(&self, next: &PstRecord, copy: &DirCopy) -> bool
        ensures { OnTrue result (IsRightCopy self.now next.now copy.now) }
    {
        if !next.dirs.has(copy.number) {
            return true;
        }
        if copy.number >= 64 {
            return false;
        }
        let Some(member) = self.register.member(copy.number) else {
            return false;
        };
        let shape = self.catalog.shape();
        if member.slot != copy.slot || !is_of_entry(next.entries(), member) {
            return false;
        }
        copy.dir_blocks == shape.dir_blocks && copy.sector == shape.sector
    }
}
