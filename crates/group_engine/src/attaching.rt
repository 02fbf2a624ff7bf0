//! Images are attached as disks of a mounted group, and are attached no more.
ghost use Rattle.std.specs.Prelude.{◌≡◌, ◌<◌, None, Some, get_or};
ghost use Rattle.std.specs.Bool.{OnFalse, OnTrue};
ghost use Rattle.asm_formats.specs.Status.{entry_of};
ghost use Rattle.group_engine.specs.Members.{HasImage, HasPlace, with_attached_disk, without_attached_disk};
ghost use Rattle.group_engine.specs.Mounts.{IsOwn, Takes};
ghost use Rattle.status_register.specs.declared.member.Member.{Member as AttachedMember};

use crate::attached::Attached;
use crate::births::has_birth;
use crate::mounted::Mounted;
use crate::search::Search;
use bay::Bay;
use status_register::Member;

impl Mounted {
    /// Whether there is a place for a disk: none is attached at its number or on its slot, and
    /// where its number has an entry, its birth is the entry's.
    pub fn has_place(&self, member: Member) -> bool
        ensures { OnTrue result (HasPlace self.now member) }
    {
        if member.number >= 64 || !self.has_room(member) {
            return false;
        }
        has_birth(self.register.value().entries(), member.number, member.birth)
    }

    /// Whether no disk is attached at the number of a disk or on its slot.
    fn has_room(&self, member: Member) -> bool
        requires { member.number < 64 }
        ensures absent { OnTrue result (get_or self.now.register.members member.number None
            ≡ None) }
        ensures apart { OnTrue result (IsOwn self.now member.slot → ⊥) }
    {
        if self.register.member(member.number).is_some() {
            return false;
        }
        for disk in 0..64u8 {
            if self.is_on(disk, member.slot) {
                return false;
            }
        }
        true
    }

    /// Whether the attached disk of a number has the slot.
    fn is_on(&self, disk: u8, slot: u32) -> bool
        requires { disk < 64 }
        ensures no { OnFalse result ((x : AttachedMember)
            → get_or self.now.register.members disk None ≡ Some x → slot ≡ x.slot → ⊥) }
    {
        match self.register.member(disk) {
            Some(other) => other.slot == slot,
            None => false,
        }
    }

    /// An image of so many bytes is attached as the disk of a number, for which there is a place.
    pub fn attach<B: Bay>(&mut self, bay: &B, member: Member, size: u64)
        requires place { HasPlace self.old member }
        requires image { HasImage member size (B.state bay.now) }
        ensures group { self.new ≡ with_attached_disk self.old member size }
        // While the group takes calls, its parts agree and it takes the next call.
        ensures takes { Takes self.old (B.state bay.now) → Takes self.new (B.state bay.now) }
    {
        let _bay = bay;
        // Reading a place shows that there are 64 of them.
        let _place = self.register.member(member.number);
        self.search = Search::start();
        self.register.attach(member);
        self.disks[member.number as usize] = Some(Attached {
            slot: member.slot,
            size,
        });
    }

    /// The disk of a number, which has no entry, is attached no more.
    pub(crate) fn detach<B: Bay>(&mut self, bay: &B, disk: u8)
        requires small { disk < 64 }
        requires gone { entry_of self.old.register.value.entries disk ≡ None }
        ensures group { self.new ≡ without_attached_disk self.old disk }
        ensures takes { Takes self.old (B.state bay.now) → Takes self.new (B.state bay.now) }
    {
        let _bay = bay;
        self.search = Search::start();
        self.register.detach(disk);
        self.disks[disk as usize] = None;
    }
}
