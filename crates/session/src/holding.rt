// Which images the mounted groups of the session have.
ghost use Rattle.std.specs.Prelude.{◌≡◌, ◌≤◌, ◌∷◌, ◌++◌, [], IfOk, OnOk, map};
ghost use Rattle.session.specs.Sessions.{held_by, slots_in, taken_by, taken_of};

use crate::session::Session;
use asm_base::NoMemory;
use disk_joining::{Known, PstEntry, PstRecord, Taken};
use group_contents::Attached;
use std::alloc::Global;

pub fn put_slot(slots: &mut Vec<u32>, slot: u32) -> Result<(), NoMemory>
    ensures { OnOk result (slots.new.items ≡ slots.old.items ++ slot ∷ []) }
{
    slots.push(slot).map_err(|_| NoMemory)
}

/// Puts the slots of attached disks behind others.
pub fn put_slots(disks: &[Option<Attached>], slots: &mut Vec<u32>) -> Result<(), NoMemory>
    ensures { OnOk result (slots.new.items ≡ slots.old.items ++ slots_in disks.now) }
{
    for disk in disks {
        if let Some(attached) = disk {
            put_slot(slots, attached.slot)?;
        }
    }
    Ok(())
}

/// Puts the disks of a record's entries behind others.
fn put_taken(status: &PstRecord, taken: &mut Vec<Taken>) -> Result<(), NoMemory>
    ensures { OnOk result (taken.new.items
        ≡ taken.old.items ++ map (taken_of status.now.id) status.now.entries) }
{
    for entry in status.entries() {
        put_disk(taken, taken_of(status.id, entry))?;
    }
    Ok(())
}

/// The disk of an entry of a group with this id.
fn taken_of(id: u64, entry: &PstEntry) -> Taken
    ensures { result ≡ taken_of id entry.now }
{
    Taken {
        id,
        number: entry.number,
        birth: entry.birth,
    }
}

fn put_disk(taken: &mut Vec<Taken>, disk: Taken) -> Result<(), NoMemory>
    ensures { OnOk result (taken.new.items ≡ taken.old.items ++ disk ∷ []) }
{
    taken.push(disk).map_err(|_| NoMemory)
}

impl Session {
    /// The slots of the attached disks of all mounted groups.
    pub fn held_slots(&self, alloc: Global) -> Result<Vec<u32>, NoMemory>
        ensures { IfOk result (λ held. held.items ≡ held_by self.now.groups) }
    {
        let mut held = Vec::new(alloc);
        for (_, entry) in self.groups.iter() {
            if entry.is_mounted() {
                put_slots(entry.group.disks(), &mut held)?;
            }
        }
        Ok(held)
    }

    /// The disks of the entries of all groups, also of those that are dismounted.
    fn taken_disks(&self, alloc: Global) -> Result<Vec<Taken>, NoMemory>
        ensures { IfOk result (λ taken. taken.items ≡ taken_by self.now.groups) }
    {
        let mut taken = Vec::new(alloc);
        for (_, entry) in self.groups.iter() {
            put_taken(entry.group.status(), &mut taken)?;
        }
        Ok(taken)
    }

    /// What a creation has to know of the groups.
    pub fn known(&self, alloc: Global) -> Result<Known, NoMemory>
        ensures floor { IfOk result (λ known. self.now.given ≤ known.floor) }
        ensures held { IfOk result (λ known. known.held.items ≡ held_by self.now.groups) }
        ensures taken { IfOk result (λ known. known.taken.items ≡ taken_by self.now.groups) }
    {
        Ok(Known {
            floor: self.next_id(),
            held: self.held_slots(alloc)?,
            taken: self.taken_disks(alloc)?,
        })
    }
}
