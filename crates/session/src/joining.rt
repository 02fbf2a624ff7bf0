// Images are attached to a group of the session, past the slots of the disks of the other groups.
ghost use Rattle.std.specs.Prelude.{◌≡◌, ◌⊎◌, ◌≤◌, ◌++◌, ◌∷◌, ◌==◌, [], length, IfErr, IfOk, OnOk};
ghost use Rattle.std.specs.List.{list_any};
ghost use Rattle.disk_joining.specs.Taking.{IsApart, TakesIn};
ghost use Rattle.group_contents.specs.group_engine.Making.{IsShut};
ghost use Rattle.group_contents.specs.group_engine.Mounts.{IsMounted, Takes};
ghost use Rattle.session.specs.Joining.{JoinsIn, others_of, without_own};
ghost use Rattle.session.specs.Sessions.{AreReady, held_by};

use crate::group_name::SoughtName;
use crate::holding::{put_slot, put_slots};
use crate::session::Session;
use crate::spelling::spelt;
use asm_base::{DiskSet, Name, NoMemory};
use bay::Bay;
use disk_joining::Known;
use group_contents::{Attached, Mounted};
use refusal_lines::Refusal;
use std::alloc::Global;

/// Images that are attached to one group.
pub trait Attaching {
    /// Attaches them, none in a slot that other groups hold, and gives the numbers of the disks
    /// that are to be resynced.
    fn run<B: Bay>(
        self,
        m: &mut Mounted,
        alloc: Global,
        bay: &mut B,
        paths: &[String],
        known: &Known,
    ) -> Result<DiskSet, Refusal>
        requires few { length paths.now ≤ 512 }
        requires takes { Takes m.old (B.state bay.old) }
        requires apart { IsApart known.now.held.items m.old }
        ensures keeps { TakesIn known.now.held.items m.old m.new (B.state bay.old) (B.state bay.new) };
}

/// Whether the slot is one of these.
fn has_slot(slots: &[u32], slot: u32) -> bool
    ensures { result ≡ list_any (λ s. s == slot) slots.now }
{
    slots.iter().any(|other| *other == slot)
}

/// Puts a slot behind others, where it is none of a group's own.
fn put_other(others: &mut Vec<u32>, own: &[u32], slot: u32) -> Result<(), NoMemory>
    ensures { OnOk result (others.new.items ≡ others.old.items ++ without_own own.now (slot ∷ [])) }
{
    if has_slot(own, slot) {
        return Ok(());
    }
    put_slot(others, slot)
}

/// Of slots those that are none of a group's own.
fn other_slots(alloc: Global, own: &[u32], slots: &[u32]) -> Result<Vec<u32>, NoMemory>
    ensures { IfOk result (λ others. others.items ≡ without_own own.now slots.now) }
{
    let mut others = Vec::new(alloc);
    for slot in slots {
        put_other(&mut others, own, *slot)?;
    }
    Ok(others)
}

/// Of slots those in which none of the disks is.
fn slots_beside(
    alloc: Global,
    disks: &[Option<Attached>],
    slots: &[u32],
) -> Result<Vec<u32>, NoMemory>
    ensures { IfOk result (λ others. others.items ≡ others_of disks.now slots.now) }
{
    let mut own = Vec::new(alloc);
    put_slots(disks, &mut own)?;
    other_slots(alloc, &own, slots)
}

/// What is known of the groups, without the slots of these disks.
fn known_beside(alloc: Global, disks: &[Option<Attached>], known: Known) -> Result<Known, NoMemory>
    ensures { IfOk result (λ beside. beside.held.items ≡ others_of disks.now known.held.items) }
{
    let Known { floor, held, taken } = known;
    let others = slots_beside(alloc, disks, &held);
    drop(held);
    match others {
        Ok(held) => Ok(Known { floor, held, taken }),
        Err(NoMemory) => {
            drop(taken);
            Err(NoMemory)
        }
    }
}

/// Attaches images to a mounted group. `known` tells of all groups of the session.
fn join_mounted<B: Bay, J: Attaching + Drop>(
    m: &mut Mounted,
    alloc: Global,
    bay: &mut B,
    paths: &[String],
    known: Known,
    joining: J,
) -> Result<DiskSet, Refusal>
    requires few { length paths.now ≤ 512 }
    requires takes { Takes m.old (B.state bay.old) }
    requires mounted { IsMounted m.old }
    ensures keeps { TakesIn (others_of m.old.disks known.held.items) m.old m.new (B.state bay.old)
        (B.state bay.new) }
{
    match known_beside(alloc, m.disks(), known) {
        Ok(known) => {
            let joined = joining.run(m, alloc, bay, paths, &known);
            drop(known);
            joined
        }
        Err(NoMemory) => Err(Refusal::NoMemory),
    }
}

/// Attaches images to any group. One that takes no calls stays as it is, and the disks are not
/// asked.
fn join_on<B: Bay, J: Attaching + Drop>(
    m: &mut Mounted,
    alloc: Global,
    bay: &mut B,
    paths: &[String],
    known: Known,
    joining: J,
) -> Result<DiskSet, Refusal>
    requires few { length paths.now ≤ 512 }
    requires takes { Takes m.old (B.state bay.old) }
    ensures keeps { IsMounted m.old → TakesIn (others_of m.old.disks known.held.items) m.old m.new
        (B.state bay.old) (B.state bay.new) }
    ensures idle { (IsMounted m.old → ⊥) → (m.new ≡ m.old) × (bay.new ≡ bay.old) }
    ensures found { OnOk result (IsMounted m.old) }
    ensures shut { IfErr result (λ refusal. IsMounted m.old ⊎ IsShut m.old.access refusal) }
{
    match m.takes_calls() {
        Ok(()) => join_mounted(m, alloc, bay, paths, known, joining),
        Err(refusal) => {
            drop(known);
            Err(refusal)
        }
    }
}

impl Session {
    /// Attaches images to the mounted group of a name, and gives the numbers of the disks that are
    /// to be resynced. NoGroup where it isn't in the session, and Dismounted where it is so; then
    /// what the group refuses.
    pub fn join<B: Bay, J: Attaching + Drop>(
        &mut self,
        alloc: Global,
        bay: &mut B,
        paths: &[String],
        name: &Name,
        joining: J,
    ) -> Result<DiskSet, Refusal>
        requires few { length paths.now ≤ 512 }
        requires ready { AreReady self.old.groups (B.state bay.old) }
        ensures { JoinsIn name.now result self.old self.new (B.state bay.old) (B.state bay.new) }
    {
        match self.known(alloc) {
            Ok(known) => self.join_known(alloc, bay, paths, name, known, joining),
            Err(NoMemory) => Err(Refusal::NoMemory),
        }
    }

    /// The same. `known` tells of all groups of the session.
    fn join_known<B: Bay, J: Attaching + Drop>(
        &mut self,
        alloc: Global,
        bay: &mut B,
        paths: &[String],
        name: &Name,
        known: Known,
        joining: J,
    ) -> Result<DiskSet, Refusal>
        requires few { length paths.now ≤ 512 }
        requires ready { AreReady self.old.groups (B.state bay.old) }
        requires held { known.held.items ≡ held_by self.old.groups }
        ensures { JoinsIn name.now result self.old self.new (B.state bay.old) (B.state bay.new) }
    {
        let Some(entry) = self.groups.get_mut(SoughtName { name }) else {
            drop(known);
            return Err(Refusal::NoGroup);
        };
        match join_on(&mut entry.group, alloc, bay, paths, known, joining) {
            Ok(disks) => Ok(disks),
            Err(refusal) => Err(spelt(alloc, &entry.group, refusal)),
        }
    }
}
