// Groups of the session by their names, and what is done to one of them.
ghost use Rattle.std.specs.Prelude.{◌≡◌, ◌⊎◌, true, IfErr, IfOk, OnOk};
ghost use Rattle.asm_world.specs.Causes.{is_mounted_as};
ghost use Rattle.asm_world.specs.World.{entry_among};
ghost use Rattle.group_contents.specs.group_engine.Making.{IsShut};
ghost use Rattle.group_contents.specs.group_engine.Mounts.{IsMounted, Takes};
ghost use Rattle.group_contents.specs.group_engine.Members.{LetsGo};
ghost use Rattle.session.specs.Naming.{IsGroupOf, IsOutCause};
ghost use Rattle.session.specs.Sessions.{AreReady};
ghost use Rattle.session.specs.Works.{Doing, WorksOn};

use crate::group_name::SoughtName;
use crate::session::Session;
use crate::spelling::spelt;
use asm_base::Name;
use bay::Bay;
use group_contents::Mounted;
use refusal_lines::Refusal;
use std::alloc::Global;

/// What is done to one group. Disks of it may leave.
pub trait GroupWork {
    /// What it gives.
    type Given;

    // what it did, by its answer: to the group as it was, which is then so, and to the disks
    ghost does: { Self → Doing Self.Given };

    /// Does it, on a group that takes calls.
    fn run<B: Bay>(
        self,
        m: &mut Mounted,
        alloc: Global,
        bay: &mut B,
    ) -> Result<Self::Given, Refusal>
        requires takes { Takes m.old (B.state bay.old) }
        ensures keeps { LetsGo m.old m.new (B.state bay.old) (B.state bay.new) }
        ensures does { IsMounted m.old → does self m.old result m.new (B.state bay.old) (B.state bay.new) };
}

/// Does a piece of work on any group. One that takes no calls stays as it is, and the disks are not
/// asked.
fn work_on<B: Bay, W: GroupWork + Drop>(
    m: &mut Mounted,
    alloc: Global,
    bay: &mut B,
    work: W,
) -> Result<W::Given, Refusal>
    requires takes { Takes m.old (B.state bay.old) }
    ensures keeps { IsMounted m.old → LetsGo m.old m.new (B.state bay.old) (B.state bay.new) }
    ensures idle { (IsMounted m.old → ⊥) → (m.new ≡ m.old) × (bay.new ≡ bay.old) }
    ensures found { OnOk result (IsMounted m.old) }
    ensures does { IsMounted m.old → W.does work m.old result m.new (B.state bay.old)
        (B.state bay.new) }
    ensures shut { IfErr result (λ refusal. IsMounted m.old ⊎ IsShut m.old.access refusal) }
{
    match m.takes_calls() {
        Ok(()) => work.run(m, alloc, bay),
        Err(refusal) => Err(refusal),
    }
}

impl Session {
    /// The mounted group of a name. NoGroup where it isn't in the session, and Dismounted where it
    /// is so.
    pub fn mounted(&self, alloc: Global, name: &Name) -> Result<&Mounted, Refusal>
        ensures found { IfOk result (λ m. IsGroupOf self.now name.now m.now) }
        ensures entered { OnOk result (is_mounted_as (entry_among self.now.entries name.now)
            ≡ true) }
        ensures cause { IfErr result (IsOutCause self.now.entries name.now) }
    {
        let Some(entry) = self.groups.get(SoughtName { name }) else {
            return Err(Refusal::NoGroup);
        };
        match entry.group.takes_calls() {
            Ok(()) => Ok(&entry.group),
            Err(refusal) => Err(spelt(alloc, &entry.group, refusal)),
        }
    }

    /// Does a piece of work on the mounted group of a name. NoGroup where it isn't in the session,
    /// and Dismounted where it is so.
    pub fn work<B: Bay, W: GroupWork + Drop>(
        &mut self,
        alloc: Global,
        bay: &mut B,
        name: &Name,
        work: W,
    ) -> Result<W::Given, Refusal>
        requires ready { AreReady self.old.groups (B.state bay.old) }
        ensures { WorksOn name.now (W.does work) result self.old self.new (B.state bay.old)
            (B.state bay.new) }
    {
        self.shows_names();
        let Some(entry) = self.groups.get_mut(SoughtName { name }) else {
            return Err(Refusal::NoGroup);
        };
        match work_on(&mut entry.group, alloc, bay, work) {
            Ok(given) => Ok(given),
            Err(refusal) => Err(spelt(alloc, &entry.group, refusal)),
        }
    }
}
