//! A disk that holds nothing of a mounted group is taken out of it.
ghost use Rattle.std.specs.Prelude.{◌≡◌, ◌<◌, IfErr, IfOk, None, OnErr, OnOk};
ghost use Rattle.asm_formats.specs.Status.{entry_of};
ghost use Rattle.rebalance.specs.catalog.Plans.{IsPlan};
ghost use Rattle.rebalance.specs.catalog_tables.Tables.{Tables};
ghost use Rattle.group_engine.specs.Members.{LeavesOne, LetsGo, LettingCause};
ghost use Rattle.group_engine.specs.Mounts.{IsMounted, IsReady, IsWhole, Takes, slot_at};
ghost use Rattle.group_engine.specs.Pending.{GoesOn};
ghost use Rattle.group_engine.specs.Statuses.{IsNextOf};

use crate::mounted::Mounted;
use bay::Bay;
use refusal_lines::Refusal;
use status_register::{PstRecord, with_dirs, without_entry};
use std::alloc::Global;

/// The record without a disk's entry and its directory copy.
fn without_disk(value: &PstRecord, disk: u8) -> PstRecord
    requires small { disk < 64 }
    ensures gone { entry_of result.entries disk ≡ None }
{
    let others = with_dirs(value, value.dirs.without(disk));
    without_entry(&others, disk)
}

impl Mounted {
    /// Takes a disk out on which no home lies and which holds no status record: the record without
    /// its entry and without it among the copies, then it is attached no more, and then its disk
    /// record goes. The move that is on its way is given up. Refusals: Dismounted, where the group
    /// is, or as the record or the commit finds it; NoMemory. What is asked of the disk is tried:
    /// where it doesn't hold, NoMemory is answered and all is as before but for the move. After
    /// NoMemory behind the record the group is closed.
    pub fn leave<B: Bay>(&mut self, alloc: Global, bay: &mut B, disk: u8) -> Result<(), Refusal>
        requires takes { Takes self.old (B.state bay.old) }
        // The group's parts agree, it takes the next call, and the disks of others stay.
        ensures lets { LetsGo self.old self.new (B.state bay.old) (B.state bay.new) }
        // Once it is done, the group takes calls still, and the disk isn't attached.
        ensures mounted { OnOk result (IsMounted self.new) }
        ensures gone { OnOk result (slot_at self.new.disks disk ≡ None) }
        ensures cause { IfErr result (LettingCause self.old self.new (B.state bay.old)
            (B.state bay.new)) }
    {
        match self.takes_calls() {
            Ok(()) => self.take_out(alloc, bay, disk),
            Err(refusal) => Err(refusal),
        }
    }

    /// Takes a disk out of a group that takes calls.
    fn take_out<B: Bay>(&mut self, alloc: Global, bay: &mut B, disk: u8) -> Result<(), Refusal>
        requires mounted { IsMounted self.old }
        requires takes { Takes self.old (B.state bay.old) }
        ensures { LeavesOne self.old disk result self.new (B.state bay.old) (B.state bay.new) }
    {
        self.set_flight(None);
        if disk >= 64 {
            return Err(Refusal::NoMemory);
        }
        let next = without_disk(self.status(), disk);
        if !self.may_get(&next) {
            return Err(Refusal::NoMemory);
        }
        self.end_entry(alloc, bay, disk, &next)
    }

    /// Writes the record without the disk, by which it is attached no more, and takes its disk
    /// record away.
    fn end_entry<B: Bay>(
        &mut self,
        alloc: Global,
        bay: &mut B,
        disk: u8,
        next: &PstRecord,
    ) -> Result<(), Refusal>
        requires small { disk < 64 }
        requires mounted { IsMounted self.old }
        requires takes { Takes self.old (B.state bay.old) }
        requires next { IsNextOf self.old next.now }
        requires gone { entry_of next.now.entries disk ≡ None }
        ensures { LeavesOne self.old disk result self.new (B.state bay.old) (B.state bay.new) }
    {
        match self.set_status(alloc, bay, next) {
            Ok(()) => {
                self.detach(bay, disk);
                self.end_disk(alloc, bay, disk)
            }
            Err(refusal) => Err(refusal),
        }
    }

    /// Takes the disk record of a number away. Where there is no memory the group is closed: a disk
    /// record without an entry is no fault.
    fn end_disk<B: Bay>(&mut self, alloc: Global, bay: &mut B, disk: u8) -> Result<(), Refusal>
        requires mounted { IsMounted self.old }
        requires whole { IsWhole self.old }
        requires ready { IsReady self.old (B.state bay.old) }
        ensures { GoesOn self.old result self.new (B.state bay.old) (B.state bay.new) }
    {
        match self.end_disk_record(alloc, bay, disk) {
            Ok(()) => Ok(()),
            Err(Refusal::Dismounted { disk }) => Err(Refusal::Dismounted { disk }),
            Err(_) => {
                self.close();
                Err(Refusal::NoMemory)
            }
        }
    }

    fn end_disk_record<B: Bay>(
        &mut self,
        alloc: Global,
        bay: &mut B,
        disk: u8,
    ) -> Result<(), Refusal>
        requires mounted { IsMounted self.old }
        requires whole { IsWhole self.old }
        requires ready { IsReady self.old (B.state bay.old) }
        ensures { GoesOn self.old result self.new (B.state bay.old) (B.state bay.new) }
    {
        match self.catalog().plan_disk(alloc, disk, None) {
            Ok(change) => self.commit_plan(alloc, bay, &change),
            Err(_) => Err(Refusal::NoMemory),
        }
    }
}
