//! A group's status record is written anew.
ghost use Rattle.std.specs.Prelude.{◌≡◌, ◌≤◌, ◌+◌, ◌∷◌, [], ℕ, IfErr, OnErr, OnOk};
ghost use Rattle.bay.specs.Moments.{LeavesOnly};
ghost use Rattle.asm_group.specs.Group.{Group};
ghost use Rattle.asm_images.specs.Kept.{Kept};
ghost use Rattle.rebalance.specs.catalog_tables.Placing.{HaveSameUnits};
ghost use Rattle.status_register.specs.Holders.{with_next_number};
ghost use Rattle.group_engine.specs.Commits.{StandsIn, StatusCause, turns_at_most};
ghost use Rattle.group_engine.specs.Mounts.{IsMounted, IsReady, IsWhole, Mounts};
ghost use Rattle.group_engine.specs.Own.{KeepsGroup};
ghost use Rattle.group_engine.specs.Recorded.{MayGet};
ghost use Rattle.group_engine.specs.Statuses.{IsNextOf, WritesStatus};

use crate::access::Access;
use crate::forgetting::forget_others;
use crate::mounted::Mounted;
use crate::search::Search;
use bay::Bay;
use refusal_lines::{DiskRef, Refusal};
use status_register::PstRecord;
use std::alloc::Global;

impl Mounted {
    /// Writes a status record under the next number, and brings the units of the catalog and the
    /// directory copies to it. The record names no other copies than the one before. Refusals:
    /// Dismounted, where the group is, or where in this call a majority of a set of the record
    /// failed; NoMemory. NoMemory leaves the value as before.
    ///
    /// Where the record gives each disk as many units as the one before, the unit maps stay, and
    /// work goes by the record. Otherwise work and memory go by the record and by the units of the
    /// disks whose number of units it changes.
    pub fn set_status<B: Bay>(
        &mut self,
        alloc: Global,
        bay: &mut B,
        next: &PstRecord,
    ) -> Result<(), Refusal>
        requires whole { IsMounted self.old → IsWhole self.old }
        requires ready { IsMounted self.old → IsReady self.old (B.state bay.old) }
        requires next { IsMounted self.old → IsNextOf self.old next.now }
        // The group's parts agree, it takes the next call, and the disks of others stay.
        ensures keeps { KeepsGroup self.old self.new (B.state bay.old) (B.state bay.new) }
        ensures flight { self.new.flight ≡ self.old.flight }
        ensures tables { self.new.catalog.tables ≡ self.old.catalog.tables }
        // Where the record gives each disk as many units as the one before, the unit maps stay.
        ensures units { HaveSameUnits self.old.register.value.entries next.now.entries
            → self.new.catalog.units ≡ self.old.catalog.units }
        // Once it is done, the group takes calls still, and the record holds under the next number.
        ensures mounted { OnOk result (IsMounted self.new) }
        ensures recorded { OnOk result (self.new.register.value
            ≡ with_next_number self.old.register next.now) }
        ensures cause { IfErr result (StatusCause self.old self.new (B.state bay.old)
            (B.state bay.new)) }
        // Each image of each moment is held for the group.
        ensures moments { IsMounted self.old → (n : ℕ) (g : Group) (kept : Kept) → MayGet n self.old next.now (B.state bay.old) g kept
            → LeavesOnly (B.state bay.old) (B.state bay.new) (StandsIn n self.old.register.id (g ∷ []) kept) }
        // Once it is done, the group is mounted with the record.
        ensures done { IsMounted self.old → OnOk result ((n : ℕ) (g : Group) (kept : Kept) → MayGet n self.old next.now (B.state bay.old) g kept
            → (later : Kept) × (later.slots ≡ kept.slots) × Mounts n self.new (B.state bay.new) g later) }
        // Where it is refused and the group takes calls, nothing has changed.
        ensures refused { IsMounted self.new → OnErr result
            ((n : ℕ) (g : Group) (kept : Kept) → Mounts n self.old (B.state bay.old) g kept
            → Mounts n self.new (B.state bay.new) g kept) }
        // The record takes a turn.
        ensures turns { turns_at_most self.new ≤ turns_at_most self.old + 1 }
    {
        match self.access {
            Access::Mounted => self.write_status(alloc, bay, next),
            Access::Dismounted { disk } => Err(Refusal::Dismounted {
                disk: DiskRef::Number(disk),
            }),
            Access::Closed => Err(Refusal::NoMemory),
        }
    }

    /// Writes a status record on a group that takes calls.
    fn write_status<B: Bay>(
        &mut self,
        alloc: Global,
        bay: &mut B,
        next: &PstRecord,
    ) -> Result<(), Refusal>
        requires mounted { IsMounted self.old }
        requires whole { IsWhole self.old }
        requires ready { IsReady self.old (B.state bay.old) }
        requires next { IsNextOf self.old next.now }
        ensures { WritesStatus self.old next.now result self.new (B.state bay.old)
            (B.state bay.new) }
    {
        self.search = Search::start();
        if self.catalog.ready_disks(alloc, next).is_err() {
            return Err(Refusal::NoMemory);
        }
        match self.register.write(bay, next) {
            Ok(_) => {
                forget_others(bay, &mut self.store, &self.disks, next.dirs);
                self.catalog.apply_disks(next);
                Ok(())
            }
            Err(dead) => Err(self.dismount(dead.slot)),
        }
    }
}
