//! A change of a group's records.
ghost use Rattle.std.specs.Prelude.{◌≡◌, ◌≤◌, ◌+◌, ◌∷◌, [], ℕ, length, map, IfErr, OnErr, OnOk};
ghost use Rattle.std.specs.List.Sorted.{IsStrictlySortedBy};
ghost use Rattle.bay.specs.Moments.{LeavesOnly};
ghost use Rattle.asm_group.specs.Group.{Group};
ghost use Rattle.asm_images.specs.Kept.{Kept};
ghost use Rattle.asm_base.specs.Records.{key_cmp};
ghost use Rattle.directory_store.specs.page_map.Listing.{key_of_place};
ghost use Rattle.rebalance.specs.catalog.Applying.{Leaves};
ghost use Rattle.rebalance.specs.catalog_tables.Changing.{IsAfter};
ghost use Rattle.rebalance.specs.catalog.Plans.{IsPlan};
ghost use Rattle.rebalance.specs.catalog_tables.Tables.{Tables};
ghost use Rattle.directory_store.specs.Contents.{ArePutItems};
ghost use Rattle.group_engine.specs.Commits.{CommitCause, CommitsChange, CommitsPlan, IsDismountedBy, IsIdleBut, KeepsRecord, LeadsTo, StandsIn, turns_at_most};
ghost use Rattle.group_engine.specs.Mounts.{IsMounted, IsReady, IsWhole, Mounts, Takes};
ghost use Rattle.group_engine.specs.Own.{KeepsGroup};
ghost use Rattle.group_engine.specs.Pending.{GoesOn};

use crate::access::Access;
use crate::changing::commit_change;
use crate::dropping::drop_copies;
use crate::mounted::{Mounted, disk_in};
use crate::search::Search;
use asm_base::Change;
use bay::Bay;
use directory_store::StoreError;
use rebalance::blocks_are_counted;
use refusal_lines::{DiskRef, Refusal};
use std::alloc::Global;

impl Mounted {
    /// Commits a change on every directory copy that Status names. A copy that fails is taken out
    /// of Status before the commit is complete. Refusals: Dismounted, where the group is, or where
    /// in this call all copies or a majority of a set of Status failed; DirectoryFull; NoMemory.
    /// NoMemory leaves the value as before.
    pub fn commit<B: Bay>(
        &mut self,
        alloc: Global,
        bay: &mut B,
        change: &Change,
    ) -> Result<(), Refusal>
        requires whole { IsMounted self.old → IsWhole self.old }
        requires ready { IsMounted self.old → IsReady self.old (B.state bay.old) }
        requires few { length change.now.put + length change.now.gone ≤ 64 }
        requires items { ArePutItems change.now.put }
        requires leaves { IsMounted self.old → (u : Tables)
            × Leaves self.old.catalog change.now.put change.now.gone u }
        // The group's parts agree, it takes the next call, and the disks of others stay.
        ensures keeps { KeepsGroup self.old self.new (B.state bay.old) (B.state bay.new) }
        ensures flight { self.new.flight ≡ self.old.flight }
        // Whatever it answers, the record that holds has the entries and the sets of the one
        // before, and no directory copy more.
        ensures status { KeepsRecord self.old.register.value self.new.register.value }
        // Once it is done, the group takes calls still, and its tables are those after the change.
        ensures mounted { OnOk result (IsMounted self.new) }
        ensures applied { OnOk result (IsAfter self.old.catalog.tables change.now.put
            change.now.gone self.new.catalog.tables) }
        ensures cause { IfErr result (CommitCause self.old change.now.put self.new (B.state bay.old)
            (B.state bay.new)) }
        // Each image of each moment is held for the group before or the one after.
        ensures moments { IsMounted self.old → (n : ℕ) (g h : Group) (kept : Kept) → LeadsTo n self.old change.now.put change.now.gone (B.state bay.old) g h kept
            → LeavesOnly (B.state bay.old) (B.state bay.new) (StandsIn n self.old.register.id (g ∷ h ∷ []) kept) }
        // Once it is done, the group after is mounted.
        ensures done { IsMounted self.old → OnOk result ((n : ℕ) (g h : Group) (kept : Kept) → LeadsTo n self.old change.now.put change.now.gone (B.state bay.old) g h kept
            → (later : Kept) × (later.slots ≡ kept.slots) × Mounts n self.new (B.state bay.new) h later) }
        // Where it is refused and the group takes calls, nothing has changed.
        ensures refused { IsMounted self.new → OnErr result
            ((n : ℕ) (g : Group) (kept : Kept) → Mounts n self.old (B.state bay.old) g kept
            → Mounts n self.new (B.state bay.new) g kept) }
        ensures idle { IsMounted self.old → IfErr result
            (IsIdleBut self.old self.new (B.state bay.old) (B.state bay.new)) }
        // Each turn that it takes costs a copy.
        ensures turns { turns_at_most self.new ≤ turns_at_most self.old }
    {
        match self.access {
            Access::Mounted => self.commit_mounted(alloc, bay, change),
            Access::Dismounted { disk } => Err(Refusal::Dismounted {
                disk: DiskRef::Number(disk),
            }),
            Access::Closed => Err(Refusal::NoMemory),
        }
    }

    /// Commits a change that a plan gave. Refusals: Dismounted, as a commit; NoMemory. The plan has
    /// found a free block for each new record, so that DirectoryFull doesn't come.
    pub fn commit_plan<B: Bay>(
        &mut self,
        alloc: Global,
        bay: &mut B,
        change: &Change,
    ) -> Result<(), Refusal>
        requires takes { Takes self.old (B.state bay.old) }
        requires plan { (u : Tables) × IsPlan self.old.catalog change.now.put change.now.gone u }
        // The group's parts agree, it takes the next call, and the disks of others stay.
        ensures goes { GoesOn self.old result self.new (B.state bay.old) (B.state bay.new) }
        ensures commits { CommitsPlan self.old change.now.put change.now.gone result self.new
            (B.state bay.old) (B.state bay.new) }
        // Whatever it answers, the record that holds has the entries and the sets of the one
        // before, and no directory copy more.
        ensures status { KeepsRecord self.old.register.value self.new.register.value }
    {
        blocks_are_counted();
        self.shows_places();
        self.commit(alloc, bay, change)
    }

    /// Shows that no key of the store has two blocks, and does nothing.
    fn shows_places(&self)
        ensures { IsStrictlySortedBy key_cmp (map key_of_place self.now.store.table.places) }
    {
        let _ = self.store.room();
    }

    /// Commits a change on a group that takes calls.
    fn commit_mounted<B: Bay>(
        &mut self,
        alloc: Global,
        bay: &mut B,
        change: &Change,
    ) -> Result<(), Refusal>
        requires mounted { IsMounted self.old }
        requires whole { IsWhole self.old }
        requires ready { IsReady self.old (B.state bay.old) }
        requires few { length change.now.put + length change.now.gone ≤ 64 }
        requires items { ArePutItems change.now.put }
        requires leaves { (u : Tables) × Leaves self.old.catalog change.now.put change.now.gone u }
        ensures { CommitsChange self.old change.now.put change.now.gone result self.new
            (B.state bay.old) (B.state bay.new) }
    {
        self.search = Search::start();
        match commit_change(alloc, bay, &mut self.catalog, &mut self.store, change) {
            Ok(failed) => {
                if failed.bits() == 0 {
                    return Ok(());
                }
                match drop_copies(bay, &mut self.register, failed) {
                    Ok(_) => Ok(()),
                    Err(dead) => Err(self.dismount(dead.slot)),
                }
            }
            Err(StoreError::Full { need, free }) => Err(Refusal::DirectoryFull { need, free }),
            Err(StoreError::Gone { slot }) => Err(self.dismount(slot)),
            Err(StoreError::NoMemory) => Err(Refusal::NoMemory),
        }
    }

    /// The group is dismounted by the disk whose image is in a slot.
    pub(crate) fn dismount(&mut self, slot: u32) -> Refusal
        ensures { IsDismountedBy self.old slot result self.new }
    {
        let disk = disk_in(&self.disks, slot);
        self.access = Access::Dismounted { disk };
        Refusal::Dismounted {
            disk: DiskRef::Number(disk),
        }
    }
}
