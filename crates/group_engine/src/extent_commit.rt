//! A change of one extent is committed, and the search for the next move goes on.
ghost use Rattle.std.specs.Prelude.{◌≡◌, ◌/◌};
ghost use Rattle.rebalance.specs.catalog_tables.Tables.{AreTables};
ghost use Rattle.group_engine.specs.Commits.{CommitsPlan, KeepsRecord};
ghost use Rattle.group_engine.specs.Mounts.{Takes};
ghost use Rattle.group_engine.specs.Pending.{GoesOn};
ghost use Rattle.group_engine.specs.Searches.{IsPlanIn, WasSearchOf};

use crate::mounted::Mounted;
use crate::search::Search;
use asm_base::{Change, ExtentId};
use bay::Bay;
use refusal_lines::Refusal;
use std::alloc::Global;

impl Mounted {
    /// Commits a change of one extent that a plan gave, as `commit_plan` does. What is known of the
    /// search for the next move is kept but for the extent's chunk, which is asked at once: the
    /// next search begins where the last one came to.
    pub fn commit_extent<B: Bay>(
        &mut self,
        alloc: Global,
        bay: &mut B,
        change: &Change,
        x: ExtentId,
    ) -> Result<(), Refusal>
        requires takes { Takes self.old (B.state bay.old) }
        requires plan { IsPlanIn (x.file, x.index / 256) self.old.catalog change.now.put
            change.now.gone }
        // The group's parts agree, it takes the next call, and the disks of others stay.
        ensures goes { GoesOn self.old result self.new (B.state bay.old) (B.state bay.new) }
        ensures commits { CommitsPlan self.old change.now.put change.now.gone result self.new
            (B.state bay.old) (B.state bay.new) }
        // Whatever it answers, the record that holds has the entries and the sets of the one
        // before, and no directory copy more.
        ensures status { KeepsRecord self.old.register.value self.new.register.value }
    {
        let search = self.search;
        match self.commit_plan(alloc, bay, change) {
            Ok(()) => {
                self.search_on(search, x);
                Ok(())
            }
            Err(refusal) => Err(refusal),
        }
    }

    /// The search goes on as it did before the chunk of an extent changed.
    fn search_on(&mut self, mut search: Search, x: ExtentId)
        requires tables { AreTables self.old.catalog.tables }
        requires search { WasSearchOf (x.file, x.index / 256) self.old.catalog
            self.old.register.value search }
        ensures { self.new ≡ self.old }
    {
        search.follow(&self.catalog, self.register.value(), x);
        self.search = search;
    }
}
