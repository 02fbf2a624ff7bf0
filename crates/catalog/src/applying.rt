//! Changes of a catalog: the memory first, and then the change.

ghost use Rattle.std.specs.Prelude.{◌≡◌, List as Items, None, OnOk, Some};
ghost use Rattle.asm_formats.specs.Status.{Entry as StatusEntry};
ghost use Rattle.catalog.specs.Applying.{IsChangeReady, Leaves};
ghost use Rattle.plan_records.specs.catalog_tables.Placing.{HasUnits};
ghost use Rattle.plan_records.specs.catalog_tables.Tables.{Tables};

use crate::catalog::Catalog;
use crate::spare::{Spare, brought_up};
use asm_base::{Change, NoMemory};
use plan_records::{change_copied, follow};
use std::alloc::Global;
use std::mem::replace;

impl Catalog {
    /// Takes all memory for a change, after which `apply` takes none and can't fail. Where there is
    /// no memory the catalog is as before. A change for which memory was taken before and that
    /// wasn't applied is given up.
    ///
    /// Work and memory go by this change and the last one. They go by the tables at the first
    /// change of a catalog, after one that was given up, and after want of memory.
    pub fn ready(&mut self, alloc: Global, change: &Change) -> Result<(), NoMemory>
        // The tables after the change keep the rules, and their homes find their units free.
        requires { (u : Tables) × Leaves self.old change.now.put change.now.gone u }
        ensures ready { OnOk result (IsChangeReady self.new change.now.put change.now.gone) }
        ensures tables { self.new.tables ≡ self.old.tables }
        ensures shape { self.new.shape ≡ self.old.shape }
        ensures units { self.new.units ≡ self.old.units }
        ensures next_units { self.new.next_units ≡ self.old.next_units }
    {
        let kept = change_copied(alloc, change)?;
        let spare = replace(&mut self.spare, Spare::Absent);
        let equal = brought_up(alloc, spare, &self.parts)?;
        let parts = equal.changed(alloc, change)?;
        self.spare = Spare::Ready {
            parts,
            change: kept,
        };
        Ok(())
    }

    /// Applies the change that the memory was taken for. The units are changed in place, for the
    /// chunks of the change alone. Units that were made ready for a status record are given up.
    pub fn apply(&mut self, change: &Change)
        requires { IsChangeReady self.old change.now.put change.now.gone }
        // The next tables are the tables now.
        ensures tables { Some self.new.tables ≡ self.old.next }
        // For entries of which the units were those of the homes, they still are.
        ensures units { (entries : Items StatusEntry)
            → HasUnits self.old.shape entries self.old.tables self.old.units
            → HasUnits self.new.shape entries self.new.tables self.new.units }
        ensures shape { self.new.shape ≡ self.old.shape }
        ensures next { self.new.next ≡ None }
        ensures next_units { self.new.next_units ≡ None }
    {
        self.next_units = None;
        let Some((next, kept)) = replace(&mut self.spare, Spare::Absent).ready() else {
            return;
        };
        follow(&mut self.units, &self.shape, &self.parts, &next, change);
        let parts = replace(&mut self.parts, next);
        self.spare = Spare::Behind {
            parts,
            change: kept,
        };
    }
}
