//! The units of the disks by a next status record: the memory first, and then the change.

ghost use Rattle.std.specs.Prelude.{◌≡◌, ◌↔◌, IsTrue, List as Items, None, Ok, OnOk, true};
ghost use Rattle.std.specs.List.{list_all};
ghost use Rattle.asm_formats.specs.Status.{Entry, is_entry};
ghost use Rattle.plan_records.specs.allocator.UnitMaps.{UnitMap};
ghost use Rattle.catalog.specs.Applying.{AreDisksReady, next_maps};
ghost use Rattle.plan_records.specs.catalog_tables.Placing.{HasUnits, HaveSameUnits, OtherMapsStay};

use crate::catalog::Catalog;
use asm_base::NoMemory;
use plan_records::{PstEntry, PstRecord, are_fit, changed_maps, have_units, put_in};
use std::alloc::Global;

impl Catalog {
    /// Takes all memory for the units of the disks by a next status record, after which
    /// `apply_disks` takes none and can't fail. Where there is no memory the catalog is as before.
    /// The entries cover the used units: the homes that the tables name are user units of theirs.
    ///
    /// Work and memory go by the units of the disks whose number of units the entries change. Where
    /// they give each disk as many as it had, no memory is taken and the unit maps stay.
    pub fn ready_disks(&mut self, alloc: Global, next: &PstRecord) -> Result<(), NoMemory>
        requires entries { IsTrue (list_all is_entry next.now.entries) }
        requires units { (ms : Items UnitMap) × HasUnits self.old.shape next.now.entries
            self.old.tables ms }
        ensures ready { OnOk result (AreDisksReady self.new next.now.entries) }
        // Where the disks have as many units as before, nothing is made anew, and it can't fail.
        ensures same { (entries : Items Entry) → HasUnits self.old.shape entries self.old.tables
            self.old.units → HaveSameUnits entries next.now.entries
            → (result ≡ Ok tt) × (self.new.next_units ≡ None) }
        ensures tables { self.new.tables ≡ self.old.tables }
        ensures shape { self.new.shape ≡ self.old.shape }
        ensures units { self.new.units ≡ self.old.units }
        ensures next { self.new.next ≡ self.old.next }
    {
        self.next_units = None;
        let entries = next.entries();
        if have_units(&self.units, entries) {
            return Ok(());
        }
        let changed = changed_maps(alloc, &self.units, entries)?;
        self.next_units = Some(changed);
        Ok(())
    }

    /// Takes the units of the disks by the next status record, the memory for which was taken: the
    /// maps that were made are put in their places, and those of the other disks stay.
    pub fn apply_disks(&mut self, next: &PstRecord)
        requires { AreDisksReady self.old next.now.entries }
        ensures units { HasUnits self.new.shape next.now.entries self.new.tables self.new.units }
        ensures made { self.new.units ≡ next_maps self.old.units self.old.next_units }
        ensures others { OtherMapsStay next.now.entries self.old.units self.new.units }
        ensures kept { self.old.next_units ≡ None → self.new.units ≡ self.old.units }
        ensures tables { self.new.tables ≡ self.old.tables }
        ensures shape { self.new.shape ≡ self.old.shape }
        ensures next { self.new.next ≡ self.old.next }
        ensures next_units { self.new.next_units ≡ None }
    {
        let _next = next;
        if let Some(changed) = self.next_units.take() {
            put_in(&mut self.units, changed);
        }
    }

    /// Whether the units of these entries cover the homes that the tables name: all are user units
    /// of theirs. They do exactly where no unit is used that a disk lacks by its entry. Work goes
    /// by the units that the entries take away.
    pub fn covers(&self, entries: &[PstEntry]) -> bool
        ensures covers { IsTrue result ↔ ((ms : Items UnitMap)
            × HasUnits self.now.shape entries.now self.now.tables ms) }
        ensures same { (before : Items Entry) → HasUnits self.now.shape before self.now.tables
            self.now.units → HaveSameUnits before entries.now → result ≡ true }
    {
        are_fit(&self.units, entries)
    }
}
