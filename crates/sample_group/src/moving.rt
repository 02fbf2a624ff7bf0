//! Moves of copies, made by their plans.

ghost use Rattle.std.specs.Prelude.{◌≡◌, ◌<◌, IfOk, IsTrue, List as Items, OnErr, OnOk, Some};
ghost use Rattle.std.specs.Bool.{OnTrue};
ghost use Rattle.asm_formats.specs.Status.{Entry as StatusEntry};
ghost use Rattle.catalog_tables.specs.Changing.{IsAfter};
ghost use Rattle.catalog_laws.specs.catalog.ExtentPlans.{with_move};
ghost use Rattle.catalog_tables.specs.Placing.{HasUnits};
ghost use Rattle.catalog_laws.specs.catalog.Plans.{IsPlan};
ghost use Rattle.catalog_tables.specs.Rules.{AreOnRegular, is_on_regular};
ghost use Rattle.catalog_tables.specs.Tables.{Tables};

use asm_base::{Change, ExtentId, Home, NoMemory};
use catalog_laws::Catalog;
use catalog_tables::a_change_leaves_one_set_of_tables;
use partnership::entry_of;
use status_table::PstEntry;
use std::alloc::Global;

/// Moves a copy of an extent to a disk's lowest run of free units, by the plan of the move. False,
/// with nothing changed, where the extent isn't there, has no such copy, or has another copy on the
/// disk, or where that run doesn't begin at the unit.
pub fn make_move(
    alloc: Global,
    catalog: &mut Catalog,
    x: ExtentId,
    copy: u8,
    to: Home,
) -> Result<bool, NoMemory>
    ensures moved { IfOk result (λ moved. OnTrue moved
        (catalog.new.tables ≡ with_move catalog.old.tables x.file x.index copy to)) }
    ensures shape { catalog.new.shape ≡ catalog.old.shape }
    ensures units { (entries : Items StatusEntry)
        → HasUnits catalog.old.shape entries catalog.old.tables catalog.old.units
        → HasUnits catalog.new.shape entries catalog.new.tables catalog.new.units }
    // No home lies on a quorum disk then, where none did and the new one doesn't.
    ensures regular { (entries : Items StatusEntry) → AreOnRegular entries catalog.old.tables
        → IsTrue (is_on_regular entries (Some to)) → AreOnRegular entries catalog.new.tables }
{
    if !catalog.may_move(x, copy, to) {
        return Ok(false);
    }
    let Ok(change) = catalog.plan_move(alloc, x, copy, to) else {
        return Err(NoMemory);
    };
    make(alloc, catalog, &change)?;
    a_change_leaves_one_set_of_tables();
    Ok(true)
}

/// Whether the disk of a home, where it has an entry, is in no quorum failure group.
pub fn is_regular(disks: &[PstEntry], home: Home) -> bool
    ensures { result ≡ is_on_regular disks.now (Some home) }
{
    match entry_of(disks, home.disk) {
        None => true,
        Some(disk) => !disk.quorum,
    }
}

/// Takes the memory for a planned change, and applies it.
fn make(alloc: Global, catalog: &mut Catalog, change: &Change) -> Result<(), NoMemory>
    requires { (u : Tables) × IsPlan catalog.old change.now.put change.now.gone u }
    ensures after { OnOk result (IsAfter catalog.old.tables change.now.put change.now.gone
        catalog.new.tables) }
    ensures stays { OnErr result (catalog.new.tables ≡ catalog.old.tables) }
    ensures shape { catalog.new.shape ≡ catalog.old.shape }
    ensures units { (entries : Items StatusEntry)
        → HasUnits catalog.old.shape entries catalog.old.tables catalog.old.units
        → HasUnits catalog.new.shape entries catalog.new.tables catalog.new.units }
{
    catalog.ready(alloc, change)?;
    catalog.apply(change);
    Ok(())
}
