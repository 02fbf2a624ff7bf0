//! The next move of a group's rebalance.

ghost use Rattle.std.specs.Prelude.{◌≡◌, IsTrue, List, Some, None};
ghost use Rattle.std.specs.Option.{option_map, option_or, unwrap_or};
ghost use Rattle.asm_formats.specs.Items.{Item};
ghost use Rattle.asm_formats.specs.Status.{Entry, entry_of, is_status};
ghost use Rattle.asm_placement.specs.Rebalancing.{done, next};
ghost use Rattle.asm_placement.specs.Space.{share};
ghost use Rattle.catalog_laws.specs.catalog_tables.Faults.{IsCatalog};
ghost use Rattle.catalog_laws.specs.catalog_tables.Items.{AreItemsOf};
ghost use Rattle.catalog_laws.specs.catalog_tables.Tables.{AreTables};
ghost use Rattle.rebalance.specs.Falling.{Falls};
ghost use Rattle.rebalance.specs.Moves.{next_meant};
ghost use Rattle.rebalance.specs.Sums.{sums_at};
ghost use Rattle.rebalance.specs.Due.{first_due};
ghost use Rattle.rebalance.specs.Cursors.{AreClear, HasGoneOn, IsClearBefore, IsCursor};
ghost use Rattle.rebalance.specs.Searching.{IsStatusOf, all_said, group_says, next_in, tables_said};

use crate::cursor::Cursor;
use crate::moves::Next;
use crate::search::Search;
use crate::shares::Shares;
use crate::stages::{Stage, said_by_tables};
use catalog_laws::Catalog;
use partnership::PstRecord;

/// What the rebalance of a group does next, or how it ends: the first of these that applies,
/// extents by file and index and copies by number. A stale copy on an Online disk is written anew,
/// where another can be read; a copy that is absent or on a Forced disk gets a home, and one on a
/// Dropping disk or in the failure group of an earlier copy another one, on the first disk in order
/// that may take it; a directory copy is added; the status tables move; an extent without a usable
/// copy is lost; a copy that must go elsewhere has no space; a copy shifts from a disk above its
/// share to one below; else all is done. Each move lowers the work that is left. It takes no
/// memory, and goes over all extents once for each stage that has nothing to say.
pub fn next_move(catalog: &Catalog, status: &PstRecord) -> Next
    requires { IsStatusOf catalog.now status.now }
    ensures is_next { (items : List Item) → AreItemsOf catalog.now.tables items
        → next_meant result ≡ next catalog.now.shape status.now items }
    ensures falls { Falls catalog.now status.now (next_meant result) }
{
    let mut cursor = Cursor::start();
    next_move_from(catalog, status, &mut cursor)
}

/// The same, but the chunks before the cursor's places aren't asked: nothing is due there. The
/// cursor goes on to the first chunk of each stage that was asked in which something is due, also
/// where no disk has room for it.
#[tactic(auto, using(crate::proofs::Searching::next_is))]
pub fn next_move_from(catalog: &Catalog, status: &PstRecord, cursor: &mut Cursor) -> Next
    requires status { IsStatusOf catalog.now status.now }
    requires cursor { IsCursor catalog.now status.now cursor.old }
    ensures is_next { (items : List Item) → AreItemsOf catalog.now.tables items
        → next_meant result ≡ next catalog.now.shape status.now items }
    ensures falls { Falls catalog.now status.now (next_meant result) }
    ensures cursor { IsCursor catalog.now status.now cursor.new }
    ensures gone_on { HasGoneOn status.now.entries catalog.now status.now
        (sums_at catalog.now.units status.now.entries) cursor.new }
{
    next_in(catalog, status, cursor)
}

/// The share of disk d in the used units of the Online regular disks, in units.
pub fn share(catalog: &Catalog, status: &PstRecord, disk: u8) -> u32
    requires { IsStatusOf catalog.now status.now }
    ensures share { (items : List Item) (e : Entry) → AreItemsOf catalog.now.tables items
        → entry_of status.now.entries disk ≡ Some e
        → result ≡ share catalog.now.shape items status.now.entries e }
{
    let units = catalog.units();
    Shares::of(status, units).share(units, disk)
}

fn next_in(catalog: &Catalog, status: &PstRecord, cursor: &mut Cursor) -> Next
    requires status { IsStatusOf catalog.now status.now }
    requires cursor { IsCursor catalog.now status.now cursor.old }
    ensures next { next_meant result ≡ next_in catalog.now status.now }
    ensures rules { IsCatalog catalog.now }
    ensures cursor { IsCursor catalog.now status.now cursor.new }
    ensures gone_on { HasGoneOn status.now.entries catalog.now status.now
        (sums_at catalog.now.units status.now.entries) cursor.new }
{
    let search = Search::of(catalog, status);
    or_done(all_said(&search, status, cursor))
}

fn or_done(next: Option<Next>) -> Next
    ensures { next_meant result ≡ unwrap_or (option_map next_meant next) done }
{
    match next {
        Some(next) => next,
        None => Next::Done,
    }
}

/// What is to be done next, where something is: what the first stage says, with directory copies
/// and status tables between the work that is due and the rest.
fn all_said(search: &Search<'_>, status: &PstRecord, cursor: &mut Cursor) -> Option<Next>
    requires status { IsTrue (is_status status.now) }
    requires tables { AreTables search.now.catalog.now.tables }
    requires cursor { AreClear search.now.disks.now search.now.catalog.now search.now.shares
        cursor.old }
    ensures said { option_map next_meant result
        ≡ all_said search.now.catalog.now status.now search.now.disks.now search.now.shares }
    ensures cursor { AreClear search.now.disks.now search.now.catalog.now search.now.shares
        cursor.new }
    ensures gone_on { HasGoneOn search.now.disks.now search.now.catalog.now status.now
        search.now.shares cursor.new }
{
    let recopy = or_said(None, search, Stage::Recopy, &mut cursor.recopy);
    let fill = or_said(recopy, search, Stage::Fill, &mut cursor.fill);
    let shift = or_said(fill, search, Stage::Shift, &mut cursor.shift);
    let tables = or_tables(shift, search.catalog, status);
    let lost = or_said(tables, search, Stage::Lost, &mut cursor.lost);
    let no_space = or_said(lost, search, Stage::NoSpace, &mut cursor.no_space);
    or_said(no_space, search, Stage::Balance, &mut cursor.balance)
}

/// What was said, or else the move of a directory copy, or of the status tables.
fn or_tables(said: Option<Next>, catalog: &Catalog, status: &PstRecord) -> Option<Next>
    requires { IsTrue (is_status status.now) }
    ensures { option_map next_meant result
        ≡ option_or (option_map next_meant said) (tables_said catalog.now status.now) }
{
    match said {
        Some(next) => Some(next),
        None => tables_said(catalog, status),
    }
}

fn tables_said(catalog: &Catalog, status: &PstRecord) -> Option<Next>
    requires { IsTrue (is_status status.now) }
    ensures { option_map next_meant result ≡ tables_said catalog.now status.now }
{
    said_by_tables(catalog.shape().kind, status)
}

/// What was said, or else what the first extent of the group says at a stage, by file and index.
/// The chunks before the place aren't asked then, and it goes on to the first chunk in which
/// something is due.
fn or_said(
    said: Option<Next>,
    search: &Search<'_>,
    stage: Stage,
    place: &mut Option<(u32, u32)>,
) -> Option<Next>
    requires tables { AreTables search.now.catalog.now.tables }
    requires clear { IsClearBefore stage search.now.disks.now search.now.catalog.now
        search.now.shares place.old }
    ensures said { option_map next_meant result
        ≡ option_or (option_map next_meant said)
        (group_says stage search.now.disks.now search.now.catalog.now search.now.shares) }
    ensures clear { IsClearBefore stage search.now.disks.now search.now.catalog.now
        search.now.shares place.new }
    ensures place { option_map next_meant said ≡ None
        → place.new ≡ first_due stage search.now.disks.now search.now.catalog.now
        search.now.shares }
{
    match said {
        Some(next) => Some(next),
        None => {
            *place = due_from(search, stage, *place);
            said_from(search, stage, *place)
        }
    }
}

/// The first chunk in which something is due.
fn due_from(search: &Search<'_>, stage: Stage, place: Option<(u32, u32)>) -> Option<(u32, u32)>
    requires tables { AreTables search.now.catalog.now.tables }
    requires clear { IsClearBefore stage search.now.disks.now search.now.catalog.now
        search.now.shares place }
    ensures first { result ≡ first_due stage search.now.disks.now search.now.catalog.now
        search.now.shares }
    ensures clear { IsClearBefore stage search.now.disks.now search.now.catalog.now
        search.now.shares result }
{
    let first = place?;
    search.first_due(stage, first)
}

/// What the first extent from a place on says, before which nothing is due.
fn said_from(search: &Search<'_>, stage: Stage, place: Option<(u32, u32)>) -> Option<Next>
    requires tables { AreTables search.now.catalog.now.tables }
    requires clear { IsClearBefore stage search.now.disks.now search.now.catalog.now
        search.now.shares place }
    ensures { option_map next_meant result
        ≡ group_says stage search.now.disks.now search.now.catalog.now search.now.shares }
{
    let first = place?;
    search.first_said(stage, first)
}
