//! Where the search for the next move goes on.

ghost use Rattle.std.specs.Prelude.{◌≡◌, ◌/◌};
ghost use Rattle.asm_formats.specs.Status.{Status};
ghost use Rattle.catalog_laws.specs.catalog_tables.Tables.{AreTables, Catalogued};
ghost use Rattle.rebalance.specs.Cursors.{IsCursor, IsFollowed, places_after, is_passed, passes_at, place_after, search_start};
ghost use Rattle.rebalance.specs.Due.{is_due_in};
ghost use Rattle.rebalance.specs.Sums.{sums_at};

use crate::search::Search;
use crate::stages::Stage;
use asm_base::ExtentId;
use catalog_laws::Catalog;
use partnership::PstRecord;
use std::marker::Model;

/// For each stage of the search for the next move the chunk of extents at which it begins, by file
/// and number; none where it is at the end. Before it nothing is due, so those chunks needn't be
/// asked again while they and the status record's entries stay as they are.
#[derive(Clone, Copy)]
pub struct Cursor {
    pub(crate) recopy: Option<(u32, u32)>,
    pub(crate) fill: Option<(u32, u32)>,
    pub(crate) shift: Option<(u32, u32)>,
    pub(crate) lost: Option<(u32, u32)>,
    pub(crate) no_space: Option<(u32, u32)>,
    pub(crate) balance: Option<(u32, u32)>,
}

impl Model for Cursor {
    ghost use Rattle.rebalance.specs.Cursors.{SearchPlaces};

    ghost Value = { SearchPlaces };

    ghost view = { λ k. record { recopy = k.recopy; fill = k.fill; shift = k.shift; lost = k.lost; no_space = k.no_space; balance = k.balance } };

    ghost inverse = { λ k. record { recopy = k.recopy; fill = k.fill; shift = k.shift; lost = k.lost; no_space = k.no_space; balance = k.balance } };
}

/// The first chunk of all.
const FIRST: Option<(u32, u32)> = Some((0, 0));

impl Cursor {
    /// The cursor with which all chunks are asked: that of every group.
    #[tactic(auto, using(crate::proofs::Following::start_is))]
    pub fn start() -> Cursor
        ensures { (c : Catalogued) (r : Status) → IsCursor c r result }
    {
        Cursor::first()
    }

    fn first() -> Cursor
        ensures { result ≡ search_start }
    {
        Cursor {
            recopy: FIRST,
            fill: FIRST,
            shift: FIRST,
            lost: FIRST,
            no_space: FIRST,
            balance: FIRST,
        }
    }

    /// Brings the cursor up to a change of one extent's homes or marks, as a move of a copy is: a
    /// place behind the extent's chunk goes back to it where something is due there at the place's
    /// stage, and stays where nothing is. So the chunks behind aren't asked again. The search for a
    /// balancing shift, which goes by the used units of all disks, goes back to the start. It takes
    /// no memory, and asks the one chunk at most once for each stage.
    pub fn follow(&mut self, catalog: &Catalog, status: &PstRecord, extent: ExtentId)
        requires tables { AreTables catalog.now.tables }
        // It is a cursor after each change by which all chunks but the extent's stay as they were.
        ensures follows { IsFollowed (extent.file, extent.index / 256) self.old catalog.now
            status.now self.new }
        // No place goes back further than it must.
        ensures places { self.new ≡ places_after status.now.entries catalog.now
            (sums_at catalog.now.units status.now.entries) self.old
            (extent.file, extent.index / 256) }
    {
        *self = self.followed(catalog, status, (extent.file, extent.index / 256));
    }

    fn followed(&self, catalog: &Catalog, status: &PstRecord, at: (u32, u32)) -> Cursor
        requires { AreTables catalog.now.tables }
        ensures { result ≡ places_after status.now.entries catalog.now
            (sums_at catalog.now.units status.now.entries) self.now at }
    {
        self.followed_by(&Search::of(catalog, status), at)
    }

    fn followed_by(&self, search: &Search<'_>, at: (u32, u32)) -> Cursor
        requires { AreTables search.now.catalog.now.tables }
        ensures { result ≡ places_after search.now.disks.now search.now.catalog.now
            search.now.shares self.now at }
    {
        Cursor {
            recopy: place_after(search, Stage::Recopy, at, self.recopy),
            fill: place_after(search, Stage::Fill, at, self.fill),
            shift: place_after(search, Stage::Shift, at, self.shift),
            lost: place_after(search, Stage::Lost, at, self.lost),
            no_space: place_after(search, Stage::NoSpace, at, self.no_space),
            balance: FIRST,
        }
    }
}

/// The place of a stage once a chunk has changed.
fn place_after(
    search: &Search<'_>,
    stage: Stage,
    at: (u32, u32),
    place: Option<(u32, u32)>,
) -> Option<(u32, u32)>
    requires { AreTables search.now.catalog.now.tables }
    ensures { result ≡ place_after (is_due_in stage search.now.disks.now search.now.catalog.now
        search.now.shares) search.now.catalog.now.tables.extents at place }
{
    if is_passed(place, at) && is_due_there(search, stage, at) {
        Some(at)
    } else {
        place
    }
}

/// Whether a chunk comes before a place.
fn is_passed(place: Option<(u32, u32)>, at: (u32, u32)) -> bool
    ensures { result ≡ is_passed place at }
{
    match place {
        Some(first) => at.cmp(&first).is_lt(),
        None => true,
    }
}

/// Whether something is due in a chunk, where it is there.
fn is_due_there(search: &Search<'_>, stage: Stage, at: (u32, u32)) -> bool
    requires { AreTables search.now.catalog.now.tables }
    ensures { result ≡ passes_at (is_due_in stage search.now.disks.now search.now.catalog.now
        search.now.shares) search.now.catalog.now.tables.extents at }
{
    match search.catalog.chunks_from(at).next() {
        Some((first, chunk)) => {
            at.cmp(first).is_eq() && search.is_due_in(stage, *first, chunk.as_slice())
        }
        None => false,
    }
}
