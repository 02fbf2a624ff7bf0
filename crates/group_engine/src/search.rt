// What a mounted group knows of the search for the next move of its rebalance.
ghost use Rattle.std.specs.Prelude.{◌/◌, IfNone, IfSome, IsTrue};
ghost use Rattle.asm_formats.specs.Status.{Status, is_status};
ghost use Rattle.rebalance.specs.catalog_tables.Placing.{HasUnits};
ghost use Rattle.rebalance.specs.catalog_tables.Rules.{AreOnRegular};
ghost use Rattle.rebalance.specs.catalog_tables.Tables.{AreTables, Catalogued};
ghost use Rattle.group_engine.specs.Searches.{IsNextMove, IsSearchOf, WasSearchOf};

use crate::quorum::{are_all_regular, is_chunk_regular};
use asm_base::ExtentId;
use rebalance::{Catalog, Cursor, Next, next_move_from};
use status_register::PstRecord;
use std::marker::Model;

/// Where the search goes on, and whether no home is known to lie on a disk of a quorum failure
/// group, as the search asks.
#[derive(Clone, Copy)]
pub(crate) struct Search {
    cursor: Cursor,
    is_regular: bool,
}

impl Model for Search {
    ghost use Rattle.group_engine.specs.Searches.{SearchState};

    ghost Value = { SearchState };

    ghost view = { λ s. record { cursor = s.cursor; is_regular = s.is_regular } };

    ghost inverse = { λ s. record { cursor = s.cursor; is_regular = s.is_regular } };
}

impl Search {
    /// Nothing is known: it is so of every group.
    pub(crate) fn start() -> Search
        ensures { (c : Catalogued) (r : Status) → IsSearchOf c r result }
    {
        Search {
            cursor: Cursor::start(),
            is_regular: false,
        }
    }

    /// The next move of the rebalance. None where a home lies on a quorum disk. All homes are asked
    /// for that once alone, and all chunks for the move from the cursor's places on.
    pub(crate) fn next(&mut self, catalog: &Catalog, status: &PstRecord) -> Option<Next>
        requires status { IsTrue (is_status status.now) }
        requires units { HasUnits catalog.now.shape status.now.entries catalog.now.tables
            catalog.now.units }
        requires search { IsSearchOf catalog.now status.now self.old }
        ensures search { IsSearchOf catalog.now status.now self.new }
        ensures next { IfSome result (IsNextMove catalog.now status.now) }
        ensures none { IfNone result (AreOnRegular status.now.entries catalog.now.tables → ⊥) }
    {
        if !self.is_regular && !are_all_regular(catalog, status.entries()) {
            return None;
        }
        self.is_regular = true;
        Some(next_move_from(catalog, status, &mut self.cursor))
    }

    /// The chunk of an extent has changed: the cursor follows, and the homes of that chunk alone
    /// are asked.
    pub(crate) fn follow(&mut self, catalog: &Catalog, status: &PstRecord, extent: ExtentId)
        requires tables { AreTables catalog.now.tables }
        requires search { WasSearchOf (extent.file, extent.index / 256) catalog.now status.now
            self.old }
        ensures { IsSearchOf catalog.now status.now self.new }
    {
        self.cursor.follow(catalog, status, extent);
        let at = (extent.file, extent.index / 256);
        self.is_regular = self.is_regular && is_chunk_regular(catalog, status.entries(), at);
    }
}
