//! Which chunk breaks the rule of the extents.

ghost use Rattle.std.specs.Prelude.{◌≡◌, IfNone, IfOk, IfSome, None};
ghost use Rattle.extent_map.specs.Faults.{HasGap, IsWithoutGap, gap_from};

use crate::rule::{opened, stands_at};
use crate::table::ExtentMap;
use asm_base::{NoMemory, Records};
use std::alloc::Global;

impl ExtentMap {
    /// The first chunk that breaks the rule that extents are numbered without a gap. None where
    /// there is no such chunk, or a record of its kind isn't of the formats.
    #[tactic(auto, using(crate::proofs::FoundGaps::gap_is, crate::proofs::FoundGaps::no_gap_is, crate::proofs::FoundGaps::no_table_is))]
    pub fn gap_in(alloc: Global, records: &Records) -> Result<Option<(u32, u32)>, NoMemory>
        // The chunk that is named breaks the rule in a table that has these records.
        ensures gap { IfOk result (λ gap. IfSome gap (HasGap records.now)) }
        // Where none is named, no table that has these records breaks it.
        ensures none { IfOk result (λ gap. IfNone gap (IsWithoutGap records.now)) }
    {
        let Some(table) = ExtentMap::read(alloc, records)? else {
            return Ok(None);
        };
        Ok(table.gap())
    }

    /// The first chunk that doesn't stand behind the ones before it.
    fn gap(&self) -> Option<(u32, u32)>
        ensures { result ≡ gap_from None self.now }
    {
        let mut past = None;
        for (at, chunk) in self.iter() {
            if !stands_at(past, *at, chunk) {
                return Some(*at);
            }
            past = opened(*at, chunk);
        }
        None
    }
}
