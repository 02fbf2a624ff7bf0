//! The plan of extents that go.

ghost use Rattle.std.specs.Prelude.{◌≡◌, ◌≤◌, ◌<◌, ◌+◌, ◌^◌, IfErr, IfOk};
ghost use Rattle.refusal_lines.specs.declared.refusal.Refusal.TheVariants.{NoMemory as WithoutMemory};
ghost use Rattle.plan_records.specs.extent_map.Extents.{chunk_or_blank, cut_to, record_of_chunk};
ghost use Rattle.plan_records.specs.staleness_directory.Marks.{marks_to, record_of_marks as marks_entry};
ghost use Rattle.catalog.specs.ExtentPlans.{MayCut, marks_or_none, with_cut};
ghost use Rattle.catalog.specs.Plans.{IsPlan};

use crate::catalog::Catalog;
use crate::plans::refusals::no_memory;
use asm_base::{Change, Key, NoMemory, Value, record_kind};
use plan_records::{chunk_record, marks_record, two_gone, two_put};
use refusal_lines::Refusal;
use std::alloc::Global;

impl Catalog {
    /// The change by which the extents of a chunk from place `kept` on go, and their marks with
    /// them. With `kept` 0 the chunk and the record of its marks go. It has two keys. The chunk is
    /// there, its file has no extent behind it, and none of those that go is one that the file has
    /// by the size that its head says, if it has one.
    pub fn plan_cut(
        &self,
        alloc: Global,
        file: u32,
        chunk: u32,
        kept: u32,
    ) -> Result<Change, Refusal>
        requires cut { MayCut self.now.shape self.now.tables file chunk kept }
        ensures planned { IfOk result (λ change. IsPlan self.now change.put change.gone
            (with_cut self.now.tables file chunk kept)) }
        ensures refused { IfErr result (λ e. e ≡ WithoutMemory) }
    {
        self.cut(alloc, file, chunk, kept).map_err(no_memory)
    }

    #[tactic(auto, using(crate::proofs::ReleasePlans::whole_planned, crate::proofs::CutPlans::cut_planned, crate::proofs::ReleasePlans::numbered))]
    fn cut(&self, alloc: Global, file: u32, chunk: u32, kept: u32) -> Result<Change, NoMemory>
        requires cut { MayCut self.now.shape self.now.tables file chunk kept }
        ensures { IfOk result (λ change. IsPlan self.now change.put change.gone
            (with_cut self.now.tables file chunk kept)) }
    {
        self.keeps_rules();
        if kept == 0 {
            let homes = Key {
                kind: record_kind::FILES,
                a: file,
                b: chunk + 1,
            };
            let marks = Key {
                kind: record_kind::MARKS,
                a: file,
                b: chunk,
            };
            let change = two_gone(alloc, homes, marks)?;
            return Ok(change);
        }
        let entry = self.cut_entry(alloc, file, chunk, kept)?;
        let marks = self.cut_marks_entry(alloc, file, chunk, kept)?;
        let change = two_put(alloc, entry, marks)?;
        Ok(change)
    }

    /// The record of a chunk with its first extents alone.
    fn cut_entry(
        &self,
        alloc: Global,
        file: u32,
        chunk: u32,
        kept: u32,
    ) -> Result<(Key, Value), NoMemory>
        requires number { chunk + 1 < 2 ^ 32 }
        requires few { kept ≤ 256 }
        ensures { IfOk result (λ made. made
            ≡ record_of_chunk (
              (file, chunk),
              cut_to kept
                  (chunk_or_blank self.now.tables.extents (file, chunk)),
            )) }
    {
        let at = (file, chunk);
        let mut extents = self.chunk_copy(alloc, at)?;
        extents.cut(kept as usize);
        chunk_record(alloc, at, &extents)
    }

    /// The record of their marks.
    fn cut_marks_entry(
        &self,
        alloc: Global,
        file: u32,
        chunk: u32,
        kept: u32,
    ) -> Result<(Key, Value), NoMemory>
        requires { kept ≤ 256 }
        ensures { IfOk result (λ made. made
            ≡ marks_entry (
              (file, chunk),
              marks_to kept
                  (marks_or_none self.now.tables.stale (file, chunk)),
            )) }
    {
        let at = (file, chunk);
        let mut marks = self.chunk_marks(at);
        marks.cut(kept as usize);
        marks_record(alloc, at, &marks)
    }
}
