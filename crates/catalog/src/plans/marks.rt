//! The plan of an extent's stale marks.

ghost use Rattle.std.specs.Prelude.{◌≡◌, ◌/◌, ◌%◌, IfErr, IfOk, slice_set};
ghost use Rattle.refusal_lines.specs.declared.refusal.Refusal.TheVariants.{NoMemory as WithoutMemory};
ghost use Rattle.plan_records.specs.staleness_directory.Marks.{record_of_marks};
ghost use Rattle.catalog.specs.ExtentPlans.{MayMark, marks_changed, marks_or_none, with_marks_changed};
ghost use Rattle.catalog.specs.Plans.{IsPlan};

use crate::catalog::Catalog;
use crate::plans::refusals::no_memory;
use asm_base::{Change, ExtentId, Key, NoMemory, Value};
use plan_records::{Marks, marks_record, one_put};
use refusal_lines::Refusal;
use std::alloc::Global;

impl Catalog {
    /// The change by which the marks of an extent lose the bits of `clear` and then have those of
    /// `set`: a bit of both is set. Bit k is that of copy k. It puts one record. The extent's chunk
    /// is there, and each mark that is set is that of a copy that is there.
    pub fn plan_marks(
        &self,
        alloc: Global,
        x: ExtentId,
        set: u8,
        clear: u8,
    ) -> Result<Change, Refusal>
        requires marks { MayMark self.now.tables x.file x.index set }
        ensures planned { IfOk result (λ change. IsPlan self.now change.put change.gone
            (with_marks_changed self.now.tables x.file x.index set clear)) }
        ensures refused { IfErr result (λ e. e ≡ WithoutMemory) }
    {
        self.change_marks(alloc, x, set, clear).map_err(no_memory)
    }

    #[tactic(auto, using(crate::proofs::MarkPlans::marks_planned))]
    fn change_marks(
        &self,
        alloc: Global,
        x: ExtentId,
        set: u8,
        clear: u8,
    ) -> Result<Change, NoMemory>
        requires marks { MayMark self.now.tables x.file x.index set }
        ensures { IfOk result (λ change. IsPlan self.now change.put change.gone
            (with_marks_changed self.now.tables x.file x.index set clear)) }
    {
        self.keeps_rules();
        let marks = marks_changed(self.marks(x), set, clear);
        let entry = self.marks_entry(alloc, x, marks)?;
        let change = one_put(alloc, entry)?;
        Ok(change)
    }

    /// The record of the marks of an extent's chunk, with these marks of the extent.
    pub(crate) fn marks_entry(
        &self,
        alloc: Global,
        x: ExtentId,
        marks: u8,
    ) -> Result<(Key, Value), NoMemory>
        ensures { IfOk result (λ made. made
            ≡ record_of_marks (
              (x.file, x.index / 256),
              slice_set
                  (marks_or_none self.now.tables.stale (x.file, x.index / 256)) (x.index % 256) marks,
            )) }
    {
        let at = (x.file, x.index / 256);
        let mut changed = self.chunk_marks(at);
        changed.bits[(x.index % 256) as usize] = marks;
        marks_record(alloc, at, &changed)
    }

    /// The marks of a chunk, none of which are set where it isn't there.
    pub(crate) fn chunk_marks(&self, at: (u32, u32)) -> Marks
        ensures { result ≡ marks_or_none self.now.tables.stale at }
    {
        match self.parts.stale.get(at) {
            None => Marks { bits: [0; 256] },
            Some(marks) => *marks,
        }
    }
}

/// The marks without those that are cleared, and then with those that are set.
fn marks_changed(old: u8, set: u8, clear: u8) -> u8
    ensures { result ≡ marks_changed old set clear }
{
    old & !clear | set
}
