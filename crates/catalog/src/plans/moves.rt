//! The plan of a copy's new home.

ghost use Rattle.std.specs.Prelude.{◌≡◌, ◌<◌, ◌/◌, ◌%◌, ◌^◌, [], IfErr, IfOk, Some, get_or, slice_set};
ghost use Rattle.asm_formats.specs.Sets.{has_bit};
ghost use Rattle.refusal_lines.specs.declared.refusal.Refusal.TheVariants.{NoMemory as WithoutMemory};
ghost use Rattle.asm_placement.specs.Moves.{without_bit};
ghost use Rattle.plan_records.specs.extent_map.Extents.{chunk_or_blank, record_of_chunk};
ghost use Rattle.catalog.specs.ExtentPlans.{MayMove, with_move};
ghost use Rattle.catalog.specs.Plans.{IsPlan};

use crate::catalog::Catalog;
use crate::moving::with_home;
use crate::plans::refusals::no_memory;
use asm_base::{Change, ExtentId, Home, Key, NoMemory, Value};
use plan_records::{Chunk, chunk_record, one_put, two_put};
use refusal_lines::Refusal;
use std::alloc::Global;

impl Catalog {
    /// The change by which a copy of an extent has this home and no mark, as a copy that was
    /// written anew has. It puts the record of the chunk, and that of its marks where the copy has
    /// one. The extent is there, its other copies lie on other disks, and the home is that of the
    /// copy or a run of free user units as long as the extent.
    pub fn plan_move(
        &self,
        alloc: Global,
        x: ExtentId,
        copy: u8,
        home: Home,
    ) -> Result<Change, Refusal>
        requires move_ { MayMove self.now x.file x.index copy home }
        ensures planned { IfOk result (λ change. IsPlan self.now change.put change.gone
            (with_move self.now.tables x.file x.index copy home)) }
        ensures refused { IfErr result (λ e. e ≡ WithoutMemory) }
    {
        self.move_copy(alloc, x, copy, home).map_err(no_memory)
    }

    #[tactic(auto, using(crate::proofs::MovePlans::move_planned, crate::proofs::MovePlans::unmarked_planned))]
    fn move_copy(
        &self,
        alloc: Global,
        x: ExtentId,
        copy: u8,
        home: Home,
    ) -> Result<Change, NoMemory>
        requires move_ { MayMove self.now x.file x.index copy home }
        ensures { IfOk result (λ change. IsPlan self.now change.put change.gone
            (with_move self.now.tables x.file x.index copy home)) }
    {
        self.keeps_rules();
        unit_fits(home.unit);
        let marks = self.marks(x);
        let chunk = self.moved_entry(alloc, x, copy, home)?;
        if !has_mark(marks, copy) {
            let change = one_put(alloc, chunk)?;
            return Ok(change);
        }
        let entry = self.marks_entry(alloc, x, without_mark(marks, copy))?;
        let change = two_put(alloc, chunk, entry)?;
        Ok(change)
    }

    /// The record of an extent's chunk in which the extent has this home of a copy.
    fn moved_entry(
        &self,
        alloc: Global,
        x: ExtentId,
        copy: u8,
        home: Home,
    ) -> Result<(Key, Value), NoMemory>
        requires { copy < 3 }
        ensures { IfOk result (λ made. made
            ≡ record_of_chunk (
              (x.file, x.index / 256),
              slice_set
                  (chunk_or_blank self.now.tables.extents (x.file, x.index / 256)) (x.index % 256)
                  (slice_set (get_or (chunk_or_blank self.now.tables.extents (x.file, x.index / 256))
                  (x.index % 256) []) copy (Some home)),
            )) }
    {
        let at = (x.file, x.index / 256);
        let place = (x.index % 256) as u8;
        let mut chunk = self.chunk_copy(alloc, at)?;
        let homes = with_home(*chunk.get(place), copy, home);
        chunk.set(place, homes);
        chunk_record(alloc, at, &chunk)
    }

    /// A copy of a chunk, with no extents where it isn't there.
    pub(crate) fn chunk_copy(&self, alloc: Global, at: (u32, u32)) -> Result<Chunk, NoMemory>
        ensures { IfOk result (λ chunk. chunk ≡ chunk_or_blank self.now.tables.extents at) }
    {
        match self.parts.extents.copy_chunk(alloc, at.0, at.1)? {
            Some(chunk) => Ok(chunk),
            None => Chunk::blank(alloc),
        }
    }
}

/// Whether the mark of a copy is set.
#[tactic(auto, unfolding(asm_formats::specs::Sets::has_bit))]
fn has_mark(marks: u8, copy: u8) -> bool
    requires { copy < 3 }
    ensures { result ≡ has_bit marks copy }
{
    marks >> copy & 1 == 1
}

/// The marks without that of a copy.
#[tactic(auto, unfolding(asm_placement::specs::Moves::without_bit))]
fn without_mark(marks: u8, copy: u8) -> u8
    requires { copy < 3 }
    ensures { result ≡ without_bit marks copy }
{
    if has_mark(marks, copy) {
        marks ^ (1 << copy)
    } else {
        marks
    }
}

/// Shows that a unit is a number of its type, and does nothing.
pub(crate) fn unit_fits(unit: u32)
    ensures { unit < 2 ^ 32 }
{
    let _unit = unit;
}
