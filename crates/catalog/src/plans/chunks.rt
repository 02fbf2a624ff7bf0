//! The plan of a chunk that gets extents.

ghost use Rattle.std.specs.Prelude.{◌≡◌, ◌≤◌, ◌<◌, ◌+◌, ◌^◌, ◌∷◌, [], length, true, IfErr, IfOk, is_some};
ghost use Rattle.std.specs.List.{list_all};
ghost use Rattle.plan_records.specs.extent_map.Extents.{chunk_at, chunk_or_blank, count_in, record_of_chunk};
ghost use Rattle.plan_records.specs.staleness_directory.Marks.{record_of_marks as marks_entry};
ghost use Rattle.catalog.specs.ExtentPlans.{HasChunkRoom, IsChunkRefusal, MayAppend, are_small, homes_appended, is_small, marks_appended, marks_behind, with_appended};
ghost use Rattle.catalog.specs.Plans.{IsPlan};

use crate::catalog::Catalog;
use crate::plans::moves::unit_fits;
use crate::plans::refusals::no_memory;
use asm_base::{Change, Home, Homes, NoMemory};
use plan_records::{Marks, chunk_record, marks_record, two_put};
use refusal_lines::Refusal;
use std::alloc::Global;

impl Catalog {
    /// The change by which a chunk has these extents behind those that it has, each with its byte
    /// of marks: bit k is set where copy k lacks the bytes. It puts the records of the chunk and of
    /// its marks. A chunk that isn't there yet takes two blocks: where fewer are free it is refused
    /// as DirectoryFull. The chunk has room for the extents, those before them are there, each has
    /// a home, the file may have their copies, the homes of one lie on different disks, all are
    /// runs of free user units that don't overlap, and each mark is that of a copy that its extent
    /// has.
    #[tactic(auto, using(crate::proofs::AppendPlans::lacks_two, crate::proofs::AppendPlans::there_has_room, crate::proofs::AppendPlans::free_has_room))]
    pub fn plan_chunk(
        &self,
        alloc: Global,
        file: u32,
        chunk: u32,
        homes: &[Homes],
        marks: &[u8],
    ) -> Result<Change, Refusal>
        requires append { MayAppend self.now file chunk homes.now marks.now }
        ensures planned { IfOk result (λ change. IsPlan self.now change.put change.gone
            (with_appended self.now.tables file chunk homes.now marks.now)) }
        ensures refused { IfErr result (IsChunkRefusal self.now file chunk) }
    {
        if self.has_chunk(file, chunk) {
            return self
                .append(alloc, file, chunk, homes, marks)
                .map_err(no_memory);
        }
        let free = self.free_blocks();
        if free < 2 {
            return Err(Refusal::DirectoryFull { need: 2, free });
        }
        self.append(alloc, file, chunk, homes, marks)
            .map_err(no_memory)
    }

    fn has_chunk(&self, file: u32, chunk: u32) -> bool
        ensures { result ≡ is_some (chunk_at self.now.tables.extents (file, chunk)) }
    {
        self.parts.extents.chunk(file, chunk).is_some()
    }

    /// The change by which a chunk has more extents.
    fn append(
        &self,
        alloc: Global,
        file: u32,
        chunk: u32,
        homes: &[Homes],
        marks: &[u8],
    ) -> Result<Change, NoMemory>
        requires append { MayAppend self.now file chunk homes.now marks.now }
        requires room { HasChunkRoom self.now file chunk }
        ensures { IfOk result (λ change. IsPlan self.now change.put change.gone
            (with_appended self.now.tables file chunk homes.now marks.now)) }
    {
        self.keeps_rules();
        units_fit(homes);
        let change = self.appended(alloc, file, chunk, homes, marks)?;
        Ok(change)
    }

    /// The records of a chunk with more extents, and of its marks.
    fn appended(
        &self,
        alloc: Global,
        file: u32,
        chunk: u32,
        homes: &[Homes],
        marks: &[u8],
    ) -> Result<Change, NoMemory>
        requires number { chunk + 1 < 2 ^ 32 }
        requires room { count_in (chunk_or_blank self.now.tables.extents (file, chunk))
            + length homes.now ≤ 256 }
        requires marked { length marks.now ≡ length homes.now }
        ensures put { IfOk result (λ change. change.put
            ≡ record_of_chunk ((file, chunk), homes_appended self.now.tables file chunk homes.now)
            ∷ marks_entry ((file, chunk), marks_appended self.now.tables file chunk marks.now)
            ∷ []) }
        ensures gone { IfOk result (λ change. change.gone ≡ []) }
    {
        let at = (file, chunk);
        let mut extents = self.chunk_copy(alloc, at)?;
        let mut bits = self.chunk_marks(at);
        put_behind(&mut bits, extents.count(), marks);
        extents.append(homes);
        let entry = chunk_record(alloc, at, &extents)?;
        let marks = marks_record(alloc, at, &bits)?;
        two_put(alloc, entry, marks)
    }
}

/// Puts marks behind the first ones of a chunk.
fn put_behind(marks: &mut Marks, first: usize, more: &[u8])
    requires { first + length more.now ≤ 256 }
    ensures { marks.new ≡ marks_behind first marks.old more.now }
{
    let bits = &mut marks.bits[..];
    bits[first..first + more.len()].copy_from_slice(more);
}

/// Shows that the units of homes are numbers of their type, and does nothing.
fn units_fit(homes: &[Homes])
    ensures { list_all are_small homes.now ≡ true }
{
    for extent in homes {
        extent_fits(extent);
    }
}

fn extent_fits(homes: &Homes)
    ensures { are_small homes.now ≡ true }
{
    let homes = *homes;
    home_fits(homes.first);
    home_fits(homes.second);
    home_fits(homes.third);
}

fn home_fits(home: Option<Home>)
    ensures { is_small home ≡ true }
{
    if let Some(home) = home {
        unit_fits(home.unit);
    }
}
