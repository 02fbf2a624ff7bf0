// Extents that were filled are put behind those of a file: whether they may, and their commit.
ghost use Rattle.std.specs.Bool.{OnTrue};
ghost use Rattle.std.specs.Prelude.{◌≡◌, ◌||◌, ◌<◌, ◌+◌, ◌/◌, ◌^◌, IfOk, None, Some, is_some, length, nat_lt, not, true};
ghost use Rattle.std.specs.List.{list_all};
ghost use Rattle.asm_formats.specs.Sets.{has_bit};
ghost use Rattle.asm_placement.specs.Placed.{placed_extents};
ghost use Rattle.group_pieces.specs.catalog.ExtentPlans.{MayAppend};
ghost use Rattle.group_pieces.specs.catalog.NamePlans.{is_within_file};
ghost use Rattle.catalog_tables.specs.Placing.{after_homes};
ghost use Rattle.catalog_tables.specs.Rules.{are_marks_of, are_on_disks, are_within, first_wrong, has_copies};
ghost use Rattle.catalog_tables.specs.extent_map.Extents.{chunk_or_blank, count_in, extent_at, follows, has_extent};
ghost use Rattle.group_pieces.specs.group_engine.Mounts.{IsMounted, Takes};
ghost use Rattle.group_pieces.specs.group_engine.Pending.{GoesOn};
ghost use Rattle.file_extents.specs.Appending.{AreMarks, HasAllExtents, IsOwner, MayStand, are_all_copies};

use crate::placing::{copy_units, place_row};
use crate::rows::{CHUNK, MOST_EXTENTS};
use asm_base::{ExtentId, Home, Homes, NoMemory};
use bay::Bay;
use catalog_tables::{are_on_disks, are_within};
use group_pieces::{Catalog, Mounted};
use refusal_lines::Refusal;
use std::alloc::Global;

// ---- one extent

/// Whether a home is there where the number is that of a copy.
fn is_copied(home: Option<Home>, number: u8, copies: u8) -> bool
    ensures { result ≡ (not (nat_lt number copies) || is_some home) }
{
    number >= copies || home.is_some()
}

/// Whether each of the copies has a home.
fn has_copies(homes: &Homes, copies: u8) -> bool
    ensures { result ≡ has_copies copies (Some homes.now) }
{
    let homes = *homes;
    is_copied(homes.first, 0, copies)
        && is_copied(homes.second, 1, copies)
        && is_copied(homes.third, 2, copies)
}

/// Whether each extent of a row has its copies and no others, on different disks.
fn are_all_copies(row: &[Homes], copies: u8) -> bool
    ensures { result ≡ are_all_copies copies row.now }
{
    row.iter().all(|homes| {
        has_copies(homes, copies) && are_within(copies, homes) && are_on_disks(homes)
    })
}

/// Whether the mark of a copy isn't set, or the copy is there.
#[tactic(auto, unfolding(asm_formats::specs::Sets::has_bit))]
fn is_mark_of(home: Option<Home>, number: u8, marks: u8) -> bool
    requires { number < 3 }
    ensures { result ≡ (not (has_bit marks number) || is_some home) }
{
    marks >> number & 1 != 1 || home.is_some()
}

/// Whether each mark is that of a copy that is there.
fn are_marks_of(homes: &Homes, marks: u8) -> bool
    ensures { result ≡ are_marks_of (marks, homes.now) }
{
    let homes = *homes;
    is_mark_of(homes.first, 0, marks)
        && is_mark_of(homes.second, 1, marks)
        && is_mark_of(homes.third, 2, marks)
}

/// Whether each extent of a row has its marks, each that of a copy that is there.
#[tactic(auto, using(crate::proofs::Extents::no_marks, crate::proofs::Extents::marks_more))]
fn are_marks(row: &[Homes], marks: &[u8]) -> bool
    ensures { OnTrue result (AreMarks row.now marks.now) }
{
    match row {
        [] => marks.is_empty(),
        [homes, rest @ ..] => match marks {
            [] => false,
            [first, more @ ..] => {
                *first < 8 && are_marks_of(homes, *first) && are_marks(rest, more)
            }
        },
    }
}

// ---- the extents of a file

/// Whether a file has an extent of this number.
fn has(catalog: &Catalog, file: u32, index: u64) -> bool
    requires { index < 2 ^ 32 }
    ensures { result ≡ has_extent catalog.now.tables.extents file index }
{
    let x = ExtentId {
        file,
        index: index as u32,
    };
    catalog.homes(x).is_some()
}

/// Whether a file has the extents below a number, each with so many copies.
#[tactic(auto, using(crate::proofs::Extents::all_more))]
pub fn has_all(catalog: &Catalog, file: u32, copies: u8, count: u64) -> bool
    ensures { OnTrue result (HasAllExtents catalog.now.tables file copies count) }
{
    for index in 0..count {
        if !has_one(catalog, file, copies, index) {
            return false;
        }
    }
    true
}

fn has_one(catalog: &Catalog, file: u32, copies: u8, index: u64) -> bool
    ensures { OnTrue result (has_copies copies (extent_at catalog.now.tables.extents file index)
        ≡ true) }
{
    if index > u32::MAX as u64 {
        return false;
    }
    let x = ExtentId {
        file,
        index: index as u32,
    };
    match catalog.homes(x) {
        Some(homes) => has_copies(&homes, copies),
        None => false,
    }
}

/// Whether no extent of a file has a home at a number that isn't that of a copy.
#[tactic(auto, using(crate::proofs::Within::at_start, crate::proofs::Within::one_more, crate::proofs::Within::stopped, crate::proofs::Within::ended))]
pub fn is_within_file(catalog: &Catalog, file: u32, copies: u8) -> bool
    ensures { OnTrue result (first_wrong (is_within_file file copies) catalog.now.tables.extents
        ≡ None) }
{
    // Its clause shows that the chunks are in order.
    let _shape = catalog.shape();
    for (at, chunk) in catalog.chunks_from((file, 0)) {
        if at.0 != file {
            return true;
        }
        if !are_all_within(chunk.as_slice(), copies) {
            return false;
        }
    }
    true
}

fn are_all_within(extents: &[Homes], copies: u8) -> bool
    ensures { result ≡ list_all (are_within copies) extents.now }
{
    extents.iter().all(|homes| are_within(copies, homes))
}

/// Whether the file has so many extents of a chunk, from the chunk's first on, and not the next
/// one.
#[tactic(auto, using(crate::proofs::Extents::so_many_where, crate::proofs::Appends::extents_more))]
fn has_so_many(catalog: &Catalog, file: u32, chunk: u32, count: u64) -> bool
    requires chunk { chunk < 2 ^ 23 }
    requires few { count < 256 }
    ensures { OnTrue result (count_in (chunk_or_blank catalog.now.tables.extents (file, chunk))
        ≡ count) }
{
    let first = chunk as u64 * CHUNK;
    for place in 0..count {
        if !has(catalog, file, first + place) {
            return false;
        }
    }
    !has(catalog, file, first + count)
}

/// Whether the chunk is the file's first, or the file has the extent before it.
fn follows(catalog: &Catalog, file: u32, chunk: u32) -> bool
    requires { chunk < 2 ^ 23 }
    ensures { result ≡ follows catalog.now.tables.extents file chunk }
{
    chunk == 0 || has(catalog, file, chunk as u64 * CHUNK - 1)
}

/// Whether the file has a head with so many copies, or has none and is that of the pending
/// operation.
#[tactic(auto, using(crate::proofs::Appends::head_owns, crate::proofs::Appends::pending_owns))]
fn is_owner(catalog: &Catalog, file: u32, copies: u8) -> bool
    ensures { OnTrue result (IsOwner catalog.now.tables file copies) }
{
    match catalog.file(file) {
        Some(head) => head.copies == copies,
        None => match catalog.pending() {
            Some(op) => op.file == file,
            None => false,
        },
    }
}

/// Extents of a file that were filled: those from `first` on, each with so many copies.
#[derive(Clone, Copy)]
pub(crate) struct Part {
    pub(crate) file: u32,
    pub(crate) copies: u8,
    pub(crate) first: u64,
}

/// Whether the extents may be put behind those of their file, but for the units of their homes.
fn may_stand(catalog: &Catalog, part: Part, row: &[Homes], marks: &[u8]) -> bool
    ensures { OnTrue result (MayStand catalog.now.tables part row.now marks.now) }
{
    if part.copies == 0 || part.first >= MOST_EXTENTS {
        return false;
    }
    let place = part.first % CHUNK;
    let chunk = (part.first / CHUNK) as u32;
    row.len() as u64 <= CHUNK - place
        && has_so_many(catalog, part.file, chunk, place)
        && follows(catalog, part.file, chunk)
        && is_owner(catalog, part.file, part.copies)
        && are_all_copies(row, part.copies)
        && are_marks(row, marks)
}

/// Whether the homes of the extents are free user units.
fn are_free(catalog: &Catalog, alloc: Global, part: Part, row: &[Homes]) -> Result<bool, NoMemory>
    requires few { part.first + length row.now < 2 ^ 63 }
    ensures { IfOk result (λ free. free ≡ is_some
        (after_homes catalog.now.units
        (placed_extents catalog.now.shape.step part.file part.first row.now))) }
{
    let mut units = copy_units(alloc, catalog.units())?;
    let step = catalog.shape().step;
    Ok(place_row(&mut units, step, part.file, part.first, row))
}

/// Whether the extents may be put behind those of their file.
#[tactic(auto, using(crate::proofs::Extents::appends))]
fn may_append(catalog: &Catalog, alloc: Global, part: Part, row: &[Homes], marks: &[u8]) -> bool
    ensures append { OnTrue result (MayAppend catalog.now part.file (part.first / 256) row.now
        marks.now) }
    ensures number { OnTrue result (part.first < 2147483648) }
{
    if !may_stand(catalog, part, row, marks) {
        return false;
    }
    match are_free(catalog, alloc, part, row) {
        Ok(free) => free,
        Err(NoMemory) => false,
    }
}

/// Commits extents behind those of their file, with their marks. They lie in one chunk.
#[tactic(auto, using(crate::proofs::Appends::nothing_goes))]
pub(crate) fn append<B: Bay>(
    m: &mut Mounted,
    alloc: Global,
    bay: &mut B,
    part: Part,
    row: &[Homes],
    marks: &[u8],
) -> Result<(), Refusal>
    requires mounted { IsMounted m.old }
    requires takes { Takes m.old (B.state bay.old) }
    ensures { GoesOn m.old result m.new (B.state bay.old) (B.state bay.new) }
{
    if !may_append(m.catalog(), alloc, part, row, marks) {
        return Err(Refusal::NoMemory);
    }
    let chunk = (part.first / CHUNK) as u32;
    match m.catalog().plan_chunk(alloc, part.file, chunk, row, marks) {
        Ok(change) => m.commit_plan(alloc, bay, &change),
        Err(_) => Err(Refusal::NoMemory),
    }
}
