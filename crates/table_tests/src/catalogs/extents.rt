//! Plans of stale marks, and of the extents of a chunk.

ghost use Rattle.std.specs.Prelude.{◌≡◌, ◌<◌, ◌≤◌, ℕ, true, ◌||◌, ◌∷◌, [], not, is_some, IfOk, IfSome, IsTrue, None, Some};
ghost use Rattle.std.specs.Bool.{OnTrue};
ghost use Rattle.std.specs.List.{slice_get};
ghost use Rattle.std.specs.Option.{option_copied};
ghost use Rattle.asm_formats.specs.Sets.{has_bit};
ghost use Rattle.catalog.specs.ExtentPlans.{MayAppend, MayCut, MayMark, is_copy_of};
ghost use Rattle.catalog_tables.specs.Placing.{home_taken};
ghost use Rattle.asm_placement.specs.Naming.{is_pending};
ghost use Rattle.catalog_tables.specs.Rules.{are_marks_of};
ghost use Rattle.extent_map.specs.Extents.{extent_at};
ghost use Rattle.file_directory.specs.Files.{head_at, is_file_number};
ghost use Rattle.table_tests.specs.Planned.{IsPlanned};

use crate::catalogs::operations::is_owner;
use crate::catalogs::steps::{Answer, answer_of};
use allocator::Units;
use asm_base::{Change, ExtentId, Home, Homes};
use catalog::Catalog;
use std::alloc::Global;

/// Whether the mark of a copy is unset, or the copy has a home.
#[tactic(auto, unfolding(asm_formats::specs::Sets::has_bit))]
fn is_mark_of(marks: u8, copy: u8, home: Option<Home>) -> bool
    requires { copy < 3 }
    ensures { result ≡ (not (has_bit marks copy) || is_some home) }
{
    marks >> copy & 1 != 1 || home.is_some()
}

/// Whether an extent has a copy for each of its marks.
fn are_marks_of(marks: u8, homes: Homes) -> bool
    ensures { result ≡ are_marks_of (marks, homes) }
{
    is_mark_of(marks, 0, homes.first)
        && is_mark_of(marks, 1, homes.second)
        && is_mark_of(marks, 2, homes.third)
}

/// Whether these marks of an extent may be set.
#[tactic(auto, using(crate::proofs::ExtentConditions::may_mark))]
fn may_mark(group: &Catalog, x: ExtentId, set: u8) -> bool
    ensures { OnTrue result (MayMark group.now.tables x.file x.index set) }
{
    match group.homes(x) {
        None => false,
        Some(homes) => set < 8 && are_marks_of(set, homes),
    }
}

/// The change by which marks of an extent are cleared, and others are set.
#[tactic(auto, using(crate::proofs::Planned::planned))]
pub fn marks(
    alloc: Global,
    group: &Catalog,
    x: ExtentId,
    set: u8,
    clear: u8,
) -> Result<Change, Answer>
    ensures { IfOk result (λ change. IsPlanned group.now change.put change.gone) }
{
    if !may_mark(group, x, set) {
        return Err(Answer::Another);
    }
    match group.plan_marks(alloc, x, set, clear) {
        Ok(change) => Ok(change),
        Err(refusal) => Err(answer_of(refusal)),
    }
}

/// Which units of a disk are used.
fn units_on(group: &Catalog, disk: u8) -> Option<&Units>
    ensures { option_copied result ≡ slice_get group.now.units disk }
{
    group.units().get(disk as usize)
}

/// The lowest free unit of a disk.
#[tactic(auto, using(crate::proofs::ExtentConditions::run_taken))]
fn free_home(group: &Catalog, disk: u8) -> Option<Home>
    ensures { IfSome result (λ home. IsTrue (is_some (home_taken group.now.units home 1))) }
{
    let units = units_on(group, disk)?;
    let unit = units.lowest(1)?;
    Some(Home { disk, unit })
}

/// Whether a file has no head, or at least two copies.
fn has_second(group: &Catalog, file: u32) -> bool
    ensures { result ≡ is_copy_of (head_at group.now.tables.files file) 1 }
{
    match group.file(file) {
        None => true,
        Some(head) => 1 < head.copies,
    }
}

fn extent(file: u32, index: u32) -> ExtentId
    ensures { result ≡ record { file = file; index = index } }
{
    ExtentId { file, index }
}

/// Extents of one unit with which a file begins.
fn step(group: &Catalog) -> u32
    ensures { result ≡ group.now.shape.step }
{
    group.shape().step
}

/// Whether the first chunk of a file may have one extent more, of one unit, in two copies.
fn has_room(group: &Catalog, file: u32) -> bool
    ensures units { OnTrue result (256 ≤ group.now.shape.step) }
    ensures room { OnTrue result (None ≡ extent_at group.now.tables.extents file 255) }
    ensures copies { OnTrue result (IsTrue (is_copy_of (head_at group.now.tables.files file) 1)) }
    ensures owned { OnTrue result (IsTrue (is_file_number group.now.tables.files file
        || is_pending file group.now.tables.operations.pending)) }
{
    256 <= step(group)
        && group.homes(extent(file, 255)).is_none()
        && has_second(group, file)
        && is_owner(group, file, &group.pending())
}

/// The same where the copies have these free units: with any marks of copies that it has.
fn may_append(group: &Catalog, file: u32, first: Home, second: Home) -> bool
    requires first { IsTrue (is_some (home_taken group.now.units first 1)) }
    requires second { IsTrue (is_some (home_taken group.now.units second 1)) }
    ensures { OnTrue result ((m : ℕ) → m < 8
        → are_marks_of (m, Some first ∷ Some second ∷ None ∷ []) ≡ true
        → MayAppend group.now file 0 ((Some first ∷ Some second ∷ None ∷ []) ∷ []) (m ∷ [])) }
{
    if first.disk == second.disk || !has_room(group, file) {
        return false;
    }
    true
}

/// The change by which the first chunk of a file has an extent more, with copies in these free
/// units and these marks.
#[tactic(auto, using(crate::proofs::Planned::planned))]
fn append_at(
    alloc: Global,
    group: &Catalog,
    file: u32,
    first: Home,
    second: Home,
    marks: u8,
) -> Result<Change, Answer>
    requires first { IsTrue (is_some (home_taken group.now.units first 1)) }
    requires second { IsTrue (is_some (home_taken group.now.units second 1)) }
    ensures { IfOk result (λ change. IsPlanned group.now change.put change.gone) }
{
    let homes = Homes {
        first: Some(first),
        second: Some(second),
        third: None,
    };
    if 8 <= marks || !are_marks_of(marks, homes) || !may_append(group, file, first, second) {
        return Err(Answer::Another);
    }
    match group.plan_chunk(alloc, file, 0, &[homes], &[marks]) {
        Ok(change) => Ok(change),
        Err(refusal) => Err(answer_of(refusal)),
    }
}

/// The same in the lowest free units of the first two disks.
pub fn append(alloc: Global, group: &Catalog, file: u32, marks: u8) -> Result<Change, Answer>
    ensures { IfOk result (λ change. IsPlanned group.now change.put change.gone) }
{
    let Some(first) = free_home(group, 0) else {
        return Err(Answer::Another);
    };
    let Some(second) = free_home(group, 1) else {
        return Err(Answer::Another);
    };
    append_at(alloc, group, file, first, second, marks)
}

/// Whether the extents of a file's first chunk may go from a place on: the chunk is there, and the
/// file has no head and no further chunk.
#[tactic(auto, using(crate::proofs::ExtentConditions::may_cut))]
fn may_cut(group: &Catalog, file: u32, kept: u32) -> bool
    ensures { OnTrue result (MayCut group.now.shape group.now.tables file 0 kept) }
{
    kept <= 256
        && group.file(file).is_none()
        && group.homes(extent(file, 0)).is_some()
        && group.homes(extent(file, 256)).is_none()
}

/// The change by which the extents of a file's first chunk go from a place on.
#[tactic(auto, using(crate::proofs::Planned::planned))]
pub fn cut(alloc: Global, group: &Catalog, file: u32, kept: u32) -> Result<Change, Answer>
    ensures { IfOk result (λ change. IsPlanned group.now change.put change.gone) }
{
    if !may_cut(group, file, kept) {
        return Err(Answer::Another);
    }
    match group.plan_cut(alloc, file, 0, kept) {
        Ok(change) => Ok(change),
        Err(refusal) => Err(answer_of(refusal)),
    }
}
