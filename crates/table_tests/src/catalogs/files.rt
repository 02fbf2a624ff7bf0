//! Plans of a file's size, and of its removal.

ghost use Rattle.std.specs.Prelude.{◌≡◌, ◌<◌, ◌↔◌, ℕ, IfOk, IfSome, IsTrue, true};
ghost use Rattle.std.specs.Bool.{OnTrue};
ghost use Rattle.asm_group.specs.Shape.{is_shape};
ghost use Rattle.asm_placement.specs.Layout.{has_extent_by_size};
ghost use Rattle.catalog.specs.FilePlans.{MayGrow, is_on_file};
ghost use Rattle.catalog_tables.specs.Rules.{has_copies};
ghost use Rattle.extent_map.specs.Extents.{extent_at};
ghost use Rattle.table_tests.specs.Planned.{IsPlanned};

use crate::catalogs::steps::{Answer, answer_of};
use asm_base::{Change, ExtentId, Homes, Shape, Stripe};
use catalog::Catalog;
use std::alloc::Global;
use striping::{Layout, extents_for};

/// Whether no operation is pending, or one on a file that has a head.
fn is_on_file(group: &Catalog) -> bool
    ensures { result ≡ is_on_file group.now.tables.files group.now.tables.operations.pending }
{
    match group.pending() {
        None => true,
        Some(op) => group.file(op.file).is_some(),
    }
}

/// Whether the extent is there, with a home at each copy number below this one.
fn has_copies(copies: u8, homes: Option<Homes>) -> bool
    ensures { result ≡ has_copies copies homes }
{
    match homes {
        None => false,
        Some(homes) => {
            (copies == 0 || homes.first.is_some())
                && (copies <= 1 || homes.second.is_some())
                && (copies <= 2 || homes.third.is_some())
        }
    }
}

/// Whether an extent of a file is there with all copies.
fn is_whole(group: &Catalog, file: u32, copies: u8, index: u32) -> bool
    ensures { result ≡ has_copies copies (extent_at group.now.tables.extents file index) }
{
    has_copies(copies, group.homes(ExtentId { file, index }))
}

/// Whether so many extents of a file are there, from the first on, with all copies.
fn has_extents(group: &Catalog, file: u32, copies: u8, count: u32) -> bool
    ensures { OnTrue result ((i : ℕ) → i < count
        → has_copies copies (extent_at group.now.tables.extents file i) ≡ true) }
{
    for index in 0..count {
        if !is_whole(group, file, copies, index) {
            return false;
        }
    }
    true
}

/// How many extents a file of so many bytes has, where that is a number of 32 bits.
fn extents_by(shape: &Shape, stripe: Stripe, size: u64) -> Option<u32>
    requires { IsTrue (is_shape shape.now) }
    ensures { IfSome result (λ n. (i : ℕ) → (i < n)
        ↔ IsTrue (has_extent_by_size stripe shape.now.au shape.now.step size i)) }
{
    let layout = Layout {
        au: shape.au as u64,
        step: shape.step,
        stripe,
    };
    let count = extents_for(layout, size);
    u32::try_from(count).ok()
}

/// The same in the group.
fn extents_of(group: &Catalog, stripe: Stripe, size: u64) -> Option<u32>
    ensures { IfSome result (λ n. (i : ℕ) → (i < n)
        ↔ IsTrue (has_extent_by_size stripe group.now.shape.au group.now.shape.step size i)) }
{
    let shape = group.shape();
    if !shape.is_allowed() {
        return None;
    }
    extents_by(&shape, stripe, size)
}

/// Whether all extents are there that file 256 has by a size.
#[tactic(auto, using(crate::proofs::FilesMade::may_grow))]
fn may_have(group: &Catalog, size: u64) -> bool
    ensures { OnTrue result (MayGrow group.now.shape group.now.tables 256 size) }
{
    let Some(head) = group.file(256) else {
        return false;
    };
    match extents_of(group, head.stripe, size) {
        None => false,
        Some(count) => has_extents(group, 256, head.copies, count),
    }
}

/// The change by which file 256 has a size, for which its extents are there.
#[tactic(auto, using(crate::proofs::FilesMade::sized))]
pub fn size(alloc: Global, group: &Catalog, bytes: u64) -> Result<Change, Answer>
    ensures { IfOk result (λ change. IsPlanned group.now change.put change.gone) }
{
    if group.file(256).is_none() || !is_on_file(group) || !may_have(group, bytes) {
        return Err(Answer::Another);
    }
    match group.plan_size(alloc, 256, bytes) {
        Ok(change) => Ok(change),
        Err(refusal) => Err(answer_of(refusal)),
    }
}

/// The change by which file 256 is gone.
#[tactic(auto, using(crate::proofs::FilesMade::removed))]
pub fn remove(alloc: Global, group: &Catalog) -> Result<Change, Answer>
    ensures { IfOk result (λ change. IsPlanned group.now change.put change.gone) }
{
    if group.file(256).is_none() || !is_on_file(group) {
        return Err(Answer::Another);
    }
    match group.plan_unname(alloc, 256) {
        Ok(change) => Ok(change),
        Err(refusal) => Err(answer_of(refusal)),
    }
}
