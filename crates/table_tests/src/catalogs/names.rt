//! The plan of a new file's name, and what is told of it before.

ghost use Rattle.std.specs.Prelude.{◌≡◌, IfOk, None};
ghost use Rattle.std.specs.Bool.{OnTrue};
ghost use Rattle.asm_group.specs.declared.Stripe.TheVariants.{Fine};
ghost use Rattle.catalog.specs.NamePlans.{IsFileBeingMade, is_within_file};
ghost use Rattle.catalog_tables.specs.Rules.{first_wrong};
ghost use Rattle.table_tests.specs.Planned.{IsPlanned};

use crate::catalogs::steps::{Answer, answer_of};
use crate::helpers::path;
use asm_base::{Change, PendingKind, Stripe};
use catalog::{Catalog, FileBy, NewFile};
use std::alloc::Global;

/// Whether a file has no chunk of extents.
fn has_no_chunk(group: &Catalog, file: u32) -> bool
    ensures { OnTrue result (first_wrong (is_within_file file 2) group.now.tables.extents ≡ None) }
{
    for (at, _) in group.chunks() {
        if at.0 == file {
            return false;
        }
    }
    true
}

/// Whether a file is being made that has neither a head nor a chunk.
#[tactic(auto, using(crate::proofs::NewFiles::created))]
fn is_begun(group: &Catalog) -> bool
    ensures { OnTrue result (IsFileBeingMade group.now 0 2 Fine) }
{
    let Some(op) = group.pending() else {
        return false;
    };
    matches!(op.kind, PendingKind::Create)
        && group.file(op.file).is_none()
        && has_no_chunk(group, op.file)
}

/// The change by which the file that is being made has its name at a path.
#[tactic(auto, using(crate::proofs::NewFiles::planned))]
pub fn name(alloc: Global, group: &Catalog, at: &[u8]) -> Result<Change, Answer>
    ensures { IfOk result (λ change. IsPlanned group.now change.put change.gone) }
{
    let Some(path) = path(alloc, at) else {
        return Err(Answer::Another);
    };
    if !is_begun(group) {
        drop(path);
        return Err(Answer::Another);
    }
    let new = NewFile {
        path,
        size: 0,
        by: FileBy::System,
    };
    let planned = group.plan_name(alloc, &new, 2, Stripe::Fine);
    drop(new);
    match planned {
        Ok(change) => Ok(change),
        Err(refusal) => Err(answer_of(refusal)),
    }
}

/// Whether this comes of asking whether the next file may have a path and a size.
pub fn is_checked(
    alloc: Global,
    group: &Catalog,
    at: &[u8],
    size: u64,
    wanted: Result<u64, Answer>,
) -> bool {
    let Some(path) = path(alloc, at) else {
        return false;
    };
    let new = NewFile {
        path,
        size,
        by: FileBy::System,
    };
    let checked = group.check_name(alloc, &new);
    drop(new);
    match checked {
        Ok(nodes) => wanted == Ok(nodes),
        Err(refusal) => wanted == Err(answer_of(refusal)),
    }
}
