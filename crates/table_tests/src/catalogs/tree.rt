//! Plans of edits of the tree of names.

ghost use Rattle.std.specs.Prelude.{◌≡◌, IfOk, true};
ghost use Rattle.alias_edits.specs.Edits.{edit_meant};
ghost use Rattle.catalog.specs.TreePlans.{keeps_files};
ghost use Rattle.table_tests.specs.Planned.{IsPlanned};

use crate::catalogs::steps::{Answer, Verb, answer_of};
use crate::helpers::path;
use alias_edits::TreeEdit;
use asm_base::{Change, Path};
use catalog::Catalog;
use std::alloc::Global;

/// An edit by these paths; one of one path heeds the first alone.
fn edit_of(verb: Verb, at: Path, to: Path) -> TreeEdit
    ensures { keeps_files (edit_meant result) ≡ true }
{
    match verb {
        Verb::MakeDir => TreeEdit::MakeDir { path: at },
        Verb::DropDir => TreeEdit::DropDir { path: at },
        Verb::DropAlias => TreeEdit::DropAlias { path: at },
        Verb::RenameDir => TreeEdit::RenameDir { old: at, new: to },
        Verb::AddAlias => TreeEdit::AddAlias {
            alias: at,
            path: to,
        },
        Verb::RenameAlias => TreeEdit::RenameAlias { old: at, new: to },
    }
}

/// The change that an edit is.
#[tactic(auto, using(crate::proofs::Planned::tree_planned))]
pub fn tree(
    alloc: Global,
    group: &Catalog,
    verb: Verb,
    at: &[u8],
    to: &[u8],
) -> Result<Change, Answer>
    ensures { IfOk result (λ change. IsPlanned group.now change.put change.gone) }
{
    let Some(at) = path(alloc, at) else {
        return Err(Answer::Another);
    };
    let Some(to) = path(alloc, to) else {
        drop(at);
        return Err(Answer::Another);
    };
    let edit = edit_of(verb, at, to);
    if !edit.is_allowed() {
        drop(edit);
        return Err(Answer::Another);
    }
    let planned = group.plan_tree(alloc, &edit);
    drop(edit);
    match planned {
        Ok(change) => Ok(change),
        Err(refusal) => Err(answer_of(refusal)),
    }
}
