//! Directories and aliases that come, by one commit each.

ghost use Rattle.group_engine.specs.Mounts.{Takes};

use crate::answers::{Answer, answer_of};
use crate::spelt::read_path;
use alias_edits::TreeEdit;
use bay::Bay;
use group_engine::Mounted;
use group_files::{GroupEdit, edit_group};
use std::alloc::Global;

/// Edits names. The edit goes then.
#[tactic(auto, using(crate::proofs::Taking::kept_takes))]
fn edit<B: Bay>(m: &mut Mounted, alloc: Global, bay: &mut B, edit: GroupEdit) -> Answer
    requires takes { Takes m.old (B.state bay.old) }
    ensures takes { Takes m.new (B.state bay.new) }
{
    let answer = answer_of(edit_group(m, alloc, bay, &edit));
    drop(edit);
    answer
}

/// The edit that makes a directory.
fn dir_edit(alloc: Global, at: &[u8]) -> Option<GroupEdit> {
    match read_path(alloc, at) {
        Some(path) => Some(GroupEdit::Tree(TreeEdit::MakeDir { path })),
        None => None,
    }
}

/// The edit that gives the file of a path an alias.
fn alias_edit(alloc: Global, alias: &[u8], at: &[u8]) -> Option<GroupEdit> {
    let alias = read_path(alloc, alias)?;
    match read_path(alloc, at) {
        Some(path) => Some(GroupEdit::Tree(TreeEdit::AddAlias { alias, path })),
        None => {
            drop(alias);
            None
        }
    }
}

/// Makes a directory.
pub fn make_dir<B: Bay>(m: &mut Mounted, alloc: Global, bay: &mut B, at: &[u8]) -> Answer
    requires takes { Takes m.old (B.state bay.old) }
    ensures takes { Takes m.new (B.state bay.new) }
{
    match dir_edit(alloc, at) {
        Some(asked) => edit(m, alloc, bay, asked),
        None => Answer::Another,
    }
}

/// Gives the file of a path an alias.
pub fn make_alias<B: Bay>(
    m: &mut Mounted,
    alloc: Global,
    bay: &mut B,
    alias: &[u8],
    at: &[u8],
) -> Answer
    requires takes { Takes m.old (B.state bay.old) }
    ensures takes { Takes m.new (B.state bay.new) }
{
    match alias_edit(alloc, alias, at) {
        Some(asked) => edit(m, alloc, bay, asked),
        None => Answer::Another,
    }
}
