// What the name of a new file would change.
use crate::helpers::{Wrong, path, row};
use crate::tables::name_edits::{Row, Verb, edited};
use alias_edits::{TreeEdit, TreeError, plan_file};
use alias_tree::{AliasTree, Node};
use asm_base::NodeKind;
use std::alloc::Global;

/// The directory `a` and the file 256 in it.
const USUAL: [Row; 2] = [
    (Verb::MakeDir, b"+DATA/a", b"+DATA", None),
    (Verb::AddFile(256), b"+DATA/a/t.256.1", b"+DATA", None),
];

/// A node that is made: its number, its parent, its kind, its file and its name.
type Made = (u32, u32, NodeKind, u32, &'static [u8]);

/// What a plan gives.
type Planned = Result<Vec<(u32, Node)>, TreeError>;

/// The plan of the name of file 257 at a path, by an edit.
fn planned_by(alloc: Global, tree: &AliasTree, edit: &TreeEdit) -> Option<Planned> {
    if !edit.is_allowed() {
        return None;
    }
    let TreeEdit::AddFile { path, file } = edit else {
        return None;
    };
    if path.parts.is_empty() {
        return None;
    }
    Some(plan_file(tree, alloc, path, *file))
}

/// The same in a tree.
fn planned_in(alloc: Global, tree: &AliasTree, at: &[u8]) -> Option<Planned> {
    match path(alloc, at) {
        Some(path) => {
            let edit = TreeEdit::AddFile { path, file: 257 };
            let planned = planned_by(alloc, tree, &edit);
            drop(edit);
            planned
        }
        None => None,
    }
}

/// The same in the usual tree.
fn planned(alloc: Global, at: &[u8]) -> Option<Planned> {
    match edited(alloc, &USUAL) {
        Some(tree) => {
            let planned = planned_in(alloc, &tree, at);
            drop(tree);
            planned
        }
        None => None,
    }
}

fn is_made(made: &(u32, Node), wanted: &Made) -> bool {
    let (number, node) = made;
    let (wanted_number, parent, kind, file, name) = wanted;
    *number == *wanted_number
        && node.parent == *parent
        && node.kind == *kind
        && node.file == *file
        && node.name.as_bytes() == *name
}

/// Whether the nodes that are made are these.
fn are_these(made: &[(u32, Node)], wanted: &[Made]) -> bool {
    made.len() == wanted.len() && made.iter().zip(wanted.iter()).all(|(m, w)| is_made(m, w))
}

fn are_made(alloc: Global, at: &[u8], wanted: &[Made]) -> bool {
    match planned(alloc, at) {
        Some(Ok(made)) => {
            let are_these = are_these(&made, wanted);
            drop(made);
            are_these
        }
        _ => false,
    }
}

/// The directories that are missing are made, from the top, and then the name, each with the least
/// free number.
const MADE: [Made; 3] = [
    (3, 1, NodeKind::Directory, 0, b"b"),
    (4, 3, NodeKind::Directory, 0, b"c"),
    (5, 4, NodeKind::System, 257, b"u.257.2"),
];

/// Whether a name is refused so.
fn is_refused(alloc: Global, at: &[u8], wanted: TreeError) -> bool {
    match planned(alloc, at) {
        Some(Err(refusal)) => refusal == wanted,
        Some(Ok(made)) => {
            drop(made);
            false
        }
        None => false,
    }
}

pub fn play_rows(alloc: Global) -> Result<(), Wrong> {
    let at = b"+DATA/A/b/c/u.257.2";
    row("a new file", are_made(alloc, at, &MADE))?;
    // A name below a file, and one that is there, is refused.
    let at = b"+DATA/a/T.256.1/u.257.2";
    row(
        "a name below a file",
        is_refused(alloc, at, TreeError::NotDirectory),
    )?;
    let at = b"+DATA/a/t.256.1/b/u.257.2";
    row(
        "a name far below a file",
        is_refused(alloc, at, TreeError::NotDirectory),
    )?;
    let at = b"+DATA/a/T.256.1";
    row(
        "a file's name that is taken",
        is_refused(alloc, at, TreeError::NameTaken),
    )?;
    let at = b"+DATA/A";
    row(
        "a directory's name that is taken",
        is_refused(alloc, at, TreeError::NameTaken),
    )
}
