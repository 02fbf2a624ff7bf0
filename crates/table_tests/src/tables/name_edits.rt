// Edits of the tree of names, and what they leave.
use crate::helpers::{Wrong, path, row};
use crate::tables::names::{Found, count_found};
use alias_edits::{TreeEdit, TreeError};
use alias_tree::AliasTree;
use asm_base::Path;
use std::alloc::Global;

/// What an edit is to do; the file of a new name, or of the names that go.
#[derive(Clone, Copy)]
pub enum Verb {
    MakeDir,
    DropDir,
    RenameDir,
    AddAlias,
    RenameAlias,
    DropAlias,
    AddFile(u32),
    DropFile(u32),
}

/// An edit of one path or two, and its answer: None where it is done.
pub type Row = (Verb, &'static [u8], &'static [u8], Option<TreeError>);

/// Both paths, where both are paths.
fn paths(alloc: Global, at: &[u8], to: &[u8]) -> Option<(Path, Path)> {
    match path(alloc, at) {
        Some(at) => match path(alloc, to) {
            Some(to) => Some((at, to)),
            None => {
                drop(at);
                None
            }
        },
        None => None,
    }
}

/// An edit by these paths. One of one path heeds the first alone.
fn edit_by(verb: Verb, at: Path, to: Path) -> TreeEdit {
    match verb {
        Verb::MakeDir => TreeEdit::MakeDir { path: at },
        Verb::DropDir => TreeEdit::DropDir { path: at },
        Verb::RenameDir => TreeEdit::RenameDir { old: at, new: to },
        Verb::AddAlias => TreeEdit::AddAlias {
            alias: at,
            path: to,
        },
        Verb::RenameAlias => TreeEdit::RenameAlias { old: at, new: to },
        Verb::DropAlias => TreeEdit::DropAlias { path: at },
        Verb::AddFile(file) => TreeEdit::AddFile { path: at, file },
        Verb::DropFile(file) => TreeEdit::DropFile { file },
    }
}

/// The answer of an edit. None of parts of more than 80 bytes.
fn answer(tree: &mut AliasTree, edit: &TreeEdit) -> Option<Option<TreeError>> {
    if edit.is_allowed() {
        Some(alias_edits::edit(tree, edit).err())
    } else {
        None
    }
}

fn is_answered(alloc: Global, tree: &mut AliasTree, row: Row) -> bool {
    let (verb, at, to, wanted) = row;
    match paths(alloc, at, to) {
        Some((at, to)) => {
            let edit = edit_by(verb, at, to);
            let is_wanted = answer(tree, &edit) == Some(wanted);
            drop(edit);
            is_wanted
        }
        None => false,
    }
}

/// How many edits, one after the other, have their answers, until one hasn't.
fn count_answered(alloc: Global, tree: &mut AliasTree, rows: &[Row]) -> usize {
    for (place, row) in rows.iter().enumerate() {
        if !is_answered(alloc, tree, *row) {
            return place;
        }
    }
    rows.len()
}

/// The directory `a`, the file 256 in it and its alias `x`.
const USUAL: [Row; 3] = [
    (Verb::MakeDir, b"+DATA/a", b"+DATA", None),
    (Verb::AddFile(256), b"+DATA/a/t.256.1", b"+DATA", None),
    (Verb::AddAlias, b"+DATA/x", b"+DATA/a/t.256.1", None),
];

/// A tree once these edits are done.
pub fn edited(alloc: Global, rows: &[Row]) -> Option<AliasTree> {
    let mut tree = AliasTree::new(alloc);
    if count_answered(alloc, &mut tree, rows) == rows.len() {
        Some(tree)
    } else {
        drop(tree);
        None
    }
}

/// Of edits of the usual tree how many have their answers, and of paths then how many lead to their
/// nodes.
fn counts(alloc: Global, edits: &[Row], found: &[Found]) -> Option<(usize, usize)> {
    match edited(alloc, &USUAL) {
        Some(mut tree) => {
            let answered = count_answered(alloc, &mut tree, edits);
            let led = count_found(alloc, &tree, found);
            drop(tree);
            Some((answered, led))
        }
        None => None,
    }
}

/// Plays edits of the usual tree, and then finds paths.
fn play(alloc: Global, name: &'static str, edits: &[Row], found: &[Found]) -> Result<(), Wrong> {
    let wanted = Some((edits.len(), found.len()));
    row(name, counts(alloc, edits, found) == wanted)
}

const TAKEN: Option<TreeError> = Some(TreeError::NameTaken);

const NONE: Option<TreeError> = Some(TreeError::NoName);

const FILE: Option<TreeError> = Some(TreeError::NotDirectory);

const NOT_EMPTY: Option<TreeError> = Some(TreeError::NotEmpty);

const SYSTEM: Option<TreeError> = Some(TreeError::SystemName);

const HAS_ALIAS: Option<TreeError> = Some(TreeError::HasAlias);

/// Directories are made, renamed with what lies below them, and dropped.
const DIRECTORIES: [Row; 4] = [
    (Verb::MakeDir, b"+DATA/b", b"+DATA", None),
    (Verb::RenameDir, b"+DATA/A", b"+DATA/b/c", None),
    (Verb::MakeDir, b"+DATA/b/c/d", b"+DATA", None),
    (Verb::DropDir, b"+DATA/b/c/D", b"+DATA", None),
];

const DIRECTORIES_FOUND: [Found; 4] = [
    (b"+DATA/b/C/T.256.1", Some(2)),
    (b"+DATA/b/c", Some(1)),
    (b"+DATA/a", None),
    (b"+DATA/b/c/d", None),
];

/// What is refused of directories, the first of its causes, and nothing is changed.
const DIRECTORIES_REFUSED: [Row; 10] = [
    (Verb::MakeDir, b"+DATA/A", b"+DATA", TAKEN),
    (Verb::MakeDir, b"+DATA/z/y", b"+DATA", NONE),
    (Verb::MakeDir, b"+DATA", b"+DATA", NONE),
    (Verb::MakeDir, b"+DATA/x/y", b"+DATA", FILE),
    (Verb::DropDir, b"+DATA/a", b"+DATA", NOT_EMPTY),
    (Verb::DropDir, b"+DATA/x", b"+DATA", FILE),
    (Verb::DropDir, b"+DATA/z", b"+DATA", NONE),
    // A directory isn't renamed into itself, nor to another spelling of its name.
    (Verb::RenameDir, b"+DATA/a", b"+DATA/A/b", TAKEN),
    (Verb::RenameDir, b"+DATA/a", b"+DATA/A", TAKEN),
    (Verb::RenameDir, b"+DATA/x", b"+DATA/b", FILE),
];

const DIRECTORIES_REFUSED_FOUND: [Found; 1] = [(b"+DATA/a/t.256.1", Some(2))];

/// An alias is made, renamed and dropped, and its file stays. What is refused has the first of its
/// causes.
const ALIASES: [Row; 8] = [
    (Verb::AddAlias, b"+DATA/y", b"+DATA/a/T.256.1", HAS_ALIAS),
    (Verb::AddAlias, b"+DATA/X", b"+DATA/a/T.256.1", TAKEN),
    (Verb::AddAlias, b"+DATA/y", b"+DATA/a", NONE),
    (Verb::RenameAlias, b"+DATA/X", b"+DATA/a/y", None),
    (Verb::RenameAlias, b"+DATA/a/t.256.1", b"+DATA/t", SYSTEM),
    (Verb::DropAlias, b"+DATA/a/t.256.1", b"+DATA", SYSTEM),
    (Verb::DropAlias, b"+DATA/a", b"+DATA", NONE),
    (Verb::DropAlias, b"+DATA/A/Y", b"+DATA", None),
];

const ALIASES_FOUND: [Found; 2] = [(b"+DATA/a/y", None), (b"+DATA/a/t.256.1", Some(2))];

/// A file goes with both its names, and their numbers are given again, the least first.
const FILES: [Row; 4] = [
    (Verb::AddFile(257), b"+DATA/a/t.256.1", b"+DATA", TAKEN),
    (Verb::DropFile(257), b"+DATA", b"+DATA", NONE),
    (Verb::DropFile(256), b"+DATA", b"+DATA", None),
    (Verb::AddFile(257), b"+DATA/a/u.257.2", b"+DATA", None),
];

const FILES_FOUND: [Found; 3] = [
    (b"+DATA/a/t.256.1", None),
    (b"+DATA/x", None),
    (b"+DATA/A/U.257.2", Some(2)),
];

pub fn play_rows(alloc: Global) -> Result<(), Wrong> {
    play(alloc, "directories", &DIRECTORIES, &DIRECTORIES_FOUND)?;
    play(
        alloc,
        "directories that are refused",
        &DIRECTORIES_REFUSED,
        &DIRECTORIES_REFUSED_FOUND,
    )?;
    play(alloc, "aliases", &ALIASES, &ALIASES_FOUND)?;
    play(alloc, "files with names", &FILES, &FILES_FOUND)
}
