//! Edits of a tree of names that has many already.

use crate::paths::{Kind, node};
use crate::records::{name_of, path, put, there, unexpected};
use alias_edits::TreeEdit;
use alias_tree::AliasTree;
use asm_base::{Path, Records};
use std::alloc::Global;
use std::io;
use std::time::{Duration, Instant};

/// The kind of the records of nodes.
const NODES: u16 = 6;

const ADDS: u32 = 2_000;

const ALIASES: u32 = 2_000;

/// The least number of a file.
const FIRST: u32 = 256;

/// The time of many new directories of the root, one after the other, where another directory has
/// so many names. The first of them isn't measured: it looks once through the numbers that are
/// taken.
pub fn adding(alloc: Global, rt: &HostRuntime, names: u32) -> io::Result<Duration> {
    match tree_of(alloc, names) {
        Ok(mut tree) => {
            let time = adding_to(alloc, rt, &mut tree);
            drop(tree);
            time
        }
        Err(error) => Err(error),
    }
}

/// The same in a tree.
fn adding_to(alloc: Global, rt: &HostRuntime, tree: &mut AliasTree) -> io::Result<Duration> {
    make_first(alloc, tree)?;
    let mut edits = Vec::new(alloc);
    let time = match put_adds(alloc, &mut edits) {
        Ok(()) => time_once(rt, tree, &edits),
        Err(error) => Err(error),
    };
    drop(edits);
    time
}

/// Makes the directory `z`.
fn make_first(alloc: Global, tree: &mut AliasTree) -> io::Result<()> {
    let first = TreeEdit::MakeDir {
        path: path(alloc, b"+G/z")?,
    };
    let made = edit(tree, &first);
    drop(first);
    made
}

/// The edits that make many directories.
fn put_adds(alloc: Global, edits: &mut Vec<TreeEdit>) -> io::Result<()> {
    for i in 0..ADDS {
        let at = below(alloc, b"+G/", i)?;
        edits.push(TreeEdit::MakeDir { path: at })?;
    }
    Ok(())
}

fn time_once(rt: &HostRuntime, tree: &mut AliasTree, edits: &[TreeEdit]) -> io::Result<Duration> {
    let start = Instant::now(rt)?;
    edit_by(tree, edits)?;
    start.elapsed(rt)
}

/// The time of giving one file an alias, and of taking all names of another, many times in turn,
/// where a directory has the names of so many files. The first time isn't measured.
pub fn aliases(alloc: Global, rt: &HostRuntime, names: u32) -> io::Result<Duration> {
    match tree_of(alloc, names) {
        Ok(mut tree) => {
            let time = aliases_in(alloc, rt, &mut tree, names);
            drop(tree);
            time
        }
        Err(error) => Err(error),
    }
}

/// The same in the tree of so many names.
fn aliases_in(
    alloc: Global,
    rt: &HostRuntime,
    tree: &mut AliasTree,
    names: u32,
) -> io::Result<Duration> {
    let mut edits = Vec::new(alloc);
    let time = match put_turn(alloc, &mut edits, names) {
        Ok(()) => time_often(rt, tree, &edits),
        Err(error) => Err(error),
    };
    drop(edits);
    time
}

/// The edits that give the last file an alias, take all its names and give it its first one again.
fn put_turn(alloc: Global, edits: &mut Vec<TreeEdit>, names: u32) -> io::Result<()> {
    let last = names.saturating_sub(1);
    let file = names.saturating_add(FIRST).saturating_sub(1);
    let at = below(alloc, b"+G/d/", last)?;
    put_alias(alloc, edits, at)?;
    edits.push(TreeEdit::DropFile { file })?;
    let at = below(alloc, b"+G/d/", last)?;
    edits.push(TreeEdit::AddFile { path: at, file })?;
    Ok(())
}

/// The edit that gives the file at a path the alias `x`.
fn put_alias(alloc: Global, edits: &mut Vec<TreeEdit>, at: Path) -> io::Result<()> {
    match path(alloc, b"+G/x") {
        Ok(alias) => {
            edits.push(TreeEdit::AddAlias { alias, path: at })?;
            Ok(())
        }
        Err(error) => {
            drop(at);
            Err(error)
        }
    }
}

fn time_often(rt: &HostRuntime, tree: &mut AliasTree, edits: &[TreeEdit]) -> io::Result<Duration> {
    edit_by(tree, edits)?;
    let start = Instant::now(rt)?;
    for _ in 0..ALIASES {
        edit_by(tree, edits)?;
    }
    start.elapsed(rt)
}

/// Makes edits one after the other.
fn edit_by(tree: &mut AliasTree, edits: &[TreeEdit]) -> io::Result<()> {
    for one in edits {
        edit(tree, one)?;
    }
    Ok(())
}

fn edit(tree: &mut AliasTree, edit: &TreeEdit) -> io::Result<()> {
    if !edit.is_allowed() {
        return Err(unexpected());
    }
    match alias_edits::edit(tree, edit) {
        Ok(()) => Ok(()),
        Err(_) => Err(unexpected()),
    }
}

/// The directory `d` with the system names of so many files.
fn tree_of(alloc: Global, names: u32) -> io::Result<AliasTree> {
    let mut records = Records::new(alloc);
    let tree = match put_names(alloc, &mut records, names) {
        Ok(()) => there(AliasTree::from_records(alloc, &records)),
        Err(error) => Err(error),
    };
    drop(records);
    tree
}

/// Puts the records of that tree.
fn put_names(alloc: Global, records: &mut Records, names: u32) -> io::Result<()> {
    let dir = node(0, Kind::Directory, 0, b"d");
    put(alloc, records, NODES, 1, &dir)?;
    for i in 0..names {
        let file = node(1, Kind::System, i.saturating_add(FIRST), &name_of(i));
        put(alloc, records, NODES, i.saturating_add(2), &file)?;
    }
    Ok(())
}

/// The path of the name of a number below a directory.
fn below(alloc: Global, dir: &[u8], number: u32) -> io::Result<Path> {
    let mut bytes = Vec::new(alloc);
    let path = match put_path(&mut bytes, dir, number) {
        Ok(()) => path(alloc, &bytes),
        Err(error) => Err(error),
    };
    drop(bytes);
    path
}

fn put_path(bytes: &mut Vec<u8>, dir: &[u8], number: u32) -> io::Result<()> {
    bytes.extend_from_slice(dir)?;
    bytes.extend_from_slice(&name_of(number))?;
    Ok(())
}
