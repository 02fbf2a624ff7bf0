//! Finding a path beside the names of another directory.

use crate::records::{name_of, path, put, there, unexpected};
use alias_tree::AliasTree;
use asm_base::{Path, Records};
use std::alloc::Global;
use std::io;
use std::time::{Duration, Instant};

/// The kind of the records of nodes.
const NODES: u16 = 6;

const SEARCHES: u32 = 200_000;

/// What a node is, as its record says it.
#[derive(Clone, Copy)]
pub enum Kind {
    Directory,
    System,
}

/// The time of many searches for a file's name in one directory, where another one has so many
/// names.
pub fn searches(alloc: Global, rt: &HostRuntime, names: u32) -> io::Result<Duration> {
    match tree_beside(alloc, names) {
        Ok(tree) => {
            let time = searches_in(alloc, rt, &tree);
            drop(tree);
            time
        }
        Err(error) => Err(error),
    }
}

/// The same in a tree.
fn searches_in(alloc: Global, rt: &HostRuntime, tree: &AliasTree) -> io::Result<Duration> {
    match path(alloc, b"+G/first/x") {
        Ok(path) => {
            let time = searches_for(rt, tree, &path);
            drop(path);
            time
        }
        Err(error) => Err(error),
    }
}

/// The same for a path, which must be found each time.
fn searches_for(rt: &HostRuntime, tree: &AliasTree, path: &Path) -> io::Result<Duration> {
    let start = Instant::now(rt)?;
    let found = found_often(tree, path);
    let time = start.elapsed(rt)?;
    if found == SEARCHES {
        Ok(time)
    } else {
        Err(unexpected())
    }
}

fn found_often(tree: &AliasTree, path: &Path) -> u32 {
    let mut found: u32 = 0;
    for _ in 0..SEARCHES {
        if tree.find(path) == Some(3) {
            found = found.saturating_add(1);
        }
    }
    found
}

/// A tree of two directories, of which the first has the one name `x` and the second so many.
fn tree_beside(alloc: Global, names: u32) -> io::Result<AliasTree> {
    let mut records = Records::new(alloc);
    let tree = match put_names(alloc, &mut records, names) {
        Ok(()) => there(AliasTree::from_records(alloc, &records)),
        Err(error) => Err(error),
    };
    drop(records);
    tree
}

/// Puts the records of that tree.
fn put_names(alloc: Global, records: &mut Records, names: u32) -> io::Result<()> {
    let file = node(0, Kind::Directory, 0, b"first");
    put(alloc, records, NODES, 1, &file)?;
    let file = node(0, Kind::Directory, 0, b"second");
    put(alloc, records, NODES, 2, &file)?;
    let file = node(1, Kind::System, 0, b"x");
    put(alloc, records, NODES, 3, &file)?;
    for i in 0..names {
        let file = node(2, Kind::System, 0, &name_of(i));
        put(alloc, records, NODES, i.saturating_add(4), &file)?;
    }
    Ok(())
}

/// The value of a node's record: the parent, the kind, the file and the name in a field of 81
/// bytes.
pub fn node(parent: u8, kind: Kind, file: u32, name: &[u8]) -> [u8; 90] {
    let mut bytes = [0; 90];
    bytes[3] = parent;
    for (to, from) in bytes[5..9].iter_mut().zip(&file.to_be_bytes()) {
        *to = *from;
    }
    bytes[4] = match kind {
        Kind::Directory => 1,
        Kind::System => 2,
    };
    bytes[9] = name.len().min(80) as u8;
    for (to, from) in bytes[10..].iter_mut().zip(name) {
        *to = *from;
    }
    bytes
}
