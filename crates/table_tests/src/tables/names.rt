// The tree of names: what is read of records and written to them.
use crate::helpers::{Wrong, all_right, name, path, row};
use crate::tables::given::no_change;
use alias_tree::{AliasTree, Node, OpenTree};
use asm_base::{Block, Key, Name, NodeKind, Records, Value, Writer, put_text, put_u8, put_u32};
use std::alloc::Global;

/// The record of a node: its number, its parent, its kind, its file and its name.
type Row = (u32, u32, u8, u32, &'static [u8]);

/// Two directories and a file in the inner one.
const ONE_FILE: [Row; 3] = [
    (1, 0, 1, 0, b"db"),
    (2, 1, 1, 0, b"DATAFILE"),
    (3, 2, 2, 256, b"u.256.1"),
];

fn key(number: u32) -> Key {
    Key {
        kind: 6,
        a: number,
        b: 0,
    }
}

/// The value of the record of a node.
fn node_value(alloc: Global, row: Row) -> Option<Value> {
    let (_, parent, kind, file, name) = row;
    if name.len() > 80 {
        return None;
    }
    let mut block = Block::zeros();
    let mut to = Writer {
        block: &mut block,
        at: 0,
    };
    put_u32(&mut to, parent);
    put_u8(&mut to, kind);
    put_u32(&mut to, file);
    put_text(&mut to, name, 80);
    Value::from_writer(alloc, &to).ok()
}

fn add(alloc: Global, records: &mut Records, row: Row) -> Option<()> {
    match node_value(alloc, row) {
        Some(value) => records.insert(key(row.0), value).ok(),
        None => None,
    }
}

fn add_all(alloc: Global, records: &mut Records, rows: &[Row]) -> Option<()> {
    for row in rows {
        add(alloc, records, *row)?;
    }
    Some(())
}

/// The tree of the file's records with some more, where they are a tree's.
fn tree_with(alloc: Global, more: &[Row]) -> Option<Option<AliasTree>> {
    tree_of(alloc, &ONE_FILE, more)
}

/// The tree of these records, where they are a tree's.
fn tree_of(alloc: Global, rows: &[Row], more: &[Row]) -> Option<Option<AliasTree>> {
    let mut records = Records::new(alloc);
    let is_added = add_all(alloc, &mut records, rows).is_some();
    let tree = if is_added && add_all(alloc, &mut records, more).is_some() {
        AliasTree::from_records(alloc, &records).ok()
    } else {
        None
    };
    drop(records);
    tree
}

/// A path, and the node that it leads to.
pub type Found = (&'static [u8], Option<u32>);

fn leads(alloc: Global, tree: &AliasTree, at: &[u8], node: Option<u32>) -> bool {
    match path(alloc, at) {
        Some(path) => {
            let found = tree.find(&path);
            drop(path);
            found == node
        }
        None => false,
    }
}

/// How many paths lead to their nodes, until one doesn't.
pub fn count_found(alloc: Global, tree: &AliasTree, rows: &[Found]) -> usize {
    for (place, (at, node)) in rows.iter().enumerate() {
        if !leads(alloc, tree, at, *node) {
            return place;
        }
    }
    rows.len()
}

const FOUND: [Found; 3] = [
    (b"+DATA", Some(0)),
    (b"+DATA/DB/datafile/U.256.1", Some(3)),
    (b"+DATA/db/x", None),
];

/// Whether a node is of a file and has a name.
fn is_of(tree: &AliasTree, number: u32, file: u32, name: &[u8]) -> bool {
    match tree.get(number) {
        Some(node) => node.file == file && node.name.as_bytes() == name,
        None => false,
    }
}

fn has_children(alloc: Global, tree: &AliasTree, node: u32, children: &[u32]) -> bool {
    match tree.children(alloc, node) {
        Ok(found) => {
            let are_these = found.as_slice() == children;
            drop(found);
            are_these
        }
        Err(_) => false,
    }
}

/// A tree without names in which a directory of this name is put.
fn put_directory(alloc: Global, name: Name) -> Option<AliasTree> {
    if name.as_bytes().len() > 80 {
        drop(name);
        return None;
    }
    let mut tree = AliasTree::new(alloc);
    let node = Node {
        parent: 0,
        kind: NodeKind::Directory,
        file: 0,
        name,
    };
    match tree.put(1, node) {
        Ok(()) => Some(tree),
        Err(_) => {
            drop(tree);
            None
        }
    }
}

/// The same of the directory `db`.
fn put_db(alloc: Global) -> Option<AliasTree> {
    match name(alloc, b"db") {
        Some(name) => put_directory(alloc, name),
        None => None,
    }
}

fn is_put_and_found(alloc: Global) -> bool {
    match put_db(alloc) {
        Some(tree) => {
            let is_found = leads(alloc, &tree, b"+DATA/DB", Some(1));
            drop(tree);
            is_found
        }
        None => false,
    }
}

/// Whether three records are put, and the second is that of the inner directory with these bytes.
fn is_written(put: &[(Key, Value)], bytes: &[u8]) -> bool {
    match put {
        [_, (at, value), _] => *at == key(2) && value.as_bytes() == bytes,
        _ => false,
    }
}

fn has_record(alloc: Global, tree: &AliasTree, bytes: &[u8]) -> bool {
    let mut change = no_change(alloc);
    let is_right = tree.to_records(alloc, &mut change).is_ok()
        && is_written(change.put.as_slice(), bytes);
    drop(change);
    is_right
}

/// The parent, the kind, the file, and a name of 80 bytes.
const BYTES: &[u8] =
    b"\0\0\0\x01\x01\0\0\0\0\x08DATAFILE\0\0\0\0\0\0\0\0\0\0\0\0\0\0\0\0\0\0\0\0\0\0\0\0\0\0\0\0\0\0\0\0\0\0\0\0\0\0\0\0\0\0\0\0\0\0\0\0\0\0\0\0\0\0\0\0\0\0\0\0\0\0\0\0\0\0\0\0\0\0\0\0";

/// What is told of the tree of one file. Names are found in any case, and the root is 0; the names
/// of a directory, of the root and of one without names; and the records of a tree are those that
/// it was read from.
fn play_one_file(alloc: Global, tree: &AliasTree) -> Result<(), Wrong> {
    let found = count_found(alloc, tree, &FOUND);
    all_right("names are found in any case", found, FOUND.len())?;
    row("the node of a file", is_of(tree, 3, 256, b"u.256.1"))?;
    row("names of the root", has_children(alloc, tree, 0, &[1]))?;
    row("names of a directory", has_children(alloc, tree, 1, &[2]))?;
    row("no names", has_children(alloc, tree, 9, &[]))?;
    row("records of a tree", has_record(alloc, tree, BYTES))
}

fn play_file(alloc: Global) -> Result<(), Wrong> {
    match tree_with(alloc, &[]) {
        Some(Some(tree)) => {
            let played = play_one_file(alloc, &tree);
            drop(tree);
            played
        }
        _ => Err(("the tree of one file", 0)),
    }
}

const BROKEN: [Row; 6] = [
    // Two names of one directory that differ in case alone; a name in a file; a directory in
    // itself.
    (4, 1, 3, 257, b"datafile"),
    (4, 3, 3, 257, b"x"),
    (4, 4, 1, 0, b"x"),
    // A kind that there isn't, the number of the root, and a name that is no part of a path.
    (4, 0, 4, 0, b"x"),
    (0, 1, 1, 0, b"x"),
    (4, 0, 1, 0, b"a b"),
];

/// Whether the records with one more are a tree's.
fn is_tree_with(alloc: Global, row: Row) -> Option<bool> {
    match tree_with(alloc, &[row]) {
        Some(tree) => {
            let is_tree = tree.is_some();
            drop(tree);
            Some(is_tree)
        }
        None => None,
    }
}

/// How many records break the tree, until one doesn't.
fn count_broken(alloc: Global, rows: &[Row]) -> usize {
    for (place, row) in rows.iter().enumerate() {
        if is_tree_with(alloc, *row) != Some(false) {
            return place;
        }
    }
    rows.len()
}

/// The directory `db`.
const DB: [Row; 1] = [(1, 0, 1, 0, b"db")];

/// The tree of the directory `db`, which is open, and whether a copy has it.
fn open_db(alloc: Global) -> Option<(OpenTree, bool)> {
    match tree_of(alloc, &DB, &[]) {
        Some(Some(tree)) => {
            let is_copied = has_copy(alloc, &tree);
            Some((tree.open(), is_copied))
        }
        _ => None,
    }
}

/// Whether a copy of the tree has its directory.
fn has_copy(alloc: Global, tree: &AliasTree) -> bool {
    match tree.copy(alloc) {
        Ok(copy) => {
            let is_there = copy.get(1).is_some();
            drop(copy);
            is_there
        }
        Err(_) => false,
    }
}

const SECOND: Key = Key {
    kind: 6,
    a: 2,
    b: 0,
};

/// Whether the record of node 2 with the name in other letters is put, once another node is gone.
fn put_again(alloc: Global, tree: &mut OpenTree, gone: u32) -> Option<bool> {
    match node_value(alloc, (2, 0, 1, 0, b"DB")) {
        Some(again) => {
            tree.remove_record(gone);
            tree.remove_record(2);
            let is_put = tree.put_record(alloc, SECOND, &again).ok();
            drop(again);
            is_put
        }
        None => None,
    }
}

/// Whether a copy has the directory, and whether the same name is put while it is there and once it
/// is gone.
fn put_by_records(alloc: Global) -> Option<(bool, Option<bool>, Option<bool>)> {
    match open_db(alloc) {
        Some((mut tree, is_copied)) => {
            let beside = put_again(alloc, &mut tree, 9);
            let instead = put_again(alloc, &mut tree, 1);
            drop(tree);
            Some((is_copied, beside, instead))
        }
        None => None,
    }
}

pub fn play_rows(alloc: Global) -> Result<(), Wrong> {
    play_file(alloc)?;
    row("a directory is put and found", is_put_and_found(alloc))?;
    all_right("broken records", count_broken(alloc, &BROKEN), BROKEN.len())?;
    let is_tree = is_tree_with(alloc, (4, 1, 3, 257, b"x"));
    row("records that aren't broken", is_tree == Some(true))?;
    // A name in other letters is taken while its node is there.
    let put = put_by_records(alloc);
    row(
        "a node is put by its record",
        put == Some((true, Some(false), Some(true))),
    )
}
