//! Whether a catalog tells this.

use crate::catalogs::names::is_checked;
use crate::catalogs::plans::planned;
use crate::catalogs::steps::{Fact, Head, Plan, Units};
use crate::helpers::path;
use asm_base::{ExtentId, Home, Homes, Name, Path, PendingKind, Stripe};
use catalog::Catalog;
use extent_map::Chunk;
use std::alloc::Global;

/// Whether the catalog tells a fact. False also for want of memory.
pub fn is_told(alloc: Global, group: &Catalog, fact: Fact<'_>) -> bool {
    match fact {
        Fact::Find(at, node) => is_found(alloc, group, at, node),
        Fact::Node(node, file) => file_named(group, node) == file,
        Fact::Children(node, wanted) => are_children(alloc, group, node, wanted),
        Fact::Path(node, parts) => has_path(alloc, group, node, parts),
        Fact::Check(at, size, wanted) => is_checked(alloc, group, at, size, wanted),
        Fact::Change(plan, put, gone) => is_change(alloc, group, plan, put, gone),
        Fact::Head(file, head) => head_of(group, file) == head,
        Fact::FileFrom(least, file) => group.file_from(least) == file,
        Fact::NextFile(file) => group.next_file() == file,
        _ => is_told_of_disks(group, fact),
    }
}

/// The same of extents, disks, settings and operations.
fn is_told_of_disks(group: &Catalog, fact: Fact<'_>) -> bool {
    match fact {
        Fact::Homes(file, index, wanted) => are_homes(
            group.homes(ExtentId { file, index }),
            wanted,
        ),
        Fact::Marks(file, index, marks) => group.marks(ExtentId { file, index }) == marks,
        Fact::Marked(disk, file, index, x) => marked(group, disk, file, index) == x,
        Fact::Chunks(first, second) => first_chunks(group) == (first, second),
        Fact::Units(disk, units) => units_of(group, disk) == units,
        Fact::Birth(disk, birth) => birth_of(group, disk) == birth,
        Fact::Templates(count) => group.templates().len() == count,
        Fact::Template(place, template) => template_at(group, place) == template,
        Fact::Repair(seconds) => group.settings().repair == seconds,
        Fact::Rdbms(text) => group.settings().rdbms.as_slice() == text,
        Fact::Incarnation(next) => group.settings().incarnation == next,
        Fact::Pending(pending) => pending_of(group) == pending,
        Fact::Power(power) => group.rebalance() == power,
        Fact::Blocks(blocks) => group.shape().dir_blocks == blocks,
        Fact::FreeBlocks(blocks) => group.free_blocks() == blocks,
        _ => false,
    }
}

fn is_found(alloc: Global, group: &Catalog, at: &[u8], node: Option<u32>) -> bool {
    match path(alloc, at) {
        Some(at) => {
            let found = group.find(&at);
            drop(at);
            found == node
        }
        None => false,
    }
}

fn file_named(group: &Catalog, node: u32) -> Option<u32> {
    match group.node(node) {
        Some(node) => Some(node.file),
        None => None,
    }
}

fn are_children(alloc: Global, group: &Catalog, node: u32, wanted: &[u32]) -> bool {
    match group.children(alloc, node) {
        Ok(children) => {
            let are_wanted = children.as_slice() == wanted;
            drop(children);
            are_wanted
        }
        Err(_) => false,
    }
}

/// Whether a node has the path of these parts, or has none where there are no parts.
fn has_path(alloc: Global, group: &Catalog, node: u32, parts: &[&[u8]]) -> bool {
    match Name::read(alloc, b"data", 30) {
        Ok(Some(name)) => {
            let has_path = has_path_in(alloc, group, &name, node, parts);
            drop(name);
            has_path
        }
        _ => false,
    }
}

/// The same in the group of a name.
fn has_path_in(alloc: Global, group: &Catalog, name: &Name, node: u32, parts: &[&[u8]]) -> bool {
    match group.path_of(alloc, name, node) {
        Ok(Some(path)) => {
            let is_path = is_path(&path, b"data", parts);
            drop(path);
            is_path
        }
        Ok(None) => parts.is_empty(),
        Err(_) => false,
    }
}

/// Whether a path has these parts, in this spelling.
fn is_path(path: &Path, group: &[u8], parts: &[&[u8]]) -> bool {
    let names = path.parts.as_slice();
    if names.len() != parts.len() || path.group.as_bytes() != group {
        return false;
    }
    for (name, part) in names.iter().zip(parts) {
        if name.as_bytes() != *part {
            return false;
        }
    }
    true
}

fn is_change(alloc: Global, group: &Catalog, plan: Plan<'_>, put: usize, gone: usize) -> bool {
    match planned(alloc, group, plan) {
        Ok(change) => {
            let counts = (change.put.len(), change.gone.len());
            drop(change);
            counts == (put, gone)
        }
        Err(_) => false,
    }
}

fn head_of(group: &Catalog, file: u32) -> Option<Head> {
    match group.file(file) {
        Some(head) => Some((
            head.copies,
            head.size,
            head.incarnation,
            head.system,
            head.alias,
        )),
        None => None,
    }
}

/// Whether these are the homes of two copies.
fn are_homes(homes: Option<Homes>, wanted: Option<((u8, u32), (u8, u32))>) -> bool {
    match wanted {
        Some((first, second)) => homes == Some(two_homes(first, second)),
        None => homes.is_none(),
    }
}

fn two_homes(first: (u8, u32), second: (u8, u32)) -> Homes {
    Homes {
        first: Some(Home {
            disk: first.0,
            unit: first.1,
        }),
        second: Some(Home {
            disk: second.0,
            unit: second.1,
        }),
        third: None,
    }
}

fn marked(group: &Catalog, disk: u8, file: u32, index: u32) -> Option<(u32, u32)> {
    match group.marked_from(disk, ExtentId { file, index }) {
        Some(x) => Some((x.file, x.index)),
        None => None,
    }
}

fn first_chunks(group: &Catalog) -> (Option<(u32, u32)>, Option<(u32, u32)>) {
    let mut chunks = group.chunks();
    let first = key(chunks.next());
    let second = key(chunks.next());
    (first, second)
}

/// The key of a chunk, where there is one.
fn key(chunk: Option<(&(u32, u32), &Chunk)>) -> Option<(u32, u32)> {
    match chunk {
        Some((at, _)) => Some(*at),
        None => None,
    }
}

fn units_of(group: &Catalog, disk: usize) -> Option<Units> {
    match group.units().get(disk) {
        Some(units) => Some((units.total(), units.used(), units.lowest(1))),
        None => None,
    }
}

fn birth_of(group: &Catalog, number: u8) -> Option<u64> {
    match group.disk(number) {
        Some(disk) => Some(disk.birth),
        None => None,
    }
}

fn template_at(group: &Catalog, place: usize) -> Option<(u8, Stripe)> {
    match group.templates().get(place) {
        Some(template) => Some((template.copies, template.stripe)),
        None => None,
    }
}

fn pending_of(group: &Catalog) -> Option<(PendingKind, u32, u64)> {
    match group.pending() {
        Some(op) => Some((op.kind, op.file, op.kept)),
        None => None,
    }
}
