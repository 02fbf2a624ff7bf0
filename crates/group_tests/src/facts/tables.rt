//! What a mounted group tells of its tables.

use super::fact::Fact;
use super::reports::is_directory_at;
use crate::spelt::read_path;
use disk_modes::{file_units, is_moving};
use group_engine::Mounted;
use std::alloc::Global;

fn has_dir(alloc: Global, m: &Mounted, at: &[u8]) -> Option<bool> {
    match read_path(alloc, at) {
        Some(path) => {
            let node = m.catalog().find(&path);
            drop(path);
            Some(node.is_some())
        }
        None => None,
    }
}

/// Whether the group tells this of its tables.
pub fn is_of_tables(alloc: Global, m: &Mounted, fact: Fact) -> bool {
    let catalog = m.catalog();
    match fact {
        Fact::HasInfo(disk, is_there) => catalog.disk(disk).is_some() == is_there,
        Fact::HasDir(at, is_there) => has_dir(alloc, m, at) == Some(is_there),
        Fact::FreeBlocks(blocks) => catalog.free_blocks() == blocks,
        Fact::IsPending(is_pending) => catalog.pending().is_some() == is_pending,
        Fact::Rebalance(power) => catalog.rebalance() == power,
        Fact::Rebalances(moves) => is_moving(catalog) == moves,
        Fact::FileUnits(file, units) => file_units(catalog, file) == units,
        Fact::Directory(at, found) => is_directory_at(alloc, catalog, at, found),
        _ => false,
    }
}
