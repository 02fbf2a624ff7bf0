//! The pages of all records.

ghost use Rattle.std.specs.Prelude.{◌≡◌, [], IfOk, OnOk};
ghost use Rattle.allocator.specs.asm_base.Records.{record_at};
ghost use Rattle.page_map.specs.Listing.{Lists, ListsBut};
ghost use Rattle.page_map.specs.Tables.{IsPageTable, block_of};

use crate::change::{listed, put_block, record_block};
use crate::table::PageMap;
use allocator::{Block, Key, NoMemory};
use std::alloc::Global;
use std::collections::BTreeMap;

impl PageMap {
    /// Of each record the page on which it stands, by number, with its block. Other pages of a copy
    /// are zeros.
    pub fn pages(&self, alloc: Global) -> Result<Vec<(u32, Block)>, NoMemory>
        ensures { IfOk result (λ pages. Lists self.now pages.items) }
    {
        let mut pages = BTreeMap::new(alloc);
        put_all(self, &mut pages)?;
        listed(alloc, pages)
    }
}

/// Puts the block of each record.
fn put_all(map: &PageMap, pages: &mut BTreeMap<u32, Block>) -> Result<(), NoMemory>
    requires { pages.old.entries ≡ [] }
    ensures pages { OnOk result (ListsBut map.now [] pages.new.entries) }
    ensures table { IsPageTable map.now }
{
    for (key, page) in map.places() {
        put_block(pages, *page, page_block(map, *key))?;
    }
    Ok(())
}

/// The block of the record of a key, or zeros where there is none.
fn page_block(map: &PageMap, key: Key) -> Block
    ensures { result.bytes ≡ block_of key (record_at map.now.records key) }
{
    match map.records().get(key) {
        Some(value) => record_block(key, value),
        None => Block::zeros(),
    }
}
