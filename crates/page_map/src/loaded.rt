//! The records of the pages of a copy, as they were read.

ghost use Rattle.std.specs.Prelude.{◌≡◌, ◌≤◌, true, false, IfOk, OnOk, IfErr, IsTrue};
ghost use Rattle.asm_formats.specs.Content.{is_empty_page, is_page};
ghost use Rattle.page_map.specs.Free.{is_page_free};
ghost use Rattle.page_map.specs.Loaded.{AreFilled, HasNoTable, IsTableOf, MakesTwin, PutsPage, ReadsItem, TwinCause};
ghost use Rattle.page_map.specs.declared.loaded.LoadedError.TheVariants.{NoMemory as WithoutMemory};

use crate::table::PageMap;
use allocator::{Block, Key, NoMemory, Value, decode_record};
use std::alloc::Global;

/// Why pages aren't the records of a map.
#[derive(Clone, Copy, Debug, PartialEq, Eq)]
pub enum LoadedError {
    /// The first page with the key of an earlier one.
    Twin { page: u32 },
    NoMemory,
}

impl From<NoMemory> for LoadedError {
    ghost from_gives = { λ _ e. e ≡ WithoutMemory };

    fn from(_want: NoMemory) -> LoadedError {
        LoadedError::NoMemory
    }
}

/// The record of a page.
fn read_page(alloc: Global, block: &Block) -> Result<(Key, Value), NoMemory>
    requires page { is_page block.now.bytes ≡ true }
    requires filled { is_empty_page block.now.bytes ≡ false }
    ensures { IfOk result (ReadsItem block.now) }
{
    match decode_record(alloc, block)? {
        Some(record) => Ok(record),
        None => unreachable!(),
    }
}

/// Puts the record of a page on it.
fn put_page(alloc: Global, map: &mut PageMap, page: u32, block: &Block) -> Result<(), LoadedError>
    requires page { is_page block.now.bytes ≡ true }
    requires filled { is_empty_page block.now.bytes ≡ false }
    requires free { is_page_free map.old.free page ≡ true }
    ensures ok { OnOk result (PutsPage map.old map.new page block.now) }
    ensures twin { IfErr result (MakesTwin map.old page block.now) }
{
    let record = read_page(alloc, block)?;
    if map.place(record.0).is_some() {
        return Err(LoadedError::Twin { page });
    }
    map.add_at(record.0, record.1, page)?;
    Ok(())
}

/// The map of the records of these pages, each on its page: they ascend, and each is the block of a
/// record. All other pages are free. Twin is the first page with the key of an earlier one.
pub fn from_pages(
    alloc: Global,
    pages: u32,
    blocks: &[(u32, Block)],
) -> Result<PageMap, LoadedError>
    requires few { pages ≤ 16384 }
    requires filled { AreFilled pages blocks.now }
    ensures table { IfOk result (IsTableOf pages blocks.now) }
    ensures twin { IfErr result (TwinCause blocks.now) }
    ensures none { IfErr result (HasNoTable pages blocks.now) }
{
    let mut map = PageMap::new(alloc, pages)?;
    // `room` says that each record has a page of its own.
    let _ = map.room();
    for (page, block) in blocks {
        put_page(alloc, &mut map, *page, block)?;
    }
    Ok(map)
}
