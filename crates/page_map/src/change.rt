//! What a change does to the records and their pages.

ghost use Rattle.std.specs.Prelude.{◌≡◌, ◌<◌, ◌≤◌, ◌+◌, ◌==◌, ◌&&◌, ◌++◌, ◌∷◌, ℕ, true, [], length, map as map_list, IfErr, IfOk, OnErr, OnOk, Some, None, is_some, if◌then◌else◌};
ghost use Rattle.asm_formats.specs.Items.{Key as FormatKey};
ghost use Rattle.allocator.specs.asm_base.Records.{is_key, record_at};
ghost use Rattle.page_map.specs.Changes.{is_put, is_gone, last_put};
ghost use Rattle.page_map.specs.Tables.{IsPageTable, SameTable, has_kept_pages, is_new, new_in, place_at, block_of, room};
ghost use Rattle.std.specs.List.Sorted.{IsStrictlySortedBy};
ghost use Rattle.std.specs.Map.{lookup};
ghost use Rattle.std.specs.Ordering.{nat_cmp};
ghost use Rattle.page_map.specs.Applying.{AddsNew, RemovesAll, SetsAll, PutOne, PutBlocks, GoneBlocks, Blocks, Applies, IsCause, block_at, page_number};

use crate::table::PageMap;
use allocator::{Block, Key, NoMemory, Value, encode_record, record_kind};
use std::alloc::Global;
use std::collections::BTreeMap;

/// Why a change isn't applied.
#[derive(Clone, Copy, Debug, PartialEq, Eq)]
pub enum PageError {
    /// More new records than pages that are left for them.
    Full { need: u64, free: u64 },
    NoMemory,
}

impl From<NoMemory> for PageError {
    ghost use Rattle.page_map.specs.declared.change.PageError.TheVariants.{NoMemory as WithoutMemory};

    ghost from_gives = { λ _ e. e ≡ WithoutMemory };

    fn from(_: NoMemory) -> PageError {
        PageError::NoMemory
    }
}

/// Whether a key is one of the two for which pages are kept.
fn is_kept(key: Key) -> bool
    ensures { result ≡ has_kept_pages key }
{
    key.kind == record_kind::OPERATIONS && key.a <= 1 && key.b == 0
}

/// Whether a record of this key needs a page that isn't kept.
fn is_new(map: &PageMap, key: Key) -> bool
    ensures { result ≡ is_new map.now key }
{
    !is_kept(key) && map.place(key).is_none()
}

/// The same records once more.
fn copies(alloc: Global, put: &[(Key, Value)]) -> Result<Vec<(Key, Value)>, NoMemory>
    ensures { IfOk result (λ copies. copies.items ≡ put.now) }
{
    let mut copies = Vec::new(alloc);
    for (key, value) in put {
        push_copy(&mut copies, *key, value)?;
    }
    Ok(copies)
}

/// Puts a copy of a record at the end.
fn push_copy(copies: &mut Vec<(Key, Value)>, key: Key, value: &Value) -> Result<(), NoMemory>
    ensures { OnOk result (copies.new.items ≡ copies.old.items ++ (key, value.now) ∷ []) }
{
    let copy = value.copy()?;
    match copies.push((key, copy)) {
        Ok(()) => Ok(()),
        Err(_) => Err(NoMemory),
    }
}

/// Takes up the keys of new records.
fn new_keys(
    map: &PageMap,
    put: &[(Key, Value)],
    keys: &mut BTreeMap<Key, ()>,
) -> Result<(), NoMemory>
    requires empty { keys.old.entries ≡ [] }
    ensures count { OnOk result (length keys.new.entries ≡ new_in map.now put.now) }
    ensures keys { OnOk result ((k : FormatKey)
        → is_some (lookup (is_key k) keys.new.entries) ≡ (is_new map.now k && is_put put.now k)) }
{
    let [first, rest @ ..] = put else {
        return Ok(());
    };
    new_keys(map, rest, keys)?;
    if !is_new(map, first.0) {
        return Ok(());
    }
    match keys.insert(first.0, ()) {
        Ok(_) => Ok(()),
        Err(_) => Err(NoMemory),
    }
}

/// How many new records are put, but for the two for which pages are kept.
fn count_new(alloc: Global, map: &PageMap, put: &[(Key, Value)]) -> Result<u64, NoMemory>
    ensures { IfOk result (λ n. n ≡ new_in map.now put.now) }
{
    let mut keys = BTreeMap::new(alloc);
    new_keys(map, put, &mut keys)?;
    Ok(keys.len() as u64)
}

/// The block of a record.
pub(crate) fn record_block(key: Key, value: &Value) -> Block
    ensures { result.bytes ≡ block_of key (Some value.now) }
{
    let mut block = Block::zeros();
    encode_record(&key, value, &mut block);
    block
}

/// Puts the blocks of records that are put.
fn put_blocks(
    map: &PageMap,
    put: &[(Key, Value)],
    pages: &mut BTreeMap<u32, Block>,
) -> Result<(), NoMemory>
    ensures { OnOk result (PutBlocks map.now put.now pages.old.entries pages.new.entries) }
{
    let [first, rest @ ..] = put else {
        return Ok(());
    };
    put_one(map, first.0, record_block(first.0, &first.1), pages)?;
    put_blocks(map, rest, pages)
}

/// Puts zeros for the pages of keys that go.
fn gone_blocks(
    map: &PageMap,
    gone: &[Key],
    pages: &mut BTreeMap<u32, Block>,
) -> Result<(), NoMemory>
    ensures { OnOk result (GoneBlocks map.now gone.now pages.old.entries pages.new.entries) }
{
    let [first, rest @ ..] = gone else {
        return Ok(());
    };
    put_one(map, *first, Block::zeros(), pages)?;
    gone_blocks(map, rest, pages)
}

/// Puts the block of a key's page, where the key has one.
fn put_one(
    map: &PageMap,
    key: Key,
    block: Block,
    pages: &mut BTreeMap<u32, Block>,
) -> Result<(), NoMemory>
    ensures { OnOk result (PutOne map.now key block.bytes pages.old.entries pages.new.entries) }
{
    match map.place(key) {
        Some(page) => put_block(pages, page, block),
        None => Ok(()),
    }
}

/// Puts the block of a page.
pub(crate) fn put_block(
    pages: &mut BTreeMap<u32, Block>,
    page: u32,
    block: Block,
) -> Result<(), NoMemory>
    ensures blocks { OnOk result ((p : ℕ) → block_at pages.new.entries p
        ≡ (if p == page then Some block.bytes else block_at pages.old.entries p)) }
    ensures count { OnOk result (length pages.new.entries ≤ length pages.old.entries + 1) }
    ensures more { OnOk result (block_at pages.old.entries page ≡ None
        → length pages.new.entries ≡ length pages.old.entries + 1) }
{
    match pages.insert(page, block) {
        Ok(_) => Ok(()),
        Err(_) => Err(NoMemory),
    }
}

/// Of each page that a change touches its block, where the records that it puts have their pages.
fn blocks(
    alloc: Global,
    map: &PageMap,
    put: &[(Key, Value)],
    gone: &[Key],
) -> Result<Vec<(u32, Block)>, NoMemory>
    ensures { IfOk result (λ pages. Blocks map.now put.now gone.now pages.items) }
{
    let mut pages = BTreeMap::new(alloc);
    put_blocks(map, put, &mut pages)?;
    gone_blocks(map, gone, &mut pages)?;
    listed(alloc, pages)
}

/// The blocks by their pages.
pub(crate) fn listed(
    alloc: Global,
    pages: BTreeMap<u32, Block>,
) -> Result<Vec<(u32, Block)>, NoMemory>
    ensures pages { IfOk result (λ list. list.items ≡ pages.entries) }
    ensures ascend { IfOk result (λ list. IsStrictlySortedBy nat_cmp
        (map_list page_number list.items)) }
{
    // `len` says that the pages ascend.
    let _ = pages.len();
    pages.into_iter().collect(alloc).map_err(|_| NoMemory)
}

/// Adds the records whose keys are new, and gives the pages that the whole change touches. Where
/// there is no memory the records and their pages stay.
#[tactic(auto, using(crate::proofs::Adding::adds_table))]
fn add_new(
    alloc: Global,
    map: &mut PageMap,
    left: &[(Key, Value)],
    put: &[(Key, Value)],
    gone: &[Key],
) -> Result<Vec<(u32, Block)>, NoMemory>
    requires table { IsPageTable map.old }
    ensures adds { OnOk result (AddsNew map.old map.new left.now) }
    ensures table { OnOk result (IsPageTable map.new) }
    ensures blocks { IfOk result (λ pages. Blocks map.new put.now gone.now pages.items) }
    ensures err { OnErr result (SameTable map.old map.new) }
{
    let [first, rest @ ..] = left else {
        return blocks(alloc, map, put, gone);
    };
    if map.place(first.0).is_some() {
        return add_new(alloc, map, rest, put, gone);
    }
    let value = first.1.copy()?;
    map.add(first.0, value)?;
    match add_new(alloc, map, rest, put, gone) {
        Ok(pages) => Ok(pages),
        Err(NoMemory) => {
            map.remove(first.0);
            Err(NoMemory)
        }
    }
}

/// Gives the keys of these records, which are all there, their values. Of two with one key the
/// later counts.
fn set_all(map: &mut PageMap, values: &mut Vec<(Key, Value)>)
    requires there { (k : FormatKey) → is_put values.old.items k ≡ true
        → is_some (place_at map.old.places k) ≡ true }
    ensures { SetsAll map.old map.new values.old.items }
{
    let Some(last) = values.pop() else {
        return;
    };
    set_all(map, values);
    map.set(last.0, last.1);
}

/// Takes the records of these keys away.
fn remove_all(map: &mut PageMap, gone: &[Key])
    ensures { RemovesAll map.old map.new gone.now }
{
    let [first, rest @ ..] = gone else {
        return;
    };
    map.remove(*first);
    remove_all(map, rest);
}

/// Applies a change, and gives the pages that change, by number, each with what stands on it then.
/// Full, with nothing changed, exactly where more records are new than there is room for. All
/// memory is taken before anything changes, and without it nothing does. The calls nest as deep as
/// the change is long, so more records than a commit takes are given in parts.
pub fn apply(
    alloc: Global,
    map: &mut PageMap,
    put: &[(Key, Value)],
    gone: &[Key],
) -> Result<Vec<(u32, Block)>, PageError>
    ensures applies { IfOk result (λ pages. Applies map.old map.new put.now gone.now pages.items) }
    ensures room { OnOk result (new_in map.old put.now ≤ room map.old) }
    ensures full { IfErr result (IsCause map.old put.now) }
    ensures err { OnErr result (SameTable map.old map.new) }
{
    let need = count_new(alloc, map, put)?;
    let free = map.room();
    if need > free {
        return Err(PageError::Full { need, free });
    }
    let pages = change(alloc, map, put, gone)?;
    Ok(pages)
}

/// Applies a change for which there is room.
fn change(
    alloc: Global,
    map: &mut PageMap,
    put: &[(Key, Value)],
    gone: &[Key],
) -> Result<Vec<(u32, Block)>, NoMemory>
    requires table { IsPageTable map.old }
    ensures applies { IfOk result (λ pages. Applies map.old map.new put.now gone.now pages.items) }
    ensures err { OnErr result (SameTable map.old map.new) }
{
    let mut values = copies(alloc, put)?;
    let pages = add_new(alloc, map, put, put, gone)?;
    set_all(map, &mut values);
    remove_all(map, gone);
    Ok(pages)
}
