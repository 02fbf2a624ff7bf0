//! The records, and the pages on which they stand.

ghost use Rattle.std.specs.Prelude.{◌≡◌, ◌<◌, ◌≤◌, ◌+◌, ◌==◌, ℕ, true, false, length, IfOk, OnErr, OnOk, Some, None, is_some, if◌then◌else◌};
ghost use Rattle.std.specs.Option.{option_copied};
ghost use Rattle.asm_formats.specs.Items.{Key as FormatKey};
ghost use Rattle.allocator.specs.asm_base.Records.{is_key, record_at};
ghost use Rattle.page_map.specs.Tables.{place_at};

use crate::free::FreePages;
use allocator::{Key, NoMemory, PENDING_KEY, REBALANCE_KEY, Records, Value};
use std::alloc::Global;
use std::collections::BTreeMap;
use std::collections::btree_map::Iter;
use std::marker::Model;

/// The records of a group's directories by key, and of each the page on which it stands.
#[derive(Drop)]
pub struct PageMap {
    records: Records,
    places: BTreeMap<Key, u32>,
    free: FreePages,
}

impl Model for PageMap {
    ghost use Rattle.page_map.specs.Tables.{PageTable, IsPageTable};

    ghost Value = { PageTable };

    ghost view = { λ m. record { records = m.records; places = m.places.entries; free = m.free } };

    ghost invariant = { λ m. IsPageTable (record { records = m.records; places = m.places.entries; free = m.free }) };
}

impl PageMap {
    ghost use Rattle.page_map.specs.Free.{is_page_free, IsLeastFreePage};
    ghost use Rattle.std.specs.List.Sorted.{IsStrictlySortedBy};
    ghost use Rattle.std.specs.Prelude.{map};
    ghost use Rattle.allocator.specs.asm_base.Records.{key_cmp};
    ghost use Rattle.page_map.specs.Listing.{key_of_place};
    ghost use Rattle.page_map.specs.Tables.{IsPageTable, SameTable, Adds, Removes, room};
    ghost use Rattle.page_map.specs.Loaded.{AddsAt};

    /// No records, and so many pages.
    pub fn new(alloc: Global, pages: u32) -> Result<PageMap, NoMemory>
        requires { pages ≤ 16384 }
        ensures records { IfOk result (λ m. (k : FormatKey) → record_at m.records k ≡ None) }
        ensures free { IfOk result (λ m. (page : ℕ) → page < pages
            → is_page_free m.free page ≡ true) }
        ensures count { IfOk result (λ m. m.free.units ≡ pages) }
    {
        let free = FreePages::new(alloc, pages)?;
        Ok(PageMap {
            records: Records::new(alloc),
            places: BTreeMap::new(alloc),
            free,
        })
    }

    /// The records by key.
    pub fn records(&self) -> &Records
        ensures { result.now ≡ self.now.records }
    {
        &self.records
    }

    /// The page of a key.
    pub fn place(&self, key: Key) -> Option<u32>
        ensures page { result ≡ place_at self.now.places key }
        ensures table { IsPageTable self.now }
    {
        self.places.get(&key).copied()
    }

    /// The keys in their order, each with its page.
    pub(crate) fn places(&self) -> Iter<'_, Key, u32>
        ensures places { result ≡ self.now.places }
        ensures ordered { IsStrictlySortedBy key_cmp (map key_of_place self.now.places) }
        ensures table { IsPageTable self.now }
    {
        self.places.iter()
    }

    /// The pages that are left for other records than the active rebalance and the pending
    /// operation.
    pub fn room(&self) -> u64
        ensures room { result ≡ room self.now }
        ensures table { IsPageTable self.now }
        // No key has two pages.
        ensures ordered { IsStrictlySortedBy key_cmp (map key_of_place self.now.places) }
    {
        let rebalance = self.place(REBALANCE_KEY).is_some();
        let pending = self.place(PENDING_KEY).is_some();
        let kept = rebalance as u64 + pending as u64;
        let used = (self.places.len() as u64).saturating_sub(kept);
        (self.free.count() as u64)
            .saturating_sub(2)
            .saturating_sub(used)
    }

    /// Puts a new record on the least free page.
    pub(crate) fn add(&mut self, key: Key, value: Value) -> Result<(), NoMemory>
        requires absent { place_at self.old.places key ≡ None }
        ensures ok { OnOk result (Adds self.old self.new key value) }
        ensures err { OnErr result (SameTable self.old self.new) }
    {
        let Some(page) = self.free.take() else {
            return Err(NoMemory);
        };
        match insert_both(&mut self.records, &mut self.places, key, page, value) {
            Ok(()) => Ok(()),
            Err(NoMemory) => {
                self.free.give(page);
                Err(NoMemory)
            }
        }
    }

    /// Puts a new record on a page that is free.
    pub(crate) fn add_at(&mut self, key: Key, value: Value, page: u32) -> Result<(), NoMemory>
        requires absent { place_at self.old.places key ≡ None }
        requires free { is_page_free self.old.free page ≡ true }
        ensures { OnOk result (AddsAt self.old self.new key value page) }
    {
        insert_both(&mut self.records, &mut self.places, key, page, value)?;
        self.free.mark(page);
        Ok(())
    }

    /// Gives a key that is there another value.
    pub(crate) fn set(&mut self, key: Key, value: Value)
        requires there { is_some (place_at self.old.places key) ≡ true }
        ensures records { (k : FormatKey) → record_at self.new.records k
            ≡ (if is_key key k then Some value else record_at self.old.records k) }
        ensures places { self.new.places ≡ self.old.places }
        ensures free { self.new.free ≡ self.old.free }
    {
        match self.records.insert(key, value) {
            Ok(()) => {}
            Err(NoMemory) => unreachable!(),
        }
    }

    /// Takes a record away, where it is there, and frees its page.
    pub(crate) fn remove(&mut self, key: Key)
        ensures { Removes self.old self.new key }
    {
        let Some(page) = self.places.remove(&key) else {
            return;
        };
        self.records.remove(key);
        self.free.give(page);
    }
}

/// Gives a key a value and a page. Where there is no memory both maps stay.
fn insert_both(
    records: &mut Records,
    places: &mut BTreeMap<Key, u32>,
    key: Key,
    page: u32,
    value: Value,
) -> Result<(), NoMemory>
    ensures record { OnOk result ((k : FormatKey)
        → record_at records.new k ≡ (if is_key key k then Some value
        else record_at records.old k)) }
    ensures place { OnOk result ((k : FormatKey)
        → place_at places.new.entries k
        ≡ (if is_key key k then Some page else place_at places.old.entries k)) }
    ensures count { OnOk result (place_at places.old.entries key ≡ None
        → length places.new.entries ≡ length places.old.entries + 1) }
    ensures records { OnErr result (records.new ≡ records.old) }
    ensures places { OnErr result (place_at places.old.entries key ≡ None → (k : FormatKey)
        → place_at places.new.entries k ≡ place_at places.old.entries k) }
    ensures length { OnErr result (place_at places.old.entries key ≡ None
        → length places.new.entries ≡ length places.old.entries) }
{
    let Ok(_) = places.insert(key, page) else {
        return Err(NoMemory);
    };
    match records.insert(key, value) {
        Ok(()) => Ok(()),
        Err(NoMemory) => {
            let _ = places.remove(&key);
            Err(NoMemory)
        }
    }
}
