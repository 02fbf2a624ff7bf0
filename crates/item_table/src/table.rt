//! A table by key.

ghost use Rattle.std.specs.Prelude.{◌≡◌, [], length, map, IfOk, IfSome, IsTrue, None, OnErr, OnOk, Some, if◌then◌else◌, List as Items};
ghost use Rattle.std.specs.Bool.{OnFalse, OnTrue};
ghost use Rattle.std.specs.BTreeMap.{is_at};
ghost use Rattle.std.specs.Option.{option_copied};
ghost use Rattle.asm_base.specs.asm_formats.Items.{is_item};
ghost use Rattle.asm_base.specs.asm_formats.Values.{decoded_item};
ghost use Rattle.asm_base.specs.Records.{ends_below, of_kinds, read_from};

use crate::listed::Listed;
use asm_base::{Key, NoMemory, Records, Value};
use std::alloc::Global;
use std::collections::BTreeMap;
use std::collections::btree_map::{Iter, Range};
use std::marker::Model;

/// What is kept by key. Contracts see the list of it in the order of the keys.
#[derive(Drop)]
pub struct KeyTable<K: Ord + Copy + Drop, T: Listed<K>> {
    pub(crate) map: BTreeMap<K, T>,
}

impl<K: Ord + Copy + Drop, T: Listed<K>> Model for KeyTable<K, T> {
    ghost use Rattle.std.specs.Prelude.{List as Items};
    ghost use Rattle.item_table.specs.Tables.{IsTable};

    ghost Value = { Items (K × T) };

    ghost view = { λ t. t.map.entries };

    ghost invariant = { λ t. IsTable K.cmp T.item_of t.map.entries };
}

impl<K: Ord + Copy + Drop, T: Listed<K>> KeyTable<K, T> {
    ghost use Rattle.item_table.specs.Tables.{IsTable, add_record, at_key, bytes_at, from_key, has_key, is_key_before, record_of, with_key, without_key};

    pub fn new(alloc: Global) -> KeyTable<K, T>
        ensures { result ≡ [] }
    {
        KeyTable {
            map: BTreeMap::new(alloc),
        }
    }

    /// What is kept at a key.
    pub fn get(&self, key: K) -> Option<&T>
        ensures kept { option_copied result ≡ at_key K.cmp self.now key }
        ensures table { IsTable K.cmp T.item_of self.now }
    {
        self.map.get(&key)
    }

    /// All that is kept, in the order of the keys.
    pub fn iter(&self) -> Iter<'_, K, T>
        ensures { result ≡ self.now }
    {
        self.map.iter()
    }

    /// What is kept at the keys from this one on, whether it is there or not, in the order of the
    /// keys. Those before it are passed over by their keys.
    pub fn iter_from(&self, key: K) -> Range<'_, K, T>
        ensures { result ≡ from_key K.cmp self.now key }
    {
        self.map.range(key..)
    }

    /// How many keys there are.
    pub fn len(&self) -> usize
        ensures { result ≡ length self.now }
    {
        self.map.len()
    }

    /// Keeps this at a key. Where there is no memory the table stays.
    pub fn put(&mut self, key: K, kept: T) -> Result<(), NoMemory>
        requires { IsTrue (is_item (T.item_of (key, kept))) }
        ensures ok { OnOk result (self.new ≡ with_key K.cmp self.old key kept) }
        // Other keys keep what they have.
        ensures at { OnOk result ((k : K) → at_key K.cmp self.new k
            ≡ (if is_at (K.cmp key) k then Some kept else at_key K.cmp self.old k)) }
        ensures err { OnErr result (self.new ≡ self.old) }
    {
        match self.map.insert(key, kept) {
            Ok(_) => Ok(()),
            Err(_) => Err(NoMemory),
        }
    }

    /// Takes a key away, and tells whether it was there.
    pub fn remove(&mut self, key: K) -> bool
        ensures there { result ≡ has_key K.cmp self.old key }
        ensures after { self.new ≡ without_key K.cmp self.old key }
        ensures at { (k : K) → at_key K.cmp self.new k
            ≡ (if is_at (K.cmp key) k then None else at_key K.cmp self.old k) }
    {
        self.map.remove(&key).is_some()
    }

    /// Keeps at the key of a record what its value says. `false`, with the table as it was, where
    /// the value says nothing of the kind. Where there is no memory the table stays.
    pub fn put_record(&mut self, alloc: Global, key: Key, value: &Value) -> Result<bool, NoMemory>
        requires { IsTrue (T.is_mine key) }
        ensures put { IfOk result (λ put. OnTrue put ((k : K) → bytes_at K.cmp T.item_of self.new k
            ≡ (if is_at (K.cmp (T.place_of key)) k then Some value.now else bytes_at K.cmp T.item_of self.old k))) }
        ensures refused { IfOk result (λ put. OnFalse put (decoded_item key value.now ≡ None)) }
        ensures stays { IfOk result (λ put. OnFalse put (self.new ≡ self.old)) }
        ensures err { OnErr result (self.new ≡ self.old) }
    {
        let Some(kept) = T::in_record(alloc, key, value)? else {
            return Ok(false);
        };
        self.put(T::place_of(key), kept)?;
        Ok(true)
    }

    /// Takes the record of a key away, where it is there.
    #[tactic(auto, using(crate::proofs::Laws::record_gone))]
    pub fn remove_record(&mut self, key: K)
        ensures { (k : K) → bytes_at K.cmp T.item_of self.new k
            ≡ (if is_at (K.cmp key) k then None else bytes_at K.cmp T.item_of self.old k) }
    {
        let _ = self.remove(key);
    }

    /// An equal table.
    #[tactic(auto, using(crate::proofs::Laws::copied))]
    pub fn copy(&self, alloc: Global) -> Result<KeyTable<K, T>, NoMemory>
        ensures { IfOk result (λ copy. copy ≡ self.now) }
    {
        let mut copy = KeyTable::new(alloc);
        for (key, kept) in self.map.iter() {
            copy.put(*key, kept.copied(alloc)?)?;
        }
        Ok(copy)
    }

    /// The table whose records these are, or None where one of its kinds isn't of the format.
    pub fn from_records(
        alloc: Global,
        records: &Records,
    ) -> Result<Option<KeyTable<K, T>>, NoMemory>
        // What is read is a table that has these records.
        ensures found { IfOk result (λ read. IfSome read
            (λ t. IsTable K.cmp T.item_of t
            × (of_kinds T.is_mine records.now ≡ map (record_of T.item_of) t))) }
        // A table that has these records is read.
        ensures only { IfOk result (λ read. (t : Items (K × T)) → IsTable K.cmp T.item_of t
            → of_kinds T.is_mine records.now ≡ map (record_of T.item_of) t → read ≡ Some t) }
    {
        KeyTable::read(alloc, records)
    }

    #[tactic(auto, using(asm_base::proofs::Tables::read_taken, asm_base::proofs::Tables::read_refused), unfolding(asm_base::specs::Records::read_from))]
    fn read(alloc: Global, records: &Records) -> Result<Option<KeyTable<K, T>>, NoMemory>
        ensures { IfOk result (λ read. read
            ≡ read_from T.is_mine (add_record K.cmp T.entry_of) [] records.now) }
    {
        let mut table = KeyTable::new(alloc);
        for (key, value) in records.iter() {
            if !table.take_up(alloc, *key, value)? {
                return Ok(None);
            }
        }
        Ok(Some(table))
    }

    /// Takes up one record more, or passes over one of another kind. `false` where it doesn't
    /// follow.
    fn take_up(&mut self, alloc: Global, key: Key, value: &Value) -> Result<bool, NoMemory>
        ensures { IfOk result (λ taken. (if T.is_mine key then add_record K.cmp T.entry_of self.old (key, value.now) else Some self.old)
            ≡ (if taken then Some self.new else None)) }
    {
        if !T::is_mine(key) {
            return Ok(true);
        }
        let Some(kept) = T::in_record(alloc, key, value)? else {
            return Ok(false);
        };
        let place = T::place_of(key);
        if !self.ends_before(place) {
            return Ok(false);
        }
        self.put(place, kept)?;
        Ok(true)
    }

    /// Whether a key comes behind the last one.
    fn ends_before(&self, key: K) -> bool
        ensures ends { result ≡ ends_below (is_key_before K.cmp) self.now key }
        ensures table { IsTable K.cmp T.item_of self.now }
    {
        match self.map.last_key_value() {
            None => true,
            Some((last, _)) => last.cmp(&key).is_lt(),
        }
    }
}
