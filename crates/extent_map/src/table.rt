//! The table of extents.

ghost use Rattle.std.specs.Prelude.{◌≡◌, ◌++◌, ◌+◌, ◌<◌, ◌≤◌, ◌^◌, ◌/◌, ◌%◌, [], List as Items, length, map, replicate, slice_set, IfOk, IfSome, IsTrue, OnErr, OnOk, Some, None, if◌then◌else◌};
ghost use Rattle.std.specs.Bool.{OnFalse, OnTrue};
ghost use Rattle.std.specs.BTreeMap.{is_at};
ghost use Rattle.std.specs.Option.{is_some, option_copied, option_map};
ghost use Rattle.std.specs.List.{AllByRecursion};
ghost use Rattle.asm_base.specs.Records.{Ascend, ends_below, of_kinds, read_from};

use crate::chunk::{ABSENT, Chunk, has_home};
use crate::reading::chunk_in;
use crate::rule::{opened, stands_at};
use crate::writing::chunk_record;
use asm_base::{Change, ExtentId, Homes, Key, NoMemory, Records, Value, record_kind};
use std::alloc::Global;
use std::collections::BTreeMap;
use std::collections::btree_map::{Iter, Range};
use std::marker::Model;

/// The homes of the extents of each file. Contracts see the list of the chunks of 256 extents, in
/// the order of file and chunk; an extent that isn't there has no home. A chunk takes 9 KB of
/// memory.
#[derive(Drop)]
pub struct ExtentMap {
    alloc: Global,
    map: BTreeMap<(u32, u32), Chunk>,
}

impl Model for ExtentMap {
    ghost use Rattle.std.specs.Prelude.{List as Items, ℕ};
    ghost use Rattle.asm_formats.specs.Items.{Homes};

    ghost Value = { Items ((ℕ × ℕ) × Items Homes) };

    ghost view = { λ t. t.map.entries };
}

impl ExtentMap {
    ghost use Rattle.extent_map.specs.Changing.{AreChunks, chunk_value_at};
    ghost use Rattle.extent_map.specs.Extents.{absent_homes, Chunked, IsNumbered, IsExtentTable, add_chunk_record, chunk_at, chunks_from, extent_at, has_extent, has_no_gap, is_chunk, record_of_chunk, with_chunk, with_extent, with_homes, without_chunk, without_extent, without_gap};
    ghost use Rattle.asm_base.specs.Chunks.{Chunk as Place, chunk_cmp, is_chunk_before};

    pub fn new(alloc: Global) -> ExtentMap
        ensures { result ≡ [] }
    {
        ExtentMap {
            alloc,
            map: BTreeMap::new(alloc),
        }
    }

    /// The homes of an extent, or None where it isn't there.
    pub fn get(&self, key: ExtentId) -> Option<&Homes>
        ensures { option_copied result ≡ extent_at self.now key.file key.index }
    {
        let chunk = self.map.get(&(key.file, key.index / 256))?;
        let homes = chunk.get((key.index % 256) as u8);
        if has_home(homes) { Some(homes) } else { None }
    }

    /// Whether a file has an extent.
    pub(crate) fn has(&self, file: u32, index: u64) -> bool
        requires { index / 256 < 2 ^ 32 }
        ensures { result ≡ has_extent self.now file index }
    {
        match self.map.get(&(file, (index / 256) as u32)) {
            Some(chunk) => has_home(chunk.get((index % 256) as u8)),
            None => false,
        }
    }

    /// The homes of a chunk's 256 extents.
    pub fn chunk(&self, file: u32, chunk: u32) -> Option<&[Homes]>
        ensures { option_copied result ≡ chunk_at self.now (file, chunk) }
    {
        let chunk = self.map.get(&(file, chunk))?;
        Some(chunk.as_slice())
    }

    /// A copy of a chunk, or None where it isn't there.
    pub fn copy_chunk(
        &self,
        alloc: Global,
        file: u32,
        chunk: u32,
    ) -> Result<Option<Chunk>, NoMemory>
        ensures { IfOk result (λ copy. copy ≡ chunk_at self.now (file, chunk)) }
    {
        match self.map.get(&(file, chunk)) {
            None => Ok(None),
            Some(chunk) => Ok(Some(chunk.copy(alloc)?)),
        }
    }

    /// The chunks in the order of file and number.
    pub fn iter(&self) -> Iter<'_, (u32, u32), Chunk>
        ensures { result ≡ self.now }
    {
        self.map.iter()
    }

    /// The chunks from this one on, whether it is there or not, in the order of file and number.
    /// Those before it are passed over by their keys.
    pub fn iter_from(&self, chunk: (u32, u32)) -> Range<'_, (u32, u32), Chunk>
        ensures { result ≡ chunks_from self.now chunk }
    {
        self.map.range(chunk..)
    }

    /// How many chunks there are.
    pub fn len(&self) -> usize
        ensures { result ≡ length self.now }
    {
        self.map.len()
    }

    /// The homes of an extent by any index, or None where it isn't there.
    pub fn at(&self, file: u32, index: u64) -> Option<&Homes>
        requires { index / 256 < 2 ^ 32 }
        ensures { option_copied result ≡ extent_at self.now file index }
    {
        let chunk = self.map.get(&(file, (index / 256) as u32))?;
        let homes = chunk.get((index % 256) as u8);
        if has_home(homes) { Some(homes) } else { None }
    }

    /// Puts the homes of an extent, with its chunk where that isn't there. Where there is no memory
    /// the table stays.
    #[tactic(auto, using(crate::proofs::Laws::put_keeps_table))]
    pub fn put(&mut self, key: ExtentId, item: Homes) -> Result<(), NoMemory>
        requires { IsExtentTable (with_extent self.old key.file key.index item) }
        ensures ok { OnOk result (self.new ≡ with_extent self.old key.file key.index item) }
        ensures err { OnErr result (self.new ≡ self.old) }
        ensures table { IsExtentTable self.old → IsExtentTable self.new }
    {
        self.put_homes(key, item)
    }

    fn put_homes(&mut self, key: ExtentId, item: Homes) -> Result<(), NoMemory>
        ensures ok { OnOk result (self.new ≡ with_extent self.old key.file key.index item) }
        ensures err { OnErr result (self.new ≡ self.old) }
    {
        let at = (key.file, key.index / 256);
        let place = (key.index % 256) as u8;
        if self.set(at, place, item) {
            return Ok(());
        }
        self.put_new(at, place, item)
    }

    /// Puts an extent in a chunk that isn't there yet.
    fn put_new(&mut self, at: (u32, u32), place: u8, homes: Homes) -> Result<(), NoMemory>
        ensures ok { OnOk result (self.new ≡ with_chunk self.old at
            (slice_set (replicate 256 absent_homes) place homes)) }
        ensures err { OnErr result (self.new ≡ self.old) }
    {
        let mut chunk = Chunk::blank(self.alloc)?;
        chunk.set(place, homes);
        self.insert(at, chunk)
    }

    /// Takes an extent away, and tells whether it was there. Its chunk stays.
    pub fn remove(&mut self, key: ExtentId) -> bool
        requires { IsExtentTable (without_extent self.old key.file key.index) }
        ensures there { result ≡ is_some (extent_at self.old key.file key.index) }
        ensures after { self.new ≡ without_extent self.old key.file key.index }
        ensures table { IsExtentTable self.new }
    {
        let is_there = self.get(key).is_some();
        let _ = self.set((key.file, key.index / 256), (key.index % 256) as u8, ABSENT);
        is_there
    }

    /// Takes a chunk away, and tells whether it was there.
    pub fn remove_chunk(&mut self, file: u32, chunk: u32) -> bool
        requires { IsExtentTable (without_chunk self.old (file, chunk)) }
        ensures there { result ≡ is_some (chunk_at self.old (file, chunk)) }
        ensures after { self.new ≡ without_chunk self.old (file, chunk) }
        ensures table { IsExtentTable self.new }
    {
        self.map.remove(&(file, chunk)).is_some()
    }

    /// Sets an extent of a chunk, and tells whether the chunk is there.
    #[tactic(auto, using(crate::proofs::Laws::nothing_set))]
    fn set(&mut self, at: (u32, u32), place: u8, homes: Homes) -> bool
        ensures there { result ≡ is_some (chunk_at self.old at) }
        ensures after { self.new ≡ with_homes self.old at place homes }
        ensures missing { OnFalse result (self.new ≡ self.old) }
    {
        let Some(chunk) = self.map.get_mut(&at) else {
            return false;
        };
        chunk.set(place, homes);
        true
    }

    pub(crate) fn insert(&mut self, at: (u32, u32), chunk: Chunk) -> Result<(), NoMemory>
        ensures ok { OnOk result (self.new ≡ with_chunk self.old at chunk) }
        // Other chunks keep their extents.
        ensures at { OnOk result ((c : Place)
            → chunk_at self.new c ≡ (if is_at (chunk_cmp at) c then Some chunk
            else chunk_at self.old c)) }
        ensures err { OnErr result (self.new ≡ self.old) }
    {
        match self.map.insert(at, chunk) {
            Ok(_) => Ok(()),
            Err(_) => Err(NoMemory),
        }
    }

    #[tactic(auto, using(crate::proofs::ChangeLaws::record_gone))]
    pub(crate) fn take_away(&mut self, at: (u32, u32)) -> bool
        ensures there { result ≡ is_some (chunk_at self.old at) }
        ensures after { self.new ≡ without_chunk self.old at }
        ensures gone { (c : Place) → chunk_value_at self.new c
            ≡ (if is_at (chunk_cmp at) c then None else chunk_value_at self.old c) }
    {
        self.map.remove(&at).is_some()
    }

    /// An equal table.
    #[tactic(auto, using(crate::proofs::ChangeLaws::copied))]
    pub fn copy(&self, alloc: Global) -> Result<ExtentMap, NoMemory>
        requires { AreChunks self.now }
        ensures { IfOk result (λ copy. copy ≡ self.now) }
    {
        let mut copy = ExtentMap::new(alloc);
        for (at, chunk) in self.map.iter() {
            copy.insert(*at, chunk.copy(alloc)?)?;
        }
        Ok(copy)
    }

    /// The record of a chunk, or None where it isn't there.
    pub fn to_record(
        &self,
        alloc: Global,
        file: u32,
        chunk: u32,
    ) -> Result<Option<(Key, Value)>, NoMemory>
        requires { chunk + 1 < 2 ^ 32 }
        ensures { IfOk result (λ made. made
            ≡ option_map (λ homes. record_of_chunk ((file, chunk), homes))
            (chunk_at self.now (file, chunk))) }
    {
        let at = (file, chunk);
        match self.map.get(&at) {
            None => Ok(None),
            Some(chunk) => Ok(Some(chunk_record(alloc, at, chunk)?)),
        }
    }

    /// Puts the table's records into a change. After an `Err` some of them may stand there.
    #[tactic(auto, using(crate::proofs::Laws::table_numbered))]
    pub fn to_records(&self, alloc: Global, change: &mut Change) -> Result<(), NoMemory>
        requires { IsExtentTable self.now }
        ensures put { OnOk result (change.new.put
            ≡ change.old.put ++ map record_of_chunk self.now) }
        ensures gone { change.new.gone ≡ change.old.gone }
    {
        self.put_records(alloc, change)
    }

    fn put_records(&self, alloc: Global, change: &mut Change) -> Result<(), NoMemory>
        requires { AllByRecursion IsNumbered self.now }
        ensures put { OnOk result (change.new.put
            ≡ change.old.put ++ map record_of_chunk self.now) }
        ensures gone { change.new.gone ≡ change.old.gone }
    {
        for (at, chunk) in self.map.iter() {
            change.put.push(chunk_record(alloc, *at, chunk)?)?;
        }
        Ok(())
    }

    /// The table whose records these are, or None where a record of its kind isn't of the formats
    /// or the extents of a file have a gap. It takes time in proportion to the records, times the
    /// logarithm of their number.
    #[tactic(auto, using(crate::proofs::Laws::table_found, crate::proofs::Laws::table_again))]
    pub fn from_records(alloc: Global, records: &Records) -> Result<Option<ExtentMap>, NoMemory>
        // What is read is a table that has these records.
        ensures found { IfOk result (λ read. IfSome read
            (λ t. IsExtentTable t × (of_kinds is_chunk records.now ≡ map record_of_chunk t))) }
        // A table that has these records is read.
        ensures only { IfOk result (λ read. (t : Items Chunked) → IsExtentTable t
            → of_kinds is_chunk records.now ≡ map record_of_chunk t → read ≡ Some t) }
    {
        let read = ExtentMap::read_right(alloc, records)?;
        Ok(read)
    }

    fn read_right(alloc: Global, records: &Records) -> Result<Option<ExtentMap>, NoMemory>
        ensures { IfOk result (λ read. read
            ≡ without_gap (read_from is_chunk add_chunk_record [] records.now)) }
    {
        let Some(table) = ExtentMap::read(alloc, records)? else {
            return Ok(None);
        };
        if table.has_no_gap() {
            Ok(Some(table))
        } else {
            Ok(None)
        }
    }

    #[tactic(auto, using(asm_base::proofs::Tables::read_taken, asm_base::proofs::Tables::read_refused), unfolding(asm_base::specs::Records::read_from))]
    pub(crate) fn read(alloc: Global, records: &Records) -> Result<Option<ExtentMap>, NoMemory>
        ensures { IfOk result (λ read. read ≡ read_from is_chunk add_chunk_record [] records.now) }
    {
        let mut table = ExtentMap::new(alloc);
        for (key, value) in records.iter() {
            if !table.take_up(alloc, *key, value)? {
                return Ok(None);
            }
        }
        Ok(Some(table))
    }

    /// Takes up one record more, or passes over one of another kind. `false` where it doesn't
    /// follow.
    fn take_up(&mut self, alloc: Global, key: Key, value: &Value) -> Result<bool, NoMemory>
        requires { Ascend is_chunk_before self.old }
        ensures step { IfOk result (λ taken. (if is_chunk key
            then add_chunk_record self.old (key, value.now) else Some self.old)
            ≡ (if taken then Some self.new else None)) }
        ensures ascending { IfOk result (λ taken. OnTrue taken (Ascend is_chunk_before self.new)) }
    {
        if key.kind != record_kind::FILES || key.b == 0 {
            return Ok(true);
        }
        let at = (key.a, key.b - 1);
        let Some(chunk) = chunk_in(alloc, at.0, at.1, value.as_bytes())? else {
            return Ok(false);
        };
        if !self.ends_before(at) {
            return Ok(false);
        }
        self.insert(at, chunk)?;
        Ok(true)
    }

    /// Whether a chunk comes behind the last one.
    fn ends_before(&self, at: (u32, u32)) -> bool
        ensures { result ≡ ends_below is_chunk_before self.now at }
    {
        match self.map.last_key_value() {
            None => true,
            Some((last, _)) => last.cmp(&at).is_lt(),
        }
    }

    /// Whether the extents of each file are numbered from 0 without a gap.
    fn has_no_gap(&self) -> bool
        ensures { result ≡ has_no_gap None self.now }
    {
        let mut past = None;
        for (at, chunk) in self.map.iter() {
            if !stands_at(past, *at, chunk) {
                return false;
            }
            past = opened(*at, chunk);
        }
        true
    }
}
