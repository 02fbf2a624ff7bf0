//! The records of a table.

ghost use Rattle.std.specs.Prelude.{◌≡◌, ◌++◌, map, IfOk, IsTrue, OnOk};
ghost use Rattle.asm_base.specs.asm_formats.Items.{is_item};
ghost use Rattle.item_table.specs.Tables.{record_of};

use crate::listed::Listed;
use crate::table::KeyTable;
use asm_base::{Change, Key, NoMemory, Value};
use std::alloc::Global;

/// What can be written as the record that says it.
pub trait Recorded<K: Ord + Copy>: Listed<K> {
    /// The record of what is kept at a key.
    fn to_record(&self, alloc: Global, key: K) -> Result<(Key, Value), NoMemory>
        requires { IsTrue (is_item (Self.item_of (key, self.now))) }
        ensures { IfOk result (λ made. made ≡ record_of Self.item_of (key, self.now)) };
}

impl<K: Ord + Copy + Drop, T: Recorded<K>> KeyTable<K, T> {
    /// Puts the table's records into a change. After an `Err` some of them may stand there.
    pub fn to_records(&self, alloc: Global, change: &mut Change) -> Result<(), NoMemory>
        ensures put { OnOk result (change.new.put
            ≡ change.old.put ++ map (record_of T.item_of) self.now) }
        ensures gone { change.new.gone ≡ change.old.gone }
    {
        for (key, kept) in self.map.iter() {
            change.put.push(kept.to_record(alloc, *key)?)?;
        }
        Ok(())
    }
}
