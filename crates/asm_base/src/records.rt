//! Directory records: a map of keys to values, and changes of it.

ghost use Rattle.std.specs.Prelude.{◌≡◌, ◌≤◌, [], length, if◌then◌else◌, IfOk, None, OnErr, OnOk, Some};
ghost use Rattle.std.specs.Option.{option_copied};
ghost use Rattle.asm_base.specs.Cursors.{written_bytes};

use crate::cursor::Writer;
use crate::kinds::NoMemory;
use crate::list::List;
use crate::record_kind;
use std::alloc::Global;
use std::collections::BTreeMap;
use std::collections::btree_map::Iter;
use std::marker::Model;

/// The key of a record. Keys go by kind, and then by their two numbers.
#[derive(Clone, Copy, Debug, PartialEq, Eq, PartialOrd, Ord)]
pub struct Key {
    pub kind: u16,
    pub a: u32,
    pub b: u32,
}

/// The key of the active rebalance.
pub const REBALANCE_KEY: Key = Key {
    kind: record_kind::OPERATIONS,
    a: 0,
    b: 0,
};

/// The key of the pending operation.
pub const PENDING_KEY: Key = Key {
    kind: record_kind::OPERATIONS,
    a: 1,
    b: 0,
};

/// The key of the templates.
pub const TEMPLATES_KEY: Key = Key {
    kind: record_kind::TEMPLATES,
    a: 0,
    b: 0,
};

/// The key of the settings.
pub const SETTINGS_KEY: Key = Key {
    kind: record_kind::SETTINGS,
    a: 0,
    b: 0,
};

impl Model for Key {
    ghost use Rattle.asm_formats.specs.Items.{Key as FormatKey};

    ghost Value = { FormatKey };

    ghost view = { λ k. record { kind = k.kind; a = k.a; b = k.b } };

    ghost inverse = { λ k. record { kind = k.kind; a = k.a; b = k.b } };
}

/// The value of a record: at most 4,064 bytes.
#[derive(Debug, Drop)]
pub struct Value {
    bytes: Vec<u8>,
}

impl Model for Value {
    ghost use Rattle.std.specs.Prelude.{◌≤◌, List as Items, ℕ, length};

    ghost Value = { Items ℕ };

    ghost view = { λ v. v.bytes.items };

    ghost invariant = { λ v. length v.bytes.items ≤ 4064 };
}

impl Value {
    pub fn from_slice(alloc: Global, bytes: &[u8]) -> Result<Value, NoMemory>
        requires { length bytes.now ≤ 4064 }
        ensures { IfOk result (λ v. v ≡ bytes.now) }
    {
        let bytes = Vec::from_slice(alloc, bytes).map_err(|_| NoMemory)?;
        Ok(Value { bytes })
    }

    /// The bytes that a writer has put.
    pub fn from_writer(alloc: Global, from: &Writer) -> Result<Value, NoMemory>
        requires { from.now.at ≤ 4064 }
        ensures { IfOk result (λ v. v ≡ written_bytes from.now) }
    {
        let block = &*from.block;
        Value::from_slice(alloc, &block.bytes[..from.at as usize])
    }

    pub fn as_bytes(&self) -> &[u8]
        ensures bytes { result.now ≡ self.now }
        ensures few { length self.now ≤ 4064 }
    {
        &self.bytes
    }

    pub fn copy(&self) -> Result<Value, NoMemory>
        ensures { IfOk result (λ v. v ≡ self.now) }
    {
        Value::from_slice(*self.bytes.allocator(), &self.bytes)
    }
}

/// What changes: the records that are put, and the keys whose records go.
#[derive(Debug, Drop)]
pub struct Change {
    pub put: List<(Key, Value)>,
    pub gone: List<Key>,
}

/// Records by key. Contracts see the list of them in the order of their keys.
#[derive(Drop)]
pub struct Records {
    map: BTreeMap<Key, Value>,
}

impl Model for Records {
    ghost use Rattle.std.specs.Prelude.{List as Items, ℕ};
    ghost use Rattle.asm_formats.specs.Items.{Key};

    ghost Value = { Items (Key × Items ℕ) };

    ghost view = { λ r. r.map.entries };
}

impl Records {
    ghost use Rattle.asm_formats.specs.Items.{Key as FormatKey};
    ghost use Rattle.std.specs.List.Sorted.{IsStrictlySortedBy};
    ghost use Rattle.asm_base.specs.Records.{is_key, key_cmp, keys_of, record_at, with_record, without_record};

    pub fn new(alloc: Global) -> Records
        ensures { result ≡ [] }
    {
        Records {
            map: BTreeMap::new(alloc),
        }
    }

    pub fn get(&self, key: Key) -> Option<&Value>
        ensures { option_copied result ≡ record_at self.now key }
    {
        self.map.get(&key)
    }

    pub fn insert(&mut self, key: Key, value: Value) -> Result<(), NoMemory>
        ensures ok { OnOk result (self.new ≡ with_record self.old key value) }
        ensures err { OnErr result (self.new ≡ self.old) }
        // Other keys keep their values. Only a new key can fail.
        ensures updates { OnOk result ((k : FormatKey)
            → record_at self.new k ≡ (if is_key key k then Some value else record_at self.old k)) }
        ensures absent { OnErr result (record_at self.old key ≡ None) }
    {
        match self.map.insert(key, value) {
            Ok(_) => Ok(()),
            Err(_) => Err(NoMemory),
        }
    }

    pub fn remove(&mut self, key: Key)
        ensures after { self.new ≡ without_record self.old key }
        ensures updates { (k : FormatKey) → record_at self.new k
            ≡ (if is_key key k then None else record_at self.old k) }
    {
        let _ = self.map.remove(&key);
    }

    /// The records in the order of their keys.
    pub fn iter(&self) -> Iter<'_, Key, Value>
        ensures all { result ≡ self.now }
        // Each key is below those behind it.
        ensures ordered { IsStrictlySortedBy key_cmp (keys_of self.now) }
    {
        self.map.iter()
    }
}
