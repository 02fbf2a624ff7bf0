// What the tables are given: values and records. None stands for what isn't one, or for want of
// memory. What owns much is dropped by a call in one place, since what goes in place is proved in
// place.
use asm_base::{Change, Key, List, Records, Value};
use std::alloc::Global;

pub fn value(alloc: Global, bytes: &[u8]) -> Option<Value> {
    if bytes.len() <= 4064 {
        Value::from_slice(alloc, bytes).ok()
    } else {
        None
    }
}

pub fn no_change(alloc: Global) -> Change {
    Change {
        put: List::new(alloc),
        gone: List::new(alloc),
    }
}

/// Puts the record of a key with these bytes.
pub fn put(alloc: Global, records: &mut Records, key: Key, bytes: &[u8]) -> Option<()> {
    match value(alloc, bytes) {
        Some(value) => records.insert(key, value).ok(),
        None => None,
    }
}

/// Puts the records that a change puts, but those of a kind.
pub fn put_all_but(records: &mut Records, change: Change, left_out: u16) -> Option<()> {
    for (key, value) in change.put.into_vec() {
        if key.kind != left_out {
            records.insert(key, value).ok()?;
        }
    }
    Some(())
}
