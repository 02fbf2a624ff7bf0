//! Changes of a few records, and copies of changes.

ghost use Rattle.std.specs.Prelude.{◌≡◌, ◌∷◌, [], IfOk};

use asm_base::{Change, Key, List, NoMemory, Value};
use std::alloc::Global;

/// A change that puts one record.
pub fn one_put(alloc: Global, entry: (Key, Value)) -> Result<Change, NoMemory>
    ensures put { IfOk result (λ change. change.put ≡ entry ∷ []) }
    ensures gone { IfOk result (λ change. change.gone ≡ []) }
{
    let mut put = List::new(alloc);
    put.push(entry)?;
    Ok(Change {
        put,
        gone: List::new(alloc),
    })
}

/// A change that puts two records.
pub fn two_put(alloc: Global, first: (Key, Value), second: (Key, Value)) -> Result<Change, NoMemory>
    ensures put { IfOk result (λ change. change.put ≡ first ∷ second ∷ []) }
    ensures gone { IfOk result (λ change. change.gone ≡ []) }
{
    let mut put = List::new(alloc);
    put.push(first)?;
    put.push(second)?;
    Ok(Change {
        put,
        gone: List::new(alloc),
    })
}

/// A change by which the records of two keys go.
pub fn two_gone(alloc: Global, first: Key, second: Key) -> Result<Change, NoMemory>
    ensures put { IfOk result (λ change. change.put ≡ []) }
    ensures gone { IfOk result (λ change. change.gone ≡ first ∷ second ∷ []) }
{
    let mut gone = List::new(alloc);
    gone.push(first)?;
    gone.push(second)?;
    Ok(Change {
        put: List::new(alloc),
        gone,
    })
}

/// A change by which the record of one key goes.
pub fn one_gone(alloc: Global, key: Key) -> Result<Change, NoMemory>
    ensures put { IfOk result (λ change. change.put ≡ []) }
    ensures gone { IfOk result (λ change. change.gone ≡ key ∷ []) }
{
    let mut gone = List::new(alloc);
    gone.push(key)?;
    Ok(Change {
        put: List::new(alloc),
        gone,
    })
}

/// A change that puts one record, and by which another key goes.
pub fn put_and_gone(alloc: Global, entry: (Key, Value), key: Key) -> Result<Change, NoMemory>
    ensures put { IfOk result (λ change. change.put ≡ entry ∷ []) }
    ensures gone { IfOk result (λ change. change.gone ≡ key ∷ []) }
{
    let mut put = List::new(alloc);
    put.push(entry)?;
    let mut gone = List::new(alloc);
    gone.push(key)?;
    Ok(Change { put, gone })
}

/// An equal change, with all its records copied.
pub fn change_copied(alloc: Global, change: &Change) -> Result<Change, NoMemory>
    ensures put { IfOk result (λ copy. copy.put ≡ change.now.put) }
    ensures gone { IfOk result (λ copy. copy.gone ≡ change.now.gone) }
{
    Ok(Change {
        put: records_copied(alloc, change.put.as_slice())?,
        gone: keys_copied(alloc, change.gone.as_slice())?,
    })
}

fn records_copied(alloc: Global, records: &[(Key, Value)]) -> Result<List<(Key, Value)>, NoMemory>
    ensures { IfOk result (λ copies. copies ≡ records.now) }
{
    let mut copies = List::new(alloc);
    for (key, value) in records {
        copies.push((*key, value.copy()?))?;
    }
    Ok(copies)
}

fn keys_copied(alloc: Global, keys: &[Key]) -> Result<List<Key>, NoMemory>
    ensures { IfOk result (λ copies. copies ≡ keys.now) }
{
    let mut copies = List::new(alloc);
    for key in keys {
        copies.push(*key)?;
    }
    Ok(copies)
}
