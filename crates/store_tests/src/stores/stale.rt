// Records of stale marks, of which tests put many.
ghost use Rattle.std.specs.Prelude.{◌≡◌, ◌≤◌, ◌+◌, length, IfOk, IfSome, OnOk};
ghost use Rattle.directory_store.specs.Contents.{ArePutItems, IsPutItem};

use crate::stores::trials::no_change;
use asm_base::{Change, Key, NoMemory, Value};
use staleness_directory::{Marks, marks_record};
use std::alloc::Global;

/// The key of the marks of a chunk of file 1.
pub fn stale_key(chunk: u32) -> Key {
    Key {
        kind: 12,
        a: 1,
        b: chunk,
    }
}

/// The record of a chunk of file 1 whose 256 extents have the same mark. None where it isn't one of
/// the formats.
fn stale_record(alloc: Global, chunk: u32, mark: u8) -> Result<Option<(Key, Value)>, NoMemory>
    ensures { IfOk result (λ made. IfSome made IsPutItem) }
{
    let marks = Marks { bits: [mark; 256] };
    if !marks.is_allowed(1, chunk) {
        return Ok(None);
    }
    let made = marks_record(alloc, (1, chunk), &marks)?;
    Ok(Some(made))
}

/// Puts one such record more.
fn put_stale(alloc: Global, change: &mut Change, chunk: u32, mark: u8) -> Result<(), NoMemory>
    ensures items { ArePutItems change.old.put → OnOk result (ArePutItems change.new.put) }
    ensures put { OnOk result (length change.new.put ≡ length change.old.put + 1) }
    ensures gone { change.new.gone ≡ change.old.gone }
{
    let Ok(made) = stale_record(alloc, chunk, mark) else {
        return Err(NoMemory);
    };
    let Some(record) = made else {
        return Err(NoMemory);
    };
    match change.put.push(record) {
        Ok(()) => Ok(()),
        Err(_) => Err(NoMemory),
    }
}

/// A change that puts the records of so many of 101 chunks from one on, round the end, with one
/// mark.
pub fn stale_change(alloc: Global, first: u32, count: u32, mark: u8) -> Result<Change, NoMemory>
    ensures items { IfOk result (λ change. ArePutItems change.put) }
    ensures few { IfOk result (λ change. length change.put + length change.gone ≤ count) }
{
    let mut change = no_change(alloc);
    for i in 0..count {
        put_stale(alloc, &mut change, first.saturating_add(i) % 101, mark)?;
    }
    Ok(change)
}
