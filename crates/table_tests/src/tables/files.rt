// The table of the heads of files.
use crate::helpers::{Wrong, all_right, name, row};
use crate::tables::given::{no_change, put, put_all_but, value};
use asm_base::{Change, Key, Records, Stripe, Value};
use file_directory::{FileHead, FileTable, record_of};
use std::alloc::Global;

/// What is asked of a table, and what it must answer.
#[derive(Clone, Copy)]
enum Step {
    /// A file gets a head of this size.
    Put(u32, u64),
    /// The record of a head of this size is put as that of file 256.
    PutRecord(u64),
    /// A record of zeros is put as that of file 256: it is none of the format.
    PutZeros,
    /// The size of a file with a head.
    Size(u32, Option<u64>),
    /// The least file from a number on.
    LeastFrom(u32, Option<u32>),
    /// The least number from one on that no file has.
    FreeFrom(u32, Option<u32>),
    /// A head is taken away: whether it was there.
    Remove(u32, bool),
    /// An equal table takes the table's place.
    Copy,
    /// The table that is read from the table's records takes its place: how many there are.
    ReadAgain(usize),
}

const FIRST: Key = Key {
    kind: 1,
    a: 256,
    b: 0,
};

const CHUNK: Key = Key {
    kind: 1,
    a: 256,
    b: 1,
};

fn head(alloc: Global, size: u64) -> Option<FileHead> {
    Some(FileHead {
        copies: 2,
        stripe: Stripe::Fine,
        kind: name(alloc, b"DATAFILE")?,
        size,
        incarnation: 7,
        system: 3,
        alias: 0x0102,
    })
}

fn put_head(alloc: Global, table: &mut FileTable, file: u32, size: u64) -> bool {
    match head(alloc, size) {
        Some(head) => {
            if !head.is_allowed(file) {
                drop(head);
                return false;
            }
            table.put(file, head).is_ok()
        }
        None => false,
    }
}

/// The record of a head as that of file 256.
fn record_by(alloc: Global, head: &FileHead) -> Option<(Key, Value)> {
    if head.is_allowed(256) {
        record_of(alloc, 256, head).ok()
    } else {
        None
    }
}

/// The same of an equal head.
fn record_of_copy(alloc: Global, head: &FileHead) -> Option<(Key, Value)> {
    match head.copy() {
        Ok(copy) => {
            let record = record_by(alloc, &copy);
            drop(copy);
            record
        }
        Err(_) => None,
    }
}

/// The record of the head of file 256 with a size.
fn record(alloc: Global, size: u64) -> Option<(Key, Value)> {
    match head(alloc, size) {
        Some(head) => {
            let record = record_of_copy(alloc, &head);
            drop(head);
            record
        }
        None => None,
    }
}

/// Whether a record is put as that of file 256. None without memory.
fn is_put(alloc: Global, table: &mut FileTable, value: Value) -> Option<bool> {
    let is_put = table.put_record(alloc, FIRST, &value).ok();
    drop(value);
    is_put
}

fn put_record(alloc: Global, table: &mut FileTable, size: u64) -> bool {
    match record(alloc, size) {
        Some((_, value)) => is_put(alloc, table, value) == Some(true),
        None => false,
    }
}

fn refuses_zeros(alloc: Global, table: &mut FileTable) -> bool {
    match value(alloc, &[0; 57]) {
        Some(value) => is_put(alloc, table, value) == Some(false),
        None => false,
    }
}

/// Whether a file has a head of this size, and of the type of all of them.
fn has_size(table: &FileTable, file: u32, size: Option<u64>) -> bool {
    match table.get(file) {
        Some(head) => size == Some(head.size) && head.kind.as_bytes() == b"DATAFILE".as_slice(),
        None => size.is_none(),
    }
}

/// The table of these records, or None where they are no table's.
fn read(alloc: Global, records: &Records) -> Option<FileTable> {
    FileTable::from_records(alloc, records).ok().flatten()
}

/// The table of these records and of that of a chunk.
fn read_beside(alloc: Global, change: Change) -> Option<FileTable> {
    let mut records = Records::new(alloc);
    let is_put = put_all_but(&mut records, change, 0).is_some();
    let table = if is_put && put(alloc, &mut records, CHUNK, &[0; 256]).is_some() {
        read(alloc, &records)
    } else {
        None
    };
    drop(records);
    table
}

/// The change that puts the records of a table, of which there are so many.
fn records_in(alloc: Global, table: &FileTable, count: usize) -> Option<Change> {
    let mut change = no_change(alloc);
    if table.to_records(alloc, &mut change).is_ok() && change.put.len() == count {
        Some(change)
    } else {
        drop(change);
        None
    }
}

/// The table that is read from the records of another, among which stands that of a chunk.
fn read_again(alloc: Global, table: &FileTable, count: usize) -> Option<FileTable> {
    match records_in(alloc, table, count) {
        Some(change) => read_beside(alloc, change),
        None => None,
    }
}

fn replace<T: Drop>(table: &mut T, other: Option<T>) -> bool {
    match other {
        Some(other) => {
            *table = other;
            true
        }
        None => false,
    }
}

fn holds(alloc: Global, table: &mut FileTable, step: Step) -> bool {
    match step {
        Step::Put(file, size) => put_head(alloc, table, file, size),
        Step::PutRecord(size) => put_record(alloc, table, size),
        Step::PutZeros => refuses_zeros(alloc, table),
        Step::Size(file, size) => has_size(table, file, size),
        Step::LeastFrom(file, least) => table.least_from(file) == least,
        Step::FreeFrom(file, free) => table.free_from(file) == free,
        Step::Remove(file, was_there) => table.remove(file) == was_there,
        Step::Copy => replace(table, table.copy(alloc).ok()),
        Step::ReadAgain(count) => replace(table, read_again(alloc, table, count)),
    }
}

/// How many steps hold in turn, until one doesn't.
fn count_held_in(alloc: Global, table: &mut FileTable, steps: &[Step]) -> usize {
    for (place, step) in steps.iter().enumerate() {
        if !holds(alloc, table, *step) {
            return place;
        }
    }
    steps.len()
}

/// Plays steps in turn, beginning with an empty table.
fn play(alloc: Global, name: &'static str, steps: &[Step]) -> Result<(), Wrong> {
    let mut table = FileTable::new(alloc);
    let held = count_held_in(alloc, &mut table, steps);
    drop(table);
    all_right(name, held, steps.len())
}

/// Heads are kept by number, and the least numbers are found.
const BY_NUMBER: [Step; 13] = [
    Step::Put(258, 30),
    Step::Put(256, 10),
    Step::Put(256, 20),
    Step::Size(256, Some(20)),
    Step::Size(257, None),
    Step::LeastFrom(0, Some(256)),
    Step::LeastFrom(257, Some(258)),
    Step::LeastFrom(259, None),
    Step::FreeFrom(256, Some(257)),
    Step::FreeFrom(258, Some(259)),
    Step::Remove(258, true),
    Step::Remove(258, false),
    Step::LeastFrom(257, None),
];

/// A table is read from its records, among those of chunks, and a head is put by its record.
const RECORDS: [Step; 11] = [
    Step::Put(256, 10),
    Step::Put(300, 20),
    Step::ReadAgain(2),
    Step::Size(300, Some(20)),
    Step::Remove(256, true),
    Step::PutRecord(11),
    Step::Size(256, Some(11)),
    Step::PutRecord(20),
    Step::PutZeros,
    Step::Copy,
    Step::Size(256, Some(20)),
];

/// Copies, stripe, a type of 30 bytes, two numbers of 8 bytes and two of 4.
const BYTES: &[u8] =
    b"\x02\x02\x08DATAFILE\0\0\0\0\0\0\0\0\0\0\0\0\0\0\0\0\0\0\0\0\0\0\0\0\0\0\0\0\x0a\x0b\0\0\0\0\0\0\0\x07\0\0\0\x03\0\0\x01\x02";

/// The bytes of a record stand at their places.
fn has_bytes(alloc: Global, bytes: &[u8]) -> bool {
    match record(alloc, 0x0A0B) {
        Some((key, value)) => {
            let has_bytes = key == FIRST && value.as_bytes() == bytes;
            drop(value);
            has_bytes
        }
        None => false,
    }
}

/// The table of records with one of a key and zeros, where they are a table's.
fn table_with(alloc: Global, key: Key) -> Option<Option<FileTable>> {
    let mut records = Records::new(alloc);
    let table = match put(alloc, &mut records, key, &[0; 256]) {
        Some(()) => FileTable::from_records(alloc, &records).ok(),
        None => None,
    };
    drop(records);
    table
}

fn is_table_with(alloc: Global, key: Key) -> Option<bool> {
    match table_with(alloc, key) {
        Some(table) => {
            let is_table = table.is_some();
            drop(table);
            Some(is_table)
        }
        None => None,
    }
}

pub fn play_rows(alloc: Global) -> Result<(), Wrong> {
    play(alloc, "heads are kept by number", &BY_NUMBER)?;
    play(alloc, "records of heads", &RECORDS)?;
    row("bytes of a head's record", has_bytes(alloc, BYTES))?;
    // A head that isn't of the format makes no table.
    row("another chunk", is_table_with(alloc, CHUNK) == Some(true))?;
    row("another head", is_table_with(alloc, FIRST) == Some(false))
}
