//! Records as a group's directory has them. What is large, as a tree or a catalog, is lent to what
//! measures it and dropped by a call at one place, since what goes in place is proved in place.

use asm_base::{Key, NoMemory, Path, Records, Value};
use std::alloc::Global;
use std::io;

pub fn out_of_memory(_: NoMemory) -> io::Error {
    io::Error::from(io::ErrorKind::OutOfMemory)
}

pub fn unexpected() -> io::Error {
    io::Error::from(io::ErrorKind::InvalidData)
}

/// What was made, where there was memory.
pub fn made<T: Drop>(made: Result<T, NoMemory>) -> io::Result<T> {
    match made {
        Ok(value) => Ok(value),
        Err(error) => Err(out_of_memory(error)),
    }
}

/// What was read, where it must be there.
pub fn there<T: Drop>(read: Result<Option<T>, NoMemory>) -> io::Result<T> {
    match read {
        Ok(Some(value)) => Ok(value),
        Ok(None) => Err(unexpected()),
        Err(error) => Err(out_of_memory(error)),
    }
}

/// Puts the record of a key of the second number 0.
pub fn put(
    alloc: Global,
    records: &mut Records,
    kind: u16,
    number: u32,
    bytes: &[u8],
) -> io::Result<()> {
    put_at(alloc, records, (kind, number, 0), bytes)
}

/// Puts the record of a key, of its kind and two numbers.
pub fn put_at(
    alloc: Global,
    records: &mut Records,
    at: (u16, u32, u32),
    bytes: &[u8],
) -> io::Result<()> {
    if bytes.len() > 4_064 {
        return Err(unexpected());
    }
    let key = Key {
        kind: at.0,
        a: at.1,
        b: at.2,
    };
    match Value::from_slice(alloc, bytes) {
        Ok(value) => made(records.insert(key, value)),
        Err(error) => Err(out_of_memory(error)),
    }
}

pub fn path(alloc: Global, bytes: &[u8]) -> io::Result<Path> {
    there(Path::read(alloc, bytes))
}

/// A name of eight letters for each number.
pub fn name_of(number: u32) -> [u8; 8] {
    let mut name = [b'a'; 8];
    let mut left = number;
    for letter in &mut name {
        *letter = b'a' + (left % 16) as u8;
        left /= 16;
    }
    name
}
