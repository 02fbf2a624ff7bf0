//! Reading the heads of a group's files.

use crate::records::{put, there};
use asm_base::Records;
use file_directory::FileTable;
use std::alloc::Global;
use std::io;
use std::time::{Duration, Instant};

/// The kind of the records of files.
const FILES: u16 = 1;

/// The time that a table of so many files takes to be read from its records.
pub fn reading(alloc: Global, rt: &HostRuntime, files: u32) -> io::Result<Duration> {
    let mut records = Records::new(alloc);
    let time = match put_heads(alloc, &mut records, files) {
        Ok(()) => reading_of(alloc, rt, &records),
        Err(error) => Err(error),
    };
    drop(records);
    time
}

fn put_heads(alloc: Global, records: &mut Records, files: u32) -> io::Result<()> {
    for i in 0..files {
        put(alloc, records, FILES, i, &head())?;
    }
    Ok(())
}

/// The same of these records.
fn reading_of(alloc: Global, rt: &HostRuntime, records: &Records) -> io::Result<Duration> {
    let start = Instant::now(rt)?;
    let read = there(FileTable::from_records(alloc, records));
    let time = start.elapsed(rt);
    match read {
        Ok(table) => {
            drop(table);
            time
        }
        Err(error) => {
            drop(time);
            Err(error)
        }
    }
}

/// The value of a file's record: one copy, coarse, of type `T`, and its system node is 1.
fn head() -> [u8; 57] {
    let mut bytes = [0; 57];
    bytes[0] = 1;
    bytes[1] = 1;
    bytes[2] = 1;
    bytes[3] = b'T';
    bytes[52] = 1;
    bytes
}
