// The table of stale marks.
ghost use Rattle.std.specs.Prelude.{◌≡◌, IfSome};
ghost use Rattle.staleness_directory.specs.Marks.{IsMarkTable};

use crate::helpers::{Wrong, all_right};
use crate::tables::given::{no_change, put, value};
use asm_base::{Key, Records};
use staleness_directory::{Marks, StaleTable, marks_record};
use std::alloc::Global;

/// What is asked of the table of file 256, and what it must answer.
#[derive(Clone, Copy)]
enum Step {
    /// The marks of an extent of a chunk, by their numbers.
    Marks(u32, u8, Option<u8>),
    /// A chunk gets these marks at extent 3.
    Put(u32, u8),
    /// A record of so many zeros is put: whether it is one of the format.
    PutRecord(u32, usize, bool),
    /// The record of a chunk has these marks at extent 3.
    Record(u32, u8),
    /// The marks of a chunk are taken away: whether they were there.
    Remove(u32, bool),
    /// How many records the table has.
    Records(usize),
}

fn key(chunk: u32) -> Key
    ensures { result.kind ≡ 12 }
{
    Key {
        kind: 12,
        a: 256,
        b: chunk,
    }
}

/// Marks of a chunk, with none but at extent 3.
fn bits(marks: u8) -> [u8; 256] {
    let mut bits = [0; 256];
    bits[3] = marks;
    bits
}

fn put_chunks(alloc: Global, records: &mut Records) -> Option<()> {
    put(alloc, records, key(0), &bits(0))?;
    put(alloc, records, key(1), &bits(2))
}

/// The table that is read from these records. None where they are no table's.
fn read(alloc: Global, records: &Records) -> Option<StaleTable>
    ensures { IfSome result IsMarkTable }
{
    match StaleTable::from_records(alloc, records) {
        Ok(table) => table,
        Err(_) => None,
    }
}

/// The table of two chunks: copy 1 of extent 3 of the second one is stale.
fn read_two(alloc: Global) -> Option<StaleTable>
    ensures { IfSome result IsMarkTable }
{
    let mut records = Records::new(alloc);
    let table = match put_chunks(alloc, &mut records) {
        Some(()) => read(alloc, &records),
        None => None,
    };
    drop(records);
    table
}

/// A copy of it.
fn two_chunks(alloc: Global) -> Option<StaleTable> {
    match read_two(alloc) {
        Some(table) => {
            let copy = table.copy(alloc).ok();
            drop(table);
            copy
        }
        None => None,
    }
}

fn marks_at(table: &StaleTable, chunk: u32, extent: u8) -> Option<u8> {
    let marks = table.get((256, chunk))?;
    Some(marks.bits[extent as usize])
}

fn put_marks(table: &mut StaleTable, chunk: u32, marks: u8) -> bool {
    let marks = Marks { bits: bits(marks) };
    marks.is_allowed(256, chunk) && table.put((256, chunk), marks).is_ok()
}

fn is_put(alloc: Global, table: &mut StaleTable, chunk: u32, len: usize) -> Option<bool> {
    let zeros = [0; 256];
    match value(alloc, zeros.get(..len)?) {
        Some(value) => {
            let is_put = table.put_record(alloc, key(chunk), &value).ok();
            drop(value);
            is_put
        }
        None => None,
    }
}

fn has_record(alloc: Global, table: &StaleTable, chunk: u32, marks: u8) -> bool {
    let Some(found) = table.get((256, chunk)) else {
        return false;
    };
    match marks_record(alloc, (256, chunk), found) {
        Ok((at, value)) => {
            let is_same = at == key(chunk) && value.as_bytes() == bits(marks).as_slice();
            drop(value);
            is_same
        }
        Err(_) => false,
    }
}

fn count_records(alloc: Global, table: &StaleTable) -> Option<usize> {
    let mut change = no_change(alloc);
    let count = match table.to_records(alloc, &mut change) {
        Ok(()) => Some(change.put.len()),
        Err(_) => None,
    };
    drop(change);
    count
}

fn holds(alloc: Global, table: &mut StaleTable, step: Step) -> bool {
    match step {
        Step::Marks(chunk, extent, marks) => marks_at(table, chunk, extent) == marks,
        Step::Put(chunk, marks) => put_marks(table, chunk, marks),
        Step::PutRecord(chunk, len, put) => is_put(alloc, table, chunk, len) == Some(put),
        Step::Record(chunk, marks) => has_record(alloc, table, chunk, marks),
        Step::Remove(chunk, was_there) => table.remove((256, chunk)) == was_there,
        Step::Records(count) => count_records(alloc, table) == Some(count),
    }
}

/// How many steps hold in turn, until one doesn't.
fn count_held_in(alloc: Global, table: &mut StaleTable, steps: &[Step]) -> usize {
    for (place, step) in steps.iter().enumerate() {
        if !holds(alloc, table, *step) {
            return place;
        }
    }
    steps.len()
}

/// Plays steps in turn, beginning with two chunks.
fn play(alloc: Global, name: &'static str, steps: &[Step]) -> Result<(), Wrong> {
    match two_chunks(alloc) {
        Some(mut table) => {
            let held = count_held_in(alloc, &mut table, steps);
            drop(table);
            all_right(name, held, steps.len())
        }
        None => Err((name, 0)),
    }
}

/// Marks are read and taken away, and what is left is written.
const GOING: [Step; 6] = [
    Step::Marks(1, 3, Some(2)),
    Step::Marks(1, 4, Some(0)),
    Step::Marks(2, 3, None),
    Step::Remove(1, true),
    Step::Remove(1, false),
    Step::Records(1),
];

/// Marks are put, also by their record, and their record has them.
const PUT: [Step; 7] = [
    Step::Put(2, 5),
    Step::Record(2, 5),
    Step::PutRecord(3, 57, false),
    Step::Marks(3, 3, None),
    Step::PutRecord(3, 256, true),
    Step::Marks(3, 3, Some(0)),
    Step::Records(4),
];

pub fn play_rows(alloc: Global) -> Result<(), Wrong> {
    play(alloc, "marks are read and go", &GOING)?;
    play(alloc, "marks are put", &PUT)
}
