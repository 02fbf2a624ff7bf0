// The map of pages: that a change is applied where there is memory, and which pages it writes.
use crate::helpers::{Wrong, all_right};
use asm_base::{Block, Key, Value, decode_record};
use page_map::{PageError, PageMap, apply};
use std::alloc::Global;

/// A record: the kind and the number of its key, and the byte that its value has three times.
type Record = (u16, u32, u8);

/// The pages that a change writes, or why it isn't applied.
type Applied = Result<Vec<(u32, Block)>, PageError>;

/// What is done with a map, and what must come of it.
#[derive(Clone, Copy)]
enum Step {
    /// Records are put: how many pages change, the first of them, and the record that it has then.
    Put(&'static [Record], usize, u32, Record),
    /// The record of a node goes: the only page that changes, whose bytes are zeros then.
    Gone(u32, u32),
    /// The record of a node isn't put, as it needs one block and none is free.
    Full(u32),
    /// The page of the record of a kind and a number.
    Place(u16, u32, Option<u32>),
    /// How many records more there may be.
    Room(u64),
}

fn key(kind: u16, a: u32) -> Key {
    Key { kind, a, b: 0 }
}

fn put_records(alloc: Global, records: &mut Vec<(Key, Value)>, all: &[Record]) -> Option<()> {
    for (kind, a, byte) in all {
        let value = Value::from_slice(alloc, &[*byte; 3]).ok()?;
        records.push((key(*kind, *a), value)).ok()?;
    }
    Some(())
}

/// Puts records: the pages that change, or why there are none. None without memory for the records.
fn put(alloc: Global, map: &mut PageMap, all: &[Record]) -> Option<Applied> {
    let mut records = Vec::new(alloc);
    let applied = match put_records(alloc, &mut records, all) {
        Some(()) => Some(apply(alloc, map, &records, &[])),
        None => None,
    };
    drop(records);
    applied
}

/// Whether the block is that of a record.
fn has_record(alloc: Global, block: &Block, record: Record) -> bool {
    let (kind, a, byte) = record;
    match decode_record(alloc, block) {
        Ok(Some((at, value))) => {
            let is_same = at == key(kind, a) && value.as_bytes() == [byte; 3].as_slice();
            drop(value);
            is_same
        }
        _ => false,
    }
}

/// Whether so many pages change, of which the first has a record.
fn are_pages(
    alloc: Global,
    pages: &[(u32, Block)],
    count: usize,
    page: u32,
    record: Record,
) -> bool {
    match pages.first() {
        Some((first, block)) => {
            pages.len() == count && *first == page && has_record(alloc, block, record)
        }
        None => false,
    }
}

fn puts(
    alloc: Global,
    map: &mut PageMap,
    all: &[Record],
    count: usize,
    page: u32,
    record: Record,
) -> bool {
    match put(alloc, map, all) {
        Some(Ok(pages)) => {
            let are_right = are_pages(alloc, &pages, count, page, record);
            drop(pages);
            are_right
        }
        _ => false,
    }
}

/// Whether a page is the only one, and has zeros.
fn is_zeros(pages: &[(u32, Block)], page: u32) -> bool {
    match pages {
        [(only, block)] => *only == page && block.bytes == [0; 4096],
        _ => false,
    }
}

fn takes(alloc: Global, map: &mut PageMap, node: u32, page: u32) -> bool {
    match apply(alloc, map, &[], &[key(6, node)]) {
        Ok(pages) => {
            let is_gone = map.records().get(key(6, node)).is_none();
            let are_zeros = is_zeros(&pages, page);
            drop(pages);
            is_gone && are_zeros
        }
        Err(_) => false,
    }
}

fn refusal(alloc: Global, map: &mut PageMap, node: u32) -> Option<PageError> {
    match put(alloc, map, &[(6, node, 1)]) {
        Some(Ok(pages)) => {
            drop(pages);
            None
        }
        Some(Err(error)) => Some(error),
        None => None,
    }
}

const FULL: PageError = PageError::Full { need: 1, free: 0 };

fn holds(alloc: Global, map: &mut PageMap, step: Step) -> bool {
    match step {
        Step::Put(all, count, page, record) => puts(alloc, map, all, count, page, record),
        Step::Gone(node, page) => takes(alloc, map, node, page),
        Step::Full(node) => refusal(alloc, map, node) == Some(FULL),
        Step::Place(kind, a, page) => map.place(key(kind, a)) == page,
        Step::Room(room) => map.room() == room,
    }
}

/// How many steps hold in turn, until one doesn't.
fn count_held(alloc: Global, map: &mut PageMap, steps: &[Step]) -> usize {
    for (place, step) in steps.iter().enumerate() {
        if !holds(alloc, map, *step) {
            return place;
        }
    }
    steps.len()
}

/// Puts the records of so many nodes, from 1 on. Whether that is done.
fn put_nodes(alloc: Global, map: &mut PageMap, nodes: u32) -> bool {
    for node in 0..nodes {
        match put(alloc, map, &[(6, node.saturating_add(1), 1)]) {
            Some(Ok(pages)) => drop(pages),
            _ => return false,
        }
    }
    true
}

/// Plays steps in turn with a new map of 128 pages that has the records of so many nodes.
fn play(alloc: Global, name: &'static str, nodes: u32, steps: &[Step]) -> Result<(), Wrong> {
    match PageMap::new(alloc, 128) {
        Ok(mut map) => {
            let held = if put_nodes(alloc, &mut map, nodes) {
                count_held(alloc, &mut map, steps)
            } else {
                0
            };
            drop(map);
            all_right(name, held, steps.len())
        }
        Err(_) => Err((name, 0)),
    }
}

const THREE: Step = Step::Put(&[(6, 1, 1), (6, 2, 2), (6, 3, 3)], 3, 0, (6, 1, 1));

const FIRST_PAGES: [Step; 5] = [
    THREE,
    Step::Place(6, 1, Some(0)),
    Step::Place(6, 2, Some(1)),
    Step::Place(6, 3, Some(2)),
    Step::Room(123),
];

const FREED: [Step; 6] = [
    THREE,
    Step::Gone(2, 1),
    Step::Put(&[(6, 9, 9)], 1, 1, (6, 9, 9)),
    Step::Place(6, 9, Some(1)),
    // A page holds the last put.
    Step::Put(&[(6, 3, 7), (6, 3, 8)], 1, 2, (6, 3, 8)),
    Step::Place(6, 3, Some(2)),
];

/// A map with the records of 126 nodes, the most that a group may have, keeps two pages.
const KEPT: [Step; 4] = [
    Step::Full(127),
    Step::Place(6, 127, None),
    Step::Put(&[(4, 0, 1)], 1, 126, (4, 0, 1)),
    Step::Place(4, 0, Some(126)),
];

pub fn play_rows(alloc: Global) -> Result<(), Wrong> {
    play(alloc, "new records take the first pages", 0, &FIRST_PAGES)?;
    play(alloc, "a freed page is taken again", 0, &FREED)?;
    play(alloc, "two pages are kept", 126, &KEPT)
}
