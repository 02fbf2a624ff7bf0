// Many commits of many records, and what a stop at each call of the last one leaves.
ghost use Rattle.std.specs.Prelude.{◌≤◌, ◌<◌, IfSome};
ghost use Rattle.bay_mem.specs.MemState.{state_of};
ghost use Rattle.directory_store.specs.Stores.{Keeps};

use crate::helpers::{SIZE, Wrong, all_right, row};
use crate::stores::stale::{stale_change, stale_key};
use crate::stores::trials::{FIRST, SECOND, create_on_two, is_there, load_one, two_disks};
use asm_base::{Records, Value};
use bay::Bay;
use bay_mem::MemBay;
use directory_store::{LoadError, Store};
use std::alloc::Global;

/// How many commits there are.
const COMMITS: u32 = 200;

/// The marks that the records of 101 chunks must have. A chunk without a record has none.
type Marks = [Option<u8>; 101];

/// What a commit puts: the records of so many chunks from one on, round the end, with one mark.
#[derive(Clone, Copy)]
struct Batch {
    first: u32,
    count: u32,
    mark: u8,
}

/// The records of a commit: from 1 to 64 of them.
fn batch_of(number: u32) -> Batch
    requires { number ≤ 200 }
    ensures { result.count ≤ 64 }
{
    Batch {
        first: number * 13 % 101,
        count: 1 + number * 37 % 64,
        mark: (number % 8) as u8,
    }
}

/// The marks once a batch is put.
fn put_marks(marks: &mut Marks, batch: Batch) {
    for i in 0..batch.count {
        let chunk = batch.first.saturating_add(i) % 101;
        marks[chunk as usize] = Some(batch.mark);
    }
}

/// Whether a record has 256 times the mark, or there is none of both.
fn has_mark(value: Option<&Value>, mark: Option<u8>) -> bool {
    match (value, mark) {
        (None, None) => true,
        (Some(value), Some(mark)) => value.as_bytes() == [mark; 256].as_slice(),
        _ => false,
    }
}

/// Whether the records have these marks.
fn have_marks(records: &Records, marks: &Marks) -> bool {
    for chunk in 0..101 {
        if !has_mark(records.get(stale_key(chunk)), marks[chunk as usize]) {
            return false;
        }
    }
    true
}

/// Commits a batch on both copies.
fn commit_batch(alloc: Global, bay: &mut MemBay, store: &mut Store, batch: Batch) -> Option<()>
    requires kept { Keeps store.old (state_of bay.old) }
    requires few { batch.count ≤ 64 }
    ensures kept { Keeps store.new (state_of bay.new) }
{
    match stale_change(alloc, batch.first, batch.count, batch.mark) {
        Ok(change) => {
            let is_done = store.commit(alloc, bay, &change).is_ok();
            drop(change);
            if is_done { Some(()) } else { None }
        }
        Err(_) => None,
    }
}

/// Commits all batches but the last, and gives the marks then.
fn commit_many(alloc: Global, bay: &mut MemBay, store: &mut Store) -> Option<Marks>
    requires { Keeps store.old (state_of bay.old) }
{
    let mut marks = [None; 101];
    for number in 1..COMMITS {
        let put = batch_of(number);
        commit_batch(alloc, bay, store, put)?;
        put_marks(&mut marks, put);
    }
    Some(marks)
}

/// The same in a new store.
fn create_many(alloc: Global, bay: &mut MemBay) -> Option<Marks> {
    match create_on_two(alloc, bay) {
        Some(mut store) => {
            let marks = commit_many(alloc, bay, &mut store);
            drop(store);
            marks
        }
        None => None,
    }
}

/// Reads the bytes of a disk.
fn read_disk(bay: &mut MemBay, slot: u32, bytes: &mut [u8]) -> Option<()> {
    let size = bay.attach(slot, "disk").ok()?;
    if size < SIZE || bytes.len() as u64 != SIZE {
        return None;
    }
    bay.read(slot, 0, bytes).ok()
}

/// The bytes of a disk.
fn disk_bytes(alloc: Global, bay: &mut MemBay, slot: u32) -> Option<Vec<u8>> {
    match vec![in alloc; 0; SIZE as usize] {
        Ok(mut bytes) => {
            if read_disk(bay, slot, &mut bytes).is_some() {
                return Some(bytes);
            }
            drop(bytes);
            None
        }
        Err(_) => None,
    }
}

/// Writes the bytes of a disk.
fn put_disk(bay: &mut MemBay, slot: u32, bytes: &[u8]) -> Option<()> {
    let size = bay.attach(slot, "disk").ok()?;
    if size < SIZE || bytes.len() as u64 != SIZE {
        return None;
    }
    bay.write(slot, 0, bytes).ok()
}

/// The bytes of both disks after all commits but the last, and the marks before it and after it.
#[derive(Drop)]
struct Disks {
    first: Vec<u8>,
    second: Vec<u8>,
    before: Marks,
    after: Marks,
}

/// The bytes of both disks.
fn both_bytes(alloc: Global, bay: &mut MemBay) -> Option<(Vec<u8>, Vec<u8>)> {
    let first = disk_bytes(alloc, bay, 0)?;
    match disk_bytes(alloc, bay, 1) {
        Some(second) => Some((first, second)),
        None => {
            drop(first);
            None
        }
    }
}

fn committed_on(alloc: Global, bay: &mut MemBay) -> Option<Disks> {
    let before = create_many(alloc, bay)?;
    let mut after = before;
    put_marks(&mut after, batch_of(COMMITS));
    let (first, second) = both_bytes(alloc, bay)?;
    Some(Disks {
        first,
        second,
        before,
        after,
    })
}

fn committed(alloc: Global) -> Option<Disks> {
    match two_disks(alloc) {
        Some(mut bay) => {
            let disks = committed_on(alloc, &mut bay);
            drop(bay);
            disks
        }
        None => None,
    }
}

/// Writes these bytes to two disks.
fn put_disks(bay: &mut MemBay, disks: &Disks) -> Option<()> {
    put_disk(bay, 0, &disks.first)?;
    put_disk(bay, 1, &disks.second)
}

/// Loads the store of both copies on disks in memory, where a stop leaves what they hold. None
/// where it may not be asked, or isn't loaded.
fn load_kept(alloc: Global, bay: &mut MemBay) -> Option<Store>
    ensures { IfSome result (λ store. Keeps store (state_of bay.new)) }
{
    if !is_there(bay, FIRST) {
        return None;
    }
    if !is_there(bay, SECOND) {
        return None;
    }
    match Store::load(alloc, bay, &[FIRST, SECOND]) {
        Ok(store) => Some(store),
        Err(_) => None,
    }
}

/// Commits the last batch on disks with these bytes, where each call after so many fails, and gives
/// the calls before the commit.
fn last_commit(alloc: Global, bay: &mut MemBay, disks: &Disks, calls: u64) -> Option<u64> {
    put_disks(bay, disks)?;
    bay.stop_after(calls);
    match load_kept(alloc, bay) {
        Some(mut store) => {
            let begin = bay.calls();
            let _ = commit_batch(alloc, bay, &mut store, batch_of(COMMITS));
            drop(store);
            Some(begin)
        }
        None => None,
    }
}

/// Whether a store has the marks after the last commit. None where it hasn't those before it
/// either.
fn is_after_in(store: &Store, disks: &Disks) -> Option<bool> {
    if have_marks(store.content(), &disks.after) {
        Some(true)
    } else if have_marks(store.content(), &disks.before) {
        Some(false)
    } else {
        None
    }
}

fn is_after_of(loaded: Option<Result<Store, LoadError>>, disks: &Disks) -> Option<bool> {
    match loaded {
        Some(Ok(store)) => {
            let is_after = is_after_in(&store, disks);
            drop(store);
            is_after
        }
        _ => None,
    }
}

/// Whether each copy has the marks after the last commit, where each call after so many fails.
fn left_on(alloc: Global, bay: &mut MemBay, disks: &Disks, calls: u64) -> Option<[bool; 2]> {
    let _ = last_commit(alloc, bay, disks, calls)?;
    bay.restart();
    let first = is_after_of(load_one(alloc, bay, FIRST), disks)?;
    let second = is_after_of(load_one(alloc, bay, SECOND), disks)?;
    Some([first, second])
}

fn left(alloc: Global, disks: &Disks, calls: u64) -> Option<[bool; 2]> {
    match two_disks(alloc) {
        Some(mut bay) => {
            let left = left_on(alloc, &mut bay, disks, calls);
            drop(bay);
            left
        }
        None => None,
    }
}

/// The calls before the last commit, and once it is done.
fn calls_of_last(alloc: Global, disks: &Disks) -> Option<(u64, u64)> {
    match two_disks(alloc) {
        Some(mut bay) => {
            let begin = last_commit(alloc, &mut bay, disks, u64::MAX);
            let end = bay.calls();
            drop(bay);
            Some((begin?, end))
        }
        None => None,
    }
}

/// The first copy is written first.
fn is_in_order(left: Option<[bool; 2]>) -> bool {
    match left {
        Some(left) => {
            let [first, second] = left;
            first || !second
        }
        None => false,
    }
}

/// The calls after which a stop leaves other records, or one more than the last.
fn other_stop(alloc: Global, disks: &Disks, begin: u64, end: u64) -> u64 {
    for calls in begin..=end {
        if !is_in_order(left(alloc, disks, calls)) {
            return calls;
        }
    }
    end.saturating_add(1)
}

/// Stops the last commit at each of its calls.
fn stop_everywhere(alloc: Global, disks: &Disks) -> Result<(), Wrong> {
    let Some((begin, end)) = calls_of_last(alloc, disks) else {
        return Err(("the last commit", 0));
    };
    let other = other_stop(alloc, disks, begin, end) as usize;
    let all = end.saturating_add(1) as usize;
    all_right(
        "stopped commit of many leaves the records before or after",
        other,
        all,
    )?;
    let first = left(alloc, disks, begin);
    row(
        "commit of many that is stopped at once",
        first == Some([false, false]),
    )?;
    let last = left(alloc, disks, end);
    row(
        "commit of many that is stopped behind it",
        last == Some([true, true]),
    )
}

fn stopped_commit_of_many_leaves_the_records_before_or_after(alloc: Global) -> Result<(), Wrong> {
    match committed(alloc) {
        Some(disks) => {
            let stopped = stop_everywhere(alloc, &disks);
            drop(disks);
            stopped
        }
        None => Err(("commits", 0)),
    }
}

pub fn play_rows(alloc: Global) -> Result<(), Wrong> {
    stopped_commit_of_many_leaves_the_records_before_or_after(alloc)
}
