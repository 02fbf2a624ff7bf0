// What a commit leaves that is stopped at any of its calls.
use crate::helpers::{Wrong, all_right, row};
use crate::stores::commits::commit_rebalance;
use crate::stores::copies::{has_record, pages_of};
use crate::stores::trials::{FIRST, SECOND, create_on_two, two_disks};
use bay_mem::MemBay;
use change_directory::DirCopy;
use std::alloc::Global;

/// Makes a store without records on two copies and commits a record, where each call after so many
/// fails. The disks are then started again. Whether the store is made.
fn commit_stopped(alloc: Global, bay: &mut MemBay, calls: u64) -> bool {
    bay.stop_after(calls);
    match create_on_two(alloc, bay) {
        Some(mut store) => {
            let _ = commit_rebalance(alloc, bay, &mut store);
            drop(store);
            bay.restart();
            true
        }
        None => false,
    }
}

/// Whether a copy has the record, which it has from the second commit on. None where it has
/// anything else.
fn has_page(alloc: Global, bay: &mut MemBay, copy: DirCopy) -> Option<bool> {
    match pages_of(alloc, bay, copy) {
        Some(pages) => {
            let counts = (pages.number, pages.blocks.len());
            drop(pages);
            match counts {
                (Some(1), 0) => Some(false),
                (Some(2), 1) => Some(true),
                _ => None,
            }
        }
        None => None,
    }
}

/// Whether the first copy has the record, the second, and the store of both.
fn left_on(alloc: Global, bay: &mut MemBay, calls: u64) -> Option<[bool; 3]> {
    if !commit_stopped(alloc, bay, calls) {
        return None;
    }
    let first = has_page(alloc, bay, FIRST)?;
    let second = has_page(alloc, bay, SECOND)?;
    Some([first, second, has_record(alloc, bay)?])
}

fn left(alloc: Global, calls: u64) -> Option<[bool; 3]> {
    match two_disks(alloc) {
        Some(mut bay) => {
            let left = left_on(alloc, &mut bay, calls);
            drop(bay);
            left
        }
        None => None,
    }
}

/// The first copy is written first, and the store has what it has.
fn is_in_order(left: Option<[bool; 3]>) -> bool {
    match left {
        Some(left) => {
            let [first, second, store] = left;
            (first || !second) && store == first
        }
        None => false,
    }
}

/// The calls after which a stop leaves other records, from those of a creation on, or 70.
fn other_stop(alloc: Global) -> usize {
    for calls in 38..70usize {
        if !is_in_order(left(alloc, calls as u64)) {
            return calls;
        }
    }
    70
}

/// A creation takes 38 calls.
fn stopped_commit_leaves_the_records_before_or_after(alloc: Global) -> Result<(), Wrong> {
    all_right(
        "stopped commit leaves the records before or after",
        other_stop(alloc),
        70,
    )?;
    let first = left(alloc, 38);
    row(
        "commit that is stopped at once",
        first == Some([false, false, false]),
    )?;
    let last = left(alloc, 69);
    row(
        "commit that is stopped behind it",
        last == Some([true, true, true]),
    )
}

pub fn play_rows(alloc: Global) -> Result<(), Wrong> {
    stopped_commit_leaves_the_records_before_or_after(alloc)
}
