// What a copy has that is brought up.
use crate::helpers::{Wrong, row};
use crate::stores::commits::commit_rebalance;
use crate::stores::trials::{
    FIRST, Order, REBALANCE, SECOND, create_and_copy, create_on_two, is_there, load, two_disks,
};
use bay::Bay;
use bay_mem::MemBay;
use change_directory::{DirCopy, Pages, load as load_copy};
use directory_store::{LoadError, Store};
use std::alloc::Global;

/// What a copy is loaded with.
pub fn pages_of(alloc: Global, bay: &mut MemBay, copy: DirCopy) -> Option<Pages> {
    if is_there(bay, copy) {
        load_copy(alloc, bay, copy).ok()
    } else {
        None
    }
}

/// The page of the only block, under a commit number.
fn only_page(pages: &Pages, number: u64) -> Option<(u32, [u8; 4096])> {
    match pages.blocks.as_slice() {
        [(page, block)] if pages.number == Some(number) => Some((*page, block.bytes)),
        _ => None,
    }
}

/// The one page of a copy under a commit number. None where it has another number, or more pages or
/// none.
fn one_page(
    alloc: Global,
    bay: &mut MemBay,
    copy: DirCopy,
    number: u64,
) -> Option<(u32, [u8; 4096])> {
    match pages_of(alloc, bay, copy) {
        Some(pages) => {
            let page = only_page(&pages, number);
            drop(pages);
            page
        }
        None => None,
    }
}

/// Whether both copies have one record under a commit number, on the same page.
fn have_page(alloc: Global, bay: &mut MemBay, number: u64) -> Option<bool> {
    let (first, first_bytes) = one_page(alloc, bay, FIRST, number)?;
    let (second, second_bytes) = one_page(alloc, bay, SECOND, number)?;
    Some(first == second && first_bytes.as_slice() == second_bytes.as_slice())
}

/// Whether a store that was loaded has the rebalance.
fn is_with_record(loaded: Result<Store, LoadError>) -> Option<bool> {
    match loaded {
        Ok(store) => {
            let has_record = store.content().get(REBALANCE).is_some();
            drop(store);
            Some(has_record)
        }
        Err(_) => None,
    }
}

/// Whether the store of both copies has the rebalance.
pub fn has_record(alloc: Global, bay: &mut MemBay) -> Option<bool> {
    match load(alloc, bay, Order::Given) {
        Some(loaded) => is_with_record(loaded),
        None => None,
    }
}

/// The bytes that are written to each disk, and the disks that fail in one commit more.
fn commit_once(alloc: Global, bay: &mut MemBay) -> Option<([u64; 2], u64)> {
    match create_and_copy(alloc, bay) {
        Some(mut store) => {
            let written = [bay.written(0), bay.written(1)];
            let failed = commit_rebalance(alloc, bay, &mut store);
            drop(store);
            Some((written, failed?))
        }
        None => None,
    }
}

/// The bytes that are written to each disk, whether both copies have one record after one commit
/// more, and the store of both.
fn brought_up_on(alloc: Global, bay: &mut MemBay) -> Option<([u64; 2], [bool; 2])> {
    let (written, failed) = commit_once(alloc, bay)?;
    if failed != 0 {
        return None;
    }
    let page = have_page(alloc, bay, 2)?;
    Some((written, [page, has_record(alloc, bay)?]))
}

fn brought_up(alloc: Global) -> Option<([u64; 2], [bool; 2])> {
    match two_disks(alloc) {
        Some(mut bay) => {
            let brought_up = brought_up_on(alloc, &mut bay);
            drop(bay);
            brought_up
        }
        None => None,
    }
}

/// 128 pages, one record, and a head behind a gate that is opened.
const WRITTEN: u64 = 528_896 + 4096;

fn new_copy_is_brought_up_and_takes_commits(alloc: Global) -> Result<(), Wrong> {
    let wanted = ([WRITTEN, WRITTEN], [true, true]);
    row(
        "new copy is brought up and takes commits",
        brought_up(alloc) == Some(wanted),
    )
}

/// Whether the copies of disks 0, 1 and 2 are the store's, and how many copies it has.
type Told = ([bool; 3], usize);

fn told(store: &Store) -> Told {
    let has = [store.has(0), store.has(1), store.has(2)];
    (has, store.copies().len())
}

/// What is told of a store, and once a copy is forgotten.
fn forgotten_in(store: &mut Store) -> [Told; 2] {
    let both = told(store);
    store.forget(1);
    [both, told(store)]
}

fn forgotten_on(alloc: Global, bay: &mut MemBay) -> Option<[Told; 2]> {
    match create_and_copy(alloc, bay) {
        Some(mut store) => {
            let forgotten = forgotten_in(&mut store);
            drop(store);
            Some(forgotten)
        }
        None => None,
    }
}

/// The same of a store of two copies.
fn forgotten(alloc: Global) -> Option<[Told; 2]> {
    match two_disks(alloc) {
        Some(mut bay) => {
            let forgotten = forgotten_on(alloc, &mut bay);
            drop(bay);
            forgotten
        }
        None => None,
    }
}

/// Whether a store is made, which goes.
fn is_made(store: Option<Store>) -> bool {
    let is_made = store.is_some();
    drop(store);
    is_made
}

/// Whether both copies have one record, and the store of both, where the second was one of another
/// store.
fn brought_over_on(alloc: Global, bay: &mut MemBay) -> Option<[bool; 2]> {
    if !is_made(create_on_two(alloc, bay)) || !is_made(create_and_copy(alloc, bay)) {
        return None;
    }
    let page = have_page(alloc, bay, 1)?;
    Some([page, has_record(alloc, bay)?])
}

fn brought_over(alloc: Global) -> Option<[bool; 2]> {
    match two_disks(alloc) {
        Some(mut bay) => {
            let brought_over = brought_over_on(alloc, &mut bay);
            drop(bay);
            brought_over
        }
        None => None,
    }
}

fn copy_of_another_content_is_brought_up(alloc: Global) -> Result<(), Wrong> {
    let wanted = Some([true, true]);
    row(
        "copy of another content is brought up",
        brought_over(alloc) == wanted,
    )
}

pub fn play_rows(alloc: Global) -> Result<(), Wrong> {
    new_copy_is_brought_up_and_takes_commits(alloc)?;
    let wanted = [([true, true, false], 2), ([true, false, false], 1)];
    row(
        "store tells which disks have its copies",
        forgotten(alloc) == Some(wanted),
    )?;
    copy_of_another_content_is_brought_up(alloc)
}
