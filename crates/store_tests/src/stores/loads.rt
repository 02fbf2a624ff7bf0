// What a load of several copies takes, and what it refuses.
use crate::helpers::{Wrong, all_right, power_page, row};
use crate::stores::trials::{Order, REBALANCE, load, two_disks};
use bay::Bay;
use bay_mem::MemBay;
use directory_store::{LoadError, Store};
use std::alloc::Global;

/// What stands on two disks of zeros, or happens to them.
#[derive(Clone, Copy)]
enum Given {
    /// The first log slot of a disk's copy is open, with a commit number and an image of page 3:
    /// the record of a power.
    Log(u32, u8, u8),
    /// A block of a disk is a page with the record of a power.
    Power(u32, u64, u8),
    /// The bytes of a block of a disk are sevens.
    Sevens(u32, u64),
    /// The call that comes so many calls later fails. The first two calls of a load attach the
    /// disks.
    Fault(u64),
}

/// The first byte of a gate that is open.
const GATE: [u8; 1] = [0xa5];

fn put(bay: &mut MemBay, slot: u32, block: u64, bytes: &[u8; 4096]) -> Option<()> {
    if bay.attach(slot, "disk").ok()? < 1_105_920 || block >= 270 {
        return None;
    }
    bay.write(slot, block * 4096, bytes).ok()
}

/// The head of a log slot: a commit number, and page 3.
fn log_head(number: u8) -> [u8; 4096] {
    let mut head = [0; 4096];
    head[..4].copy_from_slice(b"ASML");
    head[11] = number;
    head[15] = 1;
    head[19] = 3;
    head
}

fn gate() -> [u8; 4096] {
    let mut gate = [0; 4096];
    gate[..1].copy_from_slice(&GATE);
    gate
}

fn open_log(bay: &mut MemBay, slot: u32, number: u8, power: u8) -> Option<()> {
    put(bay, slot, 139, &log_head(number))?;
    put(bay, slot, 140, &power_page(power))?;
    put(bay, slot, 138, &gate())
}

fn give(bay: &mut MemBay, given: Given) -> Option<()> {
    match given {
        Given::Log(slot, number, power) => open_log(bay, slot, number, power),
        Given::Power(slot, block, power) => put(bay, slot, block, &power_page(power)),
        Given::Sevens(slot, block) => put(bay, slot, block, &[7; 4096]),
        Given::Fault(calls) => bay.fail_at(bay.calls().saturating_add(calls)).ok(),
    }
}

/// Gives the disks all that is given.
fn give_all(bay: &mut MemBay, all: &[Given]) -> Option<()> {
    for given in all {
        give(bay, *given)?;
    }
    Some(())
}

/// The power of a store's active rebalance.
fn power_of(store: &Store) -> Option<u8> {
    let value = store.content().get(REBALANCE)?;
    value.as_bytes().get(1).copied()
}

/// The power of a store that was loaded, or why it wasn't.
fn power_loaded(loaded: Result<Store, LoadError>) -> Option<Result<u8, LoadError>> {
    match loaded {
        Ok(store) => {
            let power = power_of(&store);
            drop(store);
            Some(Ok(power?))
        }
        Err(cause) => Some(Err(cause)),
    }
}

fn loaded_on(
    alloc: Global,
    bay: &mut MemBay,
    all: &[Given],
    order: Order,
) -> Option<Result<u8, LoadError>> {
    give_all(bay, all)?;
    match load(alloc, bay, order) {
        Some(loaded) => power_loaded(loaded),
        None => None,
    }
}

/// The power that the copies are loaded with, in an order, or why they aren't.
fn loaded(alloc: Global, all: &[Given], order: Order) -> Option<Result<u8, LoadError>> {
    match two_disks(alloc) {
        Some(mut bay) => {
            let loaded = loaded_on(alloc, &mut bay, all, order);
            drop(bay);
            loaded
        }
        None => None,
    }
}

/// What the disks are given, the order of their copies, and what is loaded.
type Row = (&'static [Given], Order, Result<u8, LoadError>);

/// How many rows are so, until one isn't.
fn count_right(alloc: Global, rows: &[Row]) -> usize {
    for (place, (all, order, wanted)) in rows.iter().enumerate() {
        if loaded(alloc, all, *order) != Some(*wanted) {
            return place;
        }
    }
    rows.len()
}

/// Loads the copies of each row. Fails by a name and the place of the first row that isn't so.
fn load_all(alloc: Global, name: &'static str, rows: &[Row]) -> Result<(), Wrong> {
    all_right(name, count_right(alloc, rows), rows.len())
}

const LOST: Result<u8, LoadError> = Err(LoadError::DirectoriesLost);

/// Two copies of one number with the same page.
const FIRST: Given = Given::Log(0, 7, 1);

const SECOND: Given = Given::Log(1, 7, 1);

const DAMAGED: [Row; 7] = [
    (
        &[FIRST, SECOND, Given::Sevens(1, 20)],
        Order::Given,
        Err(LoadError::Damaged { slot: 1, block: 20 }),
    ),
    (
        &[FIRST, SECOND, Given::Sevens(1, 139)],
        Order::Given,
        Err(LoadError::Damaged {
            slot: 1,
            block: 139,
        }),
    ),
    (
        &[FIRST, SECOND, Given::Sevens(1, 140)],
        Order::Given,
        Err(LoadError::Damaged {
            slot: 1,
            block: 140,
        }),
    ),
    // The first damaged copy in the order given is named.
    (
        &[FIRST, SECOND, Given::Sevens(0, 140), Given::Sevens(1, 20)],
        Order::Given,
        Err(LoadError::Damaged {
            slot: 0,
            block: 140,
        }),
    ),
    (
        &[FIRST, SECOND, Given::Sevens(0, 140), Given::Sevens(1, 20)],
        Order::Turned,
        Err(LoadError::Damaged { slot: 1, block: 20 }),
    ),
    // The later of two pages with one key is named.
    (
        &[FIRST, SECOND, Given::Power(0, 17, 1)],
        Order::Given,
        Err(LoadError::Damaged { slot: 0, block: 17 }),
    ),
    (
        &[FIRST, SECOND, Given::Power(0, 12, 1)],
        Order::Given,
        Err(LoadError::Damaged {
            slot: 0,
            block: 140,
        }),
    ),
];

fn damage_in_one_copy_refuses(alloc: Global) -> Result<(), Wrong> {
    load_all(alloc, "damage in one copy refuses", &DAMAGED)
}

const TAKEN: [Row; 6] = [
    // A home under an image isn't asked.
    (&[FIRST, SECOND, Given::Sevens(1, 13)], Order::Given, Ok(1)),
    // The greater number is taken.
    (
        &[Given::Log(0, 6, 1), Given::Log(1, 7, 2)],
        Order::Given,
        Ok(2),
    ),
    (
        &[
            Given::Log(0, 6, 1),
            Given::Log(1, 7, 2),
            Given::Log(0, 7, 3),
        ],
        Order::Given,
        Ok(3),
    ),
    // Of equal numbers that of the least disk is taken.
    (&[FIRST, Given::Log(1, 7, 2)], Order::Given, Ok(1)),
    (&[FIRST, Given::Log(1, 7, 2)], Order::Turned, Ok(1)),
    // One copy fails.
    (&[FIRST, SECOND, Given::Fault(3)], Order::Given, Ok(1)),
];

const WITHOUT: [Row; 2] = [
    (&[Given::Power(0, 12, 1)], Order::Given, LOST),
    (
        &[FIRST, SECOND, Given::Fault(3), Given::Fault(4)],
        Order::Given,
        LOST,
    ),
];

fn shut_and_failing_copies_have_no_directories(alloc: Global) -> Result<(), Wrong> {
    load_all(
        alloc,
        "shut and failing copies have no directories",
        &WITHOUT,
    )
}

const LAGGING: [Given; 3] = [
    Given::Log(0, 6, 1),
    Given::Power(0, 17, 1),
    Given::Log(1, 7, 2),
];

/// The power that a store has, and whether the copies of disks 0 and 1 are its own.
fn told(store: &Store) -> Option<(u8, [bool; 2])> {
    Some((power_of(store)?, [store.has(0), store.has(1)]))
}

fn told_loaded(loaded: Option<Result<Store, LoadError>>) -> Option<(u8, [bool; 2])> {
    match loaded {
        Some(Ok(store)) => {
            let told = told(&store);
            drop(store);
            told
        }
        _ => None,
    }
}

/// The same of two copies of which one lags.
fn lagging(alloc: Global) -> Option<(u8, [bool; 2])> {
    match two_disks(alloc) {
        Some(mut bay) => {
            let told = match give_all(&mut bay, &LAGGING) {
                Some(()) => told_loaded(load(alloc, &mut bay, Order::Given)),
                None => None,
            };
            drop(bay);
            told
        }
        None => None,
    }
}

pub fn play_rows(alloc: Global) -> Result<(), Wrong> {
    damage_in_one_copy_refuses(alloc)?;
    load_all(alloc, "greatest number and least disk are taken", &TAKEN)?;
    shut_and_failing_copies_have_no_directories(alloc)?;
    let told = lagging(alloc);
    row(
        "two pages with one key in a lagging copy are no damage",
        told == Some((2, [false, true])),
    )
}
