// What a commit costs.
ghost use Rattle.std.specs.Prelude.{◌≤◌, ◌+◌, length};
ghost use Rattle.bay_mem.specs.MemState.{state_of};
ghost use Rattle.directory_store.specs.Contents.{ArePutItems};
ghost use Rattle.directory_store.specs.Stores.{Keeps};

use crate::helpers::{Wrong, row};
use crate::stores::counting::CountingBay;
use crate::stores::stale::stale_change;
use crate::stores::trials::{create_on_two, create_with, rebalance, two_disks};
use asm_base::Change;
use bay::Bay;
use bay_mem::MemBay;
use directory_store::Store;
use std::alloc::Global;

/// How often a commit syncs the first copy and the second, and the disks that fail, as bits.
type Syncs = (u64, u64, u64);

fn syncs_of(
    alloc: Global,
    bay: &mut CountingBay,
    store: &mut Store,
    change: &Change,
) -> Option<Syncs>
    requires kept { Keeps store.old (state_of bay.old.disks) }
    requires items { ArePutItems change.now.put }
    requires few { length change.now.put + length change.now.gone ≤ 64 }
    ensures { Keeps store.new (state_of bay.new.disks) }
{
    let first = bay.first;
    let second = bay.second;
    let failed = store.commit(alloc, bay, change).ok()?.bits();
    let first = bay.first.saturating_sub(first);
    let second = bay.second.saturating_sub(second);
    Some((first, second, failed))
}

/// The same of two commits, one behind the other.
fn syncs_of_two(
    alloc: Global,
    bay: &mut CountingBay,
    store: &mut Store,
    change: &Change,
) -> Option<(Syncs, Syncs)>
    requires kept { Keeps store.old (state_of bay.old.disks) }
    requires items { ArePutItems change.now.put }
    requires few { length change.now.put + length change.now.gone ≤ 64 }
{
    let first = syncs_of(alloc, bay, store, change)?;
    let second = syncs_of(alloc, bay, store, change)?;
    Some((first, second))
}

/// The same of a rebalance in a store without records.
fn syncs_on(alloc: Global, bay: &mut CountingBay) -> Option<(Syncs, Syncs)> {
    match rebalance(alloc) {
        Ok(change) => match create_on_two(alloc, bay) {
            Some(mut store) => {
                let syncs = syncs_of_two(alloc, bay, &mut store, &change);
                drop(store);
                drop(change);
                syncs
            }
            None => {
                drop(change);
                None
            }
        },
        Err(_) => None,
    }
}

fn syncs(alloc: Global) -> Option<(Syncs, Syncs)> {
    match two_disks(alloc) {
        Some(disks) => {
            let mut bay = CountingBay {
                disks,
                first: 0,
                second: 0,
            };
            let syncs = syncs_on(alloc, &mut bay);
            drop(bay);
            syncs
        }
        None => None,
    }
}

fn are_few(syncs: Syncs, most: u64) -> bool {
    let (first, second, failed) = syncs;
    1 <= first && first <= most && 1 <= second && second <= most && failed == 0
}

fn commit_syncs_each_copy_at_most_five_times(alloc: Global) -> Result<(), Wrong> {
    match syncs(alloc) {
        Some((first, second)) => {
            row(
                "commit syncs each copy at most five times",
                are_few(first, 5),
            )?;
            row(
                "commit behind one syncs at most four times",
                are_few(second, 4),
            )
        }
        None => Err(("a commit", 0)),
    }
}

/// The bytes that a change writes to disk 0, how many records there are then, and the disks that
/// fail.
fn cost_of(
    alloc: Global,
    bay: &mut MemBay,
    store: &mut Store,
    change: &Change,
) -> Option<(u64, usize, u64)>
    requires kept { Keeps store.old (state_of bay.old) }
    requires items { ArePutItems change.now.put }
    requires few { length change.now.put + length change.now.gone ≤ 64 }
{
    let created = bay.written(0);
    let failed = store.commit(alloc, bay, change).ok()?.bits();
    let written = bay.written(0).saturating_sub(created);
    Some((written, store.content().iter().count(), failed))
}

/// The same of one record in a store.
fn cost_in(alloc: Global, bay: &mut MemBay, store: &mut Store) -> Option<(u64, usize, u64)>
    requires { Keeps store.old (state_of bay.old) }
{
    match stale_change(alloc, 100, 1, 1) {
        Ok(change) => {
            let cost = cost_of(alloc, bay, store, &change);
            drop(change);
            cost
        }
        Err(_) => None,
    }
}

/// The same in a store of these records.
fn cost_beside(alloc: Global, bay: &mut MemBay, records: &Change) -> Option<(u64, usize, u64)>
    requires { ArePutItems records.now.put }
{
    match create_with(alloc, bay, records) {
        Some(mut store) => {
            let cost = cost_in(alloc, bay, &mut store);
            drop(store);
            cost
        }
        None => None,
    }
}

/// The same beside 100 records.
fn cost_beside_100(alloc: Global, bay: &mut MemBay) -> Option<(u64, usize, u64)> {
    match stale_change(alloc, 0, 100, 1) {
        Ok(records) => {
            let cost = cost_beside(alloc, bay, &records);
            drop(records);
            cost
        }
        Err(_) => None,
    }
}

fn beside_100(alloc: Global) -> Option<(u64, usize, u64)> {
    match two_disks(alloc) {
        Some(mut bay) => {
            let cost = cost_beside_100(alloc, &mut bay);
            drop(bay);
            cost
        }
        None => None,
    }
}

fn one_record_beside_100_is_written_alone(alloc: Global) -> Result<(), Wrong> {
    match beside_100(alloc) {
        Some((written, records, failed)) => {
            let is_alone = records == 101 && failed == 0 && written <= 22_016;
            row("one record beside 100 is written alone", is_alone)
        }
        None => Err(("a commit", 0)),
    }
}

pub fn play_rows(alloc: Global) -> Result<(), Wrong> {
    commit_syncs_each_copy_at_most_five_times(alloc)?;
    one_record_beside_100_is_written_alone(alloc)
}
