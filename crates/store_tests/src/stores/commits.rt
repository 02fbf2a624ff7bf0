// What a commit writes, and what becomes of a copy that fails.
ghost use Rattle.bay_mem.specs.MemState.{state_of};
ghost use Rattle.directory_store.specs.Stores.{Keeps};

use crate::helpers::{Wrong, row};
use crate::stores::trials::{REBALANCE, create_on_two, rebalance, two_disks};
use bay::Bay;
use bay_mem::MemBay;
use directory_store::Store;
use std::alloc::Global;

/// Commits a rebalance of power 7, and gives the disks whose copies failed, as bits.
pub fn commit_rebalance(alloc: Global, bay: &mut MemBay, store: &mut Store) -> Option<u64>
    requires { Keeps store.old (state_of bay.old) }
    ensures { Keeps store.new (state_of bay.new) }
{
    match rebalance(alloc) {
        Ok(change) => {
            let failed = store.commit(alloc, bay, &change);
            drop(change);
            match failed {
                Ok(failed) => Some(failed.bits()),
                Err(_) => None,
            }
        }
        Err(_) => None,
    }
}

/// Whether the record of the rebalance has these bytes.
fn has_bytes(store: &Store, bytes: &[u8]) -> bool {
    match store.content().get(REBALANCE) {
        Some(value) => value.as_bytes() == bytes,
        None => false,
    }
}

/// The bytes that a creation and a commit write to disk 1, the disks that failed, and whether the
/// record is there.
type Committed = ([u64; 2], u64, bool);

fn committed_in(alloc: Global, bay: &mut MemBay, store: &mut Store) -> Option<Committed>
    requires { Keeps store.old (state_of bay.old) }
{
    let created = bay.written(1);
    let failed = commit_rebalance(alloc, bay, store)?;
    let written = bay.written(1).saturating_sub(created);
    Some(([created, written], failed, has_bytes(store, &[0, 7])))
}

fn committed_on(alloc: Global, bay: &mut MemBay) -> Option<Committed> {
    match create_on_two(alloc, bay) {
        Some(mut store) => {
            let committed = committed_in(alloc, bay, &mut store);
            drop(store);
            committed
        }
        None => None,
    }
}

fn committed(alloc: Global) -> Option<Committed> {
    match two_disks(alloc) {
        Some(mut bay) => {
            let committed = committed_on(alloc, &mut bay);
            drop(bay);
            committed
        }
        None => None,
    }
}

/// The calls of a creation, and the disks that fail in a commit whose first call fails, and in the
/// next one.
type GivenUp = (u64, [u64; 2]);

fn given_up_in(alloc: Global, bay: &mut MemBay, store: &mut Store) -> Option<GivenUp>
    requires { Keeps store.old (state_of bay.old) }
{
    let calls = bay.calls();
    let failed = commit_rebalance(alloc, bay, store)?;
    let again = commit_rebalance(alloc, bay, store)?;
    Some((calls, [failed, again]))
}

fn given_up_on(alloc: Global, bay: &mut MemBay) -> Option<GivenUp> {
    bay.fail_at(39).ok()?;
    match create_on_two(alloc, bay) {
        Some(mut store) => {
            let given_up = given_up_in(alloc, bay, &mut store);
            drop(store);
            given_up
        }
        None => None,
    }
}

fn given_up(alloc: Global) -> Option<GivenUp> {
    match two_disks(alloc) {
        Some(mut bay) => {
            let given_up = given_up_on(alloc, &mut bay);
            drop(bay);
            given_up
        }
        None => None,
    }
}

pub fn play_rows(alloc: Global) -> Result<(), Wrong> {
    // A creation writes 128 pages, and a head behind a gate that is opened; a commit a head, an
    // image and a page, behind a gate that is opened.
    let wanted = ([528_896, 12_288 + 512], 0, true);
    row(
        "a change is committed on both copies",
        committed(alloc) == Some(wanted),
    )?;
    row(
        "a copy that fails is given up",
        given_up(alloc) == Some((38, [1, 0])),
    )
}
