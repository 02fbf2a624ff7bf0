// Two copies on disks in memory, and what is asked of them. Disks, stores and changes are dropped
// by a call in one place, since what goes in place is proved in place.
ghost use Rattle.std.specs.Prelude.{◌≡◌, ◌≤◌, ◌<◌, ◌+◌, ◌==◌, ◌&&◌, [], nat_le, true, length, IfOk, IfSome};
ghost use Rattle.change_directory.specs.Places.{IsCopy};
ghost use Rattle.change_directory.specs.declared.copy.DirCopy.{DirCopy as Copy};
ghost use Rattle.directory_store.specs.Contents.{ArePutItems};
ghost use Rattle.directory_store.specs.Stores.{Keeps};

use crate::helpers::SIZE;
use asm_base::{Change, Key, List, NoMemory, Value};
use bay::Bay;
use bay_mem::MemBay;
use change_directory::DirCopy;
use directory_store::{LoadError, Store};
use std::alloc::Global;

/// Copies of 128 pages on two disks.
pub const FIRST: DirCopy = DirCopy {
    number: 0,
    slot: 0,
    dir_blocks: 128,
    sector: 512,
};

pub const SECOND: DirCopy = DirCopy {
    number: 1,
    slot: 1,
    dir_blocks: 128,
    sector: 512,
};

/// The key of the active rebalance.
pub const REBALANCE: Key = Key {
    kind: 4,
    a: 0,
    b: 0,
};

/// Two disks of zeros.
pub fn two_disks(alloc: Global) -> Option<MemBay> {
    MemBay::new(alloc, &[Some(SIZE), Some(SIZE)]).ok()
}

/// Whether a copy of 128 pages lies on a disk of a size.
fn lies_on(copy: DirCopy, size: u64) -> bool
    ensures { result ≡ (nat_le 1105920 size && ((copy.dir_blocks == 128) && (copy.sector == 512))) }
{
    1_105_920 <= size && (copy.dir_blocks == 128 && copy.sector == 512)
}

/// Attaches the disk of a copy, and tells whether the copy lies on it.
pub fn is_there<B: Bay>(bay: &mut B, copy: DirCopy) -> bool
    ensures here { result ≡ true → IsCopy (B.state bay.new) copy }
    ensures others { (c : Copy) → IsCopy (B.state bay.old) c → IsCopy (B.state bay.new) c }
{
    match bay.attach(copy.slot, "disk") {
        Ok(size) => lies_on(copy, size),
        Err(_) => false,
    }
}

/// A change that does nothing.
pub fn no_change(alloc: Global) -> Change
    ensures put { result.put ≡ [] }
    ensures gone { result.gone ≡ [] }
{
    Change {
        put: List::new(alloc),
        gone: List::new(alloc),
    }
}

/// A change that puts an active rebalance of power 7.
pub fn rebalance(alloc: Global) -> Result<Change, NoMemory>
    ensures items { IfOk result (λ change. ArePutItems change.put) }
    ensures few { IfOk result (λ change. length change.put + length change.gone ≤ 64) }
{
    let value = Value::from_slice(alloc, &[0, 7])?;
    let mut change = no_change(alloc);
    change.put.push((REBALANCE, value))?;
    Ok(change)
}

/// A store of the first records on both copies. None where it may not be asked, or isn't made.
pub fn create_with<B: Bay>(alloc: Global, bay: &mut B, first: &Change) -> Option<Store>
    requires { ArePutItems first.now.put }
    ensures { IfSome result (λ store. Keeps store (B.state bay.new)) }
{
    if !is_there(bay, FIRST) {
        return None;
    }
    if !is_there(bay, SECOND) {
        return None;
    }
    match Store::create(alloc, bay, &[FIRST, SECOND], first) {
        Ok(store) => Some(store),
        Err(_) => None,
    }
}

/// A store without records on both copies. None where it may not be asked, or isn't made.
pub fn create_on_two<B: Bay>(alloc: Global, bay: &mut B) -> Option<Store>
    ensures { IfSome result (λ store. Keeps store (B.state bay.new)) }
{
    let nothing = no_change(alloc);
    let store = create_with(alloc, bay, &nothing);
    drop(nothing);
    store
}

/// A store of one record on the first copy, which is then brought to the second, whatever that
/// held. None where it may not be asked, or fails.
pub fn create_and_copy<B: Bay>(alloc: Global, bay: &mut B) -> Option<Store>
    ensures { IfSome result (λ store. Keeps store (B.state bay.new)) }
{
    if !is_there(bay, FIRST) {
        return None;
    }
    if !is_there(bay, SECOND) {
        return None;
    }
    let Ok(first) = rebalance(alloc) else {
        return None;
    };
    let Ok(mut store) = Store::create(alloc, bay, &[FIRST], &first) else {
        return None;
    };
    match store.copy_to(alloc, bay, SECOND) {
        Ok(()) => Some(store),
        Err(_) => None,
    }
}

/// Loads the store of one copy. None where it isn't there.
pub fn load_one(alloc: Global, bay: &mut MemBay, copy: DirCopy) -> Option<Result<Store, LoadError>>
    requires { copy.number < 64 }
{
    if !is_there(bay, copy) {
        return None;
    }
    Some(Store::load(alloc, bay, &[copy]))
}

/// In which order the copies are given.
#[derive(Clone, Copy)]
pub enum Order {
    Given,
    Turned,
}

/// Loads the store of both copies. None where one isn't there.
pub fn load(alloc: Global, bay: &mut MemBay, order: Order) -> Option<Result<Store, LoadError>> {
    if !is_there(bay, FIRST) {
        return None;
    }
    if !is_there(bay, SECOND) {
        return None;
    }
    match order {
        Order::Given => Some(Store::load(alloc, bay, &[FIRST, SECOND])),
        Order::Turned => Some(Store::load(alloc, bay, &[SECOND, FIRST])),
    }
}
