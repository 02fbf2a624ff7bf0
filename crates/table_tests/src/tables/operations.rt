// The table of operations that are begun and not ended.
use crate::helpers::{Wrong, row};
use crate::tables::given::{no_change, put_all_but, value};
use asm_base::{Change, Key, PendingKind, Records, Value};
use operations_directory::{OperationTable, Pending};
use std::alloc::Global;

/// A rebalance of power 4, and a file that grows.
fn begun() -> OperationTable {
    let mut table = OperationTable::new();
    table.set_rebalance(Some(4));
    table.set_pending(Some(Pending {
        kind: PendingKind::Grow,
        file: 256,
        kept: 7,
    }));
    table
}

/// The table of the records that a change puts.
fn read(alloc: Global, change: Change) -> Option<OperationTable> {
    let mut records = Records::new(alloc);
    let table = match put_all_but(&mut records, change, 0) {
        Some(()) => OperationTable::from_records(&records).ok().flatten(),
        None => None,
    };
    drop(records);
    table
}

/// The table that is read from the records of another.
fn read_again(alloc: Global, table: &OperationTable) -> Option<OperationTable> {
    let mut change = no_change(alloc);
    match table.to_records(alloc, &mut change) {
        Ok(()) => read(alloc, change),
        Err(_) => {
            drop(change);
            None
        }
    }
}

/// The power of the rebalance, and the file that is pending with the extents that it keeps.
fn told(table: &OperationTable) -> Option<(Option<u16>, u32, u64)> {
    let pending = table.pending()?;
    Some((table.rebalance(), pending.file, pending.kept))
}

/// What is written is read again.
fn told_again(alloc: Global) -> Option<(Option<u16>, u32, u64)> {
    told(&read_again(alloc, &begun())?)
}

const REBALANCE: Key = Key {
    kind: 4,
    a: 0,
    b: 0,
};

/// The power once a record is put, and once it is taken away.
fn powers_by(power: &Value) -> Option<[Option<u16>; 2]> {
    let mut table = OperationTable::new();
    if !table.put_record(REBALANCE, power) {
        return None;
    }
    let put = table.rebalance();
    table.remove_record(REBALANCE);
    Some([put, table.rebalance()])
}

fn powers(alloc: Global) -> Option<[Option<u16>; 2]> {
    match value(alloc, &[0, 4]) {
        Some(power) => {
            let powers = powers_by(&power);
            drop(power);
            powers
        }
        None => None,
    }
}

pub fn play_rows(alloc: Global) -> Result<(), Wrong> {
    let told = told_again(alloc);
    row(
        "operations are written and read",
        told == Some((Some(4), 256, 7)),
    )?;
    let powers = powers(alloc);
    row(
        "a rebalance is put by its record",
        powers == Some([Some(4), None]),
    )
}
