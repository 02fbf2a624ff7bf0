//! The table of operations.

ghost use Rattle.std.specs.Prelude.{◌≡◌, ◌++◌, IfOk, IfSome, IsOk, OnOk, Some};
ghost use Rattle.asm_base.specs.Records.{of_kinds, read_from};
ghost use Rattle.operations_directory.specs.Operations.{IsOperationTable, Operations, is_operation, nothing_begun, records_of_operations};
ghost use Rattle.operations_directory.specs.Readings.{add_operation_record, with_operation, with_pending, with_rebalance};
ghost use Rattle.asm_formats.specs.Items.{operations_kind};

use crate::pending::Pending;
use crate::reading::{Operation, operation_in};
use crate::writing::{pending_record, rebalance_record};
use asm_base::{Change, Key, NoMemory, Records, Value, record_kind};
use std::alloc::Global;
use std::marker::Model;

/// At most one pending operation and one active rebalance. It takes no memory.
#[derive(Clone, Copy, Debug)]
pub struct OperationTable {
    pending: Option<Pending>,
    rebalance: Option<u16>,
}

impl Model for OperationTable {
    ghost use Rattle.operations_directory.specs.Operations.{Operations};

    ghost Value = { Operations };

    ghost view = { λ t. record { pending = t.pending; rebalance = t.rebalance } };

    ghost inverse = { λ t. record { pending = t.pending; rebalance = t.rebalance } };
}

impl OperationTable {
    pub fn new() -> OperationTable
        ensures { result ≡ nothing_begun }
    {
        OperationTable {
            pending: None,
            rebalance: None,
        }
    }

    /// The operation that has begun and not ended.
    pub fn pending(&self) -> Option<Pending>
        ensures { result ≡ self.now.pending }
    {
        self.pending
    }

    pub fn set_pending(&mut self, op: Option<Pending>)
        ensures { self.new ≡ record self.old { pending = op } }
    {
        self.pending = op;
    }

    /// The power of the active rebalance.
    pub fn rebalance(&self) -> Option<u16>
        ensures { result ≡ self.now.rebalance }
    {
        self.rebalance
    }

    pub fn set_rebalance(&mut self, power: Option<u16>)
        ensures { self.new ≡ record self.old { rebalance = power } }
    {
        self.rebalance = power;
    }

    /// Puts the table's records into a change. After an `Err` some of them may stand there.
    pub fn to_records(&self, alloc: Global, change: &mut Change) -> Result<(), NoMemory>
        ensures put { OnOk result (change.new.put
            ≡ change.old.put ++ records_of_operations self.now) }
        ensures gone { change.new.gone ≡ change.old.gone }
    {
        if let Some(power) = self.rebalance {
            change.put.push(rebalance_record(alloc, power)?)?;
        }
        if let Some(op) = self.pending {
            change.put.push(pending_record(alloc, &op)?)?;
        }
        Ok(())
    }

    /// The table whose records these are, or None where a record of its kind isn't of the formats.
    /// It takes no memory.
    pub fn from_records(records: &Records) -> Result<Option<OperationTable>, NoMemory>
        // What is read is a table that has these records.
        ensures found { IfOk result (λ read. IfSome read
            (λ t. IsOperationTable t × (of_kinds is_operation records.now
            ≡ records_of_operations t))) }
        // A table that has these records is read.
        ensures only { IfOk result (λ read. (t : Operations) → IsOperationTable t
            → of_kinds is_operation records.now ≡ records_of_operations t → read ≡ Some t) }
        ensures ok { IsOk result }
    {
        Ok(OperationTable::read(records))
    }

    #[tactic(auto, unfolding(asm_base::specs::Records::read_from))]
    fn read(records: &Records) -> Option<OperationTable>
        ensures { result ≡ read_from is_operation add_operation_record nothing_begun records.now }
    {
        let mut table = OperationTable::new();
        for (key, value) in records.iter() {
            if key.kind == record_kind::OPERATIONS {
                table = table.with_record(*key, value)?;
            }
        }
        Some(table)
    }

    /// The table with one record more of its kind, where that follows the others.
    fn with_record(self, key: Key, value: &Value) -> Option<OperationTable>
        requires { key.kind ≡ operations_kind }
        ensures { result ≡ add_operation_record self (key, value.now) }
    {
        let operation = operation_in(key, value.as_bytes())?;
        self.with_operation(operation)
    }

    /// The same by what the record says. Records come in the order of their keys: the rebalance,
    /// and then the operation.
    fn with_operation(self, operation: Operation) -> Option<OperationTable>
        ensures { result ≡ with_operation self operation }
    {
        match operation {
            Operation::Rebalance(power) => self.with_rebalance(power),
            Operation::Pending(op) => self.with_pending(op),
        }
    }

    fn with_rebalance(self, power: u16) -> Option<OperationTable>
        ensures { result ≡ with_rebalance self power }
    {
        if self.pending.is_some() || self.rebalance.is_some() {
            return None;
        }
        Some(OperationTable {
            pending: None,
            rebalance: Some(power),
        })
    }

    fn with_pending(self, op: Pending) -> Option<OperationTable>
        ensures { result ≡ with_pending self op }
    {
        if self.pending.is_some() {
            return None;
        }
        Some(OperationTable {
            pending: Some(op),
            rebalance: self.rebalance,
        })
    }
}
