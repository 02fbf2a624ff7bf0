//! Changes of the table of operations, record by record.

ghost use Rattle.std.specs.Prelude.{◌≡◌, None, Some, if◌then◌else◌};
ghost use Rattle.std.specs.Bool.{OnFalse, OnTrue};
ghost use Rattle.asm_formats.specs.Items.{Key as FormatKey, is_same_key, operations_kind};
ghost use Rattle.asm_base.specs.Tables.{entry_of_record};
ghost use Rattle.operations_directory.specs.Changing.{set_operation, operation_value_at};
ghost use Rattle.operations_directory.specs.Operations.{IsOperationTable};
ghost use Rattle.operations_directory.specs.Readings.{operation_of};

use crate::reading::{Operation, operation_in};
use crate::table::OperationTable;
use asm_base::{Key, Value};

impl OperationTable {
    /// Takes up what a record says. `false`, with the table as it was, where it is no record of an
    /// operation. It takes no memory.
    #[tactic(auto, using(crate::proofs::ChangeLaws::operation_put, crate::proofs::ChangeLaws::operation_table))]
    pub fn put_record(&mut self, key: Key, value: &Value) -> bool
        requires { key.kind ≡ operations_kind }
        ensures put { OnTrue result ((k : FormatKey) → k.kind ≡ operations_kind
            → operation_value_at self.new k
            ≡ (if is_same_key key k then Some value.now else operation_value_at self.old k)) }
        ensures refused { OnFalse result (entry_of_record operation_of (key, value.now) ≡ None) }
        ensures stays { OnFalse result (self.new ≡ self.old) }
        ensures table { IsOperationTable self.old → IsOperationTable self.new }
    {
        let Some(operation) = operation_in(key, value.as_bytes()) else {
            return false;
        };
        self.set_operation(operation);
        true
    }

    fn set_operation(&mut self, operation: Operation)
        ensures { self.new ≡ set_operation self.old operation }
    {
        match operation {
            Operation::Rebalance(power) => self.set_rebalance(Some(power)),
            Operation::Pending(op) => self.set_pending(Some(op)),
        }
    }

    /// Takes away what the record of a key said.
    #[tactic(auto, using(crate::proofs::ChangeLaws::rebalance_gone, crate::proofs::ChangeLaws::pending_gone, crate::proofs::ChangeLaws::other_gone, crate::proofs::ChangeLaws::no_rebalance, crate::proofs::ChangeLaws::no_pending))]
    pub fn remove_record(&mut self, key: Key)
        requires { key.kind ≡ operations_kind }
        ensures gone { (k : FormatKey) → k.kind ≡ operations_kind
            → operation_value_at self.new k
            ≡ (if is_same_key key k then None else operation_value_at self.old k) }
        ensures table { IsOperationTable self.old → IsOperationTable self.new }
    {
        if key.b != 0 {
            return;
        }
        if key.a == 0 {
            self.set_rebalance(None);
        } else if key.a == 1 {
            self.set_pending(None);
        }
    }
}
