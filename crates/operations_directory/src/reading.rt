//! The values of the records of operations, read.

ghost use Rattle.std.specs.Prelude.{◌≡◌, ◌<◌, ◌^◌, length};
ghost use Rattle.std.specs.Int.{w16};
ghost use Rattle.asm_base.specs.Cursors.{Reads};
ghost use Rattle.asm_base.specs.Readings.{number_reading};
ghost use Rattle.asm_base.specs.Records.{all_of};
ghost use Rattle.asm_base.specs.Tables.{entry_of_record};
ghost use Rattle.asm_formats.specs.Items.{operations_kind};
ghost use Rattle.record_values.specs.Values.{pending_reading};
ghost use Rattle.operations_directory.specs.Readings.{operation_of, read_operation};

use crate::pending::Pending;
use asm_base::{Key, Reader, is_at_end, take_u16, take_u32, take_u64};
use byte_codes::take_pending_kind;

/// What one record says.
#[derive(Clone, Copy)]
pub enum Operation {
    /// The active rebalance, by its power.
    Rebalance(u16),
    Pending(Pending),
}

/// The operation of a record of the kind, or None where it isn't of the formats.
pub fn operation_in(key: Key, bytes: &[u8]) -> Option<Operation>
    requires kind { key.kind ≡ operations_kind }
    requires few { length bytes.now < 2 ^ 32 }
    ensures { result ≡ entry_of_record operation_of (key, bytes.now) }
{
    read_operation(key.a, key.b, bytes)
}

fn read_operation(a: u32, b: u32, bytes: &[u8]) -> Option<Operation>
    requires { length bytes.now < 2 ^ 32 }
    ensures { result ≡ read_operation a b bytes.now }
{
    match (a, b) {
        (0, 0) => Some(Operation::Rebalance(power_of(bytes)?)),
        (1, 0) => Some(Operation::Pending(pending_of(bytes)?)),
        _ => None,
    }
}

#[tactic(auto, using(asm_base::proofs::Tables::bytes_are), unfolding(asm_base::specs::Records::all_of))]
fn power_of(bytes: &[u8]) -> Option<u16>
    requires { length bytes.now < 2 ^ 32 }
    ensures { result ≡ all_of (number_reading w16) bytes.now }
{
    let mut from = Reader { bytes, at: 0 };
    let power = take_u16(&mut from)?;
    if is_at_end(&from) { Some(power) } else { None }
}

#[tactic(auto, using(asm_base::proofs::Tables::bytes_are), unfolding(asm_base::specs::Records::all_of))]
fn pending_of(bytes: &[u8]) -> Option<Pending>
    requires { length bytes.now < 2 ^ 32 }
    ensures { result ≡ all_of pending_reading bytes.now }
{
    let mut from = Reader { bytes, at: 0 };
    let op = take_pending(&mut from)?;
    if is_at_end(&from) { Some(op) } else { None }
}

#[tactic(auto, unfolding(record_values::specs::Values::pending_reading))]
fn take_pending(from: &mut Reader) -> Option<Pending>
    ensures { Reads from.new result (pending_reading from.old) }
{
    Some(Pending {
        kind: take_pending_kind(from)?,
        file: take_u32(from)?,
        kept: take_u64(from)?,
    })
}
