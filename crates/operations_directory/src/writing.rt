//! The records of operations, written.

ghost use Rattle.std.specs.Prelude.{◌≡◌, IfOk};
ghost use Rattle.asm_formats.specs.Items.{rebalance_item, pending_item};
ghost use Rattle.asm_formats.specs.Values.{value, pending_value};
ghost use Rattle.asm_base.specs.Cursors.{PutsField};
ghost use Rattle.asm_base.specs.Tables.{item_record};

use crate::pending::Pending;
use asm_base::{Block, Key, NoMemory, Value, Writer, put_u16, put_u32, put_u64, record_kind};
use byte_codes::put_pending_kind;
use std::alloc::Global;

/// The record of an active rebalance of a power.
pub fn rebalance_record(alloc: Global, power: u16) -> Result<(Key, Value), NoMemory>
    ensures { IfOk result (λ made. made ≡ item_record (rebalance_item power)) }
{
    let key = Key {
        kind: record_kind::OPERATIONS,
        a: 0,
        b: 0,
    };
    Ok((key, power_value(alloc, power)?))
}

/// The record of a pending operation.
pub fn pending_record(alloc: Global, op: &Pending) -> Result<(Key, Value), NoMemory>
    ensures { IfOk result (λ made. made ≡ item_record (pending_item op.now)) }
{
    let key = Key {
        kind: record_kind::OPERATIONS,
        a: 1,
        b: 0,
    };
    Ok((key, pending_value(alloc, op)?))
}

#[tactic(auto, unfolding(asm_formats::specs::Values::value))]
fn power_value(alloc: Global, power: u16) -> Result<Value, NoMemory>
    ensures { IfOk result (λ v. v ≡ value (rebalance_item power)) }
{
    let mut block = Block::zeros();
    let mut to = Writer {
        block: &mut block,
        at: 0,
    };
    put_u16(&mut to, power);
    Value::from_writer(alloc, &to)
}

#[tactic(auto, unfolding(asm_formats::specs::Values::value))]
fn pending_value(alloc: Global, op: &Pending) -> Result<Value, NoMemory>
    ensures { IfOk result (λ v. v ≡ value (pending_item op.now)) }
{
    let mut block = Block::zeros();
    let mut to = Writer {
        block: &mut block,
        at: 0,
    };
    put_pending(&mut to, op);
    Value::from_writer(alloc, &to)
}

fn put_pending(to: &mut Writer, op: &Pending)
    requires { to.old.at ≡ 0 }
    ensures puts { PutsField to.old to.new (pending_value op.now) }
    ensures at { to.new.at ≡ 13 }
{
    let op = *op;
    put_pending_kind(to, op.kind);
    put_u32(to, op.file);
    put_u64(to, op.kept);
}
