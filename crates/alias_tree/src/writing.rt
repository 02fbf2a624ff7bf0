//! The record of a node.

ghost use Rattle.std.specs.Prelude.{◌≡◌, IfOk, IsTrue};
ghost use Rattle.asm_formats.specs.Items.{is_item, node_item};
ghost use Rattle.asm_formats.specs.Values.{node_value, value};
ghost use Rattle.asm_base.specs.Cursors.{PutsField};
ghost use Rattle.asm_base.specs.Tables.{item_record};

use crate::node::Node;
use asm_base::{Block, Key, NoMemory, Value, Writer, put_name, put_u32, record_kind};
use byte_codes::put_node_kind;
use std::alloc::Global;

/// The record of a node of this number.
#[tactic(auto, unfolding(asm_formats::specs::Values::value))]
pub fn node_record(alloc: Global, number: u32, node: &Node) -> Result<(Key, Value), NoMemory>
    requires { IsTrue (is_item (node_item number node.now)) }
    ensures { IfOk result (λ r. r ≡ item_record (node_item number node.now)) }
{
    let key = Key {
        kind: record_kind::NODES,
        a: number,
        b: 0,
    };
    Ok((key, value_of(alloc, number, node)?))
}

#[tactic(auto, unfolding(asm_formats::specs::Values::value))]
fn value_of(alloc: Global, number: u32, node: &Node) -> Result<Value, NoMemory>
    requires { IsTrue (is_item (node_item number node.now)) }
    ensures { IfOk result (λ v. v ≡ value (node_item number node.now)) }
{
    let mut block = Block::zeros();
    let mut to = Writer {
        block: &mut block,
        at: 0,
    };
    put_node(&mut to, number, node);
    Value::from_writer(alloc, &to)
}

#[tactic(auto, using(crate::proofs::Readings::name_is_short))]
fn put_node(to: &mut Writer, number: u32, node: &Node)
    requires start { to.old.at ≡ 0 }
    requires right { IsTrue (is_item (node_item number node.now)) }
    ensures puts { PutsField to.old to.new (node_value node.now) }
    ensures at { to.new.at ≡ 90 }
{
    put_u32(to, node.parent);
    put_node_kind(to, node.kind);
    put_u32(to, node.file);
    put_name(to, &node.name, 80);
}
