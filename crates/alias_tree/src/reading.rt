//! The reading of a node from its record.

ghost use Rattle.std.specs.Prelude.{◌≡◌, ◌≤◌, ◌<◌, ◌^◌, length, IfOk};
ghost use Rattle.std.specs.Option.{option_map};
ghost use Rattle.asm_formats.specs.Items.{node_item, nodes_kind};
ghost use Rattle.asm_formats.specs.Values.{decoded_item};
ghost use Rattle.asm_base.specs.Cursors.{Reads};
ghost use Rattle.asm_base.specs.Records.{all_of};
ghost use Rattle.record_values.specs.Values.{node_reading};
ghost use Rattle.alias_tree.specs.Readings.{is_node_key};

use crate::node::Node;
use asm_base::{Key, NoMemory, Reader, Value, is_at_end, record_kind, take_name, take_u32};
use byte_codes::take_node_kind;
use std::alloc::Global;

/// The node that a record says, or None where it isn't of the formats.
#[tactic(auto, using(crate::proofs::Readings::node_is_read, crate::proofs::Readings::none_is_read))]
pub(crate) fn read_node(alloc: Global, key: Key, value: &Value) -> Result<Option<Node>, NoMemory>
    requires { key.kind ≡ nodes_kind }
    ensures { IfOk result (λ read. option_map (node_item key.a) read ≡ decoded_item key value.now) }
{
    if !is_node_key(key) {
        return Ok(None);
    }
    let node = read_bytes(alloc, value.as_bytes())?;
    Ok(node)
}

fn is_node_key(key: Key) -> bool
    ensures is { result ≡ is_node_key key }
    ensures fits { key.a < 2 ^ 32 }
{
    let number = key.a;
    key.kind == record_kind::NODES && number > 0 && key.b == 0
}

/// What a value of these bytes says of a node.
#[tactic(auto, unfolding(asm_base::specs::Records::all_of), using(asm_base::proofs::Tables::bytes_are))]
fn read_bytes(alloc: Global, bytes: &[u8]) -> Result<Option<Node>, NoMemory>
    requires { length bytes.now ≤ 4064 }
    ensures { IfOk result (λ read. read ≡ all_of node_reading bytes.now) }
{
    let mut from = Reader { bytes, at: 0 };
    let Some(node) = take_node(alloc, &mut from)? else {
        return Ok(None);
    };
    if is_at_end(&from) {
        Ok(Some(node))
    } else {
        Ok(None)
    }
}

#[tactic(auto, unfolding(record_values::specs::Values::node_reading))]
fn take_node(alloc: Global, from: &mut Reader) -> Result<Option<Node>, NoMemory>
    ensures { IfOk result (λ read. Reads from.new read (node_reading from.old)) }
{
    let Some(parent) = take_u32(from) else {
        return Ok(None);
    };
    let Some(kind) = take_node_kind(from) else {
        return Ok(None);
    };
    let Some(file) = take_u32(from) else {
        return Ok(None);
    };
    let Some(name) = take_name(alloc, from, 80)? else {
        return Ok(None);
    };
    Ok(Some(Node {
        parent,
        kind,
        file,
        name,
    }))
}
