//! A tree in the midst of a change of records.

ghost use Rattle.std.specs.Prelude.{◌≡◌, ℕ, IfOk, None, OnErr, Some, if◌then◌else◌};
ghost use Rattle.std.specs.Bool.{OnFalse, OnTrue};
ghost use Rattle.std.specs.Ordering.{nat_cmp};
ghost use Rattle.std.specs.BTreeMap.{is_at};
ghost use Rattle.alias_tree.specs.Nodes.{KeepsRule, node_at};
ghost use Rattle.alias_tree.specs.Opening.{AreNodes, Refuses, node_value_at};
ghost use Rattle.asm_formats.specs.Items.{nodes_kind};

use crate::index::{put_at, remove_node};
use crate::nodes::Nodes;
use crate::places::{Places, named_place};
use crate::reading::read_node;
use asm_base::{Key, NoMemory, Value};
use std::alloc::Global;
use std::marker::Model;

/// The nodes of a tree while a change is under way: no two have one parent and one folded name, but
/// parents needn't lead to the root. Contracts see the list of the nodes in the order of their
/// numbers.
#[derive(Drop)]
pub struct OpenTree {
    pub(crate) nodes: Nodes,
    pub(crate) places: Places,
}

impl Model for OpenTree {
    ghost use Rattle.std.specs.Prelude.{List as Items, ℕ};
    ghost use Rattle.asm_formats.specs.Items.{Node as FormatNode};
    ghost use Rattle.alias_tree.specs.Opening.{AreNodes};
    ghost use Rattle.alias_tree.specs.Places.{IsIndex};

    ghost Value = { Items (ℕ × FormatNode) };

    ghost view = { λ t. t.nodes };

    ghost invariant = { λ t. AreNodes t.nodes × IsIndex t.nodes t.places };
}

impl OpenTree {
    /// Shows that the nodes are of the formats and in order, and does nothing.
    pub fn are_nodes(&self)
        ensures { AreNodes self.now }
    {
        let _nodes = &self.nodes;
    }

    /// Takes the node of a number away, where it is there.
    #[tactic(auto, using(crate::proofs::OpenLaws::record_gone, crate::proofs::OpenLaws::removed_keeps_nodes))]
    pub fn remove_record(&mut self, number: u32)
        ensures { (n : ℕ) → node_value_at self.new n
            ≡ (if is_at (nat_cmp number) n then None else node_value_at self.old n) }
    {
        let _ = remove_node(&mut self.nodes, &mut self.places, number);
    }

    /// Puts the node that a record says, where its number has none. `false`, with the nodes as they
    /// were, where the record isn't a node's or another node has its parent and folded name. Where
    /// there is no memory the nodes stay.
    #[tactic(auto, using(crate::proofs::OpenLaws::record_put, crate::proofs::OpenLaws::put_keeps_nodes, crate::proofs::OpenLaws::name_of_record, crate::proofs::OpenLaws::not_read, crate::proofs::OpenLaws::is_taken))]
    pub fn put_record(&mut self, alloc: Global, key: Key, value: &Value) -> Result<bool, NoMemory>
        requires kind { key.kind ≡ nodes_kind }
        requires absent { node_at self.old key.a ≡ None }
        ensures put { IfOk result (λ put. OnTrue put
            ((n : ℕ) → node_value_at self.new n
            ≡ (if is_at (nat_cmp key.a) n then Some value.now else node_value_at self.old n))) }
        ensures refused { IfOk result (λ put. OnFalse put (Refuses self.old key value.now)) }
        ensures stays { IfOk result (λ put. OnFalse put (self.new ≡ self.old)) }
        ensures err { OnErr result (self.new ≡ self.old) }
    {
        let Some(node) = read_node(alloc, key, value)? else {
            return Ok(false);
        };
        let at = named_place(node.parent, node.name.as_bytes());
        if self.places.get(at).is_some() {
            return Ok(false);
        }
        put_at(&mut self.nodes, &mut self.places, at, key.a, node)?;
        Ok(true)
    }
}
