//! The path of a node.

ghost use Rattle.std.specs.Prelude.{◌≡◌, ◌++◌, ◌∷◌, [], length, reverse, IfNone, IfOk, IfSome, None, OnOk, Some};
ghost use Rattle.std.specs.Option.{option_map};
ghost use Rattle.asm_formats.specs.Nodes.{entry_of_node};
ghost use Rattle.asm_group.specs.TreeEdits.{entry_at};
ghost use Rattle.alias_tree.specs.Nodes.{node_at, number_of};
ghost use Rattle.alias_tree.specs.Spelling.{names_to};
ghost use Rattle.alias_tree.specs.Trees.{tree_of};

use crate::tree::AliasTree;
use asm_base::{List, Name, NoMemory};
use std::alloc::Global;

impl AliasTree {
    /// The parts of a node's path, as the nodes spell them. None where there is no such node, as
    /// for the root. Work and memory go by the number of parts.
    #[tactic(auto, using(crate::proofs::Spelled::leads_there, crate::proofs::Spelled::has_entry))]
    pub fn path_to(&self, alloc: Global, node: u32) -> Result<Option<List<Name>>, NoMemory>
        ensures spelt { IfOk result (λ path. IfSome path
            (λ parts. parts ≡ names_to self.now (length self.now) node)) }
        // It leads to the node.
        ensures at { IfOk result (λ path. IfSome path
            (λ parts. number_of self.now parts ≡ Some node)) }
        ensures entry { IfOk result (λ path. IfSome path
            (λ parts. entry_at (tree_of self.now) parts
            ≡ option_map entry_of_node (node_at self.now node))) }
        ensures none { IfOk result (λ path. IfNone path (node_at self.now node ≡ None)) }
    {
        self.keeps_rule();
        if self.get(node).is_none() {
            return Ok(None);
        }
        let parts = self.names_down(alloc, node)?;
        Ok(Some(parts))
    }

    /// The names on the way down to a node.
    fn names_down(&self, alloc: Global, node: u32) -> Result<List<Name>, NoMemory>
        ensures { IfOk result (λ parts. parts ≡ names_to self.now (length self.now) node) }
    {
        let mut names = self.names_up(alloc, node)?;
        names.reverse();
        Ok(List::from_vec(names))
    }

    /// The names on the way up from a node.
    #[tactic(auto, using(crate::proofs::Spelled::one_up, crate::proofs::Spelled::at_top, crate::proofs::Spelled::at_last, crate::proofs::Spelled::at_first))]
    fn names_up(&self, alloc: Global, node: u32) -> Result<Vec<Name>, NoMemory>
        ensures { IfOk result (λ names. reverse names.items
            ≡ names_to self.now (length self.now) node) }
    {
        let mut names = Vec::new(alloc);
        let mut at = node;
        for step in 0..self.len() {
            let Some(found) = self.get(at) else {
                return Ok(names);
            };
            push_name(&mut names, &found.name)?;
            at = found.parent;
        }
        Ok(names)
    }
}

/// Puts an equal name behind others.
fn push_name(names: &mut Vec<Name>, name: &Name) -> Result<(), NoMemory>
    ensures { OnOk result (names.new.items ≡ names.old.items ++ name.now ∷ []) }
{
    let copy = name.copy()?;
    match names.push(copy) {
        Ok(()) => Ok(()),
        Err(_) => Err(NoMemory),
    }
}
