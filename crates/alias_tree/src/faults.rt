//! Which node breaks the rule of the tree.

ghost use Rattle.std.specs.Prelude.{◌≡◌, IfNone, IfOk, IfSome, not, find};
ghost use Rattle.std.specs.Option.{option_map};
ghost use Rattle.asm_base.specs.Tables.{IsItemTable};
ghost use Rattle.alias_tree.specs.Faults.{HasFault, IsTwin, IsWithoutFault};
ghost use Rattle.alias_tree.specs.Nodes.{is_before, is_right, item_of_node};
ghost use Rattle.alias_tree.specs.Places.{HasIndex};

use crate::index::add_place;
use crate::nodes::Nodes;
use crate::places::Places;
use crate::tree::AliasTree;
use asm_base::{NoMemory, Records};
use std::alloc::Global;

impl AliasTree {
    /// A node that breaks the rule of the tree: the first whose parents don't lead to the root by
    /// directories, else one with the parent and name of an earlier one. None where there is no
    /// such node, or a record of its kind isn't of the formats.
    #[tactic(auto, using(crate::proofs::FoundFaults::none_read))]
    pub fn fault_in(alloc: Global, records: &Records) -> Result<Option<u32>, NoMemory>
        // The node that is named breaks the rule in a table that has these records.
        ensures fault { IfOk result (λ fault. IfSome fault (HasFault records.now)) }
        // Where none is named, no table that has these records breaks it.
        ensures none { IfOk result (λ fault. IfNone fault (IsWithoutFault records.now)) }
    {
        let Some(nodes) = Nodes::from_records(alloc, records)? else {
            return Ok(None);
        };
        if let Some(number) = nodes.first_unrooted() {
            return Ok(Some(number));
        }
        let twin = twin_in(alloc, &nodes)?;
        Ok(twin)
    }
}

/// The first node that has the parent and the name of an earlier one.
#[tactic(auto, using(crate::proofs::Readings::name_is_short, crate::proofs::Rules::so_far_none, crate::proofs::Rules::so_far_more, crate::proofs::Rules::so_far_indexed))]
fn twin_in(alloc: Global, nodes: &Nodes) -> Result<Option<u32>, NoMemory>
    requires { IsItemTable is_before item_of_node nodes.now }
    ensures twin { IfOk result (λ twin. IfSome twin (IsTwin nodes.now)) }
    ensures none { IfOk result (λ twin. IfNone twin (HasIndex nodes.now)) }
{
    let mut places = Places::new(alloc);
    for (number, node) in nodes.iter() {
        if !add_place(&mut places, *number, node)? {
            return Ok(Some(*number));
        }
    }
    Ok(None)
}
