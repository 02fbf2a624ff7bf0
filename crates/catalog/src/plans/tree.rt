//! The plan of an edit of the tree of names.

ghost use Rattle.std.specs.Prelude.{◌≡◌, ◌⊎◌, ◌<◌, ◌+◌, IfErr, IfOk, IsTrue, None, Ok, Some, true};
ghost use Rattle.asm_group.specs.TreeEdits as edits;
ghost use Rattle.asm_group.specs.declared.NodeKind.TheVariants.{Alias};
ghost use Rattle.refusal_lines.specs.declared.refusal.Refusal.TheVariants.{DirectoryFull, NoMemory as WithoutMemory};
ghost use Rattle.plan_records.specs.alias_edits.Edits.{ChangesNodes, IsChange, IsRefusal, edit_meant, is_tree_edit, nodes_after};
ghost use Rattle.plan_records.specs.alias_tree.Nodes.{IsNodeTable, node_at, with_numbered_node, without_numbered_node};
ghost use Rattle.plan_records.specs.alias_tree.Trees.{tree_of};
ghost use Rattle.plan_records.specs.file_directory.Files.{head_at};
ghost use Rattle.catalog.specs.Plans.{IsPlan};
ghost use Rattle.plan_records.specs.catalog_tables.Rules.{blocks_used};
ghost use Rattle.catalog.specs.TreePlans.{IsTreeFull, IsNewAlias, IsTreePlan, IsTreeRefusal, KeepsName, MayChange, MayGo, MayPutNode, aliased_head, heads_after, heads_with, heads_without, keeps_files};

use crate::catalog::Catalog;
use crate::plans::refusals::no_memory;
use asm_base::{Change, NoMemory, NodeKind};
use plan_records::{
    Node, TreeChange, TreeEdit, TreeError, node_key, node_record, one_gone, one_put, plan,
    record_of, refusal_of, two_put, with_alias,
};
use refusal_lines::Refusal;
use std::alloc::Global;

impl Catalog {
    /// The change that an edit of the tree is. Its refusals are those of alias_edits::edit, and
    /// then DirectoryFull where it makes a node and no block is free. The parts of a name that it
    /// puts have at most 80 bytes. The names of files come and go with their files alone.
    #[tactic(auto, using(crate::proofs::TreeEditPlans::tree_planned, crate::proofs::TreeEditPlans::plan_refused, crate::proofs::TreeEditPlans::edit_refused))]
    pub fn plan_tree(&self, alloc: Global, edit: &TreeEdit) -> Result<Change, Refusal>
        requires edit { IsTrue (is_tree_edit (edit_meant edit.now)) }
        requires files { keeps_files (edit_meant edit.now) ≡ true }
        ensures planned { IfOk result (λ plan. IsTreePlan self.now (edit_meant edit.now) plan.put
            plan.gone) }
        ensures refused { IfErr result (IsTreeRefusal self.now (edit_meant edit.now)) }
    {
        self.keeps_rules();
        let change = match self.tree_change(alloc, edit) {
            Ok(change) => change,
            Err(error) => return Err(refusal_of(error)),
        };
        match self.plan_change(alloc, change) {
            Ok(plan) => Ok(plan),
            Err(refusal) => Err(refusal),
        }
    }

    /// What an edit changes of the nodes.
    fn tree_change(&self, alloc: Global, edit: &TreeEdit) -> Result<TreeChange, TreeError>
        requires { IsTrue (is_tree_edit (edit_meant edit.now)) }
        ensures done { IfOk result (λ change. edits.edited (tree_of self.now.tables.nodes)
            (edit_meant edit.now) ≡ Ok (tree_of (nodes_after self.now.tables.nodes change))) }
        ensures table { IfOk result (λ change. IsNodeTable
            (nodes_after self.now.tables.nodes change)) }
        ensures nodes { IfOk result (λ change. ChangesNodes self.now.tables.nodes
            (nodes_after self.now.tables.nodes change) (edit_meant edit.now)) }
        ensures change { IfOk result (IsChange self.now.tables.nodes (edit_meant edit.now)) }
        ensures refused { IfErr result (IsRefusal
            (edits.edited (tree_of self.now.tables.nodes) (edit_meant edit.now))) }
    {
        plan(&self.parts.tree, alloc, edit)
    }

    /// The change of records that a change of the nodes is.
    fn plan_change(&self, alloc: Global, change: TreeChange) -> Result<Change, Refusal>
        requires table { IsNodeTable (nodes_after self.now.tables.nodes change) }
        requires may { MayChange self.now.tables change }
        ensures planned { IfOk result (λ plan. IsPlan self.now plan.put plan.gone
            (record self.now.tables {
              nodes = nodes_after self.now.tables.nodes change;
              files = heads_after self.now.tables change;
            })) }
        ensures refused { IfErr result (λ e. (e ≡ WithoutMemory)
            ⊎ ((e ≡ DirectoryFull 1 0) × IsTreeFull self.now change)) }
    {
        match change {
            TreeChange::Put { number, node } => self.put_node(alloc, number, &node),
            TreeChange::Gone { number } => self.drop_node(alloc, number).map_err(no_memory),
            TreeChange::NamesGone { numbers: _ } => unreachable!(),
        }
    }

    fn put_node(&self, alloc: Global, number: u32, node: &Node) -> Result<Change, Refusal>
        requires table { IsNodeTable (with_numbered_node self.now.tables.nodes number node.now) }
        requires may { MayPutNode self.now.tables node.now (node_at self.now.tables.nodes number) }
        ensures planned { IfOk result (λ plan. IsPlan self.now plan.put plan.gone
            (record self.now.tables {
              nodes = with_numbered_node self.now.tables.nodes number node.now;
              files = heads_with self.now.tables.files number node.now
                  (node_at self.now.tables.nodes number);
            })) }
        ensures refused { IfErr result (λ e. (e ≡ WithoutMemory)
            ⊎ ((e ≡ DirectoryFull 1 0) × (node_at self.now.tables.nodes number ≡ None)
            × (blocks_used self.now.tables + 2 ≡ self.now.shape.dir_blocks))) }
    {
        if self.node(number).is_some() {
            return self.set_node(alloc, number, node).map_err(no_memory);
        }
        if self.free_blocks() == 0 {
            return Err(Refusal::DirectoryFull { need: 1, free: 0 });
        }
        match node.kind {
            NodeKind::Alias => self.set_alias(alloc, number, node).map_err(no_memory),
            NodeKind::Directory => self.set_node(alloc, number, node).map_err(no_memory),
            NodeKind::System => unreachable!(),
        }
    }

    /// A node that is put, of a directory or in place of one of its kind and file.
    fn set_node(&self, alloc: Global, number: u32, node: &Node) -> Result<Change, NoMemory>
        requires table { IsNodeTable (with_numbered_node self.now.tables.nodes number node.now) }
        requires kept { KeepsName (node_at self.now.tables.nodes number) node.now }
        requires room { node_at self.now.tables.nodes number ≡ None
            → blocks_used self.now.tables + 2 < self.now.shape.dir_blocks }
        ensures { IfOk result (λ plan. IsPlan self.now plan.put plan.gone
            (record self.now.tables {
              nodes = with_numbered_node self.now.tables.nodes number node.now;
            })) }
    {
        self.keeps_rules();
        let entry = node_record(alloc, number, node)?;
        let change = one_put(alloc, entry)?;
        Ok(change)
    }

    /// A new alias that is put, with the head of its file.
    fn set_alias(&self, alloc: Global, number: u32, node: &Node) -> Result<Change, NoMemory>
        requires table { IsNodeTable (with_numbered_node self.now.tables.nodes number node.now) }
        requires new { IsNewAlias self.now.tables node.now }
        requires free { node_at self.now.tables.nodes number ≡ None }
        requires room { blocks_used self.now.tables + 2 < self.now.shape.dir_blocks }
        ensures { IfOk result (λ plan. IsPlan self.now plan.put plan.gone
            (record self.now.tables {
              nodes = with_numbered_node self.now.tables.nodes number node.now;
              files = aliased_head self.now.tables.files node.now.file number
                  (head_at self.now.tables.files node.now.file);
            })) }
    {
        self.keeps_rules();
        let Some(head) = self.file(node.file) else {
            unreachable!()
        };
        let named = with_alias(head, number)?;
        let name = node_record(alloc, number, node)?;
        let file = record_of(alloc, node.file, &named)?;
        let change = two_put(alloc, name, file)?;
        Ok(change)
    }

    /// A directory or an alias that goes.
    fn drop_node(&self, alloc: Global, number: u32) -> Result<Change, NoMemory>
        requires table { IsNodeTable (without_numbered_node self.now.tables.nodes number) }
        requires may { MayGo (node_at self.now.tables.nodes number) }
        ensures { IfOk result (λ plan. IsPlan self.now plan.put plan.gone
            (record self.now.tables {
              nodes = without_numbered_node self.now.tables.nodes number;
              files = heads_without self.now.tables.files (node_at self.now.tables.nodes number);
            })) }
    {
        self.keeps_rules();
        let Some(node) = self.node(number) else {
            unreachable!()
        };
        match node.kind {
            NodeKind::Alias => self.drop_alias(alloc, number, node),
            NodeKind::Directory => {
                let change = one_gone(alloc, node_key(number))?;
                Ok(change)
            }
            NodeKind::System => unreachable!(),
        }
    }

    /// An alias that goes, with the head of its file.
    fn drop_alias(&self, alloc: Global, number: u32, node: &Node) -> Result<Change, NoMemory>
        requires table { IsNodeTable (without_numbered_node self.now.tables.nodes number) }
        requires there { node_at self.now.tables.nodes number ≡ Some node.now }
        requires kind { node.now.kind ≡ Alias }
        ensures { IfOk result (λ plan. IsPlan self.now plan.put plan.gone
            (record self.now.tables {
              nodes = without_numbered_node self.now.tables.nodes number;
              files = aliased_head self.now.tables.files node.now.file 0
                  (head_at self.now.tables.files node.now.file);
            })) }
    {
        self.keeps_rules();
        let Some(head) = self.file(node.file) else {
            unreachable!()
        };
        let unnamed = with_alias(head, 0)?;
        let file = record_of(alloc, node.file, &unnamed)?;
        let mut change = one_put(alloc, file)?;
        change.gone.push(node_key(number))?;
        Ok(change)
    }
}
