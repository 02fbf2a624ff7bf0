//! What edits would change.

ghost use Rattle.std.specs.Prelude.{◌≡◌, IfErr, IfOk, IsTrue, None, Ok};
ghost use Rattle.asm_group.specs.Causes.{first_cause};
ghost use Rattle.asm_group.specs.TreeEdits.{edit_causes, edited};
ghost use Rattle.alias_edits.specs.Edits.{ChangesNodes, IsChange, IsRefusal, edit_meant, is_tree_edit, nodes_after};
ghost use Rattle.alias_tree.specs.Nodes.{IsNodeTable};
ghost use Rattle.alias_tree.specs.Trees.{tree_of};

use crate::changing::{dropped_alias, dropped_dir, moved_alias, moved_dir, new_alias, new_node};
use crate::editing::{TreeEdit, TreeError, refusal};
use alias_tree::{AliasTree, NoMemory, Node, NodeKind};
use std::alloc::Global;

/// What an edit changes of the nodes.
#[derive(Drop)]
pub enum TreeChange {
    /// This node is put at this number, in place of the one that is there.
    Put { number: u32, node: Node },
    /// The node of this number goes.
    Gone { number: u32 },
    /// The nodes of these numbers go, which are the names of a file.
    NamesGone { numbers: Vec<u32> },
}

/// What an edit changes, of which nothing is done. It is refused as `edit` refuses it.
#[tactic(auto, using(crate::proofs::EditLaws::edited_is, crate::proofs::EditLaws::refused_is, crate::proofs::PlanLaws::change_nodes))]
pub fn plan(tree: &AliasTree, alloc: Global, edit: &TreeEdit) -> Result<TreeChange, TreeError>
    requires { IsTrue (is_tree_edit (edit_meant edit.now)) }
    // The nodes after the change are those of the tree of names after the edit.
    ensures done { IfOk result (λ change. edited (tree_of tree.now) (edit_meant edit.now)
        ≡ Ok (tree_of (nodes_after tree.now change))) }
    ensures table { IfOk result (λ change. IsNodeTable (nodes_after tree.now change)) }
    ensures nodes { IfOk result (λ change. ChangesNodes tree.now (nodes_after tree.now change)
        (edit_meant edit.now)) }
    // One node is put, or one goes, or the names of a file.
    ensures change { IfOk result (IsChange tree.now (edit_meant edit.now)) }
    ensures refused { IfErr result (IsRefusal (edited (tree_of tree.now) (edit_meant edit.now))) }
{
    tree.keeps_rule();
    if let Some(cause) = refusal(tree, edit) {
        return Err(cause);
    }
    match change(tree, alloc, edit) {
        Ok(change) => Ok(change),
        Err(NoMemory) => Err(TreeError::NoMemory),
    }
}

/// What an edit changes that isn't refused.
fn change(tree: &AliasTree, alloc: Global, edit: &TreeEdit) -> Result<TreeChange, NoMemory>
    requires edit { IsTrue (is_tree_edit (edit_meant edit.now)) }
    requires free { first_cause (edit_causes (tree_of tree.now) (edit_meant edit.now)) ≡ None }
    ensures change { IfOk result (IsChange tree.now (edit_meant edit.now)) }
    ensures table { IfOk result (λ change. IsNodeTable (nodes_after tree.now change)) }
{
    match edit {
        TreeEdit::MakeDir { path } => {
            let (number, node) = new_node(tree, path, NodeKind::Directory, 0)?;
            Ok(TreeChange::Put { number, node })
        }
        TreeEdit::DropDir { path } => {
            let number = dropped_dir(tree, path);
            Ok(TreeChange::Gone { number })
        }
        TreeEdit::RenameDir { old, new } => {
            let (number, node) = moved_dir(tree, old, new)?;
            Ok(TreeChange::Put { number, node })
        }
        TreeEdit::AddAlias { alias, path } => {
            let (number, node) = new_alias(tree, alias, path)?;
            Ok(TreeChange::Put { number, node })
        }
        TreeEdit::RenameAlias { old, new } => {
            let (number, node) = moved_alias(tree, old, new)?;
            Ok(TreeChange::Put { number, node })
        }
        TreeEdit::DropAlias { path } => {
            let number = dropped_alias(tree, path);
            Ok(TreeChange::Gone { number })
        }
        TreeEdit::AddFile { path, file } => {
            let (number, node) = new_node(tree, path, NodeKind::System, *file)?;
            Ok(TreeChange::Put { number, node })
        }
        TreeEdit::DropFile { file } => {
            let numbers = tree.names_of(alloc, *file)?;
            Ok(TreeChange::NamesGone { numbers })
        }
    }
}
