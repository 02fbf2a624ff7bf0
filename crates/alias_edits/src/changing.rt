//! What edits do to the nodes, where they aren't refused.

ghost use Rattle.std.specs.Prelude.{◌≡◌, ◌<◌, IfOk, IsTrue, OnErr, OnOk, None, Some, false, is_some, true};
ghost use Rattle.asm_group.specs.Causes.{first_cause};
ghost use Rattle.asm_group.specs.TreeEdits.{AddAliasEntry, DropAliasEntry, DropDir, RenameAliasEntry, RenameDir, edit_causes, entry_at, lacks_parent, new_name_causes};
ghost use Rattle.alias_edits.specs.Edits.{HangsAt, IsMadeNode, IsMadeAlias, IsMoved, MovesNode, PutsAlias, PutsNode, RemovesNames, RemovesNode, are_parts};
ghost use Rattle.alias_tree.specs.Nodes.{IsNodeTable, number_of, with_numbered_node, without_numbered_node};
ghost use Rattle.alias_tree.specs.Trees.{tree_of};

use crate::causes::{above, file_at};
use alias_tree::{AliasTree, NoMemory, Node, NodeKind, Path};

/// Puts a node at a path where none is.
pub(crate) fn make(
    tree: &mut AliasTree,
    path: &Path,
    kind: NodeKind,
    file: u32,
) -> Result<(), NoMemory>
    requires parts { IsTrue (are_parts path.now.parts) }
    requires free { first_cause (new_name_causes (tree_of tree.old) path.now.parts) ≡ None }
    ensures ok { OnOk result (PutsNode tree.old tree.new path.now.parts kind file) }
    ensures err { OnErr result (tree.new ≡ tree.old) }
{
    let (number, node) = new_node(tree, path, kind, file)?;
    tree.put(number, node)
}

/// A new node for a path where none is, with its number.
pub(crate) fn new_node(
    tree: &AliasTree,
    path: &Path,
    kind: NodeKind,
    file: u32,
) -> Result<(u32, Node), NoMemory>
    requires parts { IsTrue (are_parts path.now.parts) }
    requires free { first_cause (new_name_causes (tree_of tree.now) path.now.parts) ≡ None }
    ensures made { IfOk result (λ m. IsMadeNode tree.now path.now.parts kind file m.0 m.1) }
    ensures table { IfOk result (λ m. IsNodeTable (with_numbered_node tree.now m.0 m.1)) }
{
    tree.keeps_rule();
    let Some(number) = tree.free_number() else {
        return Err(NoMemory);
    };
    let node = node_for(tree, path, kind, file)?;
    Ok((number, node))
}

pub(crate) fn add_alias(tree: &mut AliasTree, alias: &Path, path: &Path) -> Result<(), NoMemory>
    requires parts { IsTrue (are_parts alias.now.parts) }
    requires free { first_cause (edit_causes (tree_of tree.old)
        (AddAliasEntry alias.now.parts path.now.parts)) ≡ None }
    ensures ok { OnOk result (PutsAlias tree.old tree.new alias.now.parts path.now.parts) }
    ensures err { OnErr result (tree.new ≡ tree.old) }
{
    let (number, node) = new_alias(tree, alias, path)?;
    tree.put(number, node)
}

/// The node of a new alias of the file of a path, with its number.
pub(crate) fn new_alias(
    tree: &AliasTree,
    alias: &Path,
    path: &Path,
) -> Result<(u32, Node), NoMemory>
    requires parts { IsTrue (are_parts alias.now.parts) }
    requires free { first_cause (edit_causes (tree_of tree.now)
        (AddAliasEntry alias.now.parts path.now.parts)) ≡ None }
    ensures made { IfOk result (λ m. IsMadeAlias tree.now alias.now.parts path.now.parts m.0 m.1) }
    ensures table { IfOk result (λ m. IsNodeTable (with_numbered_node tree.now m.0 m.1)) }
{
    let Some(file) = file_at(tree, path.parts.as_slice()) else {
        unreachable!()
    };
    let (number, node) = new_node(tree, alias, NodeKind::Alias, file)?;
    Ok((number, node))
}

/// A node that hangs at a path, whose directory is there.
fn node_for(tree: &AliasTree, path: &Path, kind: NodeKind, file: u32) -> Result<Node, NoMemory>
    requires { lacks_parent (tree_of tree.now) path.now.parts ≡ false }
    ensures hangs { IfOk result (λ node. HangsAt tree.now path.now.parts node) }
    ensures kind_is { IfOk result (λ node. node.kind ≡ kind) }
    ensures file_is { IfOk result (λ node. node.file ≡ file) }
{
    tree.keeps_rule();
    let Some(parent) = tree.find_parts(above(path)) else {
        unreachable!()
    };
    let Some((last, _above)) = path.parts.as_slice().split_last() else {
        unreachable!()
    };
    Ok(Node {
        parent,
        kind,
        file,
        name: last.copy()?,
    })
}

pub(crate) fn drop_dir(tree: &mut AliasTree, path: &Path)
    requires { first_cause (edit_causes (tree_of tree.old) (DropDir path.now.parts)) ≡ None }
    ensures { RemovesNode tree.old tree.new path.now.parts }
{
    let number = dropped_dir(tree, path);
    tree.remove(number);
}

/// The number of a directory that may go.
pub(crate) fn dropped_dir(tree: &AliasTree, path: &Path) -> u32
    requires { first_cause (edit_causes (tree_of tree.now) (DropDir path.now.parts)) ≡ None }
    ensures at { number_of tree.now path.now.parts ≡ Some result }
    ensures table { IsNodeTable (without_numbered_node tree.now result) }
{
    tree.keeps_rule();
    let Some(number) = tree.find(path) else {
        unreachable!()
    };
    number
}

pub(crate) fn drop_alias(tree: &mut AliasTree, path: &Path)
    requires { first_cause (edit_causes (tree_of tree.old) (DropAliasEntry path.now.parts)) ≡ None }
    ensures { RemovesNode tree.old tree.new path.now.parts }
{
    let number = dropped_alias(tree, path);
    tree.remove(number);
}

/// The number of an alias.
pub(crate) fn dropped_alias(tree: &AliasTree, path: &Path) -> u32
    requires { first_cause (edit_causes (tree_of tree.now) (DropAliasEntry path.now.parts)) ≡ None }
    ensures at { number_of tree.now path.now.parts ≡ Some result }
    ensures table { IsNodeTable (without_numbered_node tree.now result) }
{
    tree.keeps_rule();
    let Some(number) = tree.find(path) else {
        unreachable!()
    };
    number
}

pub(crate) fn rename_dir(tree: &mut AliasTree, old: &Path, new: &Path) -> Result<(), NoMemory>
    requires parts { IsTrue (are_parts new.now.parts) }
    requires free { first_cause (edit_causes (tree_of tree.old)
        (RenameDir old.now.parts new.now.parts)) ≡ None }
    ensures ok { OnOk result (MovesNode tree.old tree.new old.now.parts new.now.parts) }
    ensures err { OnErr result (tree.new ≡ tree.old) }
{
    let (number, node) = moved_dir(tree, old, new)?;
    tree.put(number, node)
}

/// The node of a directory at its new path, with its number.
pub(crate) fn moved_dir(tree: &AliasTree, old: &Path, new: &Path) -> Result<(u32, Node), NoMemory>
    requires parts { IsTrue (are_parts new.now.parts) }
    requires free { first_cause (edit_causes (tree_of tree.now)
        (RenameDir old.now.parts new.now.parts)) ≡ None }
    ensures moved { IfOk result (λ m. IsMoved tree.now old.now.parts new.now.parts m.0 m.1) }
    ensures table { IfOk result (λ m. IsNodeTable (with_numbered_node tree.now m.0 m.1)) }
{
    tree.keeps_rule();
    let (number, node) = moved(tree, old, new)?;
    Ok((number, node))
}

pub(crate) fn rename_alias(tree: &mut AliasTree, old: &Path, new: &Path) -> Result<(), NoMemory>
    requires parts { IsTrue (are_parts new.now.parts) }
    requires free { first_cause (edit_causes (tree_of tree.old)
        (RenameAliasEntry old.now.parts new.now.parts)) ≡ None }
    ensures ok { OnOk result (MovesNode tree.old tree.new old.now.parts new.now.parts) }
    ensures err { OnErr result (tree.new ≡ tree.old) }
{
    let (number, node) = moved_alias(tree, old, new)?;
    tree.put(number, node)
}

/// The node of an alias at its new path, with its number.
pub(crate) fn moved_alias(tree: &AliasTree, old: &Path, new: &Path) -> Result<(u32, Node), NoMemory>
    requires parts { IsTrue (are_parts new.now.parts) }
    requires free { first_cause (edit_causes (tree_of tree.now)
        (RenameAliasEntry old.now.parts new.now.parts)) ≡ None }
    ensures moved { IfOk result (λ m. IsMoved tree.now old.now.parts new.now.parts m.0 m.1) }
    ensures table { IfOk result (λ m. IsNodeTable (with_numbered_node tree.now m.0 m.1)) }
{
    tree.keeps_rule();
    let (number, node) = moved(tree, old, new)?;
    Ok((number, node))
}

/// The node of a path under the parent and the name of another path, with its number.
fn moved(tree: &AliasTree, old: &Path, new: &Path) -> Result<(u32, Node), NoMemory>
    requires there { is_some (entry_at (tree_of tree.now) old.now.parts) ≡ true }
    requires above { lacks_parent (tree_of tree.now) new.now.parts ≡ false }
    ensures { IfOk result (λ m. IsMoved tree.now old.now.parts new.now.parts m.0 m.1) }
{
    tree.keeps_rule();
    let Some(number) = tree.find(old) else {
        unreachable!()
    };
    let Some(was) = tree.get(number) else {
        unreachable!()
    };
    let node = node_for(tree, new, was.kind, was.file)?;
    Ok((number, node))
}

/// Takes all names of a file away.
pub(crate) fn drop_names(tree: &mut AliasTree, file: u32)
    ensures { RemovesNames tree.old tree.new file }
{
    tree.keeps_rule();
    while let Some(number) = tree.name_of(file) {
        tree.remove(number);
    }
}
