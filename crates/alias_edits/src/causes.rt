//! Why edits of the tree are refused.

ghost use Rattle.std.specs.Prelude.{◌≡◌, is_some};
ghost use Rattle.std.specs.Option.{option_copied, option_map};
ghost use Rattle.asm_group.specs.Names.{folded_path};
ghost use Rattle.asm_group.specs.Causes.{first_cause};
ghost use Rattle.asm_group.specs.TreeEdits.{AddAliasEntry, DropAliasEntry, DropDir, DropFileEntries, RenameAliasEntry, RenameDir, edit_causes, entry_at, file_at, file_of_entry, file_of_node, is_dir, is_dir_entry, is_system_entry, is_there, is_under, lacks_parent, new_name_causes, up};
ghost use Rattle.alias_edits.specs.Edits.{cause_said};
ghost use Rattle.asm_formats.specs.Nodes.{entry_of_node, node_kind};
ghost use Rattle.alias_tree.specs.Trees.{tree_of};

use crate::editing::TreeError;
use alias_tree::{AliasTree, Name, Node, NodeKind, Path};

/// The parts of a path but the last.
pub(crate) fn above(path: &Path) -> &[Name]
    ensures { result.now ≡ up path.now.parts }
{
    let parts = path.parts.as_slice();
    match parts.split_last() {
        Some((_last, above)) => above,
        None => parts,
    }
}

/// Whether a path lies below a directory, however deep.
#[tactic(auto, using(alias_tree::proofs::Paths::under_short))]
fn is_under(dir: &[Name], path: &[Name]) -> bool
    ensures { result ≡ is_under (folded_path dir.now) (folded_path path.now) }
{
    if path.len() <= dir.len() {
        return false;
    }
    for i in 0..dir.len() {
        if !dir[i].is_same(&path[i]) {
            return false;
        }
    }
    true
}

/// Of a new name.
pub(crate) fn new_name_refusal(tree: &AliasTree, path: &Path) -> Option<TreeError>
    ensures { option_map cause_said result
        ≡ first_cause (new_name_causes (tree_of tree.now) path.now.parts) }
{
    if lacks_parent(tree, path) {
        return Some(TreeError::NoName);
    }
    if is_there(tree, path.parts.as_slice()) {
        return Some(TreeError::NameTaken);
    }
    if !is_dir(tree, above(path)) {
        return Some(TreeError::NotDirectory);
    }
    None
}

pub(crate) fn drop_dir_refusal(tree: &AliasTree, path: &Path) -> Option<TreeError>
    ensures { option_map cause_said result
        ≡ first_cause (edit_causes (tree_of tree.now) (DropDir path.now.parts)) }
{
    let parts = path.parts.as_slice();
    if parts.is_empty() || !is_there(tree, parts) {
        return Some(TreeError::NoName);
    }
    if !is_dir(tree, parts) {
        return Some(TreeError::NotDirectory);
    }
    if tree.has_entries(parts) {
        return Some(TreeError::NotEmpty);
    }
    None
}

pub(crate) fn rename_dir_refusal(tree: &AliasTree, old: &Path, new: &Path) -> Option<TreeError>
    ensures { option_map cause_said result
        ≡ first_cause (edit_causes (tree_of tree.now) (RenameDir old.now.parts new.now.parts)) }
{
    let from = old.parts.as_slice();
    let to = new.parts.as_slice();
    if from.is_empty() || !is_there(tree, from) || lacks_parent(tree, new) {
        return Some(TreeError::NoName);
    }
    if is_there(tree, to) || is_under(from, to) {
        return Some(TreeError::NameTaken);
    }
    if !is_dir(tree, from) || !is_dir(tree, above(new)) {
        return Some(TreeError::NotDirectory);
    }
    None
}

pub(crate) fn add_alias_refusal(tree: &AliasTree, alias: &Path, path: &Path) -> Option<TreeError>
    ensures { option_map cause_said result
        ≡ first_cause (edit_causes (tree_of tree.now)
        (AddAliasEntry alias.now.parts path.now.parts)) }
{
    let file = file_at(tree, path.parts.as_slice());
    if file.is_none() || lacks_parent(tree, alias) {
        return Some(TreeError::NoName);
    }
    if is_there(tree, alias.parts.as_slice()) {
        return Some(TreeError::NameTaken);
    }
    if !is_dir(tree, above(alias)) {
        return Some(TreeError::NotDirectory);
    }
    if tree.has_alias(file) {
        return Some(TreeError::HasAlias);
    }
    None
}

pub(crate) fn rename_alias_refusal(tree: &AliasTree, old: &Path, new: &Path) -> Option<TreeError>
    ensures { option_map cause_said result
        ≡ first_cause (edit_causes (tree_of tree.now)
        (RenameAliasEntry old.now.parts new.now.parts)) }
{
    let from = old.parts.as_slice();
    if file_at(tree, from).is_none() || lacks_parent(tree, new) {
        return Some(TreeError::NoName);
    }
    if is_there(tree, new.parts.as_slice()) {
        return Some(TreeError::NameTaken);
    }
    if !is_dir(tree, above(new)) {
        return Some(TreeError::NotDirectory);
    }
    if is_system(tree, from) {
        return Some(TreeError::SystemName);
    }
    None
}

pub(crate) fn drop_alias_refusal(tree: &AliasTree, path: &Path) -> Option<TreeError>
    ensures { option_map cause_said result
        ≡ first_cause (edit_causes (tree_of tree.now) (DropAliasEntry path.now.parts)) }
{
    let parts = path.parts.as_slice();
    if file_at(tree, parts).is_none() {
        return Some(TreeError::NoName);
    }
    if is_system(tree, parts) {
        return Some(TreeError::SystemName);
    }
    None
}

pub(crate) fn drop_file_refusal(tree: &AliasTree, file: u32) -> Option<TreeError>
    ensures { option_map cause_said result
        ≡ first_cause (edit_causes (tree_of tree.now) (DropFileEntries file)) }
{
    if tree.is_named(file) {
        return None;
    }
    Some(TreeError::NoName)
}

// What stands at a path.

fn lacks_parent(tree: &AliasTree, path: &Path) -> bool
    ensures { result ≡ lacks_parent (tree_of tree.now) path.now.parts }
{
    path.parts.is_empty() || !is_there(tree, above(path))
}

fn is_there(tree: &AliasTree, parts: &[Name]) -> bool
    ensures { result ≡ is_there (tree_of tree.now) parts.now }
{
    parts.is_empty() || is_node(tree.node_of(parts))
}

fn is_dir(tree: &AliasTree, parts: &[Name]) -> bool
    ensures { result ≡ is_dir (tree_of tree.now) parts.now }
{
    parts.is_empty() || is_directory(tree.node_of(parts))
}

/// The file that a name stands for.
pub(crate) fn file_at(tree: &AliasTree, parts: &[Name]) -> Option<u32>
    ensures { result ≡ file_at (tree_of tree.now) parts.now }
{
    file_of(tree.node_of(parts))
}

fn is_system(tree: &AliasTree, parts: &[Name]) -> bool
    ensures { result ≡ is_system_entry (entry_at (tree_of tree.now) parts.now) }
{
    is_system_node(tree.node_of(parts))
}

fn is_node(node: Option<&Node>) -> bool
    ensures { result ≡ is_some (option_map entry_of_node (option_copied node.entry)) }
{
    match node {
        Some(_node) => true,
        None => false,
    }
}

pub(crate) fn is_directory(node: Option<&Node>) -> bool
    ensures { result ≡ is_dir_entry (option_map entry_of_node (option_copied node.entry)) }
{
    match node {
        Some(node) => matches!(node.kind, NodeKind::Directory),
        None => false,
    }
}

fn is_system_node(node: Option<&Node>) -> bool
    ensures { result ≡ is_system_entry (option_map entry_of_node (option_copied node.entry)) }
{
    match node {
        Some(node) => matches!(node.kind, NodeKind::System),
        None => false,
    }
}

fn file_of(node: Option<&Node>) -> Option<u32>
    ensures { result ≡ file_of_entry (option_map entry_of_node (option_copied node.entry)) }
{
    match node {
        Some(node) => named_file(node),
        None => None,
    }
}

/// The file that the name stands for, where it isn't a directory's.
fn named_file(node: &Node) -> Option<u32>
    ensures { result ≡ file_of_node (node_kind node.now.kind node.now.file) }
{
    match node.kind {
        NodeKind::Directory => None,
        NodeKind::System => Some(node.file),
        NodeKind::Alias => Some(node.file),
    }
}
