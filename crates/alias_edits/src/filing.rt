//! What the system name of a new file changes.

ghost use Rattle.std.specs.Prelude.{◌≡◌, ◌<◌, ◌≤◌, ◌^◌, ◌++◌, ◌∷◌, [], IfErr, IfOk, IsTrue, OnOk, None, Ok, length, true};
ghost use Rattle.std.specs.List.{All};
ghost use Rattle.std.specs.Option.{option_map};
ghost use Rattle.asm_group.specs.Causes.{first_cause};
ghost use Rattle.asm_group.specs.TreeEdits.{last_part, up};
ghost use Rattle.asm_formats.specs.Items.{is_item, node_item};
ghost use Rattle.alias_edits.specs.Edits.{IsRefusal, are_parts, cause_said};
ghost use Rattle.alias_edits.specs.Filing.{IsFiling, IsFront, file_causes, tree_with_file, may_hang, nodes_missing, with_file, with_nodes};
ghost use Rattle.alias_tree.specs.Numbers.{IsFreeAbove};
ghost use Rattle.alias_tree.specs.Nodes.{IsNodeTable, Numbered, node_at};
ghost use Rattle.alias_tree.specs.Trees.{tree_of};

use crate::causes::{above, is_directory};
use crate::editing::TreeError;
use alias_tree::{AliasTree, Name, NoMemory, Node, NodeKind, Path};
use std::alloc::Global;

/// The directories of a path that are there.
#[derive(Clone, Copy)]
pub(crate) struct Front {
    /// How many they are, from the top.
    there: usize,
    /// The node of the last of them, or 0 for the root.
    number: u32,
}

/// What the system name of a new file changes, of which nothing is done: the nodes of the
/// directories that are missing above it, from the top, and then the node of the name. Each takes
/// the least number that is free. A path costs a look-up for each of its parts.
///
/// NotDirectory: a directory of the path is there as a file. NameTaken: the path is there.
pub fn plan_file(
    tree: &AliasTree,
    alloc: Global,
    path: &Path,
    file: u32,
) -> Result<Vec<(u32, Node)>, TreeError>
    requires parts { IsTrue (are_parts path.now.parts) }
    requires some { 0 < length path.now.parts }
    // The nodes with these are those of the tree of names with the file and the missing
    // directories.
    ensures done { IfOk result (λ made. tree_with_file (tree_of tree.now) path.now.parts file
        ≡ Ok (tree_of (with_nodes tree.now made.items))) }
    ensures table { IfOk result (λ made. IsNodeTable (with_nodes tree.now made.items)) }
    // Directories come first, and the name last.
    ensures nodes { IfOk result (λ made. IsFiling tree.now made.items path.now.parts file) }
    ensures few { IfOk result (λ made. length made.items ≤ length path.now.parts) }
    // They are those of the missing directories, and that of the name.
    ensures count { IfOk result (λ made. length made.items
        ≡ nodes_missing (tree_of tree.now) path.now.parts) }
    // None of them was there.
    ensures fresh { IfOk result (λ made. All (λ (x : Numbered). node_at tree.now x.0 ≡ None)
        made.items) }
    // Each is one of the formats.
    ensures items { IfOk result (λ made. All (λ (x : Numbered). is_item (node_item x.0 x.1) ≡ true)
        made.items) }
    ensures refused { IfErr result (IsRefusal (tree_with_file (tree_of tree.now) path.now.parts
        file)) }
{
    tree.keeps_rule();
    let front = front_of(tree, above(path));
    if let Some(cause) = file_refusal(tree, path, front) {
        return Err(cause);
    }
    match nodes_for(tree, alloc, path, front, file) {
        Ok(made) => Ok(made),
        Err(NoMemory) => Err(TreeError::NoMemory),
    }
}

/// The directories that are there.
#[tactic(auto, using(crate::proofs::Fronts::reach_none, crate::proofs::Fronts::front_missing, crate::proofs::Fronts::front_whole))]
fn front_of(tree: &AliasTree, dirs: &[Name]) -> Front
    ensures { IsFront tree.now dirs.now result.there result.number }
{
    tree.keeps_rule();
    let mut number = 0;
    for there in 0..dirs.len() {
        match tree.child(number, &dirs[there]) {
            Some(next) => number = next,
            None => return Front { there, number },
        }
    }
    Front {
        there: dirs.len(),
        number,
    }
}

/// Why a new file can't have the name.
fn file_refusal(tree: &AliasTree, path: &Path, front: Front) -> Option<TreeError>
    requires some { 0 < length path.now.parts }
    requires front { IsFront tree.now (up path.now.parts) front.there front.number }
    ensures { option_map cause_said result
        ≡ first_cause (file_causes (tree_of tree.now) path.now.parts) }
{
    tree.keeps_rule();
    if !may_hang(tree, front.number) {
        return Some(TreeError::NotDirectory);
    }
    if front.there < above(path).len() {
        return None;
    }
    match tree.child(front.number, last(path)) {
        Some(_) => Some(TreeError::NameTaken),
        None => None,
    }
}

/// Whether names may hang below a node.
fn may_hang(tree: &AliasTree, number: u32) -> bool
    ensures { result ≡ may_hang tree.now number }
{
    number == 0 || is_directory(tree.get(number))
}

/// The nodes of the directories that are missing, and that of the name.
fn nodes_for(
    tree: &AliasTree,
    alloc: Global,
    path: &Path,
    front: Front,
    file: u32,
) -> Result<Vec<(u32, Node)>, NoMemory>
    requires parts { IsTrue (are_parts path.now.parts) }
    requires some { 0 < length path.now.parts }
    requires front { IsFront tree.now (up path.now.parts) front.there front.number }
    requires free { first_cause (file_causes (tree_of tree.now) path.now.parts) ≡ None }
    ensures tree { IfOk result (λ made. tree_of (with_nodes tree.now made.items)
        ≡ with_file (tree_of tree.now) path.now.parts file) }
    ensures table { IfOk result (λ made. IsNodeTable (with_nodes tree.now made.items)) }
    ensures nodes { IfOk result (λ made. IsFiling tree.now made.items path.now.parts file) }
    ensures few { IfOk result (λ made. length made.items ≤ length path.now.parts) }
    ensures count { IfOk result (λ made. length made.items
        ≡ nodes_missing (tree_of tree.now) path.now.parts) }
    ensures fresh { IfOk result (λ made. All (λ (x : Numbered). node_at tree.now x.0 ≡ None)
        made.items) }
    ensures items { IfOk result (λ made. All (λ (x : Numbered). is_item (node_item x.0 x.1) ≡ true)
        made.items) }
{
    tree.keeps_rule();
    let dirs = above(path);
    let mut made = Vec::new(alloc);
    let mut parent = front.number;
    let mut before = 0;
    for i in front.there..dirs.len() {
        let (number, node) = node_below(tree, parent, before, &dirs[i], NodeKind::Directory, 0)?;
        push(&mut made, number, node)?;
        parent = number;
        before = number;
    }
    let (number, node) = node_below(tree, parent, before, last(path), NodeKind::System, file)?;
    push(&mut made, number, node)?;
    Ok(made)
}

/// A new node, with the least free number above another.
fn node_below(
    tree: &AliasTree,
    parent: u32,
    before: u32,
    name: &Name,
    kind: NodeKind,
    file: u32,
) -> Result<(u32, Node), NoMemory>
    ensures free { IfOk result (λ m. IsFreeAbove tree.now before m.0) }
    ensures small { IfOk result (λ m. m.0 < 2 ^ 32) }
    ensures parent_is { IfOk result (λ m. m.1.parent ≡ parent) }
    ensures name_is { IfOk result (λ m. m.1.name ≡ name.now) }
    ensures kind_is { IfOk result (λ m. m.1.kind ≡ kind) }
    ensures file_is { IfOk result (λ m. m.1.file ≡ file) }
{
    let Some(number) = tree.free_above(before) else {
        return Err(NoMemory);
    };
    let node = Node {
        parent,
        kind,
        file,
        name: name.copy()?,
    };
    Ok((number, node))
}

/// The last part of a path.
#[tactic(auto, using(alias_tree::proofs::Paths::last_of))]
fn last(path: &Path) -> &Name
    requires { 0 < length path.now.parts }
    ensures { result.now ≡ last_part path.now.parts }
{
    let Some((last, _above)) = path.parts.as_slice().split_last() else {
        unreachable!()
    };
    last
}

/// Puts a node behind others.
fn push(made: &mut Vec<(u32, Node)>, number: u32, node: Node) -> Result<(), NoMemory>
    ensures { OnOk result (made.new.items ≡ made.old.items ++ (number, node) ∷ []) }
{
    match made.push((number, node)) {
        Ok(()) => Ok(()),
        Err(_) => Err(NoMemory),
    }
}
