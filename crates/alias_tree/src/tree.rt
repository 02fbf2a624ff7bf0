//! The tree of names.

ghost use Rattle.std.specs.Prelude.{◌≡◌, ◌<◌, ◌^◌, ◌++◌, [], length, map, IfOk, IfSome, OnErr, OnOk, Some, None, is_some, true, ℕ, ◌==◌};
ghost use Rattle.std.specs.List.{list_any};
ghost use Rattle.std.specs.Option.{option_copied, option_map};
ghost use Rattle.asm_group.specs.Names.{folded, folded_path};
ghost use Rattle.asm_group.specs.TreeEdits.{entry_at, has_alias, has_entries, is_there, leads_to, names_file};
ghost use Rattle.asm_base.specs.Records.{of_kinds};

use crate::index::{places_of, put_node, remove_node};
use crate::node::Node;
use crate::nodes::Nodes;
use crate::opening::OpenTree;
use crate::places::{Places, named_place};
use asm_base::{Change, Name, NoMemory, Path, Records};
use std::alloc::Global;
use std::collections::btree_map::Iter;
use std::marker::Model;

/// The names of a group by the numbers of their nodes. Contracts see it as the list of its nodes in
/// the order of their numbers.
#[derive(Drop)]
pub struct AliasTree {
    nodes: Nodes,
    /// The number of each node by its parent and its name without case.
    places: Places,
}

impl Model for AliasTree {
    ghost use Rattle.std.specs.Prelude.{List as Items, ℕ};
    ghost use Rattle.asm_formats.specs.Items.{Node as FormatNode};
    ghost use Rattle.alias_tree.specs.Nodes.{IsNodeTable};
    ghost use Rattle.alias_tree.specs.Places.{IsIndex};

    ghost Value = { Items (ℕ × FormatNode) };

    ghost view = { λ t. t.nodes };

    ghost invariant = { λ t. IsNodeTable t.nodes × IsIndex t.nodes t.places };
}

impl AliasTree {
    ghost use Rattle.std.specs.Prelude.{List as Items};
    ghost use Rattle.alias_tree.specs.Numbers.{IsLeastFree, is_name_of, without_all, IsFreeAbove};
    ghost use Rattle.asm_formats.specs.Nodes.{entry_of_node, node_kind};
    ghost use Rattle.alias_tree.specs.Trees.{node_by, tree_of};
    ghost use Rattle.alias_tree.specs.Nodes.{AreByName, IsNodeTable, KeepsRule, Numbered, are_distinct, child, is_key_of_node, is_under_parent, node_at, number_from, number_of, record_of_node, with_numbered_node, without_numbered_node};

    /// A tree without names.
    #[tactic(auto, using(crate::proofs::IndexLaws::no_nodes, crate::proofs::IndexLaws::no_places))]
    pub fn new(alloc: Global) -> AliasTree
        ensures { result ≡ [] }
    {
        AliasTree {
            nodes: Nodes::new(alloc),
            places: Places::new(alloc),
        }
    }

    pub fn get(&self, key: u32) -> Option<&Node>
        ensures node { option_copied result ≡ node_at self.now key }
        ensures table { IsNodeTable self.now }
    {
        self.nodes.get(key)
    }

    /// The nodes in the order of their numbers.
    pub fn iter(&self) -> Iter<'_, u32, Node>
        ensures nodes { result ≡ self.now }
        ensures table { IsNodeTable self.now }
    {
        self.nodes.iter()
    }

    /// How many nodes there are.
    pub fn len(&self) -> usize
        ensures { result ≡ length self.now }
    {
        self.nodes.len()
    }

    /// Puts a node. Where there is no memory nothing changes.
    pub fn put(&mut self, key: u32, item: Node) -> Result<(), NoMemory>
        requires { IsNodeTable (with_numbered_node self.old key item) }
        ensures ok { OnOk result (self.new ≡ with_numbered_node self.old key item) }
        ensures err { OnErr result (self.new ≡ self.old) }
    {
        put_node(&mut self.nodes, &mut self.places, key, item)
    }

    /// Takes a node away, and tells whether it was there.
    #[tactic(auto, using(crate::proofs::IndexLaws::nodes_of))]
    pub fn remove(&mut self, key: u32) -> bool
        requires { IsNodeTable (without_numbered_node self.old key) }
        ensures there { result ≡ is_some (node_at self.old key) }
        ensures after { self.new ≡ without_numbered_node self.old key }
    {
        remove_node(&mut self.nodes, &mut self.places, key)
    }

    /// An equal tree.
    #[tactic(auto, using(crate::proofs::IndexLaws::nodes_of, crate::proofs::Rules::index_of))]
    pub fn copy(&self, alloc: Global) -> Result<AliasTree, NoMemory>
        ensures { IfOk result (λ copy. copy ≡ self.now) }
    {
        let nodes = self.nodes.copy(alloc)?;
        let Some(places) = places_of(alloc, &nodes)? else {
            return Err(NoMemory);
        };
        Ok(AliasTree { nodes, places })
    }

    /// The tree for a change of records, in the midst of which its rule needn't hold.
    #[tactic(auto, using(crate::proofs::IndexLaws::nodes_of))]
    pub fn open(self) -> OpenTree
        ensures { result ≡ self }
    {
        OpenTree {
            nodes: self.nodes,
            places: self.places,
        }
    }

    /// The tree of these nodes, which keep the rule.
    pub fn close(tree: OpenTree) -> AliasTree
        requires { KeepsRule tree }
        ensures { result ≡ tree }
    {
        AliasTree {
            nodes: tree.nodes,
            places: tree.places,
        }
    }

    /// Puts the records of the nodes into a change. After an `Err` some of them may stand there.
    pub fn to_records(&self, alloc: Global, change: &mut Change) -> Result<(), NoMemory>
        ensures put { OnOk result (change.new.put ≡ change.old.put ++ map record_of_node self.now) }
        ensures gone { change.new.gone ≡ change.old.gone }
    {
        self.nodes.to_records(alloc, change)
    }

    /// The tree whose records these are. None where a record isn't a node's, or the nodes break the
    /// rule of the tree.
    pub fn from_records(alloc: Global, records: &Records) -> Result<Option<AliasTree>, NoMemory>
        // What is read is a tree with these records.
        ensures found { IfOk result (λ read. IfSome read
            (λ t. IsNodeTable t × (of_kinds is_key_of_node records.now ≡ map record_of_node t))) }
        // A tree that has these records is read.
        ensures only { IfOk result (λ read. (t : Items Numbered) → IsNodeTable t
            → of_kinds is_key_of_node records.now ≡ map record_of_node t → read ≡ Some t) }
    {
        let Some(nodes) = Nodes::from_records(alloc, records)? else {
            return Ok(None);
        };
        let Some(places) = places_of(alloc, &nodes)? else {
            return Ok(None);
        };
        if !nodes.are_rooted() {
            return Ok(None);
        }
        Ok(Some(AliasTree { nodes, places }))
    }

    /// The node at a path, whatever its group's name; the root is 0. It takes as many steps as the
    /// path has parts, each in the logarithm of the number of names.
    #[tactic(auto, unfolding(crate::specs::Nodes::number_of))]
    pub fn find(&self, path: &Path) -> Option<u32>
        ensures { result ≡ number_of self.now path.now.parts }
    {
        self.find_parts(path.parts.as_slice())
    }

    /// The nodes of a directory, or of the root by 0, in the order of their names without case. The
    /// work goes by their number, not by that of all names.
    #[tactic(auto, using(crate::proofs::Under::under_is, crate::proofs::Under::under_once))]
    pub fn children(&self, alloc: Global, node: u32) -> Result<Vec<u32>, NoMemory>
        // They are just the nodes of this parent.
        ensures each { IfOk result (λ v. (n : ℕ)
            → list_any (λ m. m == n) v.items ≡ is_under_parent self.now node n) }
        // None is given twice.
        ensures once { IfOk result (λ v. are_distinct v.items ≡ true) }
        ensures order { IfOk result (λ v. AreByName self.now v.items) }
    {
        let numbers = self.places.under(alloc, node)?;
        Ok(numbers)
    }

    /// The node at a path, which the root hasn't.
    pub fn node_of(&self, parts: &[Name]) -> Option<&Node>
        ensures node { option_copied result ≡ node_by self.now (folded_path parts.now) }
        ensures entry { option_map entry_of_node (option_copied result)
            ≡ entry_at (tree_of self.now) parts.now }
    {
        match self.find_parts(parts) {
            Some(number) => self.nodes.get(number),
            None => None,
        }
    }

    /// Shows that the nodes keep the rule, and does nothing.
    pub fn keeps_rule(&self)
        ensures { IsNodeTable self.now }
    {
        let _nodes = &self.nodes;
    }

    /// Whether the directory at a path has names.
    pub fn has_entries(&self, parts: &[Name]) -> bool
        requires { is_there (tree_of self.now) parts.now ≡ true }
        ensures { result ≡ has_entries (tree_of self.now) parts.now }
    {
        match self.find_parts(parts) {
            Some(number) => self.places.has_under(number),
            None => false,
        }
    }

    /// Whether a file has a user alias.
    pub fn has_alias(&self, file: Option<u32>) -> bool
        ensures { result ≡ has_alias (tree_of self.now) file }
    {
        match file {
            Some(file) => self.nodes.has_alias(file),
            None => false,
        }
    }

    /// The first node that is a name of the file.
    pub fn name_of(&self, file: u32) -> Option<u32>
        ensures there { is_some result ≡ list_any
            (λ x. names_file file (node_kind x.1.kind x.1.file)) self.now }
        ensures named { IfSome result (λ n. is_name_of file (node_at self.now n) ≡ true) }
        ensures table { IsNodeTable self.now }
    {
        self.nodes.name_of(file)
    }

    /// The nodes that are names of the file. They may go.
    #[tactic(auto, using(crate::proofs::IndexLaws::nodes_of))]
    pub fn names_of(&self, alloc: Global, file: u32) -> Result<Vec<u32>, NoMemory>
        ensures all { IfOk result (λ v. (n : ℕ)
            → list_any (λ m. m == n) v.items ≡ is_name_of file (node_at self.now n)) }
        ensures table { IfOk result (λ v. IsNodeTable (without_all self.now v.items)) }
    {
        let numbers = self.nodes.names_of(alloc, file)?;
        Ok(numbers)
    }

    /// The least number from 1 that no node has.
    pub fn free_number(&self) -> Option<u32>
        ensures least { IfSome result (IsLeastFree self.now) }
        ensures small { IfSome result (λ n. n < 2 ^ 32) }
    {
        self.nodes.free_number()
    }

    /// The least number above another that no node has.
    pub fn free_above(&self, before: u32) -> Option<u32>
        ensures free { IfSome result (IsFreeAbove self.now before) }
        ensures small { IfSome result (λ n. n < 2 ^ 32) }
    {
        self.nodes.free_above(before)
    }

    /// Whether a name stands for the file.
    pub fn is_named(&self, file: u32) -> bool
        ensures { result ≡ leads_to (tree_of self.now) (names_file file) }
    {
        self.name_of(file).is_some()
    }

    /// The node at the end of these parts; the root is 0.
    #[tactic(auto, using(crate::proofs::Children::part_found_at, crate::proofs::Children::part_missing_at))]
    pub fn find_parts(&self, parts: &[Name]) -> Option<u32>
        ensures { result ≡ number_from self.now 0 parts.now }
    {
        let mut at = 0;
        for part in parts {
            at = self.child(at, part)?;
        }
        Some(at)
    }

    /// The node of this parent and name.
    #[tactic(auto, using(crate::proofs::Children::child_is, crate::proofs::Children::no_child))]
    pub fn child(&self, parent: u32, name: &Name) -> Option<u32>
        ensures { result ≡ child self.now parent (folded name.now) }
    {
        let places = &self.places;
        let bytes = name.as_bytes();
        if bytes.len() > 80 {
            return None;
        }
        places.get(named_place(parent, bytes))
    }
}
