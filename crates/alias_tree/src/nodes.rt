//! The nodes by number.

ghost use Rattle.std.specs.Prelude.{◌≡◌, ℕ, ◌<◌, ◌≤◌, ◌^◌, ◌++◌, [], length, map, IfOk, IfSome, OnErr, OnOk, Some, None, if◌then◌else◌, is_some, ◌==◌, IsTrue, true, not, find};
ghost use Rattle.std.specs.Bool.{OnTrue};
ghost use Rattle.std.specs.List.{list_all, list_any};
ghost use Rattle.asm_group.specs.TreeEdits.{is_alias_of, names_file};
ghost use Rattle.asm_formats.specs.Nodes.{node_kind};
ghost use Rattle.alias_tree.specs.Numbers.{IsLeastFree, is_name_of, IsFreeAbove};
ghost use Rattle.alias_tree.specs.FileNames.{IsLow, name_of_node};
ghost use Rattle.alias_tree.specs.Nodes.{node_at};
ghost use Rattle.std.specs.Option.{option_copied, option_map};
ghost use Rattle.std.specs.Ordering.{nat_cmp};
ghost use Rattle.std.specs.BTreeMap.{is_at};
ghost use Rattle.asm_base.specs.Records.{Ascend, add_item, ends_below, of_kinds, read_from};
ghost use Rattle.asm_base.specs.Tables.{IsItemTable, entry_of_record};

use crate::files::{FileName, FileNames, name_by_kind};
use crate::node::Node;
use crate::reading::read_node;
use crate::writing::node_record;
use asm_base::{Change, Key, NoMemory, NodeKind, Records, Value, record_kind};
use std::alloc::Global;
use std::collections::BTreeMap;
use std::collections::btree_map::Iter;
use std::marker::Model;

/// The nodes by number, of which nothing else is said.
#[derive(Drop)]
pub(crate) struct Nodes {
    map: BTreeMap<u32, Node>,
    /// The nodes that are names of files.
    names: FileNames,
    /// No number from 1 to below this one is free.
    low: u32,
}

impl Model for Nodes {
    ghost use Rattle.std.specs.Prelude.{List as Items, ℕ};
    ghost use Rattle.asm_formats.specs.Items.{Node as FormatNode};

    ghost Value = { Items (ℕ × FormatNode) };

    ghost use Rattle.alias_tree.specs.FileNames.{IsFileIndex, IsLow};

    ghost view = { λ n. n.map.entries };

    ghost invariant = { λ n. IsFileIndex n.map.entries n.names × IsLow n.map.entries n.low };
}

impl Nodes {
    ghost use Rattle.std.specs.Prelude.{List as Items, ℕ};
    ghost use Rattle.alias_tree.specs.Nodes.{Numbered, node_of_item, is_before, is_key_of_node, is_right, item_of_node, parent_is_right, reaches_root, record_of_node, with_numbered_node, without_numbered_node};

    pub(crate) fn new(alloc: Global) -> Nodes
        ensures { result ≡ [] }
    {
        Nodes {
            map: BTreeMap::new(alloc),
            names: FileNames::new(alloc),
            low: 1,
        }
    }

    pub(crate) fn get(&self, number: u32) -> Option<&Node>
        ensures { option_copied result ≡ node_at self.now number }
    {
        self.map.get(&number)
    }

    pub(crate) fn len(&self) -> usize
        ensures { result ≡ length self.now }
    {
        self.map.len()
    }

    /// The nodes in the order of their numbers.
    pub(crate) fn iter(&self) -> Iter<'_, u32, Node>
        ensures { result ≡ self.now }
    {
        self.map.iter()
    }

    pub(crate) fn put(&mut self, number: u32, node: Node) -> Result<(), NoMemory>
        ensures ok { OnOk result (self.new ≡ with_numbered_node self.old number node) }
        ensures at { OnOk result ((n : ℕ) → node_at self.new n
            ≡ (if is_at (nat_cmp number) n then Some node else node_at self.old n)) }
        ensures err { OnErr result (self.new ≡ self.old) }
    {
        let before = name_at(&self.map, number);
        let after = name_by_kind(number, node.file, node.kind);
        self.names.put(after)?;
        match self.map.insert(number, node) {
            Ok(_) => {
                self.names.forget(before, after);
                self.low = past_taken(&self.map, self.low);
                Ok(())
            }
            Err(_) => {
                self.names.forget(after, before);
                Err(NoMemory)
            }
        }
    }

    pub(crate) fn remove(&mut self, number: u32) -> bool
        ensures there { result ≡ is_some (node_at self.old number) }
        ensures after { self.new ≡ without_numbered_node self.old number }
        ensures at { (n : ℕ) → node_at self.new n
            ≡ (if is_at (nat_cmp number) n then None else node_at self.old n) }
    {
        let gone = name_at(&self.map, number);
        self.names.forget(gone, None);
        self.low = self.low.min(number.max(1));
        self.map.remove(&number).is_some()
    }

    /// The least number from 1 that no node has.
    pub(crate) fn free_number(&self) -> Option<u32>
        ensures least { IfSome result (IsLeastFree self.now) }
        ensures small { IfSome result (λ n. n < 2 ^ 32) }
    {
        first_free(&self.map, self.low)
    }

    /// The least number above another that no node has.
    pub(crate) fn free_above(&self, before: u32) -> Option<u32>
        ensures free { IfSome result (IsFreeAbove self.now before) }
        ensures small { IfSome result (λ n. n < 2 ^ 32) }
    {
        first_from(&self.map, self.low.max(before.checked_add(1)?))
    }

    /// Whether a node is a user alias of the file.
    pub(crate) fn has_alias(&self, file: u32) -> bool
        requires { IsItemTable is_before item_of_node self.now }
        ensures { result ≡ list_any (λ x. is_alias_of file (node_kind x.1.kind x.1.file)) self.now }
    {
        self.names.has_alias(file)
    }

    /// The first node that is a name of the file, an alias after the others.
    pub(crate) fn name_of(&self, file: u32) -> Option<u32>
        requires { IsItemTable is_before item_of_node self.now }
        ensures there { is_some result ≡ list_any
            (λ x. names_file file (node_kind x.1.kind x.1.file)) self.now }
        ensures named { IfSome result (λ n. is_name_of file (node_at self.now n) ≡ true) }
    {
        self.names.first(file)
    }

    /// The nodes that are names of the file.
    pub(crate) fn names_of(&self, alloc: Global, file: u32) -> Result<Vec<u32>, NoMemory>
        requires { IsItemTable is_before item_of_node self.now }
        ensures { IfOk result (λ v. (n : ℕ)
            → list_any (λ m. m == n) v.items ≡ is_name_of file (node_at self.now n)) }
    {
        let numbers = self.names.all(alloc, file)?;
        Ok(numbers)
    }

    /// Equal nodes.
    #[tactic(auto, using(crate::proofs::OpenLaws::copied))]
    pub(crate) fn copy(&self, alloc: Global) -> Result<Nodes, NoMemory>
        requires { IsItemTable is_before item_of_node self.now }
        ensures { IfOk result (λ copy. copy ≡ self.now) }
    {
        let mut copy = Nodes::new(alloc);
        for (number, node) in self.map.iter() {
            copy.put(*number, node.copy()?)?;
        }
        Ok(copy)
    }

    /// Puts the records of the nodes into a change. After an `Err` some of them may stand there.
    pub(crate) fn to_records(&self, alloc: Global, change: &mut Change) -> Result<(), NoMemory>
        requires { IsItemTable is_before item_of_node self.now }
        ensures put { OnOk result (change.new.put ≡ change.old.put ++ map record_of_node self.now) }
        ensures gone { change.new.gone ≡ change.old.gone }
    {
        for (number, node) in self.map.iter() {
            change.put.push(node_record(alloc, *number, node)?)?;
        }
        Ok(())
    }

    /// The nodes whose records these are.
    pub(crate) fn from_records(alloc: Global, records: &Records) -> Result<Option<Nodes>, NoMemory>
        ensures found { IfOk result (λ read. IfSome read
            (λ t. IsItemTable is_before item_of_node t
            × (of_kinds is_key_of_node records.now ≡ map record_of_node t))) }
        ensures only { IfOk result (λ read. (t : Items Numbered)
            → IsItemTable is_before item_of_node t
            → of_kinds is_key_of_node records.now ≡ map record_of_node t → read ≡ Some t) }
    {
        Nodes::read(alloc, records)
    }

    #[tactic(auto, using(asm_base::proofs::Tables::read_taken, asm_base::proofs::Tables::read_refused), unfolding(asm_base::specs::Records::read_from))]
    fn read(alloc: Global, records: &Records) -> Result<Option<Nodes>, NoMemory>
        ensures { IfOk result (λ read. read
            ≡ read_from is_key_of_node (add_item is_before (entry_of_record node_of_item)) []
            records.now) }
    {
        let mut nodes = Nodes::new(alloc);
        for (key, value) in records.iter() {
            if !nodes.take_up(alloc, *key, value)? {
                return Ok(None);
            }
        }
        Ok(Some(nodes))
    }

    /// Takes up one record more, or passes over one of another kind. `false` where it doesn't
    /// follow.
    #[tactic(auto, using(crate::proofs::Rules::taken_step, crate::proofs::Rules::refused_value, crate::proofs::Rules::refused_order))]
    fn take_up(&mut self, alloc: Global, key: Key, value: &Value) -> Result<bool, NoMemory>
        requires { Ascend is_before self.old }
        ensures step { IfOk result (λ taken. (if is_key_of_node key
            then add_item is_before (entry_of_record node_of_item) self.old (key, value.now)
            else Some self.old) ≡ (if taken then Some self.new else None)) }
        ensures ascending { IfOk result (λ taken. OnTrue taken (Ascend is_before self.new)) }
    {
        if key.kind != record_kind::NODES {
            return Ok(true);
        }
        let Some(node) = read_node(alloc, key, value)? else {
            return Ok(false);
        };
        if !self.ends_before(key.a) {
            return Ok(false);
        }
        self.put(key.a, node)?;
        Ok(true)
    }

    /// Whether a number comes behind the last one.
    fn ends_before(&self, number: u32) -> bool
        ensures { result ≡ ends_below is_before self.now number }
    {
        match self.map.last_key_value() {
            None => true,
            Some((last, _)) => last.cmp(&number).is_lt(),
        }
    }

    /// Whether each node's parent is the root or a directory, and its parents lead to the root.
    /// It takes as many steps as the paths have parts in all.
    pub(crate) fn are_rooted(&self) -> bool
        ensures { result ≡ list_all (is_right self.now) self.now }
    {
        for (number, node) in self.map.iter() {
            if !self.is_right(*number, node) {
                return false;
            }
        }
        true
    }

    /// The first node of which that doesn't hold.
    pub(crate) fn first_unrooted(&self) -> Option<u32>
        ensures { result ≡ option_map (λ x. x.0) (find (λ x. not (is_right self.now x)) self.now) }
    {
        for (number, node) in self.map.iter() {
            if !self.is_right(*number, node) {
                return Some(*number);
            }
        }
        None
    }

    fn is_right(&self, number: u32, node: &Node) -> bool
        ensures { result ≡ is_right self.now (number, node.now) }
    {
        let parent_is_right = match self.get(node.parent) {
            None => true,
            Some(parent) => matches!(parent.kind, NodeKind::Directory),
        };
        parent_is_right && self.reaches_root(self.map.len(), number)
    }

    /// Whether at most so many steps up lead to the root.
    #[tactic(auto, using(crate::proofs::Rules::at_root, crate::proofs::Rules::no_steps, crate::proofs::Rules::step_up, crate::proofs::Rules::no_way))]
    fn reaches_root(&self, steps: usize, number: u32) -> bool
        ensures { result ≡ reaches_root self.now steps number }
    {
        let mut at = number;
        let mut left = steps;
        while left > 0 {
            if at == 0 {
                return true;
            }
            let Some(node) = self.get(at) else {
                return false;
            };
            at = node.parent;
            left -= 1;
        }
        at == 0
    }
}

/// The name of a file that the node of this number is.
fn name_at(map: &BTreeMap<u32, Node>, number: u32) -> Option<FileName>
    ensures { result ≡ name_of_node number (node_at map.now.entries number) }
{
    let node = map.get(&number)?;
    name_by_kind(number, node.file, node.kind)
}

/// The least number that no node has, which isn't below `low`.
#[tactic(auto, using(crate::proofs::FreeNumbers::least_free))]
fn first_free(map: &BTreeMap<u32, Node>, low: u32) -> Option<u32>
    requires { IsLow map.now.entries low }
    ensures least { IfSome result (IsLeastFree map.now.entries) }
    ensures small { IfSome result (λ n. n < 2 ^ 32) }
{
    first_from(map, low)
}

/// The least number from another on that no node has.
fn first_from(map: &BTreeMap<u32, Node>, from: u32) -> Option<u32>
    ensures free { IfSome result (λ n. node_at map.now.entries n ≡ None) }
    ensures from { IfSome result (λ n. from ≤ n) }
    ensures small { IfSome result (λ n. n < 2 ^ 32) }
    ensures least { IfSome result (λ n. (k : ℕ) → from ≤ k → k < n
        → IsTrue (is_some (node_at map.now.entries k))) }
{
    let mut number = from;
    while map.get(&number).is_some() {
        number = number.checked_add(1)?;
    }
    Some(number)
}

/// A number below which none is free: the least that is, where `low` is such a number.
fn past_taken(map: &BTreeMap<u32, Node>, low: u32) -> u32
    requires { IsLow map.now.entries low }
    ensures { IsLow map.now.entries result }
{
    match first_free(map, low) {
        Some(number) => number,
        None => low,
    }
}
