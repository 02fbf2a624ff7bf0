//! The nodes with the index of their places.

ghost use Rattle.std.specs.Prelude.{◌≡◌, ◌≤◌, length, ℕ, IfOk, OnErr, OnOk, Some, None, if◌then◌else◌, is_some, true};
ghost use Rattle.std.specs.Bool.{OnTrue, OnFalse};
ghost use Rattle.std.specs.Option.{option_map, MatchOption};
ghost use Rattle.std.specs.Ordering.{nat_cmp};
ghost use Rattle.std.specs.BTreeMap.{is_at};
ghost use Rattle.asm_base.specs.Tables.{IsItemTable};
ghost use Rattle.alias_tree.specs.Nodes.{IsNodeTable, is_before, item_of_node, node_at, with_numbered_node, without_numbered_node};
ghost use Rattle.alias_tree.specs.Places.{Clash, Indexes, IsIndex, Place, is_same_place, number_at_place, place_of, without_place};

use crate::node::Node;
use crate::nodes::Nodes;
use crate::places::{Place, Places, named_place};
use asm_base::NoMemory;
use std::alloc::Global;

/// Puts a node among the nodes and at its place. Where there is no memory the nodes stay.
#[tactic(auto, using(crate::proofs::IndexLaws::name_after, crate::proofs::IndexLaws::put_same_or_not, crate::proofs::IndexLaws::nodes_of))]
pub(crate) fn put_node(
    nodes: &mut Nodes,
    places: &mut Places,
    key: u32,
    item: Node,
) -> Result<(), NoMemory>
    requires was { IsNodeTable nodes.old }
    requires table { IsNodeTable (with_numbered_node nodes.old key item) }
    requires index { IsIndex nodes.old places.old }
    ensures ok { OnOk result (nodes.new ≡ with_numbered_node nodes.old key item) }
    ensures err { OnErr result (nodes.new ≡ nodes.old) }
    ensures index { IsIndex nodes.new places.new }
{
    let at = named_place(item.parent, item.name.as_bytes());
    if places.get(at).is_some() {
        // No other node is there: this one keeps its place.
        nodes.put(key, item)
    } else {
        put_at(nodes, places, at, key, item)
    }
}

/// Puts a node at a place where none is.
#[tactic(auto, using(crate::proofs::IndexLaws::index_stays, crate::proofs::IndexLaws::put_and_gone, crate::proofs::IndexLaws::put_new))]
pub(crate) fn put_at(
    nodes: &mut Nodes,
    places: &mut Places,
    at: Place,
    key: u32,
    item: Node,
) -> Result<(), NoMemory>
    requires was { IsItemTable is_before item_of_node nodes.old }
    requires index { IsIndex nodes.old places.old }
    requires at { at ≡ place_of item }
    requires free { number_at_place places.old at ≡ None }
    ensures ok { OnOk result (nodes.new ≡ with_numbered_node nodes.old key item) }
    // Other numbers keep their nodes.
    ensures nodes { OnOk result ((n : ℕ) → node_at nodes.new n
        ≡ (if is_at (nat_cmp key) n then Some item else node_at nodes.old n)) }
    ensures err { OnErr result (nodes.new ≡ nodes.old) }
    ensures index { IsIndex nodes.new places.new }
{
    let before = place_at(nodes, key);
    places.put(at, key)?;
    if nodes.put(key, item).is_err() {
        places.remove(at);
        return Err(NoMemory);
    }
    forget(places, before);
    Ok(())
}

/// Takes a node and its place away, and tells whether it was there.
#[tactic(auto, using(crate::proofs::IndexLaws::index_without))]
pub(crate) fn remove_node(nodes: &mut Nodes, places: &mut Places, key: u32) -> bool
    requires was { IsItemTable is_before item_of_node nodes.old }
    requires index { IsIndex nodes.old places.old }
    ensures there { result ≡ is_some (node_at nodes.old key) }
    ensures after { nodes.new ≡ without_numbered_node nodes.old key }
    ensures nodes { (n : ℕ) → node_at nodes.new n
        ≡ (if is_at (nat_cmp key) n then None else node_at nodes.old n) }
    ensures index { IsIndex nodes.new places.new }
{
    let gone = place_at(nodes, key);
    forget(places, gone);
    nodes.remove(key)
}

/// The place of a node.
#[tactic(auto, using(crate::proofs::IndexLaws::name_of_item))]
fn place_at(nodes: &Nodes, key: u32) -> Option<Place>
    requires { IsItemTable is_before item_of_node nodes.now }
    ensures { result ≡ option_map place_of (node_at nodes.now key) }
{
    let node = nodes.get(key)?;
    Some(named_place(node.parent, node.name.as_bytes()))
}

fn forget(places: &mut Places, at: Option<Place>)
    ensures { (q : Place) → number_at_place places.new q
        ≡ without_place at q (number_at_place places.old q) }
{
    if let Some(at) = at {
        places.remove(at);
    }
}

/// The places of the nodes, or None where two of them have one.
#[tactic(auto, using(crate::proofs::Readings::name_is_short, crate::proofs::Rules::so_far_none, crate::proofs::Rules::so_far_more, crate::proofs::Rules::so_far_clash, crate::proofs::Rules::so_far_all))]
pub(crate) fn places_of(alloc: Global, nodes: &Nodes) -> Result<Option<Places>, NoMemory>
    requires { IsItemTable is_before item_of_node nodes.now }
    ensures { IfOk result (λ read. MatchOption read (Clash nodes.now)
        (λ places. Indexes nodes.now places)) }
{
    let mut places = Places::new(alloc);
    for (number, node) in nodes.iter() {
        if !add_place(&mut places, *number, node)? {
            return Ok(None);
        }
    }
    Ok(Some(places))
}

/// Puts a node's number at its place. `false` where there is another.
pub(crate) fn add_place(places: &mut Places, number: u32, node: &Node) -> Result<bool, NoMemory>
    requires { length node.now.name ≤ 80 }
    ensures added { IfOk result (λ added. OnTrue added
        ((number_at_place places.old (place_of node.now) ≡ None)
        × ((q : Place) → number_at_place places.new q
        ≡ (if is_same_place (place_of node.now) q then Some number
        else number_at_place places.old q)))) }
    ensures refused { IfOk result (λ added. OnFalse added
        (is_some (number_at_place places.old (place_of node.now)) ≡ true)) }
{
    let at = named_place(node.parent, node.name.as_bytes());
    if places.get(at).is_some() {
        return Ok(false);
    }
    places.put(at, number)?;
    Ok(true)
}
