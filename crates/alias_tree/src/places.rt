//! The index of the nodes by parent and name.

ghost use Rattle.std.specs.Prelude.{◌≡◌, ◌≤◌, [], length, ◌++◌, drop, IfOk, OnErr, OnOk, Some, None, if◌then◌else◌, true, nat_lt};
ghost use Rattle.std.specs.List.Sorted.{IsStrictlySortedBy};
ghost use Rattle.std.specs.Map.{keys_of};
ghost use Rattle.asm_group.specs.Names.{folded, folded_byte};
ghost use Rattle.alias_tree.specs.Places.{first_under, last_under, named_place};

use asm_base::NoMemory;
use std::alloc::Global;
use std::collections::BTreeMap;
use std::marker::Model;

/// Where a node hangs: its parent, and its name without case, with zeros behind it. Places go by
/// parent, and then by name.
#[derive(Clone, Copy, Debug, PartialEq, Eq, PartialOrd, Ord)]
pub(crate) struct Place {
    parent: u32,
    name: [u8; 80],
    len: u8,
}

/// The place of a name of at most 80 bytes.
#[tactic(auto, using(crate::proofs::PlaceLaws::place_is))]
pub(crate) fn named_place(parent: u32, bytes: &[u8]) -> Place
    requires { length bytes.now ≤ 80 }
    ensures { result ≡ named_place parent bytes.now }
{
    let mut name = [0; 80];
    let all = &mut name[..];
    put_folded(all, bytes);
    Place {
        parent,
        name,
        len: bytes.len() as u8,
    }
}

/// Before the places of a parent.
fn first_under(parent: u32) -> Place
    ensures { result ≡ first_under parent }
{
    Place {
        parent,
        name: [0; 80],
        len: 0,
    }
}

/// Behind the places of a parent.
fn last_under(parent: u32) -> Place
    ensures { result ≡ last_under parent }
{
    Place {
        parent,
        name: [255; 80],
        len: 255,
    }
}

/// Puts bytes without case at the front of a field.
#[tactic(auto, using(crate::proofs::PlaceLaws::one_folded, crate::proofs::PlaceLaws::all_folded))]
fn put_folded(field: &mut [u8], bytes: &[u8])
    requires { length bytes.now ≤ length field.old }
    ensures { field.new ≡ folded bytes.now ++ drop (length bytes.now) field.old }
{
    for i in 0..bytes.len() {
        field[i] = folded_byte(bytes[i]);
    }
}

fn folded_byte(b: u8) -> u8
    ensures { result ≡ folded_byte b }
{
    if b.is_ascii_uppercase() { b + 32 } else { b }
}

/// The number of the node at each place.
#[derive(Drop)]
pub(crate) struct Places {
    map: BTreeMap<Place, u32>,
}

impl Model for Places {
    ghost use Rattle.std.specs.Prelude.{List as Items, ℕ};
    ghost use Rattle.alias_tree.specs.declared.places.Place.{Place};

    ghost Value = { Items (Place × ℕ) };

    ghost view = { λ p. p.map.entries };
}

impl Places {
    ghost use Rattle.alias_tree.specs.Places.{is_same_place, number_at_place, numbers_under, place_cmp, Place};

    pub(crate) fn new(alloc: Global) -> Places
        ensures { result ≡ [] }
    {
        Places {
            map: BTreeMap::new(alloc),
        }
    }

    pub(crate) fn get(&self, place: Place) -> Option<u32>
        ensures { result ≡ number_at_place self.now place }
    {
        self.map.get(&place).copied()
    }

    pub(crate) fn put(&mut self, place: Place, number: u32) -> Result<(), NoMemory>
        ensures ok { OnOk result ((q : Place)
            → number_at_place self.new q
            ≡ (if is_same_place place q then Some number else number_at_place self.old q)) }
        ensures err { OnErr result (self.new ≡ self.old) }
    {
        let Ok(_) = self.map.insert(place, number) else {
            return Err(NoMemory);
        };
        Ok(())
    }

    pub(crate) fn remove(&mut self, place: Place)
        ensures { (q : Place) → number_at_place self.new q
            ≡ (if is_same_place place q then None else number_at_place self.old q) }
    {
        let _ = self.map.remove(&place);
    }

    /// Whether some place is of this parent.
    #[tactic(auto, using(crate::proofs::Under::is_forward, crate::proofs::Under::some_number, crate::proofs::Under::no_number))]
    pub(crate) fn has_under(&self, parent: u32) -> bool
        ensures has { result ≡ nat_lt 0 (length (numbers_under self.now parent)) }
        ensures ordered { IsStrictlySortedBy place_cmp (keys_of self.now) }
    {
        for (_, _number) in self.map.range(first_under(parent)..=last_under(parent)) {
            return true;
        }
        false
    }

    /// The numbers at the places of one parent, in the order of the places.
    #[tactic(auto, using(crate::proofs::Under::is_forward))]
    pub(crate) fn under(&self, alloc: Global, parent: u32) -> Result<Vec<u32>, NoMemory>
        ensures numbers { IfOk result (λ v. v.items ≡ numbers_under self.now parent) }
        ensures ordered { IsStrictlySortedBy place_cmp (keys_of self.now) }
    {
        let mut numbers = Vec::new(alloc);
        for (_, number) in self.map.range(first_under(parent)..=last_under(parent)) {
            if numbers.push(*number).is_err() {
                return Err(NoMemory);
            }
        }
        Ok(numbers)
    }
}
