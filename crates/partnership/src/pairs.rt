//! A list of pairs of partners.

ghost use Rattle.std.specs.Prelude.{◌≡◌, ◌∷◌, [], OnOk};
ghost use Rattle.asm_placement.specs.Partners.{Pair, are_partners, has_partner_in, partner_count};

use allocator::NoMemory;
use status_table::PstEntry;
use std::alloc::Global;
use std::marker::Model;

/// Pairs of disks that are partners. Contracts see the last one first.
#[derive(Drop)]
pub struct Table {
    pairs: Vec<(PstEntry, PstEntry)>,
}

impl Model for Table {
    ghost use Rattle.std.specs.Prelude.{List, reverse};
    ghost use Rattle.asm_placement.specs.Partners.{Pair as Partners};

    ghost Value = { List Partners };

    ghost view = { λ t. reverse t.pairs.items };
}

impl Table {
    pub fn new(alloc: Global) -> Table
        ensures { result ≡ [] }
    {
        Table {
            pairs: Vec::new(alloc),
        }
    }

    #[tactic(auto, using(crate::proofs::Tables::pushed))]
    pub fn add(&mut self, a: PstEntry, b: PstEntry) -> Result<(), NoMemory>
        ensures { OnOk result (self.new ≡ (a, b) ∷ self.old) }
    {
        self.pairs.push((a, b)).map_err(|_| NoMemory)
    }

    /// How many partners the disk has.
    #[tactic(auto, using(crate::proofs::Tables::count_reversed))]
    pub fn count(&self, d: u8) -> usize
        ensures { result ≡ partner_count self.now d }
    {
        partner_count(&self.pairs, d)
    }

    /// Whether the disk has a partner in the failure group.
    #[tactic(auto, using(crate::proofs::Tables::group_reversed))]
    pub fn has_partner_in(&self, d: u8, failgroup: u8) -> bool
        ensures { result ≡ has_partner_in self.now d failgroup }
    {
        has_partner_in(&self.pairs, d, failgroup)
    }

    #[tactic(auto, using(crate::proofs::Tables::partners_reversed))]
    pub fn are_partners(&self, a: u8, b: u8) -> bool
        ensures { result ≡ are_partners self.now a b }
    {
        are_partners(&self.pairs, a, b)
    }
}

fn partner_count(pairs: &[(PstEntry, PstEntry)], d: u8) -> usize
    ensures { result ≡ partner_count pairs.now d }
{
    pairs
        .iter()
        .filter(|pair| pair.0.number == d || pair.1.number == d)
        .count()
}

fn has_partner_in(pairs: &[(PstEntry, PstEntry)], d: u8, failgroup: u8) -> bool
    ensures { result ≡ has_partner_in pairs.now d failgroup }
{
    pairs.iter().any(|pair| {
        pair.0.number == d && pair.1.failgroup == failgroup
            || pair.1.number == d && pair.0.failgroup == failgroup
    })
}

#[tactic(auto, unfolding(asm_placement::specs::Partners::are_partners))]
fn are_partners(pairs: &[(PstEntry, PstEntry)], a: u8, b: u8) -> bool
    ensures { result ≡ are_partners pairs.now a b }
{
    pairs.iter().any(|pair| {
        pair.0.number == a && pair.1.number == b || pair.0.number == b && pair.1.number == a
    })
}
