//! The order of status records, and which may follow which. Each law is the contract of a function
//! that does nothing.

ghost use Rattle.asm_formats.specs.Following.{IsRanked, SameSetsFollow};

/// The order is that of the epochs, and then of the turns.
#[tactic(auto, using(crate::proofs::Orders::is_ranked))]
pub fn records_are_ranked()
    ensures { IsRanked }
{}

/// A record with the sets of another follows it.
#[tactic(auto, using(crate::proofs::Orders::same_sets_follow))]
pub fn same_sets_follow()
    ensures { SameSetsFollow }
{}
