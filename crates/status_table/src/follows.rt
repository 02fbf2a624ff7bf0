//! Which record may be written after which.

ghost use Rattle.std.specs.Prelude.{◌≡◌};
ghost use Rattle.asm_formats.specs.Status.{Status};
ghost use Rattle.asm_formats.specs.Following.{sets, Follows};

/// A record that needs the majorities of the same sets may be written next.
#[tactic(auto, using(crate::proofs::Kept::same_sets))]
pub fn same_sets_follow()
    ensures { (v r : Status) → sets r ≡ sets v → Follows v r }
{}
