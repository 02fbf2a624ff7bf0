//! The work that a rebalance has left.

ghost use Rattle.asm_placement.specs.Work.{WorkFalls};

/// Each move lowers the work, so a rebalance that isn't stopped ends.
pub fn work_falls()
    ensures { WorkFalls }
{}
