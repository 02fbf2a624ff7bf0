//! What holds of every next move, and of the plans of moves.

ghost use Rattle.rebalance.specs.Cursors.{MarksChangeOne, MovesChangeOne};
ghost use Rattle.rebalance.specs.Falling.{NextMayBePlanned, PlannedMovesAreRegular, PlannedWorkFalls};

/// The catalog's plan of the next move may be made: where a copy is written anew, that which clears
/// its mark, and where it gets a home, that which moves it there. By the tables that it leads to no
/// home lies on a quorum disk either.
pub fn next_moves_may_be_planned()
    ensures may { NextMayBePlanned }
    ensures regular { PlannedMovesAreRegular }
{}

/// By the tables that this plan leads to, and the record after the move, less work is left.
pub fn planned_moves_lower_the_work()
    ensures { PlannedWorkFalls }
{}

/// The plan of a copy's move, or of an extent's marks, leads to tables in which all chunks but the
/// extent's are as they were.
pub fn planned_moves_change_one_chunk()
    ensures moves { MovesChangeOne }
    ensures marks { MarksChangeOne }
{}
