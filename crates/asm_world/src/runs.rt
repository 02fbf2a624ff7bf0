// Laws of all runs. Each function has an empty body: its contract is the law.
ghost use Rattle.std.specs.Prelude.{ℕ};
ghost use Rattle.asm_world.specs.Run.{Outside, SessionMove};
ghost use Rattle.asm_world.specs.RunRows.{RunRows, WaitsAreOwed, IncarnationRows};
ghost use Rattle.asm_world.specs.RunLaws.{RunsJoin, MomentsAreHeld, MountedAreThere, QuietMovesLeaveGroups, QuietMomentsAreHeld, HistoriesSplit, BetweenReplies, MarksRise};
ghost use Rattle.asm_world.specs.RunLaws.{PremisesJoin, WhilesJoin, WhilesAreRuns, WhilesStay, CallsGrow, RunsCallMore, MemoryIsShortAnywhere};

/// What runs are measured against, where C is counted of the outside, and I is an image of all
/// disks.
pub trait Measure<C, I> {
    ghost outside: { Outside C I };
}

/// A premise on moves, up to the first of which that doesn't meet it something is said.
pub trait Premise {
    ghost meets: { SessionMove → Type 0 };
}

/// Which images a stop may leave, as it is told later.
pub trait Later<I> {
    ghost leaves: { ℕ → I → Type 0 };
}

/// A run of some moves and then of others is a run of them all, and each run of them all is that.
pub fn runs_join<C, I, M: Measure<C, I>>()
    ensures { RunsJoin M.outside }
{}

/// From the end of any front of the moves on, an image that a stop may leave stands for groups
/// between the worlds before and after one of the later moves.
pub fn moments_are_held<C, I, M: Measure<C, I>>()
    ensures { MomentsAreHeld M.outside }
{}

/// In a moment that ends in a move, each group that is mounted before that move and after it is
/// there.
pub fn mounted_are_there<C, I, M: Measure<C, I>>()
    ensures { MountedAreThere M.outside }
{}

/// Moves that answer no command leave all groups.
pub fn quiet_moves_leave_groups<C, I, M: Measure<C, I>>()
    ensures { QuietMovesLeaveGroups M.outside }
{}

/// From one reply to the end of the next command, an image that a stop may leave stands for groups
/// between the worlds before and after that command.
pub fn between_replies<C, I, M: Measure<C, I>>()
    ensures { BetweenReplies M.outside }
{}

/// Marks never fall.
pub fn marks_rise<C, I, M: Measure<C, I>>()
    ensures { MarksRise M.outside }
{}

/// An image of a moment in which no command is answered stands for the groups that the world has.
pub fn quiet_moments_are_held<C, I, M: Measure<C, I>>()
    ensures { QuietMomentsAreHeld M.outside }
{}

/// In a row of moves no command is answered, or there is a first answer.
pub fn histories_split<C>()
    ensures { HistoriesSplit C }
{}

/// All of some moves and of others meet a premise exactly where all of both do.
pub fn premises_join<C, P: Premise>()
    ensures { PremisesJoin C P.meets }
{}

/// Up to the first that doesn't meet a premise, moves are a run in two rows one after another
/// exactly where they are in both.
pub fn whiles_join<C, I, M: Measure<C, I>, P: Premise>()
    ensures { WhilesJoin M.outside P.meets }
{}

/// Where all moves meet the premise, they are a run up to the first that doesn't exactly where they
/// are a run.
pub fn whiles_are_runs<C, I, M: Measure<C, I>, P: Premise>()
    ensures { WhilesAreRuns M.outside P.meets }
{}

/// What is told later of moments that have ended changes nothing.
pub fn whiles_stay<C, I, M: Measure<C, I>, P: Premise, L: Later<I>>()
    ensures { WhilesStay M.outside P.meets L.leaves }
{}

/// Where the count of calls never falls, in one row of moves after another, marks never fall.
pub fn calls_grow<C>()
    ensures { CallsGrow C }
{}

/// In a run the count of calls never falls.
pub fn runs_call_more<C, I, M: Measure<C, I>>()
    ensures { RunsCallMore M.outside }
{}

/// A worked run, in the order of the top call. Other orders are refused.
pub fn run_rows()
    ensures { RunRows }
{}

/// Which lines come under WAIT before a refusal, and which refusals come without WAIT.
pub fn wait_rows()
    ensures { WaitsAreOwed }
{}

/// The next incarnation after a new file.
pub fn incarnation_rows()
    ensures { IncarnationRows }
{}

/// Want of memory may be the answer to any command, and leave the world.
pub fn memory_is_short_anywhere()
    ensures { MemoryIsShortAnywhere }
{}
