//! Laws over worlds and runs, for commands that write on a mounted group: what an edit of its names
//! or settings is answered, worlds whose mounted groups are alone under their ids, and runs up to a
//! premise on their states. Each function does nothing; its contract is the law.
#![tactic(auto)]

ghost use Rattle.world_steps.specs.Runs.{FromIsRun, FromJoins, FromPremisesJoin, FromStays};
ghost use Rattle.world_steps.specs.Said.{AttributesHaveParts, PathsHaveParts, TemplatesHaveNames};
ghost use Rattle.world_steps.specs.Steps.{AnswersEdits, AnswersNone, TellsNoDisk};
ghost use Rattle.world_steps.specs.Told.{GroupsStayAlone};

use asm_world::{Later, Measure};

/// The answers to an edit of names or settings: by the world's edit where the command names a
/// mounted group, and else by what isn't there.
pub fn edits_are_answered()
    ensures inside { AnswersEdits }
    ensures outside { AnswersNone }
    ensures disks { TellsNoDisk }
{}

/// The names and paths of commands: templates have names of the grammar, paths parts of at most 80
/// bytes, and attributes no other names than parts.
pub fn commands_have_parts()
    ensures templates { TemplatesHaveNames }
    ensures paths { PathsHaveParts }
    ensures attributes { AttributesHaveParts }
{}

/// In a world whose mounted groups are alone under their ids they stay so over creations, mounts,
/// edits and dismounts.
pub fn groups_stay_alone()
    ensures { GroupsStayAlone }
{}

/// A premise on a move and on the state before it, up to the first of which that doesn't meet it
/// something is said.
pub trait StatePremise<C> {
    ghost use Rattle.asm_world.specs.Run.{SessionMove, State};

    ghost meets: { State C → SessionMove → Type 0 };
}

/// Up to the first that doesn't meet a premise, moves are a run in two rows one after another
/// exactly where they are in both; where all meet it, exactly where they are a run; and what is
/// told later of moments that have ended changes nothing.
pub fn runs_go_from_states<C, I, M: Measure<C, I>, P: StatePremise<C>, L: Later<I>>()
    ensures premises { FromPremisesJoin P.meets }
    ensures join { FromJoins M.outside P.meets }
    ensures runs { FromIsRun M.outside P.meets }
    ensures stay { FromStays M.outside P.meets L.leaves }
{}
