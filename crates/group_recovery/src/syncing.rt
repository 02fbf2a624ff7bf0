// The members of a group are synced, so that what is read of them is what a stop leaves, and then
// surveyed.
ghost use Rattle.std.specs.Prelude.{◌≡◌, ◌≤◌, ◌+◌, ◌*◌, ◌++◌, ◌∷◌, [], length, IfOk, IfErr, OnOk};
ghost use Rattle.bay.specs.Image.{Same};
ghost use Rattle.bay.specs.State.{KeepsAttached, IsSlot};
ghost use Rattle.bay.specs.Moments.{Runs};
ghost use Rattle.status_register.specs.Answers.{IsSurveyed};
ghost use Rattle.status_register.specs.Places.{HasSlots};
ghost use Rattle.status_register.specs.Tallies.{HaveSlots, IsSlotOf};
ghost use Rattle.group_recovery.specs.Syncing.{AreMembersDurable, AreSynced, IsSurveyNow, IsWellRead, SyncsOne};

use asm_base::NoMemory;
use bay::Bay;
use status_register::{Member, Survey, SurveyError};
use std::alloc::Global;

/// Syncs one member, and puts it behind others where that could be done.
fn sync_one<B: Bay>(bay: &mut B, member: Member, synced: &mut Vec<Member>) -> Result<(), NoMemory>
    requires { HasSlots (B.state bay.old) member.slot member.sector }
    ensures synced { OnOk result (SyncsOne member synced.old.items synced.new.items
        (B.state bay.old) (B.state bay.new)) }
    ensures attached { KeepsAttached (B.state bay.old) (B.state bay.new) }
    ensures calls { (B.state bay.new).calls ≤ (B.state bay.old).calls + 1 }
    ensures runs { Runs (IsSlot member.slot) Same (B.state bay.old) (B.state bay.new) }
{
    match bay.sync(member.slot) {
        Ok(()) => synced.push(member).map_err(|_| NoMemory),
        Err(_fault) => Ok(()),
    }
}

/// Syncs these members one after another, past faults, and gives those that could be synced.
pub fn sync_all<B: Bay>(
    alloc: Global,
    bay: &mut B,
    members: &[Member],
) -> Result<Vec<Member>, NoMemory>
    requires slots { HaveSlots (B.state bay.old) members.now }
    ensures synced { IfOk result (λ synced. AreSynced members.now synced.items (B.state bay.old)
        (B.state bay.new)) }
    ensures attached { KeepsAttached (B.state bay.old) (B.state bay.new) }
    ensures calls { (B.state bay.new).calls ≤ (B.state bay.old).calls + length members.now }
    ensures runs { Runs (IsSlotOf members.now) Same (B.state bay.old) (B.state bay.new) }
{
    let mut synced = Vec::new(alloc);
    for member in members {
        sync_one(bay, *member, &mut synced)?;
    }
    Ok(synced)
}

/// Surveys members that were synced: what is read is what each image that a stop may leave says.
pub fn survey_synced<B: Bay>(
    bay: &mut B,
    id: u64,
    members: &[Member],
) -> Result<Survey, SurveyError>
    requires slots { HaveSlots (B.state bay.old) members.now }
    requires few { length members.now ≤ 512 }
    requires durable { AreMembersDurable members.now (B.state bay.old) }
    ensures answer { IsSurveyed id members.now result (B.state bay.old) (B.state bay.new) }
    ensures surveyed { IfOk result (λ survey. (survey.id ≡ id) × (survey.members ≡ members.now)) }
    ensures now { IfOk result (λ survey. IsSurveyNow survey (B.state bay.new)) }
    ensures record_is { IfOk result IsWellRead }
    ensures durable { AreMembersDurable members.now (B.state bay.new) }
    ensures attached { KeepsAttached (B.state bay.old) (B.state bay.new) }
    ensures calls { (B.state bay.new).calls ≤ (B.state bay.old).calls + 8 * length members.now }
    ensures runs { Runs (IsSlotOf members.now) Same (B.state bay.old) (B.state bay.new) }
{
    Survey::read(bay, id, members)
}
