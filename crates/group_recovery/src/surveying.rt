// The disks of an id are synced and surveyed.
ghost use Rattle.std.specs.Prelude.{◌≡◌, ◌≤◌, ◌+◌, ◌*◌, length, IfErr, IfOk};
ghost use Rattle.asm_formats.specs.Among.{IsAmong};
ghost use Rattle.bay.specs.Image.{Same};
ghost use Rattle.bay.specs.State.{KeepsAttached};
ghost use Rattle.bay.specs.Moments.{Runs};
ghost use Rattle.status_register.specs.Tallies.{HaveSlots, IsSlotOf};
ghost use Rattle.status_register.specs.declared.member.Member.{Member as Disk};
ghost use Rattle.group_recovery.specs.Finding.{AreThere};
ghost use Rattle.group_recovery.specs.Surveying.{AreSurveyed, IsSurveyedNow, MembersCause, SurveyCause, answer_of, mount_error_of};
ghost use Rattle.group_recovery.specs.Verdicts.{IsSlotIn, members_with};

use crate::choosing::members_of;
use crate::error::MountError;
use crate::finding::Headed;
use crate::syncing::{survey_synced, sync_all};
use bay::Bay;
use status_register::{Member, Survey, SurveyError};
use std::alloc::Global;

/// The refusal of a survey as that of a mount: a group that is gone is none.
fn refusal_of(error: SurveyError) -> MountError
    ensures { result ≡ mount_error_of error }
{
    match error {
        SurveyError::NoMajority { seen, need } => MountError::NoMajority { seen, need },
        SurveyError::Damaged { slot, block, gone } => if gone {
            MountError::NoGroup
        } else {
            MountError::Damaged { slot, block }
        },
    }
}

/// The answer of a survey as that of a mount.
fn answer_of(answer: Result<Survey, SurveyError>) -> Result<Survey, MountError>
    ensures { result ≡ answer_of answer }
{
    match answer {
        Ok(survey) => if survey.value().gone {
            Err(MountError::NoGroup)
        } else {
            Ok(survey)
        },
        Err(error) => Err(refusal_of(error)),
    }
}

/// Syncs members and surveys those that could be synced.
fn survey_members<B: Bay>(
    alloc: Global,
    bay: &mut B,
    id: u64,
    members: &[Member],
) -> Result<Survey, MountError>
    requires slots { HaveSlots (B.state bay.old) members.now }
    requires few { length members.now ≤ 512 }
    ensures surveyed { IfOk result (λ survey. AreSurveyed id members.now survey (B.state bay.old)
        (B.state bay.new)) }
    ensures cause { IfErr result (λ error. MembersCause id members.now error (B.state bay.old)
        (B.state bay.new)) }
    ensures attached { KeepsAttached (B.state bay.old) (B.state bay.new) }
    ensures calls { (B.state bay.new).calls ≤ (B.state bay.old).calls + 9 * length members.now }
    ensures runs { Runs (IsSlotOf members.now) Same (B.state bay.old) (B.state bay.new) }
{
    let synced = sync_all(alloc, bay, members)?;
    let answer = survey_synced(bay, id, &synced);
    answer_of(answer)
}

/// Syncs the disks of an id and surveys those that could be synced. What is read is what each image
/// that a stop may leave says. A group that is gone is none. Nothing is written.
pub fn survey_named<B: Bay>(
    alloc: Global,
    bay: &mut B,
    named: &[Headed],
    id: u64,
    slots: u32,
) -> Result<Survey, MountError>
    requires there { AreThere slots named.now (B.state bay.old) }
    requires few { length named.now ≤ 512 }
    ensures now { IfOk result (λ survey. IsSurveyedNow slots id survey (B.state bay.new)) }
    ensures among { IfOk result (λ survey. (m : Disk) → IsAmong survey.members m
        → IsAmong (members_with id named.now) m) }
    ensures cause { IfErr result (λ error. SurveyCause id named.now error (B.state bay.old)
        (B.state bay.new)) }
    ensures attached { KeepsAttached (B.state bay.old) (B.state bay.new) }
    ensures calls { (B.state bay.new).calls ≤ (B.state bay.old).calls + 9 * length named.now }
    ensures runs { Runs (IsSlotIn named.now) Same (B.state bay.old) (B.state bay.new) }
{
    let members = members_of(alloc, named, id)?;
    survey_members(alloc, bay, id, &members)
}
