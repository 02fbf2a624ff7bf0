// The epoch of a surveyed group is claimed, and its record is written anew.
ghost use Rattle.std.specs.Prelude.{◌≡◌, ◌≤◌, ◌+◌, ◌*◌, false, length, IfOk, IfErr, OnOk, IsTrue};
ghost use Rattle.asm_formats.specs.Following.{sets};
ghost use Rattle.asm_formats.specs.Status.{is_status};
ghost use Rattle.bay.specs.Image.{ChangesOnly};
ghost use Rattle.bay.specs.Moments.{Runs};
ghost use Rattle.bay.specs.State.{KeepsAttached};
ghost use Rattle.status_register.specs.Keeping.{IsRegisterReady};
ghost use Rattle.status_register.specs.Reaching.{Reaches};
ghost use Rattle.status_register.specs.Registered.{AreNumbered};
ghost use Rattle.status_register.specs.Rows.{HaveOwnSlots};
ghost use Rattle.status_register.specs.Tallies.{HaveSlots, IsSlotOf};
ghost use Rattle.group_recovery.specs.Renewing.{Renews};
ghost use Rattle.group_recovery.specs.Writing.{EachMount, FrontOf, HasRenewed, HoldsOneGroup, KeepsGroups, KeepsRegister, RenewCause, RunsAsMount, RunsAsRecord, WritesAnew, renewed_register};

use asm_base::DiskSet;
use bay::Bay;
use status_register::{Register, Survey, SurveyError};
use status_table::PstRecord;

/// Why a record isn't written anew.
#[derive(Clone, Copy, Debug, PartialEq, Eq)]
pub enum RenewError {
    /// Of a set fewer disks took the claim than are needed.
    NoMajority { seen: u8, need: u8 },
    /// Too few disks took the record: this is the slot of one that failed.
    Dead { slot: u32 },
}

/// What became of a register's first write: the disks that failed.
#[derive(Drop)]
pub struct Renewed {
    pub register: Register,
    pub failed: DiskSet,
}

/// Claims the epoch after a survey, and writes the record anew under it. At each moment the disks
/// hold what a mount may leave, and in the end the record is complete.
pub fn renew<B: Bay>(bay: &mut B, survey: Survey, next: &PstRecord) -> Result<Renewed, RenewError>
    requires slots { HaveSlots (B.state bay.old) survey.members }
    requires apart { HaveOwnSlots survey.members }
    requires numbers { AreNumbered survey.members }
    requires is_record { IsTrue (is_status next.now) }
    requires group { next.now.id ≡ survey.value.id }
    requires renews { Renews survey.value next.now }
    ensures runs { EachMount survey next.now
        (λ mount. RunsAsMount mount (B.state bay.old) (B.state bay.new)) }
    ensures done { OnOk result (EachMount survey next.now
        (λ mount. HasRenewed mount (B.state bay.old) (B.state bay.new))) }
    ensures register { IfOk result (λ renewed. renewed.register
        ≡ renewed_register survey next.now) }
    ensures allowed { IfOk result (λ renewed. IsTrue (is_status renewed.register.value)) }
    ensures reaches { IfOk result (λ renewed. Reaches renewed.register.members
        renewed.register.value) }
    // Nothing changes but the claim and status slots of these disks.
    ensures front { Runs (IsSlotOf survey.members) (ChangesOnly (FrontOf survey.members))
        (B.state bay.old) (B.state bay.new) }
    ensures cause { IfErr result (λ error. RenewCause survey next.now error (B.state bay.old)
        (B.state bay.new)) }
    ensures attached { KeepsAttached (B.state bay.old) (B.state bay.new) }
    ensures calls { (B.state bay.new).calls ≤ (B.state bay.old).calls
        + 13 * (length survey.members + 64) }
    // Each image of each moment stands for what those at the start did, and in the end one group is
    // held.
    ensures groups { EachMount survey next.now
        (λ mount. KeepsGroups mount (B.state bay.old) (B.state bay.new)) }
    ensures held { OnOk result (EachMount survey next.now
        (λ mount. HoldsOneGroup mount (B.state bay.old) (B.state bay.new))) }
    ensures history { IfOk result (λ renewed. EachMount survey next.now
        (λ mount. KeepsRegister mount renewed.register (B.state bay.old) (B.state bay.new))) }
{
    match survey.claim(bay) {
        Ok(register) => write_anew(bay, register, next),
        Err(SurveyError::NoMajority { seen, need }) => Err(RenewError::NoMajority { seen, need }),
        Err(SurveyError::Damaged { .. }) => unreachable!(),
    }
}

/// Writes the record of a claimed epoch.
fn write_anew<B: Bay>(
    bay: &mut B,
    register: Register,
    next: &PstRecord,
) -> Result<Renewed, RenewError>
    requires is_record { IsTrue (is_status next.now) }
    requires group { next.now.id ≡ register.value.id }
    requires sets { sets next.now ≡ sets register.value }
    requires ready { IsRegisterReady register (B.state bay.old) }
    requires majority { Reaches register.members next.now }
    ensures answer { WritesAnew register next.now result (B.state bay.old) (B.state bay.new) }
    ensures allowed { IfOk result (λ renewed. IsTrue (is_status renewed.register.value)) }
    ensures reaches { IfOk result (λ renewed. Reaches renewed.register.members
        renewed.register.value) }
    ensures attached { KeepsAttached (B.state bay.old) (B.state bay.new) }
    ensures calls { (B.state bay.new).calls ≤ (B.state bay.old).calls + 13 * 64 }
    ensures runs { RunsAsRecord register next.now (B.state bay.old) (B.state bay.new) }
{
    let mut register = register;
    match register.write(bay, next) {
        Ok(failed) => Ok(Renewed { register, failed }),
        Err(dead) => Err(RenewError::Dead { slot: dead.slot }),
    }
}
