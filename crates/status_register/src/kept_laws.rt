//! What a register keeps over the calls of others, and over a disk that is attached. Each function
//! has an empty body: its contract is the law.
ghost use Rattle.std.specs.Prelude.{◌≡◌, ℕ, List, Option, true};
ghost use Rattle.bay.specs.State.{KeepsAttached};
ghost use Rattle.bay.specs.Moments.{NowOnly, Runs, Within};
ghost use Rattle.asm_formats.specs.Status.{Status};
ghost use Rattle.status_register.specs.Elsewhere.{FitsStay, HistoryStays, IsApartFrom, LeavesRegister, NoRecordsFit, with_attached};
ghost use Rattle.status_register.specs.Holders.{is_of};
ghost use Rattle.status_register.specs.Keeping.{IsRegisterReady, FitsRegister};
ghost use Rattle.status_register.specs.Places.{HasSlots};
ghost use Rattle.status_register.specs.Reaching.{Reaches, SameSetsReach};
ghost use Rattle.status_register.specs.Registered.{Registered};
ghost use Rattle.status_register.specs.SurveyLaws.{IsMemberOn};
ghost use Rattle.status_register.specs.declared.member.Member.{Member};

use bay::{Bay, Slots, Step};

/// An image has the history of a register after a step that leaves the first ten blocks of each
/// disk of its group.
pub fn history_stays()
    ensures { HistoryStays }
{}

/// So it has one without a register, and the members.
pub fn fits_stay()
    ensures { FitsStay }
{}

/// Members without a record fit the history in which there is none.
pub fn no_records_fit()
    ensures { NoRecordsFit }
{}

/// A record with the sets of one that the attached disks reach is reached.
pub fn same_sets_reach()
    ensures { SameSetsReach }
{}

/// A register keeps its history over calls that leave the first ten blocks of each disk of its
/// group, and may be written after them where the same disks are attached.
pub fn register_keeps_elsewhere<B: Bay, T: Slots, S: Step>(start: &B, end: &B)
    ensures keeps { (slots : ℕ) (register : Registered) (completed : Option Status) (begun : List Status) → Within S.leads (LeavesRegister slots register.id)
        → Runs T.among S.leads (B.state start.now) (B.state end.now)
        → FitsRegister slots register completed begun (B.state start.now) → FitsRegister slots register completed begun (B.state end.now) }
    ensures ready { (register : Registered) → KeepsAttached (B.state start.now) (B.state end.now)
        → IsRegisterReady register (B.state start.now) → IsRegisterReady register (B.state end.now) }
{}

/// A register keeps its history with a disk more that is a member in each image that a stop may
/// leave now. It may be written where the disk has a slot of its own, and reaches its record where
/// the disk is that of its number's entry.
pub fn attached_keeps<B: Bay>(bay: &B)
    ensures keeps { (slots : ℕ) (register : Registered) (completed : Option Status) (begun : List Status) (m : Member)
        → NowOnly (B.state bay.now) (λ image. IsMemberOn slots register.id image m)
        → FitsRegister slots register completed begun (B.state bay.now) → FitsRegister slots (with_attached register m) completed begun (B.state bay.now) }
    ensures ready { (register : Registered) (m : Member) → HasSlots (B.state bay.now) m.slot m.sector → IsApartFrom register m
        → IsRegisterReady register (B.state bay.now) → IsRegisterReady (with_attached register m) (B.state bay.now) }
    ensures reaches { (register : Registered) (m : Member) → is_of register.value.entries m ≡ true
        → Reaches register.members register.value → Reaches (with_attached register m).members register.value }
{}
