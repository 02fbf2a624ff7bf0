//! The group that is mounted: its record is written anew, and its parts are given.

ghost use Rattle.std.specs.Prelude.{◌≡◌, ◌++◌, ℕ, List, None, Some, IfErr, IfOk, OnOk};
ghost use Rattle.bay.specs.Image.{ChangesOnly};
ghost use Rattle.bay.specs.State.{KeepsAttached};
ghost use Rattle.bay.specs.Moments.{Runs};
ghost use Rattle.asm_formats.specs.Status.{Status};
ghost use Rattle.asm_group.specs.Group.{Group};
ghost use Rattle.status_register.specs.Holders.{with_next_number};
ghost use Rattle.status_register.specs.Registered.{register_of};
ghost use Rattle.status_register.specs.Surveys.{missing};
ghost use Rattle.status_register.specs.Tallies.{IsSlotOf};
ghost use Rattle.status_register.specs.Writes.{first_register};
ghost use Rattle.group_recovery.specs.NextRecord.{IsNextRecord, MakesRecord};
ghost use Rattle.group_recovery.specs.Quorum.{IsQuorum};
ghost use Rattle.group_recovery.specs.Recovered.{ChangesMembers, LeavesGroups, StoodFor};
ghost use Rattle.group_recovery.specs.Recovering.{AnewCause, ArePartsOf, DeadCause, IsAnew, IsShortRefusal, MayRenewRecord, RecoverCause, RefusesAnew, StandsAnew, disks_with, is_own, name_in, own_members};
ghost use Rattle.group_recovery.specs.Renewing.{Renews};
ghost use Rattle.group_recovery.specs.Verdicts.{IsSlotIn, members_with};
ghost use Rattle.group_recovery.specs.Writing.{EachMount, FrontOf, HoldsOneGroup, KeepsAnyRegister, KeepsGroups, RenewCause};

use crate::choosing::member_of;
use crate::error::MountError;
use crate::finding::Headed;
use crate::missing::has_units;
use crate::quorum::Quorate;
use crate::record::next_record;
use crate::writing::{RenewError, renew};
use asm_base::{Name, NoMemory, Shape};
use bay::Bay;
use catalog::Catalog;
use directory_store::Store;
use status_register::{Member, Register, Survey, is_of_entry, missing};
use status_table::{PstEntry, PstRecord};
use std::alloc::Global;

/// What a group was mounted to: its name as its headers have it, its catalog, its records on the
/// copies that have them, its register, and its attached disks with the sizes of their images in
/// bytes.
#[derive(Drop)]
pub struct Parts {
    pub name: Name,
    pub id: u64,
    pub shape: Shape,
    pub catalog: Catalog,
    pub store: Store,
    pub register: Register,
    pub disks: Vec<(Member, u64)>,
}

/// What a mount is to write and to give beside what it has read: the record, the group's name, and
/// the disks that are those of its entries, also with the sizes of their images.
#[derive(Drop)]
struct Anew {
    next: PstRecord,
    name: Name,
    members: Vec<Member>,
    disks: Vec<(Member, u64)>,
}

/// The group's name as the first of its headers has it.
fn name_of(headed: &[Headed], id: u64) -> Result<Name, NoMemory>
    ensures { IfOk result (λ name. name_in id headed.now ≡ Some name) }
{
    let [first, rest @ ..] = headed else {
        return Err(NoMemory);
    };
    if first.header.id == id {
        return first.header.group.copy();
    }
    name_of(rest, id)
}

/// Whether a disk is one of the id and of an entry, with at least its units.
fn is_own(id: u64, entries: &[PstEntry], headed: &Headed) -> bool
    ensures { result ≡ is_own id entries.now headed.now }
{
    headed.header.id == id
        && (is_of_entry(entries, member_of(headed)) && has_units(entries, headed))
}

/// Puts the disks of an id that are disks of entries behind others, each with the size of its
/// image.
fn put_disks(
    id: u64,
    entries: &[PstEntry],
    headed: &[Headed],
    disks: &mut Vec<(Member, u64)>,
) -> Result<(), NoMemory>
    ensures { OnOk result (disks.new.items
        ≡ disks.old.items ++ disks_with id entries.now headed.now) }
{
    let [first, rest @ ..] = headed else {
        return Ok(());
    };
    if is_own(id, entries, first) {
        disks
            .push((member_of(first), first.size))
            .map_err(|_| NoMemory)?;
    }
    put_disks(id, entries, rest, disks)
}

/// Puts those disks behind others as the register sees them.
fn put_own(
    id: u64,
    entries: &[PstEntry],
    headed: &[Headed],
    members: &mut Vec<Member>,
) -> Result<(), NoMemory>
    ensures { OnOk result (members.new.items
        ≡ members.old.items ++ own_members id entries.now headed.now) }
{
    let [first, rest @ ..] = headed else {
        return Ok(());
    };
    if is_own(id, entries, first) {
        members.push(member_of(first)).map_err(|_| NoMemory)?;
    }
    put_own(id, entries, rest, members)
}

/// The disks of an id that are disks of entries, as the register sees them.
fn own_members(
    alloc: Global,
    id: u64,
    entries: &[PstEntry],
    headed: &[Headed],
) -> Result<Vec<Member>, NoMemory>
    ensures { IfOk result (λ members. members.items ≡ own_members id entries.now headed.now) }
{
    let mut members = Vec::new(alloc);
    put_own(id, entries, headed, &mut members)?;
    Ok(members)
}

/// Refuses a record of which too few disks of a set are attached.
fn check_attached(members: &[Member], next: &PstRecord) -> Result<(), MountError>
    ensures enough { OnOk result (missing members.now (Some next.now) ≡ None) }
    ensures cause { IfErr result (IsShortRefusal (missing members.now (Some next.now))) }
{
    match missing(members, next) {
        Some((seen, need)) => Err(MountError::NoMajority { seen, need }),
        None => Ok(()),
    }
}

/// The disks of an id that are disks of entries, with the sizes of their images.
fn disks_of(
    alloc: Global,
    id: u64,
    entries: &[PstEntry],
    headed: &[Headed],
) -> Result<Vec<(Member, u64)>, NoMemory>
    ensures { IfOk result (λ disks. disks.items ≡ disks_with id entries.now headed.now) }
{
    let mut disks = Vec::new(alloc);
    put_disks(id, entries, headed, &mut disks)?;
    Ok(disks)
}

/// Dead by the disk of a slot.
fn dead(headed: &[Headed], slot: u32) -> MountError
    ensures { DeadCause headed.now slot result }
{
    let [first, rest @ ..] = headed else {
        return MountError::NoMemory;
    };
    if first.slot == slot {
        return match first.header.disk.copy() {
            Ok(name) => MountError::Dead { slot, name },
            Err(_) => MountError::NoMemory,
        };
    }
    dead(rest, slot)
}

/// The refusal of a record anew as that of a mount.
fn refusal_of_renew(headed: &[Headed], error: RenewError) -> MountError
    ensures { RefusesAnew headed.now error result }
{
    match error {
        RenewError::NoMajority { seen, need } => MountError::NoMajority { seen, need },
        RenewError::Dead { slot } => dead(headed, slot),
    }
}

/// What a mount at this second is to write and to give. NoMajority, where too few disks of a set
/// are there with all their units.
fn make_anew(alloc: Global, quorate: &Quorate, now: u64) -> Result<Anew, MountError>
    requires makes { MakesRecord quorate.now }
    requires renews { (next : Status) → IsNextRecord quorate.now now next
        → Renews quorate.now.survey.value next }
    ensures anew { IfOk result (IsAnew quorate.now now) }
    ensures cause { IfErr result (AnewCause quorate.now) }
{
    let next = next_record(alloc, quorate, now)?;
    let name = name_of(&quorate.headed, quorate.id)?;
    let members = own_members(alloc, quorate.id, next.entries(), &quorate.headed)?;
    check_attached(&members, &next)?;
    let disks = disks_of(alloc, quorate.id, next.entries(), &quorate.headed)?;
    Ok(Anew {
        next,
        name,
        members,
        disks,
    })
}

/// Writes the record of a survey anew, and gives its register with all these members that are disks
/// of its entries, also those that couldn't be synced.
fn write_register<B: Bay>(
    bay: &mut B,
    survey: Survey,
    next: &PstRecord,
    members: &[Member],
) -> Result<Register, RenewError>
    requires { MayRenewRecord survey next.now members.now (B.state bay.old) }
    ensures register { IfOk result (λ register. register
        ≡ first_register (with_next_number (register_of survey) next.now) members.now) }
    ensures stands { IfOk result (λ register. StandsAnew register (B.state bay.new)) }
    ensures cause { IfErr result (λ error. RenewCause survey next.now error (B.state bay.old)
        (B.state bay.new)) }
    ensures attached { KeepsAttached (B.state bay.old) (B.state bay.new) }
    ensures front { Runs (IsSlotOf survey.members) (ChangesOnly (FrontOf survey.members))
        (B.state bay.old) (B.state bay.new) }
    // What `renew` says of the groups, and that the register keeps the history with all these
    // members.
    ensures groups { EachMount survey next.now
        (λ mount. KeepsGroups mount (B.state bay.old) (B.state bay.new)) }
    ensures held { OnOk result (EachMount survey next.now
        (λ mount. HoldsOneGroup mount (B.state bay.old) (B.state bay.new))) }
    ensures history { IfOk result (λ register. EachMount survey next.now
        (λ mount. KeepsAnyRegister mount register (B.state bay.old) (B.state bay.new))) }
{
    match renew(bay, survey, next) {
        Ok(renewed) => Ok(Register::standing(bay, renewed.register.value(), members)),
        Err(error) => Err(error),
    }
}

/// Writes the record of a mount, and gives the parts of the group.
fn write_parts<B: Bay>(bay: &mut B, quorate: Quorate, anew: Anew) -> Result<Parts, MountError>
    requires quorum { IsQuorum quorate (B.state bay.old) }
    requires anew { (now : ℕ) × IsAnew quorate now anew }
    ensures parts { IfOk result (λ parts. (now : ℕ) → IsAnew quorate now anew
        → ArePartsOf quorate now parts (B.state bay.new)) }
    ensures cause { IfErr result (λ error. RecoverCause quorate error (B.state bay.old)
        (B.state bay.new)) }
    ensures attached { KeepsAttached (B.state bay.old) (B.state bay.new) }
    ensures runs { Runs (IsSlotIn quorate.headed.items)
        (ChangesOnly (FrontOf (members_with quorate.id quorate.headed.items))) (B.state bay.old)
        (B.state bay.new) }
    ensures members { Runs (IsSlotIn quorate.headed.items) (ChangesMembers quorate.id)
        (B.state bay.old) (B.state bay.new) }
    ensures leaves { (groups : List Group) → StoodFor quorate groups (B.state bay.old)
        → LeavesGroups quorate groups result (B.state bay.old) (B.state bay.new) }
{
    let Quorate {
        id,
        slots: _,
        headed,
        survey,
        shape,
        store,
        catalog,
    } = quorate;
    let Anew {
        next,
        name,
        members,
        disks,
    } = anew;
    match write_register(bay, survey, &next, &members) {
        Ok(register) => Ok(Parts {
            name,
            id,
            shape,
            catalog,
            store,
            register,
            disks,
        }),
        Err(error) => {
            drop(catalog);
            Err(refusal_of_renew(&headed, error))
        }
    }
}

impl Quorate {
    /// Claims the next epoch, and writes the group's record anew: missing disks are Offline since
    /// now, Online ones with a stale copy Syncing, and only directory copies that have the content
    /// are named. Gives what the group is mounted to: a disk is attached where its image is the one
    /// of an entry and has at least its units. Refusals: NoMajority, where so few disks of a set
    /// are attached, or so few members took the claim; Dead, where too few took the record;
    /// NoMemory, before the first write or where a name in a refusal wants it.
    pub fn recover<B: Bay>(self, alloc: Global, bay: &mut B, now: u64) -> Result<Parts, MountError>
        requires { IsQuorum self (B.state bay.old) }
        ensures parts { IfOk result (λ parts. ArePartsOf self now parts (B.state bay.new)) }
        ensures cause { IfErr result (λ error. RecoverCause self error (B.state bay.old)
            (B.state bay.new)) }
        ensures attached { KeepsAttached (B.state bay.old) (B.state bay.new) }
        // Nothing changes but the claim and status slots of the group's disks.
        ensures runs { Runs (IsSlotIn self.headed.items)
            (ChangesOnly (FrontOf (members_with self.id self.headed.items))) (B.state bay.old)
            (B.state bay.new) }
        // These are members of its id, and stay so.
        ensures members { Runs (IsSlotIn self.headed.items) (ChangesMembers self.id)
            (B.state bay.old) (B.state bay.new) }
        // Each image of each moment stands for groups that it might stand for before; in the end
        // one group is left.
        ensures leaves { (groups : List Group) → StoodFor self groups (B.state bay.old)
            → LeavesGroups self groups result (B.state bay.old) (B.state bay.new) }
    {
        match make_anew(alloc, &self, now) {
            Ok(anew) => write_parts(bay, self, anew),
            Err(error) => {
                drop(self);
                Err(error)
            }
        }
    }
}
