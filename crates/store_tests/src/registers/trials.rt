// The calls of a register as tests make them: what they require is tested first.
ghost use Rattle.std.specs.Prelude.{◌≡◌, ◌≤◌, ◌&&◌, ◌==◌, ℕ, true, length, map, nat_le, nat_lt, IsTrue};
ghost use Rattle.std.specs.List.{list_all};
ghost use Rattle.std.specs.Option.{option_map};
ghost use Rattle.asm_formats.specs.Following.{Holder, disks_of, holder_of};
ghost use Rattle.asm_formats.specs.Status.{ascends_from, entry_of};
ghost use Rattle.asm_formats.specs.Among.{IsAmong};
ghost use Rattle.status_register.specs.Counting.{of_disk};
ghost use Rattle.status_register.specs.Keeping.{IsRegisterReady};
ghost use Rattle.status_register.specs.Places.{HasSlots};
ghost use Rattle.status_register.specs.Registered.{AreNumbered};
ghost use Rattle.status_register.specs.Rows.{HaveOwnSlots};
ghost use Rattle.status_register.specs.Surveys.{is_holder_there};
ghost use Rattle.status_register.specs.Tallies.{HaveSlots};

use bay::{Bay, Fault};
use status_register::{Dead, Member, Register, Survey, SurveyError, claim_first};
use status_table::{PstEntry, PstRecord, is_status, same_sets_follow};

/// What became of a mount that writes one record: what the survey or the claim was refused as, the
/// slot of a dead disk, or how many disks failed.
#[derive(Clone, Copy, Debug)]
pub enum Outcome {
    Unread(SurveyError),
    Unclaimed(SurveyError),
    Dead(u32),
    Wrote(u8),
}

/// Whether the slots ascend.
fn ascend(members: &[Member]) -> bool
    ensures { result ≡ ascends_from 0 (map (λ m. m.slot) members.now) }
{
    let mut least = 0;
    for member in members {
        let slot = member.slot as u64;
        if slot < least {
            return false;
        }
        least = slot + 1;
    }
    true
}

fn are_numbered(members: &[Member]) -> bool
    ensures { result ≡ list_all (λ m. nat_lt m.number 64) members.now }
{
    members.iter().all(|member| member.number < 64)
}

fn is_long(size: u64, sector: u32) -> bool
    ensures { result ≡ (nat_le 40960 size && (sector == 512)) }
{
    40960 <= size && sector == 512
}

fn attach<B: Bay>(bay: &mut B, member: Member) -> bool
    ensures here { result ≡ true → HasSlots (B.state bay.new) member.slot member.sector }
    ensures others { (slot sector : ℕ) → HasSlots (B.state bay.old) slot sector
        → HasSlots (B.state bay.new) slot sector }
{
    match bay.attach(member.slot, "disk") {
        Ok(size) => is_long(size, member.sector),
        Err(_) => false,
    }
}

fn attach_all<B: Bay>(bay: &mut B, members: &[Member]) -> bool
    ensures { result ≡ true → HaveSlots (B.state bay.new) members.now }
{
    for member in members {
        if !attach(bay, *member) {
            return false;
        }
    }
    true
}

/// Whether these may be members.
#[tactic(auto, using(crate::proofs::Trying::apart_by_slots, crate::proofs::Trying::numbered_by_test))]
fn may_be_members(members: &[Member]) -> bool
    ensures few { result ≡ true → length members.now ≤ 64 }
    ensures apart { result ≡ true → HaveOwnSlots members.now }
    ensures numbers { result ≡ true → AreNumbered members.now }
{
    if !ascend(members) {
        return false;
    }
    if !are_numbered(members) {
        return false;
    }
    members.len() <= 64
}

fn is_there(members: &[Member], number: u8, birth: u64) -> bool
    ensures { result ≡ is_holder_there members.now (number, birth) }
{
    members
        .iter()
        .any(|member| member.number == number && member.birth == birth)
}

/// The birth of a disk by its entry.
#[tactic(auto, unfolding(asm_formats::specs::Status::entry_of))]
fn birth_of(entries: &[PstEntry], disk: u8) -> Option<u64>
    ensures { result ≡ option_map (λ e. e.birth) (entry_of entries.now disk) }
{
    for entry in entries {
        if entry.number == disk {
            return Some(entry.birth);
        }
    }
    None
}

/// Whether the disk of this number, if it has an entry, is one of the members.
fn is_entry_there(members: &[Member], entries: &[PstEntry], disk: u8) -> bool
    ensures { result ≡ list_all (is_holder_there members.now)
        (holder_of disk (entry_of entries.now disk)) }
{
    match birth_of(entries, disk) {
        None => true,
        Some(birth) => is_there(members, disk, birth),
    }
}

/// Whether the disk of this number, if it is in the set, is one of the members.
#[tactic(auto, using(crate::proofs::Trying::out_of_set, crate::proofs::Trying::in_set))]
fn is_held(members: &[Member], status: &PstRecord, disk: u8) -> bool
    ensures { result ≡ list_all (is_holder_there members.now)
        (of_disk status.now.entries status.now.holders disk) }
{
    if status.holders.has(disk) {
        is_entry_there(members, status.entries(), disk)
    } else {
        true
    }
}

/// Whether all holders of a record are among the members.
fn are_there(members: &[Member], status: &PstRecord) -> bool
    ensures { result ≡ true → (h : Holder)
        → IsAmong (disks_of status.now.entries status.now.holders) h
        → IsTrue (is_holder_there members.now h) }
{
    for disk in 0..64 {
        if !is_held(members, status, disk) {
            return false;
        }
    }
    true
}

/// The record with another greatest birth, by which tests tell records apart.
fn with_births(status: &PstRecord, births: u64) -> PstRecord
    ensures { result ≡ record status.now { births = births } }
{
    let mut status = status.copy();
    status.births = births;
    status
}

/// Writes the first record. None where this may not be asked.
pub fn create<B: Bay>(
    bay: &mut B,
    status: &PstRecord,
    members: &[Member],
) -> Option<Result<Register, Dead>> {
    if !may_be_members(members) {
        return None;
    }
    if !is_status(status) {
        return None;
    }
    if !are_there(members, status) {
        return None;
    }
    if !attach_all(bay, members) {
        return None;
    }
    Some(Register::first(bay, status, members))
}

/// Claims the epoch of a first record, and then writes it. None where this may not be asked.
pub fn claim_and_create<B: Bay>(
    bay: &mut B,
    status: &PstRecord,
    members: &[Member],
) -> Option<Result<Register, Dead>> {
    if !may_be_members(members) {
        return None;
    }
    if !is_status(status) {
        return None;
    }
    if !are_there(members, status) {
        return None;
    }
    if !attach_all(bay, members) {
        return None;
    }
    match claim_first(bay, status.id, status.epoch, members) {
        Err(dead) => Some(Err(dead)),
        Ok(()) => Some(Register::first(bay, status, members)),
    }
}

/// Writes ones over one of the first ten blocks of a member's disk. Whether that was done.
pub fn spoil<B: Bay>(bay: &mut B, member: Member, block: u64) -> bool {
    if block > 9 {
        return false;
    }
    if !attach(bay, member) {
        return false;
    }
    let ones = [1u8; 4096];
    match bay.write(member.slot, block * 4096, &ones[..]) {
        Ok(()) => true,
        Err(Fault) => false,
    }
}

/// Surveys the members. None where this may not be asked.
pub fn survey<B: Bay>(bay: &mut B, members: &[Member]) -> Option<Result<Survey, SurveyError>> {
    if !may_be_members(members) {
        return None;
    }
    if !attach_all(bay, members) {
        return None;
    }
    Some(Survey::read(bay, 7, members))
}

/// Writes the record with another greatest birth. None where this may not be asked.
fn write<B: Bay>(register: &mut Register, bay: &mut B, births: u64) -> Option<Outcome>
    requires { IsRegisterReady register.old (B.state bay.old) }
{
    let next = with_births(register.value(), births);
    if !is_status(&next) {
        return None;
    }
    if !register.reaches(&next) {
        return None;
    }
    same_sets_follow();
    match register.write(bay, &next) {
        Ok(failed) => Some(Outcome::Wrote(failed.count())),
        Err(dead) => Some(Outcome::Dead(dead.slot)),
    }
}

/// Surveys the members, claims, and writes the record with another greatest birth. None where this
/// may not be asked.
pub fn mount<B: Bay>(bay: &mut B, members: &[Member], births: u64) -> Option<Outcome> {
    if !may_be_members(members) {
        return None;
    }
    if !attach_all(bay, members) {
        return None;
    }
    match Survey::read(bay, 7, members) {
        Err(refusal) => Some(Outcome::Unread(refusal)),
        Ok(survey) => match survey.claim(bay) {
            Err(refusal) => Some(Outcome::Unclaimed(refusal)),
            Ok(mut register) => write(&mut register, bay, births),
        },
    }
}
