// Which id of a name is mounted: its members are surveyed.
ghost use Rattle.std.specs.Prelude.{◌≡◌, ◌≤◌, ◌+◌, ◌*◌, ◌++◌, [], length, IfOk, OnOk};
ghost use Rattle.std.specs.Prelude.{◌==◌};
ghost use Rattle.std.specs.List.{list_any};
ghost use Rattle.bay.specs.Image.{Same};
ghost use Rattle.bay.specs.State.{KeepsAttached};
ghost use Rattle.bay.specs.Moments.{Runs};
ghost use Rattle.status_register.specs.declared.member.Member.{Member as Disk};
ghost use Rattle.group_recovery.specs.Verdicts.{AreAttached, Chooses, GrowsBy, IsJudged, IsSlotIn, calls_to_survey, greater_short_id, has_slot, ids_named, member_of, members_with, unread_by, unread_of, verdict_of, with_id, with_verdict};

use crate::finding::Headed;
use asm_base::{Name, NoMemory};
use bay::Bay;
use status_register::{Member, Survey, SurveyError};
use std::alloc::Global;

/// What a survey of the members of an id tells.
#[derive(Clone, Copy, Debug, PartialEq, Eq)]
pub enum Verdict {
    /// Its greatest record is marked gone, and a majority of each of its sets was read.
    Gone,
    /// A majority of each set was read. Where a body doesn't decode, its slot and block.
    Whole(Option<(u32, u64)>),
    /// Of a set fewer were read than are needed.
    Short { seen: u8, need: u8 },
}

/// An id of which a majority was read, and the slot and block of the first body that doesn't
/// decode.
#[derive(Clone, Copy, Debug, PartialEq, Eq)]
pub struct WholeId {
    pub id: u64,
    pub damage: Option<(u32, u64)>,
}

/// An id without a majority: how many disks of a set were read, and how many are needed.
#[derive(Clone, Copy, Debug, PartialEq, Eq)]
pub struct ShortId {
    pub id: u64,
    pub seen: u8,
    pub need: u8,
}

/// What was found of the ids of a name: one that is whole, whether there is a second one, and the
/// greatest of those that are short.
#[derive(Clone, Copy, Debug, PartialEq, Eq)]
pub struct Choice {
    pub whole: Option<WholeId>,
    pub are_two: bool,
    pub short: Option<ShortId>,
}

/// The disk as the register sees it.
pub fn member_of(headed: &Headed) -> Member
    ensures { result ≡ member_of headed.now }
{
    Member {
        slot: headed.slot,
        number: headed.header.number,
        birth: headed.header.birth,
        sector: headed.header.sector,
    }
}

/// Puts the members with an id behind others.
fn put_members(headed: &[Headed], id: u64, members: &mut Vec<Member>) -> Result<(), NoMemory>
    ensures { OnOk result (members.new.items ≡ members.old.items ++ members_with id headed.now) }
{
    let [first, rest @ ..] = headed else {
        return Ok(());
    };
    if first.header.id == id {
        members.push(member_of(first)).map_err(|_| NoMemory)?;
    }
    put_members(rest, id, members)
}

/// The members with an id.
pub fn members_of(alloc: Global, headed: &[Headed], id: u64) -> Result<Vec<Member>, NoMemory>
    ensures { IfOk result (λ members. members.items ≡ members_with id headed.now) }
{
    let mut members = Vec::new(alloc);
    put_members(headed, id, &mut members)?;
    Ok(members)
}

/// Whether a slot is that of one of these members.
pub fn has_slot(members: &[Member], slot: u32) -> bool
    ensures { result ≡ has_slot members.now slot }
{
    members.iter().any(|member| member.slot == slot)
}

/// Whether an id is one of these.
fn has_id(ids: &[u64], id: u64) -> bool
    ensures { result ≡ list_any (λ n. n == id) ids.now }
{
    ids.iter().any(|other| *other == id)
}

/// Puts an id behind others, where it isn't one of them.
fn put_id(ids: &mut Vec<u64>, id: u64) -> Result<(), NoMemory>
    ensures { OnOk result (ids.new.items ≡ with_id id ids.old.items) }
{
    if has_id(ids, id) {
        return Ok(());
    }
    ids.push(id).map_err(|_| NoMemory)
}

/// The ids in the headers of a name, each once.
pub fn ids_named(alloc: Global, headed: &[Headed], name: &Name) -> Result<Vec<u64>, NoMemory>
    ensures { IfOk result (λ ids. ids.items ≡ ids_named name.now headed.now) }
{
    let [first, rest @ ..] = headed else {
        return Ok(Vec::new(alloc));
    };
    let mut ids = ids_named(alloc, rest, name)?;
    if first.header.group.is_same(name) {
        put_id(&mut ids, first.header.id)?;
    }
    Ok(ids)
}

/// What an answer of a survey tells of an id.
fn verdict_of(answer: Result<Survey, SurveyError>) -> Verdict
    ensures { result ≡ verdict_of answer }
{
    match answer {
        Ok(survey) => if survey.value().gone {
            Verdict::Gone
        } else {
            Verdict::Whole(None)
        },
        Err(SurveyError::NoMajority { seen, need }) => Verdict::Short { seen, need },
        Err(SurveyError::Damaged { slot, block, gone }) => if gone {
            Verdict::Gone
        } else {
            Verdict::Whole(Some((slot, block)))
        },
    }
}

/// Puts the slots of the members that aren't among those that were read behind others.
fn put_unread(read: &[Member], members: &[Member], unread: &mut Vec<u32>) -> Result<(), NoMemory>
    ensures { OnOk result (unread.new.items ≡ unread.old.items ++ unread_of read.now members.now) }
{
    let [first, rest @ ..] = members else {
        return Ok(());
    };
    if !has_slot(read, first.slot) {
        unread.push(first.slot).map_err(|_| NoMemory)?;
    }
    put_unread(read, rest, unread)
}

/// Puts the slots of the members that a survey couldn't read behind others. Of a survey that is
/// refused nothing is told.
fn note_unread(
    answer: &Result<Survey, SurveyError>,
    members: &[Member],
    unread: &mut Vec<u32>,
) -> Result<(), NoMemory>
    ensures { OnOk result (unread.new.items
        ≡ unread.old.items ++ unread_by members.now answer.now) }
{
    match answer {
        Ok(survey) => put_unread(survey.seen(), members, unread),
        Err(_refusal) => Ok(()),
    }
}

/// Surveys the members of an id. The slots of those that couldn't be read are put behind others.
fn judge<B: Bay>(
    alloc: Global,
    bay: &mut B,
    headed: &[Headed],
    id: u64,
    unread: &mut Vec<u32>,
) -> Result<Verdict, NoMemory>
    requires attached { AreAttached headed.now (B.state bay.old) }
    requires few { length headed.now ≤ 512 }
    ensures judged { IfOk result (λ verdict. GrowsBy unread.old.items unread.new.items
        (λ own. IsJudged id (members_with id headed.now) verdict own (B.state bay.old)
        (B.state bay.new))) }
    ensures attached { KeepsAttached (B.state bay.old) (B.state bay.new) }
    ensures calls { (B.state bay.new).calls ≤ (B.state bay.old).calls
        + 8 * length (members_with id headed.now) }
    ensures runs { Runs (IsSlotIn headed.now) Same (B.state bay.old) (B.state bay.new) }
{
    let members = members_of(alloc, headed, id)?;
    let answer = Survey::read(bay, id, &members);
    note_unread(&answer, &members, unread)?;
    Ok(verdict_of(answer))
}

/// The greater of two ids that are short.
fn greater_of(short: ShortId, other: Option<ShortId>) -> ShortId
    ensures { result ≡ greater_short_id short other }
{
    match other {
        Some(other) => if short.id < other.id { other } else { short },
        None => short,
    }
}

/// The choice with one id more.
fn with_verdict(choice: Choice, id: u64, verdict: Verdict) -> Choice
    ensures { result ≡ with_verdict id verdict choice }
{
    match verdict {
        Verdict::Gone => choice,
        Verdict::Whole(damage) => Choice {
            whole: Some(WholeId { id, damage }),
            are_two: choice.whole.is_some(),
            short: choice.short,
        },
        Verdict::Short { seen, need } => Choice {
            whole: choice.whole,
            are_two: choice.are_two,
            short: Some(greater_of(ShortId { id, seen, need }, choice.short)),
        },
    }
}

/// Surveys these ids, one after the other, and chooses one. The slots of members that couldn't be
/// read are put behind others.
pub fn choose<B: Bay>(
    alloc: Global,
    bay: &mut B,
    headed: &[Headed],
    ids: &[u64],
    unread: &mut Vec<u32>,
) -> Result<Choice, NoMemory>
    requires attached { AreAttached headed.now (B.state bay.old) }
    requires few { length headed.now ≤ 512 }
    ensures chosen { IfOk result (λ choice. GrowsBy unread.old.items unread.new.items
        (λ more. Chooses headed.now ids.now choice more (B.state bay.old) (B.state bay.new))) }
    ensures attached { KeepsAttached (B.state bay.old) (B.state bay.new) }
    ensures calls { (B.state bay.new).calls ≤ (B.state bay.old).calls
        + calls_to_survey headed.now ids.now }
    ensures runs { Runs (IsSlotIn headed.now) Same (B.state bay.old) (B.state bay.new) }
{
    let [first, rest @ ..] = ids else {
        return Ok(Choice {
            whole: None,
            are_two: false,
            short: None,
        });
    };
    let id = *first;
    let verdict = judge(alloc, bay, headed, id, unread)?;
    let others = choose(alloc, bay, headed, rest, unread)?;
    Ok(with_verdict(others, id, verdict))
}
