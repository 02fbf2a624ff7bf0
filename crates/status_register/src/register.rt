//! The record of a group whose epoch was claimed.

ghost use Rattle.std.specs.Prelude.{◌≡◌, ◌<◌, ◌↔◌, [], None, true, get_or, length, replicate, IsTrue};
ghost use Rattle.asm_formats.specs.Among.{IsAmong};
ghost use Rattle.asm_formats.specs.Following.{Follows, Holder, disks_of, sets};
ghost use Rattle.asm_formats.specs.Status.{is_status};
ghost use Rattle.status_register.specs.Elsewhere.{with_attached, without_attached};
ghost use Rattle.status_register.specs.Holders.{HoldSlots, SlotsDiffer};
ghost use Rattle.status_register.specs.Reaching.{Reaches};
ghost use Rattle.status_register.specs.RegisterCalls.{ClaimsEpoch, HasWritten, IsStandingRegister, WritesFirst};
ghost use Rattle.status_register.specs.Registered.{AreNumbered, all_placed};
ghost use Rattle.status_register.specs.Rows.{HaveOwnSlots};
ghost use Rattle.status_register.specs.Surveys.{is_holder_there};
ghost use Rattle.status_register.specs.Tallies.{HaveSlots};

use crate::holders::{attached_to, is_of_entry};
use crate::majorities::missing;
use crate::members::MemberList;
use crate::places::SlotPair;
use crate::storing::put_on_all;
use crate::writing::{renumbered, write_first, write_record};
use crate::{Dead, Member, SurveyError};
use bay::Bay;
use status_table::{Block, Claim, DiskSet, PstEntry, PstRecord, encode_claim};
use std::marker::Model;

/// The record of a group, and the members that it is written to, by the numbers of their disks.
/// Contracts see what it keeps.
#[derive(Drop)]
pub struct Register {
    id: u64,
    members: [Option<Member>; 64],
    value: PstRecord,
    epoch: u64,
    turn: u64,
    is_fresh: bool,
}

impl Model for Register {
    ghost use Rattle.std.specs.Prelude.{◌≡◌, length};
    ghost use Rattle.status_register.specs.Registered.{Registered};

    ghost Value = { Registered };

    ghost view = { λ r. record { id = r.id; members = r.members; value = r.value; epoch = r.epoch; turn = r.turn; is_fresh = r.is_fresh } };

    ghost invariant = { λ r. length r.members ≡ 64 };
}

impl Register {
    /// The register of a record that stands on members, as a creation has put it there: nothing is
    /// written. Of the members those that are disks of the record's entries are attached.
    pub fn standing<B: Bay>(bay: &B, value: &PstRecord, members: &[Member]) -> Register
        requires status { IsTrue (is_status value.now) }
        requires slots { HaveSlots (B.state bay.now) members.now }
        requires apart { HaveOwnSlots members.now }
        requires numbers { AreNumbered members.now }
        ensures { IsStandingRegister value.now members.now result (B.state bay.now) }
    {
        let _bay = bay;
        Register {
            id: value.id,
            members: by_number(members, value.entries()),
            value: value.copy(),
            epoch: value.epoch,
            turn: value.turn,
            is_fresh: false,
        }
    }

    /// The record that holds.
    pub fn value(&self) -> &PstRecord
        ensures { result.now ≡ self.now.value }
    {
        &self.value
    }

    /// A member takes the place of the one of its number.
    pub fn attach(&mut self, member: Member)
        requires { member.number < 64 }
        ensures { self.new ≡ with_attached self.old member }
    {
        self.members[member.number as usize] = Some(member);
    }

    /// The member of a number is attached no more.
    pub fn detach(&mut self, number: u8)
        requires { number < 64 }
        ensures { self.new ≡ without_attached self.old number }
    {
        self.members[number as usize] = None;
    }

    /// The attached member of a number. There is none of a number from 64 on.
    pub fn member(&self, number: u8) -> Option<Member>
        requires { number < 64 }
        ensures member { result ≡ get_or self.now.members number None }
        ensures all { length self.now.members ≡ 64 }
    {
        self.members[number as usize]
    }

    /// Whether a majority of each set of a record is attached.
    pub fn reaches(&self, status: &PstRecord) -> bool
        ensures { IsTrue result ↔ Reaches self.now.members status.now }
    {
        let holders = attached_to(&self.members, status);
        match missing(holders.members(), status) {
            None => true,
            Some(_) => false,
        }
    }

    /// Writes the first record of a group on the disks of its sets among the members, whose slots
    /// are closed, from the greatest disk number down and past faults: each of them must take it.
    /// `Dead` has the slot of one that failed. At each moment a disk has something of the record
    /// only where each one of a greater number shows it or failed in this call, and the disks fit
    /// the history in which the record is begun. In the end it is completed.
    pub fn first<B: Bay>(
        bay: &mut B,
        value: &PstRecord,
        members: &[Member],
    ) -> Result<Register, Dead>
        requires status { IsTrue (is_status value.now) }
        requires slots { HaveSlots (B.state bay.old) members.now }
        requires apart { HaveOwnSlots members.now }
        requires numbers { AreNumbered members.now }
        requires holders { (h : Holder) → IsAmong (disks_of value.now.entries value.now.holders) h
            → IsTrue (is_holder_there members.now h) }
        ensures { WritesFirst value.now members.now result (B.state bay.old) (B.state bay.new) }
    {
        let places = by_number(members, value.entries());
        match write_first(bay, &places, value) {
            Err(dead) => Err(dead),
            Ok(()) => Ok(Register {
                id: value.id,
                members: places,
                value: value.copy(),
                epoch: value.epoch,
                turn: value.turn,
                is_fresh: false,
            }),
        }
    }

    /// Writes the record under the next number, on all attached disks of its sets, in any mode,
    /// from the greatest disk number down and past faults. Gives the set of those that failed.
    /// `Dead` comes where fewer than a majority of a set took the record, with the slot of a disk
    /// of this set that failed; then the number is used up, and the record that holds is the one
    /// before. At each moment a disk has something of the record only where each one of a greater
    /// number shows it or failed in this call, and the disks fit the history in which the record is
    /// begun. Once a set is given it is completed.
    pub fn write<B: Bay>(&mut self, bay: &mut B, next: &PstRecord) -> Result<DiskSet, Dead>
        requires status { IsTrue (is_status next.now) }
        requires group { next.now.id ≡ self.old.value.id }
        requires follows { Follows self.old.value next.now }
        requires fresh { self.old.is_fresh ≡ true → sets next.now ≡ sets self.old.value }
        requires slots { HoldSlots (B.state bay.old) self.old.members }
        requires apart { SlotsDiffer self.old.members }
        requires majority { Reaches self.old.members next.now }
        ensures { HasWritten self.old next.now result self.new (B.state bay.old) (B.state bay.new) }
    {
        let turn = self.turn.saturating_add(1);
        self.turn = turn;
        let status = renumbered(next, self.epoch, turn);
        match write_record(bay, self.id, &self.members, &status) {
            Err(dead) => Err(dead),
            Ok(failed) => {
                self.value = status;
                self.is_fresh = false;
                Ok(failed)
            }
        }
    }
}

/// The members that are disks of the entries, by their numbers.
fn by_number(members: &[Member], entries: &[PstEntry]) -> [Option<Member>; 64]
    requires { AreNumbered members.now }
    ensures places { result ≡ all_placed entries.now (replicate 64 None) members.now }
    ensures all { length result ≡ 64 }
{
    let mut places = [None; 64];
    for member in members {
        if is_of_entry(entries, *member) {
            places[member.number as usize] = Some(*member);
        }
    }
    places
}

/// Claims the epoch after the greatest one that was read.
pub fn claim_epoch<B: Bay>(
    bay: &mut B,
    id: u64,
    members: MemberList,
    value: PstRecord,
    epoch: u64,
) -> Result<Register, SurveyError>
    requires slots { HaveSlots (B.state bay.old) members }
    requires apart { HaveOwnSlots members }
    requires numbers { AreNumbered members }
    ensures { ClaimsEpoch (record { id = id; members = members; read = []; value = value; epoch = epoch })
        result (B.state bay.old) (B.state bay.new) }
{
    let claim = Claim {
        id,
        epoch: epoch.saturating_add(1),
    };
    let mut body = Block::zeros();
    encode_claim(&claim, &mut body);
    let took = put_on_all(bay, SlotPair::Claims, id, members.members(), &body);
    match missing(took.members(), &value) {
        Some((seen, need)) => Err(SurveyError::NoMajority { seen, need }),
        None => Ok(Register {
            id,
            members: by_number(members.members(), value.entries()),
            value,
            epoch: claim.epoch,
            turn: 0,
            is_fresh: true,
        }),
    }
}
