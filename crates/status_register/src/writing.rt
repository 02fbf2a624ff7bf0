// A record is written on the attached disks of its sets, and judged by those that took it.
ghost use Rattle.std.specs.Prelude.{◌≡◌, ◌≤◌, length, IsTrue, None, Some};
ghost use Rattle.asm_formats.specs.Status.{is_status, status_spelling};
ghost use Rattle.status_register.specs.Holders.{AreHolders, HoldSlots, SlotsDiffer, attached_to};
ghost use Rattle.status_register.specs.Rows.{HaveOwnSlots, CallsInOrder};
ghost use Rattle.status_register.specs.Slots.{status_gate};
ghost use Rattle.status_register.specs.Surveys.{missing};
ghost use Rattle.status_register.specs.Tallies.{HaveSlots};
ghost use Rattle.status_register.specs.Writes.{IsWriteAnswer, WritesOnAll};

use crate::holders::attached_to;
use crate::losses::{failed_set, first_failed, lost_disk};
use crate::places::SlotPair;
use crate::storing::put_on_all;
use crate::{Dead, Member};
use bay::Bay;
use status_table::{Block, DiskSet, PstRecord, encode};

/// The record under another number.
#[tactic(auto, unfolding(asm_formats::specs::Status::is_status))]
pub fn renumbered(status: &PstRecord, epoch: u64, turn: u64) -> PstRecord
    ensures value { result ≡ record status.now { epoch = epoch; turn = turn } }
    // A record of the format stays one.
    ensures kept { IsTrue (is_status status.now) → IsTrue (is_status result) }
{
    let mut status = status.copy();
    status.epoch = epoch;
    status.turn = turn;
    status
}

/// The body of a record.
fn body_of(status: &PstRecord) -> Block
    requires { IsTrue (is_status status.now) }
    ensures { result.bytes ≡ status_spelling status.now }
{
    let mut body = Block::zeros();
    encode(status, &mut body);
    body
}

/// Writes a record on the disks in their order, past faults. A majority of each of its sets must
/// take it; gives the set of those that failed.
pub fn write_on_majorities<B: Bay>(
    bay: &mut B,
    id: u64,
    holders: &[Member],
    status: &PstRecord,
) -> Result<DiskSet, Dead>
    requires status { IsTrue (is_status status.now) }
    requires slots { HaveSlots (B.state bay.old) holders.now }
    requires few { length holders.now ≤ 512 }
    requires apart { HaveOwnSlots holders.now }
    requires holders { AreHolders status.now.entries holders.now }
    requires majority { missing holders.now (Some status.now) ≡ None }
    ensures answer { IsWriteAnswer holders.now status.now result (B.state bay.old)
        (B.state bay.new) }
    ensures calls { CallsInOrder (status_gate id) holders.now (status_spelling status.now)
        (B.state bay.old) (B.state bay.new) }
{
    let body = body_of(status);
    let took = put_on_all(bay, SlotPair::Records, id, holders, &body);
    match lost_disk(holders, took.members(), status) {
        Some(member) => Err(Dead { slot: member.slot }),
        None => Ok(failed_set(holders, took.members())),
    }
}

/// Writes a record on the disks in their order. Each of them must take it.
pub fn write_on_all<B: Bay>(
    bay: &mut B,
    id: u64,
    holders: &[Member],
    status: &PstRecord,
) -> Result<(), Dead>
    requires status { IsTrue (is_status status.now) }
    requires slots { HaveSlots (B.state bay.old) holders.now }
    requires few { length holders.now ≤ 512 }
    requires apart { HaveOwnSlots holders.now }
    ensures { WritesOnAll id holders.now status.now result (B.state bay.old) (B.state bay.new) }
{
    let body = body_of(status);
    let took = put_on_all(bay, SlotPair::Records, id, holders, &body);
    match first_failed(holders, took.members()) {
        Some(member) => Err(Dead { slot: member.slot }),
        None => Ok(()),
    }
}

/// Writes a record on those of the members in their numbers' places that are disks of its sets,
/// past faults.
pub fn write_record<B: Bay>(
    bay: &mut B,
    id: u64,
    places: &[Option<Member>],
    status: &PstRecord,
) -> Result<DiskSet, Dead>
    requires status { IsTrue (is_status status.now) }
    requires places { length places.now ≡ 64 }
    requires slots { HoldSlots (B.state bay.old) places.now }
    requires apart { SlotsDiffer places.now }
    requires majority { missing (attached_to places.now status.now) (Some status.now) ≡ None }
    ensures answer { IsWriteAnswer (attached_to places.now status.now) status.now result
        (B.state bay.old) (B.state bay.new) }
    ensures calls { CallsInOrder (status_gate id) (attached_to places.now status.now)
        (status_spelling status.now) (B.state bay.old) (B.state bay.new) }
{
    let holders = attached_to(places, status);
    write_on_majorities(bay, id, holders.members(), status)
}

/// Writes a record on those of the members in their numbers' places that are disks of its sets.
/// Each of them must take it.
pub fn write_first<B: Bay>(
    bay: &mut B,
    places: &[Option<Member>],
    status: &PstRecord,
) -> Result<(), Dead>
    requires status { IsTrue (is_status status.now) }
    requires places { length places.now ≡ 64 }
    requires slots { HoldSlots (B.state bay.old) places.now }
    requires apart { SlotsDiffer places.now }
    ensures { WritesOnAll status.now.id (attached_to places.now status.now) status.now result
        (B.state bay.old) (B.state bay.new) }
{
    let holders = attached_to(places, status);
    write_on_all(bay, status.id, holders.members(), status)
}
