// A claim or a record is put on one disk, and on the members one after another.
ghost use Rattle.std.specs.Prelude.{◌<◌, ◌≤◌, ◌+◌, ◌*◌, length};
ghost use Rattle.bay.specs.State.{IsSlot};
ghost use Rattle.bay.specs.Calls.{Call, Calls, ChangesEachImage, cost};
ghost use Rattle.status_register.specs.Places.{HasSlots};
ghost use Rattle.status_register.specs.Rows.{HaveOwnSlots, PutsOnAll, TakesMember};
ghost use Rattle.status_register.specs.Slots.{MayFill, Fills, MayPutNext, PutsNext, next_gate};
ghost use Rattle.status_register.specs.Tallies.{HaveSlots};

use crate::Member;
use crate::gates::next_gate;
use crate::members::MemberList;
use crate::places::{SlotPair, place_at};
use bay::{Bay, Fault};
use body_slot::put;
use status_table::Block;

/// Puts a body into the slot behind a gate.
fn fill_slot<B: Bay>(
    bay: &mut B,
    slot: u32,
    gate: u64,
    sector: u32,
    body: &Block,
) -> Result<(), Fault>
    requires slots { HasSlots (B.state bay.old) slot sector }
    requires gate { gate ≤ 8 }
    ensures { Call result slot (MayFill gate slot body.now.bytes) (ChangesEachImage (Fills gate slot body.now.bytes))
        (cost 8 (2 * sector + 4096)) (B.state bay.old) (B.state bay.new) }
{
    put(bay, slot, place_at(gate, sector), &body.bytes[..])
}

/// Puts a body into the slot of a pair that doesn't hold.
fn put_next<B: Bay>(
    bay: &mut B,
    pair: SlotPair,
    id: u64,
    slot: u32,
    sector: u32,
    body: &Block,
) -> Result<(), Fault>
    requires slots { HasSlots (B.state bay.old) slot sector }
    ensures { Call result slot (MayPutNext (next_gate pair id) slot body.now.bytes)
        (ChangesEachImage (PutsNext (next_gate pair id) slot body.now.bytes))
        (cost 13 (2 * sector + 4096)) (B.state bay.old) (B.state bay.new) }
{
    let gate = next_gate(bay, pair, id, slot, sector)?;
    fill_slot(bay, slot, gate, sector, body)
}

/// Puts a body on one member more. `took` are those that took it.
fn put_on<B: Bay>(
    bay: &mut B,
    pair: SlotPair,
    id: u64,
    member: Member,
    body: &Block,
    took: MemberList,
) -> MemberList
    requires slots { HasSlots (B.state bay.old) member.slot member.sector }
    requires room { length took < 512 }
    ensures takes { TakesMember (next_gate pair id) member body.now.bytes took result
        (B.state bay.old) (B.state bay.new) }
    ensures calls { Calls (IsSlot member.slot) (MayPutNext (next_gate pair id) member.slot body.now.bytes)
        (cost 13 (2 * member.sector + 4096)) (B.state bay.old) (B.state bay.new) }
{
    match put_next(bay, pair, id, member.slot, member.sector, body) {
        Ok(()) => took.with(member),
        Err(Fault) => took,
    }
}

/// Puts a body on the members in their order, past faults, and gives those that took it.
pub fn put_on_all<B: Bay>(
    bay: &mut B,
    pair: SlotPair,
    id: u64,
    members: &[Member],
    body: &Block,
) -> MemberList
    requires slots { HaveSlots (B.state bay.old) members.now }
    requires few { length members.now ≤ 512 }
    requires apart { HaveOwnSlots members.now }
    ensures { PutsOnAll pair id members.now body.now.bytes result (B.state bay.old)
        (B.state bay.new) }
{
    let mut took = MemberList::empty();
    for member in members {
        took = put_on(bay, pair, id, *member, body, took);
    }
    took
}
