// The members are read one after another.
ghost use Rattle.std.specs.Prelude.{◌≡◌, ◌<◌, ◌≤◌, length};
ghost use Rattle.std.specs.Option.{option_map, option_or};
ghost use Rattle.bay.specs.Image.{Same};
ghost use Rattle.bay.specs.State.{IsSlot};
ghost use Rattle.bay.specs.Calls.{Calls, cost};
ghost use Rattle.status_register.specs.Places.{HasSlots};
ghost use Rattle.status_register.specs.Sayings.{IsOwnRecord};
ghost use Rattle.status_register.specs.Tallies.{TalliesMember, HaveSlots, ReadsMembers};

use crate::Member;
use crate::members::MemberList;
use crate::reading::{greater_of, read_slots};
use bay::{Bay, Fault};
use status_table::PstRecord;

/// What the members that were read say: who was read, the greatest epoch of a claim, or 0, the
/// greatest record, and the slot and the block where the first claim or record must stand and
/// doesn't.
#[derive(Drop)]
pub struct Tally {
    pub read: MemberList,
    pub epoch: u64,
    pub status: Option<PstRecord>,
    pub damage: Option<(u32, u64)>,
}

/// The damage that was found first.
fn first_of(damage: Option<(u32, u64)>, slot: u32, block: Option<u64>) -> Option<(u32, u64)>
    ensures { result ≡ option_or damage (option_map (λ b. (slot, b)) block) }
{
    match damage {
        Some(damage) => Some(damage),
        None => match block {
            Some(block) => Some((slot, block)),
            None => None,
        },
    }
}

/// Reads one member more. One that fails changes nothing.
fn read_one<B: Bay>(bay: &mut B, id: u64, member: Member, tally: Tally) -> Tally
    requires slots { HasSlots (B.state bay.old) member.slot member.sector }
    requires room { length tally.read < 512 }
    ensures own { IsOwnRecord id tally.status → IsOwnRecord id result.status }
    ensures adds { TalliesMember id member (B.state bay.old) (B.state bay.new) tally result }
    ensures calls { Calls (IsSlot member.slot) Same (cost 8 0) (B.state bay.old) (B.state bay.new) }
{
    match read_slots(bay, id, member.slot, member.sector) {
        Ok(found) => Tally {
            read: tally.read.with(member),
            epoch: tally.epoch.max(found.epoch),
            status: greater_of(tally.status, found.status),
            damage: first_of(tally.damage, member.slot, found.damage),
        },
        Err(Fault) => tally,
    }
}

/// Reads what the slots of the members say of a group.
pub fn read_all<B: Bay>(bay: &mut B, id: u64, members: &[Member]) -> Tally
    requires slots { HaveSlots (B.state bay.old) members.now }
    requires few { length members.now ≤ 512 }
    ensures { ReadsMembers id members.now result (B.state bay.old) (B.state bay.new) }
{
    let mut tally = Tally {
        read: MemberList::empty(),
        epoch: 0,
        status: None,
        damage: None,
    };
    for member in members {
        tally = read_one(bay, id, *member, tally);
    }
    tally
}
