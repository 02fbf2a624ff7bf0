// Which slot of a disk the next claim or record is put into: the one that doesn't hold.
ghost use Rattle.std.specs.Prelude.{◌≡◌, ◌⊎◌, ◌≤◌, IfOk};
ghost use Rattle.std.specs.Option.{option_map};
ghost use Rattle.asm_formats.specs.Following.{rank};
ghost use Rattle.bay.specs.Calls.{Call, cost};
ghost use Rattle.bay.specs.Image.{Same};
ghost use Rattle.bay.specs.Moments.{Ends};
ghost use Rattle.status_register.specs.Places.{HasSlots};
ghost use Rattle.status_register.specs.Slots.{FoundNextGate, claim_number, next_gate, number_in, other_gate, record_number};

use crate::bodies::{claim_in, read_both, record_in};
use crate::places::SlotPair;
use bay::{Bay, Fault};
use status_table::{Block, Claim, PstRecord};

/// The number of a record, by which records are ordered: by epoch, and then by turn.
pub fn number_of(status: &PstRecord) -> u128
    ensures { result ≡ rank status.now }
{
    status.epoch as u128 * 0x1_0000_0000_0000_0000 + status.turn as u128
}

/// The epoch of the group's claim in a slot.
fn claim_number(id: u64, said: &Option<Option<Claim>>) -> Option<u128>
    ensures { result ≡ claim_number id said.now }
{
    match said {
        Some(Some(claim)) => {
            if claim.id == id {
                Some(claim.epoch as u128)
            } else {
                None
            }
        }
        Some(None) => None,
        None => None,
    }
}

/// The number of the group's record in a slot.
fn record_number(id: u64, said: &Option<Option<PstRecord>>) -> Option<u128>
    ensures { result ≡ record_number id said.now }
{
    match said {
        Some(Some(status)) => {
            if status.id == id {
                Some(number_of(status))
            } else {
                None
            }
        }
        Some(None) => None,
        None => None,
    }
}

/// The slot beside the one that holds, by the numbers in both: the first where neither has one.
/// Where both have one number the first holds.
fn other_gate(first: u64, second: u64, number: Option<u128>, other: Option<u128>) -> u64
    ensures gate { result ≡ other_gate first second number other }
    ensures one { (result ≡ first) ⊎ (result ≡ second) }
{
    match number {
        None => first,
        Some(number) => match other {
            None => second,
            Some(other) => { if other <= number { second } else { first } }
        },
    }
}

/// The number of the group's claim, or record, in a body of a pair.
fn number_in(pair: SlotPair, id: u64, body: &Option<Block>) -> Option<u128>
    ensures { result ≡ number_in pair id (option_map (λ b. b.bytes) body.now) }
{
    match pair {
        SlotPair::Claims => claim_number(id, &claim_in(body)),
        SlotPair::Records => record_number(id, &record_in(body)),
    }
}

/// The gate of the slot of a pair that the next body is put into, in each image that a stop may
/// leave.
pub fn next_gate<B: Bay>(
    bay: &mut B,
    pair: SlotPair,
    id: u64,
    slot: u32,
    sector: u32,
) -> Result<u64, Fault>
    requires slots { HasSlots (B.state bay.old) slot sector }
    ensures small { IfOk result (λ gate. gate ≤ 8) }
    ensures call { Call result slot Same (λ gate. Ends (FoundNextGate (next_gate pair id slot) gate))
        (cost 5 0) (B.state bay.old) (B.state bay.new) }
{
    bay.sync(slot)?;
    let (first, second) = read_both(bay, pair, slot, sector)?;
    Ok(other_gate(
        pair.first_gate(),
        pair.second_gate(),
        number_in(pair, id, &first),
        number_in(pair, id, &second),
    ))
}
