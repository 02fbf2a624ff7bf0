// What the slots of one disk say of a group.
ghost use Rattle.std.specs.Prelude.{◌≡◌, ◌++◌, IfOk};
ghost use Rattle.asm_images.specs.Members.{claims_of_group, of_group};
ghost use Rattle.asm_images.specs.Register.{greatest};
ghost use Rattle.bay.specs.Calls.{Call, cost};
ghost use Rattle.bay.specs.Image.{Same};
ghost use Rattle.status_register.specs.Places.{HasSlots};
ghost use Rattle.status_register.specs.Sayings.{IsOwnRecord, damage_in, none_or_one, shows_no_value};
ghost use Rattle.status_register.specs.Surveys.{greater_of, greatest_epoch};
ghost use Rattle.status_register.specs.Tallies.{SlotsSay};
ghost use Rattle.bay.specs.Told.{Told};

use crate::bodies::{claim_in, read_both, record_in};
use crate::gates::number_of;
use crate::places::SlotPair;
use bay::{Bay, Fault};
use status_table::{Claim, PstRecord};

/// What the slots of a disk say: the greatest epoch of the group's claims, or 0; the greatest of
/// its records; and the first block where a claim or a record must stand and doesn't.
#[derive(Drop)]
pub struct Findings {
    pub epoch: u64,
    pub status: Option<PstRecord>,
    pub damage: Option<u64>,
}

/// The epoch of the group's claim in a slot, or 0.
fn epoch_of(id: u64, said: &Option<Option<Claim>>) -> u64
    ensures { result ≡ greatest_epoch (claims_of_group id (none_or_one said.now)) }
{
    match said {
        Some(Some(claim)) => { if claim.id == id { claim.epoch } else { 0 } }
        Some(None) => 0,
        None => 0,
    }
}

/// The greatest epoch of the group's claims in both slots, or 0.
fn epoch_in_both(id: u64, first: &Option<Option<Claim>>, second: &Option<Option<Claim>>) -> u64
    ensures { result ≡ greatest_epoch (claims_of_group id
        (none_or_one first.now ++ none_or_one second.now)) }
{
    epoch_of(id, first).max(epoch_of(id, second))
}

/// The group's record in a slot.
fn record_of(id: u64, said: Option<Option<PstRecord>>) -> Option<PstRecord>
    ensures { result ≡ greatest (of_group id (none_or_one said)) }
{
    match said {
        Some(Some(status)) => { if status.id == id { Some(status) } else { None } }
        Some(None) => None,
        None => None,
    }
}

/// The greater of two records, the first where they are equal.
pub fn greater_of(status: Option<PstRecord>, other: Option<PstRecord>) -> Option<PstRecord>
    ensures { result ≡ greater_of status other }
{
    match status {
        None => other,
        Some(status) => match other {
            None => Some(status),
            Some(other) => {
                if number_of(&status) < number_of(&other) {
                    Some(other)
                } else {
                    Some(status)
                }
            }
        },
    }
}

/// The greatest of the group's records in both slots.
fn record_in_both(
    id: u64,
    first: Option<Option<PstRecord>>,
    second: Option<Option<PstRecord>>,
) -> Option<PstRecord>
    ensures { result ≡ greatest (of_group id (none_or_one first ++ none_or_one second)) }
{
    greater_of(record_of(id, first), record_of(id, second))
}

/// Whether a value must stand there and doesn't.
fn is_spoiled<T>(said: &Option<Option<T>>) -> bool
    ensures { result ≡ shows_no_value said.now }
{
    match said {
        None => false,
        Some(None) => true,
        Some(Some(_)) => false,
    }
}

/// The block of the first body of a pair that must be a value and isn't.
fn damage_in<T>(
    pair: SlotPair,
    first: &Option<Option<T>>,
    second: &Option<Option<T>>,
) -> Option<u64>
    ensures { result ≡ damage_in pair first.now second.now }
{
    if is_spoiled(first) {
        Some(pair.first_gate() + 1)
    } else if is_spoiled(second) {
        Some(pair.second_gate() + 1)
    } else {
        None
    }
}

/// Reads what the slots of a disk say of a group.
pub fn read_slots<B: Bay>(bay: &mut B, id: u64, slot: u32, sector: u32) -> Result<Findings, Fault>
    requires slots { HasSlots (B.state bay.old) slot sector }
    ensures own { IfOk result (λ found. IsOwnRecord id found.status) }
    ensures call { Call result slot Same
        (λ found s t. Told s t (SlotsSay id slot found.epoch found.status found.damage))
        (cost 8 0) (B.state bay.old) (B.state bay.new) }
{
    let claims = read_both(bay, SlotPair::Claims, slot, sector)?;
    let records = read_both(bay, SlotPair::Records, slot, sector)?;
    let first_claim = claim_in(&claims.0);
    let second_claim = claim_in(&claims.1);
    let first_record = record_in(&records.0);
    let second_record = record_in(&records.1);
    let damage = damage_in(SlotPair::Claims, &first_claim, &second_claim).or(damage_in(
        SlotPair::Records,
        &first_record,
        &second_record,
    ));
    Ok(Findings {
        epoch: epoch_in_both(id, &first_claim, &second_claim),
        status: record_in_both(id, first_record, second_record),
        damage,
    })
}
