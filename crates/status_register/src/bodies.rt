// What stands behind the gates of the claim and status slots of a disk.
ghost use Rattle.std.specs.Prelude.{◌≡◌, ◌≤◌};
ghost use Rattle.std.specs.Option.{option_map};
ghost use Rattle.asm_formats.specs.Claim.{decoded_claim};
ghost use Rattle.asm_formats.specs.Status.{decoded_status};
ghost use Rattle.asm_images.specs.Bridge.{shown_block};
ghost use Rattle.bay.specs.Image.{Same};
ghost use Rattle.bay.specs.Calls.{Call, cost};
ghost use Rattle.status_register.specs.Places.{HasSlots};
ghost use Rattle.status_register.specs.Sayings.{ShowsAllowed};
ghost use Rattle.status_register.specs.Slots.{ShowBoth};
ghost use Rattle.bay.specs.Told.{Told};

use crate::places::{SlotPair, place_at};
use bay::{Bay, Fault};
use body_slot::is_open;
use status_table::{BLOCK, Block, Claim, PstRecord, decode, decode_claim};

/// The block behind the gate in a block, or None where the gate is shut.
fn read_body<B: Bay>(bay: &mut B, slot: u32, gate: u64, sector: u32) -> Result<Option<Block>, Fault>
    requires slots { HasSlots (B.state bay.old) slot sector }
    requires gate { gate ≤ 8 }
    ensures { Call result slot Same
        (λ body s t. Told s t (λ image. option_map (λ b. b.bytes) body ≡ shown_block image slot gate))
        (cost 2 0) (B.state bay.old) (B.state bay.new) }
{
    if !is_open(bay, slot, place_at(gate, sector))? {
        return Ok(None);
    }
    let mut block = Block::zeros();
    bay.read(slot, (gate + 1) * BLOCK, &mut block.bytes[..])?;
    Ok(Some(block))
}

/// The blocks behind both gates of a pair.
pub fn read_both<B: Bay>(
    bay: &mut B,
    pair: SlotPair,
    slot: u32,
    sector: u32,
) -> Result<(Option<Block>, Option<Block>), Fault>
    requires slots { HasSlots (B.state bay.old) slot sector }
    ensures { Call result slot Same
        (λ both s t. Told s t (ShowBoth pair slot (option_map (λ b. b.bytes) both.0) (option_map (λ b. b.bytes) both.1)))
        (cost 4 0) (B.state bay.old) (B.state bay.new) }
{
    let first = read_body(bay, slot, pair.first_gate(), sector)?;
    let second = read_body(bay, slot, pair.second_gate(), sector)?;
    Ok((first, second))
}

/// What a body of a claim slot says: None where the gate is shut, and no claim where it isn't the
/// spelling of one.
pub fn claim_in(body: &Option<Block>) -> Option<Option<Claim>>
    ensures { result ≡ option_map decoded_claim (option_map (λ b. b.bytes) body.now) }
{
    match body {
        Some(block) => Some(decode_claim(block)),
        None => None,
    }
}

/// What a body of a status slot says: None where the gate is shut, and no record where it isn't a
/// spelling of one.
pub fn record_in(body: &Option<Block>) -> Option<Option<PstRecord>>
    ensures said { result ≡ option_map decoded_status (option_map (λ b. b.bytes) body.now) }
    ensures allowed { ShowsAllowed result }
{
    match body {
        Some(block) => Some(decode(block)),
        None => None,
    }
}
