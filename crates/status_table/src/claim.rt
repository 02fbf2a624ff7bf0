//! The claim of an epoch, which a mount stores on the holders of status records.

ghost use Rattle.std.specs.Prelude.{◌≡◌, ◌≤◌, length};
ghost use Rattle.asm_formats.specs.Claim.{claim_spelling, decoded_claim};
ghost use Rattle.asm_base.specs.Readings.{whole_reading};
ghost use Rattle.asm_base.specs.Cursors.{Reads};
ghost use Rattle.status_table.specs.Readings.{claim_reading};

use asm_base::{
    Block, Reader, Writer, finish, has_only_zeros, put_bytes, put_u64, take_fixed, take_u64,
};
use std::marker::Model;

/// The claim of an epoch of a group.
#[derive(Clone, Copy, Debug, PartialEq, Eq)]
pub struct Claim {
    /// The group's id.
    pub id: u64,
    pub epoch: u64,
}

impl Model for Claim {
    ghost use Rattle.asm_formats.specs.Claim.{Claim as FormatClaim};

    ghost Value = { FormatClaim };

    ghost view = { λ c. record { id = c.id; epoch = c.epoch } };

    ghost inverse = { λ c. record { id = c.id; epoch = c.epoch } };
}

/// Fills the block with the claim.
#[tactic(auto, unfolding(asm_formats::specs::Claim::claim_spelling))]
pub fn encode_claim(claim: &Claim, block: &mut Block)
    ensures { block.new.bytes ≡ claim_spelling claim.now }
{
    let claim = *claim;
    let mut to = Writer { block, at: 0 };
    put_bytes(&mut to, b"ASMC");
    put_u64(&mut to, claim.id);
    put_u64(&mut to, claim.epoch);
    finish(&mut to);
}

/// The claim of which the block is the spelling, or None where it isn't that of any.
pub fn decode_claim(block: &Block) -> Option<Claim>
    ensures { result ≡ decoded_claim block.now.bytes }
{
    decode_bytes(&block.bytes)
}

#[tactic(auto, using(crate::proofs::ClaimLaws::claim_is_read))]
fn decode_bytes(bytes: &[u8]) -> Option<Claim>
    requires { length bytes.now ≡ 4096 }
    ensures { result ≡ decoded_claim bytes.now }
{
    read_bytes(bytes)
}

fn read_bytes(bytes: &[u8]) -> Option<Claim>
    requires { length bytes.now ≤ 4096 }
    ensures { result ≡ whole_reading claim_reading bytes.now }
{
    let mut from = Reader { bytes, at: 0 };
    let claim = take_claim(&mut from)?;
    if has_only_zeros(&from) {
        Some(claim)
    } else {
        None
    }
}

#[tactic(auto, unfolding(crate::specs::Readings::claim_reading))]
fn take_claim(from: &mut Reader) -> Option<Claim>
    ensures { Reads from.new result (claim_reading from.old) }
{
    take_fixed(from, b"ASMC")?;
    Some(Claim {
        id: take_u64(from)?,
        epoch: take_u64(from)?,
    })
}
