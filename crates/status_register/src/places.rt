// The claim and status slots of a disk.
ghost use Rattle.std.specs.Prelude.{◌≡◌, ◌≤◌};
ghost use Rattle.status_register.specs.Places.{gated_block_at};
ghost use Rattle.status_register.specs.Slots.{first_gate, second_gate};

use body_slot::Place;
use status_table::{BLOCK, FIRST_CLAIM, FIRST_STATUS, SECOND_CLAIM, SECOND_STATUS};

/// The pairs of slots of a disk.
#[derive(Clone, Copy, Debug, PartialEq, Eq)]
pub enum SlotPair {
    Claims,
    Records,
}

impl SlotPair {
    /// The gate of the first slot, in blocks.
    pub fn first_gate(self) -> u64
        ensures gate { result ≡ first_gate self }
        ensures small { result ≤ 8 }
    {
        match self {
            SlotPair::Claims => FIRST_CLAIM as u64,
            SlotPair::Records => FIRST_STATUS as u64,
        }
    }

    /// The gate of the second slot, in blocks.
    pub fn second_gate(self) -> u64
        ensures gate { result ≡ second_gate self }
        ensures small { result ≤ 8 }
    {
        match self {
            SlotPair::Claims => SECOND_CLAIM as u64,
            SlotPair::Records => SECOND_STATUS as u64,
        }
    }
}

/// The slot whose gate is in a block, with its body in the block behind it.
pub fn place_at(gate: u64, sector: u32) -> Place
    requires { gate ≤ 8 }
    ensures { result ≡ gated_block_at gate sector }
{
    Place {
        gate: gate * BLOCK,
        body: (gate + 1) * BLOCK,
        len: BLOCK,
        sector,
    }
}
