// The claim of a group's first epoch is put on its members.
ghost use Rattle.std.specs.Prelude.{◌≤◌, length};
ghost use Rattle.status_register.specs.RegisterCalls.{ClaimsFirst};
ghost use Rattle.status_register.specs.Rows.{HaveOwnSlots};
ghost use Rattle.status_register.specs.Tallies.{HaveSlots};

use crate::losses::first_failed;
use crate::places::SlotPair;
use crate::storing::put_on_all;
use crate::{Dead, Member};
use bay::Bay;
use status_table::{Block, Claim, encode_claim};

/// Claims the epoch of a group's first record on its members, whose slots are closed, past faults:
/// each of them must take the claim. `Dead` has the slot of one that failed. At each moment the
/// disks have no record of the group, as before. Once all took the claim, `Register::first` may
/// write a record of this epoch for which the members are enough.
pub fn claim_first<B: Bay>(bay: &mut B, id: u64, epoch: u64, members: &[Member]) -> Result<(), Dead>
    requires slots { HaveSlots (B.state bay.old) members.now }
    requires few { length members.now ≤ 512 }
    requires apart { HaveOwnSlots members.now }
    ensures { ClaimsFirst id epoch members.now result (B.state bay.old) (B.state bay.new) }
{
    let mut body = Block::zeros();
    encode_claim(&Claim { id, epoch }, &mut body);
    let took = put_on_all(bay, SlotPair::Claims, id, members, &body);
    match first_failed(members, took.members()) {
        Some(member) => Err(Dead { slot: member.slot }),
        None => Ok(()),
    }
}
