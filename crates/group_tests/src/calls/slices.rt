//! Slices of a resync and of a rebalance.

ghost use Rattle.group_engine.specs.Mounts.{Takes};

use crate::answers::{Answer, refused};
use bay::Bay;
use group_engine::Mounted;
use refusal_lines::Refusal;
use relocation::{Resynced, Slice, run_to_end, slice, sync_slice};
use std::alloc::Global;

fn synced(ended: Result<Resynced, Refusal>) -> Answer {
    match ended {
        Ok(end) => Answer::Synced(end),
        Err(refusal) => refused(refusal),
    }
}

fn ended(ended: Result<Slice, Refusal>) -> Answer {
    match ended {
        Ok(end) => Answer::Ends(end),
        Err(refusal) => refused(refusal),
    }
}

/// Does a slice of a disk's resync. How it ends, and in how many steps.
#[tactic(auto, using(crate::proofs::Taking::kept_takes))]
pub fn sync<B: Bay>(m: &mut Mounted, alloc: Global, bay: &mut B, disk: u8) -> (Answer, u64)
    requires takes { Takes m.old (B.state bay.old) }
    ensures takes { Takes m.new (B.state bay.new) }
{
    let (answer, steps) = sync_slice(m, alloc, bay, disk);
    (synced(answer), steps)
}

/// Does a slice of the rebalance.
#[tactic(auto, using(crate::proofs::Taking::let_takes))]
pub fn slice_of<B: Bay>(m: &mut Mounted, alloc: Global, bay: &mut B, power: u16) -> (Answer, u64)
    requires takes { Takes m.old (B.state bay.old) }
    ensures takes { Takes m.new (B.state bay.new) }
{
    let (answer, steps) = slice(m, alloc, bay, power);
    (ended(answer), steps)
}

/// Does slices of the rebalance to its end.
#[tactic(auto, using(crate::proofs::Taking::let_takes))]
pub fn end<B: Bay>(m: &mut Mounted, alloc: Global, bay: &mut B, power: u16) -> (Answer, u64)
    requires takes { Takes m.old (B.state bay.old) }
    ensures takes { Takes m.new (B.state bay.new) }
{
    let (answer, steps) = run_to_end(m, alloc, bay, power);
    (ended(answer), steps)
}
