//! Statements on disks.

ghost use Rattle.group_engine.specs.Mounts.{Takes};

use crate::answers::{Answer, answer_of, refused};
use crate::steps::Statement;
use asm_base::DiskSet;
use bay::Bay;
use disk_modes::{drop_disks, expire, offline_disks, resize_disks, set_rebalance, undrop_disks};
use group_engine::Mounted;
use refusal_lines::Refusal;
use std::alloc::Global;

/// Which disk expires, or why none can be asked.
fn expiry(expired: Result<Option<u8>, Refusal>) -> Answer {
    match expired {
        Ok(disk) => Answer::Expires(disk),
        Err(refusal) => refused(refusal),
    }
}

/// Does a statement.
#[tactic(auto, using(crate::proofs::Taking::kept_takes))]
pub fn state<B: Bay>(m: &mut Mounted, alloc: Global, bay: &mut B, statement: Statement) -> Answer
    requires takes { Takes m.old (B.state bay.old) }
    ensures takes { Takes m.new (B.state bay.new) }
{
    match statement {
        Statement::Offline(set, repair) => {
            let disks = DiskSet::from_bits(set);
            answer_of(offline_disks(m, alloc, bay, disks, repair, 5))
        }
        Statement::Drop(disks, power) => answer_of(drop_disks(m, alloc, bay, disks, power)),
        Statement::Undrop => answer_of(undrop_disks(m, alloc, bay)),
        Statement::Resize(set, size, power) => {
            let disks = DiskSet::from_bits(set);
            answer_of(resize_disks(m, alloc, bay, disks, size, power))
        }
        Statement::Rebalance(power) => answer_of(set_rebalance(m, alloc, bay, power)),
        Statement::Expire(now) => expiry(expire(m, alloc, bay, now)),
    }
}
