//! Status records that may come next.

ghost use Rattle.group_engine.specs.Mounts.{Takes};

use crate::answers::{Answer, answer_of};
use crate::steps::Next;
use asm_base::DiskSet;
use bay::Bay;
use group_engine::Mounted;
use status_table::{
    PstRecord, with_dirs, with_gone, with_holders, with_mode, with_next_holders, with_units,
    without_entry,
};
use std::alloc::Global;

/// The record of another id.
fn of_another(value: &PstRecord) -> PstRecord {
    let mut other = value.copy();
    other.id = value.id ^ 1;
    other
}

/// The record changed.
fn next_of(value: &PstRecord, next: Next) -> PstRecord {
    match next {
        Next::Mode(disk, mode) => with_mode(value, disk, mode, 5),
        Next::Units(disk, units) => with_units(value, disk, units),
        Next::Without(disk) => without_entry(value, disk),
        Next::Dirs(set) => with_dirs(value, DiskSet::from_bits(set)),
        Next::Holders(set) => with_holders(value, DiskSet::from_bits(set)),
        Next::NextHolders(set) => with_next_holders(value, DiskSet::from_bits(set)),
        Next::Gone => with_gone(value),
        Next::OfAnother => of_another(value),
    }
}

/// Writes the record that holds anew, changed in this, where it may come next. A group that takes
/// no calls is asked to write any.
#[tactic(auto, using(crate::proofs::Taking::kept_takes))]
pub fn record<B: Bay>(m: &mut Mounted, alloc: Global, bay: &mut B, next: Next) -> Answer
    requires takes { Takes m.old (B.state bay.old) }
    ensures takes { Takes m.new (B.state bay.new) }
{
    let next = next_of(m.status(), next);
    if !m.is_mounted() {
        return answer_of(m.set_status(alloc, bay, &next));
    }
    if !m.may_get(&next) {
        return Answer::MayNot;
    }
    answer_of(m.set_status(alloc, bay, &next))
}
