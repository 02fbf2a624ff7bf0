//! Steps that are done one after the other, on a group on disks in memory.

ghost use Rattle.bay.specs.State.{KeepsAttached};
ghost use Rattle.bay_mem.specs.MemState.{IsQuiet, state_of};
ghost use Rattle.group_engine.specs.Mounts.{Takes};

use crate::calls::is_done;
use crate::disks::{fail_at, set_fails};
use crate::facts::is_told;
use crate::steps::{Step, Unit, home_at};
use asm_base::ExtentId;
use bay::Bay;
use bay_mem::MemBay;
use group_engine::{Flight, Mounted};
use std::alloc::Global;

/// Does a step of the disks. Whether it is done.
fn befalls(bay: &mut MemBay, step: Step) -> bool
    ensures quiet { IsQuiet (state_of bay.old) (state_of bay.new) }
    ensures attached { KeepsAttached (state_of bay.old) (state_of bay.new) }
{
    match step {
        Step::Fails(slot, fails) => {
            set_fails(bay, slot, fails);
            true
        }
        Step::FailsAt(call) => fail_at(bay, call),
        _ => false,
    }
}

/// The move of a copy of file 256, of which so many bytes are copied.
fn flight_to(index: u32, copy: u8, to: Unit, copied: u64) -> Flight {
    Flight {
        x: ExtentId { file: 256, index },
        copy,
        to: home_at(to),
        copied,
    }
}

/// A move is on its way.
fn fly<B: Bay>(m: &mut Mounted, bay: &B, flight: Flight)
    requires takes { Takes m.old (B.state bay.now) }
    ensures takes { Takes m.new (B.state bay.now) }
{
    let _bay = bay;
    m.set_flight(Some(flight));
}

/// A move is on its way, or the group is closed.
#[tactic(auto, using(crate::proofs::Taking::closed_takes))]
fn set<B: Bay>(m: &mut Mounted, bay: &B, step: Step)
    requires takes { Takes m.old (B.state bay.now) }
    ensures takes { Takes m.new (B.state bay.now) }
{
    let _bay = bay;
    match step {
        Step::FlyTo(index, copy, to, copied) => fly(m, bay, flight_to(index, copy, to, copied)),
        Step::Close => m.close(),
        _ => {}
    }
}

/// Does a step. Whether this comes of it.
#[tactic(auto, using(crate::proofs::Taking::quiet_takes))]
fn is_right(alloc: Global, m: &mut Mounted, bay: &mut MemBay, step: Step) -> bool
    requires takes { Takes m.old (state_of bay.old) }
    ensures takes { Takes m.new (state_of bay.new) }
{
    match step {
        Step::Fails(..) | Step::FailsAt(_) => befalls(bay, step),
        Step::Tells(fact) => is_told(alloc, m, fact),
        Step::FlyTo(..) | Step::Close => {
            set(m, bay, step);
            true
        }
        _ => is_done(alloc, m, bay, step),
    }
}

/// Does steps one after the other. Which is the first that isn't right.
pub fn wrong_in(alloc: Global, m: &mut Mounted, bay: &mut MemBay, steps: &[Step]) -> Option<usize>
    requires takes { Takes m.old (state_of bay.old) }
{
    for (place, step) in steps.iter().enumerate() {
        if !is_right(alloc, m, bay, *step) {
            return Some(place);
        }
    }
    None
}
