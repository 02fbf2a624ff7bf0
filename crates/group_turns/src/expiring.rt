// Offline disks whose time is up.
ghost use Rattle.std.specs.Prelude.{◌≡◌};
ghost use Rattle.disk_modes.specs.group_engine.Members.{LetsGo};
ghost use Rattle.disk_modes.specs.group_engine.Mounts.{IsMounted, Takes};
ghost use Rattle.group_turns.specs.Turns.{BeforeText, IsLineOf, OnEvent, OnIdle, OnWork, IsWork};

use crate::failure::{Failure, failure_of, shown_name};
use crate::taking::Turned;
use bay::Bay;
use disk_modes::{Mounted, expire, expiring_disk as expiring};
use event_lines::Event;
use line_buffer::LineBuffer;
use refusal_lines::Refusal;
use std::alloc::Global;

/// Drops the least Offline disk whose time is up at a second and that may go, where there is one,
/// and writes the line of it.
pub fn drop_expired<B: Bay>(
    m: &mut Mounted,
    alloc: Global,
    bay: &mut B,
    now: u64,
    line: &mut LineBuffer,
) -> Turned
    requires takes { Takes m.old (B.state bay.old) }
    requires mounted { IsMounted m.old }
    ensures idle { OnIdle result ((m.new ≡ m.old) × (bay.new ≡ bay.old)) }
    ensures lets { OnWork result (IsMounted m.old
        × LetsGo m.old m.new (B.state bay.old) (B.state bay.new)) }
    ensures line { OnEvent result (IsLineOf m.old.name BeforeText line.new) }
{
    if expiring(m.catalog(), m.status(), now).is_none() {
        return Turned::Idle;
    }
    match expire(m, alloc, bay, now) {
        Ok(Some(disk)) => {
            Event::Expired {
                group: m.name(),
                disk: shown_name(m, disk),
            }
            .write(line);
            Turned::Happened
        }
        // doesn't come: a disk is due
        Ok(None) => Turned::NoMemory,
        Err(refusal) => end_expiry(m, refusal, line),
    }
}

/// Writes the line of an expiry that dismounted the group. There is none for want of memory, and no
/// other refusal comes.
fn end_expiry(m: &Mounted, refusal: Refusal, line: &mut LineBuffer) -> Turned
    ensures work { IsWork result }
    ensures line { OnEvent result (IsLineOf m.now.name BeforeText line.new) }
{
    let failure = failure_of(&refusal);
    drop(refusal);
    match failure {
        Failure::Dismounted { disk } => {
            Event::ExpiryEnds {
                group: m.name(),
                disk: shown_name(m, disk),
            }
            .write(line);
            Turned::Happened
        }
        Failure::Fault { .. } => Turned::NoMemory,
        Failure::NoMemory => Turned::NoMemory,
    }
}
