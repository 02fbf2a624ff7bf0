//! Expiry of disks, and REBALANCE.
ghost use Rattle.std.specs.Prelude.{◌≡◌, IfErr, IfOk, OnOk, true};
ghost use Rattle.record_laws.specs.group_engine.Commits.{StatusCause};
ghost use Rattle.record_laws.specs.group_engine.Mounts.{IsMounted, Takes};
ghost use Rattle.record_laws.specs.group_engine.Own.{KeepsGroup};
ghost use Rattle.record_laws.specs.group_engine.Pending.{GoesOn};
ghost use Rattle.group_reports.specs.Disks.{may_go};
ghost use Rattle.disk_modes.specs.Effects.{DropsByForce, DropsExpiredDisk, PutsRebalance};
ghost use Rattle.disk_modes.specs.Stops.{CommitsRebalance, HasTwoTurns, StaysHeld};

use crate::changing::{Changes, change_disks, put_rebalance};
use crate::finding::with_number;
use crate::records::NewModes;
use asm_base::DiskSet;
use bay::Bay;
use group_reports::expiring;
use record_laws::Mounted;
use refusal_lines::Refusal;
use std::alloc::Global;

/// Drops by force the least Offline disk whose time is up at a second, and which has neither the
/// only directory copy nor all current copies of an extent. A rebalance of power 1 is active then.
/// None where there is no such disk. Refusals: Dismounted; NoMemory, after which between the two
/// changes the group takes no more calls.
pub fn expire<B: Bay>(
    m: &mut Mounted,
    alloc: Global,
    bay: &mut B,
    now: u64,
) -> Result<Option<u8>, Refusal>
    requires takes { Takes m.old (B.state bay.old) }
    ensures keeps { KeepsGroup m.old m.new (B.state bay.old) (B.state bay.new) }
    ensures mounted { IfOk result (λ disk. IsMounted m.new) }
    // The disk was the one that expires, and is Forced now; where none expires the group stays.
    ensures done { IfOk result (λ disk. DropsExpiredDisk now m.old disk m.new) }
    ensures cause { IfErr result (StatusCause m.old m.new (B.state bay.old) (B.state bay.new)) }
    // The group stays the one that it is, where turns don't run out: at each moment each image is
    // held for it alone, whatever the answer, and while it takes calls it is mounted. The record
    // takes a turn; that of the commit costs a copy.
    ensures held { HasTwoTurns m.old → StaysHeld m.old m.new (B.state bay.old) (B.state bay.new) }
{
    m.takes_calls()?;
    match expiring(m.catalog(), m.status(), now) {
        Some(disk) => match expire_disk(m, alloc, bay, disk) {
            Ok(()) => Ok(Some(disk)),
            Err(refusal) => Err(refusal),
        },
        None => Ok(None),
    }
}

/// Drops the disk by force.
fn expire_disk<B: Bay>(m: &mut Mounted, alloc: Global, bay: &mut B, disk: u8) -> Result<(), Refusal>
    requires mounted { IsMounted m.old }
    requires takes { Takes m.old (B.state bay.old) }
    ensures goes { GoesOn m.old result m.new (B.state bay.old) (B.state bay.new) }
    ensures done { OnOk result (DropsByForce disk m.old m.new) }
    ensures held { may_go m.old.catalog m.old.register.value disk ≡ true → HasTwoTurns m.old
        → StaysHeld m.old m.new (B.state bay.old) (B.state bay.new) }
{
    let new = NewModes::Dropped {
        dropping: DiskSet::empty(),
        forced: with_number(DiskSet::empty(), disk),
    };
    let changes = Changes::ModesThenRebalance { power: 1 };
    change_disks(m, alloc, bay, &new, &changes)
}

/// A rebalance of this power is active, or none is. The move that is on its way stays. Refusals:
/// Dismounted, NoMemory.
pub fn set_rebalance<B: Bay>(
    m: &mut Mounted,
    alloc: Global,
    bay: &mut B,
    power: Option<u16>,
) -> Result<(), Refusal>
    requires takes { Takes m.old (B.state bay.old) }
    ensures keeps { KeepsGroup m.old m.new (B.state bay.old) (B.state bay.new) }
    ensures mounted { OnOk result (IsMounted m.new) }
    ensures done { OnOk result (PutsRebalance power m.old m.new) }
    // The group stays the one that it is: at each moment each image is held for it alone, whatever
    // the answer, and while it takes calls it is mounted. Each turn that it takes costs a copy.
    ensures commits { CommitsRebalance m.old result m.new (B.state bay.old) (B.state bay.new) }
    ensures cause { IfErr result (StatusCause m.old m.new (B.state bay.old) (B.state bay.new)) }
{
    m.takes_calls()?;
    put_rebalance(m, alloc, bay, power)
}
