//! OFFLINE.
ghost use Rattle.std.specs.Prelude.{◌≡◌, ◌⊎◌, IfErr, OnOk, unwrap_or};
ghost use Rattle.record_laws.specs.group_engine.Commits.{StatusCause};
ghost use Rattle.record_laws.specs.group_engine.Mounts.{IsMounted, Takes};
ghost use Rattle.record_laws.specs.group_engine.Own.{KeepsGroup};
ghost use Rattle.record_laws.specs.group_engine.Pending.{GoesOn};
ghost use Rattle.disk_modes.specs.Causes.{OfflineRefused};
ghost use Rattle.disk_modes.specs.Directories.{LeavesCopy};
ghost use Rattle.disk_modes.specs.Effects.{TakesOffline};
ghost use Rattle.disk_modes.specs.Stops.{MayGoOffline, StaysHeld};

use crate::changing::{Changes, change_disks};
use crate::checking::{Statement, check_directories, check_extents, check_modes, directories_of};
use crate::finding::attached_disks;
use crate::losing::Counted;
use crate::records::NewModes;
use asm_base::DiskSet;
use bay::Bay;
use record_laws::Mounted;
use refusal_lines::Refusal;
use std::alloc::Global;

/// Takes disks Offline since a second. They expire after so many seconds, or after those of the
/// group's attribute, and have no directory copy then. Refusals in their order: Dismounted;
/// DiskState, by the least that isn't Online; HoldsDirectories, where they have all directory
/// copies; WouldLose, by the first extent whose usable copies are all on them; NoMemory, by which
/// the modes stay.
pub fn offline_disks<B: Bay>(
    m: &mut Mounted,
    alloc: Global,
    bay: &mut B,
    disks: DiskSet,
    repair: Option<u64>,
    now: u64,
) -> Result<(), Refusal>
    requires takes { Takes m.old (B.state bay.old) }
    ensures keeps { KeepsGroup m.old m.new (B.state bay.old) (B.state bay.new) }
    ensures mounted { OnOk result (IsMounted m.new) }
    // The disks are Offline, and have no directory copy; all else of the record stays, and so do
    // the tables.
    ensures done { OnOk result (TakesOffline disks repair now m.old m.new) }
    ensures cause { IfErr result (λ refusal. OfflineRefused m.old disks refusal
        ⊎ StatusCause m.old m.new (B.state bay.old) (B.state bay.new) refusal) }
    // The group stays the one that it is: at each moment each image is held for it alone, whatever
    // the answer, and while it takes calls it is mounted. The record takes a turn.
    ensures held { StaysHeld m.old m.new (B.state bay.old) (B.state bay.new) }
{
    m.takes_calls()?;
    match check_offline(m, disks) {
        Ok(()) => put_offline(m, alloc, bay, disks, repair, now),
        Err(refusal) => Err(refusal),
    }
}

/// Puts the disks Offline.
fn put_offline<B: Bay>(
    m: &mut Mounted,
    alloc: Global,
    bay: &mut B,
    disks: DiskSet,
    repair: Option<u64>,
    now: u64,
) -> Result<(), Refusal>
    requires mounted { IsMounted m.old }
    requires takes { Takes m.old (B.state bay.old) }
    ensures goes { GoesOn m.old result m.new (B.state bay.old) (B.state bay.new) }
    ensures done { OnOk result (TakesOffline disks repair now m.old m.new) }
    ensures held { MayGoOffline m.old disks → StaysHeld m.old m.new (B.state bay.old)
        (B.state bay.new) }
{
    let new = NewModes::Offline {
        disks,
        since: now,
        repair: repair_of(m, repair),
    };
    change_disks(m, alloc, bay, &new, &Changes::Modes)
}

/// Tries the refusals of an OFFLINE.
#[tactic(auto, using(crate::proofs::Reasons::offline_state_by))]
fn check_offline(m: &Mounted, disks: DiskSet) -> Result<(), Refusal>
    ensures cause { IfErr result (OfflineRefused m.now disks) }
    ensures may { OnOk result (MayGoOffline m.now disks) }
{
    match check_modes(m.status().entries(), disks, Statement::Offline) {
        Ok(()) => check_copies(m, disks),
        Err(refusal) => Err(refusal),
    }
}

#[tactic(auto, using(crate::proofs::Reasons::offline_copies_by))]
fn check_copies(m: &Mounted, disks: DiskSet) -> Result<(), Refusal>
    ensures cause { IfErr result (OfflineRefused m.now disks) }
    ensures left { OnOk result (LeavesCopy m.now.register.value.directories disks) }
{
    match check_directories(directories_of(m.status()), disks) {
        Ok(()) => check_usable(m, disks),
        Err(refusal) => Err(refusal),
    }
}

fn check_usable(m: &Mounted, disks: DiskSet) -> Result<(), Refusal>
    ensures { IfErr result (OfflineRefused m.now disks) }
{
    let counted = Counted::Usable {
        attached: attached_disks(m),
    };
    check_extents(m.catalog(), m.status().entries(), &counted, disks)
}

/// The seconds that are said, or those of the group's attribute.
fn repair_of(m: &Mounted, said: Option<u64>) -> u64
    ensures { result ≡ unwrap_or said m.now.catalog.tables.templates.settings.attributes.repair }
{
    match said {
        Some(seconds) => seconds,
        None => m.catalog().settings().repair,
    }
}
