//! RESIZE.
ghost use Rattle.std.specs.Bool.{OnTrue};
ghost use Rattle.std.specs.List.{list_any};
ghost use Rattle.std.specs.Prelude.{◌≡◌, ◌⊎◌, IfErr, IsTrue, OnOk, map};
ghost use Rattle.asm_formats.specs.Status.{is_status};
ghost use Rattle.group_reports.specs.catalog_tables.Rules.{KeepsRules};
ghost use Rattle.record_laws.specs.group_engine.Commits.{StatusCause};
ghost use Rattle.record_laws.specs.group_engine.Mounts.{IsMounted, Takes};
ghost use Rattle.record_laws.specs.group_engine.Own.{KeepsGroup};
ghost use Rattle.record_laws.specs.group_engine.Pending.{GoesOn};
ghost use Rattle.record_laws.specs.group_engine.Statuses.{IsNextOf};
ghost use Rattle.disk_modes.specs.Causes.{AreLargeEnough, ResizeRefused};
ghost use Rattle.disk_modes.specs.Sizes.{HasAsked, PutsUnits, ResizesDisks, entry_capped, is_other, status_resized};
ghost use Rattle.disk_modes.specs.Stops.{FitImages, StaysHeld};

use crate::changing::put_rebalance;
use crate::checking::{Statement, check_modes};
use crate::sizes::{Asked, check_sizes, units_asked};
use asm_base::DiskSet;
use bay::Bay;
use record_laws::Mounted;
use refusal_lines::Refusal;
use status_table::{PstEntry, PstRecord, with_units};
use std::alloc::Global;

/// Gives disks the units of a size in bytes, or those of their images, and makes a rebalance of the
/// power active, also where they have these. Refusals in their order: Dismounted; DiskState, by the
/// least that doesn't serve; TooSmall, by the least whose image has fewer units than it is to have,
/// with these, or that needs more; NoMemory, after which between the two changes the group takes no
/// more calls.
pub fn resize_disks<B: Bay>(
    m: &mut Mounted,
    alloc: Global,
    bay: &mut B,
    disks: DiskSet,
    size: Option<u64>,
    power: u16,
) -> Result<(), Refusal>
    requires takes { Takes m.old (B.state bay.old) }
    ensures keeps { KeepsGroup m.old m.new (B.state bay.old) (B.state bay.new) }
    ensures mounted { OnOk result (IsMounted m.new) }
    // The disks have the units of the size, or of their images, and a rebalance is active.
    ensures done { OnOk result (ResizesDisks disks size power m.old m.new) }
    ensures large { OnOk result (AreLargeEnough m.old (record { disks = disks; size = size })) }
    ensures cause { IfErr result (λ refusal. ResizeRefused m.old
        (record { disks = disks; size = size }) refusal
        ⊎ StatusCause m.old m.new (B.state bay.old) (B.state bay.new) refusal) }
    // The group stays the one that it is: at each moment each image is held for it alone, whatever
    // the answer, and while it takes calls it is mounted. The record takes a turn; that of the
    // commit costs a copy.
    ensures held { StaysHeld m.old m.new (B.state bay.old) (B.state bay.new) }
{
    m.takes_calls()?;
    let asked = Asked { disks, size };
    match check_resize(m, &asked) {
        Ok(()) => resize(m, alloc, bay, &asked, power),
        Err(refusal) => Err(refusal),
    }
}

/// Tries the refusals of a RESIZE.
#[tactic(auto, using(crate::proofs::Reasons::resize_state_by, crate::proofs::Reasons::resize_size_by))]
fn check_resize(m: &Mounted, asked: &Asked) -> Result<(), Refusal>
    ensures cause { IfErr result (ResizeRefused m.now asked.now) }
    ensures large { OnOk result (AreLargeEnough m.now asked.now) }
{
    match check_modes(m.status().entries(), asked.disks, Statement::Resize) {
        Ok(()) => check_sizes(m, asked),
        Err(refusal) => Err(refusal),
    }
}

/// Gives up the move that is on its way, and makes both changes.
fn resize<B: Bay>(
    m: &mut Mounted,
    alloc: Global,
    bay: &mut B,
    asked: &Asked,
    power: u16,
) -> Result<(), Refusal>
    requires mounted { IsMounted m.old }
    requires takes { Takes m.old (B.state bay.old) }
    ensures goes { GoesOn m.old result m.new (B.state bay.old) (B.state bay.new) }
    ensures done { OnOk result (ResizesDisks asked.now.disks asked.now.size power m.old m.new) }
    ensures held { FitImages asked.now m.old
        → StaysHeld m.old m.new (B.state bay.old) (B.state bay.new) }
{
    m.set_flight(None);
    rebalance_first(m, alloc, bay, asked, power)
}

/// Makes the rebalance active, and then gives the units.
fn rebalance_first<B: Bay>(
    m: &mut Mounted,
    alloc: Global,
    bay: &mut B,
    asked: &Asked,
    power: u16,
) -> Result<(), Refusal>
    requires mounted { IsMounted m.old }
    requires takes { Takes m.old (B.state bay.old) }
    ensures goes { GoesOn m.old result m.new (B.state bay.old) (B.state bay.new) }
    ensures done { OnOk result (ResizesDisks asked.now.disks asked.now.size power m.old m.new) }
    ensures held { FitImages asked.now m.old
        → StaysHeld m.old m.new (B.state bay.old) (B.state bay.new) }
{
    match put_rebalance(m, alloc, bay, Some(power)) {
        Ok(()) => units_or_shut(m, alloc, bay, asked),
        Err(refusal) => Err(refusal),
    }
}

/// Puts the units behind a commit. After want of memory the group takes no more calls.
fn units_or_shut<B: Bay>(
    m: &mut Mounted,
    alloc: Global,
    bay: &mut B,
    asked: &Asked,
) -> Result<(), Refusal>
    requires mounted { IsMounted m.old }
    requires takes { Takes m.old (B.state bay.old) }
    ensures goes { GoesOn m.old result m.new (B.state bay.old) (B.state bay.new) }
    ensures done { OnOk result (PutsUnits asked.now m.old m.new) }
    ensures held { FitImages asked.now m.old → KeepsRules m.old.catalog.shape m.old.catalog.tables
        → StaysHeld m.old m.new (B.state bay.old) (B.state bay.new) }
{
    match put_units(m, alloc, bay, asked) {
        Ok(()) => Ok(()),
        Err(Refusal::Dismounted { disk }) => Err(Refusal::Dismounted { disk }),
        Err(_) => {
            m.close();
            Err(Refusal::NoMemory)
        }
    }
}

/// Puts the record with other units, where they are others.
fn put_units<B: Bay>(
    m: &mut Mounted,
    alloc: Global,
    bay: &mut B,
    asked: &Asked,
) -> Result<(), Refusal>
    requires mounted { IsMounted m.old }
    requires takes { Takes m.old (B.state bay.old) }
    ensures goes { GoesOn m.old result m.new (B.state bay.old) (B.state bay.new) }
    ensures done { OnOk result (PutsUnits asked.now m.old m.new) }
    ensures held { FitImages asked.now m.old → KeepsRules m.old.catalog.shape m.old.catalog.tables
        → StaysHeld m.old m.new (B.state bay.old) (B.state bay.new) }
{
    if !has_others(m, m.status().entries(), asked) {
        return Ok(());
    }
    let next = with_asked(m, m.status(), asked);
    put_next(m, alloc, bay, &next, asked)
}

/// Puts a record with the units that are asked for, where it may come next. One with units that
/// were checked may.
fn put_next<B: Bay>(
    m: &mut Mounted,
    alloc: Global,
    bay: &mut B,
    next: &PstRecord,
    asked: &Asked,
) -> Result<(), Refusal>
    requires mounted { IsMounted m.old }
    requires takes { Takes m.old (B.state bay.old) }
    requires asked { HasAsked asked.now m.old next.now }
    ensures goes { GoesOn m.old result m.new (B.state bay.old) (B.state bay.new) }
    ensures done { OnOk result (PutsUnits asked.now m.old m.new) }
    ensures held { FitImages asked.now m.old → KeepsRules m.old.catalog.shape m.old.catalog.tables
        → StaysHeld m.old m.new (B.state bay.old) (B.state bay.new) }
{
    let _asked = asked.disks;
    if !m.may_get(next) {
        // It doesn't come.
        return Err(Refusal::NoMemory);
    }
    m.set_status(alloc, bay, next)
}

/// Whether one of the disks is to have other units than it has.
fn has_others(m: &Mounted, entries: &[PstEntry], asked: &Asked) -> bool
    ensures { result ≡ list_any (is_other m.now.catalog.shape m.now.disks asked.now) entries.now }
{
    for entry in entries {
        if is_other(m, entry, asked) {
            return true;
        }
    }
    false
}

fn is_other(m: &Mounted, entry: &PstEntry, asked: &Asked) -> bool
    ensures { result ≡ is_other m.now.catalog.shape m.now.disks asked.now entry.now }
{
    asked.disks.has(entry.number) && units_asked(m, entry.number, asked) != entry.units as u64
}

/// The record with the units that the disks are to have.
fn with_asked(m: &Mounted, status: &PstRecord, asked: &Asked) -> PstRecord
    requires { IsTrue (is_status status.now) }
    ensures { result ≡ record status.now {
      entries = map (entry_capped m.now.catalog.shape m.now.disks asked.now) status.now.entries;
    } }
{
    let mut next = status.copy();
    for disk in 0..64u8 {
        next = with_disk_asked(m, &next, asked, disk);
    }
    next
}

/// The record with the units of one disk, where it is asked for.
fn with_disk_asked(m: &Mounted, status: &PstRecord, asked: &Asked, disk: u8) -> PstRecord
    ensures { result ≡ status_resized m.now asked.now disk status.now }
{
    if !asked.disks.has(disk) {
        return status.copy();
    }
    let units = units_asked(m, disk, asked).min(u32::MAX as u64) as u32;
    with_units(status, disk, units)
}
