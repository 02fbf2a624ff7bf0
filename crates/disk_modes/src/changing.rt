// The two changes of which each statement on disks is made: the status record, and the record of
// the active rebalance.
ghost use Rattle.std.specs.Prelude.{OnOk, Some};
ghost use Rattle.record_laws.specs.group_engine.Mounts.{IsMounted, Takes};
ghost use Rattle.record_laws.specs.group_engine.Pending.{GoesOn};
ghost use Rattle.disk_modes.specs.Effects.{MakesChanges, PutsBoth, PutsModes, PutsRebalance};
ghost use Rattle.disk_modes.specs.declared.changing.Changes.TheVariants as changes;
ghost use Rattle.disk_modes.specs.Stops.{CommitsRebalance, MayMakeChanges, MayPutModes, StaysHeld};

use crate::records::{NewModes, next_record};
use asm_base::NoMemory;
use bay::Bay;
use record_laws::Mounted;
use refusal_lines::Refusal;
use std::alloc::Global;

/// The changes that a statement makes, in their order. The rebalance is of a power.
#[derive(Clone, Copy)]
pub enum Changes {
    Modes,
    Rebalance { power: u16 },
    /// A stop between leaves an active rebalance, and no disk that none empties.
    RebalanceThenModes { power: u16 },
    /// The commit may lose a directory copy, and those that are left might all be on disks that the
    /// modes take off.
    ModesThenRebalance { power: u16 },
}

/// Gives up the move that is on its way, and makes the changes. Refusals: Dismounted; NoMemory,
/// after which between two changes the group takes no more calls.
pub(crate) fn change_disks<B: Bay>(
    m: &mut Mounted,
    alloc: Global,
    bay: &mut B,
    new: &NewModes,
    changes: &Changes,
) -> Result<(), Refusal>
    requires mounted { IsMounted m.old }
    requires takes { Takes m.old (B.state bay.old) }
    ensures goes { GoesOn m.old result m.new (B.state bay.old) (B.state bay.new) }
    ensures done { OnOk result (MakesChanges changes.now new.now m.old m.new) }
    ensures held { MayMakeChanges changes.now new.now m.old
        → StaysHeld m.old m.new (B.state bay.old) (B.state bay.new) }
{
    m.set_flight(None);
    make_changes(m, alloc, bay, new, changes)
}

fn make_changes<B: Bay>(
    m: &mut Mounted,
    alloc: Global,
    bay: &mut B,
    new: &NewModes,
    changes: &Changes,
) -> Result<(), Refusal>
    requires mounted { IsMounted m.old }
    requires takes { Takes m.old (B.state bay.old) }
    ensures goes { GoesOn m.old result m.new (B.state bay.old) (B.state bay.new) }
    ensures done { OnOk result (MakesChanges changes.now new.now m.old m.new) }
    ensures held { MayMakeChanges changes.now new.now m.old
        → StaysHeld m.old m.new (B.state bay.old) (B.state bay.new) }
{
    match *changes {
        Changes::Modes => put_modes(m, alloc, bay, new),
        Changes::Rebalance { power } => put_rebalance(m, alloc, bay, Some(power)),
        Changes::RebalanceThenModes { power } => rebalance_first(m, alloc, bay, new, power),
        Changes::ModesThenRebalance { power } => modes_first(m, alloc, bay, new, power),
    }
}

fn rebalance_first<B: Bay>(
    m: &mut Mounted,
    alloc: Global,
    bay: &mut B,
    new: &NewModes,
    power: u16,
) -> Result<(), Refusal>
    requires mounted { IsMounted m.old }
    requires takes { Takes m.old (B.state bay.old) }
    ensures goes { GoesOn m.old result m.new (B.state bay.old) (B.state bay.new) }
    ensures done { OnOk result (PutsBoth power new.now m.old m.new) }
    ensures held { MayMakeChanges (changes.RebalanceThenModes power) new.now m.old
        → StaysHeld m.old m.new (B.state bay.old) (B.state bay.new) }
{
    match put_rebalance(m, alloc, bay, Some(power)) {
        Ok(()) => modes_or_shut(m, alloc, bay, new),
        Err(refusal) => Err(refusal),
    }
}

fn modes_first<B: Bay>(
    m: &mut Mounted,
    alloc: Global,
    bay: &mut B,
    new: &NewModes,
    power: u16,
) -> Result<(), Refusal>
    requires mounted { IsMounted m.old }
    requires takes { Takes m.old (B.state bay.old) }
    ensures goes { GoesOn m.old result m.new (B.state bay.old) (B.state bay.new) }
    ensures done { OnOk result (PutsBoth power new.now m.old m.new) }
    ensures held { MayMakeChanges (changes.ModesThenRebalance power) new.now m.old
        → StaysHeld m.old m.new (B.state bay.old) (B.state bay.new) }
{
    match put_modes(m, alloc, bay, new) {
        Ok(()) => rebalance_or_shut(m, alloc, bay, power),
        Err(refusal) => Err(refusal),
    }
}

/// Puts new modes behind a commit. After want of memory the group takes no more calls.
fn modes_or_shut<B: Bay>(
    m: &mut Mounted,
    alloc: Global,
    bay: &mut B,
    new: &NewModes,
) -> Result<(), Refusal>
    requires mounted { IsMounted m.old }
    requires takes { Takes m.old (B.state bay.old) }
    ensures goes { GoesOn m.old result m.new (B.state bay.old) (B.state bay.new) }
    ensures done { OnOk result (PutsModes new.now m.old m.new) }
    ensures held { MayPutModes new.now m.old.register.value
        → StaysHeld m.old m.new (B.state bay.old) (B.state bay.new) }
{
    match put_modes(m, alloc, bay, new) {
        Ok(()) => Ok(()),
        Err(Refusal::Dismounted { disk }) => Err(Refusal::Dismounted { disk }),
        Err(_) => {
            m.close();
            Err(Refusal::NoMemory)
        }
    }
}

/// Makes the rebalance active behind a record. After want of memory the group takes no more calls.
fn rebalance_or_shut<B: Bay>(
    m: &mut Mounted,
    alloc: Global,
    bay: &mut B,
    power: u16,
) -> Result<(), Refusal>
    requires mounted { IsMounted m.old }
    requires takes { Takes m.old (B.state bay.old) }
    ensures goes { GoesOn m.old result m.new (B.state bay.old) (B.state bay.new) }
    ensures done { OnOk result (PutsRebalance (Some power) m.old m.new) }
    ensures commits { CommitsRebalance m.old result m.new (B.state bay.old) (B.state bay.new) }
{
    match put_rebalance(m, alloc, bay, Some(power)) {
        Ok(()) => Ok(()),
        Err(Refusal::Dismounted { disk }) => Err(Refusal::Dismounted { disk }),
        Err(_) => {
            m.close();
            Err(Refusal::NoMemory)
        }
    }
}

/// Puts the record with new modes, made from the one that holds. Refusals: Dismounted, NoMemory.
fn put_modes<B: Bay>(
    m: &mut Mounted,
    alloc: Global,
    bay: &mut B,
    new: &NewModes,
) -> Result<(), Refusal>
    requires mounted { IsMounted m.old }
    requires takes { Takes m.old (B.state bay.old) }
    ensures goes { GoesOn m.old result m.new (B.state bay.old) (B.state bay.new) }
    ensures done { OnOk result (PutsModes new.now m.old m.new) }
    ensures held { MayPutModes new.now m.old.register.value
        → StaysHeld m.old m.new (B.state bay.old) (B.state bay.new) }
{
    match next_record(alloc, m.status(), new) {
        Ok(next) => m.set_status(alloc, bay, &next),
        Err(NoMemory) => Err(Refusal::NoMemory),
    }
}

/// Puts the record of the active rebalance, or takes it away. Refusals: Dismounted, NoMemory.
pub(crate) fn put_rebalance<B: Bay>(
    m: &mut Mounted,
    alloc: Global,
    bay: &mut B,
    power: Option<u16>,
) -> Result<(), Refusal>
    requires mounted { IsMounted m.old }
    requires takes { Takes m.old (B.state bay.old) }
    ensures goes { GoesOn m.old result m.new (B.state bay.old) (B.state bay.new) }
    ensures done { OnOk result (PutsRebalance power m.old m.new) }
    ensures commits { CommitsRebalance m.old result m.new (B.state bay.old) (B.state bay.new) }
{
    match m.catalog().plan_rebalance(alloc, power) {
        Ok(change) => m.commit_plan(alloc, bay, &change),
        Err(_) => Err(Refusal::NoMemory),
    }
}
