// The end of a rebalance.
ghost use Rattle.std.specs.List.{list_any};
ghost use Rattle.std.specs.Prelude.{◌≡◌, ◌<◌, OnOk};
ghost use Rattle.disk_images.specs.Headers.{HasHeaderSlot};
ghost use Rattle.resync.specs.group_engine.Mounts.{IsMounted, Takes};
ghost use Rattle.resync.specs.group_engine.Pending.{GoesOn};
ghost use Rattle.relocation.specs.Endings.{ClosesOn, FinishesRebalance, is_disk_in_slot};
ghost use Rattle.relocation.specs.Shortfalls.{EndsActive, IsSliceShort};

use crate::asking::Slice;
use asm_base::Mode;
use bay::Bay;
use disk_images::close_header;
use refusal_lines::Refusal;
use resync::{Attached, Mounted, PstRecord, entry_of};
use std::alloc::Global;

/// Whether a disk leaves once nothing is left to do: it is Dropping or Forced, no holder and none
/// of the next ones, and others have directory copies.
fn is_to_leave(status: &PstRecord, disk: u8) -> bool
    requires { disk < 64 }
{
    let Some(entry) = entry_of(status.entries(), disk) else {
        return false;
    };
    matches!(entry.mode, Mode::Dropping | Mode::Forced)
        && !status.holders.has(disk)
        && !status.next_holders.has(disk)
        && status.dirs.without(disk).bits() != 0
}

/// Whether an attached disk is in a slot.
fn has_slot(attached: &Option<Attached>, slot: u32) -> bool
    ensures { result ≡ is_disk_in_slot slot attached.now }
{
    match *attached {
        Some(attached) => attached.slot == slot,
        None => false,
    }
}

/// Whether an attached disk of the group is in a slot.
fn is_attached(m: &Mounted, slot: u32) -> bool
    ensures { result ≡ list_any (is_disk_in_slot slot) m.now.disks }
{
    m.disks().iter().any(|attached| has_slot(attached, slot))
}

/// Closes the header of a disk that has left, where no attached disk is in its slot. Where that
/// fails it may stay: the disk is no more one of the group all the same.
fn close_left<B: Bay>(m: &Mounted, bay: &mut B, slot: u32)
    requires takes { Takes m.now (B.state bay.old) }
    requires header { HasHeaderSlot (B.state bay.old) slot m.now.catalog.shape.sector }
    ensures { ClosesOn m.now slot (B.state bay.old) (B.state bay.new) }
{
    if is_attached(m, slot) {
        return;
    }
    let _ = close_header(bay, slot, m.catalog().shape());
}

/// Takes an emptied disk out of the group, and then its header.
fn take_out<B: Bay>(m: &mut Mounted, alloc: Global, bay: &mut B, disk: u8) -> Result<(), Refusal>
    requires mounted { IsMounted m.old }
    requires takes { Takes m.old (B.state bay.old) }
    requires small { disk < 64 }
    ensures { FinishesRebalance m.old result m.new (B.state bay.old) (B.state bay.new) }
{
    let slot = m.slot(disk);
    match m.leave(alloc, bay, disk) {
        Ok(()) => {}
        Err(refusal) => return Err(refusal),
    }
    match slot {
        Some(slot) => {
            close_left(m, bay, slot);
            Ok(())
        }
        None => Ok(()),
    }
}

/// Takes a disk out where it leaves.
fn take_out_if<B: Bay>(m: &mut Mounted, alloc: Global, bay: &mut B, disk: u8) -> Result<(), Refusal>
    requires mounted { IsMounted m.old }
    requires takes { Takes m.old (B.state bay.old) }
    requires small { disk < 64 }
    ensures { FinishesRebalance m.old result m.new (B.state bay.old) (B.state bay.new) }
{
    if !is_to_leave(m.status(), disk) {
        return Ok(());
    }
    take_out(m, alloc, bay, disk)
}

/// Takes out each disk that leaves, by number.
fn take_all_out<B: Bay>(m: &mut Mounted, alloc: Global, bay: &mut B) -> Result<(), Refusal>
    requires mounted { IsMounted m.old }
    requires takes { Takes m.old (B.state bay.old) }
    ensures { FinishesRebalance m.old result m.new (B.state bay.old) (B.state bay.new) }
{
    for disk in 0..64u8 {
        match take_out_if(m, alloc, bay, disk) {
            Ok(()) => {}
            Err(refusal) => return Err(refusal),
        }
    }
    Ok(())
}

/// No rebalance is active from then on.
fn end_active<B: Bay>(m: &mut Mounted, alloc: Global, bay: &mut B) -> Result<(), Refusal>
    requires mounted { IsMounted m.old }
    requires takes { Takes m.old (B.state bay.old) }
    ensures goes { GoesOn m.old result m.new (B.state bay.old) (B.state bay.new) }
    ensures ended { OnOk result (EndsActive m.old m.new) }
{
    match m.catalog().plan_rebalance(alloc, None) {
        Ok(change) => m.commit_plan(alloc, bay, &change),
        Err(_) => Err(Refusal::NoMemory),
    }
}

/// Takes out the disks that leave, where nothing is left to do.
fn empty_out<B: Bay>(m: &mut Mounted, alloc: Global, bay: &mut B, end: Slice) -> Result<(), Refusal>
    requires mounted { IsMounted m.old }
    requires takes { Takes m.old (B.state bay.old) }
    ensures ends { FinishesRebalance m.old result m.new (B.state bay.old) (B.state bay.new) }
    ensures same { IsSliceShort end → m.new ≡ m.old }
{
    match end {
        Slice::Done => take_all_out(m, alloc, bay),
        _ => Ok(()),
    }
}

/// Ends the rebalance. Where nothing is left to do the emptied disks leave before. Refusals:
/// Dismounted; NoMemory.
pub(crate) fn end_with<B: Bay>(
    m: &mut Mounted,
    alloc: Global,
    bay: &mut B,
    end: Slice,
) -> Result<(), Refusal>
    requires mounted { IsMounted m.old }
    requires takes { Takes m.old (B.state bay.old) }
    ensures ends { FinishesRebalance m.old result m.new (B.state bay.old) (B.state bay.new) }
    ensures kept { IsSliceShort end → OnOk result (EndsActive m.old m.new) }
{
    match empty_out(m, alloc, bay, end) {
        Ok(()) => end_active(m, alloc, bay),
        Err(refusal) => Err(refusal),
    }
}
