// The slots of a bay. A slot is kept from the first call that attaches or makes its image.
ghost use Rattle.std.specs.Prelude.{◌≡◌, None, length, OnOk, OnErr, IsSome};
ghost use Rattle.std.specs.Ordering.{nat_cmp};
ghost use Rattle.std.specs.BTreeMap.{get};
ghost use Rattle.bay.specs.Calls.{sends, sends_none};
ghost use Rattle.bay_file.specs.Slots.{attached_in, state_in, OtherSlotsStay, AllSlotsStay, IsAttached, IsMade, IsServed};

use crate::opener::Opener;
use crate::slot::Slot;
use bay::{BayError, Fault};
use std::alloc::AllocError;
use std::collections::BTreeMap;

pub type SlotMap = BTreeMap<u32, Slot>;

// Makes sure that a slot is kept, so that its faults can be counted.
fn keep_slot(slots: &mut SlotMap, slot: u32) -> Result<(), AllocError>
    ensures same { AllSlotsStay slots.old slots.new }
    ensures kept { OnOk result (IsSome (get nat_cmp slots.new slot)) }
    ensures unkept { OnErr result (attached_in slots.new slot ≡ None) }
{
    if slots.contains_key(&slot) {
        return Ok(());
    }
    slots.insert(slot, Slot::new())?;
    Ok(())
}

fn attach_kept(
    slots: &mut SlotMap,
    slot: u32,
    opener: &mut Opener,
    path: &str,
) -> Result<u64, BayError>
    requires { IsSome (get nat_cmp slots.old slot) }
    ensures call { IsAttached result (state_in slots.old slot) (state_in slots.new slot) }
    ensures others { OtherSlotsStay slot slots.old slots.new }
{
    slots.get_mut(&slot).unwrap().attach(opener, path)
}

fn make_kept(
    slots: &mut SlotMap,
    slot: u32,
    opener: &mut Opener,
    path: &str,
    size: u64,
) -> Result<(), BayError>
    requires { IsSome (get nat_cmp slots.old slot) }
    ensures call { IsMade result size (state_in slots.old slot) (state_in slots.new slot) }
    ensures others { OtherSlotsStay slot slots.old slots.new }
{
    slots.get_mut(&slot).unwrap().make(opener, path, size)
}

// Attaches the image at a path, where none is attached. A slot whose faults can't be counted isn't
// attached.
pub fn attach_in(
    slots: &mut SlotMap,
    slot: u32,
    opener: &mut Opener,
    path: &str,
) -> Result<u64, BayError>
    ensures call { IsAttached result (state_in slots.old slot) (state_in slots.new slot) }
    ensures others { OtherSlotsStay slot slots.old slots.new }
{
    if keep_slot(slots, slot).is_err() {
        return Err(BayError::NoMemory);
    }
    attach_kept(slots, slot, opener, path)
}

// Makes an image of zeros at a path, and attaches it. A slot whose faults can't be counted isn't
// attached.
pub fn make_in(
    slots: &mut SlotMap,
    slot: u32,
    opener: &mut Opener,
    path: &str,
    size: u64,
) -> Result<(), BayError>
    ensures call { IsMade result size (state_in slots.old slot) (state_in slots.new slot) }
    ensures others { OtherSlotsStay slot slots.old slots.new }
{
    if keep_slot(slots, slot).is_err() {
        return Err(BayError::NoMemory);
    }
    make_kept(slots, slot, opener, path, size)
}

pub fn read_in(slots: &mut SlotMap, slot: u32, at: u64, buf: &mut [u8]) -> Result<(), Fault>
    requires { IsSome (attached_in slots.old slot) }
    ensures call { IsServed result sends_none (state_in slots.old slot) (state_in slots.new slot) }
    ensures others { OtherSlotsStay slot slots.old slots.new }
{
    slots.get_mut(&slot).unwrap().read(at, buf)
}

pub fn write_in(slots: &mut SlotMap, slot: u32, at: u64, bytes: &[u8]) -> Result<(), Fault>
    requires { IsSome (attached_in slots.old slot) }
    ensures call { IsServed result (sends (length bytes.now)) (state_in slots.old slot)
        (state_in slots.new slot) }
    ensures others { OtherSlotsStay slot slots.old slots.new }
{
    slots.get_mut(&slot).unwrap().write(at, bytes)
}

pub fn sync_in(slots: &mut SlotMap, slot: u32) -> Result<(), Fault>
    requires { IsSome (attached_in slots.old slot) }
    ensures call { IsServed result sends_none (state_in slots.old slot) (state_in slots.new slot) }
    ensures others { OtherSlotsStay slot slots.old slots.new }
{
    slots.get_mut(&slot).unwrap().sync()
}
