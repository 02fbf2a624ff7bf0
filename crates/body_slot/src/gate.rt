// Gates and the bodies behind them: read, closed, filled, opened.
ghost use Rattle.std.specs.Prelude.{◌≡◌, ◌+◌, ◌*◌, ◌%◌, None, false, ◌≤◌, ◌<◌, length, IsSome, slice_index};
ghost use Rattle.std.specs.Option.{ForSome};
ghost use Rattle.bay.specs.Image.{Same, ChangesOnly, Range, Puts};
ghost use Rattle.bay.specs.State.{IsSlot, IsOnSectors, size_of};
ghost use Rattle.bay.specs.Calls.{Call, ChangesEachImage, Tells, cost};
ghost use Rattle.bay.specs.Moments.{Runs, Ends};
ghost use Rattle.body_slot.specs.Slot.{IsUsablePlace, IsGateSettled, is_open_in, GateOf, SetsGate, FoundGate, MayClose, Closes, MayOpen, Opens, MayFillShut, MayPut, HasPut, shown_body, FromHeld, WaitsFor};

use crate::Place;
use bay::{Bay, Fault};

/// The first byte of an open gate.
const OPEN: u8 = 0xa5;

/// The first byte of a gate that is closed by a write.
const CLOSED: u8 = 0;

/// The largest sector.
const SECTOR_MAX: usize = 4096;

// Reads into a buffer, and gives its first byte.
fn first_byte<B: Bay>(bay: &mut B, slot: u32, at: u64, buf: &mut [u8]) -> Result<u8, Fault>
    requires attached { IsSome ((B.state bay.old).attached slot) }
    requires inside { at + length buf.old ≤ size_of (B.state bay.old) slot }
    requires sectors { IsOnSectors at (length buf.old) }
    requires some { 0 < length buf.old }
    ensures call { Call result slot Same (λ first. Tells (λ image. first ≡ image.byte slot at))
        (cost 1 0) (B.state bay.old) (B.state bay.new) }
    ensures written { (B.state bay.new).written slot ≡ (B.state bay.old).written slot }
{
    bay.read(slot, at, buf)?;
    Ok(buf[0])
}

// Writes, and syncs.
fn write_synced<B: Bay>(bay: &mut B, slot: u32, at: u64, bytes: &[u8]) -> Result<(), Fault>
    requires attached { IsSome ((B.state bay.old).attached slot) }
    requires inside { at + length bytes.now ≤ size_of (B.state bay.old) slot }
    requires sectors { IsOnSectors at (length bytes.now) }
    ensures { Call result slot (ChangesOnly (Range slot at (length bytes.now)))
        (ChangesEachImage (Puts slot at bytes.now)) (cost 2 (length bytes.now))
        (B.state bay.old) (B.state bay.new) }
{
    bay.write(slot, at, bytes)?;
    bay.sync(slot)
}

// A sector with this first byte, and zeros.
fn gate_sector(first: u8) -> [u8; SECTOR_MAX]
    ensures { slice_index result 0 ≡ first }
{
    let mut sector = [0; SECTOR_MAX];
    sector[0] = first;
    sector
}

// Writes the gate's sector.
fn write_gate<B: Bay>(bay: &mut B, slot: u32, place: Place, first: u8) -> Result<(), Fault>
    requires { IsUsablePlace (B.state bay.old) slot place }
    ensures { Call result slot (ChangesOnly (GateOf place slot)) (ChangesEachImage (SetsGate place slot first))
        (cost 2 place.sector) (B.state bay.old) (B.state bay.new) }
{
    let sector = gate_sector(first);
    write_synced(bay, slot, place.gate, &sector[..place.sector as usize])
}

/// Whether the gate is open.
pub fn is_open<B: Bay>(bay: &mut B, slot: u32, place: Place) -> Result<bool, Fault>
    requires { IsUsablePlace (B.state bay.old) slot place }
    ensures call { Call result slot Same (λ found. Tells (λ image. found ≡ is_open_in place slot image))
        (cost 1 0) (B.state bay.old) (B.state bay.new) }
    ensures written { (B.state bay.new).written slot ≡ (B.state bay.old).written slot }
{
    let mut sector = [0; SECTOR_MAX];
    let first = first_byte(bay, slot, place.gate, &mut sector[..place.sector as usize])?;
    Ok(first == OPEN)
}

// Whether the gate is open, in each image that a stop may leave.
fn is_open_synced<B: Bay>(bay: &mut B, slot: u32, place: Place) -> Result<bool, Fault>
    requires { IsUsablePlace (B.state bay.old) slot place }
    ensures { Call result slot Same
        (λ found. Ends (FromHeld (B.state bay.old) slot (FoundGate place slot found)))
        (cost 2 0) (B.state bay.old) (B.state bay.new) }
{
    bay.sync(slot)?;
    is_open(bay, slot, place)
}

/// Closes the gate. One that is closed isn't written, since a write that a stop cuts short may open
/// it.
pub fn close_gate<B: Bay>(bay: &mut B, slot: u32, place: Place) -> Result<(), Fault>
    requires { IsUsablePlace (B.state bay.old) slot place }
    // The gate is written only once each image has on this disk what it holds.
    ensures call { Call result slot (WaitsFor (B.state bay.old) slot (MayClose place slot))
        (ChangesEachImage (FromHeld (B.state bay.old) slot (Closes place slot))) (cost 4 place.sector)
        (B.state bay.old) (B.state bay.new) }
    ensures shut { ForSome (B.state bay.old).holds (λ image. is_open_in place slot image ≡ false)
        → Runs (IsSlot slot) Same (B.state bay.old) (B.state bay.new) }
{
    if !is_open_synced(bay, slot, place)? {
        return Ok(());
    }
    write_gate(bay, slot, place, CLOSED)
}

// Closes a gate that each image has as it is held. The sync before the body comes in either case.
fn close_settled<B: Bay>(bay: &mut B, slot: u32, place: Place) -> Result<(), Fault>
    requires usable { IsUsablePlace (B.state bay.old) slot place }
    requires settled { IsGateSettled place slot (B.state bay.old) }
    ensures { Call result slot (MayClose place slot) (ChangesEachImage (Closes place slot))
        (cost 3 place.sector) (B.state bay.old) (B.state bay.new) }
{
    if is_open(bay, slot, place)? {
        write_gate(bay, slot, place, CLOSED)
    } else {
        bay.sync(slot)
    }
}

/// Writes a part of the body of a closed slot.
pub fn fill_body<B: Bay>(
    bay: &mut B,
    slot: u32,
    place: Place,
    from: u64,
    bytes: &[u8],
) -> Result<(), Fault>
    requires usable { IsUsablePlace (B.state bay.old) slot place }
    requires closed { ForSome (B.state bay.old).holds
        (λ image. shown_body place slot image ≡ None) }
    requires inside { from + length bytes.now ≤ place.len }
    requires sectors { (from % place.sector ≡ 0) × (length bytes.now % place.sector ≡ 0) }
    ensures { Call result slot (ChangesOnly (Range slot (place.body + from) (length bytes.now)))
        (ChangesEachImage (Puts slot (place.body + from) bytes.now)) (cost 2 (length bytes.now))
        (B.state bay.old) (B.state bay.new) }
{
    write_synced(bay, slot, place.body + from, bytes)
}

/// Opens the gate.
pub fn open_gate<B: Bay>(bay: &mut B, slot: u32, place: Place) -> Result<(), Fault>
    requires { IsUsablePlace (B.state bay.old) slot place }
    ensures { Call result slot (MayOpen place slot) (ChangesEachImage (Opens place slot))
        (cost 2 place.sector) (B.state bay.old) (B.state bay.new) }
{
    write_gate(bay, slot, place, OPEN)
}

// Writes the body of a closed slot, and opens the gate.
fn fill_and_open<B: Bay>(bay: &mut B, slot: u32, place: Place, body: &[u8]) -> Result<(), Fault>
    requires usable { IsUsablePlace (B.state bay.old) slot place }
    requires closed { ForSome (B.state bay.old).holds
        (λ image. shown_body place slot image ≡ None) }
    requires whole { length body.now ≡ place.len }
    ensures { Call result slot (MayFillShut place slot body.now) (ChangesEachImage (HasPut place slot body.now))
        (cost 4 (place.sector + place.len)) (B.state bay.old) (B.state bay.new) }
{
    fill_body(bay, slot, place, 0, body)?;
    open_gate(bay, slot, place)
}

/// Puts a body in the place of the one that is there. At each moment the slot shows the old body,
/// nothing or the new one.
pub fn put<B: Bay>(bay: &mut B, slot: u32, place: Place, body: &[u8]) -> Result<(), Fault>
    requires usable { IsUsablePlace (B.state bay.old) slot place }
    requires whole { length body.now ≡ place.len }
    // Nothing is written before each image has on this disk what it holds.
    ensures { Call result slot (WaitsFor (B.state bay.old) slot (MayPut place slot body.now))
        (ChangesEachImage (FromHeld (B.state bay.old) slot (HasPut place slot body.now)))
        (cost 8 (2 * place.sector + place.len)) (B.state bay.old) (B.state bay.new) }
{
    close_gate(bay, slot, place)?;
    fill_and_open(bay, slot, place, body)
}

/// The same where each image has the gate as it is held, as after a sync of the disk. It takes a
/// sync less.
pub fn put_settled<B: Bay>(bay: &mut B, slot: u32, place: Place, body: &[u8]) -> Result<(), Fault>
    requires usable { IsUsablePlace (B.state bay.old) slot place }
    requires settled { IsGateSettled place slot (B.state bay.old) }
    requires whole { length body.now ≡ place.len }
    ensures { Call result slot (MayPut place slot body.now) (ChangesEachImage (HasPut place slot body.now))
        (cost 7 (2 * place.sector + place.len)) (B.state bay.old) (B.state bay.new) }
{
    close_settled(bay, slot, place)?;
    fill_and_open(bay, slot, place, body)
}
