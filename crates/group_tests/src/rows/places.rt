//! Copies of one piece at places of three disks, by no group: each is a sector of a disk whose
//! number is greater by five than its slot.

ghost use Rattle.std.specs.Prelude.{◌≡◌, ◌<◌, Some};
ghost use Rattle.std.specs.Bool.{OnTrue};
ghost use Rattle.bay.specs.State.{AttachesOnly};
ghost use Rattle.bay_mem.specs.MemState.{state_of};
ghost use Rattle.group_tests.specs.Places.{AreThree, IsPlaceOn};

use crate::answers::Answer;
use crate::disks::{all_of, set_fails};
use crate::steps::Wrong;
use bay::{Bay, Fault};
use bay_mem::MemBay;
use file_extents::{Place, read_copies, write_copies};
use std::alloc::Global;

/// What is done with the copies on the slots of a set.
#[derive(Clone, Copy)]
enum Step {
    /// They are written with a byte. The set of the disks that failed.
    Write(u8, u8, u64),
    /// They are read.
    Read(u8, Answer),
    /// Each call on a slot fails from now on, or none.
    Fails(u32, bool),
}

/// Writes go past faults, reads to the next place. Where no place reads, the read fails.
const STEPS: [Step; 17] = [
    Step::Write(0b111, 61, 0),
    Step::Read(0b1, Answer::Bytes(61)),
    Step::Read(0b10, Answer::Bytes(61)),
    Step::Read(0b100, Answer::Bytes(61)),
    Step::Fails(1, true),
    Step::Write(0b111, 62, 0b100_0000),
    Step::Read(0b111, Answer::Bytes(62)),
    Step::Read(0b10, Answer::Nowhere),
    Step::Read(0b110, Answer::Bytes(62)),
    Step::Fails(1, false),
    Step::Read(0b10, Answer::Bytes(61)),
    Step::Fails(0, true),
    Step::Read(0b11, Answer::Bytes(61)),
    Step::Fails(2, true),
    Step::Write(0b101, 63, 0b1010_0000),
    Step::Write(0, 64, 0),
    Step::Read(0, Answer::Nowhere),
];

/// The place on the disk in a slot, where that is in the set.
fn place(set: u8, slot: u32) -> Option<Place>
    requires { slot < 3 }
    ensures { IsPlaceOn slot result }
{
    if set >> slot & 1 == 1 {
        Some(Place {
            disk: slot as u8 + 5,
            slot,
            at: 1024,
        })
    } else {
        None
    }
}

#[tactic(auto, using(crate::proofs::ThreePlaces::are_usable, crate::proofs::ThreePlaces::are_apart, crate::proofs::ThreePlaces::three_kept))]
fn write<B: Bay>(bay: &mut B, set: u8, byte: u8) -> u64
    requires { AreThree (B.state bay.old) }
    ensures { AreThree (B.state bay.new) }
{
    let places = [place(set, 0), place(set, 1), place(set, 2)];
    write_copies(bay, &places, &[byte; 512]).bits()
}

#[tactic(auto, using(crate::proofs::ThreePlaces::are_usable, crate::proofs::ThreePlaces::three_kept))]
fn read<B: Bay>(bay: &mut B, set: u8) -> Answer
    requires { AreThree (B.state bay.old) }
    ensures { AreThree (B.state bay.new) }
{
    let places = [place(set, 0), place(set, 1), place(set, 2)];
    let mut bytes = [0u8; 512];
    match read_copies(bay, &places, &mut bytes) {
        Ok(()) => all_of(&bytes),
        Err(Fault) => Answer::Nowhere,
    }
}

#[tactic(auto, using(crate::proofs::ThreePlaces::three_kept))]
fn is_right(bay: &mut MemBay, step: Step) -> bool
    requires { AreThree (state_of bay.old) }
    ensures { AreThree (state_of bay.new) }
{
    match step {
        Step::Write(set, byte, failed) => write(bay, set, byte) == failed,
        Step::Read(set, answer) => read(bay, set) == answer,
        Step::Fails(slot, fails) => {
            set_fails(bay, slot, fails);
            true
        }
    }
}

/// Which step is the first that isn't right.
fn wrong_in(bay: &mut MemBay) -> Option<usize>
    requires { AreThree (state_of bay.old) }
{
    for (place, step) in STEPS.iter().enumerate() {
        if !is_right(bay, *step) {
            return Some(place);
        }
    }
    None
}

/// Attaches the disk in a slot. Whether it has 4,096 bytes.
fn is_there<B: Bay>(bay: &mut B, slot: u32) -> bool
    ensures there { OnTrue result ((B.state bay.new).attached slot ≡ Some 4096) }
    ensures others { AttachesOnly slot (B.state bay.old) (B.state bay.new) }
{
    match bay.attach(slot, "d") {
        Ok(size) => size == 4096,
        Err(_) => false,
    }
}

/// Attaches three disks.
#[tactic(auto, using(crate::proofs::ThreePlaces::three_attached))]
fn are_there<B: Bay>(bay: &mut B) -> bool
    ensures { OnTrue result (AreThree (B.state bay.new)) }
{
    is_there(bay, 0) && is_there(bay, 1) && is_there(bay, 2)
}

/// Plays the steps on these disks.
fn play_on(bay: &mut MemBay) -> Result<(), Wrong> {
    if !are_there(bay) {
        return Err(("disks of a piece", 0));
    }
    match wrong_in(bay) {
        Some(place) => Err(("copies of a piece", place)),
        None => Ok(()),
    }
}

/// Plays the steps on three new disks.
pub fn play_places(alloc: Global) -> Result<(), Wrong> {
    match MemBay::new(alloc, &[Some(4096), Some(4096), Some(4096)]) {
        Ok(mut bay) => {
            let played = play_on(&mut bay);
            drop(bay);
            played
        }
        Err(_) => Err(("disks of a piece", 0)),
    }
}
