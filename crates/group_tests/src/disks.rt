//! Disks in memory that fail, images that are attached, and sectors that are read by no call of a
//! group.

ghost use Rattle.std.specs.Prelude.{◌≡◌, ◌≤◌, ◌+◌, IfSome, IsSome, Some};
ghost use Rattle.bay_mem.specs.MemState.{IsQuiet, state_of};
ghost use Rattle.bay.specs.State.{IsOnSectors, KeepsAttached, size_of};
ghost use Rattle.group_engine.specs.Mounts.{Takes};

use crate::answers::Answer;
use bay::Bay;
use bay_mem::MemBay;
use group_engine::Mounted;
use status_register::Member;

/// Each call on a slot fails from now on, or none.
pub fn set_fails(bay: &mut MemBay, slot: u32, fails: bool)
    ensures quiet { IsQuiet (state_of bay.old) (state_of bay.new) }
    ensures attached { KeepsAttached (state_of bay.old) (state_of bay.new) }
{
    bay.set_absent(slot, fails);
}

/// The call of a number from now on fails.
pub fn fail_at(bay: &mut MemBay, call: u64) -> bool
    ensures quiet { IsQuiet (state_of bay.old) (state_of bay.new) }
    ensures attached { KeepsAttached (state_of bay.old) (state_of bay.new) }
{
    let number = bay.calls().saturating_add(call);
    bay.fail_at(number).is_ok()
}

/// Attaches the image of a slot, and gives its bytes.
fn size_in<B: Bay>(m: &Mounted, bay: &mut B, slot: u32) -> Option<u64>
    requires takes { Takes m.now (B.state bay.old) }
    ensures takes { Takes m.now (B.state bay.new) }
    ensures attached { IfSome result (λ size. (B.state bay.new).attached slot ≡ Some size) }
{
    let _group = m;
    match bay.attach(slot, "d") {
        Ok(size) => Some(size),
        Err(_) => None,
    }
}

/// Attaches the image of a slot as a disk of a number and a birth, where there is a place for it.
pub fn attach<B: Bay>(m: &mut Mounted, bay: &mut B, slot: u32, number: u8, birth: u64) -> Answer
    requires takes { Takes m.old (B.state bay.old) }
    ensures takes { Takes m.new (B.state bay.new) }
{
    let member = Member {
        slot,
        number,
        birth,
        sector: 512,
    };
    match size_in(m, bay, slot) {
        Some(size) => give(m, bay, member, size),
        None => Answer::Another,
    }
}

/// Gives the group a disk, whose image is attached and has so many bytes.
#[tactic(auto, using(crate::proofs::Taking::has_image))]
fn give<B: Bay>(m: &mut Mounted, bay: &B, member: Member, size: u64) -> Answer
    requires takes { Takes m.old (B.state bay.now) }
    requires attached { (B.state bay.now).attached member.slot ≡ Some size }
    requires sector { member.sector ≡ 512 }
    ensures takes { Takes m.new (B.state bay.now) }
{
    if size < 40_960 || !m.has_place(member) {
        return Answer::MayNot;
    }
    m.attach(bay, member, size);
    Answer::Done
}

/// The byte that a sector of an attached slot has.
fn byte_at<B: Bay>(m: &Mounted, bay: &mut B, slot: u32, at: u64) -> Answer
    requires takes { Takes m.now (B.state bay.old) }
    requires attached { IsSome ((B.state bay.old).attached slot) }
    requires inside { at + 512 ≤ size_of (B.state bay.old) slot }
    requires sectors { IsOnSectors at 512 }
    ensures takes { Takes m.now (B.state bay.new) }
{
    let _group = m;
    let mut bytes = [0u8; 512];
    match bay.read(slot, at, &mut bytes) {
        Ok(()) => all_of(&bytes),
        Err(_) => Answer::Another,
    }
}

/// The byte that a sector of a slot's unit has, by no call of the group.
#[tactic(auto, using(crate::proofs::Taking::is_there, crate::proofs::Taking::is_inside, crate::proofs::Taking::on_sector))]
pub fn sector<B: Bay>(m: &Mounted, bay: &mut B, slot: u32, unit: u64, inner: u64) -> Answer
    requires takes { Takes m.now (B.state bay.old) }
    ensures takes { Takes m.now (B.state bay.new) }
{
    let Some(size) = size_in(m, bay, slot) else {
        return Answer::Another;
    };
    let at = byte_of(unit, inner);
    if at % 512 != 0 || at > size || size - at < 512 {
        return Answer::MayNot;
    }
    byte_at(m, bay, slot, at)
}

/// Where an inner byte of a unit of 4K is.
fn byte_of(unit: u64, inner: u64) -> u64 {
    unit.saturating_mul(4096).saturating_add(inner)
}

/// The byte that each of the bytes is.
pub fn all_of(bytes: &[u8]) -> Answer {
    let Some(first) = bytes.first() else {
        return Answer::Another;
    };
    for byte in bytes {
        if byte != first {
            return Answer::Another;
        }
    }
    Answer::Bytes(*first)
}
