//! ONLINE: disks that were offline come back.
ghost use Rattle.std.specs.Prelude.{◌≡◌, ◌+◌, ◌<◌, ◌≤◌, ◌&&◌, IfErr, IfSome, OnOk, is_some, length, slice_get};
ghost use Rattle.asm_formats.specs.Status.{entry_of, is_offline_entry};
ghost use Rattle.file_extents.specs.group_engine.Mounts.{IsMounted, Takes};
ghost use Rattle.disk_joining.specs.Causes.{ImageCause, OnlineCause, PassBelow, JoinStateCause, StepCause};
ghost use Rattle.disk_joining.specs.Returning.{AreShown, IsShownAs, IsShownFrom, IsSize, is_image_of_entry, is_slot_free, is_present, shows_at, shows_disk, shows_in_free};
ghost use Rattle.disk_joining.specs.Taking.{IsApart, TakesIn};

use crate::attaching::{DiskImage, attach_image};
use crate::recording::{entry_of, write_next};
use crate::slots::{is_held, is_own};
use asm_base::{DiskSet, Mode, NoMemory};
use bay::Bay;
use disk_header::Header;
use disk_images::{Looked, look_at_images};
use file_extents::Mounted;
use refusal_lines::{DiskRef, Refusal};
use status_table::{PstEntry, PstRecord, with_mode};
use std::alloc::Global;

/// Whether the disk, where it is one of these, is Offline. Those of lesser numbers are.
fn check_state(m: &Mounted, disks: DiskSet, number: u8) -> Result<(), Refusal>
    requires lesser { PassBelow m.now.register.value.entries disks is_offline_entry number }
    ensures cause { IfErr result (JoinStateCause m.now disks) }
    ensures passes { OnOk result (PassBelow m.now.register.value.entries disks is_offline_entry
        (number + 1)) }
{
    if !disks.has(number) {
        return Ok(());
    }
    match entry_of(m.status(), number) {
        Some(entry) => match entry.mode {
            Mode::Offline => Ok(()),
            mode => Err(Refusal::DiskState {
                disk: DiskRef::Number(number),
                mode,
            }),
        },
        None => Err(Refusal::NoName),
    }
}

/// Whether all of the disks are Offline. Refused as DiskState by the one of the least number that
/// isn't.
fn check_states(m: &Mounted, disks: DiskSet) -> Result<(), Refusal>
    ensures cause { IfErr result (JoinStateCause m.now disks) }
{
    for number in 0..64u8 {
        match check_state(m, disks, number) {
            Ok(()) => {}
            Err(refusal) => return Err(refusal),
        }
    }
    Ok(())
}

/// Whether a header on an image of so many bytes is that of an entry's disk: a member of the id
/// with its number and birth, and at least its units.
fn is_disk_of(id: u64, entry: PstEntry, header: &Header, size: u64) -> bool
    ensures { result ≡ is_image_of_entry id entry header.now size }
{
    header.id == id
        && (header.number == entry.number
            && (header.birth == entry.birth && entry.units as u64 * header.au_size as u64 <= size))
}

/// The size of the image that was looked at, where it is the disk of an entry.
fn size_of(id: u64, entry: PstEntry, looked: &Looked) -> Option<u64>
    ensures size { IfSome result (IsSize looked.now) }
    ensures shows { is_some result ≡ shows_disk id entry looked.now }
{
    match looked {
        Looked::Absent => None,
        Looked::Unread { .. } => None,
        Looked::Read { size, header } => match header {
            Some(header) => {
                if is_disk_of(id, entry, header, *size) {
                    Some(*size)
                } else {
                    None
                }
            }
            None => None,
        },
    }
}

/// Whether the image in a slot is the disk of an entry.
fn is_still(m: &Mounted, looked: &[Looked], entry: PstEntry, slot: u32) -> bool
    ensures { result ≡ shows_at m.now.register.value.id entry (slice_get looked.now slot) }
{
    match looked.get(slot as usize) {
        Some(image) => size_of(m.status().id, entry, image).is_some(),
        None => false,
    }
}

/// Whether neither this group nor another has the slot.
fn is_free(m: &Mounted, held: &[u32], slot: u32) -> bool
    ensures { result ≡ is_slot_free held.now m.now slot }
{
    !is_own(m, slot) && !is_held(held, slot)
}

/// The image in a slot, where it is the disk of an entry, and neither this group nor another has
/// it.
fn image_in(
    m: &Mounted,
    looked: &Looked,
    held: &[u32],
    entry: PstEntry,
    slot: u32,
) -> Option<DiskImage>
    ensures slot { IfSome result (λ image. image.slot ≡ slot) }
    ensures size { IfSome result (λ image. IsSize looked.now image.size) }
    ensures shows { is_some result ≡ (shows_disk m.now.register.value.id entry looked.now
        && is_slot_free held.now m.now slot) }
{
    match size_of(m.status().id, entry, looked) {
        Some(size) => {
            if is_free(m, held, slot) {
                Some(DiskImage {
                    slot,
                    size,
                    number: entry.number,
                    birth: entry.birth,
                })
            } else {
                None
            }
        }
        None => None,
    }
}

/// The first image that is the disk of an entry, in a slot that neither this group nor another has.
/// These images are those of the slots from one on.
fn image_from(
    m: &Mounted,
    looked: &[Looked],
    held: &[u32],
    entry: PstEntry,
    slot: u32,
) -> Option<DiskImage>
    requires few { slot + length looked.now ≤ 512 }
    ensures shown { IfSome result (IsShownFrom slot looked.now) }
    ensures shows { is_some result ≡ shows_in_free held.now m.now entry looked.now slot }
{
    match looked {
        [] => None,
        [first, rest @ ..] => match image_in(m, first, held, entry, slot) {
            Some(image) => Some(image),
            None => image_from(m, rest, held, entry, slot + 1),
        },
    }
}

/// The first image that is the disk of an entry, in a slot that neither this group nor another has.
fn image_of(m: &Mounted, looked: &[Looked], held: &[u32], entry: PstEntry) -> Option<DiskImage>
    requires few { length looked.now ≤ 512 }
    ensures shown { IfSome result (IsShownAs looked.now) }
    ensures shows { is_some result ≡ shows_in_free held.now m.now entry looked.now 0 }
{
    image_from(m, looked, held, entry, 0)
}

/// Whether the disk of an entry is there: where a disk of its number is attached, its image still
/// shows it, and else one in a slot that no group has does.
fn is_there(m: &Mounted, looked: &[Looked], held: &[u32], entry: PstEntry) -> bool
    requires few { length looked.now ≤ 512 }
    requires small { entry.number < 64 }
    ensures { result ≡ is_present looked.now held.now m.now entry }
{
    match m.slot(entry.number) {
        Some(slot) => is_still(m, looked, entry, slot),
        None => image_of(m, looked, held, entry).is_some(),
    }
}

/// Whether the disk, where it is one of these, is there. Those of lesser numbers are.
fn check_image(
    m: &Mounted,
    looked: &[Looked],
    held: &[u32],
    disks: DiskSet,
    number: u8,
) -> Result<(), Refusal>
    requires few { length looked.now ≤ 512 }
    requires small { number < 64 }
    requires lesser { PassBelow m.now.register.value.entries disks
        (is_present looked.now held.now m.now) number }
    ensures cause { IfErr result (ImageCause looked.now held.now m.now disks) }
    ensures passes { OnOk result (PassBelow m.now.register.value.entries disks
        (is_present looked.now held.now m.now) (number + 1)) }
{
    if !disks.has(number) {
        return Ok(());
    }
    match entry_of(m.status(), number) {
        Some(entry) => {
            if is_there(m, looked, held, entry) {
                Ok(())
            } else {
                Err(Refusal::NoDisk {
                    text: DiskRef::Number(number),
                })
            }
        }
        None => Err(Refusal::NoName),
    }
}

/// Whether all of the disks are there. Refused as NoDisk by the one of the least number that isn't.
fn check_images(m: &Mounted, looked: &[Looked], held: &[u32], disks: DiskSet) -> Result<(), Refusal>
    requires few { length looked.now ≤ 512 }
    ensures cause { IfErr result (ImageCause looked.now held.now m.now disks) }
{
    for number in 0..64u8 {
        match check_image(m, looked, held, disks, number) {
            Ok(()) => {}
            Err(refusal) => return Err(refusal),
        }
    }
    Ok(())
}

/// Attaches the image of the disk, where it is one of these and isn't attached.
fn attach_found<B: Bay>(
    m: &mut Mounted,
    bay: &B,
    looked: &[Looked],
    held: &[u32],
    disks: DiskSet,
    number: u8,
)
    requires few { length looked.now ≤ 512 }
    requires takes { Takes m.old (B.state bay.now) }
    requires apart { IsApart held.now m.old }
    requires shown { AreShown looked.now (B.state bay.now) }
    ensures taken { TakesIn held.now m.old m.new (B.state bay.now) (B.state bay.now) }
    ensures same { m.new.access ≡ m.old.access }
{
    if !disks.has(number) {
        return;
    }
    let Some(entry) = entry_of(m.status(), number) else {
        return;
    };
    if let Some(image) = image_of(m, looked, held, entry) {
        attach_image(m, bay, held, image);
    }
}

/// Attaches the images of the disks that aren't attached.
fn attach_missing<B: Bay>(m: &mut Mounted, bay: &B, looked: &[Looked], held: &[u32], disks: DiskSet)
    requires few { length looked.now ≤ 512 }
    requires takes { Takes m.old (B.state bay.now) }
    requires apart { IsApart held.now m.old }
    requires shown { AreShown looked.now (B.state bay.now) }
    ensures taken { TakesIn held.now m.old m.new (B.state bay.now) (B.state bay.now) }
    ensures same { m.new.access ≡ m.old.access }
{
    for number in 0..64u8 {
        attach_found(m, bay, looked, held, disks, number);
    }
}

/// The record with the disk Syncing. Since when it is offline, and after how long it is dropped,
/// stay.
fn with_syncing(status: &PstRecord, number: u8) -> PstRecord {
    match entry_of(status, number) {
        Some(entry) => with_mode(status, number, Mode::Syncing, entry.since),
        None => status.copy(),
    }
}

/// The record with the disks Syncing.
fn syncing(status: &PstRecord, disks: DiskSet) -> PstRecord {
    let mut next = status.copy();
    for number in 0..64u8 {
        if disks.has(number) {
            next = with_syncing(&next, number);
        }
    }
    next
}

/// The disks, whose images are there, come back.
fn bring_back<B: Bay>(
    m: &mut Mounted,
    alloc: Global,
    bay: &mut B,
    looked: &[Looked],
    held: &[u32],
    disks: DiskSet,
) -> Result<(), Refusal>
    requires few { length looked.now ≤ 512 }
    requires mounted { IsMounted m.old }
    requires takes { Takes m.old (B.state bay.old) }
    requires apart { IsApart held.now m.old }
    requires shown { AreShown looked.now (B.state bay.old) }
    ensures taken { TakesIn held.now m.old m.new (B.state bay.old) (B.state bay.new) }
    ensures mounted { OnOk result (IsMounted m.new) }
    ensures cause { IfErr result (StepCause m.old m.new (B.state bay.old) (B.state bay.new)) }
{
    m.set_flight(None);
    attach_missing(m, bay, looked, held, disks);
    let next = syncing(m.status(), disks);
    write_next(m, alloc, bay, &next)
}

/// Brings disks back that are Offline: they are Syncing from then on. `paths` are the program's
/// images, of which each is looked at, and `held` the slots of the disks of other groups. The move
/// that is on its way is given up once all of the disks are there. An empty set changes nothing.
/// Refusals in their order: Dismounted; DiskState, by the least disk that isn't Offline; NoDisk, by
/// the least disk that isn't there: it is attached, and its image doesn't show it, or it isn't, and
/// no image shows it that neither this group nor another has; Dismounted, where too few disks took
/// the record; NoMemory. NoName comes of a number alone that has no entry.
pub fn online_disks<B: Bay>(
    m: &mut Mounted,
    alloc: Global,
    bay: &mut B,
    paths: &[String],
    held: &[u32],
    disks: DiskSet,
) -> Result<(), Refusal>
    requires few { length paths.now ≤ 512 }
    requires takes { Takes m.old (B.state bay.old) }
    requires apart { IsApart held.now m.old }
    // The group's parts agree, it takes the next call, and the disks of others stay.
    ensures taken { TakesIn held.now m.old m.new (B.state bay.old) (B.state bay.new) }
    ensures mounted { OnOk result (IsMounted m.new) }
    ensures cause { IfErr result (OnlineCause (length paths.now) held.now m.old disks m.new
        (B.state bay.old) (B.state bay.new)) }
{
    match m.takes_calls() {
        Ok(()) => {}
        Err(refusal) => return Err(refusal),
    }
    if disks.bits() == 0 {
        return Ok(());
    }
    match check_states(m, disks) {
        Ok(()) => {}
        Err(refusal) => return Err(refusal),
    }
    let looked = match look_at_images(alloc, bay, paths) {
        Ok(looked) => looked,
        Err(NoMemory) => return Err(Refusal::NoMemory),
    };
    match check_images(m, &looked, held, disks) {
        Ok(()) => bring_back(m, alloc, bay, &looked, held, disks),
        Err(refusal) => Err(refusal),
    }
}
