//! Which images the disks of a creation are, and whether these may be taken.

ghost use Rattle.std.specs.Prelude.{◌≡◌, ◌≤◌, ◌+◌, ◌++◌, [], IfErr, IfOk, None, OnOk, length, map};
ghost use Rattle.std.specs.List.{list_any};
ghost use Rattle.std.specs.String.{string_bytes};
ghost use Rattle.refusal_lines.specs.Refusals.{meaning_of};
ghost use Rattle.new_groups.specs.Causes.{IsThisRefusal, creation_disk, creation_disks, first_refused, is_member_taken, is_same_disk, is_place_taken, is_unread, missing_refusal, place_at_path, place_in_slot, places_at, shown_by_header, slot_from, taken_refusal};

use crate::asked::{Known, Taken};
use crate::planned::Terms;
use asm_base::NoMemory;
use disk_header::Header;
use disk_images::Looked;
use mounted_groups::{disk_taken, is_held, no_disk, write_fault};
use new_disks::PlannedDisk;
use refusal_lines::Refusal;
use std::alloc::Global;

/// What the header of an image says.
#[derive(Clone, Copy, Debug)]
pub enum Shown {
    /// It couldn't be read.
    Unread,
    /// It is a disk of no group.
    Free,
    /// It is this disk of a group.
    Member(Taken),
}

/// The image of a disk: its slot, and its size in bytes.
#[derive(Clone, Copy, Debug)]
pub struct Place {
    pub slot: u32,
    pub size: u64,
    pub shown: Shown,
}

/// The first slot, from one on, of an image with the path.
fn slot_from(paths: &[String], path: &[u8], slot: u32) -> Option<u32>
    requires few { slot + length paths.now ≤ 512 }
    ensures { result ≡ slot_from slot (map string_bytes paths.now) path.now }
{
    let [first, rest @ ..] = paths else {
        return None;
    };
    if first.as_bytes() == path {
        return Some(slot);
    }
    slot_from(rest, path, slot + 1)
}

/// What a header that could be read shows.
fn shown_by(header: &Option<Header>) -> Shown
    ensures { result ≡ shown_by_header header.now }
{
    match header {
        Some(header) => Shown::Member(Taken {
            id: header.id,
            number: header.number,
            birth: header.birth,
        }),
        None => Shown::Free,
    }
}

/// The image in a slot, where it could be had.
fn place_in(looked: &Looked, slot: u32) -> Option<Place>
    ensures { result ≡ place_in_slot looked.now slot }
{
    match looked {
        Looked::Absent => None,
        Looked::Unread { size } => Some(Place {
            slot,
            size: *size,
            shown: Shown::Unread,
        }),
        Looked::Read { size, header } => Some(Place {
            slot,
            size: *size,
            shown: shown_by(header),
        }),
    }
}

/// The image at a path, where it could be had.
fn place_at(paths: &[String], looked: &[Looked], path: &[u8]) -> Option<Place>
    requires few { length paths.now ≤ 512 }
    ensures { result ≡ place_at_path (map string_bytes paths.now) looked.now path.now }
{
    match slot_from(paths, path, 0) {
        Some(slot) => match looked.get(slot as usize) {
            Some(shown) => place_in(shown, slot),
            None => None,
        },
        None => None,
    }
}

/// Puts the images of the disks behind others.
fn put_places(
    alloc: Global,
    paths: &[String],
    looked: &[Looked],
    disks: &[PlannedDisk],
    places: &mut Vec<Place>,
) -> Result<(), Refusal>
    requires few { length paths.now ≤ 512 }
    ensures places { OnOk result (places.new.items
        ≡ places.old.items ++ places_at (map string_bytes paths.now) looked.now disks.now) }
    ensures all { OnOk result (first_refused
        (missing_refusal (map string_bytes paths.now) looked.now) disks.now ≡ None) }
    ensures refused { IfErr result (λ refusal. IsThisRefusal
        (first_refused (missing_refusal (map string_bytes paths.now) looked.now) disks.now)
        (meaning_of (λ _. []) refusal)) }
{
    let [disk, rest @ ..] = disks else {
        return Ok(());
    };
    let path = disk.path.as_slice();
    let Some(place) = place_at(paths, looked, path) else {
        return Err(no_disk(alloc, path));
    };
    if places.push(place).is_err() {
        return Err(Refusal::NoMemory);
    }
    put_places(alloc, paths, looked, rest, places)
}

/// The images of the disks, in their order. Refused as NoDisk by the first that can't be had.
pub fn find_places(
    alloc: Global,
    paths: &[String],
    looked: &[Looked],
    disks: &[PlannedDisk],
) -> Result<Vec<Place>, Refusal>
    requires few { length paths.now ≤ 512 }
    ensures places { IfOk result (λ places. places.items
        ≡ places_at (map string_bytes paths.now) looked.now disks.now) }
    ensures all { OnOk result (first_refused
        (missing_refusal (map string_bytes paths.now) looked.now) disks.now ≡ None) }
    ensures refused { IfErr result (λ refusal. IsThisRefusal
        (first_refused (missing_refusal (map string_bytes paths.now) looked.now) disks.now)
        (meaning_of (λ _. []) refusal)) }
{
    let mut places = Vec::new(alloc);
    match put_places(alloc, paths, looked, disks, &mut places) {
        Ok(()) => Ok(places),
        Err(refusal) => Err(refusal),
    }
}

/// Whether both are one disk.
fn is_same_disk(a: Taken, b: Taken) -> bool
    ensures { result ≡ is_same_disk a b }
{
    a.id == b.id && (a.number == b.number && a.birth == b.birth)
}

/// Whether a disk is one of these.
fn is_of_session(taken: &[Taken], member: Taken) -> bool
    ensures { result ≡ list_any (λ t. is_same_disk t member) taken.now }
{
    match taken {
        [] => false,
        [first, rest @ ..] => is_same_disk(*first, member) || is_of_session(rest, member),
    }
}

/// Whether the header shows a disk that may not be taken: FORCE takes those that aren't disks of
/// groups in the session.
fn is_member_taken(taken: &[Taken], force: bool, shown: Shown) -> bool
    ensures { result ≡ is_member_taken taken.now force shown }
{
    match shown {
        Shown::Unread => false,
        Shown::Free => false,
        Shown::Member(member) => !force || is_of_session(taken, member),
    }
}

/// Whether an image may not be given to a new group.
fn is_taken(known: &Known, force: bool, place: Place) -> bool
    ensures { result ≡ is_place_taken known.now force place }
{
    is_held(&known.held, place.slot) || is_member_taken(&known.taken, force, place.shown)
}

/// Whether the header couldn't be read.
fn is_unread(shown: Shown) -> bool
    ensures { result ≡ is_unread shown }
{
    matches!(shown, Shown::Unread)
}

/// Whether the disk may be given to a new group. A header that couldn't be read comes first: by it
/// alone can it be told whether the disk is taken.
fn check_free(
    alloc: Global,
    known: &Known,
    disk: &PlannedDisk,
    terms: Terms,
    place: Place,
) -> Result<(), Refusal>
    ensures free { OnOk result (taken_refusal known.now (creation_disk disk.now terms place)
        ≡ None) }
    ensures refused { IfErr result (λ refusal. IsThisRefusal
        (taken_refusal known.now (creation_disk disk.now terms place))
        (meaning_of (λ _. []) refusal)) }
{
    if is_unread(place.shown) {
        return Err(write_fault(alloc, &disk.name));
    }
    if is_taken(known, terms.force, place) {
        Err(disk_taken(alloc, disk.path.as_slice()))
    } else {
        Ok(())
    }
}

/// Whether the disks may be given to a new group. Refused by the first that may not: DiskTaken, or
/// WriteFault where its header couldn't be read.
pub fn check_all_free(
    alloc: Global,
    known: &Known,
    disks: &[PlannedDisk],
    terms: &[Terms],
    places: &[Place],
) -> Result<(), Refusal>
    ensures free { OnOk result (first_refused (taken_refusal known.now)
        (creation_disks disks.now terms.now places.now) ≡ None) }
    ensures refused { IfErr result (λ refusal. IsThisRefusal
        (first_refused (taken_refusal known.now) (creation_disks disks.now terms.now places.now))
        (meaning_of (λ _. []) refusal)) }
{
    let [disk, disks @ ..] = disks else {
        return Ok(());
    };
    let [first, terms @ ..] = terms else {
        return Ok(());
    };
    let [place, places @ ..] = places else {
        return Ok(());
    };
    match check_free(alloc, known, disk, *first, *place) {
        Ok(()) => check_all_free(alloc, known, disks, terms, places),
        Err(refusal) => Err(refusal),
    }
}

/// Puts the ids in the headers that were read behind others.
pub fn put_ids(looked: &[Looked], ids: &mut Vec<u64>) -> Result<(), NoMemory> {
    for image in looked {
        if let Looked::Read {
            header: Some(header),
            ..
        } = image
        {
            ids.push(header.id).map_err(|_| NoMemory)?;
        }
    }
    Ok(())
}
