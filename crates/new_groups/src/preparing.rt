//! All that comes before the first write.

ghost use Rattle.std.specs.Prelude.{◌≡◌, ◌≤◌, ◌<◌, ◌*◌, [], All, IfErr, IfOk, IsTrue, None, OnOk, length, map};
ghost use Rattle.std.specs.String.{string_bytes};
ghost use Rattle.refusal_lines.specs.Refusals.{meaning_of};
ghost use Rattle.asm_group.specs.Refusal.{NoMemory as NoMemoryLeft};
ghost use Rattle.asm_group.specs.Shape.{is_shape};
ghost use Rattle.bay.specs.Counts.{last_count};
ghost use Rattle.directory_store.specs.Contents.{ArePutItems};
ghost use Rattle.disk_images.specs.Looks.{AreLooked, Looks};
ghost use Rattle.new_groups.specs.Causes.{IsThisRefusal, clash_refusal, first_refusal, groups_refusal, image_refusals, look_refusal, places_at, shape_refusals};
ghost use Rattle.new_groups.specs.Drafts.{HasAgreeingParts, AreFreeDisks, AreLists};
ghost use Rattle.new_groups.specs.Preparing.{IsPrepareRefusal, IsPrepared};

use crate::asked::{GroupAsked, Known};
use crate::attributes::creation_of;
use crate::checking::may_form;
use crate::draft::{Draft, make_draft};
use crate::lists::{Lists, make_lists};
use crate::places::{Place, check_all_free, find_places, put_ids};
use crate::planned::{Planned, planned_disks};
use crate::sizes::all_units;
use asm_base::{GroupKind, NoMemory, Shape};
use bay::Bay;
use disk_images::{Looked, look_at_images};
use mounted_groups::Creation;
use new_disks::{PlannedDisk, is_name_taken, needed_groups, regular_groups};
use refusal_lines::Refusal;
use std::alloc::Global;

/// A group that is ready to be written.
#[derive(Drop)]
pub struct Ready {
    pub draft: Draft,
    pub lists: Lists,
}

/// The id of a new group: at least the floor, and above each of these as long as ids don't run out.
fn next_id(floor: u64, ids: &[u64]) -> u64
    ensures floor { floor ≤ result }
    ensures above { result < last_count → All (λ other. other < result) ids.now }
{
    let mut next = floor;
    for id in ids {
        next = next.max(id.saturating_add(1));
    }
    next
}

/// Whether names, paths and failure groups don't clash.
fn check_names(disks: &[PlannedDisk]) -> Result<(), Refusal>
    ensures none { OnOk result (clash_refusal disks.now ≡ None) }
    ensures refused { IfErr result (λ refusal. IsThisRefusal (clash_refusal disks.now)
        (meaning_of (λ _. []) refusal)) }
{
    if is_name_taken(&[], disks) {
        Err(Refusal::NameTaken)
    } else {
        Ok(())
    }
}

/// Whether there are as many regular failure groups as the kind needs.
fn check_groups(kind: GroupKind, disks: &[PlannedDisk]) -> Result<(), Refusal>
    ensures none { OnOk result (groups_refusal kind disks.now ≡ None) }
    ensures refused { IfErr result (λ refusal. IsThisRefusal (groups_refusal kind disks.now)
        (meaning_of (λ _. []) refusal)) }
{
    let need = needed_groups(kind);
    let have = regular_groups(disks);
    if have < need {
        Err(Refusal::TooFewGroups {
            need: need as u64,
            have: have as u64,
        })
    } else {
        Ok(())
    }
}

/// The images of the disks, which may be given to a new group.
fn free_places(
    alloc: Global,
    paths: &[String],
    known: &Known,
    looked: &[Looked],
    planned: &Planned,
) -> Result<Vec<Place>, Refusal>
    requires few { length paths.now ≤ 512 }
    ensures places { IfOk result (λ places. places.items
        ≡ places_at (map string_bytes paths.now) looked.now planned.now.disks.items) }
    ensures none { OnOk result (first_refusal
        (image_refusals known.now (map string_bytes paths.now) looked.now planned.now.disks.items
        planned.now.terms.items) ≡ None) }
    ensures refused { IfErr result (λ refusal. IsThisRefusal
        (first_refusal (image_refusals known.now (map string_bytes paths.now) looked.now
        planned.now.disks.items planned.now.terms.items)) (meaning_of (λ _. []) refusal)) }
{
    let places = match find_places(alloc, paths, looked, &planned.disks) {
        Ok(places) => places,
        Err(refusal) => return Err(refusal),
    };
    match check_all_free(alloc, known, &planned.disks, &planned.terms, &places) {
        Ok(()) => Ok(places),
        Err(refusal) => Err(refusal),
    }
}

/// The units of the disks, which make a group of the kind. Refused as NameTaken, TooSmall,
/// TooFewGroups in this order.
fn right_units(
    alloc: Global,
    shape: &Shape,
    planned: &Planned,
    places: &[Place],
) -> Result<Vec<u32>, Refusal>
    requires shape { IsTrue (is_shape shape.now) }
    ensures refused { IfErr result (λ refusal. IsThisRefusal
        (first_refusal (shape_refusals shape.now planned.now.disks.items planned.now.terms.items
        places.now)) (meaning_of (λ _. []) refusal)) }
{
    match check_names(&planned.disks) {
        Ok(()) => {}
        Err(refusal) => return Err(refusal),
    }
    let mut units = Vec::new(alloc);
    match all_units(
        alloc,
        shape,
        &planned.disks,
        &planned.terms,
        places,
        &mut units,
    ) {
        Ok(()) => {}
        Err(refusal) => return Err(refusal),
    }
    match check_groups(shape.kind, &planned.disks) {
        Ok(()) => Ok(units),
        Err(refusal) => Err(refusal),
    }
}

/// The lists of a draft's disks.
fn lists_of(alloc: Global, draft: &Draft) -> Result<Lists, NoMemory>
    ensures { IfOk result (AreLists draft.now) }
{
    let disks = draft.disks.as_slice();
    make_lists(alloc, disks, draft.status.holders, draft.status.dirs)
}

/// The draft of the group of this id, which agrees with what was looked at.
fn ready_draft(
    alloc: Global,
    draft: Draft,
    id: u64,
    looked: &[Looked],
    held: &[u32],
) -> Result<Ready, Refusal>
    requires items { ArePutItems draft.first.put }
    ensures prepared { IfOk result (IsPrepared looked.now held.now draft.name id) }
    ensures refused { IfErr result (λ refusal. meaning_of (λ _. []) refusal ≡ NoMemoryLeft) }
{
    if draft.status.id != id || !may_form(&draft, looked, held) {
        return Err(Refusal::NoMemory);
    }
    let lists = match lists_of(alloc, &draft) {
        Ok(lists) => lists,
        Err(NoMemory) => return Err(Refusal::NoMemory),
    };
    Ok(Ready { draft, lists })
}

/// What the group is made of, once the images were looked at.
fn planned_group(
    alloc: Global,
    paths: &[String],
    asked: &GroupAsked,
    known: &Known,
    creation: &Creation,
    planned: &Planned,
    looked: &[Looked],
    id: u64,
) -> Result<Ready, Refusal>
    requires few { length paths.now ≤ 512 }
    requires shape { IsTrue (is_shape creation.now.shape) }
    ensures prepared { IfOk result (IsPrepared looked.now known.now.held.items asked.now.name id) }
    ensures refused { IfErr result (λ refusal. IsThisRefusal
        (look_refusal known.now creation.now.shape (map string_bytes paths.now) looked.now
        planned.now.disks.items planned.now.terms.items) (meaning_of (λ _. []) refusal)) }
{
    let places = match free_places(alloc, paths, known, looked, planned) {
        Ok(places) => places,
        Err(refusal) => return Err(refusal),
    };
    let units = match right_units(alloc, &creation.shape, planned, &places) {
        Ok(units) => units,
        Err(refusal) => return Err(refusal),
    };
    match make_draft(
        alloc,
        &asked.name,
        creation,
        id,
        &planned.disks,
        &places,
        &units,
    ) {
        Ok(Some(draft)) => ready_draft(alloc, draft, id, looked, &known.held),
        Ok(None) => Err(Refusal::NoMemory),
        Err(NoMemory) => Err(Refusal::NoMemory),
    }
}

/// Looks at all images, and puts the ids in their headers into `ids`.
fn look<B: Bay>(
    alloc: Global,
    bay: &mut B,
    paths: &[String],
    ids: &mut Vec<u64>,
) -> Result<Vec<Looked>, NoMemory>
    requires few { length paths.now ≤ 512 }
    ensures looks { Looks (λ slot. slot < length paths.now) (4 * length paths.now) (B.state bay.old)
        (B.state bay.new) }
    ensures count { IfOk result (λ found. length found.items ≡ length paths.now) }
    ensures each { IfOk result (λ found. AreLooked found.items (B.state bay.old)
        (B.state bay.new)) }
{
    let looked = look_at_images(alloc, bay, paths)?;
    put_ids(&looked, ids)?;
    Ok(looked)
}

/// Does all that comes before the first write. The refusals in order: BadAttribute, TooMany,
/// NoDisk, DiskTaken or WriteFault, NameTaken, TooSmall, TooFewGroups.
pub fn prepare<B: Bay>(
    alloc: Global,
    bay: &mut B,
    paths: &[String],
    asked: &GroupAsked,
    known: &Known,
    ids: &mut Vec<u64>,
) -> Result<Ready, Refusal>
    requires few { length paths.now ≤ 512 }
    ensures looks { Looks (λ slot. slot < length paths.now) (4 * length paths.now) (B.state bay.old)
        (B.state bay.new) }
    ensures name { IfOk result (λ ready. ready.draft.name ≡ asked.now.name) }
    ensures agrees { IfOk result (λ ready. HasAgreeingParts ready.draft) }
    ensures lists { IfOk result (λ ready. AreLists ready.draft ready.lists) }
    ensures free { IfOk result (λ ready. AreFreeDisks (length paths.now) known.now.held.items
        ready.draft.disks.items (B.state bay.new)) }
    ensures floor { IfOk result (λ ready. known.now.floor ≤ ready.draft.status.id) }
    ensures above { IfOk result (λ ready. ready.draft.status.id < last_count
        → All (λ other. other < ready.draft.status.id) ids.new.items) }
    ensures cause { IfErr result (λ refusal. IsPrepareRefusal (map string_bytes paths.now) asked.now
        known.now (meaning_of (λ _. []) refusal) (B.state bay.old) (B.state bay.new)) }
{
    let creation = match creation_of(alloc, asked.kind, asked.attributes.as_slice()) {
        Ok(creation) => creation,
        Err(refusal) => return Err(refusal),
    };
    let planned = match planned_disks(alloc, &asked.name, asked.groups.as_slice()) {
        Ok(planned) => planned,
        Err(refusal) => return Err(refusal),
    };
    let looked = match look(alloc, bay, paths, ids) {
        Ok(looked) => looked,
        Err(NoMemory) => return Err(Refusal::NoMemory),
    };
    let id = next_id(known.floor, ids);
    let ready = planned_group(alloc, paths, asked, known, &creation, &planned, &looked, id);
    drop(looked);
    drop(planned);
    drop(creation);
    ready
}
