//! Whether the images of new disks may be taken.
ghost use Rattle.std.specs.Prelude.{◌≡◌, ◌≤◌, ◌++◌, [], IfErr, IfOk, IsTrue, None, OnOk, length, map};
ghost use Rattle.std.specs.String.{string_bytes};
ghost use Rattle.refusal_lines.specs.Refusals.{meaning_of};
ghost use Rattle.asm_group.specs.Shape.{is_shape};
ghost use Rattle.new_groups.specs.Causes.{IsThisRefusal, creation_disks, first_refusal, first_refused, image_refusals, places_at, small_refusal};
ghost use Rattle.disk_joining.specs.AddCauses.{add_refusal, free_blocks, full_refusal, group_refusals};
ghost use Rattle.disk_joining.specs.Asking.{IsKnownWith, own_disks, own_slots};

use crate::asked::Asked;
use crate::naming::check_names;
use asm_base::NoMemory;
use disk_images::Looked;
use file_extents::{Attached, Mounted};
use new_groups::{Known, Place, PlannedDisk, Taken, all_units, check_all_free, find_places};
use refusal_lines::Refusal;
use status_table::PstEntry;
use std::alloc::Global;

/// Where the new disks are, and how many units each has.
#[derive(Drop)]
pub struct Fitting {
    pub places: Vec<Place>,
    pub units: Vec<u32>,
}

/// Puts the slots of the attached disks behind others.
fn put_slots(disks: &[Option<Attached>], held: &mut Vec<u32>) -> Result<(), NoMemory>
    ensures { OnOk result (held.new.items ≡ held.old.items ++ own_slots disks.now) }
{
    let [place, rest @ ..] = disks else {
        return Ok(());
    };
    match *place {
        Some(attached) => {
            held.push(attached.slot).map_err(|_| NoMemory)?;
            put_slots(rest, held)
        }
        None => put_slots(rest, held),
    }
}

/// Puts the disks of a group's entries behind others.
fn put_entries(id: u64, entries: &[PstEntry], taken: &mut Vec<Taken>) -> Result<(), NoMemory>
    ensures { OnOk result (taken.new.items ≡ taken.old.items ++ own_disks id entries.now) }
{
    let [entry, rest @ ..] = entries else {
        return Ok(());
    };
    let disk = Taken {
        id,
        number: entry.number,
        birth: entry.birth,
    };
    taken.push(disk).map_err(|_| NoMemory)?;
    put_entries(id, rest, taken)
}

/// What is known of the groups of the session, this one among them.
pub fn known_with(alloc: Global, m: &Mounted, known: &Known) -> Result<Known, NoMemory>
    ensures { IfOk result (λ all. IsKnownWith m.now known.now all) }
{
    let mut held = Vec::from_slice(alloc, &known.held).map_err(|_| NoMemory)?;
    let mut taken = Vec::from_slice(alloc, &known.taken).map_err(|_| NoMemory)?;
    put_slots(m.disks(), &mut held)?;
    put_entries(m.status().id, m.status().entries(), &mut taken)?;
    Ok(Known {
        floor: known.floor,
        held,
        taken,
    })
}

/// The units of the disks. Refused as TooSmall.
fn units_of(
    alloc: Global,
    m: &Mounted,
    asked: &Asked,
    places: &[Place],
) -> Result<Vec<u32>, Refusal>
    requires shape { IsTrue (is_shape m.now.catalog.shape) }
    ensures fit { OnOk result (first_refused (small_refusal m.now.catalog.shape)
        (creation_disks asked.now.disks.items asked.now.terms.items places.now) ≡ None) }
    ensures refused { IfErr result (λ refusal. IsThisRefusal
        (first_refused (small_refusal m.now.catalog.shape)
        (creation_disks asked.now.disks.items asked.now.terms.items places.now))
        (meaning_of (λ _. []) refusal)) }
{
    let shape = m.catalog().shape();
    let mut units = Vec::new(alloc);
    match all_units(
        alloc,
        &shape,
        &asked.disks,
        &asked.terms,
        places,
        &mut units,
    ) {
        Ok(()) => Ok(units),
        Err(refusal) => Err(refusal),
    }
}

/// Whether the directories have a block for each new disk. Refused as DirectoryFull.
fn check_blocks(m: &Mounted, disks: &[PlannedDisk]) -> Result<(), Refusal>
    ensures none { OnOk result (full_refusal (length disks.now) (free_blocks m.now.catalog)
        ≡ None) }
    ensures refused { IfErr result (λ refusal. IsThisRefusal
        (full_refusal (length disks.now) (free_blocks m.now.catalog))
        (meaning_of (λ _. []) refusal)) }
{
    let need = disks.len() as u64;
    let free = m.catalog().free_blocks();
    if free < need {
        Err(Refusal::DirectoryFull { need, free })
    } else {
        Ok(())
    }
}

/// The images of the disks, which may be given to the group. Refused as NoDisk, then as DiskTaken,
/// or WriteFault where the header couldn't be read.
fn free_places(
    alloc: Global,
    paths: &[String],
    all: &Known,
    asked: &Asked,
    looked: &[Looked],
) -> Result<Vec<Place>, Refusal>
    requires few { length paths.now ≤ 512 }
    ensures places { IfOk result (λ places. places.items
        ≡ places_at (map string_bytes paths.now) looked.now asked.now.disks.items) }
    ensures none { OnOk result (first_refusal
        (image_refusals all.now (map string_bytes paths.now) looked.now asked.now.disks.items
        asked.now.terms.items) ≡ None) }
    ensures refused { IfErr result (λ refusal. IsThisRefusal
        (first_refusal (image_refusals all.now (map string_bytes paths.now) looked.now
        asked.now.disks.items asked.now.terms.items)) (meaning_of (λ _. []) refusal)) }
{
    let places = match find_places(alloc, paths, looked, &asked.disks) {
        Ok(places) => places,
        Err(refusal) => return Err(refusal),
    };
    match check_all_free(alloc, all, &asked.disks, &asked.terms, &places) {
        Ok(()) => Ok(places),
        Err(refusal) => Err(refusal),
    }
}

/// The units of the disks, which the group has names and blocks for. Refused as NameTaken,
/// TooSmall, DirectoryFull in this order.
fn right_units(
    alloc: Global,
    m: &Mounted,
    asked: &Asked,
    places: &[Place],
) -> Result<Vec<u32>, Refusal>
    requires shape { IsTrue (is_shape m.now.catalog.shape) }
    ensures refused { IfErr result (λ refusal. IsThisRefusal
        (first_refusal (group_refusals m.now asked.now.disks.items asked.now.terms.items
        places.now)) (meaning_of (λ _. []) refusal)) }
{
    match check_names(alloc, m, &asked.disks) {
        Ok(()) => {}
        Err(refusal) => return Err(refusal),
    }
    let units = match units_of(alloc, m, asked, places) {
        Ok(units) => units,
        Err(refusal) => return Err(refusal),
    };
    match check_blocks(m, &asked.disks) {
        Ok(()) => Ok(units),
        Err(refusal) => Err(refusal),
    }
}

/// Where the disks are and how many units they have. The refusals in order: NoDisk, DiskTaken or
/// WriteFault, NameTaken, TooSmall, DirectoryFull. `all` is what is known of all groups of the
/// session, this one among them.
pub fn fit_disks(
    alloc: Global,
    m: &Mounted,
    paths: &[String],
    all: &Known,
    asked: &Asked,
    looked: &[Looked],
) -> Result<Fitting, Refusal>
    requires few { length paths.now ≤ 512 }
    requires shape { IsTrue (is_shape m.now.catalog.shape) }
    ensures refused { IfErr result (λ refusal. IsThisRefusal
        (add_refusal all.now m.now (map string_bytes paths.now) looked.now asked.now)
        (meaning_of (λ _. []) refusal)) }
{
    let places = match free_places(alloc, paths, all, asked, looked) {
        Ok(places) => places,
        Err(refusal) => return Err(refusal),
    };
    match right_units(alloc, m, asked, &places) {
        Ok(units) => Ok(Fitting { places, units }),
        Err(refusal) => Err(refusal),
    }
}
