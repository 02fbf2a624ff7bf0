//! The units of the disks of a creation.
ghost use Rattle.std.specs.Prelude.{◌≡◌, ◌+◌, [], IfErr, IsTrue, None, OnOk};
ghost use Rattle.refusal_lines.specs.Refusals.{meaning_of};
ghost use Rattle.asm_group.specs.Shape.{is_shape};
ghost use Rattle.new_groups.specs.Causes.{IsThisRefusal, creation_disk, creation_disks, first_refused, small_refusal, units_of_new_disk};

use crate::places::Place;
use crate::planned::Terms;
use crate::refusals::too_small;
use asm_base::Shape;
use disk_sizes::{least_units, units_in};
use new_disks::PlannedDisk;
use refusal_lines::Refusal;
use std::alloc::Global;

/// The units that a disk is to have: those of the size that is said, or those of its image of so
/// many bytes.
#[tactic(auto, using(asm_images::proofs::UserBytes::shape_au))]
fn units_asked(shape: &Shape, size: Option<u64>, bytes: u64) -> u64
    requires { IsTrue (is_shape shape.now) }
    ensures { result ≡ units_of_new_disk shape.now size bytes }
{
    match size {
        Some(said) => said / shape.au as u64,
        None => units_in(shape, bytes),
    }
}

/// The units of a disk. Refused as TooSmall where its image has fewer than are said, or they are
/// fewer than it needs.
fn units_for(
    alloc: Global,
    shape: &Shape,
    disk: &PlannedDisk,
    terms: Terms,
    place: Place,
) -> Result<u32, Refusal>
    requires shape { IsTrue (is_shape shape.now) }
    ensures fit { OnOk result (small_refusal shape.now (creation_disk disk.now terms place)
        ≡ None) }
    ensures refused { IfErr result (λ refusal. IsThisRefusal
        (small_refusal shape.now (creation_disk disk.now terms place))
        (meaning_of (λ _. []) refusal)) }
{
    let units = units_asked(shape, terms.size, place.size);
    if units_in(shape, place.size) < units {
        return Err(too_small(alloc, &disk.name, units));
    }
    let least = least_units(shape);
    if units < least {
        return Err(too_small(alloc, &disk.name, least));
    }
    Ok(units as u32)
}

/// The units of the disks, in their order. Refused as TooSmall by the first that has fewer than are
/// said or needed.
pub fn all_units(
    alloc: Global,
    shape: &Shape,
    disks: &[PlannedDisk],
    terms: &[Terms],
    places: &[Place],
    units: &mut Vec<u32>,
) -> Result<(), Refusal>
    requires shape { IsTrue (is_shape shape.now) }
    ensures fit { OnOk result (first_refused (small_refusal shape.now)
        (creation_disks disks.now terms.now places.now) ≡ None) }
    ensures refused { IfErr result (λ refusal. IsThisRefusal
        (first_refused (small_refusal shape.now) (creation_disks disks.now terms.now places.now))
        (meaning_of (λ _. []) refusal)) }
{
    let [disk, disks @ ..] = disks else {
        return Ok(());
    };
    let [first, terms @ ..] = terms else {
        return Ok(());
    };
    let [place, places @ ..] = places else {
        return Ok(());
    };
    let own = match units_for(alloc, shape, disk, *first, *place) {
        Ok(own) => own,
        Err(refusal) => return Err(refusal),
    };
    if units.push(own).is_err() {
        return Err(Refusal::NoMemory);
    }
    all_units(alloc, shape, disks, terms, places, units)
}
