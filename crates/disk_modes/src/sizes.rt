// The units that disks have, need and are to have.
ghost use Rattle.std.specs.Prelude.{◌≡◌, ℕ, ◌+◌, ◌*◌, ◌<◌, ◌≤◌, ◌^◌, IfErr, OnOk, Some, length, max, true};
ghost use Rattle.asm_formats.specs.Sets.{has_bit};
ghost use Rattle.asm_placement.specs.Layout.{units_of};
ghost use Rattle.disk_sizes.specs.Sizes.{least_units};
ghost use Rattle.disk_modes.specs.Causes.{AreLargeEnough, IsFirstSmall, IsLargeEnough, IsTooSmall, SizeCause};
ghost use Rattle.disk_modes.specs.Ends.{AreUsedTo, HasEnds, IsChunkEnd, IsCopyEnd, IsHomeEnd, IsUsedTo};
ghost use Rattle.disk_modes.specs.Sizes.{image_units, units_asked, whole_units_in};

use asm_base::{DiskSet, Home, Homes, MOST_UNITS, Shape};
use disk_sizes::least_units;
use group_reports::{Catalog, units_of};
use record_laws::Mounted;
use refusal_lines::{DiskRef, Refusal};

/// What a RESIZE asks for: of some disks a size in bytes, or else that of their images.
#[derive(Clone, Copy)]
pub struct Asked {
    pub disks: DiskSet,
    pub size: Option<u64>,
}

/// The units that a disk is to have.
pub(crate) fn units_asked(m: &Mounted, disk: u8, asked: &Asked) -> u64
    ensures { result ≡ units_asked m.now.catalog.shape m.now.disks asked.now.size disk }
{
    match asked.size {
        Some(said) => units_in(&m.catalog().shape(), said),
        None => image_units(m, disk),
    }
}

/// The units of a disk's image, and none where it isn't attached.
fn image_units(m: &Mounted, disk: u8) -> u64
    ensures { result ≡ image_units m.now.catalog.shape m.now.disks disk }
{
    if disk >= 64 {
        return 0;
    }
    match m.size(disk) {
        Some(size) => units_in(&m.catalog().shape(), size).min(MOST_UNITS),
        None => 0,
    }
}

/// The whole units in so many bytes.
fn units_in(shape: &Shape, bytes: u64) -> u64
    ensures { result ≡ whole_units_in shape.now bytes }
{
    if shape.au == 0 {
        return 0;
    }
    bytes / shape.au as u64
}

/// The units that a disk needs: those that it must have, or those up to its last used one where
/// these are more.
fn needed_units(shape: &Shape, used: u64) -> u64
    ensures { result ≡ max (least_units shape.now) used }
{
    least_units(shape).max(used)
}

/// Refused as TooSmall by the least of the disks whose image has fewer units than it is to have, or
/// that needs more.
pub(crate) fn check_sizes(m: &Mounted, asked: &Asked) -> Result<(), Refusal>
    ensures cause { IfErr result (IsFirstSmall m.now asked.now) }
    ensures large { OnOk result (AreLargeEnough m.now asked.now) }
{
    let ends = used_ends(m.catalog());
    for disk in 0..64u8 {
        match check_size(m, asked, disk, ends[disk as usize]) {
            Ok(()) => {}
            Err(refusal) => return Err(refusal),
        }
    }
    Ok(())
}

/// The same of one disk, with the units up to its last used one.
fn check_size(m: &Mounted, asked: &Asked, disk: u8, used: u64) -> Result<(), Refusal>
    requires { IsUsedTo m.now.catalog disk used }
    ensures named { IfErr result (λ refusal. has_bit asked.now.disks disk ≡ true) }
    ensures cause { IfErr result (SizeCause m.now asked.now disk) }
    ensures large { OnOk result (has_bit asked.now.disks disk ≡ true
        → IsLargeEnough m.now asked.now disk) }
{
    if !asked.disks.has(disk) {
        return Ok(());
    }
    let units = units_asked(m, disk, asked);
    if image_units(m, disk) < units {
        return too_small(m, asked, disk, units);
    }
    let need = needed_units(&m.catalog().shape(), used);
    if units < need {
        return too_small(m, asked, disk, need);
    }
    Ok(())
}

fn too_small(m: &Mounted, asked: &Asked, disk: u8, need: u64) -> Result<(), Refusal>
    requires { IsTooSmall m.now asked.now disk need }
    ensures cause { IfErr result (SizeCause m.now asked.now disk) }
    ensures refused { OnOk result ⊥ }
{
    let _group = m.status();
    let _asked = asked.disks;
    Err(Refusal::TooSmall {
        disk: DiskRef::Number(disk),
        need,
    })
}

/// Of each disk the units up to its last used one. It goes over the extents once.
fn used_ends(catalog: &Catalog) -> [u64; 64]
    ensures { AreUsedTo catalog.now result }
{
    let mut ends = [0u64; 64];
    for (at, chunk) in catalog.chunks() {
        end_behind(&mut ends, catalog, *at, chunk.as_slice());
    }
    ends
}

/// The last ends with those of a chunk's extents.
fn end_behind(ends: &mut [u64], catalog: &Catalog, at: (u32, u32), extents: &[Homes])
    requires few { length extents.now ≤ 256 }
    ensures { HasEnds (IsChunkEnd catalog.now.shape.step (at, extents.now)) ends.old ends.new }
{
    let mut index = at.1 as u64 * 256;
    for homes in extents {
        end_behind_homes(ends, catalog, index, homes);
        index += 1;
    }
}

/// The same with those of an extent's copies.
fn end_behind_homes(ends: &mut [u64], catalog: &Catalog, index: u64, homes: &Homes)
    ensures { HasEnds (IsCopyEnd (units_of catalog.now.shape.step index) homes.now) ends.old
        ends.new }
{
    let units = units_of(catalog.shape().step, index) as u64;
    let homes = *homes;
    end_behind_home(ends, units, homes.first);
    end_behind_home(ends, units, homes.second);
    end_behind_home(ends, units, homes.third);
}

/// The same with that of one copy.
fn end_behind_home(ends: &mut [u64], units: u64, home: Option<Home>)
    requires few { units ≤ 16 }
    ensures { HasEnds (IsHomeEnd units home) ends.old ends.new }
{
    let Some(home) = home else {
        return;
    };
    let place = home.disk as usize;
    if place < ends.len() {
        let end = home.unit as u64 + units;
        ends[place] = ends[place].max(end);
    }
}
