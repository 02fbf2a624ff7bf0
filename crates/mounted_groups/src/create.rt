// A group is created on one disk.
ghost use Rattle.std.specs.Prelude.{◌≡◌, ◌≤◌, ◌<◌, [], IsTrue, map, length, IfErr, IfOk};
ghost use Rattle.asm_group.specs.Names.{is_name};
ghost use Rattle.std.specs.String.{string_bytes};
ghost use Rattle.refusal_lines.specs.Refusals.{meaning_of};
ghost use Rattle.asm_group.specs.Refusal.{NoMemory};
ghost use Rattle.asm_formats.specs.Regions.{most_units};
ghost use Rattle.mounted_groups.specs.Creating.{units_needed};
ghost use Rattle.mounted_groups.specs.Gives.{FormsGroup};
ghost use Rattle.mounted_groups.specs.GroupCalls.{CreatesGroup};
ghost use Rattle.mounted_groups.specs.Planned.{IsGroupPlan};
ghost use Rattle.mounted_groups.specs.Prepares.{IsMadeReady, Prepares};
ghost use Rattle.mounted_groups.specs.Ready.{AreBodies, HasRoom};

use crate::choose::{
    first_disk_name, is_held, next_id, no_disk, shown_size, usable_units, write_fault,
};
use crate::find::{look_at_all, slot_of};
use crate::give::give_parts;
use crate::mount_new::mount_new;
use crate::new_group::{Bodies, NewGroup, first_bodies};
use asm_base::Name;
use bay::{Bay, BayError};
use group_engine::{Attached, Mounted};
use group_recovery::Store;
use refusal_lines::Refusal;
use std::alloc::Global;

/// Creates an EXTERNAL group on the image at a path, which is one of the program's images. The ids
/// in the headers that were read are put into `ids`. Images in the slots `held` are attached to
/// groups: they are DiskTaken by their headers, and where such a header isn't there any more, which
/// no call leaves so, NoMemory is answered. The first part of the answer is the group's id where
/// the creation came to write: at least `floor`, and above each of these ids. The second is the new
/// group, mounted. Refusals in their order: NoDisk, DiskTaken, TooSmall, WriteFault; NoMemory at
/// any point, also once the disk has its new header.
pub fn create_group<B: Bay>(
    alloc: Global,
    bay: &mut B,
    paths: &[String],
    name: &Name,
    path: &[u8],
    floor: u64,
    ids: &mut Vec<u64>,
    held: &[u32],
) -> (Option<u64>, Result<Mounted, Refusal>)
    requires few { length paths.now ≤ 512 }
    requires name { IsTrue (is_name name.now) }
    requires none { ids.old.items ≡ [] }
    ensures { CreatesGroup (record { slots = length paths.now; paths = map string_bytes paths.now; path = path.now; name = name.now; floor = floor }) held.now result ids.new.items
        (B.state bay.old) (B.state bay.new) }
{
    match prepare(alloc, bay, paths, name, path, floor, ids) {
        Ok(
            Ready {
                slot,
                size,
                group,
                bodies,
            },
        ) => {
            if is_held(held, slot) {
                return (None, Err(Refusal::NoMemory));
            }
            let id = group.id;
            match form(alloc, bay, slot, paths.len(), &group, &bodies) {
                Ok(store) => {
                    let disk = Attached { slot, size };
                    (Some(id), mount_new(alloc, bay, disk, group, store))
                },
                Err(refusal) => (Some(id), Err(refusal)),
            }
        }
        Err(refusal) => (None, Err(refusal)),
    }
}

/// A new group, the slot of its disk with its size in bytes, and what the disk is given.
#[derive(Drop)]
struct Ready {
    slot: u32,
    size: u64,
    group: NewGroup,
    bodies: Bodies,
}

/// Does all that comes before the first write: looks at the images, and takes an id.
fn prepare<B: Bay>(
    alloc: Global,
    bay: &mut B,
    paths: &[String],
    name: &Name,
    path: &[u8],
    floor: u64,
    ids: &mut Vec<u64>,
) -> Result<Ready, Refusal>
    requires few { length paths.now ≤ 512 }
    requires name { IsTrue (is_name name.now) }
    requires none { ids.old.items ≡ [] }
    ensures { Prepares (record { slots = length paths.now; paths = map string_bytes paths.now; path = path.now; name = name.now; floor = floor }) result ids.new.items
        (B.state bay.old) (B.state bay.new) }
{
    let Some(slot) = slot_of(paths, path) else {
        return Err(no_disk(alloc, path));
    };
    let Ok(disk) = first_disk_name(alloc, name) else {
        return Err(Refusal::NoMemory);
    };
    let Ok(probe) = look_at_all(alloc, bay, paths, slot, ids) else {
        return Err(Refusal::NoMemory);
    };
    match usable_units(alloc, path, &disk, probe) {
        Ok(units) => {
            let place = Attached {
                slot,
                size: shown_size(probe),
            };
            make_ready(alloc, place, name, disk, units, next_id(floor, ids))
        }
        Err(refusal) => Err(refusal),
    }
}

/// The bodies of the new group's disk, beside what they are made of.
fn make_ready(
    alloc: Global,
    place: Attached,
    name: &Name,
    disk: Name,
    units: u32,
    id: u64,
) -> Result<Ready, Refusal>
    requires name { IsTrue (is_name name.now) }
    requires disk { IsTrue (is_name disk) }
    requires least { units_needed ≤ units }
    requires most { units ≤ most_units }
    ensures ready { IfOk result (λ ready. IsMadeReady place name.now units id ready) }
    ensures err { IfErr result (λ refusal. meaning_of (λ _. []) refusal ≡ NoMemory) }
{
    let Ok(name) = name.copy() else {
        return Err(Refusal::NoMemory);
    };
    let group = NewGroup {
        id,
        name,
        disk,
        units,
    };
    let Ok(bodies) = first_bodies(alloc, &group) else {
        return Err(Refusal::NoMemory);
    };
    Ok(Ready {
        slot: place.slot,
        size: place.size,
        group,
        bodies,
    })
}

/// Gives the disk of a new group, which is one of so many slots, all its parts.
fn form<B: Bay>(
    alloc: Global,
    bay: &mut B,
    slot: u32,
    slots: usize,
    group: &NewGroup,
    bodies: &Bodies,
) -> Result<Store, Refusal>
    requires plan { IsGroupPlan group.now }
    requires bodies { AreBodies bodies.now group.now }
    requires room { HasRoom slot group.now.units (B.state bay.old) }
    requires among { slot < slots }
    ensures { FormsGroup slot slots group.now result (B.state bay.old) (B.state bay.new) }
{
    match give_parts(alloc, bay, slot, group, bodies) {
        Ok(store) => Ok(store),
        Err(BayError::Fault) => Err(write_fault(alloc, &group.disk)),
        Err(BayError::NoMemory) => Err(Refusal::NoMemory),
    }
}
