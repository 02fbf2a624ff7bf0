//! What a new group is made of, before anything is written.

ghost use Rattle.std.specs.Prelude.{◌≡◌, IfOk, IfSome};
ghost use Rattle.directory_store.specs.Contents.{ArePutItems};

use crate::entries::first_record;
use crate::first_records::first_change;
use crate::places::Place;
use asm_base::{Change, Name, NoMemory, Shape};
use disk_header::Header;
use mounted_groups::{Creation, Headed};
use new_disks::PlannedDisk;
use status_table::PstRecord;
use std::alloc::Global;

/// A new group: its name, its shape, its disks with the headers that they get, its first record,
/// and the first records of its directories.
#[derive(Drop)]
pub struct Draft {
    pub name: Name,
    pub shape: Shape,
    pub disks: Vec<Headed>,
    pub status: PstRecord,
    pub first: Change,
}

/// The header of a disk.
fn header_of(
    group: &Name,
    shape: &Shape,
    id: u64,
    number: u8,
    disk: &PlannedDisk,
) -> Result<Header, NoMemory> {
    Ok(Header {
        group: group.copy()?,
        id,
        number,
        birth: number as u64 + 1,
        kind: shape.kind,
        disk: disk.name.copy()?,
        failgroup: disk.failgroup.copy()?,
        quorum: disk.quorum,
        au_size: shape.au,
        sector: shape.sector,
        step: shape.step,
        dir_blocks: shape.dir_blocks,
    })
}

/// Puts a disk with its header behind the others.
fn put_headed(headed: &mut Vec<Headed>, place: Place, header: Header) -> Result<(), NoMemory> {
    let new = Headed {
        slot: place.slot,
        size: place.size,
        header,
    };
    headed.push(new).map_err(|_| NoMemory)
}

/// The disks with their headers.
fn headed_disks(
    alloc: Global,
    group: &Name,
    shape: &Shape,
    id: u64,
    disks: &[PlannedDisk],
    places: &[Place],
) -> Result<Vec<Headed>, NoMemory> {
    let mut headed = Vec::new(alloc);
    for (i, disk) in disks.iter().enumerate() {
        if let Some(place) = places.get(i) {
            if i < 64 {
                let header = header_of(group, shape, id, i as u8, disk)?;
                put_headed(&mut headed, *place, header)?;
            }
        }
    }
    Ok(headed)
}

/// The group of these disks on these images, with so many units each. None where its record isn't
/// one of the format.
pub fn make_draft(
    alloc: Global,
    group: &Name,
    creation: &Creation,
    id: u64,
    disks: &[PlannedDisk],
    places: &[Place],
    units: &[u32],
) -> Result<Option<Draft>, NoMemory>
    ensures name { IfOk result (λ made. IfSome made (λ d. d.name ≡ group.now)) }
    ensures items { IfOk result (λ made. IfSome made (λ d. ArePutItems d.first.put)) }
{
    let shape = creation.shape;
    let name = group.copy()?;
    let headed = headed_disks(alloc, group, &shape, id, disks, places)?;
    let first = first_change(alloc, shape.kind, &headed, &creation.settings)?;
    match first_record(alloc, id, shape.kind, disks, units) {
        Ok(Some(status)) => Ok(Some(Draft {
            name,
            shape,
            disks: headed,
            status,
            first,
        })),
        Ok(None) => Ok(None),
        Err(NoMemory) => Err(NoMemory),
    }
}
