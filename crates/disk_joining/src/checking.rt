//! What new disks become is tried before the first write.
ghost use Rattle.std.specs.Prelude.{◌≡◌, ◌&&◌, is_some, not};
ghost use Rattle.new_groups.specs.disk_directory.Disks.{info_at};
ghost use Rattle.new_groups.specs.Tests.{is_image_there};
ghost use Rattle.disk_joining.specs.Attaching.{has_disk_in_slot};
ghost use Rattle.disk_joining.specs.Joiners.{are_free, are_asked, are_unrecorded, is_entered, records_disk, are_entered, fits_shape, may_join};

use crate::joining::Joining;
use crate::recording::entry_of;
use crate::slots::is_own;
use asm_base::Shape;
use disk_header::is_header;
use disk_images::Looked;
use file_extents::{Catalog, DiskInfo, Mounted};
use new_groups::{Headed, PlannedDisk, are_apart, is_there};
use status_table::PstRecord;

/// Whether the header is one of a group of this shape.
fn fits_shape(shape: &Shape, disk: &Headed) -> bool
    ensures { result ≡ fits_shape shape.now disk.now }
{
    is_header(&disk.header)
        && (disk.header.sector == shape.sector && disk.header.dir_blocks == shape.dir_blocks)
}

/// Whether the header is one of this group's shape.
fn has_shape(m: &Mounted, disk: &Headed) -> bool
    ensures { result ≡ fits_shape m.now.catalog.shape disk.now }
{
    let shape = m.catalog().shape();
    fits_shape(&shape, disk)
}

/// Whether the disk may be written: its image was read and is long enough, and neither this group
/// nor another has it.
fn is_free(m: &Mounted, looked: &[Looked], held: &[u32], disk: &Headed) -> bool
    ensures { result ≡ (is_image_there looked.now held.now disk.now
        && not (has_disk_in_slot m.now.disks disk.now.slot)) }
{
    is_there(looked, held, disk) && !is_own(m, disk.slot)
}

/// Whether all of the disks may be written and get their headers.
fn are_free(m: &Mounted, looked: &[Looked], held: &[u32], disks: &[Headed]) -> bool
    ensures { result ≡ are_free m.now looked.now held.now disks.now }
{
    match disks {
        [] => true,
        [first, rest @ ..] => {
            has_shape(m, first)
                && (is_free(m, looked, held, first) && are_free(m, looked, held, rest))
        }
    }
}

/// Whether one of the records is that of the disk of a number.
fn records_disk(records: &[(u8, DiskInfo)], number: u8) -> bool
    ensures { result ≡ records_disk records.now number }
{
    match records {
        [] => false,
        [first, rest @ ..] => first.0 == number || records_disk(rest, number),
    }
}

/// Whether the disk of a number has no record.
fn is_new(catalog: &Catalog, number: u8) -> bool
    ensures { result ≡ not (is_some (info_at catalog.now.tables.disks number)) }
{
    catalog.disk(number).is_none()
}

/// Whether each record is one of the directories', of a disk that has none yet, and no two are of
/// one disk.
fn are_unrecorded(catalog: &Catalog, records: &[(u8, DiskInfo)]) -> bool
    ensures { result ≡ are_unrecorded catalog.now.tables.disks records.now }
{
    match records {
        [] => true,
        [first, rest @ ..] => {
            first.1.is_allowed(first.0)
                && (is_new(catalog, first.0)
                    && (!records_disk(rest, first.0) && are_unrecorded(catalog, rest)))
        }
    }
}

/// Whether the disks may join the group, whose images were looked at so.
pub fn may_join(m: &Mounted, looked: &[Looked], held: &[u32], joining: &Joining) -> bool
    ensures { result ≡ may_join m.now looked.now held.now joining.now }
{
    joining.records.len() <= 64
        && (are_free(m, looked, held, &joining.disks)
            && (are_apart(&joining.disks) && are_unrecorded(m.catalog(), &joining.records)))
}

/// Whether the disks are those that are asked for, in their order, by their names and numbers.
pub fn are_asked(disks: &[Headed], asked: &[PlannedDisk], numbers: &[u8]) -> bool
    ensures { result ≡ are_asked disks.now asked.now numbers.now }
{
    let [disk, disks @ ..] = disks else {
        return asked.is_empty();
    };
    let [first, asked @ ..] = asked else {
        return false;
    };
    let [number, numbers @ ..] = numbers else {
        return false;
    };
    disk.header.disk.is_same(&first.name)
        && (disk.header.number == *number && are_asked(disks, asked, numbers))
}

/// Whether the disk has an entry of its birth.
fn is_entered(status: &PstRecord, disk: &Headed) -> bool
    ensures { result ≡ is_entered status.now disk.now }
{
    match entry_of(status, disk.header.number) {
        Some(entry) => entry.birth == disk.header.birth,
        None => false,
    }
}

/// Whether each of the disks has an entry of its birth.
pub fn are_entered(status: &PstRecord, disks: &[Headed]) -> bool
    ensures { result ≡ are_entered status.now disks.now }
{
    match disks {
        [] => true,
        [first, rest @ ..] => is_entered(status, first) && are_entered(status, rest),
    }
}
