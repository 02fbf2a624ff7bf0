// The directory copies that are read: those that a record names on disks of its entries that were
// read and have all their units.
ghost use Rattle.std.specs.Prelude.{◌≡◌, ◌++◌, ◌==◌, [], IfOk, OnOk};
ghost use Rattle.std.specs.List.{list_any};
ghost use Rattle.asm_formats.specs.Regions.{has_region};
ghost use Rattle.status_register.specs.Holders.{is_of};
ghost use Rattle.status_register.specs.declared.member.Member.{Member as Disk};
ghost use Rattle.group_recovery.specs.NamedCopies.{directory_copy_of, is_named_copy, named_copies};

use crate::choosing::{has_slot, member_of};
use crate::finding::Headed;
use crate::missing::has_units;
use asm_base::NoMemory;
use directory_store::DirCopy;
use disk_sizes::region_bytes;
use status_register::{Member, is_of_entry};
use status_table::PstRecord;
use std::alloc::Global;

/// The directory copy of a disk.
fn copy_of(headed: &Headed) -> DirCopy
    ensures { result ≡ directory_copy_of headed.now }
{
    DirCopy {
        number: headed.header.number,
        slot: headed.slot,
        dir_blocks: headed.header.dir_blocks,
        sector: headed.header.sector,
    }
}

/// Whether an image of so many bytes reaches to the end of the directory region.
pub fn has_region(dir_blocks: u32, size: u64) -> bool
    ensures { result ≡ has_region dir_blocks size }
{
    region_bytes(dir_blocks) <= size
}

/// Whether a member of an id was read, has all its units and a whole directory region, and a copy
/// there that the record names.
fn is_named_copy(id: u64, read: &[Member], status: &PstRecord, headed: &Headed) -> bool
    ensures { result ≡ is_named_copy id read.now status.now headed.now }
{
    headed.header.id == id
        && (has_slot(read, headed.slot)
            && (status.dirs.has(headed.header.number)
                && (is_of_entry(status.entries(), member_of(headed))
                    && (has_units(status.entries(), headed)
                        && has_region(headed.header.dir_blocks, headed.size)))))
}

/// Puts the copies behind others.
fn put_copies(
    id: u64,
    headed: &[Headed],
    read: &[Member],
    status: &PstRecord,
    copies: &mut Vec<DirCopy>,
) -> Result<(), NoMemory>
    ensures { OnOk result (copies.new.items
        ≡ copies.old.items ++ named_copies id read.now status.now headed.now) }
{
    let [first, rest @ ..] = headed else {
        return Ok(());
    };
    if is_named_copy(id, read, status, first) {
        copies.push(copy_of(first)).map_err(|_| NoMemory)?;
    }
    put_copies(id, rest, read, status, copies)
}

/// The copies that a record names on these disks that were read, in the order of the disks.
pub fn named_copies(
    alloc: Global,
    id: u64,
    headed: &[Headed],
    read: &[Member],
    status: &PstRecord,
) -> Result<Vec<DirCopy>, NoMemory>
    ensures { IfOk result (λ copies. copies.items
        ≡ named_copies id read.now status.now headed.now) }
{
    let mut copies = Vec::new(alloc);
    put_copies(id, headed, read, status, &mut copies)?;
    Ok(copies)
}
