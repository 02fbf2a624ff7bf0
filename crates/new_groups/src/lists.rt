//! The disks of a new group as its register, its directories and its engine see them.
ghost use Rattle.std.specs.Prelude.{◌≡◌, ◌<◌, ◌++◌, IfOk, OnOk};
ghost use Rattle.asm_formats.specs.Among.{IsAmong};
ghost use Rattle.mounted_groups.specs.Mounting.{by_number, put_disks};
ghost use Rattle.mounted_groups.specs.group_recovery.NamedCopies.{directory_copy_of};
ghost use Rattle.mounted_groups.specs.group_recovery.Verdicts.{member_of};
ghost use Rattle.mounted_groups.specs.group_recovery.declared.finding.Headed.{Headed as Disk};
ghost use Rattle.new_groups.specs.Drafts.{copy_list, disk_list, holder_list, member_list};

use asm_base::{DiskSet, NoMemory};
use directory_store::DirCopy;
use mounted_groups::{Attached, Headed};
use status_register::Member;
use std::alloc::Global;

/// The members of the group, those of them that hold its record, and its directory copies.
#[derive(Drop)]
pub struct Lists {
    pub members: Vec<Member>,
    pub holders: Vec<Member>,
    pub copies: Vec<DirCopy>,
}

/// A disk as the register sees it.
pub fn member_of(disk: &Headed) -> Member
    ensures { result ≡ member_of disk.now }
{
    Member {
        slot: disk.slot,
        number: disk.header.number,
        birth: disk.header.birth,
        sector: disk.header.sector,
    }
}

/// The directory copy of a disk.
fn copy_of(disk: &Headed) -> DirCopy
    ensures { result ≡ directory_copy_of disk.now }
{
    DirCopy {
        number: disk.header.number,
        slot: disk.slot,
        dir_blocks: disk.header.dir_blocks,
        sector: disk.header.sector,
    }
}

/// Puts the members behind others.
fn put_members(disks: &[Headed], members: &mut Vec<Member>) -> Result<(), NoMemory>
    ensures { OnOk result (members.new.items ≡ members.old.items ++ member_list disks.now) }
{
    let [first, rest @ ..] = disks else {
        return Ok(());
    };
    members.push(member_of(first)).map_err(|_| NoMemory)?;
    put_members(rest, members)
}

/// Puts the members whose disks are in a set behind others.
fn put_holders(disks: &[Headed], set: DiskSet, members: &mut Vec<Member>) -> Result<(), NoMemory>
    ensures { OnOk result (members.new.items ≡ members.old.items ++ holder_list set disks.now) }
{
    let [first, rest @ ..] = disks else {
        return Ok(());
    };
    if set.has(first.header.number) {
        members.push(member_of(first)).map_err(|_| NoMemory)?;
    }
    put_holders(rest, set, members)
}

/// Puts the directory copies of a set of disks behind others.
fn put_copies(disks: &[Headed], set: DiskSet, copies: &mut Vec<DirCopy>) -> Result<(), NoMemory>
    ensures { OnOk result (copies.new.items ≡ copies.old.items ++ copy_list set disks.now) }
{
    let [first, rest @ ..] = disks else {
        return Ok(());
    };
    if set.has(first.header.number) {
        copies.push(copy_of(first)).map_err(|_| NoMemory)?;
    }
    put_copies(rest, set, copies)
}

/// The lists of a group's disks, of which these sets hold the record and the directories.
pub fn make_lists(
    alloc: Global,
    disks: &[Headed],
    holders: DiskSet,
    directories: DiskSet,
) -> Result<Lists, NoMemory>
    ensures members { IfOk result (λ l. l.members.items ≡ member_list disks.now) }
    ensures holders { IfOk result (λ l. l.holders.items ≡ holder_list holders disks.now) }
    ensures copies { IfOk result (λ l. l.copies.items ≡ copy_list directories disks.now) }
{
    let mut members = Vec::new(alloc);
    let mut held = Vec::new(alloc);
    let mut copies = Vec::new(alloc);
    put_members(disks, &mut members)?;
    put_holders(disks, holders, &mut held)?;
    put_copies(disks, directories, &mut copies)?;
    Ok(Lists {
        members,
        holders: held,
        copies,
    })
}

/// Puts the attached disks into the places of their numbers.
fn put_numbers(disks: &[Headed], places: &mut [Option<Attached>; 64])
    requires { (h : Disk) → IsAmong disks.now h → h.header.number < 64 }
    ensures { places.new ≡ put_disks places.old (disk_list disks.now) }
{
    let [first, rest @ ..] = disks else {
        return;
    };
    places[first.header.number as usize] = Some(Attached {
        slot: first.slot,
        size: first.size,
    });
    put_numbers(rest, places);
}

/// The attached disks by their numbers.
pub fn by_number(disks: &[Headed]) -> [Option<Attached>; 64]
    requires { (h : Disk) → IsAmong disks.now h → h.header.number < 64 }
    ensures { result ≡ by_number (disk_list disks.now) }
{
    let mut places = [None; 64];
    put_numbers(disks, &mut places);
    places
}
