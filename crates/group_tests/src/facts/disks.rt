//! What a mounted group tells of its disks.

use super::fact::Fact;
use crate::answers::alone;
use crate::spelt::read_name;
use disk_modes::{
    GroupSort, disk_named, disks_in_group, expiring_disk as expiring, offline_set, serving_disks,
};
use group_engine::{Attached, Mounted};
use std::alloc::Global;

/// The slot and the size of a disk's image, where it is attached.
fn image_of(m: &Mounted, disk: u8) -> Option<(u32, u64)> {
    if disk >= 64 {
        return None;
    }
    match (m.slot(disk), m.size(disk)) {
        (Some(slot), Some(size)) => Some((slot, size)),
        _ => None,
    }
}

/// The set of those that are there.
fn set_of(disks: &[Option<Attached>]) -> u64 {
    let mut set = 0u64;
    for (number, disk) in disks.iter().enumerate() {
        if disk.is_some() {
            set |= 1u64 << (number as u64 & 63);
        }
    }
    set
}

/// Whether a disk is there and in a set, or there is none and the set is empty.
fn is_in(disk: Option<u8>, set: u64) -> bool {
    match disk {
        Some(disk) => alone(disk) & set != 0,
        None => set == 0,
    }
}

/// The number of the disk of a name.
fn number_named(alloc: Global, m: &Mounted, text: &[u8]) -> Option<u8> {
    let name = read_name(alloc, text)?;
    let number = disk_named(m, &name);
    drop(name);
    number
}

/// The disks of a failure group.
fn set_named(alloc: Global, m: &Mounted, sort: GroupSort, text: &[u8]) -> Option<u64> {
    let name = read_name(alloc, text)?;
    let disks = disks_in_group(m, sort, &name);
    drop(name);
    match disks {
        Some(disks) => Some(disks.bits()),
        None => None,
    }
}

/// Whether the group tells this of its disks.
pub fn is_of_disks(alloc: Global, m: &Mounted, fact: Fact) -> bool {
    match fact {
        Fact::Dismounted(set) => is_in(m.dismounted(), set),
        Fact::Attached(set) => set_of(m.disks()) == set,
        Fact::Disk(disk, image) => image_of(m, disk) == image,
        Fact::Sets(serving, offline) => {
            serving_disks(m).bits() == serving && offline_set(m).bits() == offline
        }
        Fact::Named(name, disk) => number_named(alloc, m, name) == disk,
        Fact::InGroup(sort, name, disks) => set_named(alloc, m, sort, name) == disks,
        Fact::Expiring(now, disk) => expiring(m.catalog(), m.status(), now) == disk,
        _ => false,
    }
}
