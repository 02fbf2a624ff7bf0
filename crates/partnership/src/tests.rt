use super::*;
use allocator::{DiskSet, Home, Mode, Units};
use status_table::PstEntry;
use std::alloc::Global;
use std::test::*;

/// An Online disk that is a failure group of its own.
fn single(number: u8, partners: u64) -> PstEntry {
    PstEntry {
        number,
        birth: number as u64 + 1,
        mode: Mode::Online,
        failgroup: number,
        quorum: false,
        units: 64,
        since: 0,
        repair: 0,
        partners: DiskSet::from_bits(partners),
    }
}

fn four() -> [PstEntry; 4] {
    [single(0, 14), single(1, 13), single(2, 11), single(3, 7)]
}

/// Each of four disks is a partner of each other; a disk that is dropped is none.
#[test]
fn partners_of_four_disks(rt: HostRuntime) -> Result<(), Fail> {
    let mut disks = four();
    let sets = partners(rt.alloc(), &disks).expect(&rt, "memory");
    let whole = [14, 13, 11, 7];
    assert!(rt; are_sets(&sets, &whole));
    let last = &mut disks[3];
    last.mode = Mode::Dropping;
    let sets = partners(rt.alloc(), &disks).expect(&rt, "memory");
    let rest = [6, 5, 3, 0];
    assert!(rt; are_sets(&sets, &rest));
    Ok(())
}

fn are_sets(sets: &[DiskSet], expected: &[u64]) -> bool {
    if sets.len() != expected.len() {
        return false;
    }
    for i in 0..sets.len() {
        if i < expected.len() && sets[i].bits() != expected[i] {
            return false;
        }
    }
    true
}

/// Units of a disk of 64, of which 9 are reserved and so many user units used.
fn used(alloc: Global, count: u32) -> Option<Units> {
    let mut units = Units::new(alloc, 9, 64).ok()?;
    if count > 0 {
        units.take(count)?;
    }
    Some(units)
}

fn four_used(alloc: Global, counts: [u32; 4]) -> Option<[Units; 4]> {
    Some([
        used(alloc, counts[0])?,
        used(alloc, counts[1])?,
        used(alloc, counts[2])?,
        used(alloc, counts[3])?,
    ])
}

fn home(disk: u8, unit: u32) -> Option<Home> {
    Some(Home { disk, unit })
}

/// Extents of a first mirrored file lie on disks 0 and 1, then on disks 2 and 3, then on disks 0
/// and 1 again.
#[test]
fn homes_in_turn(rt: HostRuntime) {
    let disks = four();
    let empty = four_used(rt.alloc(), [0, 0, 0, 0]).expect(&rt, "memory");
    let homes = choose_homes(&disks, &empty, 2, 1).expect(&rt, "room");
    assert!(rt; homes.first == home(0, 9) && homes.second == home(1, 9) && homes.third.is_none());
    let one = four_used(rt.alloc(), [1, 1, 0, 0]).expect(&rt, "memory");
    let homes = choose_homes(&disks, &one, 2, 1).expect(&rt, "room");
    assert!(rt; homes.first == home(2, 9) && homes.second == home(3, 9) && homes.third.is_none());
    let two = four_used(rt.alloc(), [1, 1, 1, 1]).expect(&rt, "memory");
    let homes = choose_homes(&disks, &two, 2, 1).expect(&rt, "room");
    assert!(rt; homes.first == home(0, 10) && homes.second == home(1, 10));
}

/// A file of one copy, and one of more copies than there are failure groups.
#[test]
fn one_copy_and_five(rt: HostRuntime) {
    let disks = four();
    let empty = four_used(rt.alloc(), [0, 0, 0, 0]).expect(&rt, "memory");
    let homes = choose_homes(&disks, &empty, 1, 1).expect(&rt, "room");
    assert!(rt; homes.first == home(0, 9) && homes.second.is_none());
    let homes = choose_homes(&disks, &empty, 3, 16).expect(&rt, "room");
    assert!(rt; homes.third == home(2, 9));
    assert!(rt; choose_homes(&disks, &empty, 5, 1).is_none());
}

/// A partner that is full is passed over, and so is a disk whose one partner is full.
#[test]
fn full_partners(rt: HostRuntime) {
    let disks = four();
    let units = four_used(rt.alloc(), [0, 55, 0, 0]).expect(&rt, "memory");
    let homes = choose_homes(&disks, &units, 2, 1).expect(&rt, "room");
    assert!(rt; homes.first == home(0, 9) && homes.second == home(2, 9));
    let pairs = [single(0, 2), single(1, 1), single(2, 8), single(3, 4)];
    let units = four_used(rt.alloc(), [0, 55, 1, 2]).expect(&rt, "memory");
    let homes = choose_homes(&pairs, &units, 2, 1).expect(&rt, "room");
    assert!(rt; homes.first == home(2, 10) && homes.second == home(3, 11));
    let units = four_used(rt.alloc(), [0, 55, 1, 55]).expect(&rt, "memory");
    assert!(rt; choose_homes(&pairs, &units, 2, 1).is_none());
}

/// Disk 3 is dropped, with four extents on two pairs of disks: the copy of extent 1 goes to disk 0,
/// and then that of extent 3 to disk 1.
#[test]
fn copies_of_a_dropped_disk(rt: HostRuntime) {
    let mut disks = [single(0, 6), single(1, 5), single(2, 3), single(3, 0)];
    let last = &mut disks[3];
    last.mode = Mode::Dropping;
    let units = four_used(rt.alloc(), [2, 2, 2, 2]).expect(&rt, "memory");
    let kept = [Home { disk: 2, unit: 9 }];
    let holders = [Home { disk: 2, unit: 9 }, Home { disk: 3, unit: 9 }];
    assert!(rt; eligible(&disks, &kept, &holders, 0));
    assert!(rt; !eligible(&disks, &kept, &holders, 2) && !eligible(&disks, &kept, &holders, 3));
    assert_eq!(rt;
        choose_copy(&disks, &units, &kept, &holders, 1),
        home(0, 11)
    );
    let units = four_used(rt.alloc(), [3, 2, 2, 2]).expect(&rt, "memory");
    assert_eq!(rt;
        choose_copy(&disks, &units, &kept, &holders, 1),
        home(1, 11)
    );
}

/// Each disk's units stand at the place of its number; a disk whose number has no place takes no
/// copy.
#[test]
fn units_by_number(rt: HostRuntime) {
    let disks = [single(1, 8), single(3, 2)];
    let units = four_used(rt.alloc(), [9, 2, 9, 3]).expect(&rt, "memory");
    let homes = choose_homes(&disks, &units, 2, 1).expect(&rt, "room");
    assert!(rt; homes.first == home(1, 11) && homes.second == home(3, 12));
    let without_units = [single(7, 0)];
    assert!(rt; choose_homes(&without_units, &units, 1, 1).is_none());
}
