// The units of a disk that are taken and free.
use allocator::Units;
use std::alloc::Global;
use std::test::*;

fn units(alloc: Global, reserved: u32, all: u8) -> Option<Units> {
    Units::new(alloc, reserved, all as u32).ok()
}

/// Where runs of 1, 191 and 192 units would begin on a new disk of 191 user units.
fn lowest(alloc: Global) -> Option<[Option<u32>; 3]> {
    let units = units(alloc, 9, 200)?;
    Some([units.lowest(1), units.lowest(191), units.lowest(192)])
}

#[test]
fn a_new_disk_has_room(rt: HostRuntime) {
    assert_eq!(rt; lowest(rt.alloc()), Some([Some(9), Some(9), None]));
}

/// Where runs of 1 and 16 units are taken, and how many units are used then.
fn taken(alloc: Global) -> Option<([Option<u32>; 2], u32)> {
    let mut units = units(alloc, 9, 200)?;
    let taken = [units.take(1), units.take(16)];
    Some((taken, units.used()))
}

#[test]
fn runs_are_taken_in_order(rt: HostRuntime) {
    assert_eq!(rt; taken(rt.alloc()), Some(([Some(9), Some(10)], 17)));
}

/// Where two units are taken, and the lowest unit of a copy from before.
fn copied(alloc: Global) -> Option<[Option<u32>; 2]> {
    let mut units = units(alloc, 3, 5)?;
    let copy = units.copy().ok()?;
    Some([units.take(2), copy.lowest(1)])
}

#[test]
fn a_copy_is_its_own(rt: HostRuntime) {
    assert_eq!(rt; copied(rt.alloc()), Some([Some(3), Some(3)]));
}

/// The user units of a disk, how many of them are used, and the lowest free one.
fn told(units: &Units) -> (u32, u32, Option<u32>) {
    (units.total(), units.used(), units.lowest(1))
}

/// A disk of three user units of which two are taken, with one less than these and with many more.
fn resized(alloc: Global) -> Option<[(u32, u32, Option<u32>); 2]> {
    let mut units = units(alloc, 3, 6)?;
    units.take(2)?;
    let fewer = units.resized(4).ok()?;
    let more = units.resized(200).ok()?;
    Some([told(&fewer), told(&more)])
}

#[test]
fn a_disk_gets_other_units(rt: HostRuntime) {
    assert_eq!(rt;
        resized(rt.alloc()),
        Some([(1, 1, None), (197, 2, Some(5))])
    );
}

/// Whether none is used from the last used unit on, from the next one, and past all.
fn unused_from(alloc: Global) -> Option<[bool; 3]> {
    let mut units = units(alloc, 3, 6)?;
    units.take(2)?;
    Some([
        units.is_unused_from(4),
        units.is_unused_from(5),
        units.is_unused_from(200),
    ])
}

#[test]
fn units_behind_the_last_used_one_may_go(rt: HostRuntime) {
    assert_eq!(rt; unused_from(rt.alloc()), Some([false, true, true]));
}
