ghost use Rattle.std.specs.Prelude.{◌≡◌};

use crate::moves::{Move, Next};
use crate::shares::Shares;
use crate::stages::{Stage, said_by_tables, said_first};
use allocator::Units;
use asm_base::{DiskSet, ExtentId, GroupKind, Home, Homes, Mode};
use extent_copies::Extent;
use partnership::{PstEntry, PstRecord, directory_target, is_status, status_target};
use std::alloc::Global;
use std::test::*;

/// A disk that is a failure group of its own, with 64 units.
fn single(number: u8, mode: Mode, partners: u64) -> PstEntry {
    PstEntry {
        number,
        birth: number as u64 + 1,
        mode,
        failgroup: number,
        quorum: false,
        units: 64,
        since: 0,
        repair: 0,
        partners: DiskSet::from_bits(partners),
    }
}

/// A group with so many of five disks, and tables and directory copies on the first three.
fn group(disks: [PstEntry; 5], count: u8) -> PstRecord {
    let mut entries = [PstEntry::blank(); 64];
    for i in 0..5 {
        entries[i] = disks[i];
    }
    PstRecord {
        id: 1,
        epoch: 1,
        turn: 1,
        gone: false,
        births: 9,
        holders: DiskSet::from_bits(7),
        next_holders: DiskSet::empty(),
        dirs: DiskSet::from_bits(7),
        count: count.min(5),
        entries,
    }
}

fn four(first: Mode, last: Mode) -> PstRecord {
    let disks = [
        single(0, first, 6),
        single(1, Mode::Online, 5),
        single(2, Mode::Online, 3),
        single(3, last, 0),
        single(4, Mode::Online, 0),
    ];
    group(disks, 4)
}

fn five() -> PstRecord {
    let disks = [
        single(0, Mode::Online, 30),
        single(1, Mode::Online, 29),
        single(2, Mode::Online, 27),
        single(3, Mode::Online, 23),
        single(4, Mode::Online, 15),
    ];
    group(disks, 5)
}

/// Units of a disk of 64, of which 9 are reserved and so many user units used.
fn used(alloc: Global, count: u32) -> Option<Units> {
    let mut units = Units::new(alloc, 9, 64).ok()?;
    if count > 0 {
        units.take(count)?;
    }
    Some(units)
}

fn five_used(alloc: Global, counts: [u32; 5]) -> Option<[Units; 5]> {
    Some([
        used(alloc, counts[0])?,
        used(alloc, counts[1])?,
        used(alloc, counts[2])?,
        used(alloc, counts[3])?,
        used(alloc, counts[4])?,
    ])
}

fn home(disk: u8, unit: u32) -> Home {
    Home { disk, unit }
}

/// A mirrored extent of one unit.
fn mirrored(index: u32, first: Home, second: Home, marks: u8) -> Extent
    ensures copies { result.copies ≡ 2 }
    ensures units { result.units ≡ 1 }
{
    Extent {
        id: ExtentId { file: 256, index },
        homes: Homes {
            first: Some(first),
            second: Some(second),
            third: None,
        },
        marks,
        copies: 2,
        units: 1,
    }
}

/// Disk 3 is dropped: the copy that it has goes to disk 0, and extents on other disks stay.
#[test]
fn dropped_disk(rt: HostRuntime) {
    let status = four(Mode::Online, Mode::Dropping);
    let units = five_used(rt.alloc(), [2, 2, 2, 2, 0]).expect(&rt, "memory");
    let shares = Shares::of(&status, &units);
    let apart = mirrored(0, home(0, 9), home(1, 9), 0);
    let leaving = mirrored(1, home(2, 9), home(3, 9), 0);
    assert!(rt; is_status(&status));
    let moved = said_first(status.entries(), &units, &shares, &leaving, Stage::Shift);
    let x = ExtentId {
        file: 256,
        index: 1,
    };
    let to = home(0, 11);
    assert!(rt; moved == Some(Next::Move(Move::Shift { x, copy: 1, to })));
    assert!(rt; said_first(status.entries(), &units, &shares, &apart, Stage::Shift).is_none());
    assert!(rt; said_first(status.entries(), &units, &shares, &leaving, Stage::Fill).is_none());
}

/// A fifth disk takes one copy, and then the disks are balanced.
#[test]
fn added_disk(rt: HostRuntime) {
    let status = five();
    let units = five_used(rt.alloc(), [2, 2, 2, 2, 0]).expect(&rt, "memory");
    let shares = Shares::of(&status, &units);
    assert!(rt; shares.share(&units, 4) == 1);
    let extent = mirrored(0, home(0, 9), home(1, 9), 0);
    assert!(rt; is_status(&status));
    let moved = said_first(status.entries(), &units, &shares, &extent, Stage::Balance);
    let x = ExtentId {
        file: 256,
        index: 0,
    };
    let to = home(4, 9);
    assert!(rt; moved == Some(Next::Move(Move::Shift { x, copy: 0, to })));
    let units = five_used(rt.alloc(), [1, 2, 2, 2, 1]).expect(&rt, "memory");
    let shares = Shares::of(&status, &units);
    assert!(rt; said_first(status.entries(), &units, &shares, &extent, Stage::Balance).is_none());
}

/// A holder that has a directory copy is dropped: disk 3 takes the copy, and the tables move to
/// disks 1, 2 and 3.
#[test]
fn dropped_holder(rt: HostRuntime) {
    let mut status = four(Mode::Dropping, Mode::Online);
    assert!(rt; directory_target(GroupKind::Normal, &status) == Some(3));
    assert!(rt; is_status(&status));
    let first = said_by_tables(GroupKind::Normal, &status);
    assert!(rt; first == Some(Next::Move(Move::Directory { to: 3 })));
    let due = Some(DiskSet::from_bits(14));
    assert!(rt; status_target(GroupKind::Normal, &status) == due);
    status.next_holders = DiskSet::from_bits(6);
    assert!(rt; is_status(&status));
    let next = Some(DiskSet::from_bits(6));
    assert!(rt; status_target(GroupKind::Normal, &status) == next);
}

/// A stale copy is written anew where another can be read; where none can, the extent is lost.
#[test]
fn stale_copies(rt: HostRuntime) {
    let status = four(Mode::Online, Mode::Forced);
    let units = five_used(rt.alloc(), [2, 2, 2, 2, 0]).expect(&rt, "memory");
    let shares = Shares::of(&status, &units);
    let stale = mirrored(0, home(0, 9), home(1, 9), 2);
    let alone = mirrored(1, home(2, 9), home(3, 9), 1);
    assert!(rt; is_status(&status));
    let x = ExtentId {
        file: 256,
        index: 0,
    };
    let moved = said_first(status.entries(), &units, &shares, &stale, Stage::Recopy);
    assert!(rt; moved == Some(Next::Move(Move::Recopy { x, copy: 1 })));
    assert!(rt; said_first(status.entries(), &units, &shares, &alone, Stage::Recopy).is_none());
    let lost = ExtentId {
        file: 256,
        index: 1,
    };
    assert!(rt;
        said_first(status.entries(), &units, &shares, &alone, Stage::Lost) == Some(Next::Lost(lost))
    );
}
