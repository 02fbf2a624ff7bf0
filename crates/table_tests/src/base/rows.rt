// Homes of the extents of a row, by the order of disks and the room on them.
ghost use Rattle.std.specs.Prelude.{◌≡◌, IsTrue};
ghost use Rattle.asm_formats.specs.Status.{ascends_from};
ghost use Rattle.asm_placement.specs.DiskSets.{numbers};

use allocator::Units;
use asm_base::{DiskSet, Home, Homes, Mode};
use partnership::choose_row;
use status_table::PstEntry;
use std::alloc::Global;
use std::test::*;

/// An Online disk that is a failure group of its own.
fn single(number: u8, partners: u64) -> PstEntry
    ensures { result.number ≡ number }
{
    PstEntry {
        number,
        birth: number as u64 + 1,
        mode: Mode::Online,
        failgroup: number,
        quorum: false,
        units: 64,
        since: 0,
        repair: 0,
        partners: DiskSet::from_bits(partners),
    }
}

/// Four disks, each a partner of each other.
fn four() -> [PstEntry; 4]
    ensures { IsTrue (ascends_from 0 (numbers result)) }
{
    [single(0, 14), single(1, 13), single(2, 11), single(3, 7)]
}

/// A disk of so many units, the first 9 of which are reserved and none used.
fn unused(alloc: Global, units: u8) -> Option<Units> {
    Units::new(alloc, 9, units as u32).ok()
}

fn four_unused(alloc: Global, units: [u8; 4]) -> Option<[Units; 4]> {
    Some([
        unused(alloc, units[0])?,
        unused(alloc, units[1])?,
        unused(alloc, units[2])?,
        unused(alloc, units[3])?,
    ])
}

/// What stands in a row before homes are chosen.
const UNSET: Homes = Homes {
    first: Some(Home { disk: 63, unit: 1 }),
    second: None,
    third: None,
};

/// Homes for two copies of extents 7, 8 and 9 in a group with 8 extents of each size: the first is
/// one unit, the others are four.
fn row_on(units: &mut [Units]) -> (usize, [Homes; 3]) {
    let disks = four();
    let mut row = [UNSET; 3];
    let count = choose_row(&disks, units, 2, 8, 7, &mut row);
    (count, row)
}

type Place = Option<(u8, u32)>;

fn place(home: Option<Home>) -> Place {
    match home {
        Some(home) => Some((home.disk, home.unit)),
        None => None,
    }
}

fn places(homes: &Homes) -> [Place; 3] {
    [place(homes.first), place(homes.second), place(homes.third)]
}

/// How many extents have homes, the row, and the used units of each disk.
type Told = (usize, [[Place; 3]; 3], [u32; 4]);

/// The used units of each of four disks.
fn used(units: &[Units]) -> Option<[u32; 4]> {
    match units {
        [a, b, c, d] => Some([a.used(), b.used(), c.used(), d.used()]),
        _ => None,
    }
}

/// What is told of the row on disks of so many units.
fn told(alloc: Global, units: [u8; 4]) -> Option<Told> {
    let mut units = four_unused(alloc, units)?;
    let (count, [first, second, third]) = row_on(&mut units);
    let row = [places(&first), places(&second), places(&third)];
    Some((count, row, used(&units)?))
}

/// The disks have 8, 4, 6 and 9 user units. Extent 7 goes to disks 0 and 1, and then extent 8 to
/// the others, which are empty. By their fills the disks come as 0, 1, 3 and 2 after that; disk 1
/// has three units left, so extent 9 goes to disks 0 and 3.
#[test]
fn homes_in_turn(rt: HostRuntime) -> Result<(), Fail> {
    let told = told(rt.alloc(), [17, 13, 15, 18]).ok_or("memory")?;
    let row = [
        [Some((0, 9)), Some((1, 9)), None],
        [Some((2, 9)), Some((3, 9)), None],
        [Some((0, 10)), Some((3, 13)), None],
    ];
    assert_eq!(rt; told, (3, row, [5, 1, 4, 8]));
    Ok(())
}

/// Disk 3 has 5 user units, of which the second extent leaves one. So disk 0 alone has room for the
/// last extent, and no partner of it: the row ends before that, and its place stays.
#[test]
fn no_space_for_the_last(rt: HostRuntime) -> Result<(), Fail> {
    let told = told(rt.alloc(), [17, 13, 15, 14]).ok_or("memory")?;
    let row = [
        [Some((0, 9)), Some((1, 9)), None],
        [Some((2, 9)), Some((3, 9)), None],
        [Some((63, 1)), None, None],
    ];
    assert_eq!(rt; told, (2, row, [1, 1, 4, 4]));
    Ok(())
}
