// Values of attributes: what a creation makes of them, and what SET ATTRIBUTE may change.
use asm_base::GroupKind;
use attribute_values::{Creation, is_version, repair_seconds, with_attribute};
use std::alloc::Global;
use std::test::*;
use template_directory::Settings;

/// An attribute's name and its value.
type Given = (&'static [u8], &'static [u8]);

/// A creation of external redundancy with these attributes, one after the other. The inner None
/// where one is refused.
fn created(alloc: Global, all: &[Given]) -> Option<Option<Creation>> {
    let mut creation = Creation::usual(alloc, GroupKind::External);
    for given in all {
        let (name, value) = *given;
        match creation.with_attribute(alloc, name, value) {
            Ok(Some(next)) => creation = next,
            Ok(None) => return Some(None),
            Err(_) => return None,
        }
    }
    Some(Some(creation))
}

/// Bytes of a unit and of a sector, extents of each size, record blocks, whether a unit has eight
/// sectors, and the repair time in seconds.
type Told = (u32, u32, u32, u32, bool, u64);

fn told(creation: &Creation) -> Told {
    let shape = creation.shape;
    (
        shape.au,
        shape.sector,
        shape.step,
        shape.dir_blocks,
        creation.has_sectors(),
        creation.settings.repair,
    )
}

fn is_told(alloc: Global, all: &[Given], wanted: Option<Told>) -> bool {
    match (created(alloc, all), wanted) {
        (Some(Some(creation)), Some(wanted)) => {
            creation.shape.kind == GroupKind::External && told(&creation) == wanted
        }
        (Some(None), None) => true,
        _ => false,
    }
}

/// Attributes that a creation gives, and what is made of them.
type Row = (&'static [Given], Option<Told>);

/// Where one of the rows isn't as it must be.
fn other_row(alloc: Global, rows: &[Row]) -> Option<usize> {
    rows.iter()
        .position(|(all, wanted)| !is_told(alloc, all, *wanted))
}

const GIVEN: [Row; 3] = [
    (&[], Some((1_048_576, 512, 20_000, 1024, true, 12_960))),
    (
        &[
            (b"au_size", b"4M"),
            (b"SECTOR_SIZE", b"4K"),
            (b"extent_step", b"8"),
            (b"Dir_Blocks", b"128"),
        ],
        Some((4_194_304, 4096, 8, 128, true, 12_960)),
    ),
    (
        &[(b"Disk_Repair_Time", b"5m")],
        Some((1_048_576, 512, 20_000, 1024, true, 300)),
    ),
];

#[test]
fn attributes_of_a_creation(rt: HostRuntime) {
    assert_eq!(rt; other_row(rt.alloc(), &GIVEN), None);
}

const IN_TURN: [Row; 4] = [
    (
        &[
            (b"au_size", b"1M"),
            (b"sector_size", b"512"),
            (b"AU_SIZE", b"4K"),
        ],
        Some((4096, 512, 20_000, 1024, true, 12_960)),
    ),
    (
        &[
            (b"au_size", b"16K"),
            (b"sector_size", b"4096"),
            (b"AU_SIZE", b"64K"),
        ],
        Some((65_536, 4096, 20_000, 1024, true, 12_960)),
    ),
    (
        &[
            (b"au_size", b"64K"),
            (b"sector_size", b"4096"),
            (b"AU_SIZE", b"16K"),
        ],
        Some((16_384, 4096, 20_000, 1024, false, 12_960)),
    ),
    (
        &[
            (b"au_size", b"1M"),
            (b"sector_size", b"512"),
            (b"AU_SIZE", b"3M"),
        ],
        None,
    ),
];

/// The last value of an attribute holds, and whether a unit has eight sectors goes by the last
/// values alone.
#[test]
fn last_value_holds(rt: HostRuntime) {
    assert_eq!(rt; other_row(rt.alloc(), &IN_TURN), None);
}

/// An attribute, and whether a creation may give it.
const ALLOWED: [(Given, bool); 9] = [
    ((b"sector_size", b"1024"), false),
    ((b"extent_step", b"12"), false),
    ((b"extent_step", b"20000"), true),
    ((b"extent_step", b"20008"), false),
    ((b"dir_blocks", b"127"), false),
    ((b"dir_blocks", b"16384"), true),
    ((b"redundancy", b"HIGH"), false),
    ((b"disk_repair_time", b"1.25h"), false),
    ((b"compatible.asm", b"11.20"), false),
];

fn is_allowed(alloc: Global, given: Given) -> Option<bool> {
    Some(created(alloc, &[given])?.is_some())
}

#[test]
fn refused_values(rt: HostRuntime) {
    for (given, wanted) in ALLOWED {
        assert_eq!(rt; is_allowed(rt.alloc(), given), Some(wanted));
    }
}

/// The usual settings with an attribute that may be set at any time. The inner None where it is
/// refused.
fn set(alloc: Global, given: Given) -> Option<Option<Settings>> {
    let (name, value) = given;
    let usual = Settings::usual(alloc);
    if usual.is_allowed() {
        with_attribute(alloc, &usual, name, value).ok()
    } else {
        None
    }
}

/// The repair time in seconds, and the lengths of the texts of compatible.asm, compatible.rdbms and
/// compatible.advm.
type Set = (u64, [usize; 3]);

fn told_set(settings: &Settings) -> Set {
    let lengths = [
        settings.asm.len(),
        settings.rdbms.len(),
        settings.advm.len(),
    ];
    (settings.repair, lengths)
}

fn is_set(alloc: Global, given: Given, wanted: Option<Set>) -> bool {
    match set(alloc, given) {
        Some(Some(settings)) => wanted == Some(told_set(&settings)),
        Some(None) => wanted.is_none(),
        None => false,
    }
}

const SET: [(Given, Option<Set>); 3] = [
    ((b"Compatible.advm", b"11.2.0.4"), Some((12_960, [0, 0, 8]))),
    ((b"disk_repair_time", b"0.1m"), Some((6, [0, 0, 0]))),
    ((b"au_size", b"4M"), None),
];

#[test]
fn attributes_at_any_time(rt: HostRuntime) {
    for (given, wanted) in SET {
        assert!(rt; is_set(rt.alloc(), given, wanted));
    }
}

/// Repair times, and their seconds.
const TIMES: [(&[u8], Option<u64>); 5] = [
    (b"0.1m", Some(6)),
    (b"3.6h", Some(12_960)),
    (b"100000", Some(360_000_000)),
    (b"100000.1m", None),
    (b"1.25h", None),
];

fn seconds(time: &[u8]) -> Option<u64> {
    repair_seconds(time)
}

#[test]
fn repair_times(rt: HostRuntime) {
    for (time, wanted) in TIMES {
        assert_eq!(rt; seconds(time), wanted);
    }
}

const VERSIONS: [(&[u8], bool); 4] = [
    (b"11.2", true),
    (b"11.2.0.4", true),
    (b"11.20", false),
    (b"11.2.", false),
];

fn may_be_version(text: &[u8]) -> bool {
    is_version(text)
}

#[test]
fn versions(rt: HostRuntime) {
    for (text, wanted) in VERSIONS {
        assert_eq!(rt; may_be_version(text), wanted);
    }
}
