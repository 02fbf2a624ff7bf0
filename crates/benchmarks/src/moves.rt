//! The next move of a group with many extents.

ghost use Rattle.std.specs.Prelude.{◌≡◌, IfOk, IsTrue, List, OnOk, Some};
ghost use Rattle.asm_formats.specs.Status.{Entry};
ghost use Rattle.catalog.specs.ExtentPlans.{with_move};
ghost use Rattle.catalog_tables.specs.Placing.{HasUnits};
ghost use Rattle.catalog_tables.specs.Rules.{AreOnRegular, is_on_regular};
ghost use Rattle.rebalance.specs.Cursors.{IsCursor};
ghost use Rattle.rebalance.specs.Searching.{IsStatusOf};

use crate::paths::{Kind, node};
use crate::records::{made, name_of, out_of_memory, put_at, there, unexpected};
use asm_base::{
    DiskSet, ExtentId, GroupKind, Home, Key, Mode, Name, NoMemory, Records, Shape, Stripe, Value,
};
use catalog::Catalog;
use file_directory::{FileHead, record_of};
use rebalance::{Cursor, Move, Next, next_move, next_move_from, planned_moves_change_one_chunk};
use sample_group::{is_regular, make_move};
use status_table::{PstEntry, PstRecord, is_status};
use std::alloc::Global;
use std::io;
use std::time::{Duration, Instant};
use template_directory::{
    Settings, Template, are_allowed, settings_value, system, templates_value,
};

/// Files of 20,000 extents of one unit each, so 100,000 extents.
const FILES: u32 = 5;

const EXTENTS: u32 = 20_000;

/// Searches that are timed together.
const SEARCHES: u32 = 20;

/// Chunks of 256 extents that a file has.
const CHUNKS: u32 = 79;

/// What stands for a home that is absent.
const ABSENT: [u8; 5] = [255, 0, 0, 0, 0];

/// The first unit under a home.
const FIRST: u32 = 16;

/// Bytes of a unit.
const UNIT: u32 = 1_048_576;

const SHAPE: Shape = Shape {
    kind: GroupKind::External,
    au: UNIT,
    sector: 512,
    step: 20_000,
    dir_blocks: 1_024,
};

/// The times of searches for the next move of a group in which the last two extents are to be
/// shifted, and the one was: of searches that ask all extents, and of as many with the cursor of
/// the search for the move before.
pub fn searches(alloc: Global, rt: &HostRuntime) -> io::Result<(Duration, Duration)> {
    let mut records = Records::new(alloc);
    let times = match put_group(alloc, &mut records) {
        Ok(()) => searches_of(alloc, rt, &records),
        Err(error) => Err(error),
    };
    drop(records);
    times
}

/// The same of the group of these records.
fn searches_of(
    alloc: Global,
    rt: &HostRuntime,
    records: &Records,
) -> io::Result<(Duration, Duration)> {
    let status = status();
    match catalog(alloc, records, &status) {
        Ok(mut catalog) => {
            let times = searches_in(alloc, rt, &mut catalog, &status);
            drop(catalog);
            times
        }
        Err(error) => Err(error),
    }
}

/// The same in a catalog.
fn searches_in(
    alloc: Global,
    rt: &HostRuntime,
    catalog: &mut Catalog,
    status: &PstRecord,
) -> io::Result<(Duration, Duration)>
    requires { IsStatusOf catalog.old status.now }
{
    let mut cursor = Cursor::start();
    make_next(alloc, catalog, status, &mut cursor)?;
    timed(rt, catalog, status, &mut cursor)
}

/// The catalog of the records.
#[tactic(auto, unfolding(asm_formats::specs::Status::is_status))]
fn catalog(alloc: Global, records: &Records, status: &PstRecord) -> io::Result<Catalog>
    ensures { IfOk result (λ catalog. IsStatusOf catalog status.now) }
{
    if !SHAPE.is_allowed() || !is_status(status) {
        return Err(unexpected());
    }
    match Catalog::from_store(alloc, records, status, SHAPE) {
        Ok(catalog) => Ok(catalog),
        Err(_) => Err(unexpected()),
    }
}

/// Makes the next move, which is a shift, and lets the cursor follow.
fn make_next(
    alloc: Global,
    catalog: &mut Catalog,
    status: &PstRecord,
    cursor: &mut Cursor,
) -> io::Result<()>
    requires status { IsStatusOf catalog.old status.now }
    requires cursor { IsCursor catalog.old status.now cursor.old }
    ensures status { OnOk result (IsStatusOf catalog.new status.now) }
    ensures cursor { OnOk result (IsCursor catalog.new status.now cursor.new) }
{
    let Next::Move(next) = next_move_from(catalog, status, cursor) else {
        return Err(unexpected());
    };
    let Move::Shift { x, copy, to } = next else {
        return Err(unexpected());
    };
    if !is_regular(status.entries(), to) {
        return Err(unexpected());
    }
    make(alloc, catalog, x, copy, to)?;
    planned_moves_change_one_chunk();
    // It keeps the rules, as the cursor asks.
    let _ = catalog.shape();
    cursor.follow(catalog, status, x);
    Ok(())
}

fn make(alloc: Global, catalog: &mut Catalog, x: ExtentId, copy: u8, to: Home) -> io::Result<()>
    ensures moved { OnOk result (catalog.new.tables
        ≡ with_move catalog.old.tables x.file x.index copy to) }
    ensures shape { catalog.new.shape ≡ catalog.old.shape }
    ensures units { (entries : List Entry) → HasUnits catalog.old.shape entries catalog.old.tables
        catalog.old.units → HasUnits catalog.new.shape entries catalog.new.tables
        catalog.new.units }
    ensures regular { (entries : List Entry) → AreOnRegular entries catalog.old.tables
        → IsTrue (is_on_regular entries (Some to)) → AreOnRegular entries catalog.new.tables }
{
    match make_move(alloc, catalog, x, copy, to) {
        Ok(true) => Ok(()),
        Ok(false) => Err(unexpected()),
        Err(error) => Err(out_of_memory(error)),
    }
}

/// The times of so many searches of either kind, which find the same shift.
fn timed(
    rt: &HostRuntime,
    catalog: &Catalog,
    status: &PstRecord,
    cursor: &mut Cursor,
) -> io::Result<(Duration, Duration)>
    requires status { IsStatusOf catalog.now status.now }
    requires cursor { IsCursor catalog.now status.now cursor.old }
{
    let start = Instant::now(rt)?;
    let next = found_by_all(catalog, status);
    let all = start.elapsed(rt)?;
    let start = Instant::now(rt)?;
    let same = found_from(catalog, status, cursor);
    let rest = start.elapsed(rt)?;
    if next == same && is_shift(next) {
        Ok((all, rest))
    } else {
        Err(unexpected())
    }
}

/// What the last of many searches finds, each of which asks all extents.
fn found_by_all(catalog: &Catalog, status: &PstRecord) -> Next
    requires { IsStatusOf catalog.now status.now }
{
    let mut next = Next::Done;
    for _ in 0..SEARCHES {
        next = next_move(catalog, status);
    }
    next
}

/// The same of searches from the cursor on.
fn found_from(catalog: &Catalog, status: &PstRecord, cursor: &mut Cursor) -> Next
    requires status { IsStatusOf catalog.now status.now }
    requires cursor { IsCursor catalog.now status.now cursor.old }
{
    let mut next = Next::Done;
    for _ in 0..SEARCHES {
        next = next_move_from(catalog, status, cursor);
    }
    next
}

fn is_shift(next: Next) -> bool {
    matches!(next, Next::Move(Move::Shift { .. }))
}

/// Two disks of 131,072 units, of which the second is dropped.
fn status() -> PstRecord {
    let mut entries = [PstEntry::blank(); 64];
    entries[0] = entry(0, Mode::Online);
    entries[1] = entry(1, Mode::Dropping);
    PstRecord {
        id: 7,
        epoch: 1,
        turn: 1,
        gone: false,
        births: 2,
        holders: DiskSet::from_bits(1),
        next_holders: DiskSet::empty(),
        dirs: DiskSet::from_bits(1),
        count: 2,
        entries,
    }
}

fn entry(number: u8, mode: Mode) -> PstEntry {
    PstEntry {
        number,
        birth: number as u64 + 1,
        mode,
        failgroup: number,
        quorum: false,
        units: 131_072,
        since: 0,
        repair: 0,
        partners: DiskSet::empty(),
    }
}

fn put_group(alloc: Global, records: &mut Records) -> io::Result<()> {
    put_templates(alloc, records)?;
    put_settings(alloc, records)?;
    for number in 0..2u8 {
        put_at(alloc, records, (2, number as u32, 0), &disk(number))?;
    }
    let directory = node(0, Kind::Directory, 0, b"d");
    put_at(alloc, records, (6, 1, 0), &directory)?;
    for file in 0..FILES {
        put_file(alloc, records, file)?;
    }
    Ok(())
}

/// The templates of a new group.
fn put_templates(alloc: Global, records: &mut Records) -> io::Result<()> {
    match system(alloc, GroupKind::External) {
        Ok(templates) => {
            let put = put_these(alloc, records, templates.as_slice());
            drop(templates);
            put
        }
        Err(error) => Err(out_of_memory(error)),
    }
}

fn put_these(alloc: Global, records: &mut Records, templates: &[Template]) -> io::Result<()> {
    if !are_allowed(templates) {
        return Err(unexpected());
    }
    put_value(records, 5, templates_value(alloc, templates))
}

/// The settings of a new group.
fn put_settings(alloc: Global, records: &mut Records) -> io::Result<()> {
    let settings = Settings::usual(alloc);
    let put = if settings.is_allowed() {
        put_value(records, 9, settings_value(alloc, &settings))
    } else {
        Err(unexpected())
    };
    drop(settings);
    put
}

/// Puts the one record of a kind.
fn put_value(records: &mut Records, kind: u16, value: Result<Value, NoMemory>) -> io::Result<()> {
    match value {
        Ok(value) => made(records.insert(Key { kind, a: 0, b: 0 }, value)),
        Err(error) => Err(out_of_memory(error)),
    }
}

/// The value of a disk's record: its birth, and its name and failure group, each of one letter in a
/// field of 31 bytes.
fn disk(number: u8) -> [u8; 70] {
    let mut bytes = [0; 70];
    let letter = b'A'.saturating_add(number);
    bytes[7] = number.saturating_add(1);
    bytes[8] = 1;
    bytes[9] = letter;
    bytes[39] = 1;
    bytes[40] = letter;
    bytes
}

/// A file with its name in the directory and its extents, of which none is stale.
fn put_file(alloc: Global, records: &mut Records, file: u32) -> io::Result<()> {
    let number = file.saturating_add(256);
    let name = file.saturating_add(2);
    put_head(alloc, records, number, name)?;
    let system = node(1, Kind::System, number, &name_of(file));
    put_at(alloc, records, (6, name, 0), &system)?;
    for chunk in 0..CHUNKS {
        put_chunk(alloc, records, file, chunk)?;
        put_at(alloc, records, (12, number, chunk), &[0; 256])?;
    }
    Ok(())
}

/// The head of a coarse file of one copy, with its system node.
fn put_head(alloc: Global, records: &mut Records, file: u32, system: u32) -> io::Result<()> {
    let kind = there(Name::read(alloc, b"DATAFILE", 30))?;
    let head = FileHead {
        copies: 1,
        stripe: Stripe::Coarse,
        kind,
        size: EXTENTS as u64 * UNIT as u64,
        incarnation: 1,
        system,
        alias: 0,
    };
    let put = put_this(alloc, records, file, &head);
    drop(head);
    put
}

fn put_this(alloc: Global, records: &mut Records, file: u32, head: &FileHead) -> io::Result<()> {
    if !head.is_allowed(file) {
        return Err(unexpected());
    }
    match record_of(alloc, file, head) {
        Ok((key, value)) => made(records.insert(key, value)),
        Err(error) => Err(out_of_memory(error)),
    }
}

/// The homes of a chunk's extents.
fn put_chunk(alloc: Global, records: &mut Records, file: u32, chunk: u32) -> io::Result<()> {
    let key = (1, file.saturating_add(256), chunk.saturating_add(1));
    let mut bytes = Vec::new(alloc);
    let put = match put_homes(&mut bytes, file, chunk) {
        Ok(()) => put_at(alloc, records, key, &bytes),
        Err(error) => Err(error),
    };
    drop(bytes);
    put
}

/// The value of a chunk's record: of each extent the home of its copy, and two that are absent.
fn put_homes(bytes: &mut Vec<u8>, file: u32, chunk: u32) -> io::Result<()> {
    for place in 0..256u32 {
        let index = chunk.saturating_mul(256).saturating_add(place);
        bytes.extend_from_slice(&home(file, index))?;
        bytes.extend_from_slice(&ABSENT)?;
        bytes.extend_from_slice(&ABSENT)?;
    }
    Ok(())
}

/// A unit of the first disk, and of the second one for the last two extents of all.
fn home(file: u32, index: u32) -> [u8; 5] {
    if index >= EXTENTS {
        return ABSENT;
    }
    let unit = file
        .saturating_mul(EXTENTS)
        .saturating_add(index)
        .saturating_add(FIRST)
        .to_be_bytes();
    let is_last = file.saturating_add(1) == FILES && index.saturating_add(2) >= EXTENTS;
    [is_last as u8, unit[0], unit[1], unit[2], unit[3]]
}
