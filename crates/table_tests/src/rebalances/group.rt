//! Groups of disks of their own failure groups, and what their rebalance does.

ghost use Rattle.std.specs.Prelude.{IfOk};
ghost use Rattle.asm_formats.specs.Status.{Status};
ghost use Rattle.catalog_tables.specs.Tables.{Catalogued};
ghost use Rattle.rebalance.specs.Cursors.{IsCursor};
ghost use Rattle.rebalance.specs.Searching.{IsStatusOf};

use crate::helpers::{extent, judged};
use asm_base::{DiskSet, ExtentId, Home, Mode, Records};
use catalog::Catalog;
use rebalance::{Cursor, Move, Next, next_move, next_move_from, planned_moves_change_one_chunk};
use sample_group::{Edit, SHAPE, edited, is_regular, make_move};
use status_table::{PstEntry, PstRecord, is_status};
use std::alloc::Global;
use std::test::Fail;

/// What a rebalance does with file 256, by the index of the extent.
#[derive(Clone, Copy)]
pub enum Step {
    /// A copy shifts to a disk and a unit: index, copy, disk, unit.
    Shift(u32, u8, u8, u32),
    /// A copy gets a home: index, copy, disk, unit.
    Fill(u32, u8, u8, u32),
    NoSpace(u32),
    Lost(u32),
    Done,
}

fn next_of(step: Step) -> Next {
    match step {
        Step::Shift(index, copy, disk, unit) => Next::Move(Move::Shift {
            x: extent(index),
            copy,
            to: Home { disk, unit },
        }),
        Step::Fill(index, copy, disk, unit) => Next::Move(Move::Fill {
            x: extent(index),
            copy,
            to: Home { disk, unit },
        }),
        Step::NoSpace(index) => Next::NoSpace(extent(index)),
        Step::Lost(index) => Next::Lost(extent(index)),
        Step::Done => Next::Done,
    }
}

/// The status record of disks in these modes, at most five, each of so many units and a partner of
/// all others that stay. Tables and directory copies are on the first three.
fn status(modes: &[Mode], units: u32) -> PstRecord {
    let mut entries = [PstEntry::blank(); 64];
    let count = modes.len().min(5);
    let stays = staying(modes);
    for i in 0..count {
        entries[i] = entry(i as u8, modes[i], units, stays);
    }
    let tables = DiskSet::from_bits(if count < 3 { 1 } else { 7 });
    let dirs = DiskSet::from_bits(if count < 3 { 3 } else { 7 });
    PstRecord {
        id: 7,
        epoch: 1,
        turn: 1,
        gone: false,
        births: 5,
        holders: tables,
        next_holders: DiskSet::empty(),
        dirs,
        count: count as u8,
        entries,
    }
}

/// The set of the first five disks that are neither Dropping nor Forced, as bits.
fn staying(modes: &[Mode]) -> u64 {
    let mut bits = 0u64;
    for i in 0..modes.len().min(5) {
        if !matches!(modes[i], Mode::Dropping | Mode::Forced) {
            bits |= 1u64 << (i as u64 & 7);
        }
    }
    bits & 31
}

fn entry(number: u8, mode: Mode, units: u32, stays: u64) -> PstEntry {
    let own = 1u64 << (number & 7);
    let partners = if stays & own == 0 { 0 } else { stays & !own };
    PstEntry {
        number,
        birth: number as u64 + 1,
        mode,
        failgroup: number,
        quorum: false,
        units,
        since: 0,
        repair: 0,
        partners: DiskSet::from_bits(partners),
    }
}

/// The catalog of these records.
#[tactic(auto, unfolding(asm_formats::specs::Status::is_status))]
fn catalog(alloc: Global, records: &Records, status: &PstRecord) -> Result<Catalog, Fail>
    ensures { IfOk result (λ catalog. IsStatusOf catalog status.now) }
{
    if !SHAPE.is_allowed() || !is_status(status) {
        return Err(Fail::from("a shape and a status record"));
    }
    match Catalog::from_store(alloc, records, status, SHAPE) {
        Ok(catalog) => Ok(catalog),
        Err(_) => Err(Fail::from("the records are refused")),
    }
}

/// Shifts a copy by the plan of the move, and lets the cursor follow. Whether it is shifted.
fn is_shifted(
    alloc: Global,
    catalog: &mut Catalog,
    status: &PstRecord,
    cursor: &mut Cursor,
    x: ExtentId,
    copy: u8,
    to: Home,
) -> bool
    requires status { IsStatusOf catalog.old status.now }
    requires cursor { IsCursor catalog.old status.now cursor.old }
    ensures status { IsStatusOf catalog.new status.now }
    ensures cursor { IsCursor catalog.new status.now cursor.new }
{
    if !is_regular(status.entries(), to) {
        return false;
    }
    let Ok(moved) = make_move(alloc, catalog, x, copy, to) else {
        restart(cursor);
        return false;
    };
    if !moved {
        restart(cursor);
        return false;
    }
    planned_moves_change_one_chunk();
    // It keeps the rules, as the cursor asks.
    let _ = catalog.shape();
    cursor.follow(catalog, status, x);
    true
}

/// A cursor of every group.
fn restart(cursor: &mut Cursor)
    ensures { (c : Catalogued) (r : Status) → IsCursor c r cursor.new }
{
    *cursor = Cursor::start();
}

/// Whether the search of all extents, and that from the cursor on, give this next move.
fn gives(catalog: &Catalog, status: &PstRecord, cursor: &mut Cursor, next: Next) -> bool
    requires status { IsStatusOf catalog.now status.now }
    requires cursor { IsCursor catalog.now status.now cursor.old }
    ensures cursor { IsCursor catalog.now status.now cursor.new }
{
    let found = next_move_from(catalog, status, cursor);
    found == next && next_move(catalog, status) == next
}

/// Whether this is what the rebalance does next. A shift is made by its plan.
fn does(
    alloc: Global,
    catalog: &mut Catalog,
    status: &PstRecord,
    cursor: &mut Cursor,
    step: Step,
) -> bool
    requires status { IsStatusOf catalog.old status.now }
    requires cursor { IsCursor catalog.old status.now cursor.old }
    ensures status { IsStatusOf catalog.new status.now }
    ensures cursor { IsCursor catalog.new status.now cursor.new }
{
    if !gives(catalog, status, cursor, next_of(step)) {
        return false;
    }
    match step {
        Step::Shift(index, copy, disk, unit) => {
            let to = Home { disk, unit };
            is_shifted(alloc, catalog, status, cursor, extent(index), copy, to)
        }
        _ => true,
    }
}

/// The place of the first step that the rebalance doesn't do, of these one after the other.
fn wrong_in(
    alloc: Global,
    catalog: &mut Catalog,
    status: &PstRecord,
    steps: &[Step],
) -> Option<usize>
    requires { IsStatusOf catalog.old status.now }
{
    let mut cursor = Cursor::start();
    for (place, step) in steps.iter().enumerate() {
        if !does(alloc, catalog, status, &mut cursor, *step) {
            return Some(place);
        }
    }
    None
}

/// Does the steps, and lets the catalog go.
fn judged_in(
    alloc: Global,
    name: &'static str,
    mut group: Catalog,
    status: &PstRecord,
    steps: &[Step],
) -> Result<(), Fail>
    requires { IsStatusOf group status.now }
{
    judged(name, wrong_in(alloc, &mut group, status, steps))
}

/// The same by the catalog of some records.
fn judged_of(
    alloc: Global,
    name: &'static str,
    records: &Records,
    status: &PstRecord,
    steps: &[Step],
) -> Result<(), Fail> {
    match catalog(alloc, records, status) {
        Ok(group) => judged_in(alloc, name, group, status, steps),
        Err(fail) => Err(fail),
    }
}

/// Plays a row: the usual records of a small group after edits, its disks' modes, at most five, how
/// many units each has, and what the rebalance does there, in turn. A shift is made before the next
/// is asked for, of the search of all extents and of that which goes on from the move before. Fails
/// by its name where one of them gives another thing.
pub fn play(
    alloc: Global,
    name: &'static str,
    edits: &[Edit<'_>],
    disks: (&[Mode], u32),
    steps: &[Step],
) -> Result<(), Fail> {
    match edited(alloc, edits, 0) {
        Ok(records) => judged_of(alloc, name, &records, &status(disks.0, disks.1), steps),
        Err(fail) => Err(fail),
    }
}
