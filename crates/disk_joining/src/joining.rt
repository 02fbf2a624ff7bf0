//! What new disks become before anything is written: their headers, their records, and their units.
ghost use Rattle.std.specs.Prelude.{◌≡◌, ◌≤◌, ◌<◌, ◌*◌, [], IfErr, IfOk, IsTrue, length, map, true};
ghost use Rattle.std.specs.String.{string_bytes};
ghost use Rattle.refusal_lines.specs.Refusals.{meaning_of};
ghost use Rattle.asm_group.specs.Refusal.{NoMemory as NoMemoryLeft};
ghost use Rattle.asm_group.specs.Shape.{is_shape};
ghost use Rattle.disk_images.specs.Looks.{Looks};
ghost use Rattle.file_extents.specs.group_engine.Mounts.{IsWhole};
ghost use Rattle.disk_joining.specs.AddCauses.{IsNotPrepared, IsUnfit};
ghost use Rattle.disk_joining.specs.Asking.{asked_disks, given_numbers};
ghost use Rattle.disk_joining.specs.Joiners.{CanJoin, are_asked, may_join};

use crate::asked::{Asked, asked_disks};
use crate::checking::{are_asked, may_join};
use crate::looking::{Fitting, fit_disks, known_with};
use asm_base::NoMemory;
use bay::Bay;
use disk_header::Header;
use disk_images::{Looked, look_at_images};
use file_extents::{DiskInfo, Mounted};
use new_groups::{Headed, Known, NewFailgroup, Place, PlannedDisk};
use refusal_lines::Refusal;
use std::alloc::Global;

/// The disks that join a group, in the order of the statement: each with its image and the header
/// that it gets, with its record in the directories, and with its units.
#[derive(Drop)]
pub struct Joining {
    pub disks: Vec<Headed>,
    pub records: Vec<(u8, DiskInfo)>,
    pub units: Vec<u32>,
}

/// The header of a new disk.
fn header_of(m: &Mounted, number: u8, birth: u64, disk: &PlannedDisk) -> Result<Header, NoMemory> {
    let shape = m.catalog().shape();
    Ok(Header {
        group: m.name().copy()?,
        id: m.status().id,
        number,
        birth,
        kind: shape.kind,
        disk: disk.name.copy()?,
        failgroup: disk.failgroup.copy()?,
        quorum: disk.quorum,
        au_size: shape.au,
        sector: shape.sector,
        step: shape.step,
        dir_blocks: shape.dir_blocks,
    })
}

/// The record of a new disk.
fn info_of(birth: u64, disk: &PlannedDisk) -> Result<DiskInfo, NoMemory> {
    Ok(DiskInfo {
        birth,
        name: disk.name.copy()?,
        failgroup: disk.failgroup.copy()?,
    })
}

/// Puts a disk behind the others.
fn put_disk(
    m: &Mounted,
    number: u8,
    birth: u64,
    disk: &PlannedDisk,
    place: Place,
    units: u32,
    joining: &mut Joining,
) -> Result<(), NoMemory> {
    let headed = Headed {
        slot: place.slot,
        size: place.size,
        header: header_of(m, number, birth, disk)?,
    };
    joining.disks.push(headed).map_err(|_| NoMemory)?;
    let info = info_of(birth, disk)?;
    joining.records.push((number, info)).map_err(|_| NoMemory)?;
    joining.units.push(units).map_err(|_| NoMemory)
}

/// Puts the disk of a place in the statement behind the others. Its birth is that many behind the
/// last one given.
fn put_at(
    m: &Mounted,
    asked: &Asked,
    fitting: &Fitting,
    i: usize,
    joining: &mut Joining,
) -> Result<(), NoMemory> {
    let Some(disk) = asked.disks.get(i) else {
        return Ok(());
    };
    let Some(number) = asked.numbers.get(i) else {
        return Ok(());
    };
    let Some(place) = fitting.places.get(i) else {
        return Ok(());
    };
    let Some(units) = fitting.units.get(i) else {
        return Ok(());
    };
    let birth = m.status().births.saturating_add(i as u64).saturating_add(1);
    put_disk(m, *number, birth, disk, *place, *units, joining)
}

/// What the disks become.
fn joining_of(
    alloc: Global,
    m: &Mounted,
    asked: &Asked,
    fitting: &Fitting,
) -> Result<Joining, NoMemory> {
    let mut joining = Joining {
        disks: Vec::new(alloc),
        records: Vec::new(alloc),
        units: Vec::new(alloc),
    };
    for i in 0..asked.disks.len() {
        put_at(m, asked, fitting, i, &mut joining)?;
    }
    Ok(joining)
}

/// What the disks become, where it agrees with what was asked for and what was looked at. That it
/// doesn't is answered as want of memory, and doesn't come.
fn checked(
    alloc: Global,
    m: &Mounted,
    held: &[u32],
    asked: &Asked,
    fitting: &Fitting,
    looked: &[Looked],
) -> Result<Joining, Refusal>
    ensures may { IfOk result (λ joining. may_join m.now looked.now held.now joining ≡ true) }
    ensures asked { IfOk result (λ joining. are_asked joining.disks.items asked.now.disks.items
        asked.now.numbers.items ≡ true) }
    ensures refused { IfErr result (λ refusal. meaning_of (λ _. []) refusal ≡ NoMemoryLeft) }
{
    let joining = match joining_of(alloc, m, asked, fitting) {
        Ok(joining) => joining,
        Err(NoMemory) => return Err(Refusal::NoMemory),
    };
    if !may_join(m, looked, held, &joining) {
        return Err(Refusal::NoMemory);
    }
    if !are_asked(&joining.disks, &asked.disks, &asked.numbers) {
        return Err(Refusal::NoMemory);
    }
    Ok(joining)
}

/// What the disks become, once the images were looked at.
fn planned(
    alloc: Global,
    m: &Mounted,
    paths: &[String],
    known: &Known,
    asked: &Asked,
    looked: &[Looked],
) -> Result<Joining, Refusal>
    requires few { length paths.now ≤ 512 }
    requires shape { IsTrue (is_shape m.now.catalog.shape) }
    ensures may { IfOk result (λ joining. may_join m.now looked.now known.now.held.items joining
        ≡ true) }
    ensures asked { IfOk result (λ joining. are_asked joining.disks.items asked.now.disks.items
        asked.now.numbers.items ≡ true) }
    ensures refused { IfErr result (λ refusal. IsUnfit known.now m.now (map string_bytes paths.now)
        looked.now asked.now (meaning_of (λ _. []) refusal)) }
{
    let all = match known_with(alloc, m, known) {
        Ok(all) => all,
        Err(NoMemory) => return Err(Refusal::NoMemory),
    };
    match fit_disks(alloc, m, paths, &all, asked, looked) {
        Ok(fitting) => checked(alloc, m, &known.held, asked, &fitting, looked),
        Err(refusal) => Err(refusal),
    }
}

/// Does all that comes before the first write: looks at the images, and makes what the disks
/// become. The refusals in order: TooMany, NoDisk, DiskTaken or WriteFault, NameTaken, TooSmall,
/// DirectoryFull.
pub fn prepare<B: Bay>(
    alloc: Global,
    m: &Mounted,
    bay: &mut B,
    paths: &[String],
    known: &Known,
    groups: &[NewFailgroup],
) -> Result<Joining, Refusal>
    requires few { length paths.now ≤ 512 }
    requires whole { IsWhole m.now }
    ensures looks { Looks (λ slot. slot < length paths.now) (4 * length paths.now) (B.state bay.old)
        (B.state bay.new) }
    ensures may { IfOk result (λ joining. CanJoin known.now.held.items m.now joining
        (B.state bay.new)) }
    ensures asked { IfOk result (λ joining. are_asked joining.disks.items
        (asked_disks m.now groups.now) (given_numbers m.now groups.now) ≡ true) }
    ensures refused { IfErr result (λ refusal. IsNotPrepared (map string_bytes paths.now) groups.now
        known.now m.now (meaning_of (λ _. []) refusal) (B.state bay.old) (B.state bay.new)) }
{
    let asked = match asked_disks(alloc, m, groups) {
        Ok(asked) => asked,
        Err(refusal) => return Err(refusal),
    };
    match look_at_images(alloc, bay, paths) {
        Ok(looked) => planned(alloc, m, paths, known, &asked, &looked),
        Err(NoMemory) => Err(Refusal::NoMemory),
    }
}
