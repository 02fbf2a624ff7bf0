//! ADD: new disks join a mounted group.
ghost use Rattle.std.specs.Prelude.{◌≡◌, ◌≤◌, IfErr, OnOk, length, map};
ghost use Rattle.std.specs.String.{string_bytes};
ghost use Rattle.file_extents.specs.catalog.Plans.{MayAdd};
ghost use Rattle.file_extents.specs.group_engine.Mounts.{IsMounted, Takes};
ghost use Rattle.file_extents.specs.group_engine.Pending.{GoesOn};
ghost use Rattle.new_groups.specs.Drafts.{AreDisksApart};
ghost use Rattle.disk_joining.specs.AddCauses.{AddCause};
ghost use Rattle.disk_joining.specs.Asking.{asked_disks, given_numbers};
ghost use Rattle.disk_joining.specs.Joiners.{AreJoiners, AreEntered, HaveJoined, JoinStep, CanJoin, ShowHeaders};
ghost use Rattle.disk_joining.specs.Taking.{IsApart, TakesIn};

use crate::checking::are_entered;
use crate::heading::give_headers;
use crate::joined::attach_all;
use crate::joining::{Joining, prepare};
use crate::naming::failgroup_of;
use crate::recording::write_next;
use crate::returning::give_back;
use asm_base::{DiskSet, Mode, NoMemory};
use bay::Bay;
use file_extents::{DiskInfo, Mounted, or_shut};
use new_groups::{Headed, Known, NewFailgroup, partners};
use refusal_lines::Refusal;
use status_table::{PstEntry, PstRecord, with_births, with_entry, with_partners};
use std::alloc::Global;

/// Writes the status record by which so many births more were given.
fn give_births<B: Bay>(
    m: &mut Mounted,
    alloc: Global,
    bay: &mut B,
    count: u64,
) -> Result<(), Refusal>
    requires takes { Takes m.old (B.state bay.old) }
    ensures goes { GoesOn m.old result m.new (B.state bay.old) (B.state bay.new) }
    ensures tables { m.new.catalog.tables ≡ m.old.catalog.tables }
{
    let births = m.status().births.saturating_add(count);
    let next = with_births(m.status(), births);
    write_next(m, alloc, bay, &next)
}

/// Commits the directory records of the disks.
fn put_records<B: Bay>(
    m: &mut Mounted,
    alloc: Global,
    bay: &mut B,
    records: &[(u8, DiskInfo)],
) -> Result<(), Refusal>
    requires takes { Takes m.old (B.state bay.old) }
    requires records { MayAdd m.old.catalog.tables records.now }
    ensures goes { GoesOn m.old result m.new (B.state bay.old) (B.state bay.new) }
{
    match m.catalog().plan_disks(alloc, records) {
        Ok(change) => m.commit_plan(alloc, bay, &change),
        Err(_) => Err(Refusal::NoMemory),
    }
}

/// Commits the record of a rebalance of this power.
fn put_rebalance<B: Bay>(
    m: &mut Mounted,
    alloc: Global,
    bay: &mut B,
    power: u16,
) -> Result<(), Refusal>
    requires takes { Takes m.old (B.state bay.old) }
    ensures goes { GoesOn m.old result m.new (B.state bay.old) (B.state bay.new) }
{
    match m.catalog().plan_rebalance(alloc, Some(power)) {
        Ok(change) => m.commit_plan(alloc, bay, &change),
        Err(_) => Err(Refusal::NoMemory),
    }
}

/// The entry of a new disk.
fn entry_of(disk: &Headed, failgroup: u8, units: u32) -> PstEntry {
    PstEntry {
        number: disk.header.number,
        birth: disk.header.birth,
        mode: Mode::Online,
        failgroup,
        quorum: disk.header.quorum,
        units,
        since: 0,
        repair: 0,
        partners: DiskSet::empty(),
    }
}

/// The status record with the entry of a disk more, where there is room.
fn with_disk(m: &Mounted, status: &PstRecord, disk: &Headed, units: u32) -> PstRecord {
    if status.entries().len() >= 64 {
        return status.copy();
    }
    let failgroup = failgroup_of(m.catalog(), status, &disk.header.failgroup);
    with_entry(status, entry_of(disk, failgroup, units))
}

/// The status record with the entries of the disks.
fn with_disks(m: &Mounted, joining: &Joining) -> PstRecord {
    let mut next = m.status().copy();
    for (i, disk) in joining.disks.iter().enumerate() {
        if let Some(units) = joining.units.get(i) {
            next = with_disk(m, &next, disk, *units);
        }
    }
    next
}

/// The same, with the partners of all disks.
fn joined_record(alloc: Global, m: &Mounted, joining: &Joining) -> Result<PstRecord, NoMemory> {
    let next = with_disks(m, joining);
    let sets = partners(alloc, next.entries())?;
    Ok(with_partners(&next, &sets))
}

/// Writes the status record with the entries of the disks. That one would lack its entry is
/// answered as want of memory, and doesn't come.
fn put_entries<B: Bay>(
    m: &mut Mounted,
    alloc: Global,
    bay: &mut B,
    joining: &Joining,
) -> Result<(), Refusal>
    requires takes { Takes m.old (B.state bay.old) }
    ensures goes { GoesOn m.old result m.new (B.state bay.old) (B.state bay.new) }
    ensures entries { OnOk result (AreEntered m.new.register.value joining.now.disks.items) }
{
    let next = match joined_record(alloc, m, joining) {
        Ok(next) => next,
        Err(NoMemory) => return Err(Refusal::NoMemory),
    };
    if !are_entered(&next, &joining.disks) {
        return Err(Refusal::NoMemory);
    }
    write_next(m, alloc, bay, &next)
}

/// Gives the disks their headers. Where one fails, what was done is given back.
fn head_or_return<B: Bay>(
    m: &mut Mounted,
    alloc: Global,
    bay: &mut B,
    held: &[u32],
    disks: &[Headed],
) -> Result<(), Refusal>
    requires mounted { IsMounted m.old }
    requires takes { Takes m.old (B.state bay.old) }
    requires apart { IsApart held.now m.old }
    requires joiners { AreJoiners held.now m.old disks.now (B.state bay.old) }
    requires apart_disks { AreDisksApart disks.now }
    ensures joins { JoinStep held.now m.old result m.new (B.state bay.old) (B.state bay.new) }
    ensures show { OnOk result (ShowHeaders disks.now (B.state bay.new)) }
    ensures joiners { OnOk result (AreJoiners held.now m.new disks.now (B.state bay.new)) }
{
    let shape = m.catalog().shape();
    match give_headers(bay, disks, shape) {
        Ok(()) => Ok(()),
        Err(failed) => Err(give_back(m, alloc, bay, held, disks, failed)),
    }
}

/// The rebalance record, and then the status record with the entries of the disks.
fn enter<B: Bay>(
    m: &mut Mounted,
    alloc: Global,
    bay: &mut B,
    joining: &Joining,
    power: u16,
) -> Result<(), Refusal>
    requires takes { Takes m.old (B.state bay.old) }
    ensures goes { GoesOn m.old result m.new (B.state bay.old) (B.state bay.new) }
    ensures entries { OnOk result (AreEntered m.new.register.value joining.now.disks.items) }
{
    match put_rebalance(m, alloc, bay, power) {
        Ok(()) => put_entries(m, alloc, bay, joining),
        Err(refusal) => Err(refusal),
    }
}

/// Makes disks with headers those of the group: they get their entries, and are attached then.
fn join_headed<B: Bay>(
    m: &mut Mounted,
    alloc: Global,
    bay: &mut B,
    held: &[u32],
    joining: &Joining,
    power: u16,
) -> Result<(), Refusal>
    requires mounted { IsMounted m.old }
    requires takes { Takes m.old (B.state bay.old) }
    requires apart { IsApart held.now m.old }
    requires joiners { AreJoiners held.now m.old joining.now.disks.items (B.state bay.old) }
    requires show { ShowHeaders joining.now.disks.items (B.state bay.old) }
    ensures joins { JoinStep held.now m.old result m.new (B.state bay.old) (B.state bay.new) }
    ensures show { OnOk result (ShowHeaders joining.now.disks.items (B.state bay.new)) }
    ensures entries { OnOk result (AreEntered m.new.register.value joining.now.disks.items) }
{
    match enter(m, alloc, bay, joining, power) {
        Ok(()) => {
            attach_all(m, bay, held, &joining.disks);
            Ok(())
        }
        Err(refusal) => Err(refusal),
    }
}

/// What comes behind the directory records of the disks: their headers, and the rest.
fn join_recorded<B: Bay>(
    m: &mut Mounted,
    alloc: Global,
    bay: &mut B,
    held: &[u32],
    joining: &Joining,
    power: u16,
) -> Result<(), Refusal>
    requires mounted { IsMounted m.old }
    requires takes { Takes m.old (B.state bay.old) }
    requires apart { IsApart held.now m.old }
    requires joiners { AreJoiners held.now m.old joining.now.disks.items (B.state bay.old) }
    requires apart_disks { AreDisksApart joining.now.disks.items }
    ensures joins { JoinStep held.now m.old result m.new (B.state bay.old) (B.state bay.new) }
    ensures show { OnOk result (ShowHeaders joining.now.disks.items (B.state bay.new)) }
    ensures entries { OnOk result (AreEntered m.new.register.value joining.now.disks.items) }
{
    match head_or_return(m, alloc, bay, held, &joining.disks) {
        Ok(()) => join_headed(m, alloc, bay, held, joining, power),
        Err(refusal) => Err(refusal),
    }
}

/// What comes behind the status record with the births: the directory records of the disks, and the
/// rest.
fn join_born<B: Bay>(
    m: &mut Mounted,
    alloc: Global,
    bay: &mut B,
    held: &[u32],
    joining: &Joining,
    power: u16,
) -> Result<(), Refusal>
    requires mounted { IsMounted m.old }
    requires takes { Takes m.old (B.state bay.old) }
    requires apart { IsApart held.now m.old }
    requires may { CanJoin held.now m.old joining.now (B.state bay.old) }
    ensures joins { JoinStep held.now m.old result m.new (B.state bay.old) (B.state bay.new) }
    ensures show { OnOk result (ShowHeaders joining.now.disks.items (B.state bay.new)) }
    ensures entries { OnOk result (AreEntered m.new.register.value joining.now.disks.items) }
{
    match put_records(m, alloc, bay, &joining.records) {
        Ok(()) => join_recorded(m, alloc, bay, held, joining, power),
        Err(refusal) => Err(refusal),
    }
}

/// The status record with the births, and the rest.
fn join_all<B: Bay>(
    m: &mut Mounted,
    alloc: Global,
    bay: &mut B,
    held: &[u32],
    joining: &Joining,
    power: u16,
) -> Result<(), Refusal>
    requires mounted { IsMounted m.old }
    requires takes { Takes m.old (B.state bay.old) }
    requires apart { IsApart held.now m.old }
    requires may { CanJoin held.now m.old joining.now (B.state bay.old) }
    ensures joins { JoinStep held.now m.old result m.new (B.state bay.old) (B.state bay.new) }
    ensures show { OnOk result (ShowHeaders joining.now.disks.items (B.state bay.new)) }
    ensures entries { OnOk result (AreEntered m.new.register.value joining.now.disks.items) }
{
    match give_births(m, alloc, bay, joining.disks.len() as u64) {
        Ok(()) => {
            let answer = join_born(m, alloc, bay, held, joining, power);
            or_shut(m, answer)
        }
        Err(refusal) => Err(refusal),
    }
}

/// The disks join the group. After want of memory behind the first write the group takes no more
/// calls.
fn join<B: Bay>(
    m: &mut Mounted,
    alloc: Global,
    bay: &mut B,
    held: &[u32],
    joining: &Joining,
    power: u16,
) -> Result<(), Refusal>
    requires mounted { IsMounted m.old }
    requires takes { Takes m.old (B.state bay.old) }
    requires apart { IsApart held.now m.old }
    requires may { CanJoin held.now m.old joining.now (B.state bay.old) }
    ensures joins { JoinStep held.now m.old result m.new (B.state bay.old) (B.state bay.new) }
    ensures show { OnOk result (ShowHeaders joining.now.disks.items (B.state bay.new)) }
    ensures entries { OnOk result (AreEntered m.new.register.value joining.now.disks.items) }
{
    m.set_flight(None);
    join_all(m, alloc, bay, held, joining, power)
}

/// Adds new disks to a group, and makes a rebalance of this power the active one. `paths` are the
/// program's images, `known` what is known of the groups of the session: an image in a slot of
/// theirs, or of this group, is never taken. The move that is on its way is given up. Refusals in
/// their order: Dismounted; TooMany, where the group would have more than 64 disks; NoDisk,
/// DiskTaken (WriteFault where the old header couldn't be read), NameTaken, TooSmall;
/// DirectoryFull, whose need is the number of new disks; then WriteFault by a new disk that failed,
/// where all that was done is given back but the births; and Dismounted. NoMemory at any point:
/// behind the first write the group then takes no more calls.
pub fn add_disks<B: Bay>(
    m: &mut Mounted,
    alloc: Global,
    bay: &mut B,
    paths: &[String],
    known: &Known,
    groups: &[NewFailgroup],
    power: u16,
) -> Result<(), Refusal>
    requires few { length paths.now ≤ 512 }
    requires takes { Takes m.old (B.state bay.old) }
    requires apart { IsApart known.now.held.items m.old }
    // The group's parts agree, it takes the next call, and the disks of others stay.
    ensures taken { TakesIn known.now.held.items m.old m.new (B.state bay.old) (B.state bay.new) }
    ensures mounted { OnOk result (IsMounted m.new) }
    // Each disk that is named shows its header then, with the least free number, and has an entry
    // of that number and its birth.
    ensures joined { OnOk result (HaveJoined (asked_disks m.old groups.now)
        (given_numbers m.old groups.now) m.new (B.state bay.new)) }
    ensures cause { IfErr result (AddCause (map string_bytes paths.now) groups.now known.now m.old
        m.new (B.state bay.old) (B.state bay.new)) }
{
    match m.takes_calls() {
        Ok(()) => {}
        Err(refusal) => return Err(refusal),
    }
    match prepare(alloc, m, bay, paths, known, groups) {
        Ok(joining) => join(m, alloc, bay, &known.held, &joining, power),
        Err(refusal) => Err(refusal),
    }
}
