// What statements do to the disks of one group.
ghost use Rattle.std.specs.Prelude.{⊤, ◌≤◌, length};
ghost use Rattle.session.specs.disk_joining.Taking.{IsApart, TakesIn};
ghost use Rattle.session.specs.group_engine.Mounts.{Takes};
ghost use Rattle.session.specs.group_engine.Members.{LetsGo};

use asm_base::{DiskSet, MOST_DISKS, Name, NoMemory};
use bay::Bay;
use group_sql::{DroppedDisk, FailgroupKind, NewFailgroup, Rebalance};
use refusal_lines::Refusal;
use session::{
    Attaching, DropDisk, GroupSort, GroupWork, Known, Mounted, add_disks, disk_named,
    disks_in_group, drop_disks, offline_disks, offline_set, online_disks, resize_disks,
    serving_disks, set_rebalance, undrop_disks,
};
use std::alloc::Global;

/// The most steps that a slice of a rebalance may have.
const MOST_POWER: u64 = 1024;

// ---- the power of a rebalance

/// The steps of a slice, 1 where a statement doesn't say it, and whether it waits for the end.
pub fn said_of(rebalance: Option<Rebalance>) -> (u64, bool) {
    match rebalance {
        Some(said) => (said.power.unwrap_or(1), said.wait),
        None => (1, false),
    }
}

/// The steps of a slice as they are kept. BadPower where it is above 1,024.
pub fn checked_power(power: u64) -> Result<u16, Refusal> {
    if power > MOST_POWER {
        return Err(Refusal::BadPower { n: power });
    }
    Ok(power as u16)
}

// ---- the disks that a statement means

/// Disks of a group.
#[derive(Clone, Copy)]
pub enum Chosen<'a> {
    /// By their names.
    Named(&'a [Name]),
    /// Those of a failure group, which has to be of the kind, where one is said.
    InGroup {
        kind: Option<FailgroupKind>,
        name: &'a Name,
    },
    /// All that are Offline.
    Offline,
    /// All that serve.
    Serving,
}

fn sort_of(kind: Option<FailgroupKind>) -> GroupSort {
    match kind {
        None => GroupSort::Any,
        Some(FailgroupKind::Quorum) => GroupSort::Quorum,
        Some(FailgroupKind::Regular) => GroupSort::Regular,
    }
}

/// The disks of a failure group. NoName where there is none of the name and kind.
fn failgroup(m: &Mounted, kind: Option<FailgroupKind>, name: &Name) -> Result<DiskSet, Refusal> {
    match disks_in_group(m, sort_of(kind), name) {
        Some(disks) => Ok(disks),
        None => Err(Refusal::NoName),
    }
}

/// The set with a disk more. No disk has a number from 64 on.
fn with_disk(disks: DiskSet, disk: u8) -> DiskSet {
    if disk < MOST_DISKS {
        disks.with(disk)
    } else {
        disks
    }
}

/// The disks of these names. NoName where there is none of one of them.
fn disks_named(m: &Mounted, names: &[Name]) -> Result<DiskSet, Refusal> {
    let mut disks = DiskSet::empty();
    for name in names {
        match disk_named(m, name) {
            Some(disk) => disks = with_disk(disks, disk),
            None => return Err(Refusal::NoName),
        }
    }
    Ok(disks)
}

impl Chosen<'_> {
    /// The disks by their numbers. NoName where there is none of a name.
    fn find(self, m: &Mounted) -> Result<DiskSet, Refusal> {
        match self {
            Chosen::Named(names) => disks_named(m, names),
            Chosen::InGroup { kind, name } => failgroup(m, kind, name),
            Chosen::Offline => Ok(offline_set(m)),
            Chosen::Serving => Ok(serving_disks(m)),
        }
    }
}

// ---- disks that are dropped

/// Puts a disk behind others. One that is there already gets the option.
fn put_drop(drops: &mut Vec<DropDisk>, dropped: DropDisk) -> Result<(), NoMemory> {
    for other in drops.iter_mut() {
        if other.disk == dropped.disk {
            other.force = dropped.force;
            return Ok(());
        }
    }
    drops.push(dropped).map_err(|_| NoMemory)
}

/// Puts the disk of a name behind others. NoName where there is none.
fn put_dropped(
    m: &Mounted,
    drops: &mut Vec<DropDisk>,
    dropped: &DroppedDisk,
) -> Result<(), Refusal> {
    let Some(disk) = disk_named(m, &dropped.name) else {
        return Err(Refusal::NoName);
    };
    let force = dropped.force;
    match put_drop(drops, DropDisk { disk, force }) {
        Ok(()) => Ok(()),
        Err(NoMemory) => Err(Refusal::NoMemory),
    }
}

/// The disks that a statement drops, in its order, each once and with its last option. NoName where
/// there is none of a name.
fn drops_named(
    alloc: Global,
    m: &Mounted,
    disks: &[DroppedDisk],
) -> Result<Vec<DropDisk>, Refusal> {
    let mut drops = Vec::new(alloc);
    for dropped in disks {
        put_dropped(m, &mut drops, dropped)?;
    }
    Ok(drops)
}

/// These disks by number, each with the option.
fn drops_of(alloc: Global, disks: DiskSet, force: bool) -> Result<Vec<DropDisk>, NoMemory> {
    let mut drops = Vec::new(alloc);
    for disk in 0..MOST_DISKS {
        if disks.has(disk) {
            put_drop(&mut drops, DropDisk { disk, force })?;
        }
    }
    Ok(drops)
}

/// The disks of a failure group, each with the option. NoName where there is none of the name and
/// kind.
fn drops_in_group(
    alloc: Global,
    m: &Mounted,
    kind: Option<FailgroupKind>,
    name: &Name,
    force: bool,
) -> Result<Vec<DropDisk>, Refusal> {
    let disks = failgroup(m, kind, name)?;
    match drops_of(alloc, disks, force) {
        Ok(drops) => Ok(drops),
        Err(NoMemory) => Err(Refusal::NoMemory),
    }
}

// ---- disks that stay attached as they are

/// What is done to the disks of a group.
#[derive(Clone, Copy)]
pub enum DiskChange<'a> {
    /// They are dropped, by name.
    Drop(&'a [DroppedDisk]),
    /// Those of a failure group are dropped.
    DropGroup {
        kind: Option<FailgroupKind>,
        name: &'a Name,
        force: bool,
    },
    /// All that are being dropped stay.
    Undrop,
    /// They get a size in bytes, or that of their images.
    Resize {
        disks: Chosen<'a>,
        size: Option<u64>,
    },
    /// Extents are moved, and no disk changes.
    Rebalance,
    /// They don't serve from this time in seconds on, and are dropped after so many seconds.
    Offline {
        disks: Chosen<'a>,
        repair: Option<u64>,
        now: u64,
    },
}

#[tactic(auto, using(session::proofs::Keeping::lets_go))]
fn drop_these<B: Bay>(
    m: &mut Mounted,
    alloc: Global,
    bay: &mut B,
    drops: Vec<DropDisk>,
    power: u16,
) -> Result<(), Refusal>
    requires takes { Takes m.old (B.state bay.old) }
    ensures keeps { LetsGo m.old m.new (B.state bay.old) (B.state bay.new) }
{
    let dropped = drop_disks(m, alloc, bay, &drops, power);
    drop(drops);
    dropped
}

#[tactic(auto, using(session::proofs::Keeping::lets_none))]
fn drop_named<B: Bay>(
    m: &mut Mounted,
    alloc: Global,
    bay: &mut B,
    disks: &[DroppedDisk],
    power: u16,
) -> Result<(), Refusal>
    requires takes { Takes m.old (B.state bay.old) }
    ensures keeps { LetsGo m.old m.new (B.state bay.old) (B.state bay.new) }
{
    match drops_named(alloc, m, disks) {
        Ok(drops) => drop_these(m, alloc, bay, drops, power),
        Err(refusal) => Err(refusal),
    }
}

#[tactic(auto, using(session::proofs::Keeping::lets_none))]
fn drop_group<B: Bay>(
    m: &mut Mounted,
    alloc: Global,
    bay: &mut B,
    kind: Option<FailgroupKind>,
    name: &Name,
    force: bool,
    power: u16,
) -> Result<(), Refusal>
    requires takes { Takes m.old (B.state bay.old) }
    ensures keeps { LetsGo m.old m.new (B.state bay.old) (B.state bay.new) }
{
    match drops_in_group(alloc, m, kind, name, force) {
        Ok(drops) => drop_these(m, alloc, bay, drops, power),
        Err(refusal) => Err(refusal),
    }
}

#[tactic(auto, using(session::proofs::Keeping::lets_go, session::proofs::Keeping::lets_none))]
fn resize<B: Bay>(
    m: &mut Mounted,
    alloc: Global,
    bay: &mut B,
    chosen: Chosen<'_>,
    size: Option<u64>,
    power: u16,
) -> Result<(), Refusal>
    requires takes { Takes m.old (B.state bay.old) }
    ensures keeps { LetsGo m.old m.new (B.state bay.old) (B.state bay.new) }
{
    match chosen.find(m) {
        Ok(disks) => resize_disks(m, alloc, bay, disks, size, power),
        Err(refusal) => Err(refusal),
    }
}

#[tactic(auto, using(session::proofs::Keeping::lets_go, session::proofs::Keeping::lets_none))]
fn offline<B: Bay>(
    m: &mut Mounted,
    alloc: Global,
    bay: &mut B,
    chosen: Chosen<'_>,
    repair: Option<u64>,
    now: u64,
) -> Result<(), Refusal>
    requires takes { Takes m.old (B.state bay.old) }
    ensures keeps { LetsGo m.old m.new (B.state bay.old) (B.state bay.new) }
{
    match chosen.find(m) {
        Ok(disks) => offline_disks(m, alloc, bay, disks, repair, now),
        Err(refusal) => Err(refusal),
    }
}

#[tactic(auto, using(session::proofs::Keeping::lets_go))]
fn undrop<B: Bay>(m: &mut Mounted, alloc: Global, bay: &mut B) -> Result<(), Refusal>
    requires takes { Takes m.old (B.state bay.old) }
    ensures keeps { LetsGo m.old m.new (B.state bay.old) (B.state bay.new) }
{
    match undrop_disks(m, alloc, bay) {
        Ok(()) => Ok(()),
        Err(refusal) => Err(refusal),
    }
}

#[tactic(auto, using(session::proofs::Keeping::lets_go))]
fn rebalance<B: Bay>(m: &mut Mounted, alloc: Global, bay: &mut B, power: u16) -> Result<(), Refusal>
    requires takes { Takes m.old (B.state bay.old) }
    ensures keeps { LetsGo m.old m.new (B.state bay.old) (B.state bay.new) }
{
    match set_rebalance(m, alloc, bay, Some(power)) {
        Ok(()) => Ok(()),
        Err(refusal) => Err(refusal),
    }
}

/// Changes the disks of a group, and makes a rebalance of the power active where the change asks
/// for one.
fn change_disks<B: Bay>(
    m: &mut Mounted,
    alloc: Global,
    bay: &mut B,
    change: DiskChange<'_>,
    power: u16,
) -> Result<(), Refusal>
    requires takes { Takes m.old (B.state bay.old) }
    ensures keeps { LetsGo m.old m.new (B.state bay.old) (B.state bay.new) }
{
    match change {
        DiskChange::Drop(disks) => drop_named(m, alloc, bay, disks, power),
        DiskChange::DropGroup { kind, name, force } => drop_group(
            m, alloc, bay, kind, name, force, power,
        ),
        DiskChange::Undrop => undrop(m, alloc, bay),
        DiskChange::Resize { disks, size } => resize(m, alloc, bay, disks, size, power),
        DiskChange::Rebalance => rebalance(m, alloc, bay, power),
        DiskChange::Offline { disks, repair, now } => offline(m, alloc, bay, disks, repair, now),
    }
}

/// The disks of a group change, with a rebalance of this power. BadPower comes before what the
/// change is refused for.
#[derive(Clone, Copy)]
pub struct ChangeDisks<'a> {
    pub change: DiskChange<'a>,
    pub power: u64,
}

impl GroupWork for ChangeDisks<'_> {
    type Given = ();

    ghost does = { λ work old result new s t. ⊤ };

    #[tactic(auto, using(session::proofs::Keeping::lets_none))]
    fn run<B: Bay>(self, m: &mut Mounted, alloc: Global, bay: &mut B) -> Result<(), Refusal> {
        match checked_power(self.power) {
            Ok(power) => change_disks(m, alloc, bay, self.change, power),
            Err(refusal) => Err(refusal),
        }
    }
}

// ---- disks that are attached

/// Images that are attached to a group as its disks.
#[derive(Clone, Copy)]
pub enum Joining<'a> {
    /// New ones, with a rebalance of this power.
    Add {
        groups: &'a [NewFailgroup],
        power: u64,
    },
    /// Those of disks that were Offline.
    Online(Chosen<'a>),
}

/// Adds new disks, with a rebalance of this power. None of them waits for a resync then.
fn add_these<B: Bay>(
    m: &mut Mounted,
    alloc: Global,
    bay: &mut B,
    paths: &[String],
    known: &Known,
    groups: &[NewFailgroup],
    power: u16,
) -> Result<DiskSet, Refusal>
    requires few { length paths.now ≤ 512 }
    requires takes { Takes m.old (B.state bay.old) }
    requires apart { IsApart known.now.held.items m.old }
    ensures keeps { TakesIn known.now.held.items m.old m.new (B.state bay.old) (B.state bay.new) }
{
    match add_disks(m, alloc, bay, paths, known, groups, power) {
        Ok(()) => Ok(DiskSet::empty()),
        Err(refusal) => Err(refusal),
    }
}

/// Adds new disks. Its refusals begin with BadPower.
fn add<B: Bay>(
    m: &mut Mounted,
    alloc: Global,
    bay: &mut B,
    paths: &[String],
    known: &Known,
    groups: &[NewFailgroup],
    power: u64,
) -> Result<DiskSet, Refusal>
    requires few { length paths.now ≤ 512 }
    requires takes { Takes m.old (B.state bay.old) }
    requires apart { IsApart known.now.held.items m.old }
    ensures keeps { TakesIn known.now.held.items m.old m.new (B.state bay.old) (B.state bay.new) }
{
    match checked_power(power) {
        Ok(power) => add_these(m, alloc, bay, paths, known, groups, power),
        Err(refusal) => Err(refusal),
    }
}

fn online_these<B: Bay>(
    m: &mut Mounted,
    alloc: Global,
    bay: &mut B,
    paths: &[String],
    held: &[u32],
    disks: DiskSet,
) -> Result<DiskSet, Refusal>
    requires few { length paths.now ≤ 512 }
    requires takes { Takes m.old (B.state bay.old) }
    requires apart { IsApart held.now m.old }
    ensures keeps { TakesIn held.now m.old m.new (B.state bay.old) (B.state bay.new) }
{
    match online_disks(m, alloc, bay, paths, held, disks) {
        Ok(()) => Ok(disks),
        Err(refusal) => Err(refusal),
    }
}

/// Brings disks back, and gives their numbers.
fn online<B: Bay>(
    m: &mut Mounted,
    alloc: Global,
    bay: &mut B,
    paths: &[String],
    held: &[u32],
    chosen: Chosen<'_>,
) -> Result<DiskSet, Refusal>
    requires few { length paths.now ≤ 512 }
    requires takes { Takes m.old (B.state bay.old) }
    requires apart { IsApart held.now m.old }
    ensures keeps { TakesIn held.now m.old m.new (B.state bay.old) (B.state bay.new) }
{
    match chosen.find(m) {
        Ok(disks) => online_these(m, alloc, bay, paths, held, disks),
        Err(refusal) => Err(refusal),
    }
}

impl Attaching for Joining<'_> {
    fn run<B: Bay>(
        self,
        m: &mut Mounted,
        alloc: Global,
        bay: &mut B,
        paths: &[String],
        known: &Known,
    ) -> Result<DiskSet, Refusal> {
        match self {
            Joining::Add { groups, power } => add(m, alloc, bay, paths, known, groups, power),
            Joining::Online(chosen) => online(m, alloc, bay, paths, &known.held, chosen),
        }
    }
}
