//! DROP and UNDROP.
ghost use Rattle.std.specs.Prelude.{◌≡◌, ◌⊎◌, ◌<◌, ◌==◌, ℕ, IfErr, OnOk, if◌then◌else◌, not};
ghost use Rattle.asm_formats.specs.Sets.{has_bit};
ghost use Rattle.asm_placement.specs.Modes.{is_dropping};
ghost use Rattle.record_laws.specs.group_engine.Commits.{StatusCause};
ghost use Rattle.record_laws.specs.group_engine.Mounts.{IsMounted, IsWhole, Takes};
ghost use Rattle.record_laws.specs.group_engine.Own.{KeepsGroup};
ghost use Rattle.record_laws.specs.group_engine.Pending.{GoesOn};
ghost use Rattle.disk_modes.specs.declared.records.NewModes.TheVariants as modes;
ghost use Rattle.disk_modes.specs.Causes.{DropDisksCause, DropRefused, IsFirstState, IsStateOf, LeavesTooLittle};
ghost use Rattle.disk_modes.specs.Directories.{LeavesCopy};
ghost use Rattle.disk_modes.specs.Effects.{AreNamedToDrop, DropsDisks, PutsBoth, Undrops, changes_for, has_dropping, undropping};
ghost use Rattle.disk_modes.specs.Modes.{drop_as};
ghost use Rattle.disk_modes.specs.Stops.{AreTakenAs, HasTwoTurns, MayPutModes, StaysHeld, TakesDisk};

use crate::changing::{Changes, change_disks};
use crate::checking::{
    Statement, check_directories, check_extents, check_groups, check_modes, directories_of,
};
use crate::finding::with_number;
use crate::losing::Counted;
use crate::records::{NewModes, with_modes};
use asm_base::{DiskSet, GroupKind, Mode};
use bay::Bay;
use record_laws::Mounted;
use refusal_lines::Refusal;
use status_table::PstEntry;
use std::alloc::Global;

/// A disk that a DROP names by its number.
#[derive(Clone, Copy, Debug, PartialEq, Eq)]
pub struct DropDisk {
    pub disk: u8,
    /// Whether FORCE is said.
    pub force: bool,
}

/// The disks that a DROP names, without FORCE and with it.
#[derive(Clone, Copy)]
struct Named {
    dropping: DiskSet,
    forced: DiskSet,
}

/// Drops disks. Those without FORCE are emptied by a rebalance of the power, which is active from
/// then on; those with FORCE are not asked any more, and have no directory copy. Of a disk that is
/// named twice the last option holds. Refusals in their order: Dismounted; DiskState, by the first
/// disk of the statement that isn't Online, or with FORCE is Forced; HoldsDirectories and
/// WouldLose, by the disks with FORCE; TooFewGroups, as counted after the whole statement, where
/// one is named without FORCE; NoMemory, after which between the two changes the group takes no
/// more calls.
pub fn drop_disks<B: Bay>(
    m: &mut Mounted,
    alloc: Global,
    bay: &mut B,
    disks: &[DropDisk],
    power: u16,
) -> Result<(), Refusal>
    requires takes { Takes m.old (B.state bay.old) }
    ensures keeps { KeepsGroup m.old m.new (B.state bay.old) (B.state bay.new) }
    ensures mounted { OnOk result (IsMounted m.new) }
    // Each disk that the statement names has the mode of its last option, and those with FORCE no
    // directory copy.
    ensures done { OnOk result (DropsDisks disks.now power m.old m.new) }
    ensures cause { IfErr result (λ refusal. DropRefused m.old disks.now refusal
        ⊎ StatusCause m.old m.new (B.state bay.old) (B.state bay.new) refusal) }
    // The group stays the one that it is, where turns don't run out: at each moment each image is
    // held for it alone, whatever the answer, and while it takes calls it is mounted. The record
    // takes a turn; that of the commit costs a copy.
    ensures held { HasTwoTurns m.old → StaysHeld m.old m.new (B.state bay.old) (B.state bay.new) }
{
    m.takes_calls()?;
    let named = named_by(disks);
    match check_drop(m, disks, &named) {
        Ok(()) => drop_named(m, alloc, bay, &named, power),
        Err(refusal) => Err(refusal),
    }
}

/// The disks named without FORCE and with it, by the last option of each.
fn named_by(disks: &[DropDisk]) -> Named
    ensures { AreNamedToDrop disks.now result.dropping result.forced }
{
    let mut named = Named {
        dropping: DiskSet::empty(),
        forced: DiskSet::empty(),
    };
    for one in disks {
        named = and_named(named, one.disk, one.force);
    }
    named
}

/// One disk more.
fn and_named(named: Named, disk: u8, force: bool) -> Named
    ensures dropping { (d : ℕ) → d < 64 → has_bit result.dropping d
        ≡ (if d == disk then not force else has_bit named.dropping d) }
    ensures forced { (d : ℕ) → d < 64 → has_bit result.forced d
        ≡ (if d == disk then force else has_bit named.forced d) }
{
    if disk >= 64 {
        return named;
    }
    if force {
        Named {
            dropping: named.dropping.without(disk),
            forced: named.forced.with(disk),
        }
    } else {
        Named {
            dropping: named.dropping.with(disk),
            forced: named.forced.without(disk),
        }
    }
}

/// Tries the refusals of a DROP.
fn check_drop(m: &Mounted, disks: &[DropDisk], named: &Named) -> Result<(), Refusal>
    requires { IsWhole m.now }
    ensures cause { IfErr result (DropDisksCause m.now disks.now named.now.dropping
        named.now.forced) }
    ensures may { AreNamedToDrop disks.now named.now.dropping named.now.forced
        → OnOk result (MayPutModes (modes.Dropped named.now.dropping named.now.forced)
        m.now.register.value) }
{
    match check_named(m, disks, named) {
        Ok(()) => check_copies(m, named),
        Err(refusal) => Err(refusal),
    }
}

/// Refused as DiskState by the first disk of the statement whose mode its option doesn't take.
fn check_named(m: &Mounted, disks: &[DropDisk], named: &Named) -> Result<(), Refusal>
    ensures cause { IfErr result (IsFirstState m.now named.now.forced disks.now) }
    ensures taken { OnOk result (AreTakenAs m.now named.now.forced disks.now) }
{
    for one in disks {
        match check_one(m, one.disk, named.forced.has(one.disk)) {
            Ok(()) => {}
            Err(refusal) => return Err(refusal),
        }
    }
    Ok(())
}

fn check_one(m: &Mounted, disk: u8, force: bool) -> Result<(), Refusal>
    ensures cause { IfErr result (IsStateOf (drop_as force) disk m.now.register.value.entries) }
    ensures taken { OnOk result (TakesDisk (drop_as force) disk m.now.register.value.entries) }
{
    let alone = with_number(DiskSet::empty(), disk);
    check_modes(m.status().entries(), alone, drop_as(force))
}

/// A disk is named with FORCE or without it.
fn drop_as(force: bool) -> Statement
    ensures { result ≡ drop_as force }
{
    if force {
        Statement::Force
    } else {
        Statement::Drop
    }
}

#[tactic(auto, using(crate::proofs::Reasons::drop_copies_by))]
fn check_copies(m: &Mounted, named: &Named) -> Result<(), Refusal>
    requires { IsWhole m.now }
    ensures cause { IfErr result (LeavesTooLittle m.now named.now.dropping named.now.forced) }
    ensures left { OnOk result (LeavesCopy m.now.register.value.directories named.now.forced) }
{
    match check_directories(directories_of(m.status()), named.forced) {
        Ok(()) => check_current(m, named),
        Err(refusal) => Err(refusal),
    }
}

#[tactic(auto, using(crate::proofs::Reasons::drop_losing_by))]
fn check_current(m: &Mounted, named: &Named) -> Result<(), Refusal>
    requires { IsWhole m.now }
    ensures { IfErr result (LeavesTooLittle m.now named.now.dropping named.now.forced) }
{
    if named.forced.bits() == 0 {
        return check_left(m, named);
    }
    match check_extents(
        m.catalog(),
        m.status().entries(),
        &Counted::Current,
        named.forced,
    ) {
        Ok(()) => check_left(m, named),
        Err(refusal) => Err(refusal),
    }
}

/// Refused as TooFewGroups where a disk is named without FORCE and the statement leaves too few.
#[tactic(auto, using(crate::proofs::Reasons::drop_groups_by))]
fn check_left(m: &Mounted, named: &Named) -> Result<(), Refusal>
    requires { IsWhole m.now }
    ensures { IfErr result (LeavesTooLittle m.now named.now.dropping named.now.forced) }
{
    if named.dropping.bits() == 0 {
        return Ok(());
    }
    let next = with_modes(m.status(), &modes_of(named));
    check_groups(kind_of(m), &next)
}

fn kind_of(m: &Mounted) -> GroupKind
    ensures { result ≡ m.now.catalog.shape.kind }
{
    m.catalog().shape().kind
}

fn modes_of(named: &Named) -> NewModes
    ensures { result ≡ modes.Dropped named.now.dropping named.now.forced }
{
    NewModes::Dropped {
        dropping: named.dropping,
        forced: named.forced,
    }
}

/// Drops the disks. With any FORCE the modes come first.
fn drop_named<B: Bay>(
    m: &mut Mounted,
    alloc: Global,
    bay: &mut B,
    named: &Named,
    power: u16,
) -> Result<(), Refusal>
    requires mounted { IsMounted m.old }
    requires takes { Takes m.old (B.state bay.old) }
    ensures goes { GoesOn m.old result m.new (B.state bay.old) (B.state bay.new) }
    ensures done { OnOk result (PutsBoth power (modes.Dropped named.now.dropping named.now.forced)
        m.old m.new) }
    ensures held { MayPutModes (modes.Dropped named.now.dropping named.now.forced)
        m.old.register.value → HasTwoTurns m.old
        → StaysHeld m.old m.new (B.state bay.old) (B.state bay.new) }
{
    let changes = changes_for(named, power);
    change_disks(m, alloc, bay, &modes_of(named), &changes)
}

fn changes_for(named: &Named, power: u16) -> Changes
    ensures { result ≡ changes_for named.now.forced power }
{
    if named.forced.bits() == 0 {
        Changes::RebalanceThenModes { power }
    } else {
        Changes::ModesThenRebalance { power }
    }
}

/// Each disk that is being dropped is Online again, and a rebalance of power 1 is active, also
/// where there is none. Refusals: Dismounted; NoMemory, after which between the two changes the
/// group takes no more calls.
pub fn undrop_disks<B: Bay>(m: &mut Mounted, alloc: Global, bay: &mut B) -> Result<(), Refusal>
    requires takes { Takes m.old (B.state bay.old) }
    ensures keeps { KeepsGroup m.old m.new (B.state bay.old) (B.state bay.new) }
    ensures mounted { OnOk result (IsMounted m.new) }
    ensures done { OnOk result (Undrops m.old m.new) }
    ensures cause { IfErr result (StatusCause m.old m.new (B.state bay.old) (B.state bay.new)) }
    // The group stays the one that it is: at each moment each image is held for it alone, whatever
    // the answer, and while it takes calls it is mounted. The record takes a turn; that of the
    // commit costs a copy.
    ensures held { StaysHeld m.old m.new (B.state bay.old) (B.state bay.new) }
{
    m.takes_calls()?;
    let changes = undropping(m.status().entries());
    change_disks(m, alloc, bay, &NewModes::Undropped, &changes)
}

/// The modes stay where no disk is being dropped.
fn undropping(entries: &[PstEntry]) -> Changes
    ensures { result ≡ undropping entries.now }
{
    if has_dropping(entries) {
        Changes::RebalanceThenModes { power: 1 }
    } else {
        Changes::Rebalance { power: 1 }
    }
}

/// Whether a disk is being dropped.
fn has_dropping(entries: &[PstEntry]) -> bool
    ensures { result ≡ has_dropping entries.now }
{
    entries.iter().any(is_dropping)
}

fn is_dropping(entry: &PstEntry) -> bool
    ensures { result ≡ is_dropping entry.now.mode }
{
    matches!(entry.mode, Mode::Dropping)
}
