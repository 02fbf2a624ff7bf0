// Why a statement on disks is refused.
ghost use Rattle.std.specs.Prelude.{◌≡◌, ◌<◌, ℕ, IfErr, IfNone, IfSome, OnOk, false};
ghost use Rattle.std.specs.Bool.{OnFalse, OnTrue};
ghost use Rattle.asm_formats.specs.Sets.{has_bit};
ghost use Rattle.disk_modes.specs.Directories.{DirectoriesCause, IsLeastOfSet, IsLeft, IsSubset, LeavesCopy};
ghost use Rattle.disk_modes.specs.Losing.{LosingCause};
ghost use Rattle.disk_modes.specs.Modes.{TakesEachDisk, GroupsCause, ModeStateCause, groups_needed, other, takes};

use crate::losing::{Counted, first_losing};
use asm_base::{DiskSet, GroupKind, Mode};
use group_reports::{Catalog, serving_groups};
use refusal_lines::{DiskRef, Refusal};
use status_table::{PstEntry, PstRecord};

/// A statement that takes disks of some modes.
#[derive(Clone, Copy)]
pub enum Statement {
    Offline,
    Drop,
    Force,
    Resize,
}

/// Whether a statement takes disks of this mode.
fn takes(statement: Statement, mode: Mode) -> bool
    ensures { result ≡ takes statement mode }
{
    match statement {
        Statement::Offline => matches!(mode, Mode::Online),
        Statement::Drop => matches!(mode, Mode::Online),
        Statement::Force => !matches!(mode, Mode::Forced),
        Statement::Resize => matches!(mode, Mode::Online | Mode::Syncing | Mode::Dropping),
    }
}

/// The first disk of a set whose mode the statement doesn't take.
fn other(entries: &[PstEntry], disks: DiskSet, statement: Statement) -> Option<PstEntry>
    ensures { result ≡ other statement disks entries.now }
{
    for entry in entries {
        if disks.has(entry.number) && !takes(statement, entry.mode) {
            return Some(*entry);
        }
    }
    None
}

/// Refused as DiskState by the least disk of a set whose mode the statement doesn't take.
pub(crate) fn check_modes(
    entries: &[PstEntry],
    disks: DiskSet,
    statement: Statement,
) -> Result<(), Refusal>
    ensures cause { IfErr result (ModeStateCause statement disks entries.now) }
    ensures taken { OnOk result (TakesEachDisk statement disks entries.now) }
{
    match other(entries, disks, statement) {
        Some(entry) => Err(Refusal::DiskState {
            disk: DiskRef::Number(entry.number),
            mode: entry.mode,
        }),
        None => Ok(()),
    }
}

/// The disks that have directory copies.
pub(crate) fn directories_of(status: &PstRecord) -> DiskSet
    ensures { result ≡ status.now.directories }
{
    status.dirs
}

/// Refused as HoldsDirectories where a set of disks has all directory copies, by the least that has
/// one.
pub(crate) fn check_directories(directories: DiskSet, disks: DiskSet) -> Result<(), Refusal>
    ensures cause { IfErr result (DirectoriesCause directories disks) }
    ensures left { OnOk result (LeavesCopy directories disks) }
{
    if !is_within(directories, disks) {
        return Ok(());
    }
    match least_of(directories) {
        Some(disk) => Err(Refusal::HoldsDirectories {
            disk: DiskRef::Number(disk),
        }),
        None => Ok(()),
    }
}

/// Whether each disk of a set is in the other.
fn is_within(set: DiskSet, all: DiskSet) -> bool
    ensures within { OnTrue result (IsSubset set all) }
    ensures left { OnFalse result (IsLeft set all) }
{
    for disk in 0..64u8 {
        if set.has(disk) && !all.has(disk) {
            return false;
        }
    }
    true
}

/// The least disk of a set.
fn least_of(set: DiskSet) -> Option<u8>
    ensures least { IfSome result (IsLeastOfSet set) }
    ensures none { IfNone result ((d : ℕ) → d < 64 → has_bit set d ≡ false) }
{
    for disk in 0..64u8 {
        if set.has(disk) {
            return Some(disk);
        }
    }
    None
}

/// Refused as WouldLose by the first extent that has copies that count, all of them on these disks.
pub(crate) fn check_extents(
    catalog: &Catalog,
    entries: &[PstEntry],
    counted: &Counted,
    disks: DiskSet,
) -> Result<(), Refusal>
    ensures { IfErr result (LosingCause counted.now entries.now disks catalog.now) }
{
    match first_losing(catalog, entries, counted, disks) {
        Some(extent) => Err(Refusal::WouldLose { extent: extent.id }),
        None => Ok(()),
    }
}

/// Refused as TooFewGroups where a record leaves fewer regular failure groups than a group of the
/// kind needs.
pub(crate) fn check_groups(kind: GroupKind, next: &PstRecord) -> Result<(), Refusal>
    ensures { IfErr result (GroupsCause kind next.now) }
{
    let need = groups_needed(kind);
    let have = serving_groups(next) as u64;
    if have < need {
        return Err(Refusal::TooFewGroups { need, have });
    }
    Ok(())
}

/// The regular failure groups that a group of this kind needs.
fn groups_needed(kind: GroupKind) -> u64
    ensures { result ≡ groups_needed kind }
{
    match kind {
        GroupKind::External => 1,
        GroupKind::Normal => 2,
        GroupKind::High => 3,
    }
}
