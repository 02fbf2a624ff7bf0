// A slice of the resync of a disk.
ghost use Rattle.std.specs.Prelude.{◌≡◌, ◌≤◌, ◌<◌, IfErr, OnOk};
ghost use Rattle.file_extents.specs.group_engine.Mounts.{IsMounted, Takes};
ghost use Rattle.file_extents.specs.group_engine.Own.{KeepsGroup};
ghost use Rattle.file_extents.specs.group_engine.Pending.{GoesOn};
ghost use Rattle.resync.specs.Syncing.{SyncCause, first_syncing, is_syncing};

use crate::copying::{copy_whole, piece_buffer, refusal_of};
use crate::searching::{Search, next_stale, stale_copy, start};
use asm_base::{ExtentId, Mode, NoMemory};
use bay::Bay;
use file_extents::{
    Mounted, PstEntry, entry_of, planned_moves_change_one_chunk, same_disks_are_next, with_mode,
};
use refusal_lines::Refusal;
use std::alloc::Global;

/// The most steps of a slice.
pub const STEPS: u64 = 64;

/// How a slice of a resync ends.
#[derive(Clone, Copy, Debug, PartialEq, Eq)]
pub enum Resynced {
    /// All steps of the slice are done, and stale copies are left.
    More,
    /// No mark is left, and the disk is Online.
    Online,
    /// The disk is Online. Marks are left of extents that have no usable copy, of which this is the
    /// first.
    Left(ExtentId),
}

/// The Syncing disk of the least number.
pub fn syncing_disk(m: &Mounted) -> Option<u8>
    ensures { result ≡ first_syncing m.now.register.value.entries }
{
    first_syncing(m.status().entries())
}

/// The first of some disks that is Syncing.
fn first_syncing(entries: &[PstEntry]) -> Option<u8>
    ensures { result ≡ first_syncing entries.now }
{
    for entry in entries {
        if is_syncing(entry) {
            return Some(entry.number);
        }
    }
    None
}

fn is_syncing(entry: &PstEntry) -> bool
    ensures { result ≡ is_syncing entry.now.mode }
{
    matches!(entry.mode, Mode::Syncing)
}

/// Whether a disk is Syncing.
fn is_back(m: &Mounted, disk: u8) -> bool {
    match entry_of(m.status().entries(), disk) {
        Some(entry) => is_syncing(&entry),
        None => false,
    }
}

/// Does up to 64 steps of a disk's resync. A step copies one stale copy whole and clears its mark.
/// Where no stale copy is left that can be copied the disk becomes Online, and the move that is on
/// its way is given up. A disk that isn't Syncing stays as it is, with the answer Online. Gives the
/// number of steps beside the answer, also of one that is refused. Refusals: ReadFault, where all
/// usable copies of an extent failed, and WriteFault, where the disk did: no mode changes then, and
/// the mark stays; Dismounted; NoMemory.
pub fn sync_slice<B: Bay>(
    m: &mut Mounted,
    alloc: Global,
    bay: &mut B,
    disk: u8,
) -> (Result<Resynced, Refusal>, u64)
    requires takes { Takes m.old (B.state bay.old) }
    // The group's parts agree, it takes the next call, and the disks of others stay.
    ensures keeps { KeepsGroup m.old m.new (B.state bay.old) (B.state bay.new) }
    ensures cause { IfErr result.0 (SyncCause m.old disk m.new (B.state bay.old)
        (B.state bay.new)) }
    ensures steps { result.1 ≤ 64 }
{
    match m.takes_calls() {
        Ok(()) => sync_mounted(m, alloc, bay, disk),
        Err(refusal) => (Err(refusal), 0),
    }
}

/// The slice of a group that takes calls.
fn sync_mounted<B: Bay>(
    m: &mut Mounted,
    alloc: Global,
    bay: &mut B,
    disk: u8,
) -> (Result<Resynced, Refusal>, u64)
    requires mounted { IsMounted m.old }
    requires takes { Takes m.old (B.state bay.old) }
    ensures keeps { KeepsGroup m.old m.new (B.state bay.old) (B.state bay.new) }
    ensures cause { IfErr result.0 (SyncCause m.old disk m.new (B.state bay.old)
        (B.state bay.new)) }
    ensures steps { result.1 ≤ 64 }
{
    if !is_back(m, disk) {
        return (Ok(Resynced::Online), 0);
    }
    let mut search = start();
    let Some(first) = next_stale(m, disk, &mut search) else {
        return (come_online(m, alloc, bay, disk, search.left), 0);
    };
    match piece_buffer(alloc) {
        Ok(mut buffer) => sync_from(m, alloc, bay, disk, first, search, &mut buffer),
        Err(NoMemory) => (Err(Refusal::NoMemory), 0),
    }
}

/// The slice from the first stale copy on.
fn sync_from<B: Bay>(
    m: &mut Mounted,
    alloc: Global,
    bay: &mut B,
    disk: u8,
    first: ExtentId,
    search: Search,
    buffer: &mut [u8],
) -> (Result<Resynced, Refusal>, u64)
    requires mounted { IsMounted m.old }
    requires takes { Takes m.old (B.state bay.old) }
    ensures keeps { KeepsGroup m.old m.new (B.state bay.old) (B.state bay.new) }
    ensures cause { IfErr result.0 (SyncCause m.old disk m.new (B.state bay.old)
        (B.state bay.new)) }
    ensures steps { result.1 ≤ 64 }
{
    let mut search = search;
    let mut x = first;
    for done in 0..STEPS {
        match sync_extent(m, alloc, bay, disk, x, buffer) {
            Ok(()) => {}
            Err(refusal) => return (Err(refusal), done),
        }
        match next_stale(m, disk, &mut search) {
            Some(next) => x = next,
            None => return (come_online(m, alloc, bay, disk, search.left), done + 1),
        }
    }
    (Ok(Resynced::More), STEPS)
}

/// A step: copies the stale copy of an extent on the disk, and clears its mark.
fn sync_extent<B: Bay>(
    m: &mut Mounted,
    alloc: Global,
    bay: &mut B,
    disk: u8,
    x: ExtentId,
    buffer: &mut [u8],
) -> Result<(), Refusal>
    requires mounted { IsMounted m.old }
    requires takes { Takes m.old (B.state bay.old) }
    ensures keeps { KeepsGroup m.old m.new (B.state bay.old) (B.state bay.new) }
    ensures mounted { OnOk result (IsMounted m.new) }
    ensures cause { IfErr result (SyncCause m.old disk m.new (B.state bay.old) (B.state bay.new)) }
{
    // The search gave the extent for such a copy.
    let Some(stale) = stale_copy(m.catalog(), x, disk) else {
        return Err(Refusal::NoMemory);
    };
    match copy_whole(m, bay, x, stale.home, buffer) {
        Ok(()) => clear_mark(m, alloc, bay, x, stale.copy),
        Err(error) => Err(refusal_of(error)),
    }
}

/// Clears the mark of a copy of an extent that is there.
fn clear_mark<B: Bay>(
    m: &mut Mounted,
    alloc: Global,
    bay: &mut B,
    x: ExtentId,
    copy: u8,
) -> Result<(), Refusal>
    requires mounted { IsMounted m.old }
    requires takes { Takes m.old (B.state bay.old) }
    requires copy { copy < 3 }
    ensures goes { GoesOn m.old result m.new (B.state bay.old) (B.state bay.new) }
{
    planned_moves_change_one_chunk();
    let catalog = m.catalog();
    let Some(_homes) = catalog.homes(x) else {
        return Err(Refusal::NoMemory);
    };
    match catalog.plan_marks(alloc, x, 0, 1 << copy) {
        Ok(change) => m.commit_extent(alloc, bay, &change, x),
        Err(_) => Err(Refusal::NoMemory),
    }
}

/// Nothing more can be copied: the disk is Online from then on, and the move that is on its way is
/// given up.
fn come_online<B: Bay>(
    m: &mut Mounted,
    alloc: Global,
    bay: &mut B,
    disk: u8,
    left: Option<ExtentId>,
) -> Result<Resynced, Refusal>
    requires mounted { IsMounted m.old }
    requires takes { Takes m.old (B.state bay.old) }
    ensures keeps { KeepsGroup m.old m.new (B.state bay.old) (B.state bay.new) }
    ensures cause { IfErr result (SyncCause m.old disk m.new (B.state bay.old) (B.state bay.new)) }
{
    let answer = match left {
        Some(x) => Resynced::Left(x),
        None => Resynced::Online,
    };
    // It was Syncing when the slice began, and no step changes a mode.
    let Some(entry) = entry_of(m.status().entries(), disk) else {
        return Err(Refusal::NoMemory);
    };
    match put_online(m, alloc, bay, entry) {
        Ok(()) => Ok(answer),
        Err(refusal) => Err(refusal),
    }
}

/// Writes the record with a disk Online.
fn put_online<B: Bay>(
    m: &mut Mounted,
    alloc: Global,
    bay: &mut B,
    entry: PstEntry,
) -> Result<(), Refusal>
    requires mounted { IsMounted m.old }
    requires takes { Takes m.old (B.state bay.old) }
    ensures goes { GoesOn m.old result m.new (B.state bay.old) (B.state bay.new) }
{
    m.set_flight(None);
    let next = with_mode(m.status(), entry.number, Mode::Online, entry.since);
    same_disks_are_next();
    m.set_status(alloc, bay, &next)
}
