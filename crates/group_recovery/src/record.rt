// The record that a mount writes anew.
ghost use Rattle.std.specs.Prelude.{◌≡◌, ◌≢◌, ◌≤◌, ◌<◌, ◌==◌, ℕ, false, true, length, map, take, IfOk, IsTrue};
ghost use Rattle.std.specs.List.{list_all, list_any};
ghost use Rattle.asm_formats.specs.Sets.{has_bit};
ghost use Rattle.asm_formats.specs.Status.{have_entries, is_entry, is_status};
ghost use Rattle.asm_formats.specs.Among.{IsAmong};
ghost use Rattle.directory_store.specs.change_directory.declared.copy.DirCopy.{DirCopy as Copy};
ghost use Rattle.directory_store.specs.Stores.{has_copy_of_disk};
ghost use Rattle.group_recovery.specs.NextRecord.{HasStaleDisks, IsMarkOf, IsNextRecord, MakesRecord, entry_after_mount, has_entry_of_disk, entry_when_mounted};

use crate::missing::is_missing;
use crate::quorum::Quorate;
use asm_base::{DiskSet, ExtentId, Mode, NoMemory};
use catalog::{Catalog, partners};
use directory_store::DirCopy;
use status_table::{PstEntry, PstRecord, with_dirs, with_entries, with_partners};
use std::alloc::Global;

/// Whether a stale copy of an extent lies on a disk.
fn is_marked(catalog: &Catalog, disk: u8) -> bool
    ensures { IsMarkOf catalog.now.tables disk result }
{
    match catalog.marked_from(disk, ExtentId { file: 0, index: 0 }) {
        Some(_) => true,
        None => false,
    }
}

fn is_numbered(entry: PstEntry, disk: u8) -> bool
    ensures { result ≡ (entry.number == disk) }
{
    entry.number == disk
}

/// Whether a disk has an entry.
fn has_number(entries: &[PstEntry], disk: u8) -> bool
    ensures { result ≡ has_entry_of_disk entries.now disk }
{
    entries.iter().any(|entry| is_numbered(*entry, disk))
}

/// The set with a disk that has an entry and a stale copy.
fn with_mark(set: DiskSet, catalog: &Catalog, entries: &[PstEntry], disk: u8) -> DiskSet
    requires { disk < 64 }
    ensures here { has_bit set disk ≡ false → has_entry_of_disk entries.now disk ≡ true
        → IsMarkOf catalog.now.tables disk (has_bit result disk) }
    ensures others { (k : ℕ) → k < 64 → k ≢ disk → has_bit result k ≡ has_bit set k }
{
    if has_number(entries, disk) && is_marked(catalog, disk) {
        set.with(disk)
    } else {
        set
    }
}

/// The disks with entries on which a stale copy lies.
fn marked_disks(catalog: &Catalog, entries: &[PstEntry]) -> DiskSet
    ensures { HasStaleDisks catalog.now.tables entries.now result }
{
    let mut set = DiskSet::empty();
    for disk in 0..64u8 {
        set = with_mark(set, catalog, entries, disk);
    }
    set
}

/// The entry of a disk after a mount: one that would serve and is missing is Offline since this
/// second, and an Online one with a stale copy is Syncing.
fn entry_after(entry: PstEntry, missing: bool, marked: bool, now: u64, repair: u64) -> PstEntry
    ensures value { result ≡ entry_after_mount missing marked now repair entry }
    ensures kept { is_entry entry ≡ true → is_entry result ≡ true }
{
    if missing {
        return PstEntry {
            mode: Mode::Offline,
            since: now,
            repair,
            ..entry
        };
    }
    if matches!(entry.mode, Mode::Online) && marked {
        return PstEntry {
            mode: Mode::Syncing,
            ..entry
        };
    }
    entry
}

/// The entry of a disk of the group after the mount.
fn moded(quorate: &Quorate, entry: PstEntry, marked: DiskSet, now: u64) -> PstEntry
    ensures value { result ≡ entry_when_mounted quorate.now marked now entry }
    ensures kept { is_entry entry ≡ true → is_entry result ≡ true }
{
    let missing = is_missing(quorate.id, &quorate.headed, entry);
    let repair = quorate.catalog.settings().repair;
    entry_after(entry, missing, marked.has(entry.number), now, repair)
}

/// The entries after the mount.
fn all_moded(quorate: &Quorate, entries: &[PstEntry], marked: DiskSet, now: u64) -> [PstEntry; 64]
    requires few { length entries.now ≤ 64 }
    ensures value { take (length entries.now) result
        ≡ map (entry_when_mounted quorate.now marked now) entries.now }
    ensures kept { list_all is_entry entries.now ≡ true
        → list_all is_entry (take (length entries.now) result) ≡ true }
{
    let mut after = [PstEntry::blank(); 64];
    for (i, entry) in entries.iter().enumerate() {
        after[i] = moded(quorate, *entry, marked, now);
    }
    after
}

/// The record with the modes that a mount leaves. A record of the format stays one.
fn with_modes(quorate: &Quorate, status: &PstRecord, marked: DiskSet, now: u64) -> PstRecord
    ensures value { result ≡ record status.now
        { entries = map (entry_when_mounted quorate.now marked now) status.now.entries } }
    ensures kept { IsTrue (is_status status.now) → IsTrue (is_status result) }
{
    let entries = status.entries();
    let items = all_moded(quorate, entries, marked, now);
    with_entries(status, entries.len() as u8, items)
}

/// The disks of these copies.
fn disks_of(copies: &[DirCopy]) -> DiskSet
    requires { (c : Copy) → IsAmong copies.now c → c.number < 64 }
    ensures { (d : ℕ) → d < 64 → has_bit result d ≡ has_copy_of_disk d copies.now }
{
    let [first, rest @ ..] = copies else {
        return DiskSet::empty();
    };
    disks_of(rest).with(first.number)
}

/// The record of a mount: missing disks are Offline since now, Online ones with a stale copy
/// Syncing, only copies of the store are named, and the partners are those of the entries.
pub fn next_record(alloc: Global, quorate: &Quorate, now: u64) -> Result<PstRecord, NoMemory>
    requires { MakesRecord quorate.now }
    ensures next { IfOk result (IsNextRecord quorate.now now) }
    ensures allowed { IfOk result (λ next. IsTrue (is_status next)) }
{
    let status = quorate.survey.value();
    let marked = marked_disks(&quorate.catalog, status.entries());
    let moded = with_modes(quorate, status, marked, now);
    let dirs = disks_of(quorate.store.copies());
    let _bits = dirs.bits();
    let named = with_dirs(&moded, dirs);
    let sets = partners(alloc, named.entries())?;
    Ok(with_partners(&named, &sets))
}
