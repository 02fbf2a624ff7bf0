//! Status records with other entries: one disk's entry changed, a disk more, or one less.

ghost use Rattle.std.specs.Prelude.{◌≡◌, ◌≤◌, ◌<◌, ◌+◌, ◌++◌, ◌∷◌, [], ◌==◌, filter, length, map, not, take, true, false, IsTrue};
ghost use Rattle.std.specs.List.{list_all};
ghost use Rattle.asm_formats.specs.Regions.{most_units};
ghost use Rattle.asm_formats.specs.Sets.{has_bit};
ghost use Rattle.asm_formats.specs.Status.{has_entry, is_entry, is_status};
ghost use Rattle.status_table.specs.Changes.{IsInSomeSet, entries_with_partners, entry_with_partners, has_failgroup, entries_with, least_free_failgroup, status_with_entry, status_with_mode, status_with_offline, status_with_partners, status_with_repair, status_with_units, status_without_entry};
ghost use Rattle.status_table.specs.EntryChanges.{entry_after_change, entry_with, lower_number_first};

use crate::record::{PstEntry, PstRecord};
use asm_base::{DiskSet, Mode};

/// What changes in a disk's entry.
#[derive(Clone, Copy)]
pub enum EntryChange {
    /// The mode, since a second.
    InMode { mode: Mode, since: u64 },
    /// The disk is Offline since a second, and is dropped after so many seconds.
    OfflineFor { since: u64, repair: u64 },
    WithUnits { units: u32 },
    WithRepair { repair: u64 },
}

/// Some entries: the first `count`.
#[derive(Clone, Copy)]
pub struct Entries {
    pub count: u8,
    pub items: [PstEntry; 64],
}

/// The record with another mode of one disk, since a second. A disk without an entry changes
/// nothing.
pub fn with_mode(status: &PstRecord, disk: u8, mode: Mode, since: u64) -> PstRecord
    ensures value { result ≡ status_with_mode status.now disk mode since }
    // A record of the format stays one.
    ensures kept { IsTrue (is_status status.now) → IsTrue (is_status result) }
{
    with_change(status, disk, EntryChange::InMode { mode, since })
}

/// The record with one disk Offline, since a second, to be dropped after so many seconds. A disk
/// without an entry changes nothing.
pub fn with_offline(status: &PstRecord, disk: u8, since: u64, repair: u64) -> PstRecord
    ensures value { result ≡ status_with_offline status.now disk since repair }
    // A record of the format stays one.
    ensures kept { IsTrue (is_status status.now) → IsTrue (is_status result) }
{
    with_change(status, disk, EntryChange::OfflineFor { since, repair })
}

/// The record with another number of units of one disk. A disk without an entry changes nothing.
pub fn with_units(status: &PstRecord, disk: u8, units: u32) -> PstRecord
    ensures value { result ≡ status_with_units status.now disk units }
    // A record of the format stays one where a disk may have so many.
    ensures kept { units ≤ most_units → IsTrue (is_status status.now) → IsTrue (is_status result) }
{
    with_change(status, disk, EntryChange::WithUnits { units })
}

/// The record with other seconds after which one disk is dropped. A disk without an entry changes
/// nothing.
pub fn with_repair(status: &PstRecord, disk: u8, repair: u64) -> PstRecord
    ensures value { result ≡ status_with_repair status.now disk repair }
    // A record of the format stays one.
    ensures kept { IsTrue (is_status status.now) → IsTrue (is_status result) }
{
    with_change(status, disk, EntryChange::WithRepair { repair })
}

/// The record with these partners of each entry, by place.
pub fn with_partners(status: &PstRecord, partners: &[DiskSet]) -> PstRecord
    requires { length partners.now ≡ length status.now.entries }
    ensures value { result ≡ status_with_partners status.now partners.now }
    // A record of the format stays one.
    ensures kept { IsTrue (is_status status.now) → IsTrue (is_status result) }
{
    with_partners_only(status, partners)
}

/// The least number that no entry has as that of its failure group: a new failure group's.
pub fn least_free_failgroup(status: &PstRecord) -> u8
    ensures value { result ≡ least_free_failgroup status.now.entries }
    ensures free { has_failgroup status.now.entries result ≡ false }
{
    let entries = status.entries();
    let count = entries.len() as u8;
    for number in 0..count {
        if !has_failgroup(entries, number) {
            return number;
        }
    }
    count
}

/// The record with a disk more, in the place of its number.
pub fn with_entry(status: &PstRecord, entry: PstEntry) -> PstRecord
    requires room { length status.now.entries < 64 }
    ensures value { result ≡ status_with_entry status.now entry }
    // A record of the format stays one where the entry is one of the format, and no other has its
    // number.
    ensures kept { IsTrue (is_entry entry) → has_entry status.now.entries entry.number ≡ false
        → IsTrue (is_status status.now) → IsTrue (is_status result) }
{
    with_entry_only(status, entry)
}

/// The record without a disk's entry.
pub fn without_entry(status: &PstRecord, disk: u8) -> PstRecord
    ensures value { result ≡ status_without_entry status.now disk }
    // A record of the format stays one where the disk is in none of its sets.
    ensures kept { (IsInSomeSet status.now disk → ⊥) → IsTrue (is_status status.now)
        → IsTrue (is_status result) }
{
    without_entry_only(status, disk)
}

/// The record with the first `count` of these entries.
pub fn with_entries(status: &PstRecord, count: u8, entries: [PstEntry; 64]) -> PstRecord
    requires { count ≤ 64 }
    ensures { result ≡ record status.now { entries = take count entries } }
{
    PstRecord {
        id: status.id,
        epoch: status.epoch,
        turn: status.turn,
        gone: status.gone,
        births: status.births,
        holders: status.holders,
        next_holders: status.next_holders,
        dirs: status.dirs,
        count,
        entries,
    }
}

fn with_change(status: &PstRecord, disk: u8, change: EntryChange) -> PstRecord
    ensures { result ≡ record status.now
        { entries = map (entry_with disk change) status.now.entries } }
{
    let entries = status.entries();
    let items = entries_with_change(entries, disk, change);
    with_entries(status, entries.len() as u8, items)
}

#[tactic(auto, using(crate::proofs::Steps::change_more))]
fn entries_with_change(entries: &[PstEntry], disk: u8, change: EntryChange) -> [PstEntry; 64]
    requires { length entries.now ≤ 64 }
    ensures { take (length entries.now) result ≡ map (entry_with disk change) entries.now }
{
    let mut made = [PstEntry::blank(); 64];
    for (i, entry) in entries.iter().enumerate() {
        made[i] = entry_with_change(*entry, disk, change);
    }
    made
}

fn entry_with_change(entry: PstEntry, disk: u8, change: EntryChange) -> PstEntry
    ensures { result ≡ entry_with disk change entry }
{
    if entry.number == disk {
        changed(entry, change)
    } else {
        entry
    }
}

fn changed(entry: PstEntry, change: EntryChange) -> PstEntry
    ensures { result ≡ entry_after_change change entry }
{
    match change {
        EntryChange::InMode { mode, since } => PstEntry {
            mode,
            since,
            ..entry
        },
        EntryChange::OfflineFor { since, repair } => PstEntry {
            mode: Mode::Offline,
            since,
            repair,
            ..entry
        },
        EntryChange::WithUnits { units } => PstEntry { units, ..entry },
        EntryChange::WithRepair { repair } => PstEntry { repair, ..entry },
    }
}

fn with_partners_only(status: &PstRecord, partners: &[DiskSet]) -> PstRecord
    requires { length partners.now ≡ length status.now.entries }
    ensures value { result ≡ status_with_partners status.now partners.now }
    ensures kept { list_all is_entry status.now.entries ≡ true
        → list_all is_entry (entries_with_partners status.now.entries partners.now) ≡ true }
{
    let entries = status.entries();
    let items = entries_with_partners(entries, partners);
    with_entries(status, entries.len() as u8, items)
}

#[tactic(auto, using(crate::proofs::Steps::partners_more, crate::proofs::Kept::kept_more))]
fn entries_with_partners(entries: &[PstEntry], partners: &[DiskSet]) -> [PstEntry; 64]
    requires few { length entries.now ≤ 64 }
    requires same_length { length partners.now ≡ length entries.now }
    ensures value { take (length entries.now) result
        ≡ entries_with_partners entries.now partners.now }
    ensures kept { list_all is_entry entries.now ≡ true
        → list_all is_entry (take (length entries.now) result) ≡ true }
{
    let mut changed = [PstEntry::blank(); 64];
    for (i, entry) in entries.iter().enumerate() {
        changed[i] = entry_with_partners(*entry, partners[i]);
    }
    changed
}

#[tactic(auto, using(crate::proofs::Kept::partner_entry))]
fn entry_with_partners(entry: PstEntry, partners: DiskSet) -> PstEntry
    ensures value { result ≡ entry_with_partners entry partners }
    ensures kept { is_entry entry ≡ true → is_entry result ≡ true }
{
    let _bits = partners.bits();
    PstEntry { partners, ..entry }
}

fn is_of_failgroup(entry: PstEntry, number: u8) -> bool
    ensures { result ≡ (entry.failgroup == number) }
{
    entry.failgroup == number
}

fn has_failgroup(entries: &[PstEntry], number: u8) -> bool
    ensures { result ≡ has_failgroup entries.now number }
{
    entries.iter().any(|entry| is_of_failgroup(*entry, number))
}

fn with_entry_only(status: &PstRecord, entry: PstEntry) -> PstRecord
    requires { length status.now.entries < 64 }
    ensures { result ≡ status_with_entry status.now entry }
{
    let entries = status.entries();
    let items = entries_and(entries, entry);
    with_entries(status, entries.len() as u8 + 1, items)
}

/// The entries with one more: each place takes the one of the lesser number, and the other goes on.
#[tactic(auto, using(crate::proofs::Inserted::insert_last))]
fn entries_and(entries: &[PstEntry], added: PstEntry) -> [PstEntry; 64]
    requires { length entries.now < 64 }
    ensures { take (length entries.now + 1) result ≡ entries_with added entries.now }
{
    let mut made = [PstEntry::blank(); 64];
    let mut left = added;
    for (i, entry) in entries.iter().enumerate() {
        let (first, second) = in_order(left, *entry);
        made[i] = first;
        left = second;
    }
    made[entries.len()] = left;
    made
}

/// Both entries, that of the lesser number first.
fn in_order(left: PstEntry, entry: PstEntry) -> (PstEntry, PstEntry)
    ensures { result ≡ lower_number_first left entry }
{
    if left.number < entry.number {
        (left, entry)
    } else {
        (entry, left)
    }
}

fn without_entry_only(status: &PstRecord, disk: u8) -> PstRecord
    ensures { result ≡ status_without_entry status.now disk }
{
    let left = entries_without(status.entries(), disk);
    with_entries(status, left.count, left.items)
}

#[tactic(auto, using(crate::proofs::Inserted::others_more))]
fn entries_without(entries: &[PstEntry], disk: u8) -> Entries
    requires { length entries.now ≤ 64 }
    ensures few { result.count ≤ 64 }
    ensures left { take result.count result.items
        ≡ filter (λ e. not (e.number == disk)) entries.now }
{
    let mut made = Entries {
        count: 0,
        items: [PstEntry::blank(); 64],
    };
    for entry in entries {
        made = with_other(made, *entry, disk);
    }
    made
}

/// The entries with one more behind them, if it isn't the disk's.
fn with_other(made: Entries, entry: PstEntry, disk: u8) -> Entries
    requires room { made.count < 64 }
    ensures few { result.count ≤ made.count + 1 }
    ensures left { take result.count result.items
        ≡ take made.count made.items ++ filter (λ e. not (e.number == disk)) (entry ∷ []) }
{
    if entry.number != disk {
        let mut items = made.items;
        items[made.count as usize] = entry;
        Entries {
            count: made.count + 1,
            items,
        }
    } else {
        made
    }
}
