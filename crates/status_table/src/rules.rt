//! Which records are of the format.

ghost use Rattle.std.specs.Prelude.{◌≡◌, ◌<◌, ◌||◌, ◌==◌, not, map};
ghost use Rattle.std.specs.List.{list_all, list_any};
ghost use Rattle.asm_formats.specs.Sets.{has_bit};
ghost use Rattle.asm_formats.specs.Status.{ascends_from, has_entry, have_entries, is_entry, is_status};
ghost use Rattle.status_table.specs.Rules.{number_of_entry, passes};

use crate::record::{PstEntry, PstRecord};
use asm_base::{DiskSet, MOST_UNITS};

/// Whether the record is one of the format.
pub fn is_status(status: &PstRecord) -> bool
    ensures { result ≡ is_status status.now }
{
    // Reading a number shows that it is one of its type.
    let _id = status.id;
    let _epoch = status.epoch;
    let _turn = status.turn;
    let _births = status.births;
    let _holders = status.holders.bits();
    let _next_holders = status.next_holders.bits();
    let _dirs = status.dirs.bits();
    passes(
        status.entries(),
        status.holders,
        status.next_holders,
        status.dirs,
    )
}

/// The tests of a record's entries and sets.
fn passes(entries: &[PstEntry], holders: DiskSet, next_holders: DiskSet, dirs: DiskSet) -> bool
    ensures { result ≡ passes entries.now holders next_holders dirs }
{
    are_entries(entries)
        && ascend(entries)
        && have_entries(entries, holders)
        && have_entries(entries, next_holders)
        && have_entries(entries, dirs)
}

#[tactic(auto, unfolding(asm_formats::specs::Status::is_entry), using(crate::proofs::Allowed::entry_by_tests))]
fn is_entry(entry: PstEntry) -> bool
    ensures { result ≡ is_entry entry }
{
    let _partners = entry.partners.bits();
    entry.number < 64 && entry.units as u64 <= MOST_UNITS
}

fn are_entries(entries: &[PstEntry]) -> bool
    ensures { result ≡ list_all is_entry entries.now }
{
    entries.iter().all(|entry| is_entry(*entry))
}

/// Whether the entries ascend by number.
fn ascend(entries: &[PstEntry]) -> bool
    ensures { result ≡ ascends_from 0 (map number_of_entry entries.now) }
{
    let mut least = 0;
    for entry in entries {
        let number = entry.number as u32;
        if number < least {
            return false;
        }
        least = number + 1;
    }
    true
}

fn is_of_disk(entry: PstEntry, disk: u8) -> bool
    ensures { result ≡ (entry.number == disk) }
{
    entry.number == disk
}

fn has_entry(entries: &[PstEntry], disk: u8) -> bool
    ensures { result ≡ has_entry entries.now disk }
{
    is_any_of_disk(entries, disk)
}

fn is_any_of_disk(entries: &[PstEntry], disk: u8) -> bool
    ensures { result ≡ list_any (λ e. e.number == disk) entries.now }
{
    entries.iter().any(|entry| is_of_disk(*entry, disk))
}

/// Whether the disk isn't in the set, or has an entry.
fn is_no_stranger(entries: &[PstEntry], set: DiskSet, disk: u8) -> bool
    ensures { result ≡ (not (has_bit set disk) || has_entry entries.now disk) }
{
    !set.has(disk) || has_entry(entries, disk)
}

#[tactic(auto, using(crate::proofs::Allowed::goes_on, crate::proofs::Allowed::stops, crate::proofs::Allowed::starts, crate::proofs::Allowed::ends))]
fn have_entries(entries: &[PstEntry], set: DiskSet) -> bool
    ensures { result ≡ have_entries entries.now set }
{
    for disk in 0..64 {
        if !is_no_stranger(entries, set, disk) {
            return false;
        }
    }
    true
}
