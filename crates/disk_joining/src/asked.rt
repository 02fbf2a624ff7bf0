//! The disks that an ADD names, each with its number and what is said of it.
ghost use Rattle.std.specs.Prelude.{◌≡◌, ◌<◌, ◌≤◌, ◌+◌, ◌++◌, ◌∷◌, [], IfErr, IfOk, OnOk, length};
ghost use Rattle.std.specs.Bool.{OnFalse};
ghost use Rattle.refusal_lines.specs.Refusals.{meaning_of};
ghost use Rattle.asm_formats.specs.Status.{has_entry};
ghost use Rattle.asm_world.specs.NewDisks.{planned_disk};
ghost use Rattle.new_groups.specs.Causes.{terms_in, terms_of};
ghost use Rattle.new_groups.specs.Planning.{disk_count};
ghost use Rattle.disk_joining.specs.AddCauses.{IsTooManyMore};
ghost use Rattle.disk_joining.specs.Asking.{asked_disks, asked_from, asked_in, free_number, given_from, given_in, given_numbers, number_after};

use crate::recording::entry_of;
use asm_base::{MOST_DISKS, NoMemory};
use file_extents::Mounted;
use new_groups::{NewDisk, NewFailgroup, PlannedDisk, Terms, disks_within, planned_disk};
use refusal_lines::{Limited, Refusal};
use status_table::PstRecord;
use std::alloc::Global;

/// The disks of an ADD in the order of the statement.
#[derive(Debug, Drop)]
pub struct Asked {
    pub disks: Vec<PlannedDisk>,
    /// What is said of each.
    pub terms: Vec<Terms>,
    /// The number that each gets.
    pub numbers: Vec<u8>,
    /// The next disk's number is this one, or a greater one.
    pub next: u8,
}

/// Whether a disk of this number has an entry.
fn has_entry(status: &PstRecord, number: u8) -> bool
    ensures { result ≡ has_entry status.now.entries number }
{
    entry_of(status, number).is_some()
}

/// The least number from one on that no entry has, and 64 where there is none.
fn free_number(status: &PstRecord, from: u8) -> u8
    ensures value { result ≡ free_number status.now.entries from }
    ensures most { result ≤ 64 }
{
    for number in from..64 {
        if !has_entry(status, number) {
            return number;
        }
    }
    64
}

/// Puts a disk with its number behind the others.
fn put_disk(new: PlannedDisk, terms: Terms, number: u8, asked: &mut Asked) -> Result<(), NoMemory>
    requires most { number ≤ 64 }
    ensures disks { OnOk result (asked.new.disks.items ≡ asked.old.disks.items ++ new ∷ []) }
    ensures terms { OnOk result (asked.new.terms.items ≡ asked.old.terms.items ++ terms ∷ []) }
    ensures numbers { OnOk result (asked.new.numbers.items
        ≡ asked.old.numbers.items ++ number ∷ []) }
    ensures next { OnOk result (asked.new.next ≡ number + 1) }
{
    asked.disks.push(new).map_err(|_| NoMemory)?;
    asked.terms.push(terms).map_err(|_| NoMemory)?;
    asked.numbers.push(number).map_err(|_| NoMemory)?;
    asked.next = number + 1;
    Ok(())
}

/// Puts disks of a failure group behind the others.
fn put_disks(
    alloc: Global,
    m: &Mounted,
    failgroup: &NewFailgroup,
    disks: &[NewDisk],
    asked: &mut Asked,
) -> Result<(), NoMemory>
    ensures disks { OnOk result (asked.new.disks.items
        ≡ asked.old.disks.items ++ asked_in m.now.name m.now.register.value.entries asked.old.next
        failgroup.now disks.now) }
    ensures terms { OnOk result (asked.new.terms.items
        ≡ asked.old.terms.items ++ terms_in disks.now) }
    ensures numbers { OnOk result (asked.new.numbers.items
        ≡ asked.old.numbers.items ++ given_in m.now.register.value.entries asked.old.next
        disks.now) }
    ensures next { OnOk result (asked.new.next
        ≡ number_after m.now.register.value.entries asked.old.next disks.now) }
{
    let [first, rest @ ..] = disks else {
        return Ok(());
    };
    let number = free_number(m.status(), asked.next);
    let new = planned_disk(alloc, m.name(), number as usize, failgroup, first)?;
    let terms = Terms {
        size: first.size,
        force: first.force,
    };
    put_disk(new, terms, number, asked)?;
    put_disks(alloc, m, failgroup, rest, asked)
}

/// Puts the disks of failure groups behind the others.
fn put_groups(
    alloc: Global,
    m: &Mounted,
    groups: &[NewFailgroup],
    asked: &mut Asked,
) -> Result<(), NoMemory>
    ensures disks { OnOk result (asked.new.disks.items
        ≡ asked.old.disks.items ++ asked_from m.now.name m.now.register.value.entries asked.old.next
        groups.now) }
    ensures terms { OnOk result (asked.new.terms.items
        ≡ asked.old.terms.items ++ terms_of groups.now) }
    ensures numbers { OnOk result (asked.new.numbers.items
        ≡ asked.old.numbers.items ++ given_from m.now.register.value.entries asked.old.next
        groups.now) }
{
    let [first, rest @ ..] = groups else {
        return Ok(());
    };
    put_disks(alloc, m, first, first.disks.as_slice(), asked)?;
    put_groups(alloc, m, rest, asked)
}

/// The disks with their names. A new disk has the least number that no entry has.
fn numbered_disks(alloc: Global, m: &Mounted, groups: &[NewFailgroup]) -> Result<Asked, NoMemory>
    ensures disks { IfOk result (λ asked. asked.disks.items ≡ asked_disks m.now groups.now) }
    ensures terms { IfOk result (λ asked. asked.terms.items ≡ terms_of groups.now) }
    ensures numbers { IfOk result (λ asked. asked.numbers.items ≡ given_numbers m.now groups.now) }
{
    let mut asked = Asked {
        disks: Vec::new(alloc),
        terms: Vec::new(alloc),
        numbers: Vec::new(alloc),
        next: 0,
    };
    put_groups(alloc, m, groups, &mut asked)?;
    Ok(asked)
}

/// Whether the group has room for the disks.
fn has_room(m: &Mounted, groups: &[NewFailgroup]) -> bool
    ensures no { OnFalse result (64 < length m.now.register.value.entries + disk_count groups.now) }
{
    let count = m.status().entries().len();
    disks_within(groups, MOST_DISKS as usize - count)
}

/// The disks that an ADD names. Refused as TooMany where the group would have more than 64.
pub fn asked_disks(alloc: Global, m: &Mounted, groups: &[NewFailgroup]) -> Result<Asked, Refusal>
    ensures disks { IfOk result (λ asked. asked.disks.items ≡ asked_disks m.now groups.now) }
    ensures terms { IfOk result (λ asked. asked.terms.items ≡ terms_of groups.now) }
    ensures numbers { IfOk result (λ asked. asked.numbers.items ≡ given_numbers m.now groups.now) }
    ensures refused { IfErr result (λ refusal. IsTooManyMore m.now.register.value.entries groups.now
        (meaning_of (λ _. []) refusal)) }
{
    if !has_room(m, groups) {
        return Err(Refusal::TooMany {
            kind: Limited::Disks,
            limit: 64,
        });
    }
    match numbered_disks(alloc, m, groups) {
        Ok(asked) => Ok(asked),
        Err(NoMemory) => Err(Refusal::NoMemory),
    }
}
