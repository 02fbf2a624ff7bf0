//! The disks of a creation, each with its name and its failure group.

ghost use Rattle.std.specs.Prelude.{◌≡◌, ◌+◌, ◌%◌, ◌^◌, ◌<◌, ◌≤◌, ◌++◌, ◌∷◌, [], IfErr, IfOk, OnOk, length, nat_le, take, unwrap_or};
ghost use Rattle.refusal_lines.specs.Refusals.{meaning_of};
ghost use Rattle.asm_world.specs.NewDisks.{four_digits, planned_disk, usual_name};
ghost use Rattle.new_groups.specs.Causes.{terms_in, terms_of};
ghost use Rattle.new_groups.specs.Planning.{disk_count, planned_after, planned_in};
ghost use Rattle.new_groups.specs.Refusing.{IsTooMany};

use asm_base::{MOST_DISKS, Name, NoMemory};
use new_disks::{NewDisk, NewFailgroup, PlannedDisk};
use refusal_lines::{Limited, Refusal};
use std::alloc::Global;

/// What is said of a disk beside its names.
#[derive(Clone, Copy, Debug)]
pub struct Terms {
    /// In bytes.
    pub size: Option<u64>,
    /// Whether FORCE is said.
    pub force: bool,
}

/// The disks of a creation in the order of the statement, and what is said of each.
#[derive(Debug, Drop)]
pub struct Planned {
    pub disks: Vec<PlannedDisk>,
    pub terms: Vec<Terms>,
}

/// The last digit of a number.
fn digit(number: usize) -> u8
    ensures { result ≡ number % 10 + 48 }
{
    (number % 10) as u8 + b'0'
}

/// `_` and the number in four digits.
fn ending(number: usize) -> [u8; 5]
    ensures { result ≡ 95 ∷ four_digits number }
{
    [
        b'_',
        digit(number / 1000),
        digit(number / 100),
        digit(number / 10),
        digit(number),
    ]
}

/// The first 25 bytes.
fn front(name: &[u8]) -> &[u8]
    ensures { result.now ≡ take 25 name.now }
{
    &name[..name.len().min(25)]
}

/// Bytes, and others behind them.
fn joined(alloc: Global, front: &[u8], end: &[u8]) -> Result<Vec<u8>, NoMemory>
    ensures { IfOk result (λ bytes. bytes.items ≡ front.now ++ end.now) }
{
    let mut bytes = Vec::from_slice(alloc, front).map_err(|_| NoMemory)?;
    bytes.extend_from_slice(end).map_err(|_| NoMemory)?;
    Ok(bytes)
}

/// The first 25 bytes of the group's name, `_` and the number in four digits.
fn usual_bytes(alloc: Global, group: &Name, number: usize) -> Result<Vec<u8>, NoMemory>
    ensures { IfOk result (λ bytes. bytes.items ≡ usual_name group.now number) }
{
    let end = ending(number);
    joined(alloc, front(group.as_bytes()), &end)
}

/// The name of a disk for which none is said.
fn usual_name(alloc: Global, group: &Name, number: usize) -> Result<Name, NoMemory>
    ensures { IfOk result (λ name. name ≡ usual_name group.now number) }
{
    let bytes = usual_bytes(alloc, group, number)?;
    match Name::read(alloc, &bytes, 30)? {
        Some(name) => Ok(name),
        None => Err(NoMemory),
    }
}

/// The name of a disk: the one that is said, or the usual one.
fn disk_name(
    alloc: Global,
    group: &Name,
    number: usize,
    said: &Option<Name>,
) -> Result<Name, NoMemory>
    ensures { IfOk result (λ name. name ≡ unwrap_or said.now (usual_name group.now number)) }
{
    match said {
        Some(name) => name.copy(),
        None => usual_name(alloc, group, number),
    }
}

/// The name that is said, or else the other.
fn said_name(said: &Option<Name>, other: &Name) -> Result<Name, NoMemory>
    ensures { IfOk result (λ name. name ≡ unwrap_or said.now other.now) }
{
    match said {
        Some(name) => name.copy(),
        None => other.copy(),
    }
}

/// A disk of this number. Without the name of a failure group it is in one of its own name.
pub fn planned_disk(
    alloc: Global,
    group: &Name,
    number: usize,
    failgroup: &NewFailgroup,
    disk: &NewDisk,
) -> Result<PlannedDisk, NoMemory>
    ensures { IfOk result (λ d. d ≡ planned_disk group.now number failgroup.now disk.now) }
{
    let name = disk_name(alloc, group, number, &disk.name)?;
    let own = said_name(&failgroup.name, &name)?;
    Ok(PlannedDisk {
        path: disk.path.copy()?,
        name,
        failgroup: own,
        quorum: failgroup.quorum,
    })
}

/// Puts the disks of a failure group behind the others, of which there are so many.
fn put_disks(
    alloc: Global,
    group: &Name,
    number: usize,
    failgroup: &NewFailgroup,
    disks: &[NewDisk],
    planned: &mut Vec<PlannedDisk>,
) -> Result<(), NoMemory>
    requires few { number + length disks.now < 2 ^ 64 }
    ensures { OnOk result (planned.new.items
        ≡ planned.old.items ++ planned_in group.now number failgroup.now disks.now) }
{
    let [first, rest @ ..] = disks else {
        return Ok(());
    };
    let new = planned_disk(alloc, group, number, failgroup, first)?;
    planned.push(new).map_err(|_| NoMemory)?;
    put_disks(alloc, group, number + 1, failgroup, rest, planned)
}

/// Puts the disks of failure groups behind the others, of which there are so many.
fn put_groups(
    alloc: Global,
    group: &Name,
    number: usize,
    groups: &[NewFailgroup],
    planned: &mut Vec<PlannedDisk>,
) -> Result<(), NoMemory>
    requires few { number + disk_count groups.now < 2 ^ 64 }
    ensures { OnOk result (planned.new.items
        ≡ planned.old.items ++ planned_after group.now number groups.now) }
{
    let [first, rest @ ..] = groups else {
        return Ok(());
    };
    let disks = first.disks.as_slice();
    put_disks(alloc, group, number, first, disks, planned)?;
    put_groups(alloc, group, number + disks.len(), rest, planned)
}

/// Puts what is said of the disks of a failure group behind others.
fn put_own_terms(disks: &[NewDisk], terms: &mut Vec<Terms>) -> Result<(), NoMemory>
    ensures { OnOk result (terms.new.items ≡ terms.old.items ++ terms_in disks.now) }
{
    let [first, rest @ ..] = disks else {
        return Ok(());
    };
    let new = Terms {
        size: first.size,
        force: first.force,
    };
    terms.push(new).map_err(|_| NoMemory)?;
    put_own_terms(rest, terms)
}

/// Puts what is said of the disks of failure groups behind others.
fn put_terms(groups: &[NewFailgroup], terms: &mut Vec<Terms>) -> Result<(), NoMemory>
    ensures { OnOk result (terms.new.items ≡ terms.old.items ++ terms_of groups.now) }
{
    let [first, rest @ ..] = groups else {
        return Ok(());
    };
    put_own_terms(first.disks.as_slice(), terms)?;
    put_terms(rest, terms)
}

/// How many disks the statement has, where there are at most so many.
pub fn disks_within(groups: &[NewFailgroup], most: usize) -> bool
    ensures { result ≡ nat_le (disk_count groups.now) most }
{
    let [first, rest @ ..] = groups else {
        return true;
    };
    let own = first.disks.len();
    own <= most && disks_within(rest, most - own)
}

fn all_planned(alloc: Global, group: &Name, groups: &[NewFailgroup]) -> Result<Planned, NoMemory>
    requires few { disk_count groups.now ≤ 64 }
    ensures disks { IfOk result (λ planned. planned.disks.items
        ≡ planned_after group.now 0 groups.now) }
    ensures terms { IfOk result (λ planned. planned.terms.items ≡ terms_of groups.now) }
{
    let mut disks = Vec::new(alloc);
    let mut terms = Vec::new(alloc);
    put_groups(alloc, group, 0, groups, &mut disks)?;
    put_terms(groups, &mut terms)?;
    Ok(Planned { disks, terms })
}

/// The disks of a statement with their names. Refused as TooMany where there are more than 64.
pub fn planned_disks(
    alloc: Global,
    group: &Name,
    groups: &[NewFailgroup],
) -> Result<Planned, Refusal>
    ensures planned { IfOk result (λ planned. planned.disks.items
        ≡ planned_after group.now 0 groups.now) }
    ensures terms { IfOk result (λ planned. planned.terms.items ≡ terms_of groups.now) }
    ensures refused { IfErr result (λ refusal. IsTooMany groups.now
        (meaning_of (λ _. []) refusal)) }
{
    if !disks_within(groups, MOST_DISKS as usize) {
        return Err(Refusal::TooMany {
            kind: Limited::Disks,
            limit: 64,
        });
    }
    match all_planned(alloc, group, groups) {
        Ok(planned) => Ok(planned),
        Err(NoMemory) => Err(Refusal::NoMemory),
    }
}
