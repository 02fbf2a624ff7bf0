//! Whether names of new disks are taken, and the numbers of failure groups.
ghost use Rattle.std.specs.Prelude.{◌≡◌, ◌++◌, [], IfErr, IfOk, None, OnOk};
ghost use Rattle.std.specs.List.{filter_map};
ghost use Rattle.refusal_lines.specs.Refusals.{meaning_of};
ghost use Rattle.new_groups.specs.Causes.{IsThisRefusal};
ghost use Rattle.disk_joining.specs.AddCauses.{names_refusal};
ghost use Rattle.disk_joining.specs.Asking.{row_of, group_rows};

use asm_base::{Name, NoMemory};
use file_extents::{Catalog, DiskInfo, Mounted};
use new_groups::{DiskRow, PlannedDisk, is_name_taken};
use refusal_lines::Refusal;
use status_table::{PstEntry, PstRecord, least_free_failgroup};
use std::alloc::Global;

/// A disk of the group by its entry and its record. What it holds is asked of none here.
fn told_row(entry: &PstEntry, info: &DiskInfo) -> Result<DiskRow, NoMemory>
    ensures { IfOk result (λ row. row ≡ record {
      number = entry.now.number;
      mode = entry.now.mode;
      failgroup = info.now.failgroup;
      quorum = entry.now.quorum;
      total = 0;
      free = 0;
      name = info.now.name;
    }) }
{
    Ok(DiskRow {
        number: entry.number,
        mode: entry.mode,
        failgroup: info.failgroup.copy()?,
        quorum: entry.quorum,
        total: 0,
        free: 0,
        name: info.name.copy()?,
    })
}

/// A disk of the group by its entry, where it has a record.
fn row_of(catalog: &Catalog, entry: &PstEntry) -> Result<Option<DiskRow>, NoMemory>
    ensures { IfOk result (λ row. row ≡ row_of catalog.now.tables.disks entry.now) }
{
    match catalog.disk(entry.number) {
        Some(info) => Ok(Some(told_row(entry, info)?)),
        None => Ok(None),
    }
}

/// Puts the disks of entries behind others.
fn put_rows(
    catalog: &Catalog,
    entries: &[PstEntry],
    rows: &mut Vec<DiskRow>,
) -> Result<(), NoMemory>
    ensures { OnOk result (rows.new.items
        ≡ rows.old.items ++ filter_map (row_of catalog.now.tables.disks) entries.now) }
{
    let [entry, rest @ ..] = entries else {
        return Ok(());
    };
    match row_of(catalog, entry)? {
        Some(row) => {
            rows.push(row).map_err(|_| NoMemory)?;
            put_rows(catalog, rest, rows)
        }
        None => put_rows(catalog, rest, rows),
    }
}

/// The disks of the group.
fn group_rows(alloc: Global, m: &Mounted) -> Result<Vec<DiskRow>, NoMemory>
    ensures { IfOk result (λ rows. rows.items ≡ group_rows m.now) }
{
    let mut rows = Vec::new(alloc);
    put_rows(m.catalog(), m.status().entries(), &mut rows)?;
    Ok(rows)
}

/// Whether names, paths and failure groups don't clash.
fn check_clash(rows: &[DiskRow], disks: &[PlannedDisk]) -> Result<(), Refusal>
    ensures none { OnOk result (names_refusal rows.now disks.now ≡ None) }
    ensures refused { IfErr result (λ refusal. IsThisRefusal (names_refusal rows.now disks.now)
        (meaning_of (λ _. []) refusal)) }
{
    if is_name_taken(rows, disks) {
        Err(Refusal::NameTaken)
    } else {
        Ok(())
    }
}

/// Whether names, paths and failure groups don't clash with one another, or with those of the
/// group's disks. Refused as NameTaken.
pub fn check_names(alloc: Global, m: &Mounted, disks: &[PlannedDisk]) -> Result<(), Refusal>
    ensures none { OnOk result (names_refusal (group_rows m.now) disks.now ≡ None) }
    ensures refused { IfErr result (λ refusal. IsThisRefusal
        (names_refusal (group_rows m.now) disks.now) (meaning_of (λ _. []) refusal)) }
{
    match group_rows(alloc, m) {
        Ok(rows) => check_clash(&rows, disks),
        Err(NoMemory) => Err(Refusal::NoMemory),
    }
}

/// Whether a disk with a record is of the failure group of this name.
fn is_of_group(catalog: &Catalog, number: u8, failgroup: &Name) -> bool {
    match catalog.disk(number) {
        Some(info) => info.failgroup.is_same(failgroup),
        None => false,
    }
}

/// The number of a failure group: that of the disk of the least number which is of it, else the
/// least that no other has.
pub fn failgroup_of(catalog: &Catalog, status: &PstRecord, failgroup: &Name) -> u8 {
    for entry in status.entries() {
        if is_of_group(catalog, entry.number, failgroup) {
            return entry.failgroup;
        }
    }
    least_free_failgroup(status)
}
