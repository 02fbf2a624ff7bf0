//! Plans of records of disks.

ghost use Rattle.std.specs.Prelude.{◌≡◌, IfOk, None};
ghost use Rattle.std.specs.Bool.{OnTrue};
ghost use Rattle.disk_directory.specs.Disks.{info_at};
ghost use Rattle.table_tests.specs.Planned.{IsPlanned};

use crate::catalogs::operations::name;
use crate::catalogs::steps::{Answer, answer_of};
use asm_base::Change;
use catalog::Catalog;
use catalog_tables::DiskInfo;
use std::alloc::Global;

fn info(alloc: Global, birth: u64) -> Result<DiskInfo, Answer> {
    let disk = name(alloc, b"d", 30)?;
    match name(alloc, b"fg", 30) {
        Ok(failgroup) => Ok(DiskInfo {
            birth,
            name: disk,
            failgroup,
        }),
        Err(answer) => {
            drop(disk);
            Err(answer)
        }
    }
}

/// The change by which a disk has this record.
#[tactic(auto, using(crate::proofs::Planned::planned))]
fn disk_by(alloc: Global, group: &Catalog, number: u8, info: &DiskInfo) -> Result<Change, Answer>
    ensures { IfOk result (λ change. IsPlanned group.now change.put change.gone) }
{
    if !info.is_allowed(number) {
        return Err(Answer::Another);
    }
    match group.plan_disk(alloc, number, Some(info)) {
        Ok(change) => Ok(change),
        Err(refusal) => Err(answer_of(refusal)),
    }
}

/// The change by which a disk has a record.
pub fn disk(alloc: Global, group: &Catalog, number: u8, birth: u64) -> Result<Change, Answer>
    ensures { IfOk result (λ change. IsPlanned group.now change.put change.gone) }
{
    match info(alloc, birth) {
        Ok(info) => {
            let change = disk_by(alloc, group, number, &info);
            drop(info);
            change
        }
        Err(answer) => Err(answer),
    }
}

/// The change by which a disk has none.
#[tactic(auto, using(crate::proofs::Planned::planned))]
pub fn no_disk(alloc: Global, group: &Catalog, number: u8) -> Result<Change, Answer>
    ensures { IfOk result (λ change. IsPlanned group.now change.put change.gone) }
{
    match group.plan_disk(alloc, number, None) {
        Ok(change) => Ok(change),
        Err(refusal) => Err(answer_of(refusal)),
    }
}

/// Whether two disks are two, and neither has a record.
fn are_new(group: &Catalog, first: u8, second: u8) -> bool
    ensures first { OnTrue result (info_at group.now.tables.disks first ≡ None) }
    ensures second { OnTrue result (info_at group.now.tables.disks second ≡ None) }
    ensures apart { OnTrue result (second ≡ first → ⊥) }
{
    group.disk(first).is_none() && group.disk(second).is_none() && second != first
}

/// The change by which two disks have these records.
#[tactic(auto, using(crate::proofs::NewDisks::may_add, crate::proofs::Planned::planned))]
fn two_disks_by(
    alloc: Global,
    group: &Catalog,
    first: u8,
    second: u8,
    infos: (DiskInfo, DiskInfo),
) -> Result<Change, Answer>
    ensures { IfOk result (λ change. IsPlanned group.now change.put change.gone) }
{
    if !infos.0.is_allowed(first) || !infos.1.is_allowed(second) || !are_new(group, first, second) {
        drop(infos);
        return Err(Answer::Another);
    }
    let added = [(first, infos.0), (second, infos.1)];
    let planned = group.plan_disks(alloc, &added);
    drop(added);
    match planned {
        Ok(change) => Ok(change),
        Err(refusal) => Err(answer_of(refusal)),
    }
}

/// Both records.
fn infos(alloc: Global) -> Result<(DiskInfo, DiskInfo), Answer> {
    let first = info(alloc, 3)?;
    match info(alloc, 4) {
        Ok(second) => Ok((first, second)),
        Err(answer) => {
            drop(first);
            Err(answer)
        }
    }
}

/// The change by which two disks have records.
pub fn two_disks(alloc: Global, group: &Catalog, first: u8, second: u8) -> Result<Change, Answer>
    ensures { IfOk result (λ change. IsPlanned group.now change.put change.gone) }
{
    match infos(alloc) {
        Ok(infos) => two_disks_by(alloc, group, first, second, infos),
        Err(answer) => Err(answer),
    }
}
