//! The rows of lsdg, lsdsk and lstmpl.

ghost use Rattle.std.specs.Prelude.{◌≡◌, codes, map, IfOk};
ghost use Rattle.asmcmd.specs.Texts.{disk_row, mounted_row, template_row};
ghost use Rattle.group_reports.specs.Disks.{failgroup_name, group_row};
ghost use Rattle.group_reports.specs.Disks as specs;

use crate::disks::{free_at, group_totals};
use crate::words::{copies_text, disk_kind, kind_text, stripe_text, yes_or_no};
use asm_base::{List, Name, NoMemory, Text};
use asmcmd::{DiskRow, GroupRow, TemplateRow};
use catalog_laws::Catalog;
use extent_copies::Template;
use refusal_lines::mode_text;
use status_table::{PstEntry, PstRecord};
use std::alloc::Global;

/// The row of lsdg of a mounted group of this name.
pub fn group_row(
    alloc: Global,
    name: &Name,
    catalog: &Catalog,
    status: &PstRecord,
) -> Result<GroupRow, NoMemory>
    ensures { IfOk result (λ row. row ≡ mounted_row name.now catalog.now.shape
        (group_row catalog.now status.now.entries)) }
{
    let shape = catalog.shape();
    let totals = group_totals(catalog, status);
    Ok(GroupRow {
        state: List::from_slice(alloc, b"MOUNTED")?,
        kind: List::from_slice(alloc, kind_text(shape.kind))?,
        rebal: List::from_slice(alloc, yes_or_no(totals.rebalancing))?,
        sector: shape.sector as u64,
        block: 4096,
        au: shape.au as u64,
        total: totals.total,
        free: totals.free,
        offline: totals.offline,
        name: List::from_slice(alloc, name.as_bytes())?,
    })
}

/// The row of lsdg of a group of this name that was dismounted, of which nothing else is shown.
pub fn dismounted_row(alloc: Global, name: &Name) -> Result<GroupRow, NoMemory>
    ensures state { IfOk result (λ row. row.state ≡ codes "DISMOUNTED") }
    ensures name { IfOk result (λ row. row.name ≡ name.now) }
{
    Ok(GroupRow {
        state: List::from_slice(alloc, b"DISMOUNTED")?,
        kind: List::new(alloc),
        rebal: List::new(alloc),
        sector: 0,
        block: 0,
        au: 0,
        total: 0,
        free: 0,
        offline: 0,
        name: List::from_slice(alloc, name.as_bytes())?,
    })
}

/// The rows of lsdsk: one of each disk, by number.
#[tactic(auto, using(crate::proofs::RowLists::disks_same))]
pub fn disk_rows(
    alloc: Global,
    catalog: &Catalog,
    status: &PstRecord,
) -> Result<Vec<DiskRow>, NoMemory>
    ensures { IfOk result (λ rows. rows.items
        ≡ map disk_row (specs.disk_rows catalog.now status.now.entries)) }
{
    let rows = rows_of(alloc, catalog, status.entries())?;
    Ok(rows)
}

fn rows_of(alloc: Global, catalog: &Catalog, disks: &[PstEntry]) -> Result<Vec<DiskRow>, NoMemory>
    ensures { IfOk result (λ rows. rows.items
        ≡ map (λ e. disk_row (specs.row_of_disk catalog.now e)) disks.now) }
{
    let mut rows = Vec::new(alloc);
    for disk in disks {
        let row = row_of(alloc, catalog, disk)?;
        if rows.push(row).is_err() {
            return Err(NoMemory);
        }
    }
    Ok(rows)
}

fn row_of(alloc: Global, catalog: &Catalog, disk: &PstEntry) -> Result<DiskRow, NoMemory>
    ensures { IfOk result (λ row. row ≡ disk_row (specs.row_of_disk catalog.now disk.now)) }
{
    Ok(DiskRow {
        number: disk.number as u64,
        mode: List::from_slice(alloc, mode_text(disk.mode))?,
        failgroup: failgroup_name(alloc, catalog, disk.number)?,
        kind: List::from_slice(alloc, disk_kind(disk.quorum))?,
        total: disk.units as u64,
        free: free_at(catalog.units(), disk.number) as u64,
        name: disk_name(alloc, catalog, disk.number)?,
    })
}

/// The name of a disk by its record, and no bytes where it has none.
pub fn disk_name(alloc: Global, catalog: &Catalog, disk: u8) -> Result<Text, NoMemory>
    ensures { IfOk result (λ name. name ≡ specs.disk_name_in_tables catalog.now.tables disk) }
{
    match catalog.disk(disk) {
        Some(info) => List::from_slice(alloc, info.name.as_bytes()),
        None => Ok(List::new(alloc)),
    }
}

/// The name of its failure group.
fn failgroup_name(alloc: Global, catalog: &Catalog, disk: u8) -> Result<Text, NoMemory>
    ensures { IfOk result (λ name. name ≡ failgroup_name catalog.now.tables disk) }
{
    match catalog.disk(disk) {
        Some(info) => List::from_slice(alloc, info.failgroup.as_bytes()),
        None => Ok(List::new(alloc)),
    }
}

/// The rows of lstmpl: one of each template, in folded order.
pub fn template_rows(alloc: Global, catalog: &Catalog) -> Result<Vec<TemplateRow>, NoMemory>
    ensures { IfOk result (λ rows. rows.items
        ≡ map template_row catalog.now.tables.templates.templates) }
{
    rows_of_templates(alloc, catalog.templates())
}

fn rows_of_templates(alloc: Global, templates: &[Template]) -> Result<Vec<TemplateRow>, NoMemory>
    ensures { IfOk result (λ rows. rows.items ≡ map template_row templates.now) }
{
    let mut rows = Vec::new(alloc);
    for template in templates {
        let row = row_of_template(alloc, template)?;
        if rows.push(row).is_err() {
            return Err(NoMemory);
        }
    }
    Ok(rows)
}

fn row_of_template(alloc: Global, template: &Template) -> Result<TemplateRow, NoMemory>
    ensures { IfOk result (λ row. row ≡ template_row template.now) }
{
    Ok(TemplateRow {
        name: List::from_slice(alloc, template.name.as_bytes())?,
        redund: List::from_slice(alloc, copies_text(template.copies))?,
        striped: List::from_slice(alloc, stripe_text(template.stripe))?,
        sys: List::from_slice(alloc, yes_or_no(template.system))?,
    })
}
