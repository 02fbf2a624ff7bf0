//! The lines of lsdg, lsdsk, lstmpl, lsattr and CHECK.

ghost use Rattle.std.specs.Prelude.{◌≡◌, ◌∷◌, [], codes, IfOk};
ghost use Rattle.std.specs.Str.{bytes_eq};
ghost use Rattle.asm_world.specs.Reports.{check_line, dismounted_line};
ghost use Rattle.asmcmd.specs.Texts.{mounted_row_line, group_row_line, group_lines, disk_row_line, disk_row_lines, template_row_line, template_row_lines, attribute_line, attribute_row_lines, RowsAreLines};

use crate::rows::{AttrRow, DiskRow, GroupRow, TemplateRow};
use crate::text::{Field, headed, line_of};
use asm_base::{List, NoMemory, Text};
use std::alloc::Global;

fn mounted_line(alloc: Global, row: &GroupRow) -> Result<Text, NoMemory>
    ensures { IfOk result (λ line. line ≡ mounted_row_line row.now) }
{
    line_of(
        alloc,
        Field::Word(row.state.as_slice()),
        &[
            Field::Word(row.kind.as_slice()),
            Field::Word(row.rebal.as_slice()),
            Field::Number(row.sector),
            Field::Number(row.block),
            Field::Number(row.au),
            Field::Number(row.total),
            Field::Number(row.free),
            Field::Number(row.offline),
            Field::Word(row.name.as_slice()),
        ],
    )
}

fn is_dismounted(row: &GroupRow) -> bool
    ensures { result ≡ bytes_eq row.now.state (codes "DISMOUNTED") }
{
    row.state.as_slice() == b"DISMOUNTED".as_slice()
}

fn dismounted_line(alloc: Global, name: &[u8]) -> Result<Text, NoMemory>
    ensures { IfOk result (λ line. line ≡ dismounted_line name.now) }
{
    let front = Field::Word(b"DISMOUNTED - - - - - - - -");
    line_of(alloc, front, &[Field::Word(name)])
}

/// Of a dismounted group only the name is told.
fn group_line(alloc: Global, row: &GroupRow) -> Result<Text, NoMemory>
    ensures { IfOk result (λ line. line ≡ group_row_line row.now) }
{
    if is_dismounted(row) {
        dismounted_line(alloc, row.name.as_slice())
    } else {
        mounted_line(alloc, row)
    }
}

/// A head line, and a line for each group.
pub fn group_lines(alloc: Global, rows: &[GroupRow]) -> Result<List<Text>, NoMemory>
    ensures { IfOk result (λ lines. lines ≡ group_lines rows.now) }
{
    let head = b"State Type Rebal Sector Block AU Total Free Offline Name";
    let mut lines = headed(alloc, head)?;
    for row in rows {
        lines.push(group_line(alloc, row)?)?;
    }
    Ok(lines)
}

fn disk_line(alloc: Global, row: &DiskRow) -> Result<Text, NoMemory>
    ensures { IfOk result (λ line. line ≡ disk_row_line row.now) }
{
    line_of(
        alloc,
        Field::Number(row.number),
        &[
            Field::Word(row.mode.as_slice()),
            Field::Word(row.failgroup.as_slice()),
            Field::Word(row.kind.as_slice()),
            Field::Number(row.total),
            Field::Number(row.free),
            Field::Word(row.name.as_slice()),
        ],
    )
}

/// A head line, and a line for each disk.
pub fn disk_lines(alloc: Global, rows: &[DiskRow]) -> Result<List<Text>, NoMemory>
    ensures { IfOk result (λ lines. lines ≡ disk_row_lines rows.now) }
{
    let mut lines = headed(alloc, b"Number Mode Failgroup Kind Total Free Name")?;
    for row in rows {
        lines.push(disk_line(alloc, row)?)?;
    }
    Ok(lines)
}

fn template_line(alloc: Global, row: &TemplateRow) -> Result<Text, NoMemory>
    ensures { IfOk result (λ line. line ≡ template_row_line row.now) }
{
    line_of(
        alloc,
        Field::Word(row.name.as_slice()),
        &[
            Field::Word(row.redund.as_slice()),
            Field::Word(row.striped.as_slice()),
            Field::Word(row.sys.as_slice()),
        ],
    )
}

/// A head line, and a line for each template.
pub fn template_lines(alloc: Global, rows: &[TemplateRow]) -> Result<List<Text>, NoMemory>
    ensures { IfOk result (λ lines. lines ≡ template_row_lines rows.now) }
{
    let mut lines = headed(alloc, b"Name Redund Striped Sys")?;
    for row in rows {
        lines.push(template_line(alloc, row)?)?;
    }
    Ok(lines)
}

fn attribute_line(alloc: Global, row: &AttrRow) -> Result<Text, NoMemory>
    ensures { IfOk result (λ line. line ≡ attribute_line row.now) }
{
    let value = Field::Word(row.value.as_slice());
    line_of(alloc, Field::Word(row.name.as_slice()), &[value])
}

/// A head line, and a line for each attribute.
pub fn attribute_lines(alloc: Global, rows: &[AttrRow]) -> Result<List<Text>, NoMemory>
    ensures { IfOk result (λ lines. lines ≡ attribute_row_lines rows.now) }
{
    let mut lines = headed(alloc, b"Name Value")?;
    for row in rows {
        lines.push(attribute_line(alloc, row)?)?;
    }
    Ok(lines)
}

/// How many extents a group has, and how many of them aren't Full.
pub fn check_lines(alloc: Global, extents: u64, not_full: u64) -> Result<List<Text>, NoMemory>
    ensures { IfOk result (λ lines. lines ≡ check_line extents not_full ∷ []) }
{
    let line = line_of(
        alloc,
        Field::Word(b"check"),
        &[Field::Number(extents), Field::Number(not_full)],
    )?;
    let mut lines = List::new(alloc);
    lines.push(line)?;
    Ok(lines)
}

/// The rows of what the reports show have the lines of the reports.
pub fn rows_are_lines()
    ensures { RowsAreLines }
{}
