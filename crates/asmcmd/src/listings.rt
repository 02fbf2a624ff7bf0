//! The lines of ls, find and du.

ghost use Rattle.std.specs.Prelude.{◌≡◌, true, map, IfOk};
ghost use Rattle.asm_world.specs.Reports.{du_lines};
ghost use Rattle.asmcmd.specs.Texts.{short_row_line, file_line, directory_line, long_row_line, ls_row_lines, path_line};

use crate::paths::path_text;
use crate::rows::LsRow;
use crate::text::{Field, headed, line_of};
use asm_base::{List, NoMemory, Path, Text};
use std::alloc::Global;

fn short_line(alloc: Global, row: &LsRow) -> Result<Text, NoMemory>
    ensures { IfOk result (λ line. line ≡ short_row_line row.now) }
{
    let name = row.name.as_slice();
    if row.dir {
        line_of(alloc, Field::Directory(name), &[])
    } else {
        line_of(alloc, Field::Word(name), &[])
    }
}

fn short_lines(alloc: Global, rows: &[LsRow]) -> Result<List<Text>, NoMemory>
    ensures { IfOk result (λ lines. lines ≡ map short_row_line rows.now) }
{
    let mut lines = List::new(alloc);
    for row in rows {
        lines.push(short_line(alloc, row)?)?;
    }
    Ok(lines)
}

fn directory_line(alloc: Global, name: &[u8]) -> Result<Text, NoMemory>
    ensures { IfOk result (λ line. line ≡ directory_line name.now) }
{
    line_of(
        alloc,
        Field::Word(b"DIR"),
        &[
            Field::Word(b"-"),
            Field::Word(b"-"),
            Field::Word(b"N"),
            Field::Directory(name),
        ],
    )
}

fn file_line(alloc: Global, row: &LsRow) -> Result<Text, NoMemory>
    ensures { IfOk result (λ line. line ≡ file_line row.now row.now.target) }
{
    let kind = Field::Word(row.kind.as_slice());
    let redund = Field::Word(row.redund.as_slice());
    let striped = Field::Word(row.striped.as_slice());
    let name = Field::Word(row.name.as_slice());
    match &row.target {
        None => {
            let sys = Field::Word(row.sys.as_slice());
            line_of(alloc, kind, &[redund, striped, sys, name])
        }
        Some(target) => {
            let target = Field::Word(target.as_slice());
            line_of(
                alloc,
                kind,
                &[
                    redund,
                    striped,
                    Field::Word(b"N"),
                    name,
                    Field::Word(b"=>"),
                    target,
                ],
            )
        }
    }
}

fn long_line(alloc: Global, row: &LsRow) -> Result<Text, NoMemory>
    ensures { IfOk result (λ line. line ≡ long_row_line row.now) }
{
    if row.dir {
        directory_line(alloc, row.name.as_slice())
    } else {
        file_line(alloc, row)
    }
}

fn long_lines(alloc: Global, rows: &[LsRow]) -> Result<List<Text>, NoMemory>
    ensures { IfOk result (λ lines. lines ≡ ls_row_lines true rows.now) }
{
    let mut lines = headed(alloc, b"Type Redund Striped Sys Name")?;
    for row in rows {
        lines.push(long_line(alloc, row)?)?;
    }
    Ok(lines)
}

/// The names of the rows, or with `long` their columns below a head line.
pub fn ls_lines(alloc: Global, rows: &[LsRow], long: bool) -> Result<List<Text>, NoMemory>
    ensures { IfOk result (λ lines. lines ≡ ls_row_lines long rows.now) }
{
    if long {
        long_lines(alloc, rows)
    } else {
        short_lines(alloc, rows)
    }
}

/// The paths, one a line.
pub fn path_lines(alloc: Global, paths: &[Path]) -> Result<List<Text>, NoMemory>
    ensures { IfOk result (λ lines. lines ≡ map path_line paths.now) }
{
    let mut lines = List::new(alloc);
    for path in paths {
        lines.push(path_text(alloc, &path.group, path.parts.as_slice())?)?;
    }
    Ok(lines)
}

/// The bytes used by files, and by all copies of their extents, below a head line.
pub fn usage_lines(alloc: Global, used: u128, mirrored: u128) -> Result<List<Text>, NoMemory>
    ensures { IfOk result (λ lines. lines ≡ du_lines used mirrored) }
{
    let mut lines = headed(alloc, b"Used Mirror_used")?;
    let mirrored = Field::WideNumber(mirrored);
    lines.push(line_of(alloc, Field::WideNumber(used), &[mirrored])?)?;
    Ok(lines)
}
