//! The rows of lsattr.

ghost use Rattle.std.specs.Prelude.{◌≡◌, ◌∷◌, ◌++◌, [], codes, IfOk, OnOk};
ghost use Rattle.std.specs.Fmt.{decimal};
ghost use Rattle.asm_world.specs.Reports.{version_text};
ghost use Rattle.asmcmd.specs.Texts.{attribute_rows};

use asm_base::{List, NoMemory, Text};
use asmcmd::AttrRow;
use catalog_laws::Catalog;
use itoa::Buffer;
use std::alloc::Global;

/// The rows of lsattr: one of each attribute, in folded order. Sizes are in bytes, and the repair
/// time is in seconds.
pub fn attribute_rows(alloc: Global, catalog: &Catalog) -> Result<Vec<AttrRow>, NoMemory>
    ensures { IfOk result (λ rows. rows.items
        ≡ attribute_rows catalog.now.shape catalog.now.tables.templates.settings.attributes) }
{
    let shape = catalog.shape();
    let settings = catalog.settings();
    let mut rows = Vec::new(alloc);
    push_row(
        &mut rows,
        row(alloc, b"au_size", number(alloc, shape.au as u64)?)?,
    )?;
    push_row(
        &mut rows,
        row(alloc, b"compatible.advm", version(alloc, &settings.advm)?)?,
    )?;
    push_row(
        &mut rows,
        row(alloc, b"compatible.asm", version(alloc, &settings.asm)?)?,
    )?;
    push_row(
        &mut rows,
        row(alloc, b"compatible.rdbms", version(alloc, &settings.rdbms)?)?,
    )?;
    push_row(
        &mut rows,
        row(
            alloc,
            b"dir_blocks",
            number(alloc, shape.dir_blocks as u64)?,
        )?,
    )?;
    push_row(
        &mut rows,
        row(alloc, b"disk_repair_time", seconds(alloc, settings.repair)?)?,
    )?;
    push_row(
        &mut rows,
        row(alloc, b"extent_step", number(alloc, shape.step as u64)?)?,
    )?;
    push_row(
        &mut rows,
        row(alloc, b"sector_size", number(alloc, shape.sector as u64)?)?,
    )?;
    Ok(rows)
}

fn push_row(rows: &mut Vec<AttrRow>, row: AttrRow) -> Result<(), NoMemory>
    ensures { OnOk result (rows.new.items ≡ rows.old.items ++ row ∷ []) }
{
    match rows.push(row) {
        Ok(()) => Ok(()),
        Err(_) => Err(NoMemory),
    }
}

fn row(alloc: Global, name: &[u8], value: Text) -> Result<AttrRow, NoMemory>
    ensures { IfOk result (λ row. row ≡ record { name = name.now; value = value }) }
{
    Ok(AttrRow {
        name: List::from_slice(alloc, name)?,
        value,
    })
}

fn number(alloc: Global, n: u64) -> Result<Text, NoMemory>
    ensures { IfOk result (λ text. text ≡ decimal n) }
{
    List::from_slice(alloc, Buffer::new().format(n).as_bytes())
}

fn seconds(alloc: Global, n: u64) -> Result<Text, NoMemory>
    ensures { IfOk result (λ text. text ≡ decimal n ++ codes "s") }
{
    let mut text = number(alloc, n)?;
    text.push(b's')?;
    Ok(text)
}

/// 11.2 where none was given.
fn version(alloc: Global, text: &Text) -> Result<Text, NoMemory>
    ensures { IfOk result (λ version. version ≡ version_text text.now) }
{
    match text.as_slice() {
        [] => List::from_slice(alloc, b"11.2"),
        given => List::from_slice(alloc, given),
    }
}
