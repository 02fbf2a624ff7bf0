//! Reports of a group, as texts.

use super::fact::{Found, Report};
use crate::spelt::read_path;
use asm_base::{List, Name, NoMemory, Path, Text};
use asmcmd::{
    GroupRow, LsRow, attribute_lines, check_lines, disk_lines, group_lines, ls_lines, path_lines,
    template_lines, usage_lines,
};
use catalog::Catalog;
use disk_modes::{
    attribute_rows, check, directory_at, directory_row, disk_name, disk_rows, dismounted_row,
    group_row, group_totals, is_directory, path_at, path_to, paths_found, row_at, rows_listed,
    rows_under, template_rows, usage_below,
};
use group_engine::Mounted;
use refusal_lines::Refusal;
use status_table::PstRecord;
use std::alloc::Global;

/// The parts of a path as texts.
fn texts(alloc: Global, parts: &[&[u8]]) -> Result<Vec<Text>, NoMemory> {
    let mut texts = Vec::new(alloc);
    for part in parts {
        let text = List::from_slice(alloc, part)?;
        if texts.push(text).is_err() {
            return Err(NoMemory);
        }
    }
    Ok(texts)
}

/// The parts of a path as names. Those that are none are left out.
fn names(alloc: Global, parts: &[&[u8]]) -> Result<Vec<Name>, NoMemory> {
    let mut names = Vec::new(alloc);
    for part in parts {
        let Some(name) = Name::read(alloc, part, 80)? else {
            continue;
        };
        if names.push(name).is_err() {
            return Err(NoMemory);
        }
    }
    Ok(names)
}

/// The lines as one text, in which a line feed ends each.
fn joined(alloc: Global, lines: &[Text]) -> Result<Vec<u8>, NoMemory> {
    let mut text = Vec::new(alloc);
    for line in lines {
        text.extend_from_slice(line.as_slice())
            .map_err(|_| NoMemory)?;
        text.push(b'\n').map_err(|_| NoMemory)?;
    }
    Ok(text)
}

/// The text of a report's lines.
fn ended(alloc: Global, lines: Result<List<Text>, NoMemory>) -> Result<Vec<u8>, NoMemory> {
    let lines = lines?;
    let text = joined(alloc, lines.as_slice());
    drop(lines);
    text
}

fn attributes(alloc: Global, catalog: &Catalog) -> Result<Vec<u8>, NoMemory> {
    let rows = attribute_rows(alloc, catalog)?;
    let lines = attribute_lines(alloc, &rows);
    drop(rows);
    ended(alloc, lines)
}

fn templates(alloc: Global, catalog: &Catalog) -> Result<Vec<u8>, NoMemory> {
    let rows = template_rows(alloc, catalog)?;
    let lines = template_lines(alloc, &rows);
    drop(rows);
    ended(alloc, lines)
}

fn disks(alloc: Global, catalog: &Catalog, status: &PstRecord) -> Result<Vec<u8>, NoMemory> {
    let rows = disk_rows(alloc, catalog, status)?;
    let lines = disk_lines(alloc, &rows);
    drop(rows);
    ended(alloc, lines)
}

/// The text of one row of lsdg.
fn one_group(alloc: Global, row: GroupRow) -> Result<Vec<u8>, NoMemory> {
    let rows = [row];
    let lines = group_lines(alloc, &rows);
    drop(rows);
    ended(alloc, lines)
}

/// The text of the rows of ls.
fn listed(alloc: Global, rows: Vec<LsRow>, long: bool) -> Result<Vec<u8>, NoMemory> {
    let lines = ls_lines(alloc, &rows, long);
    drop(rows);
    ended(alloc, lines)
}

/// The text of ls at a path, or the word of its refusal.
fn names_at(
    alloc: Global,
    group: &Name,
    catalog: &Catalog,
    parts: &[&[u8]],
    long: bool,
) -> Result<Vec<u8>, NoMemory> {
    let parts = texts(alloc, parts)?;
    let rows = rows_listed(alloc, group, catalog, &parts);
    drop(parts);
    match rows {
        Ok(rows) => listed(alloc, rows, long),
        Err(refusal) => refusal_text(alloc, refusal),
    }
}

fn refusal_text(alloc: Global, refusal: Refusal) -> Result<Vec<u8>, NoMemory> {
    let word = match refusal {
        Refusal::NoName => b"NoName".as_slice(),
        Refusal::NotDirectory => b"NotDirectory".as_slice(),
        _ => b"another".as_slice(),
    };
    drop(refusal);
    bytes(alloc, word)
}

fn bytes(alloc: Global, bytes: &[u8]) -> Result<Vec<u8>, NoMemory> {
    bytes.to_vec(alloc).map_err(|_| NoMemory)
}

fn root(alloc: Global, group: &Name) -> Result<Vec<u8>, NoMemory> {
    one_name(alloc, directory_row(alloc, group)?)
}

/// The node at a path. The root is 0.
fn node_at(alloc: Global, catalog: &Catalog, at: &[u8]) -> Option<u32> {
    match read_path(alloc, at) {
        Some(path) => {
            let node = catalog.find(&path);
            drop(path);
            node
        }
        None => None,
    }
}

/// A path as a line, where there is one.
fn line_of(alloc: Global, path: Option<Path>) -> Result<Vec<u8>, NoMemory> {
    match path {
        Some(path) => {
            let paths = [path];
            let lines = path_lines(alloc, &paths);
            drop(paths);
            ended(alloc, lines)
        }
        None => Ok(Vec::new(alloc)),
    }
}

/// The path of a node, by both calls, behind one another.
fn path_of(alloc: Global, group: &Name, catalog: &Catalog, at: &[u8]) -> Result<Vec<u8>, NoMemory> {
    let node = node_at(alloc, catalog, at).unwrap_or(0);
    let path = path_at(alloc, group, catalog, node)?;
    let mut line = line_of(alloc, path)?;
    let text = path_to(alloc, group, catalog, node)?;
    let added = line.extend_from_slice(text.as_slice());
    drop(text);
    match added {
        Ok(()) => Ok(line),
        Err(_) => Err(NoMemory),
    }
}

/// The rows of a directory's names.
fn under(
    alloc: Global,
    group: &Name,
    catalog: &Catalog,
    at: &[u8],
    pattern: &[u8],
) -> Result<Vec<u8>, NoMemory> {
    let node = node_at(alloc, catalog, at).unwrap_or(0);
    let rows = rows_under(alloc, group, catalog, node, pattern)?;
    listed(alloc, rows, true)
}

/// The row of a name.
fn row(
    alloc: Global,
    group: &Name,
    catalog: &Catalog,
    at: &[u8],
    pattern: &[u8],
) -> Result<Vec<u8>, NoMemory> {
    let node = node_at(alloc, catalog, at).unwrap_or(0);
    match row_at(alloc, group, catalog, pattern, node)? {
        Some(row) => one_name(alloc, row),
        None => Ok(Vec::new(alloc)),
    }
}

/// The text of one row of ls.
fn one_name(alloc: Global, row: LsRow) -> Result<Vec<u8>, NoMemory> {
    let rows = [row];
    let lines = ls_lines(alloc, &rows, true);
    drop(rows);
    ended(alloc, lines)
}

fn found(
    alloc: Global,
    group: &Name,
    catalog: &Catalog,
    parts: &[&[u8]],
    pattern: &[u8],
) -> Result<Vec<u8>, NoMemory> {
    let parts = names(alloc, parts)?;
    let paths = paths_found(alloc, group, catalog, &parts, pattern);
    drop(parts);
    let paths = paths?;
    let lines = path_lines(alloc, &paths);
    drop(paths);
    ended(alloc, lines)
}

fn usage(
    alloc: Global,
    group: &Name,
    catalog: &Catalog,
    parts: &[&[u8]],
) -> Result<Vec<u8>, NoMemory> {
    let parts = names(alloc, parts)?;
    let taken = usage_below(alloc, group, catalog, &parts);
    drop(parts);
    let taken = taken?;
    ended(alloc, usage_lines(alloc, taken.used, taken.mirrored))
}

fn name_of(alloc: Global, catalog: &Catalog, disk: u8) -> Result<Vec<u8>, NoMemory> {
    let name = disk_name(alloc, catalog, disk)?;
    let copy = bytes(alloc, name.as_slice());
    drop(name);
    copy
}

/// The text of a report.
fn printed(alloc: Global, m: &Mounted, report: Report) -> Result<Vec<u8>, NoMemory> {
    let (group, catalog, status) = (m.name(), m.catalog(), m.status());
    match report {
        Report::Attributes => attributes(alloc, catalog),
        Report::Templates => templates(alloc, catalog),
        Report::Disks => disks(alloc, catalog, status),
        Report::Group => one_group(alloc, group_row(alloc, group, catalog, status)?),
        Report::Dismounted => one_group(alloc, dismounted_row(alloc, group)?),
        Report::Check => {
            let checked = check(catalog, status);
            let lines = check_lines(alloc, checked.extents, checked.not_full);
            ended(alloc, lines)
        }
        _ => printed_of_names(alloc, group, catalog, report),
    }
}

/// The text of a report on names.
fn printed_of_names(
    alloc: Global,
    group: &Name,
    catalog: &Catalog,
    report: Report,
) -> Result<Vec<u8>, NoMemory> {
    match report {
        Report::Names(parts, long) => names_at(alloc, group, catalog, parts, long),
        Report::Root => root(alloc, group),
        Report::PathOf(at) => path_of(alloc, group, catalog, at),
        Report::Under(at, pattern) => under(alloc, group, catalog, at, pattern),
        Report::Row(at, pattern) => row(alloc, group, catalog, at, pattern),
        Report::Found(parts, pattern) => found(alloc, group, catalog, parts, pattern),
        Report::Usage(parts) => usage(alloc, group, catalog, parts),
        Report::DiskName(disk) => name_of(alloc, catalog, disk),
        _ => Ok(Vec::new(alloc)),
    }
}

/// Whether a report is this text.
pub fn is_printed(alloc: Global, m: &Mounted, report: Report, text: &[u8]) -> bool {
    match printed(alloc, m, report) {
        Ok(print) => {
            let is = print.as_slice() == text;
            drop(print);
            is
        }
        Err(_) => false,
    }
}

/// What the search of a directory finds.
fn found_by(catalog: &Catalog, path: &Path) -> Found {
    match directory_at(catalog, path) {
        Ok(node) => {
            if catalog.find(path) == Some(node) && is_directory(catalog, node) {
                Found::Directory
            } else {
                Found::Another
            }
        }
        Err(refusal) => found_not(refusal),
    }
}

fn found_not(refusal: Refusal) -> Found {
    let found = match refusal {
        Refusal::NoName => Found::NoName,
        Refusal::NotDirectory => Found::NotDirectory,
        _ => Found::Another,
    };
    drop(refusal);
    found
}

/// Whether this is at a path.
pub fn is_directory_at(alloc: Global, catalog: &Catalog, at: &[u8], found: Found) -> bool {
    let Some(path) = read_path(alloc, at) else {
        return false;
    };
    let there = found_by(catalog, &path);
    drop(path);
    there == found
}

/// Whether these are the totals of a group.
pub fn are_totals(m: &Mounted, totals: (bool, u64, u64, u64)) -> bool {
    let told = group_totals(m.catalog(), m.status());
    (told.rebalancing, told.total, told.free, told.offline) == totals
}
