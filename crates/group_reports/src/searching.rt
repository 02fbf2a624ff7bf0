//! What find shows: the paths of files and aliases below a directory.

ghost use Rattle.std.specs.Prelude.{◌≡◌, ◌++◌, [], map, flat_map, IfOk, OnOk};
ghost use Rattle.std.specs.Option.{option_to_list};
ghost use Rattle.asm_group.specs.Names.{folded};
ghost use Rattle.asm_base.specs.Names.{path_text_in_group};
ghost use Rattle.file_directory.specs.declared.head.FileHead as declared;
ghost use Rattle.group_reports.specs.Files.{folded_text, matching_node_path, found_of_file, found_of_files, paths_in_order, paths_found, placed_among};
ghost use Rattle.group_reports.specs.Keyed.{keyed_paths};

use crate::files::next_file;
use crate::places::path_below;
use asm_base::{Name, NoMemory, Path, folded_byte};
use asmcmd::path_text;
use catalog_laws::Catalog;
use file_directory::FileHead;
use std::alloc::Global;
use std::collections::BTreeMap;
use verb_paths::is_match;

/// The paths of files and aliases below a directory whose last part matches a pattern, in the order
/// of their texts without case. The group has this name. Work goes by the number of the group's
/// files.
pub fn paths_found(
    alloc: Global,
    group: &Name,
    catalog: &Catalog,
    dir: &[Name],
    pattern: &[u8],
) -> Result<Vec<Path>, NoMemory>
    ensures { IfOk result (λ paths. paths.items
        ≡ paths_found catalog.now.tables group.now dir.now pattern.now) }
{
    let found = found_of_files(alloc, group, catalog, dir, pattern)?;
    in_order(alloc, found)
}

/// The same, in the order of the files.
#[tactic(auto, using(crate::proofs::FileWalk::found_start, crate::proofs::FileWalk::found_more, crate::proofs::FileWalk::found_end))]
fn found_of_files(
    alloc: Global,
    group: &Name,
    catalog: &Catalog,
    dir: &[Name],
    pattern: &[u8],
) -> Result<Vec<Path>, NoMemory>
    ensures { IfOk result (λ paths. paths.items
        ≡ found_of_files catalog.now.tables group.now dir.now pattern.now
        catalog.now.tables.files) }
{
    let mut found = Vec::new(alloc);
    let mut least = 0;
    while let Some((number, head)) = next_file(catalog, least) {
        push_found(alloc, group, catalog, dir, pattern, head, &mut found)?;
        least = number as u64 + 1;
    }
    Ok(found)
}

/// Puts the paths of one file behind others.
fn push_found(
    alloc: Global,
    group: &Name,
    catalog: &Catalog,
    dir: &[Name],
    pattern: &[u8],
    head: &FileHead,
    found: &mut Vec<Path>,
) -> Result<(), NoMemory>
    ensures { OnOk result (found.new.items
        ≡ found.old.items ++ (option_to_list
        (matching_node_path catalog.now.tables group.now dir.now pattern.now head.now.system)
        ++ option_to_list (matching_node_path catalog.now.tables group.now dir.now pattern.now
        head.now.alias))) }
{
    let system = found_at(alloc, group, catalog, dir, pattern, head.system)?;
    push_path(found, system)?;
    let alias = found_at(alloc, group, catalog, dir, pattern, head.alias)?;
    push_path(found, alias)
}

/// Puts a path, where there is one.
fn push_path(paths: &mut Vec<Path>, path: Option<Path>) -> Result<(), NoMemory>
    ensures { OnOk result (paths.new.items ≡ paths.old.items ++ option_to_list path) }
{
    let Some(path) = path else {
        return Ok(());
    };
    match paths.push(path) {
        Ok(()) => Ok(()),
        Err(_) => Err(NoMemory),
    }
}

/// The path of a node whose name matches, where it lies below the directory.
fn found_at(
    alloc: Global,
    group: &Name,
    catalog: &Catalog,
    dir: &[Name],
    pattern: &[u8],
    number: u32,
) -> Result<Option<Path>, NoMemory>
    ensures { IfOk result (λ path. path ≡ matching_node_path catalog.now.tables group.now dir.now
        pattern.now number) }
{
    let Some(node) = catalog.node(number) else {
        return Ok(None);
    };
    if is_match(pattern, node.name.as_bytes()) {
        path_below(alloc, group, catalog, dir, number)
    } else {
        Ok(None)
    }
}

/// The paths in the order of their texts without case.
fn in_order(alloc: Global, paths: Vec<Path>) -> Result<Vec<Path>, NoMemory>
    ensures { IfOk result (λ sorted. sorted.items ≡ paths_in_order paths.items) }
{
    let places = placed(alloc, paths)?;
    values_of(alloc, places)
}

/// Each path under its text without case.
#[tactic(auto, using(crate::proofs::Keyed::place_more, crate::proofs::Keyed::place_end))]
fn placed(alloc: Global, mut paths: Vec<Path>) -> Result<BTreeMap<Vec<u8>, Path>, NoMemory>
    ensures { IfOk result (λ places. keyed_paths places.entries ≡ placed_among [] paths.items) }
{
    let mut places = BTreeMap::new(alloc);
    while let Some(path) = paths.pop() {
        let text = folded_text(alloc, &path)?;
        let Ok(_same) = places.insert(text, path) else {
            return Err(NoMemory);
        };
    }
    Ok(places)
}

/// The paths in the order of their keys.
#[tactic(auto, using(crate::proofs::Keyed::values_same))]
fn values_of(alloc: Global, places: BTreeMap<Vec<u8>, Path>) -> Result<Vec<Path>, NoMemory>
    ensures { IfOk result (λ paths. paths.items ≡ map (λ e. e.1) (keyed_paths places.entries)) }
{
    places.into_values().collect(alloc).map_err(|_| NoMemory)
}

/// The text of a path without case.
fn folded_text(alloc: Global, path: &Path) -> Result<Vec<u8>, NoMemory>
    ensures { IfOk result (λ text. text.items ≡ folded_text path.now) }
{
    let text = path_text(alloc, &path.group, path.parts.as_slice())?;
    folded_bytes(alloc, text.as_slice())
}

fn folded_bytes(alloc: Global, bytes: &[u8]) -> Result<Vec<u8>, NoMemory>
    ensures { IfOk result (λ lower. lower.items ≡ folded bytes.now) }
{
    bytes
        .iter()
        .map(|b| folded_byte(*b))
        .collect(alloc)
        .map_err(|_| NoMemory)
}
