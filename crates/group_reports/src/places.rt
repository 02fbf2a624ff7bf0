//! Which node a path names, and the path of a node.

ghost use Rattle.std.specs.Prelude.{◌≡◌, IfOk};
ghost use Rattle.asm_group.specs.Names.{folded_path, all_parts};
ghost use Rattle.asm_group.specs.TreeEdits.{is_under};
ghost use Rattle.group_reports.specs.Places.{directory_at, directory_in, is_directory_at, node_named, path_at, path_below};

use asm_base::{List, Name, NoMemory, NodeKind, Path, Text};
use catalog_laws::Catalog;
use refusal_lines::Refusal;
use std::alloc::Global;

/// Whether a node is a directory. The root is 0.
pub fn is_directory(catalog: &Catalog, node: u32) -> bool
    ensures { result ≡ is_directory_at catalog.now.tables node }
{
    match catalog.node(node) {
        Some(node) => matches!(node.kind, NodeKind::Directory),
        None => node == 0,
    }
}

/// The directory at a path in the group. NoName: nothing is there. NotDirectory: what is there is
/// the name of a file.
pub fn directory_at(catalog: &Catalog, path: &Path) -> Result<u32, Refusal>
    ensures { result ≡ directory_at catalog.now.tables path.now.parts }
{
    directory_in(catalog, catalog.find(path))
}

pub(crate) fn directory_in(catalog: &Catalog, node: Option<u32>) -> Result<u32, Refusal>
    ensures { result ≡ directory_in catalog.now.tables node }
{
    match node {
        None => Err(Refusal::NoName),
        Some(node) => {
            if is_directory(catalog, node) {
                Ok(node)
            } else {
                Err(Refusal::NotDirectory)
            }
        }
    }
}

/// Texts as the parts of a path. None where one of them isn't a part.
#[tactic(auto, using(crate::proofs::Paths::part_more, crate::proofs::Paths::part_passed, crate::proofs::Paths::part_wrong, crate::proofs::Paths::parts_end))]
fn parts_of(alloc: Global, texts: &[Text]) -> Result<Option<List<Name>>, NoMemory>
    ensures { IfOk result (λ parts. parts ≡ all_parts texts.now) }
{
    let mut parts = List::new(alloc);
    for text in texts {
        match Name::read(alloc, text.as_slice(), 80)? {
            Some(part) => parts.push(part)?,
            None => return Ok(None),
        }
    }
    Ok(Some(parts))
}

/// The node at the path of these texts in a group of this name. The root is 0.
pub(crate) fn node_named(
    alloc: Global,
    group: &Name,
    catalog: &Catalog,
    texts: &[Text],
) -> Result<Option<u32>, NoMemory>
    ensures { IfOk result (λ node. node ≡ node_named catalog.now.tables texts.now) }
{
    let Some(parts) = parts_of(alloc, texts)? else {
        return Ok(None);
    };
    let group = group.copy()?;
    Ok(catalog.find(&Path { group, parts }))
}

/// The path of a node in a group of this name, as the nodes spell it. None where there is no such
/// node, as for the root.
#[tactic(auto, using(crate::proofs::Paths::path_is))]
pub fn path_at(
    alloc: Global,
    group: &Name,
    catalog: &Catalog,
    node: u32,
) -> Result<Option<Path>, NoMemory>
    ensures { IfOk result (λ path. path ≡ path_at catalog.now.tables group.now node) }
{
    match catalog.node(node) {
        Some(_) => {
            let path = catalog.path_of(alloc, group, node)?;
            Ok(path)
        }
        None => Ok(None),
    }
}

/// Whether a path lies below a directory, however deep.
#[tactic(auto, using(alias_tree::proofs::Paths::under_short))]
fn is_under(dir: &[Name], path: &[Name]) -> bool
    ensures { result ≡ is_under (folded_path dir.now) (folded_path path.now) }
{
    if path.len() <= dir.len() {
        return false;
    }
    for i in 0..dir.len() {
        if !dir[i].is_same(&path[i]) {
            return false;
        }
    }
    true
}

/// The path of a node, where it lies below a directory.
pub(crate) fn path_below(
    alloc: Global,
    group: &Name,
    catalog: &Catalog,
    dir: &[Name],
    node: u32,
) -> Result<Option<Path>, NoMemory>
    ensures { IfOk result (λ path. path ≡ path_below catalog.now.tables group.now dir.now node) }
{
    let Some(path) = path_at(alloc, group, catalog, node)? else {
        return Ok(None);
    };
    if is_under(dir, path.parts.as_slice()) {
        Ok(Some(path))
    } else {
        Ok(None)
    }
}
