//! The rows of ls.

ghost use Rattle.std.specs.Prelude.{◌≡◌, ◌++◌, false, true, IfErr, IfOk, IfSome, IsSomeAnd, MatchOption, OnOk};
ghost use Rattle.std.specs.Option.{option_map, option_to_list};
ghost use Rattle.refusal_lines.specs.declared.refusal.Refusal.TheVariants as cause;
ghost use Rattle.asm_group.specs.TreeEdits.{last_part, up};
ghost use Rattle.asm_world.specs.Listings.{has_star};
ghost use Rattle.asm_world.specs.Reports.{AliasName, Directory, ListedSystemName};
ghost use Rattle.asmcmd.specs.Texts.{listed_row};
ghost use Rattle.group_reports.specs.Listing.{AreRowsAt, AreRowsIn, AreRowsOf, AreRowsUnder, IsListCause, IsDueRefusal, if_missing, listing_of_node, node_row, path_to, directory_refusal, row_at, rows_of_nodes, star};
ghost use Rattle.group_reports.specs.Places.{directory_in, node_named};

use crate::places::{directory_in, is_directory, node_named, path_at};
use crate::words::{copies_text, stripe_text};
use alias_tree::Node;
use asm_base::{List, Name, NoMemory, NodeKind, Text};
use asmcmd::{LsRow, path_text};
use catalog_laws::Catalog;
use file_directory::FileHead;
use refusal_lines::Refusal;
use std::alloc::Global;
use verb_paths::{has_star, is_match};

/// The rows of ls at a path in a group of this name: the names in a directory, those that match the
/// last part where it has a `*`, or a file's own name. NoName: nothing is there. NotDirectory: a
/// pattern is looked for in what is no directory.
pub fn rows_listed(
    alloc: Global,
    group: &Name,
    catalog: &Catalog,
    parts: &[Text],
) -> Result<Vec<LsRow>, Refusal>
    ensures rows { IfOk result (λ rows. AreRowsAt catalog.now.tables group.now parts.now
        rows.items) }
    ensures cause { IfErr result (IsListCause catalog.now.tables parts.now) }
{
    match pattern_of(parts) {
        Some((above, pattern)) => rows_matching(alloc, group, catalog, above, pattern),
        None => rows_named(alloc, group, catalog, parts),
    }
}

/// The pattern that the last part of a path is, and the parts above it. None where it isn't one.
#[tactic(auto, using(crate::proofs::Paths::split_up, crate::proofs::Paths::split_last, crate::proofs::Paths::no_parts))]
fn pattern_of(parts: &[Text]) -> Option<(&[Text], &[u8])>
    ensures pattern { MatchOption result (has_star (last_part parts.now) ≡ false)
        (λ p. has_star (last_part parts.now) ≡ true) }
    ensures parts { IfSome result (λ p. (p.0.now ≡ up parts.now)
        × (p.1.now ≡ last_part parts.now)) }
{
    let Some((last, above)) = parts.split_last() else {
        return None;
    };
    let pattern = last.as_slice();
    if has_star(pattern) {
        Some((above, pattern))
    } else {
        None
    }
}

fn no_memory(_want: NoMemory) -> Refusal
    ensures { result ≡ cause.NoMemory }
{
    Refusal::NoMemory
}

/// The rows of the names in a directory that match a pattern.
fn rows_matching(
    alloc: Global,
    group: &Name,
    catalog: &Catalog,
    above: &[Text],
    pattern: &[u8],
) -> Result<Vec<LsRow>, Refusal>
    ensures rows { IfOk result (λ rows. AreRowsIn catalog.now.tables group.now pattern.now
        (directory_in catalog.now.tables (node_named catalog.now.tables above.now)) rows.items) }
    ensures cause { IfErr result (IsDueRefusal
        (directory_refusal (directory_in catalog.now.tables
        (node_named catalog.now.tables above.now)))) }
{
    let node = node_named(alloc, group, catalog, above).map_err(no_memory)?;
    let directory = directory_in(catalog, node)?;
    rows_under(alloc, group, catalog, directory, pattern).map_err(no_memory)
}

/// The rows of a directory's names, or of a file's own.
fn rows_named(
    alloc: Global,
    group: &Name,
    catalog: &Catalog,
    parts: &[Text],
) -> Result<Vec<LsRow>, Refusal>
    ensures rows { IfOk result (λ rows. IsSomeAnd (node_named catalog.now.tables parts.now)
        (λ n. AreRowsOf catalog.now.tables group.now n rows.items)) }
    ensures cause { IfErr result (IsDueRefusal
        (if_missing (node_named catalog.now.tables parts.now))) }
{
    let Some(node) = node_named(alloc, group, catalog, parts).map_err(no_memory)? else {
        return Err(Refusal::NoName);
    };
    rows_of(alloc, group, catalog, node).map_err(no_memory)
}

fn rows_of(
    alloc: Global,
    group: &Name,
    catalog: &Catalog,
    node: u32,
) -> Result<Vec<LsRow>, NoMemory>
    ensures { IfOk result (λ rows. AreRowsOf catalog.now.tables group.now node rows.items) }
{
    if is_directory(catalog, node) {
        return rows_under(alloc, group, catalog, node, b"*");
    }
    let mut rows = Vec::new(alloc);
    push_row(&mut rows, row_at(alloc, group, catalog, b"*", node)?)?;
    Ok(rows)
}

/// The rows of the names in a directory that match a pattern, in folded order, where the group has
/// this name. All match `*`.
pub fn rows_under(
    alloc: Global,
    group: &Name,
    catalog: &Catalog,
    directory: u32,
    pattern: &[u8],
) -> Result<Vec<LsRow>, NoMemory>
    ensures { IfOk result (λ rows. AreRowsUnder catalog.now.tables group.now directory pattern.now
        rows.items) }
{
    let numbers = catalog.children(alloc, directory)?;
    rows_at(alloc, group, catalog, pattern, &numbers)
}

#[tactic(auto, using(crate::proofs::RowLists::rows_more))]
fn rows_at(
    alloc: Global,
    group: &Name,
    catalog: &Catalog,
    pattern: &[u8],
    numbers: &[u32],
) -> Result<Vec<LsRow>, NoMemory>
    ensures { IfOk result (λ rows. rows.items
        ≡ rows_of_nodes catalog.now.tables group.now pattern.now numbers.now) }
{
    let mut rows = Vec::new(alloc);
    for number in numbers {
        push_row(&mut rows, row_at(alloc, group, catalog, pattern, *number)?)?;
    }
    Ok(rows)
}

/// Puts a row, where there is one.
fn push_row(rows: &mut Vec<LsRow>, row: Option<LsRow>) -> Result<(), NoMemory>
    ensures { OnOk result (rows.new.items ≡ rows.old.items ++ option_to_list row) }
{
    let Some(row) = row else {
        return Ok(());
    };
    match rows.push(row) {
        Ok(()) => Ok(()),
        Err(_) => Err(NoMemory),
    }
}

/// The row of a node, where its name matches a pattern.
pub fn row_at(
    alloc: Global,
    group: &Name,
    catalog: &Catalog,
    pattern: &[u8],
    node: u32,
) -> Result<Option<LsRow>, NoMemory>
    ensures { IfOk result (λ row. row ≡ row_at catalog.now.tables group.now pattern.now node) }
{
    match catalog.node(node) {
        Some(node) => node_row(alloc, group, catalog, pattern, node),
        None => Ok(None),
    }
}

fn node_row(
    alloc: Global,
    group: &Name,
    catalog: &Catalog,
    pattern: &[u8],
    node: &Node,
) -> Result<Option<LsRow>, NoMemory>
    ensures { IfOk result (λ row. row ≡ node_row catalog.now.tables group.now pattern.now
        node.now) }
{
    if is_match(pattern, node.name.as_bytes()) {
        listed(alloc, group, catalog, node)
    } else {
        Ok(None)
    }
}

fn listed(
    alloc: Global,
    group: &Name,
    catalog: &Catalog,
    node: &Node,
) -> Result<Option<LsRow>, NoMemory>
    ensures { IfOk result (λ row. row ≡ option_map listed_row
        (listing_of_node catalog.now.tables group.now node.now)) }
{
    if let NodeKind::Directory = node.kind {
        return Ok(Some(directory_row(alloc, &node.name)?));
    }
    let Some(head) = catalog.file(node.file) else {
        return Ok(None);
    };
    match node.kind {
        NodeKind::Alias => {
            let target = path_to(alloc, group, catalog, head.system)?;
            Ok(Some(alias_row(alloc, head, &node.name, target)?))
        }
        _ => Ok(Some(system_row(alloc, head, &node.name)?)),
    }
}

/// The row of a directory, and at `+` of a group.
pub fn directory_row(alloc: Global, name: &Name) -> Result<LsRow, NoMemory>
    ensures { IfOk result (λ row. row ≡ listed_row (Directory name.now)) }
{
    Ok(LsRow {
        kind: List::from_slice(alloc, b"DIR")?,
        redund: List::from_slice(alloc, b"-")?,
        striped: List::from_slice(alloc, b"-")?,
        sys: List::from_slice(alloc, b"N")?,
        name: List::from_slice(alloc, name.as_bytes())?,
        dir: true,
        target: None,
    })
}

fn system_row(alloc: Global, head: &FileHead, name: &Name) -> Result<LsRow, NoMemory>
    ensures { IfOk result (λ row. row ≡ listed_row
        (ListedSystemName head.now.type_name head.now.copies head.now.stripe name.now)) }
{
    Ok(LsRow {
        kind: List::from_slice(alloc, head.kind.as_bytes())?,
        redund: List::from_slice(alloc, copies_text(head.copies))?,
        striped: List::from_slice(alloc, stripe_text(head.stripe))?,
        sys: List::from_slice(alloc, b"Y")?,
        name: List::from_slice(alloc, name.as_bytes())?,
        dir: false,
        target: None,
    })
}

fn alias_row(alloc: Global, head: &FileHead, name: &Name, target: Text) -> Result<LsRow, NoMemory>
    ensures { IfOk result (λ row. row ≡ listed_row
        (AliasName head.now.type_name head.now.copies head.now.stripe name.now target)) }
{
    Ok(LsRow {
        kind: List::from_slice(alloc, head.kind.as_bytes())?,
        redund: List::from_slice(alloc, copies_text(head.copies))?,
        striped: List::from_slice(alloc, stripe_text(head.stripe))?,
        sys: List::from_slice(alloc, b"N")?,
        name: List::from_slice(alloc, name.as_bytes())?,
        dir: false,
        target: Some(target),
    })
}

/// The path of a node as text, in a group of this name. No bytes where there is no such node.
pub fn path_to(alloc: Global, group: &Name, catalog: &Catalog, node: u32) -> Result<Text, NoMemory>
    ensures { IfOk result (λ text. text ≡ path_to catalog.now.tables group.now node) }
{
    match path_at(alloc, group, catalog, node)? {
        Some(path) => path_text(alloc, &path.group, path.parts.as_slice()),
        None => Ok(List::new(alloc)),
    }
}
