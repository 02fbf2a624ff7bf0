//! The tables of a group, read from its records.

ghost use Rattle.std.specs.Prelude.{◌≡◌, ◌<◌, ◌+◌, ◌^◌, List as Items, map, IfErr, IfNone, IfOk, IfSome, None, Some};
ghost use Rattle.std.specs.Option.{is_some};
ghost use Rattle.std.specs.List.Sorted.{IsStrictlySortedBy};
ghost use Rattle.asm_group.specs.Shape.{Shape};
ghost use Rattle.asm_formats.specs.Status.{Entry};
ghost use Rattle.asm_base.specs.Records.{key_cmp, keys_of, of_kinds, record_at};
ghost use Rattle.alias_tree.specs.Nodes as nodes;
ghost use Rattle.alias_tree.specs.Faults.{IsWithoutFault};
ghost use Rattle.extent_map.specs.Extents as extent_table;
ghost use Rattle.extent_map.specs.Faults.{IsWithoutGap};
ghost use Rattle.template_directory.specs.Tables as template_table;
ghost use Rattle.catalog_tables.specs.Tables.{AreTables, HasRecords, first_unreadable, is_record};
ghost use Rattle.catalog_tables.specs.Faults.{IsAtFault, IsGap, IsLoose, NamesFault, key_of_chunk, node_key, settings_key, templates_key};
ghost use Rattle.catalog_tables.specs.Readable.{AreReadable, HasNeeded};

use crate::error::CatalogError;
use crate::parts::Parts;
use alias_tree::AliasTree;
use asm_base::{Key, NoMemory, Records, SETTINGS_KEY, TEMPLATES_KEY, Value, record_kind};
use directory_page::is_value;
use disk_directory::DiskTable;
use extent_map::ExtentMap;
use file_directory::FileTable;
use operations_directory::OperationTable;
use staleness_directory::StaleTable;
use std::alloc::Global;
use template_directory::TemplateTable;

impl Parts {
    /// The tables whose records these are. It takes time in proportion to the records, times the
    /// logarithm of their number.
    #[tactic(auto, using(crate::proofs::ReadingLaws::unreadable_at, crate::proofs::ReadingLaws::absent_at, crate::proofs::ReadingLaws::gap_at, crate::proofs::ReadingLaws::loose_at, crate::proofs::ReadableLaws::readable_is))]
    pub fn from_records(alloc: Global, content: &Records) -> Result<Parts, CatalogError>
        ensures records { IfOk result (HasRecords content.now) }
        ensures tables { IfOk result AreTables }
        ensures fault { IfErr result (λ e. (s : Shape) (es : Items Entry)
            → NamesFault (IsAtFault content.now s es) e) }
    {
        if let Some(key) = unreadable(content) {
            return Err(CatalogError::Damaged { key });
        }
        if let Some(key) = absent(content) {
            return Err(CatalogError::Damaged { key });
        }
        let extents = read_extents(alloc, content)?;
        let tree = read_tree(alloc, content)?;
        read_others(alloc, content, extents, tree)
    }
}

/// The tables of which no record can be at fault once each record is of the formats and those of
/// templates and settings are there.
#[tactic(auto, using(crate::proofs::ReadableLaws::files_read, crate::proofs::ReadableLaws::templates_read, crate::proofs::ReadableLaws::operations_read, crate::proofs::ReadableLaws::disks_read))]
fn read_others(
    alloc: Global,
    content: &Records,
    extents: ExtentMap,
    tree: AliasTree,
) -> Result<Parts, CatalogError>
    requires readable { AreReadable content.now }
    requires needed { HasNeeded content.now }
    requires extents { extent_table.IsExtentTable extents }
    requires chunks { of_kinds extent_table.is_chunk content.now
        ≡ map extent_table.record_of_chunk extents }
    requires nodes { of_kinds nodes.is_key_of_node content.now ≡ map nodes.record_of_node tree }
    ensures records { IfOk result (HasRecords content.now) }
    ensures tables { IfOk result AreTables }
    ensures err { IfErr result (λ e. e ≡ WithoutMemory) }
{
    let Some(files) = FileTable::from_records(alloc, content)? else {
        unreachable!()
    };
    let Some(templates) = TemplateTable::from_records(alloc, content)? else {
        unreachable!()
    };
    let Some(stale) = StaleTable::from_records(alloc, content)? else {
        unreachable!()
    };
    let Some(operations) = OperationTable::from_records(content)? else {
        unreachable!()
    };
    let Some(disks) = DiskTable::from_records(alloc, content)? else {
        unreachable!()
    };
    tree.keeps_rule();
    Ok(Parts {
        files,
        extents,
        tree,
        templates,
        stale,
        operations,
        disks,
    })
}

ghost use Rattle.catalog_tables.specs.declared.error.CatalogError.TheVariants.{NoMemory as WithoutMemory};

/// The key of the first record that isn't of the formats.
fn unreadable(content: &Records) -> Option<Key>
    ensures first { result ≡ first_unreadable content.now }
    ensures ordered { IsStrictlySortedBy key_cmp (keys_of content.now) }
{
    for (key, value) in content.iter() {
        if !is_record(*key, value) {
            return Some(*key);
        }
    }
    None
}

fn is_record(key: Key, value: &Value) -> bool
    ensures { result ≡ is_record (key, value.now) }
{
    is_value(key.kind, key.a, key.b, value.as_bytes())
}

/// The key of the templates or of the settings, where their record isn't there.
#[tactic(auto, using(crate::proofs::ReadableLaws::needed_is))]
fn absent(content: &Records) -> Option<Key>
    ensures absent { IfSome result (λ k. (record_at content.now k ≡ None) × IsNeeded k) }
    ensures none { IfNone result (HasNeeded content.now) }
{
    if content.get(TEMPLATES_KEY).is_none() {
        return Some(TEMPLATES_KEY);
    }
    if content.get(SETTINGS_KEY).is_none() {
        return Some(SETTINGS_KEY);
    }
    None
}

ghost use Rattle.catalog_tables.specs.Faults.{IsNeeded};

#[tactic(auto, using(crate::proofs::ReadableLaws::extents_read))]
fn read_extents(alloc: Global, content: &Records) -> Result<ExtentMap, CatalogError>
    requires { AreReadable content.now }
    ensures table { IfOk result extent_table.IsExtentTable }
    ensures records { IfOk result (λ t. of_kinds extent_table.is_chunk content.now
        ≡ map extent_table.record_of_chunk t) }
    ensures fault { IfErr result (NamesFault (IsGap content.now)) }
{
    if let Some(extents) = ExtentMap::from_records(alloc, content)? {
        return Ok(extents);
    }
    match gap(alloc, content)? {
        Some(key) => Err(CatalogError::Damaged { key }),
        None => unreachable!(),
    }
}

#[tactic(auto, using(crate::proofs::ReadingLaws::gap_numbered))]
fn gap(alloc: Global, content: &Records) -> Result<Option<Key>, NoMemory>
    ensures gap { IfOk result (λ key. IfSome key (IsGap content.now)) }
    ensures none { IfOk result (λ key. IfNone key (IsWithoutGap content.now)) }
{
    match ExtentMap::gap_in(alloc, content)? {
        None => Ok(None),
        Some(at) => Ok(Some(chunk_key(at))),
    }
}

/// The key of a chunk's record.
pub(crate) fn chunk_key(at: (u32, u32)) -> Key
    requires { at.1 + 1 < 2 ^ 32 }
    ensures { result ≡ key_of_chunk at }
{
    Key {
        kind: record_kind::FILES,
        a: at.0,
        b: at.1 + 1,
    }
}

#[tactic(auto, using(crate::proofs::ReadableLaws::tree_read))]
fn read_tree(alloc: Global, content: &Records) -> Result<AliasTree, CatalogError>
    requires { AreReadable content.now }
    ensures records { IfOk result (λ t. of_kinds nodes.is_key_of_node content.now
        ≡ map nodes.record_of_node t) }
    ensures fault { IfErr result (NamesFault (IsLoose content.now)) }
{
    if let Some(tree) = AliasTree::from_records(alloc, content)? {
        return Ok(tree);
    }
    match AliasTree::fault_in(alloc, content)? {
        Some(number) => Err(CatalogError::Damaged {
            key: node_key(number),
        }),
        None => unreachable!(),
    }
}

/// The key of a node's record.
pub fn node_key(number: u32) -> Key
    ensures { result ≡ node_key number }
{
    Key {
        kind: record_kind::NODES,
        a: number,
        b: 0,
    }
}
