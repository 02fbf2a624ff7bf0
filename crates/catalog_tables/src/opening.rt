//! The tables of a group in the midst of a change.

ghost use Rattle.std.specs.Prelude.{◌≡◌, ◌<◌, ◌+◌, ◌^◌, ◌==◌, ◌||◌, false, true, if◌then◌else◌, None, OnOk, Some};
ghost use Rattle.asm_formats.specs.Items.{Key as FormatKey, files_kind, settings_kind, templates_kind, disks_kind, marks_kind, nodes_kind, operations_kind};
ghost use Rattle.asm_base.specs.Records.{is_key};
ghost use Rattle.page_map.specs.Changes.{is_gone, is_put, last_put, value_after};
ghost use Rattle.alias_tree.specs.Nodes.{KeepsRule};
ghost use Rattle.catalog_tables.specs.Changing.{AreItemTables, ArePartsOpen, Sets, is_place, tables_of};
ghost use Rattle.catalog_tables.specs.Tables.{AreTables, records_of};

use crate::parts::Parts;
use alias_tree::{AliasTree, OpenTree};
use asm_base::{Key, NoMemory, Value};
use disk_directory::{DiskTable, is_mine};
use extent_map::ExtentMap;
use file_directory::FileTable;
use operations_directory::OperationTable;
use staleness_directory::StaleTable;
use std::alloc::Global;
use template_directory::TemplateTable;

/// All tables of a group while a change of records is under way. The rules of extents and of nodes
/// needn't hold.
#[derive(Drop)]
pub(crate) struct OpenParts {
    files: FileTable,
    extents: ExtentMap,
    tree: OpenTree,
    templates: TemplateTable,
    stale: StaleTable,
    operations: OperationTable,
    disks: DiskTable,
}

impl OpenParts {
    /// The tables for a change.
    pub(crate) fn of(parts: Parts) -> OpenParts
        requires { AreTables parts }
        ensures tables { tables_of result ≡ parts }
        ensures open { ArePartsOpen result }
    {
        OpenParts {
            files: parts.files,
            extents: parts.extents,
            tree: parts.tree.open(),
            templates: parts.templates,
            stale: parts.stale,
            operations: parts.operations,
            disks: parts.disks,
        }
    }

    /// The tables after a change.
    pub(crate) fn close(self) -> Parts
        requires { KeepsRule self.tree }
        ensures { result ≡ tables_of self }
    {
        Parts {
            files: self.files,
            extents: self.extents,
            tree: AliasTree::close(self.tree),
            templates: self.templates,
            stale: self.stale,
            operations: self.operations,
            disks: self.disks,
        }
    }

    /// Shows that each entry is of the formats, and does nothing.
    pub(crate) fn are_items(&self)
        requires { ArePartsOpen self.now }
        ensures { AreItemTables (tables_of self.now) }
    {
        let _ = self.files.get(0);
        let _ = self.disks.get(0);
        let _ = self.stale.get((0, 0));
        let _ = self.templates.list();
        let _ = self.templates.settings();
        self.tree.are_nodes();
    }

    /// Takes up a change: the records that are put, of two with one key the later, and then the
    /// keys that go. NoMemory is also the answer where a record isn't of the formats, where two
    /// nodes then have one place, or where the templates or the settings go.
    pub(crate) fn take_up(
        &mut self,
        alloc: Global,
        put: &[(Key, Value)],
        gone: &[Key],
    ) -> Result<(), NoMemory>
        requires { ArePartsOpen self.old }
        ensures after { OnOk result ((k : FormatKey)
            → records_of (tables_of self.new) k
            ≡ value_after put.now gone.now k (records_of (tables_of self.old) k)) }
        ensures open { OnOk result (ArePartsOpen self.new) }
    {
        self.forget_nodes(put);
        self.put_all(alloc, put)?;
        self.remove_all(gone)
    }

    /// Takes the nodes away whose records are put: they may change places with one another.
    fn forget_nodes(&mut self, put: &[(Key, Value)])
        requires { ArePartsOpen self.old }
        ensures others { (k : FormatKey) → is_put put.now k ≡ false
            → records_of (tables_of self.new) k ≡ records_of (tables_of self.old) k }
        ensures open { ArePartsOpen self.new }
    {
        for (key, _) in put {
            self.forget_node(*key);
        }
    }

    fn forget_node(&mut self, key: Key)
        requires { ArePartsOpen self.old }
        ensures others { (k : FormatKey) → is_key key k ≡ false
            → records_of (tables_of self.new) k ≡ records_of (tables_of self.old) k }
        ensures open { ArePartsOpen self.new }
    {
        if key.kind != 6 || !is_place(key) {
            return;
        }
        self.remove_node(key);
    }

    fn put_all(&mut self, alloc: Global, put: &[(Key, Value)]) -> Result<(), NoMemory>
        requires { ArePartsOpen self.old }
        ensures put { OnOk result ((k : FormatKey)
            → records_of (tables_of self.new) k
            ≡ last_put put.now k (records_of (tables_of self.old) k)) }
        ensures open { OnOk result (ArePartsOpen self.new) }
    {
        for (key, value) in put {
            self.put_record(alloc, *key, value)?;
        }
        Ok(())
    }

    fn remove_all(&mut self, gone: &[Key]) -> Result<(), NoMemory>
        requires { ArePartsOpen self.old }
        ensures gone { OnOk result ((k : FormatKey)
            → records_of (tables_of self.new) k
            ≡ (if is_gone gone.now k then None else records_of (tables_of self.old) k)) }
        ensures open { OnOk result (ArePartsOpen self.new) }
    {
        for key in gone {
            self.remove_record(*key)?;
        }
        Ok(())
    }

    /// Takes up a record. NoMemory is also the answer where the record isn't of the formats, or is
    /// that of a node at a place where another is.
    pub(crate) fn put_record(
        &mut self,
        alloc: Global,
        key: Key,
        value: &Value,
    ) -> Result<(), NoMemory>
        requires { ArePartsOpen self.old }
        ensures put { OnOk result (Sets (tables_of self.old) (tables_of self.new) key
            (Some value.now)) }
        ensures open { OnOk result (ArePartsOpen self.new) }
    {
        match key.kind {
            1 => self.put_file(alloc, key, value),
            2 => self.put_disk(alloc, key, value),
            4 => self.put_operation(key, value),
            5 => self.put_templates(alloc, key, value),
            6 => self.put_node(alloc, key, value),
            9 => self.put_templates(alloc, key, value),
            12 => self.put_marks(alloc, key, value),
            _ => Err(NoMemory),
        }
    }

    /// Takes the record of a key away, where it is there. NoMemory is the answer for the templates
    /// and the settings, which must be there.
    #[tactic(auto, using(crate::proofs::SetLaws::nothing_set))]
    pub(crate) fn remove_record(&mut self, key: Key) -> Result<(), NoMemory>
        requires { ArePartsOpen self.old }
        ensures gone { OnOk result (Sets (tables_of self.old) (tables_of self.new) key None) }
        ensures open { OnOk result (ArePartsOpen self.new) }
    {
        if !is_place(key) {
            return Ok(());
        }
        match key.kind {
            1 => self.remove_file(key),
            2 => self.remove_disk(key),
            4 => self.remove_operation(key),
            6 => self.remove_node(key),
            12 => self.remove_marks(key),
            _ => return Err(NoMemory),
        }
        Ok(())
    }

    fn remove_file(&mut self, key: Key)
        requires kind { key.kind ≡ files_kind }
        requires open { ArePartsOpen self.old }
        ensures gone { Sets (tables_of self.old) (tables_of self.new) key None }
        ensures open { ArePartsOpen self.new }
    {
        if key.b == 0 {
            self.remove_head(key);
        } else {
            self.remove_chunk(key.a, key.b - 1);
        }
    }

    fn remove_head(&mut self, key: Key)
        requires kind { key.kind ≡ files_kind }
        requires head { key.b ≡ 0 }
        requires open { ArePartsOpen self.old }
        ensures gone { Sets (tables_of self.old) (tables_of self.new) key None }
        ensures open { ArePartsOpen self.new }
    {
        self.files.remove_record(key.a);
    }

    fn remove_chunk(&mut self, file: u32, chunk: u32)
        requires open { ArePartsOpen self.old }
        ensures gone { Sets (tables_of self.old) (tables_of self.new)
            (record { kind = files_kind; a = file; b = chunk + 1 }) None }
        ensures open { ArePartsOpen self.new }
    {
        self.extents.remove_record(file, chunk);
    }

    fn remove_disk(&mut self, key: Key)
        requires kind { key.kind ≡ disks_kind }
        requires place { is_place key ≡ true }
        requires open { ArePartsOpen self.old }
        ensures gone { Sets (tables_of self.old) (tables_of self.new) key None }
        ensures open { ArePartsOpen self.new }
    {
        self.disks.remove_record(key.a);
    }

    fn remove_operation(&mut self, key: Key)
        requires kind { key.kind ≡ operations_kind }
        requires open { ArePartsOpen self.old }
        ensures gone { Sets (tables_of self.old) (tables_of self.new) key None }
        ensures open { ArePartsOpen self.new }
    {
        self.operations.remove_record(key);
    }

    fn remove_node(&mut self, key: Key)
        requires kind { key.kind ≡ nodes_kind }
        requires place { is_place key ≡ true }
        requires open { ArePartsOpen self.old }
        ensures gone { Sets (tables_of self.old) (tables_of self.new) key None }
        ensures open { ArePartsOpen self.new }
    {
        self.tree.remove_record(key.a);
    }

    fn remove_marks(&mut self, key: Key)
        requires kind { key.kind ≡ marks_kind }
        requires open { ArePartsOpen self.old }
        ensures gone { Sets (tables_of self.old) (tables_of self.new) key None }
        ensures open { ArePartsOpen self.new }
    {
        self.stale.remove_record((key.a, key.b));
    }

    fn put_file(&mut self, alloc: Global, key: Key, value: &Value) -> Result<(), NoMemory>
        requires kind { key.kind ≡ files_kind }
        requires open { ArePartsOpen self.old }
        ensures put { OnOk result (Sets (tables_of self.old) (tables_of self.new) key
            (Some value.now)) }
        ensures open { OnOk result (ArePartsOpen self.new) }
    {
        if key.b == 0 {
            return self.put_head(alloc, key, value);
        }
        self.put_chunk(alloc, key.a, key.b - 1, value)
    }

    fn put_head(&mut self, alloc: Global, key: Key, value: &Value) -> Result<(), NoMemory>
        requires kind { key.kind ≡ files_kind }
        requires head { key.b ≡ 0 }
        requires open { ArePartsOpen self.old }
        ensures put { OnOk result (Sets (tables_of self.old) (tables_of self.new) key
            (Some value.now)) }
        ensures open { OnOk result (ArePartsOpen self.new) }
    {
        taken(self.files.put_record(alloc, key, value)?)
    }

    fn put_chunk(
        &mut self,
        alloc: Global,
        file: u32,
        chunk: u32,
        value: &Value,
    ) -> Result<(), NoMemory>
        requires number { chunk + 1 < 2 ^ 32 }
        requires open { ArePartsOpen self.old }
        ensures put { OnOk result (Sets (tables_of self.old) (tables_of self.new)
            (record { kind = files_kind; a = file; b = chunk + 1 }) (Some value.now)) }
        ensures open { OnOk result (ArePartsOpen self.new) }
    {
        taken(self.extents.put_record(alloc, file, chunk, value)?)
    }

    fn put_disk(&mut self, alloc: Global, key: Key, value: &Value) -> Result<(), NoMemory>
        requires open { ArePartsOpen self.old }
        ensures put { OnOk result (Sets (tables_of self.old) (tables_of self.new) key
            (Some value.now)) }
        ensures open { OnOk result (ArePartsOpen self.new) }
    {
        if !is_mine(key) {
            return Err(NoMemory);
        }
        taken(self.disks.put_record(alloc, key, value)?)
    }

    fn put_operation(&mut self, key: Key, value: &Value) -> Result<(), NoMemory>
        requires kind { key.kind ≡ operations_kind }
        requires open { ArePartsOpen self.old }
        ensures put { OnOk result (Sets (tables_of self.old) (tables_of self.new) key
            (Some value.now)) }
        ensures open { OnOk result (ArePartsOpen self.new) }
    {
        taken(self.operations.put_record(key, value))
    }

    fn put_templates(&mut self, alloc: Global, key: Key, value: &Value) -> Result<(), NoMemory>
        requires kind { (key.kind == templates_kind || key.kind == settings_kind) ≡ true }
        requires open { ArePartsOpen self.old }
        ensures put { OnOk result (Sets (tables_of self.old) (tables_of self.new) key
            (Some value.now)) }
        ensures open { OnOk result (ArePartsOpen self.new) }
    {
        taken(self.templates.put_record(alloc, key, value)?)
    }

    /// A node whose number has one takes its place.
    fn put_node(&mut self, alloc: Global, key: Key, value: &Value) -> Result<(), NoMemory>
        requires kind { key.kind ≡ nodes_kind }
        requires open { ArePartsOpen self.old }
        ensures put { OnOk result (Sets (tables_of self.old) (tables_of self.new) key
            (Some value.now)) }
        ensures open { OnOk result (ArePartsOpen self.new) }
    {
        if key.b != 0 {
            return Err(NoMemory);
        }
        self.tree.remove_record(key.a);
        taken(self.tree.put_record(alloc, key, value)?)
    }

    fn put_marks(&mut self, alloc: Global, key: Key, value: &Value) -> Result<(), NoMemory>
        requires kind { key.kind ≡ marks_kind }
        requires open { ArePartsOpen self.old }
        ensures put { OnOk result (Sets (tables_of self.old) (tables_of self.new) key
            (Some value.now)) }
        ensures open { OnOk result (ArePartsOpen self.new) }
    {
        taken(self.stale.put_record(alloc, key, value)?)
    }
}

/// Whether tables may say something at a key.
fn is_place(key: Key) -> bool
    ensures { result ≡ is_place key }
{
    match key.kind {
        1 | 4 | 12 => true,
        2 | 6 => key.b == 0,
        5 | 9 => key.a == 0 && key.b == 0,
        _ => false,
    }
}

fn taken(taken: bool) -> Result<(), NoMemory>
    ensures { OnOk result (taken ≡ true) }
{
    if taken { Ok(()) } else { Err(NoMemory) }
}
