//! The plan of a new file's name.

ghost use Rattle.std.specs.Prelude.{◌≡◌, ◌⊎◌, ◌<◌, ◌≤◌, ◌^◌, ◌+◌, ◌++◌, ◌∷◌, [], Err, IfErr, IfOk, IsTrue, List as Items, None, Ok, OnOk, Some, ℕ, is_some, length, map, true};
ghost use Rattle.std.specs.List.{All};
ghost use Rattle.asm_formats.specs.Items.{Node as FormatNode, file_item, is_item, node_item, settings_item};
ghost use Rattle.refusal_lines.specs.Refusals.{meaning_of};
ghost use Rattle.asm_base.specs.Tables.{item_record};
ghost use Rattle.asm_group.specs.Refusal.{NoMemory as OutOfMemory};
ghost use Rattle.plan_records.specs.alias_edits.Edits.{IsRefusal, are_parts};
ghost use Rattle.plan_records.specs.alias_edits.Filing.{IsFiling, tree_with_file, nodes_missing, with_nodes};
ghost use Rattle.plan_records.specs.alias_tree.Nodes.{IsNodeTable, Numbered, node_at, record_of_node as node_entry};
ghost use Rattle.plan_records.specs.alias_tree.Trees.{tree_of};
ghost use Rattle.plan_records.specs.file_directory.Files.{record_of_file as file_entry};
ghost use Rattle.plan_records.specs.NewNames.{HasParts, name_at, name_meant};
ghost use Rattle.plan_records.specs.NextSettings.{settings_next};
ghost use Rattle.catalog.specs.NamePlans.{AreNewNodes, IsFileBeingMade, IsNamePlan, IsNameRefusal, made_file, new_head, system_path};
ghost use Rattle.plan_records.specs.catalog_tables.Rules.{blocks_used};

use crate::catalog::Catalog;
use crate::new_file::NewFile;
use crate::plans::refusals::no_memory;
use asm_base::{Change, Key, List, Name, NoMemory, PENDING_KEY, Path, Stripe, Value};
use plan_records::{
    FileHead, NameParts, Node, TreeError, new_name, node_record, plan_file, record_of, refusal_of,
    settings_next, settings_record, system_path,
};
use refusal_lines::Refusal;
use std::alloc::Global;

impl Catalog {
    /// The change by which the file that is being made has its head and its system name, and the
    /// directories that are missing above it are there. It ends the pending operation. The next
    /// incarnation is one greater, and stays once it is the greatest. What `new.by` says is for the
    /// caller, who gives the copies and the stripe.
    ///
    /// NoTemplate: no file may have the path. NotDirectory: a directory of the path is there as a
    /// file. NameTaken: the system name is there. DirectoryFull: the head and the new nodes need
    /// more blocks than are free.
    #[tactic(auto, using(crate::proofs::NamePlans::no_path, crate::proofs::NamePlans::name_refused, crate::proofs::NamePlans::lacks_room, crate::proofs::NamePlans::no_memory, plan_records::proofs::NewNames::name_parts))]
    pub fn plan_name(
        &self,
        alloc: Global,
        new: &NewFile,
        copies: u8,
        stripe: Stripe,
    ) -> Result<Change, Refusal>
        requires created { IsFileBeingMade self.now new.now.size copies stripe }
        ensures planned { IfOk result (λ change. IsNamePlan self.now new.now.path.parts new.now.size
            copies stripe change.put change.gone) }
        ensures refused { IfErr result (IsNameRefusal self.now new.now.path.parts) }
    {
        let Some(name) = new_name(&new.path) else {
            return Err(Refusal::NoTemplate);
        };
        let made = match self.name_nodes(alloc, &new.path.group, name) {
            Ok(made) => made,
            Err(refusal) => return Err(refusal),
        };
        let need = made.as_slice().len() as u64 + 1;
        let free = self.free_blocks();
        if free < need {
            return Err(Refusal::DirectoryFull { need, free });
        }
        match self.set_name(alloc, new, name, copies, stripe, &made) {
            Ok(change) => Ok(change),
            Err(error) => Err(no_memory(error)),
        }
    }

    /// The nodes of the name of the file that is being made.
    #[tactic(auto, using(crate::proofs::NamePlans::want_of_memory, plan_records::proofs::NewNames::path_parts))]
    fn name_nodes(
        &self,
        alloc: Global,
        group: &Name,
        name: NameParts<'_>,
    ) -> Result<Vec<(u32, Node)>, Refusal>
        requires pending { IsTrue (is_some self.now.tables.operations.pending) }
        requires parts { HasParts (name_meant name) }
        ensures nodes { IfOk result (λ made. AreNewNodes self.now.tables.nodes made.items
            (system_path self.now.tables (name_meant name.entry)) (made_file self.now.tables)) }
        ensures refused { IfErr result (λ e. (meaning_of (λ n. []) e ≡ OutOfMemory)
            ⊎ (tree_with_file (tree_of self.now.tables.nodes)
            (system_path self.now.tables (name_meant name.entry)) (made_file self.now.tables)
            ≡ Err (meaning_of (λ n. []) e))) }
    {
        let file = self.made_file();
        let incarnation = self.settings().incarnation;
        let path = match system_path(alloc, group, name, file, incarnation) {
            Ok(path) => path,
            Err(error) => return Err(no_memory(error)),
        };
        match self.file_nodes(alloc, &path, file) {
            Ok(made) => Ok(made),
            Err(error) => Err(refusal_of(error)),
        }
    }

    /// The nodes of a file's name at a path.
    pub(crate) fn file_nodes(
        &self,
        alloc: Global,
        path: &Path,
        file: u32,
    ) -> Result<Vec<(u32, Node)>, TreeError>
        requires parts { IsTrue (are_parts path.now.parts) }
        requires three { length path.now.parts ≡ 3 }
        ensures done { IfOk result (λ made. tree_with_file (tree_of self.now.tables.nodes)
            path.now.parts file ≡ Ok (tree_of (with_nodes self.now.tables.nodes made.items))) }
        ensures nodes { IfOk result (λ made. IsFiling self.now.tables.nodes made.items
            path.now.parts file) }
        ensures table { IfOk result (λ made. IsNodeTable
            (with_nodes self.now.tables.nodes made.items)) }
        ensures fresh { IfOk result (λ made. All
            (λ (x : Numbered). node_at self.now.tables.nodes x.0 ≡ None) made.items) }
        ensures items { IfOk result (λ made. All
            (λ (x : Numbered). is_item (node_item x.0 x.1) ≡ true) made.items) }
        ensures count { IfOk result (λ made. length made.items
            ≡ nodes_missing (tree_of self.now.tables.nodes) path.now.parts) }
        ensures few { IfOk result (λ made. length made.items ≤ length path.now.parts) }
        ensures refused { IfErr result (IsRefusal
            (tree_with_file (tree_of self.now.tables.nodes) path.now.parts file)) }
    {
        plan_file(&self.parts.tree, alloc, path, file)
    }

    /// The change by which they are there, with the head.
    fn set_name(
        &self,
        alloc: Global,
        new: &NewFile,
        name: NameParts<'_>,
        copies: u8,
        stripe: Stripe,
        made: &[(u32, Node)],
    ) -> Result<Change, NoMemory>
        requires created { IsFileBeingMade self.now new.now.size copies stripe }
        requires name { name_at new.now.path.parts ≡ Some (name_meant name) }
        requires nodes { AreNewNodes self.now.tables.nodes made.now
            (system_path self.now.tables (name_meant name)) (made_file self.now.tables) }
        requires room { length made.now + 1 + (blocks_used self.now.tables + 2)
            ≤ self.now.shape.dir_blocks }
        ensures { IfOk result (λ change. IsNamePlan self.now new.now.path.parts new.now.size copies
            stripe change.put change.gone) }
    {
        self.keeps_rules();
        let head = self.new_head(name, new.size, copies, stripe, system_node(made))?;
        let put = self.name_records(alloc, self.made_file(), &head, made)?;
        let mut gone = List::new(alloc);
        gone.push(PENDING_KEY)?;
        Ok(Change { put, gone })
    }

    /// The file that is being made.
    fn made_file(&self) -> u32
        requires { IsTrue (is_some self.now.tables.operations.pending) }
        ensures { result ≡ made_file self.now.tables }
    {
        let Some(op) = self.pending() else {
            unreachable!()
        };
        op.file
    }

    /// The head of the file.
    fn new_head(
        &self,
        name: NameParts<'_>,
        size: u64,
        copies: u8,
        stripe: Stripe,
        system: u32,
    ) -> Result<FileHead, NoMemory>
        ensures head { IfOk result (λ head. head
            ≡ new_head self.now.tables (name_meant name.entry) size copies stripe system) }
        ensures small { size < 2 ^ 64 }
    {
        Ok(FileHead {
            copies,
            stripe,
            kind: name.kind.copy()?,
            size,
            incarnation: self.settings().incarnation,
            system,
            alias: 0,
        })
    }

    /// The records of the head, of the nodes, and of the settings with the next incarnation.
    fn name_records(
        &self,
        alloc: Global,
        file: u32,
        head: &FileHead,
        made: &[(u32, Node)],
    ) -> Result<List<(Key, Value)>, NoMemory>
        requires head { is_item (file_item file head.now) ≡ true }
        requires nodes { All (λ (x : Numbered). is_item (node_item x.0 x.1) ≡ true) made.now }
        ensures { IfOk result (λ put. put ≡ file_entry (file, head.now)
            ∷ (map node_entry made.now ++ item_record
            (settings_item (settings_next self.now.tables.templates.settings)) ∷ [])) }
    {
        self.keeps_rules();
        let next = settings_next(self.settings())?;
        let mut put = List::new(alloc);
        put.push(record_of(alloc, file, head)?)?;
        put_nodes(alloc, &mut put, made)?;
        put.push(settings_record(alloc, &next)?)?;
        Ok(put)
    }
}

/// The node of the name, which is the last.
fn system_node(made: &[(u32, Node)]) -> u32
    requires { 0 < length made.now }
    ensures { (dirs : Items Numbered) (number : ℕ) (node : FormatNode)
        → made.now ≡ dirs ++ (number, node) ∷ [] → result ≡ number }
{
    let Some(last) = made.last() else {
        unreachable!()
    };
    last.0
}

/// Puts the records of nodes behind others.
fn put_nodes(
    alloc: Global,
    put: &mut List<(Key, Value)>,
    made: &[(u32, Node)],
) -> Result<(), NoMemory>
    requires { All (λ (x : Numbered). is_item (node_item x.0 x.1) ≡ true) made.now }
    ensures { OnOk result (put.new ≡ put.old ++ map node_entry made.now) }
{
    for (number, node) in made {
        put.push(node_record(alloc, *number, node)?)?;
    }
    Ok(())
}
