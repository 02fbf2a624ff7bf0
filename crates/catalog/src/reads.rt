//! What a catalog tells.

ghost use Rattle.std.specs.Prelude.{◌≡◌, ◌≤◌, ◌+◌, ◌/◌, ℕ, IfNone, IfSome, false};
ghost use Rattle.std.specs.Option.{option_copied};
ghost use Rattle.asm_placement.specs.Layout.{units_of};
ghost use Rattle.plan_records.specs.alias_tree.Nodes.{node_at, number_of};
ghost use Rattle.plan_records.specs.extent_map.Extents.{extent_at};
ghost use Rattle.plan_records.specs.file_directory.Files.{IsLeastFrom, head_at, is_file_number};
ghost use Rattle.plan_records.specs.disk_directory.Disks.{info_at};
ghost use Rattle.plan_records.specs.catalog_tables.Faults.{IsCatalog};
ghost use Rattle.plan_records.specs.catalog_tables.Rules.{blocks_used, marks_of};

use crate::catalog::Catalog;
use asm_base::{ExtentId, Homes, Path, Shape};
use plan_records::{DiskInfo, FileHead, Node, Pending, Settings, Template, Units};

impl Catalog {
    /// The group's shape. Its clause also shows that the rules hold.
    pub fn shape(&self) -> Shape
        ensures shape { result ≡ self.now.shape }
        ensures rules { IsCatalog self.now }
    {
        self.shape
    }

    /// The node at a path, whatever its group's name; the root is 0. It takes as many steps as the
    /// path has parts, each in the logarithm of the number of names.
    pub fn find(&self, path: &Path) -> Option<u32>
        ensures { result ≡ number_of self.now.tables.nodes path.now.parts }
    {
        self.parts.tree.find(path)
    }

    /// A node by its number.
    pub fn node(&self, node: u32) -> Option<&Node>
        ensures { option_copied result ≡ node_at self.now.tables.nodes node }
    {
        self.parts.tree.get(node)
    }

    /// The head of a file.
    pub fn file(&self, file: u32) -> Option<&FileHead>
        ensures { option_copied result ≡ head_at self.now.tables.files file }
    {
        self.parts.files.get(file)
    }

    /// The least file number that isn't below `least`.
    pub fn file_from(&self, least: u32) -> Option<u32>
        ensures found { IfSome result (IsLeastFrom self.now.tables.files least) }
        ensures none { IfNone result ((k : ℕ) → least ≤ k
            → is_file_number self.now.tables.files k ≡ false) }
    {
        self.parts.files.least_from(least)
    }

    /// The homes of an extent, or None where it isn't there.
    pub fn homes(&self, x: ExtentId) -> Option<Homes>
        ensures { result ≡ extent_at self.now.tables.extents x.file x.index }
    {
        self.parts.extents.get(x).copied()
    }

    /// The stale copies of an extent: bit k for copy k, and 0 where its chunk isn't there.
    pub fn marks(&self, x: ExtentId) -> u8
        ensures { result ≡ marks_of self.now.tables x.file x.index }
    {
        match self.parts.stale.get((x.file, x.index / 256)) {
            None => 0,
            Some(marks) => marks.bits[(x.index % 256) as usize],
        }
    }

    /// The units of an extent by its index.
    pub fn units_of(&self, index: u32) -> u32
        ensures { result ≡ units_of self.now.shape.step index }
    {
        plan_records::units_of(self.shape.step, index as u64)
    }

    /// The units of all disk numbers, those of disk k at place k. Its clause also shows that the
    /// rules hold.
    pub fn units(&self) -> &[Units]
        ensures units { result.now ≡ self.now.units }
        ensures rules { IsCatalog self.now }
    {
        &self.units
    }

    /// What the record of a disk says.
    pub fn disk(&self, number: u8) -> Option<&DiskInfo>
        ensures { option_copied result ≡ info_at self.now.tables.disks number }
    {
        self.parts.disks.get(number as u32)
    }

    /// The templates, by folded name.
    pub fn templates(&self) -> &[Template]
        ensures { result.now ≡ self.now.tables.templates.templates }
    {
        self.parts.templates.list()
    }

    pub fn settings(&self) -> &Settings
        ensures { result.now ≡ self.now.tables.templates.settings }
    {
        self.parts.templates.settings()
    }

    /// The operation that has begun and not ended.
    pub fn pending(&self) -> Option<Pending>
        ensures { result ≡ self.now.tables.operations.pending }
    {
        self.parts.operations.pending()
    }

    /// The power of the active rebalance.
    pub fn rebalance(&self) -> Option<u16>
        ensures { result ≡ self.now.tables.operations.rebalance }
    {
        self.parts.operations.rebalance()
    }

    /// Blocks that new records may take: all but those that are used and the two that are kept.
    #[tactic(auto, using(crate::proofs::StoreLaws::has_room))]
    pub fn free_blocks(&self) -> u64
        ensures { result + blocks_used self.now.tables + 2 ≡ self.now.shape.dir_blocks }
    {
        let used = self.parts.blocks_used().saturating_add(2);
        (self.shape.dir_blocks as u64).saturating_sub(used)
    }
}
