//! The tables of a group.

use alias_tree::AliasTree;
use disk_directory::DiskTable;
use extent_map::ExtentMap;
use file_directory::FileTable;
use operations_directory::OperationTable;
use staleness_directory::StaleTable;
use std::marker::Model;
use template_directory::TemplateTable;

/// All tables of a group. Contracts see the record of their values.
#[derive(Drop)]
pub struct Parts {
    pub files: FileTable,
    pub extents: ExtentMap,
    pub tree: AliasTree,
    pub templates: TemplateTable,
    pub stale: StaleTable,
    pub operations: OperationTable,
    pub disks: DiskTable,
}

impl Model for Parts {
    ghost use Rattle.catalog_tables.specs.Tables.{Tables};

    ghost Value = { Tables };

    ghost view = { λ p. record { files = p.files; extents = p.extents; nodes = p.tree; templates = p.templates; stale = p.stale; operations = p.operations; disks = p.disks } };
}
