//! Changes of a group's tables.

ghost use Rattle.std.specs.Prelude.{◌≡◌, List as Items, IfOk};
ghost use Rattle.asm_formats.specs.Items.{Key};
ghost use Rattle.asm_base.specs.Records.{DirectoryRecord};
ghost use Rattle.catalog_tables.specs.Changing.{IsAfter};
ghost use Rattle.catalog_tables.specs.Tables.{AreTables, Tables};

use crate::opening::OpenParts;
use crate::parts::Parts;
use asm_base::{Change, NoMemory};
use std::alloc::Global;

impl Parts {
    /// The tables after a change, in work that goes by the change. Where there is no memory the
    /// tables are gone.
    pub fn changed(self, alloc: Global, change: &Change) -> Result<Parts, NoMemory>
        requires tables { AreTables self }
        requires after { (u : Tables) × IsAfter self change.now.put change.now.gone u }
        ensures { IfOk result (IsAfter self change.now.put change.now.gone) }
    {
        let mut parts = OpenParts::of(self);
        parts.take_up(alloc, change.put.as_slice(), change.gone.as_slice())?;
        parts.are_items();
        Ok(parts.close())
    }

    /// Equal tables.
    pub fn copy(&self, alloc: Global) -> Result<Parts, NoMemory>
        requires { AreTables self.now }
        ensures { IfOk result (λ copy. copy ≡ self.now) }
    {
        Ok(Parts {
            files: self.files.copy(alloc)?,
            extents: self.extents.copy(alloc)?,
            tree: self.tree.copy(alloc)?,
            templates: self.templates.copy(alloc)?,
            stale: self.stale.copy(alloc)?,
            operations: self.operations,
            disks: self.disks.copy(alloc)?,
        })
    }
}

/// A change of some tables leaves one set of tables and no other.
pub fn a_change_leaves_one_set_of_tables()
    ensures { (t u v : Tables) (put : Items DirectoryRecord) (gone : Items Key)
        → IsAfter t put gone u → IsAfter t put gone v → u ≡ v }
{}
