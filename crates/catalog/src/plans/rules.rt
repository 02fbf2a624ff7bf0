//! The rules and the shape of a catalog, for its plans.

ghost use Rattle.std.specs.Prelude.{IsTrue};
ghost use Rattle.asm_group.specs.Shape.{is_shape};
ghost use Rattle.plan_records.specs.catalog_tables.Faults.{IsCatalog};

use crate::catalog::Catalog;

impl Catalog {
    /// Shows that the rules hold, and does nothing.
    pub(crate) fn keeps_rules(&self)
        ensures { IsCatalog self.now }
    {
        let _parts = &self.parts;
    }

    /// Shows that the shape is one that a creation may give, and does nothing.
    pub(crate) fn has_shape(&self)
        ensures { IsTrue (is_shape self.now.shape) }
    {
        let _parts = &self.parts;
    }
}
