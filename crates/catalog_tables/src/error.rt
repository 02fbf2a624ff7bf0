//! Why a catalog can't be made.

use asm_base::{Key, NoMemory};

/// Why the records of a group's directories are no catalog.
#[derive(Clone, Copy, Debug, PartialEq, Eq)]
pub enum CatalogError {
    /// The record of this key isn't of the formats, breaks a rule, or must be there and isn't.
    Damaged { key: Key },
    NoMemory,
}

impl From<NoMemory> for CatalogError {
    ghost use Rattle.std.specs.Prelude.{◌≡◌};
    ghost use Rattle.catalog_tables.specs.declared.error.CatalogError.TheVariants.{NoMemory as WithoutMemory};

    ghost from_gives = { λ _ e. e ≡ WithoutMemory };

    fn from(_: NoMemory) -> CatalogError {
        CatalogError::NoMemory
    }
}
