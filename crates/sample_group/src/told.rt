//! The catalog of a group's records, and what it tells of operations.

use crate::group::{disks, read};
use asm_base::Records;
use catalog_laws::Catalog;
use std::alloc::Global;
use std::test::Fail;

/// The catalog of records that are sound, for two disks.
pub fn catalog(alloc: Global, records: &Records) -> Result<Catalog, Fail> {
    match read(alloc, records, &disks(2))? {
        Ok(catalog) => Ok(catalog),
        Err(_) => Err(Fail::from("the records are refused")),
    }
}

/// The file of the pending operation, and the power of the rebalance.
pub fn operations_of(catalog: &Catalog) -> (Option<u32>, Option<u16>) {
    let file = match catalog.pending() {
        Some(pending) => Some(pending.file),
        None => None,
    };
    (file, catalog.rebalance())
}

/// The same of the catalog of some records.
pub fn operations_told(
    alloc: Global,
    records: &Records,
) -> Result<(Option<u32>, Option<u16>), Fail> {
    let catalog = catalog(alloc, records)?;
    Ok(operations_of(&catalog))
}
