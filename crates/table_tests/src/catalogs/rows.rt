//! All rows. What isn't right fails by the name of its row.

use crate::catalogs::{disk_units, extent_rows, file_rows, name_rows, refused, told_rows};
use std::test::*;

#[test]
fn catalogs(rt: HostRuntime) -> Result<(), Fail> {
    told_rows::records_told(rt.alloc())?;
    name_rows::names_and_paths(rt.alloc())?;
    file_rows::files_and_disks(rt.alloc())?;
    extent_rows::extents(rt.alloc())?;
    disk_units::units_of_a_status_record(rt.alloc())?;
    refused::faults(rt.alloc())
}
