//! The units of a file.

ghost use Rattle.std.specs.Prelude.{◌≡◌, ◌≤◌, ◌<◌, ◌+◌, ◌^◌, ℕ, List, length};
ghost use Rattle.asm_formats.specs.Items.{Item};
ghost use Rattle.asm_placement.specs.Placed.{placed_copies, placed_extents};
ghost use Rattle.catalog_laws.specs.catalog_tables.Items.{AreItemsOf};
ghost use Rattle.catalog_laws.specs.catalog_tables.Tables.{AreTables};
ghost use Rattle.group_reports.specs.Extents.{file_units, file_units_in, units_at, units_of_file};

use crate::extents::most_chunks;
use asm_base::{Home, Homes};
use catalog_laws::Catalog;
use extent_copies::units_of;

/// The units of all copies of a file. It goes over the file's chunks, and takes no memory.
#[tactic(auto, using(crate::proofs::Units::units_by_items))]
pub fn file_units(catalog: &Catalog, file: u32) -> u64
    ensures value { result ≡ file_units catalog.now file }
    // It is so by the records of the tables.
    ensures records { (items : List Item) → AreItemsOf catalog.now.tables items
        → result ≡ file_units_in catalog.now.shape.step items file }
    ensures few { result < 2 ^ 46 }
{
    file_units_by(catalog, file)
}

#[tactic(auto, using(crate::proofs::Units::at_start, crate::proofs::Units::one_more, crate::proofs::Units::stopped, crate::proofs::Units::ended))]
fn file_units_by(catalog: &Catalog, file: u32) -> u64
    ensures units { result ≡ file_units catalog.now file }
    ensures tables { AreTables catalog.now.tables }
    ensures few { result < 2 ^ 46 }
{
    // Its clauses show that there are few chunks, and that they are in order.
    let _most = most_chunks(catalog);
    let group = catalog.shape();
    let mut units = 0;
    for (at, chunk) in catalog.chunks_from((file, 0)) {
        if at.0 != file {
            return units;
        }
        units += units_in_row(group.step, file, at.1 as u64 * 256, chunk.as_slice());
    }
    units
}

/// The units of all homes of some extents of a file, that have the numbers from one on.
#[tactic(auto, using(crate::proofs::Units::row_more, crate::proofs::Units::row_end))]
fn units_in_row(step: u32, file: u32, first: u64, extents: &[Homes]) -> u64
    requires few { length extents.now ≤ 256 }
    requires numbers { first + 256 < 2 ^ 63 }
    ensures units { result ≡ units_of_file file (placed_extents step file first extents.now) }
    ensures few { result ≤ 12288 }
{
    let mut units = 0;
    let mut index = first;
    for homes in extents {
        units += units_there(units_of(step, index), homes);
        index += 1;
    }
    units
}

/// The units of all homes of an extent whose copies have so many.
#[tactic(auto, using(crate::proofs::Units::three_homes))]
fn units_there(len: u32, homes: &Homes) -> u64
    requires { len ≤ 16 }
    ensures units { (f i : ℕ) → result ≡ units_of_file f (placed_copies f i len homes.now) }
    ensures few { result ≤ 48 }
{
    let homes = *homes;
    units_at(len, homes.first) + units_at(len, homes.second) + units_at(len, homes.third)
}

fn units_at(len: u32, home: Option<Home>) -> u64
    requires { len ≤ 16 }
    ensures units { result ≡ units_at len home }
    ensures few { result ≤ 16 }
{
    match home {
        Some(_) => len as u64,
        None => 0,
    }
}
