//! An extent of a group's files.

ghost use Rattle.std.specs.Prelude.{◌≡◌, ◌≤◌, IfSome, length};
ghost use Rattle.catalog_laws.specs.catalog_tables.Tables.{AreTables};
ghost use Rattle.group_reports.specs.Extents.{extent_there};

use asm_base::{ExtentId, Homes};
use catalog_laws::{Catalog, has_home};
use extent_copies::Extent;

/// The extent of a file with so many copies that has these homes, where it is there.
pub fn extent_there(
    catalog: &Catalog,
    file: u32,
    copies: u8,
    index: u64,
    homes: &Homes,
) -> Option<Extent>
    ensures there { result ≡ extent_there catalog.now file copies index homes.now }
    ensures copies { IfSome result (λ x. x.copies ≡ copies) }
{
    if !has_home(homes) || index > u32::MAX as u64 {
        return None;
    }
    let id = ExtentId {
        file,
        index: index as u32,
    };
    Some(Extent {
        id,
        homes: *homes,
        marks: catalog.marks(id),
        copies,
        units: catalog.units_of(id.index),
    })
}

/// No group has more chunks of extents than its directories have blocks.
#[tactic(auto, using(crate::proofs::Counting::few_chunks))]
pub(crate) fn most_chunks(catalog: &Catalog) -> u32
    ensures chunks { length catalog.now.tables.extents ≤ result }
    ensures tables { AreTables catalog.now.tables }
{
    let group = catalog.shape();
    group.dir_blocks
}
