// Homes of new extents in the unit maps.
ghost use Rattle.std.specs.Prelude.{◌≡◌, ◌<◌, ◌+◌, ◌^◌, if◌then◌else◌, length, IfOk, None, Some};
ghost use Rattle.asm_placement.specs.Placed.{placed_extents};
ghost use Rattle.catalog_tables.specs.Placing.{after_homes};

use asm_base::{Homes, NoMemory};
use catalog_tables::{Units, place_extent, units_of};
use std::alloc::Global;

/// The unit maps, once more.
pub(crate) fn copy_units(alloc: Global, units: &[Units]) -> Result<Vec<Units>, NoMemory>
    ensures { IfOk result (λ copy. copy.items ≡ units.now) }
{
    let mut copy = Vec::new(alloc);
    for map in units {
        copy.push(map.copy()?).map_err(|_| NoMemory)?;
    }
    Ok(copy)
}

/// Makes the units of the homes of extents used, the first of which has this index. `false` where
/// one has a home whose units aren't free.
#[tactic(auto, using(catalog_tables::proofs::PlacingLaws::next_extent, catalog_tables::proofs::PlacingLaws::extent_refused, catalog_tables::proofs::PlacingLaws::no_extents))]
pub(crate) fn place_row(
    units: &mut [Units],
    step: u32,
    file: u32,
    first: u64,
    row: &[Homes],
) -> bool
    requires { first + length row.now < 2 ^ 63 }
    ensures { after_homes units.old (placed_extents step file first row.now)
        ≡ (if result then Some units.new else None) }
{
    let mut index = first;
    for homes in row {
        if !place_extent(units, file, index, units_of(step, index), homes) {
            return false;
        }
        index += 1;
    }
    true
}
