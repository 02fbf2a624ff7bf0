//! The units of homes that go, given back.

ghost use Rattle.std.specs.Prelude.{◌≡◌, ◌<◌, ◌+◌, ◌*◌, ◌^◌, ◌∷◌, [], length, List as Items, Some, true, Bool};
ghost use Rattle.catalog_tables.specs.asm_placement.Placed.{placed_copies, placed_extents};
ghost use Rattle.catalog_tables.specs.allocator.UnitMaps.{UnitMap};
ghost use Rattle.catalog_tables.specs.asm_base.Chunks.{Chunk};
ghost use Rattle.catalog_tables.specs.extent_map.Changing.{AreChunks};
ghost use Rattle.catalog_units.specs.Giving.{AreUnitsOfKept, but};
ghost use Rattle.catalog_tables.specs.Placing.{after_homes, home_placed, home_taken};

use catalog_tables::{ExtentMap, Home, Homes, Units, place_chunk, units_of};

/// Gives the units of a chunk's homes back, where the chunk is there. Whichever chunks the units
/// are those of, they are those of the others then.
#[tactic(auto, using(crate::proofs::ChunkUnits::out_not, crate::proofs::ChunkUnits::out_there, crate::proofs::ChunkUnits::out_given))]
pub(crate) fn give_at(units: &mut [Units], step: u32, extents: &ExtentMap, file: u32, chunk: u32)
    requires table { AreChunks extents.now }
    requires kept { (keep : Chunk → Bool) × (keep (file, chunk) ≡ true)
        × ((first : Items UnitMap) × AreUnitsOfKept step first keep extents.now units.old) }
    ensures { (keep : Chunk → Bool) (first : Items UnitMap) → keep (file, chunk) ≡ true
        → AreUnitsOfKept step first keep extents.now units.old
        → AreUnitsOfKept step first (but keep (file, chunk)) extents.now units.new }
{
    if let Some(homes) = extents.chunk(file, chunk) {
        give_chunk(units, step, file, chunk as u64 * 256, homes);
    }
}

/// Makes the units of a chunk's homes used, where the chunk is there. Where the units are those of
/// the chunks that are meant but for this one, they are those of all that are meant then.
#[tactic(auto, using(crate::proofs::ChunkUnits::put_not, crate::proofs::ChunkUnits::put_is))]
pub(crate) fn mark_at(units: &mut [Units], step: u32, extents: &ExtentMap, file: u32, chunk: u32)
    requires table { AreChunks extents.now }
    ensures { (keep : Chunk → Bool) (first after : Items UnitMap) → keep (file, chunk) ≡ true
        → AreUnitsOfKept step first (but keep (file, chunk)) extents.now units.old
        → AreUnitsOfKept step first keep extents.now after → after ≡ units.new }
{
    if let Some(homes) = extents.chunk(file, chunk) {
        let _ = place_chunk(units, step, file, chunk as u64 * 256, homes);
    }
}

/// Gives the units of the homes of a chunk's extents back, the first of which has this index.
#[tactic(auto, using(crate::proofs::GivingLaws::extent_first))]
fn give_chunk(units: &mut [Units], step: u32, file: u32, first: u64, extents: &[Homes])
    requires few { first + length extents.now < 2 ^ 63 }
    requires taken { (before : Items UnitMap)
        × after_homes before (placed_extents step file first extents.now) ≡ Some units.old }
    ensures { (before : Items UnitMap) → after_homes before
        (placed_extents step file first extents.now) ≡ Some units.old → before ≡ units.new }
{
    let mut index = first;
    for homes in extents {
        give_extent(units, file, index, units_of(step, index), homes);
        index += 1;
    }
}

/// The same for the homes of an extent of so many units. The other homes may be those that are
/// given back later.
fn give_extent(units: &mut [Units], file: u32, index: u64, len: u32, homes: &Homes)
    requires some { 0 < len }
    requires taken { (before : Items UnitMap)
        × after_homes before (placed_copies file index len homes.now) ≡ Some units.old }
    ensures { (before : Items UnitMap) → after_homes before (placed_copies file index len homes.now)
        ≡ Some units.old → before ≡ units.new }
{
    let homes = *homes;
    give_three(
        units,
        file,
        index,
        len,
        homes.first,
        homes.second,
        homes.third,
    );
}

#[tactic(auto, using(crate::proofs::GivingLaws::first_taken, crate::proofs::GivingLaws::second_taken, crate::proofs::GivingLaws::third_taken, crate::proofs::GivingLaws::all_given))]
fn give_three(
    units: &mut [Units],
    file: u32,
    index: u64,
    len: u32,
    first: Option<Home>,
    second: Option<Home>,
    third: Option<Home>,
)
    requires some { 0 < len }
    requires taken { (before : Items UnitMap)
        × after_homes before (placed_copies file index len (first ∷ second ∷ third ∷ []))
        ≡ Some units.old }
    ensures { (before : Items UnitMap) → after_homes before
        (placed_copies file index len (first ∷ second ∷ third ∷ [])) ≡ Some units.old
        → before ≡ units.new }
{
    give_any(units, third, len);
    give_any(units, second, len);
    give_any(units, first, len);
}

/// The same for a home that may be absent.
fn give_any(units: &mut [Units], home: Option<Home>, len: u32)
    requires some { 0 < len }
    requires taken { (before : Items UnitMap) × home_placed before home len ≡ Some units.old }
    ensures { (before : Items UnitMap) → home_placed before home len ≡ Some units.old
        → before ≡ units.new }
{
    if let Some(home) = home {
        give(units, home, len);
    }
}

/// Gives the units of a home back.
#[tactic(auto, using(crate::proofs::UnitOrder::given_used, crate::proofs::UnitOrder::given_all))]
fn give(units: &mut [Units], home: Home, len: u32)
    requires some { 0 < len }
    requires taken { (before : Items UnitMap) × home_taken before home len ≡ Some units.old }
    ensures { (before : Items UnitMap) → home_taken before home len ≡ Some units.old
        → before ≡ units.new }
{
    let disk = home.disk as usize;
    units[disk].give(home.unit, len);
}
