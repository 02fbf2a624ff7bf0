//! The units of a group's homes after a change, in work that goes by the change.

ghost use Rattle.std.specs.Prelude.{◌≡◌, ◌<◌, ◌+◌, ◌-◌, ◌^◌, length, List as Items, Some, true, false, get_or, take, ◌≤◌};
ghost use Rattle.std.specs.Bool.{OnFalse, OnTrue};
ghost use Rattle.catalog_tables.specs.asm_base.Records.{is_key};
ghost use Rattle.catalog_tables.specs.page_map.Changes.{is_gone};
ghost use Rattle.catalog_tables.specs.allocator.UnitMaps.{UnitMap};
ghost use Rattle.catalog_tables.specs.extent_map.Extents.{chunk_at};
ghost use Rattle.catalog_tables.specs.asm_base.Chunks.{Chunk};
ghost use Rattle.catalog_tables.specs.extent_map.Changing.{AreChunks};
ghost use Rattle.catalog_tables.specs.Changing.{IsAfter};
ghost use Rattle.catalog_tables.specs.Tables.{AreTables};
ghost use Rattle.catalog_units.specs.Giving.{AreUnitsOfKept, IsNewKey, IsOld, changed_keys, is_chunk_kept};
ghost use Rattle.catalog_tables.specs.Placing.{after_chunks};

use crate::giving::{give_at, mark_at};
use catalog_tables::{Change, ExtentMap, Key, Parts, Shape, Units, Value, record_kind};

/// The key at a place of a change, where the records that are put stand before the keys that go.
fn key_at(put: &[(Key, Value)], gone: &[Key], place: usize) -> Key
    requires { place < length put.now + length gone.now }
    ensures { result ≡ get_or (changed_keys put.now gone.now) place result }
{
    if place < put.len() {
        put[place].0
    } else {
        gone[place - put.len()]
    }
}

/// Whether two keys are the same.
fn is_same(x: Key, y: Key) -> bool
    ensures { result ≡ is_key x y }
{
    x == y
}

/// Whether a key of a change stands before this place too.
#[tactic(auto, using(crate::proofs::ChangeUnits::earlier_is, crate::proofs::ChangeUnits::not_yet, crate::proofs::ChangeUnits::length_keys))]
fn is_earlier(put: &[(Key, Value)], gone: &[Key], place: usize, key: Key) -> bool
    requires { place ≤ length put.now + length gone.now }
    ensures { result ≡ is_gone (take place (changed_keys put.now gone.now)) key }
{
    for earlier in 0..place {
        if is_same(key_at(put, gone, earlier), key) {
            return true;
        }
    }
    false
}

/// Whether the key at a place of a change is that of a chunk, and stands at no earlier place.
fn is_new(put: &[(Key, Value)], gone: &[Key], place: usize, key: Key) -> bool
    requires { place ≤ length put.now + length gone.now }
    ensures new { OnTrue result (IsNewKey (changed_keys put.now gone.now) place key) }
    ensures old { OnFalse result (IsOld (changed_keys put.now gone.now) place key) }
{
    key.kind == record_kind::FILES && key.b > 0 && !is_earlier(put, gone, place, key)
}

/// Gives the units of the chunk back whose key stands at a place of a change, unless an earlier
/// place has it too.
#[tactic(auto, using(crate::proofs::ChangeUnits::given_new, crate::proofs::ChangeUnits::given_old, crate::proofs::ChangeUnits::length_keys))]
fn give_one(
    units: &mut [Units],
    step: u32,
    extents: &ExtentMap,
    put: &[(Key, Value)],
    gone: &[Key],
    place: usize,
)
    requires table { AreChunks extents.now }
    requires place { place < length put.now + length gone.now }
    requires units { (first : Items UnitMap) × AreUnitsOfKept step first
        (is_chunk_kept (take place (changed_keys put.now gone.now))) extents.now units.old }
    ensures { (first : Items UnitMap) → AreUnitsOfKept step first
        (is_chunk_kept (take place (changed_keys put.now gone.now))) extents.now units.old
        → AreUnitsOfKept step first (is_chunk_kept
        (take (place + 1) (changed_keys put.now gone.now))) extents.now units.new }
{
    let key = key_at(put, gone, place);
    if is_new(put, gone, place, key) {
        give_at(units, step, extents, key.a, key.b - 1);
    }
}

/// Makes the units of the chunk used whose key stands at a place of a change, unless an earlier
/// place has it too.
#[tactic(auto, using(crate::proofs::ChangeUnits::marked_new, crate::proofs::ChangeUnits::marked_old, crate::proofs::ChangeUnits::length_keys))]
fn mark_one(
    units: &mut [Units],
    step: u32,
    extents: &ExtentMap,
    put: &[(Key, Value)],
    gone: &[Key],
    place: usize,
)
    requires table { AreChunks extents.now }
    requires place { place < length put.now + length gone.now }
    ensures { (first after : Items UnitMap)
        → AreUnitsOfKept step first (is_chunk_kept
        (take (place + 1) (changed_keys put.now gone.now))) extents.now units.old
        → AreUnitsOfKept step first (is_chunk_kept (take place (changed_keys put.now gone.now)))
        extents.now after → after ≡ units.new }
{
    let key = key_at(put, gone, place);
    if is_new(put, gone, place, key) {
        mark_at(units, step, extents, key.a, key.b - 1);
    }
}

/// Gives the units of all chunks back whose keys a change has.
#[tactic(auto, using(crate::proofs::ChangeUnits::units_all))]
fn give_all(units: &mut [Units], step: u32, extents: &ExtentMap, put: &[(Key, Value)], gone: &[Key])
    requires table { AreChunks extents.now }
    requires units { (first : Items UnitMap) × after_chunks step first extents.now
        ≡ Some units.old }
    ensures { (first : Items UnitMap) → after_chunks step first extents.now ≡ Some units.old
        → AreUnitsOfKept step first (is_chunk_kept (changed_keys put.now gone.now)) extents.now
        units.new }
{
    let count = put.len() + gone.len();
    for place in 0..count {
        give_one(units, step, extents, put, gone, place);
    }
}

/// Makes the units of all chunks used whose keys a change has.
fn mark_all(units: &mut [Units], step: u32, extents: &ExtentMap, put: &[(Key, Value)], gone: &[Key])
    requires table { AreChunks extents.now }
    ensures { (first after : Items UnitMap)
        → AreUnitsOfKept step first (is_chunk_kept (changed_keys put.now gone.now)) extents.now
        units.old → after_chunks step first extents.now ≡ Some after → after ≡ units.new }
{
    let count = put.len() + gone.len();
    for done in 0..count {
        mark_one(units, step, extents, put, gone, count - 1 - done);
    }
}

/// The units after a change of the extents, from those before it. Work goes by the chunks that the
/// change puts or takes away, and no memory is taken.
fn change_units(
    units: &mut [Units],
    step: u32,
    old: &ExtentMap,
    new: &ExtentMap,
    put: &[(Key, Value)],
    gone: &[Key],
)
    requires old { AreChunks old.now }
    requires new { AreChunks new.now }
    requires units { (first : Items UnitMap) × after_chunks step first old.now ≡ Some units.old }
    // The other chunks are the same.
    requires others { (c : Chunk) → is_chunk_kept (changed_keys put.now gone.now) c ≡ true
        → chunk_at old.now c ≡ chunk_at new.now c }
    // From whichever units of no homes: those of the old extents become those of the new ones.
    ensures { (first after : Items UnitMap) → after_chunks step first old.now ≡ Some units.old
        → after_chunks step first new.now ≡ Some after → after ≡ units.new }
{
    give_all(units, step, old, put, gone);
    mark_all(units, step, new, put, gone);
}

/// Brings the units of some tables to those after a change, in work that goes by the chunks of the
/// change.
#[tactic(auto, using(crate::proofs::ChangeUnits::chunks_stay))]
pub fn follow(units: &mut Vec<Units>, shape: &Shape, old: &Parts, new: &Parts, change: &Change)
    requires tables { AreTables old.now }
    requires after { IsAfter old.now change.now.put change.now.gone new.now }
    requires units { (first : Items UnitMap) × after_chunks shape.now.step first old.now.extents
        ≡ Some units.old.items }
    ensures { (first after : Items UnitMap)
        → after_chunks shape.now.step first old.now.extents ≡ Some units.old.items
        → after_chunks shape.now.step first new.now.extents ≡ Some after → after ≡ units.new.items }
{
    let put = change.put.as_slice();
    let gone = change.gone.as_slice();
    change_units(units, shape.step, &old.extents, &new.extents, put, gone);
}
