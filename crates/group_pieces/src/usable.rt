// Which copies of an extent are usable, and where a piece of it stands on them.
ghost use Rattle.std.specs.Prelude.{◌≡◌, ◌+◌, ◌*◌, ◌<◌, ◌≤◌, ◌^◌, None, Some, IsTrue, false, get_or, true};
ghost use Rattle.asm_group.specs.Shape.{is_shape};
ghost use Rattle.record_laws.specs.catalog_tables.Faults.{IsCatalog};
ghost use Rattle.record_laws.specs.catalog_tables.Rules.{are_on_disks};
ghost use Rattle.group_pieces.specs.Usable.{HasNoUsableCopy, at_home, extent_of, first_disk, on_disk, place_on_copy, places_at, places_in};

use crate::copies::Place;
use asm_base::{DiskSet, ExtentId, Home, Homes, MOST_DISKS};
use piece_laws::units_of;
use record_laws::{Extent, Mounted};

/// The extent as the tables have it, with the numbers of three copies.
pub(crate) fn extent_of(m: &Mounted, x: ExtentId) -> Extent
    ensures value { result ≡ extent_of m.now x }
    ensures few { result.units ≤ 16 }
    // Its homes lie on different disks.
    ensures apart { are_on_disks (extent_of m.now x).homes ≡ true }
    ensures rules { IsCatalog m.now.catalog }
{
    let catalog = m.catalog();
    let shape = catalog.shape();
    Extent {
        id: x,
        homes: homes_of(m, x),
        marks: catalog.marks(x),
        copies: 3,
        units: units_of(shape.step, x.index as u64),
    }
}

/// The homes of the extent's copies, none where it isn't there.
fn homes_of(m: &Mounted, x: ExtentId) -> Homes
    ensures { result ≡ (extent_of m.now x).homes }
{
    match m.catalog().homes(x) {
        Some(homes) => homes,
        None => Homes {
            first: None,
            second: None,
            third: None,
        },
    }
}

/// Where an inner byte of a copy at a home is, if its disk is attached and has the whole copy.
#[tactic(auto, using(crate::proofs::UsableCopies::short_end, crate::proofs::UsableCopies::short_byte))]
fn at_home(m: &Mounted, home: Home, units: u32, inner: u64) -> Option<Place>
    requires shape { IsTrue (is_shape m.now.catalog.shape) }
    requires short { inner < 2 ^ 32 }
    requires few { units ≤ 16 }
    requires number { home.disk < 64 }
    ensures { result ≡ at_home m.now (Some home) units inner }
{
    let slot = m.slot(home.disk)?;
    let size = m.size(home.disk)?;
    let au = m.catalog().shape().au as u64;
    let end = (home.unit as u64 + units as u64) * au;
    if end > size {
        return None;
    }
    Some(Place {
        disk: home.disk,
        slot,
        at: home.unit as u64 * au + inner,
    })
}

/// Where an inner byte of copy k is, if that is usable.
#[tactic(auto, using(crate::proofs::UsableCopies::no_copy, crate::proofs::UsableCopies::far_copy, crate::proofs::UsableCopies::unusable_copy, crate::proofs::UsableCopies::usable_copy))]
pub(crate) fn place(m: &Mounted, extent: &Extent, copy: u8, inner: u64) -> Option<Place>
    requires shape { IsTrue (is_shape m.now.catalog.shape) }
    requires short { inner < 2 ^ 32 }
    requires few { extent.now.units ≤ 16 }
    requires copy { copy < 3 }
    ensures { result ≡ place_on_copy m.now extent.now inner copy }
{
    let home = extent.home(copy)?;
    if home.disk >= MOST_DISKS {
        return None;
    }
    let alone = DiskSet::empty().with(home.disk);
    if extent.is_usable(m.status().entries(), alone, copy) {
        at_home(m, home, extent.units, inner)
    } else {
        None
    }
}

/// Where an inner byte of an extent is on its usable copies.
pub(crate) fn usable_copies(m: &Mounted, x: ExtentId, inner: u64) -> [Option<Place>; 3]
    requires shape { IsTrue (is_shape m.now.catalog.shape) }
    requires short { inner < 2 ^ 32 }
    ensures value { result ≡ places_at m.now x inner }
    ensures apart { are_on_disks (extent_of m.now x).homes ≡ true }
{
    let extent = extent_of(m, x);
    [
        place(m, &extent, 0, inner),
        place(m, &extent, 1, inner),
        place(m, &extent, 2, inner),
    ]
}

/// The disk of the first place that is there.
pub(crate) fn first_disk(places: &[Option<Place>]) -> Option<u8>
    ensures { result ≡ first_disk places.now }
{
    let [first, rest @ ..] = places else {
        return None;
    };
    match first {
        Some(place) => Some(place.disk),
        None => first_disk(rest),
    }
}

/// Whether no copy of the extent is usable.
pub fn is_lost(m: &Mounted, x: ExtentId) -> bool
    requires shape { IsTrue (is_shape m.now.catalog.shape) }
    ensures yes { result ≡ true → HasNoUsableCopy m.now x }
    ensures no { result ≡ false → HasNoUsableCopy m.now x → ⊥ }
{
    let places = usable_copies(m, x, 0);
    match first_disk(&places) {
        Some(_) => false,
        None => true,
    }
}
