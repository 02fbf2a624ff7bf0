// Whether a move that is on its way can still be made.
ghost use Rattle.std.specs.Bool.{OnTrue};
ghost use Rattle.std.specs.Prelude.{◌<◌, IsTrue};
ghost use Rattle.asm_group.specs.Shape.{is_shape};
ghost use Rattle.resync.specs.catalog.ExtentPlans.{MayMark};

use asm_base::{ExtentId, Home};
use resync::{Catalog, Flight, Mounted, extent_bytes, is_lost};

/// The home of a copy of an extent.
pub(crate) fn home_of(catalog: &Catalog, x: ExtentId, copy: u8) -> Option<Home> {
    let homes = catalog.homes(x)?;
    match copy {
        0 => homes.first,
        1 => homes.second,
        2 => homes.third,
        _ => None,
    }
}

/// Whether a copy of an extent is stale.
fn is_stale(catalog: &Catalog, x: ExtentId, copy: u8) -> bool
    ensures { OnTrue result (copy < 3) }
{
    copy < 3 && catalog.marks(x) >> copy & 1 == 1
}

/// Whether a move writes a stale copy anew in place.
pub(crate) fn is_in_place(catalog: &Catalog, x: ExtentId, copy: u8, to: Home) -> bool
    ensures copy { OnTrue result (copy < 3) }
    ensures marks { OnTrue result (MayMark catalog.now.tables x.file x.index 0) }
{
    let Some(_homes) = catalog.homes(x) else {
        return false;
    };
    if !is_stale(catalog, x, copy) {
        return false;
    }
    home_of(catalog, x, copy) == Some(to)
}

/// Whether a move can go on: bytes are left to copy, they can be read, and its home is that of the
/// stale copy, or free units to which the copy may move.
pub(crate) fn can_go_on(m: &Mounted, flight: Flight) -> bool
    requires shape { IsTrue (is_shape m.now.catalog.shape) }
{
    let Flight {
        x,
        copy,
        to,
        copied,
    } = flight;
    let catalog = m.catalog();
    copied < extent_bytes(catalog.shape(), x.index)
        && !is_lost(m, x)
        && (is_in_place(catalog, x, copy, to) || catalog.may_move(x, copy, to))
}
