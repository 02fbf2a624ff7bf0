// A piece of an extent is written to its usable copies.
ghost use Rattle.std.specs.Prelude.{◌≡◌, length};
ghost use Rattle.record_laws.specs.group_engine.Mounts.{IsMounted, Takes};
ghost use Rattle.group_pieces.specs.Usable.{FitsExtent};
ghost use Rattle.group_pieces.specs.WriteCalls.{WritesUsableCopies};
ghost use Rattle.group_pieces.specs.Writes.{ArePlacesNumbered, have_failed};

use crate::copies::{Place, write_copies};
use crate::usable::{first_disk, usable_copies};
use asm_base::{DiskSet, ExtentId};
use bay::Bay;
use record_laws::Mounted;

/// What a write of a piece answers where no copy took it.
#[derive(Clone, Copy, Debug, PartialEq, Eq)]
pub enum WriteError {
    /// No copy of the extent is usable.
    Lost,
    /// All usable copies failed, that on this disk first.
    Fault { disk: u8 },
}

/// Writes and syncs bytes of an extent, from an inner byte on, at its usable copies, past faults.
/// Gives the set of the disks that failed, where at least one copy took the bytes. The inner byte
/// and the length are multiples of 512 bytes.
pub fn write_usable<B: Bay>(
    m: &Mounted,
    bay: &mut B,
    x: ExtentId,
    inner: u64,
    bytes: &[u8],
) -> Result<DiskSet, WriteError>
    requires mounted { IsMounted m.now }
    requires takes { Takes m.now (B.state bay.old) }
    requires piece { FitsExtent m.now.catalog.shape x.index inner (length bytes.now) }
    ensures { WritesUsableCopies B.state m.now x inner bytes.now result bay.old bay.new }
{
    let places = usable_copies(m, x, inner);
    let Some(disk) = first_disk(&places) else {
        return Err(WriteError::Lost);
    };
    let failed = write_copies(bay, &places, bytes);
    if have_failed(&places, failed) {
        Err(WriteError::Fault { disk })
    } else {
        Ok(failed)
    }
}

/// Whether the disk of each place that is there is in the set.
fn have_failed(places: &[Option<Place>], failed: DiskSet) -> bool
    requires { ArePlacesNumbered places.now }
    ensures { result ≡ have_failed failed places.now }
{
    let [first, rest @ ..] = places else {
        return true;
    };
    match first {
        Some(place) => failed.has(place.disk) && have_failed(rest, failed),
        None => have_failed(rest, failed),
    }
}
