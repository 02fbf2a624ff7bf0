// Bytes of units that no current copy has.
ghost use Rattle.std.specs.Prelude.{◌≡◌, ◌*◌, ◌+◌, ◌^◌, ◌<◌, Some, ℕ, IfSome, OnErr, OnOk, length};
ghost use Rattle.bay.specs.Image.{Puts, Range};
ghost use Rattle.bay.specs.Counts.{Rose};
ghost use Rattle.bay.specs.Moments.{Ends};
ghost use Rattle.record_laws.specs.group_engine.Mounts.{IsMounted, Takes};
ghost use Rattle.record_laws.specs.group_engine.Own.{KeepsGroup};
ghost use Rattle.group_pieces.specs.Bytes.{WritesBytes};
ghost use Rattle.group_pieces.specs.Spare.{IsRunAt, IsRunOf, OnDisk};
ghost use Rattle.group_pieces.specs.Written.{HomeBytes, IsPlaceOfHome};

use crate::copies::{Place, write_synced};
use asm_base::{Home, MOST_DISKS};
use bay::{Bay, Fault};
use disk_sizes::region_bytes;
use record_laws::Mounted;

/// Writes and syncs bytes of units of an attached disk, from an inner byte of them on. The inner
/// byte and the length are multiples of 512 bytes.
pub fn write_spare<B: Bay>(
    m: &Mounted,
    bay: &mut B,
    home: Home,
    inner: u64,
    bytes: &[u8],
) -> Result<(), Fault>
    requires mounted { IsMounted m.now }
    requires takes { Takes m.now (B.state bay.old) }
    requires run { (units : ℕ) × IsRunOf m.now home units inner (length bytes.now) }
    ensures keeps { KeepsGroup m.now m.now (B.state bay.old) (B.state bay.new) }
    ensures writes { OnDisk m.now home.disk (λ slot. WritesBytes m.now
        (Range slot (home.unit * m.now.catalog.shape.au + inner) (length bytes.now))
        (B.state bay.old) (B.state bay.new)) }
    ensures done { OnOk result (OnDisk m.now home.disk
        (λ slot. Ends (Puts slot (home.unit * m.now.catalog.shape.au + inner) bytes.now)
        (B.state bay.old) (B.state bay.new))) }
    ensures cause { OnErr result (OnDisk m.now home.disk
        (λ slot. Rose ((B.state bay.old).faults slot) ((B.state bay.new).faults slot))) }
{
    let Some(slot) = m.slot(home.disk) else {
        return Err(Fault);
    };
    let at = byte_of(m, home, inner);
    write_synced(bay, slot, at, bytes)
}

/// Where an inner byte of a home is on its disk.
fn byte_of(m: &Mounted, home: Home, inner: u64) -> u64
    requires { inner < 2 ^ 32 }
    ensures { result ≡ home.unit * m.now.catalog.shape.au + inner }
{
    home.unit as u64 * m.catalog().shape().au as u64 + inner
}

/// Writes and syncs bytes at a home that a move goes to. Fault where the disk has no such bytes
/// behind its directory region, too.
pub(crate) fn write_moved<B: Bay>(
    m: &Mounted,
    bay: &mut B,
    home: Home,
    inner: u64,
    bytes: &[u8],
) -> Result<(), Fault>
    requires mounted { IsMounted m.now }
    requires takes { Takes m.now (B.state bay.old) }
    requires short { inner < 2 ^ 32 }
    ensures keeps { KeepsGroup m.now m.now (B.state bay.old) (B.state bay.new) }
    ensures writes { WritesBytes m.now (HomeBytes m.now home inner (length bytes.now))
        (B.state bay.old) (B.state bay.new) }
{
    let Some(place) = run_at(m, home, inner, bytes.len() as u64) else {
        return Err(Fault);
    };
    write_synced(bay, place.slot, place.at, bytes)
}

/// Where so many bytes from an inner byte of a home on are, if its disk is attached and has them
/// behind its directory region.
fn run_at(m: &Mounted, home: Home, inner: u64, len: u64) -> Option<Place>
    requires { inner < 2 ^ 32 }
    ensures run { IfSome result (IsRunAt m.now len) }
    ensures at { IfSome result (IsPlaceOfHome m.now home inner) }
{
    if home.disk >= MOST_DISKS {
        return None;
    }
    let slot = m.slot(home.disk)?;
    let size = m.size(home.disk)?;
    let shape = m.catalog().shape();
    let at = home.unit as u64 * shape.au as u64 + inner;
    if at < region_bytes(shape.dir_blocks) || at % 512 != 0 || len % 512 != 0 {
        return None;
    }
    if at > size || len > size - at {
        return None;
    }
    Some(Place {
        disk: home.disk,
        slot,
        at,
    })
}
