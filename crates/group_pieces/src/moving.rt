// The new copy of a move that is on its way takes what is written, as far as it was copied.
ghost use Rattle.std.specs.Prelude.{◌≡◌, ◌≤◌, ◌<◌, ◌^◌, length};
ghost use Rattle.record_laws.specs.group_engine.Mounts.{IsMounted, Takes};
ghost use Rattle.record_laws.specs.group_engine.Own.{KeepsGroup};
ghost use Rattle.group_pieces.specs.Bytes.{WritesBytes};
ghost use Rattle.group_pieces.specs.Written.{FlightBytes, MovedBytes};

use crate::spare::write_moved;
use asm_base::{DiskSet, ExtentId};
use bay::{Bay, Fault};
use record_laws::{Flight, Mounted};

/// Writes to the new copy of the move that is on its way, where it moves the extent. The move is
/// given up where that fails, or where a disk has failed, since its mode is about to change.
pub(crate) fn follow_move<B: Bay>(
    m: &mut Mounted,
    bay: &mut B,
    x: ExtentId,
    inner: u64,
    bytes: &[u8],
    failed: DiskSet,
)
    requires mounted { IsMounted m.old }
    requires takes { Takes m.old (B.state bay.old) }
    requires short { inner < 2 ^ 32 }
    ensures keeps { KeepsGroup m.old m.new (B.state bay.old) (B.state bay.new) }
    ensures writes { WritesBytes m.old (MovedBytes m.old x inner (length bytes.now))
        (B.state bay.old) (B.state bay.new) }
    // Nothing else of the group changes.
    ensures same { m.new ≡ record m.old { flight = m.new.flight } }
{
    let Some(flight) = m.in_flight() else {
        return;
    };
    if failed.bits() != 0 {
        m.set_flight(None);
        return;
    }
    match write_copied(m, bay, flight, x, inner, bytes) {
        Ok(()) => {}
        Err(Fault) => m.set_flight(None),
    }
}

/// Writes to the new copy of a move what it has copied of these bytes of an extent.
fn write_copied<B: Bay>(
    m: &Mounted,
    bay: &mut B,
    flight: Flight,
    x: ExtentId,
    inner: u64,
    bytes: &[u8],
) -> Result<(), Fault>
    requires mounted { IsMounted m.now }
    requires takes { Takes m.now (B.state bay.old) }
    requires short { inner < 2 ^ 32 }
    ensures keeps { KeepsGroup m.now m.now (B.state bay.old) (B.state bay.new) }
    ensures writes { WritesBytes m.now (FlightBytes m.now flight x inner (length bytes.now))
        (B.state bay.old) (B.state bay.new) }
{
    let Flight {
        x: moved,
        copied,
        to,
        ..
    } = flight;
    if moved != x {
        return Ok(());
    }
    let count = copied_from(copied, inner, bytes.len());
    write_moved(m, bay, to, inner, &bytes[..count])
}

/// How many of so many bytes from an inner byte on lie below the bytes that were copied.
fn copied_from(copied: u64, inner: u64, len: usize) -> usize
    ensures { result ≤ len }
{
    copied.saturating_sub(inner).min(len as u64) as usize
}
