// A piece of an extent is read.
ghost use Rattle.std.specs.Prelude.{ℕ, IfErr, OnOk, length};
ghost use Rattle.std.specs.Option.{ForSome};
ghost use Rattle.asm_group.specs.Group.{Group};
ghost use Rattle.asm_images.specs.Kept.{Kept};
ghost use Rattle.piece_laws.specs.Targets.{AgreesIn};
ghost use Rattle.record_laws.specs.group_engine.Mounts.{IsMounted, Mounts, Takes};
ghost use Rattle.record_laws.specs.group_engine.Own.{KeepsGroup};
ghost use Rattle.group_pieces.specs.Reads.{IsReadCause, ReadsGroup};
ghost use Rattle.group_pieces.specs.Usable.{AreNone, FitsExtent, piece_of, places_at};

use crate::copies::read_copies;
use crate::usable::{first_disk, usable_copies};
use asm_base::ExtentId;
use bay::{Bay, Fault};
use record_laws::Mounted;

/// What a read of a piece answers where it fails.
#[derive(Clone, Copy, Debug, PartialEq, Eq)]
pub enum ReadError {
    /// No copy of the extent is usable.
    Lost,
    /// All usable copies failed, that on this disk first.
    Fault { disk: u8 },
}

/// Fills the buffer with the bytes of an extent from an inner byte on, from the first usable copy
/// that reads. The inner byte and the length are multiples of 512 bytes.
pub fn read_piece<B: Bay>(
    m: &Mounted,
    bay: &mut B,
    x: ExtentId,
    inner: u64,
    buf: &mut [u8],
) -> Result<(), ReadError>
    requires mounted { IsMounted m.now }
    requires takes { Takes m.now (B.state bay.old) }
    requires piece { FitsExtent m.now.catalog.shape x.index inner (length buf.old) }
    ensures keeps { KeepsGroup m.now m.now (B.state bay.old) (B.state bay.new) }
    ensures reads { ReadsGroup m.now (B.state bay.old) (B.state bay.new) }
    ensures cause { IfErr result (IsReadCause m.now x inner (B.state bay.old) (B.state bay.new)) }
    ensures some { OnOk result (AreNone (places_at m.now x inner) → ⊥) }
    ensures mounted { (n : ℕ) (g : Group) (kept : Kept) → Mounts n m.now (B.state bay.old) g kept
        → Mounts n m.now (B.state bay.new) g kept }
    // The bytes agree with each known cell, where the bay tells what the disks hold.
    ensures agrees { OnOk result ((n : ℕ) (g : Group) (kept : Kept) → Mounts n m.now (B.state bay.old) g kept
        → ForSome (B.state bay.new).holds (λ image. AgreesIn g (piece_of x inner (length buf.old)) buf.new)) }
{
    let places = usable_copies(m, x, inner);
    let Some(disk) = first_disk(&places) else {
        return Err(ReadError::Lost);
    };
    match read_copies(bay, &places, buf) {
        Ok(()) => Ok(()),
        Err(Fault) => Err(ReadError::Fault { disk }),
    }
}
