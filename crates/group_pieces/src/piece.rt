// A piece of an extent is written to every copy, and what failed is recorded.
ghost use Rattle.std.specs.Prelude.{◌≡◌, ◌<◌, ◌^◌, IfErr, IfOk, OnErr, OnOk, length};
ghost use Rattle.bay.specs.Moments.{NowOnly};
ghost use Rattle.record_laws.specs.group_engine.Mounts.{IsMounted, Takes};
ghost use Rattle.record_laws.specs.group_engine.Own.{KeepsGroup};
ghost use Rattle.record_laws.specs.group_engine.Pending.{GoesOn};
ghost use Rattle.group_pieces.specs.Copies.{HaveBut};
ghost use Rattle.group_pieces.specs.Failing.{AreOffline, CostsFaults};
ghost use Rattle.group_pieces.specs.Faults.{AreRisen};
ghost use Rattle.group_pieces.specs.Held.{PieceHeld, RecordsHeld};
ghost use Rattle.group_pieces.specs.Marking.{AreMarked, MarksMore, left_of};
ghost use Rattle.group_pieces.specs.Pieces.{WritePieceCause, write_refusal};
ghost use Rattle.group_pieces.specs.Usable.{AreNone, FitsExtent, places_at};
ghost use Rattle.group_pieces.specs.Written.{WritesPiece, IsPlain};

use crate::failing::take_offline;
use crate::marking::mark_left;
use crate::moving::follow_move;
use crate::writing::{WriteError, write_usable};
use asm_base::{DiskSet, ExtentId};
use bay::Bay;
use record_laws::Mounted;
use refusal_lines::{DiskRef, Refusal};
use std::alloc::Global;

/// Writes and syncs bytes of an extent, from an inner byte on, at its usable copies. A copy that
/// didn't take them is marked stale, and a disk that failed is taken Offline since `now`, in
/// seconds. The new copy of a move that is on its way takes them too, as far as it was copied; the
/// move is given up where that fails or a mode changes. The inner byte and the length are multiples
/// of 512 bytes. Gives the set of the disks that failed. Refusals: Lost, where no copy is usable;
/// WriteFault, where all usable ones failed, with the disk of the first; Dismounted; NoMemory,
/// after which the group takes no calls where some copies took the bytes.
pub fn write_piece<B: Bay>(
    m: &mut Mounted,
    alloc: Global,
    bay: &mut B,
    x: ExtentId,
    inner: u64,
    bytes: &[u8],
    now: u64,
) -> Result<DiskSet, Refusal>
    requires takes { Takes m.old (B.state bay.old) }
    requires piece { FitsExtent m.old.catalog.shape x.index inner (length bytes.now) }
    // Each usable copy but those on disks that failed has the bytes, before anything is recorded.
    ensures written { IfOk result (λ failed. WritesPiece B.state m.old x inner bytes.now failed
        m.new bay.old bay.new) }
    // Where nothing has to be recorded each usable copy has them in the end.
    ensures done { IfOk result (λ failed. IsPlain m.old x inner (length bytes.now) failed
        → NowOnly (B.state bay.new) (HaveBut (places_at m.old x inner) failed bytes.now)) }
    // The group's parts agree, it takes the next call, and the disks of others stay.
    ensures keeps { KeepsGroup m.old m.new (B.state bay.old) (B.state bay.new) }
    ensures cause { IfErr result (WritePieceCause m.old x inner m.new (B.state bay.old)
        (B.state bay.new)) }
    ensures failed { IfOk result (λ failed. AreRisen m.old failed (B.state bay.old)
        (B.state bay.new)) }
    ensures some { OnOk result (AreNone (places_at m.old x inner) → ⊥) }
    // Each copy that is there and didn't take the bytes bears a mark, and the disks that failed are
    // Offline.
    ensures marked { IfOk result (λ failed. AreMarked m.old x inner failed m.new.catalog.tables) }
    ensures offline { IfOk result (λ failed. AreOffline failed now m.new.register.value) }
    ensures mounted { OnOk result (IsMounted m.new) }
    // A group that is mounted is held with the piece's cells Free all the while, and mounted with
    // the bytes once it is done.
    ensures held { PieceHeld m.old x inner bytes.now result m.new (B.state bay.old)
        (B.state bay.new) }
    // Where no copy is usable nothing was done.
    ensures lost { AreNone (places_at m.old x inner) → (m.new ≡ m.old) × (bay.new ≡ bay.old) }
{
    match m.takes_calls() {
        Ok(()) => write_mounted(m, alloc, bay, x, inner, bytes, now),
        Err(refusal) => Err(refusal),
    }
}

/// Writes a piece of an extent of a group that takes calls.
fn write_mounted<B: Bay>(
    m: &mut Mounted,
    alloc: Global,
    bay: &mut B,
    x: ExtentId,
    inner: u64,
    bytes: &[u8],
    now: u64,
) -> Result<DiskSet, Refusal>
    requires mounted { IsMounted m.old }
    requires takes { Takes m.old (B.state bay.old) }
    requires piece { FitsExtent m.old.catalog.shape x.index inner (length bytes.now) }
    ensures written { IfOk result (λ failed. WritesPiece B.state m.old x inner bytes.now failed
        m.new bay.old bay.new) }
    ensures done { IfOk result (λ failed. IsPlain m.old x inner (length bytes.now) failed
        → NowOnly (B.state bay.new) (HaveBut (places_at m.old x inner) failed bytes.now)) }
    ensures keeps { KeepsGroup m.old m.new (B.state bay.old) (B.state bay.new) }
    ensures cause { IfErr result (WritePieceCause m.old x inner m.new (B.state bay.old)
        (B.state bay.new)) }
    ensures failed { IfOk result (λ failed. AreRisen m.old failed (B.state bay.old)
        (B.state bay.new)) }
    ensures some { OnOk result (AreNone (places_at m.old x inner) → ⊥) }
    ensures marked { IfOk result (λ failed. AreMarked m.old x inner failed m.new.catalog.tables) }
    ensures offline { IfOk result (λ failed. AreOffline failed now m.new.register.value) }
    ensures mounted { OnOk result (IsMounted m.new) }
    // A group that is mounted is held with the piece's cells Free all the while, and mounted with
    // the bytes once it is done.
    ensures held { PieceHeld m.old x inner bytes.now result m.new (B.state bay.old)
        (B.state bay.new) }
    // Where no copy is usable nothing was done.
    ensures lost { AreNone (places_at m.old x inner) → (m.new ≡ m.old) × (bay.new ≡ bay.old) }
{
    match write_usable(m, bay, x, inner, bytes) {
        Ok(failed) => {
            follow_move(m, bay, x, inner, bytes, failed);
            match settle(m, alloc, bay, x, inner, failed, now) {
                Ok(()) => Ok(failed),
                Err(refusal) => Err(refusal),
            }
        }
        Err(error) => Err(refusal_of(x, error)),
    }
}

/// What a write answers where no copy took the bytes.
fn refusal_of(x: ExtentId, error: WriteError) -> Refusal
    ensures { result ≡ write_refusal x error }
{
    match error {
        WriteError::Lost => Refusal::Lost { extent: x },
        WriteError::Fault { disk } => Refusal::WriteFault {
            disk: DiskRef::Number(disk),
        },
    }
}

/// Records what failed. Where memory is wanted the group takes no more calls, as copies differ
/// then.
fn settle<B: Bay>(
    m: &mut Mounted,
    alloc: Global,
    bay: &mut B,
    x: ExtentId,
    inner: u64,
    failed: DiskSet,
    now: u64,
) -> Result<(), Refusal>
    requires mounted { IsMounted m.old }
    requires takes { Takes m.old (B.state bay.old) }
    requires short { inner < 2 ^ 32 }
    ensures goes { GoesOn m.old result m.new (B.state bay.old) (B.state bay.new) }
    ensures marked { OnOk result (AreMarked m.old x inner failed m.new.catalog.tables) }
    ensures offline { OnOk result (AreOffline failed now m.new.register.value) }
    ensures still { failed ≡ 0 → left_of m.old x inner failed ≡ 0 → bay.new ≡ bay.old }
    // Heads, names, homes and marks stay, but that copies are marked.
    ensures places { OnOk result (MarksMore m.old.catalog.tables m.new.catalog.tables) }
    // A group that is mounted with the piece Free is held so all the while, and mounted with the
    // bytes once it is done.
    ensures held { RecordsHeld m.old x inner failed result m.new (B.state bay.old)
        (B.state bay.new) }
    // Where the disks that failed serve, turns are taken by faults alone.
    ensures turns { OnOk result (CostsFaults m.old failed m.new) }
    // Where it is refused the group takes no more calls.
    ensures shut { OnErr result (IsMounted m.new → ⊥) }
{
    match record_faults(m, alloc, bay, x, inner, failed, now) {
        Ok(()) => Ok(()),
        Err(Refusal::Dismounted { disk }) => Err(Refusal::Dismounted { disk }),
        Err(_) => {
            m.close();
            Err(Refusal::NoMemory)
        }
    }
}

/// Marks the copies that didn't take the bytes, and takes the disks that failed Offline: marks come
/// first, so that no image shows a copy as current that lacks the bytes.
fn record_faults<B: Bay>(
    m: &mut Mounted,
    alloc: Global,
    bay: &mut B,
    x: ExtentId,
    inner: u64,
    failed: DiskSet,
    now: u64,
) -> Result<(), Refusal>
    requires mounted { IsMounted m.old }
    requires takes { Takes m.old (B.state bay.old) }
    requires short { inner < 2 ^ 32 }
    ensures goes { GoesOn m.old result m.new (B.state bay.old) (B.state bay.new) }
    ensures marked { OnOk result (AreMarked m.old x inner failed m.new.catalog.tables) }
    ensures offline { OnOk result (AreOffline failed now m.new.register.value) }
    ensures still { failed ≡ 0 → left_of m.old x inner failed ≡ 0 → bay.new ≡ bay.old }
    // Heads, names, homes and marks stay, but that copies are marked.
    ensures places { OnOk result (MarksMore m.old.catalog.tables m.new.catalog.tables) }
    // A group that is mounted with the piece Free is held so all the while, and mounted with the
    // bytes once it is done.
    ensures held { RecordsHeld m.old x inner failed result m.new (B.state bay.old)
        (B.state bay.new) }
    // Where the disks that failed serve, turns are taken by faults alone.
    ensures turns { OnOk result (CostsFaults m.old failed m.new) }
{
    match mark_left(m, alloc, bay, x, inner, failed) {
        Ok(()) => take_offline(m, alloc, bay, failed, now),
        Err(refusal) => Err(refusal),
    }
}
