// The steps of a slice.
ghost use Rattle.std.specs.Prelude.{◌≡◌, ◌/◌, IfErr, IfOk};
ghost use Rattle.resync.specs.group_engine.Mounts.{IsMounted, Takes};
ghost use Rattle.resync.specs.group_engine.Own.{KeepsGroup};
ghost use Rattle.resync.specs.group_engine.Pending.{GoesOn};
ghost use Rattle.resync.specs.group_engine.Searches.{IsPlanIn};
ghost use Rattle.relocation.specs.Slices.{Goes, HasCopyFault};
ghost use Rattle.resync.specs.Copying.{refusal_of};

use crate::fitting::is_in_place;
use asm_base::{Change, DiskSet, ExtentId, Home};
use bay::Bay;
use refusal_lines::Refusal;
use resync::{
    Catalog, CopyError, Flight, Mounted, PstRecord, copy_piece, extent_bytes, piece_len,
    planned_moves_change_one_chunk, refusal_of, with_holders, with_next_holders,
};
use std::alloc::Global;

/// A step of a copy's move: copies its next bytes, and with the last ones commits the move.
/// Refusals: ReadFault, after which the move stays; WriteFault, after which it is given up;
/// Dismounted; NoMemory.
pub(crate) fn copy_step<B: Bay>(
    m: &mut Mounted,
    alloc: Global,
    bay: &mut B,
    flight: Flight,
    buffer: &mut [u8],
) -> Result<(), Refusal>
    requires mounted { IsMounted m.old }
    requires takes { Takes m.old (B.state bay.old) }
    ensures { Goes m.old result m.new (B.state bay.old) (B.state bay.new) }
{
    m.set_flight(Some(flight));
    match copy_next(m, bay, buffer) {
        Ok(len) => advance(m, alloc, bay, len),
        Err(error) => Err(stopped(m, error)),
    }
}

/// Copies the next bytes of the move that is on its way, and gives their number.
fn copy_next<B: Bay>(m: &Mounted, bay: &mut B, buffer: &mut [u8]) -> Result<u64, CopyError>
    requires mounted { IsMounted m.now }
    requires takes { Takes m.now (B.state bay.old) }
    ensures keeps { KeepsGroup m.now m.now (B.state bay.old) (B.state bay.new) }
    ensures cause { IfErr result (HasCopyFault m.now (B.state bay.old) (B.state bay.new)) }
{
    match m.in_flight() {
        Some(flight) => copy_from(m, bay, flight.x, flight.to, flight.copied, buffer),
        None => Err(CopyError::Nowhere),
    }
}

/// Copies the next bytes of an extent to a home, from an inner byte on.
fn copy_from<B: Bay>(
    m: &Mounted,
    bay: &mut B,
    x: ExtentId,
    to: Home,
    copied: u64,
    buffer: &mut [u8],
) -> Result<u64, CopyError>
    requires mounted { IsMounted m.now }
    requires takes { Takes m.now (B.state bay.old) }
    ensures keeps { KeepsGroup m.now m.now (B.state bay.old) (B.state bay.new) }
    ensures cause { IfErr result (HasCopyFault m.now (B.state bay.old) (B.state bay.new)) }
{
    // A move that goes on has bytes left, and the buffer takes a whole piece.
    let shape = m.catalog().shape();
    let Some(len) = piece_len(shape, x.index, copied) else {
        return Err(CopyError::Nowhere);
    };
    if len > buffer.len() {
        return Err(CopyError::Nowhere);
    }
    match copy_piece(m, bay, x, to, copied, &mut buffer[..len]) {
        Ok(()) => Ok(len as u64),
        Err(error) => Err(error),
    }
}

/// The refusal of a step whose bytes weren't copied. The move is given up but where they can't be
/// read now.
fn stopped(m: &mut Mounted, error: CopyError) -> Refusal
    ensures group { m.new ≡ record m.old { flight = m.new.flight } }
    ensures refusal { result ≡ refusal_of error }
{
    match error {
        CopyError::Unread { disk: _ } => {}
        CopyError::Unwritten { disk: _ } => m.set_flight(None),
        CopyError::Nowhere => m.set_flight(None),
    }
    refusal_of(error)
}

/// So many bytes more of the move that is on its way are copied: it goes on, or is committed where
/// they were the last.
fn advance<B: Bay>(m: &mut Mounted, alloc: Global, bay: &mut B, len: u64) -> Result<(), Refusal>
    requires mounted { IsMounted m.old }
    requires takes { Takes m.old (B.state bay.old) }
    ensures { Goes m.old result m.new (B.state bay.old) (B.state bay.new) }
{
    match further(m, len) {
        Some(flight) => {
            m.set_flight(Some(flight));
            Ok(())
        }
        None => commit_flight(m, alloc, bay),
    }
}

/// The move that is on its way with so many bytes more copied. None where that are all of them, or
/// no move is.
fn further(m: &Mounted, len: u64) -> Option<Flight> {
    match m.in_flight() {
        Some(flight) => {
            let Flight {
                x,
                copy,
                to,
                copied,
            } = flight;
            let copied = copied.saturating_add(len);
            if copied < extent_bytes(m.catalog().shape(), x.index) {
                Some(Flight {
                    x,
                    copy,
                    to,
                    copied,
                })
            } else {
                None
            }
        }
        None => None,
    }
}

/// Commits the move that is on its way, all of whose bytes are copied. None is from then on.
fn commit_flight<B: Bay>(m: &mut Mounted, alloc: Global, bay: &mut B) -> Result<(), Refusal>
    requires mounted { IsMounted m.old }
    requires takes { Takes m.old (B.state bay.old) }
    ensures { Goes m.old result m.new (B.state bay.old) (B.state bay.new) }
{
    match m.in_flight() {
        Some(flight) => {
            m.set_flight(None);
            commit_move(m, alloc, bay, flight)
        }
        None => Err(Refusal::NoMemory),
    }
}

/// The change by which a move is made all of whose bytes are copied: the mark of the copy in place
/// goes, or the copy has its new home. It changes the chunk of the extent alone.
fn plan_of(catalog: &Catalog, alloc: Global, flight: Flight) -> Result<Change, Refusal>
    ensures { IfOk result (λ change. IsPlanIn (flight.x.file, flight.x.index / 256) catalog.now
        change.put change.gone) }
{
    planned_moves_change_one_chunk();
    let Flight { x, copy, to, .. } = flight;
    if is_in_place(catalog, x, copy, to) {
        return catalog.plan_marks(alloc, x, 0, 1 << copy);
    }
    if catalog.may_move(x, copy, to) {
        return catalog.plan_move(alloc, x, copy, to);
    }
    // One of them held when the step began, and nothing was changed since.
    Err(Refusal::NoMemory)
}

/// Commits a move all of whose bytes are copied.
fn commit_move<B: Bay>(
    m: &mut Mounted,
    alloc: Global,
    bay: &mut B,
    flight: Flight,
) -> Result<(), Refusal>
    requires mounted { IsMounted m.old }
    requires takes { Takes m.old (B.state bay.old) }
    ensures { GoesOn m.old result m.new (B.state bay.old) (B.state bay.new) }
{
    let x = flight.x;
    match plan_of(m.catalog(), alloc, flight) {
        Ok(change) => m.commit_extent(alloc, bay, &change, x),
        Err(_) => Err(Refusal::NoMemory),
    }
}

/// A disk gets a directory copy. Refusals: WriteFault; Dismounted; NoMemory.
pub(crate) fn add_directory<B: Bay>(
    m: &mut Mounted,
    alloc: Global,
    bay: &mut B,
    to: u8,
) -> Result<(), Refusal>
    requires mounted { IsMounted m.old }
    requires takes { Takes m.old (B.state bay.old) }
    ensures { Goes m.old result m.new (B.state bay.old) (B.state bay.new) }
{
    // An Online disk is attached.
    if to >= 64 {
        return Err(Refusal::NoMemory);
    }
    let Some(_slot) = m.slot(to) else {
        return Err(Refusal::NoMemory);
    };
    m.copy_directory(alloc, bay, to)
}

/// The status tables move to these disks: by a record that names them as the next holders, where
/// that isn't the one that holds, and then by one that names them alone. Refusals: Dismounted;
/// NoMemory.
pub(crate) fn move_tables<B: Bay>(
    m: &mut Mounted,
    alloc: Global,
    bay: &mut B,
    to: DiskSet,
) -> Result<(), Refusal>
    requires mounted { IsMounted m.old }
    requires takes { Takes m.old (B.state bay.old) }
    ensures { GoesOn m.old result m.new (B.state bay.old) (B.state bay.new) }
{
    match announce(m, alloc, bay, to) {
        Ok(()) => {
            let alone = with_holders(m.status(), to);
            put_record(m, alloc, bay, &alone)
        }
        Err(refusal) => Err(refusal),
    }
}

/// Names disks as the next holders, where they aren't.
fn announce<B: Bay>(m: &mut Mounted, alloc: Global, bay: &mut B, to: DiskSet) -> Result<(), Refusal>
    requires mounted { IsMounted m.old }
    requires takes { Takes m.old (B.state bay.old) }
    ensures { GoesOn m.old result m.new (B.state bay.old) (B.state bay.new) }
{
    if m.status().next_holders.bits() == to.bits() {
        return Ok(());
    }
    let both = with_next_holders(m.status(), to);
    put_record(m, alloc, bay, &both)
}

/// Writes a record where it may come next. Each of a status move may.
fn put_record<B: Bay>(
    m: &mut Mounted,
    alloc: Global,
    bay: &mut B,
    next: &PstRecord,
) -> Result<(), Refusal>
    requires mounted { IsMounted m.old }
    requires takes { Takes m.old (B.state bay.old) }
    ensures { GoesOn m.old result m.new (B.state bay.old) (B.state bay.new) }
{
    if !m.may_get(next) {
        return Err(Refusal::NoMemory);
    }
    m.set_status(alloc, bay, next)
}
