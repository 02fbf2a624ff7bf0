// A copy of an extent gets its bytes from the usable ones.
ghost use Rattle.std.specs.Prelude.{◌≡◌, IfErr, IfOk, length, replicate};
ghost use Rattle.file_extents.specs.group_engine.Mounts.{IsMounted, Takes};
ghost use Rattle.file_extents.specs.group_engine.Own.{KeepsGroup};
ghost use Rattle.file_extents.specs.group_pieces.Usable.{FitsExtent};
ghost use Rattle.resync.specs.Copying.{CopyCause, refusal_of, copy_error_of};

use crate::runs::{extent_bytes, piece_len};
use asm_base::{ExtentId, Home, NoMemory};
use bay::{Bay, Fault};
use file_extents::{LONGEST_PIECE, Mounted, ReadError, is_run, read_piece, units_of, write_spare};
use refusal_lines::{DiskRef, Refusal};
use std::alloc::Global;

/// Why bytes of an extent aren't copied.
#[derive(Clone, Copy, Debug, PartialEq, Eq)]
pub enum CopyError {
    /// All usable copies failed, that on this disk first.
    Unread { disk: u8 },
    /// This disk, on which the copy is, failed.
    Unwritten { disk: u8 },
    /// No copy is usable, or the home isn't on units of an attached disk.
    Nowhere,
}

/// A buffer for the longest piece, of 1 MiB.
pub fn piece_buffer(alloc: Global) -> Result<Vec<u8>, NoMemory>
    ensures { IfOk result (λ buffer. buffer.items ≡ replicate 1048576 0) }
{
    zeros(alloc, LONGEST_PIECE as usize)
}

/// A buffer for so many bytes.
fn zeros(alloc: Global, len: usize) -> Result<Vec<u8>, NoMemory>
    ensures { IfOk result (λ buffer. buffer.items ≡ replicate len 0) }
{
    let mut buffer = Vec::with_capacity(alloc, len).map_err(|_| NoMemory)?;
    buffer.resize(len, 0).map_err(|_| NoMemory)?;
    Ok(buffer)
}

/// What a slice answers where bytes of an extent aren't copied. A copy that has nowhere to go is
/// tested for before, so that this want doesn't come.
pub fn refusal_of(error: CopyError) -> Refusal
    ensures { result ≡ refusal_of error }
{
    match error {
        CopyError::Unread { disk } => Refusal::ReadFault {
            disk: DiskRef::Number(disk),
        },
        CopyError::Unwritten { disk } => Refusal::WriteFault {
            disk: DiskRef::Number(disk),
        },
        CopyError::Nowhere => Refusal::NoMemory,
    }
}

/// Copies as many bytes of an extent as the buffer is long, from an inner byte on: reads them from
/// the first usable copy that reads, and writes and syncs them in a copy at a home. No mode
/// changes, and no mark.
pub fn copy_piece<B: Bay>(
    m: &Mounted,
    bay: &mut B,
    x: ExtentId,
    to: Home,
    inner: u64,
    buffer: &mut [u8],
) -> Result<(), CopyError>
    requires mounted { IsMounted m.now }
    requires takes { Takes m.now (B.state bay.old) }
    requires piece { FitsExtent m.now.catalog.shape x.index inner (length buffer.old) }
    ensures keeps { KeepsGroup m.now m.now (B.state bay.old) (B.state bay.new) }
    ensures cause { IfErr result (CopyCause m.now to.disk (B.state bay.old) (B.state bay.new)) }
{
    match read_piece(m, bay, x, inner, buffer) {
        Ok(()) => write_copy(m, bay, x, to, inner, buffer),
        Err(error) => Err(unread(error)),
    }
}

/// Why bytes aren't copied that can't be read.
fn unread(error: ReadError) -> CopyError
    ensures { result ≡ copy_error_of error }
{
    match error {
        ReadError::Fault { disk } => CopyError::Unread { disk },
        ReadError::Lost => CopyError::Nowhere,
    }
}

/// Writes and syncs bytes of an extent in a copy at a home.
fn write_copy<B: Bay>(
    m: &Mounted,
    bay: &mut B,
    x: ExtentId,
    to: Home,
    inner: u64,
    bytes: &[u8],
) -> Result<(), CopyError>
    requires mounted { IsMounted m.now }
    requires takes { Takes m.now (B.state bay.old) }
    ensures keeps { KeepsGroup m.now m.now (B.state bay.old) (B.state bay.new) }
    ensures cause { IfErr result (CopyCause m.now to.disk (B.state bay.old) (B.state bay.new)) }
{
    let units = units_of(m.catalog().shape().step, x.index as u64);
    if !is_run(m, to, units, inner, bytes.len()) {
        return Err(CopyError::Nowhere);
    }
    match write_spare(m, bay, to, inner, bytes) {
        Ok(()) => Ok(()),
        Err(Fault) => Err(CopyError::Unwritten { disk: to.disk }),
    }
}

/// Copies all bytes of an extent to a copy at a home, piece by piece.
pub(crate) fn copy_whole<B: Bay>(
    m: &Mounted,
    bay: &mut B,
    x: ExtentId,
    to: Home,
    buffer: &mut [u8],
) -> Result<(), CopyError>
    requires mounted { IsMounted m.now }
    requires takes { Takes m.now (B.state bay.old) }
    ensures keeps { KeepsGroup m.now m.now (B.state bay.old) (B.state bay.new) }
    ensures cause { IfErr result (CopyCause m.now to.disk (B.state bay.old) (B.state bay.new)) }
{
    let shape = m.catalog().shape();
    let size = extent_bytes(shape, x.index);
    let mut copied = 0;
    while copied < size {
        let Some(len) = piece_len(shape, x.index, copied) else {
            return Err(CopyError::Nowhere);
        };
        if len > buffer.len() {
            return Err(CopyError::Nowhere);
        }
        match copy_piece(m, bay, x, to, copied, &mut buffer[..len]) {
            Ok(()) => {}
            Err(error) => return Err(error),
        }
        copied += len as u64;
    }
    Ok(())
}
