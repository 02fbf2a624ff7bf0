// The bytes of a file are read.
ghost use Rattle.std.specs.Prelude.{◌≡◌, ◌⊎◌, IfErr, OnOk, length};
ghost use Rattle.bay.specs.Image.{Same};
ghost use Rattle.bay.specs.Moments.{Runs};
ghost use Rattle.striping.specs.Pieces.{IsAllowedLayout};
ghost use Rattle.piece_laws.specs.Targets.{AgreesIn};
ghost use Rattle.file_extents.specs.group_engine.Mounts.{IsMounted, IsOwn, Takes};
ghost use Rattle.file_extents.specs.group_engine.Own.{KeepsGroup};
ghost use Rattle.file_extents.specs.group_pieces.Reads.{ReadsGroup};
ghost use Rattle.file_extents.specs.group_pieces.Usable.{FitsExtent, piece_of};
ghost use Rattle.file_extents.specs.Pieces.{IsOfShape};
ghost use Rattle.group_contents.specs.Files.{AtFile, ReadCause, SpanCause};
ghost use Rattle.group_contents.specs.Reading.{ShowsFile, KeepsMounted, WhereMounted};

use crate::opening::{OpenFile, open_span};
use asm_base::{Path, Span};
use bay::Bay;
use file_extents::{Mounted, Piece, ReadError, first_piece, layout_of, read_piece};
use refusal_lines::{DiskRef, Refusal};
use striping::Layout;

/// Fills the buffer with a piece.
fn read_one<B: Bay>(
    m: &Mounted,
    bay: &mut B,
    file: &OpenFile,
    piece: Piece,
    buf: &mut [u8],
) -> Result<(), Refusal>
    requires mounted { IsMounted m.now }
    requires takes { Takes m.now (B.state bay.old) }
    requires file { piece.x.file ≡ file.now.file }
    requires piece { FitsExtent m.now.catalog.shape piece.x.index piece.inner (length buf.old) }
    ensures keeps { KeepsGroup m.now m.now (B.state bay.old) (B.state bay.new) }
    ensures cause { IfErr result (ReadCause m.now (B.state bay.old) (B.state bay.new) file.now) }
    ensures reads { ReadsGroup m.now (B.state bay.old) (B.state bay.new) }
    ensures mounted { KeepsMounted m.now (B.state bay.old) (B.state bay.new) }
    ensures agrees { OnOk result (WhereMounted m.now (B.state bay.old) (B.state bay.new)
        (λ g. AgreesIn g (piece_of piece.x piece.inner (length buf.old)) buf.new)) }
{
    match read_piece(m, bay, piece.x, piece.inner, buf) {
        Ok(()) => Ok(()),
        Err(ReadError::Lost) => Err(Refusal::Lost { extent: piece.x }),
        Err(ReadError::Fault { disk }) => Err(Refusal::ReadFault {
            disk: DiskRef::Number(disk),
        }),
    }
}

/// Fills the buffer with bytes of a file that lie so, piece by piece.
fn read_pieces<B: Bay>(
    m: &Mounted,
    bay: &mut B,
    layout: Layout,
    file: &OpenFile,
    at: u64,
    buf: &mut [u8],
) -> Result<(), Refusal>
    requires mounted { IsMounted m.now }
    requires takes { Takes m.now (B.state bay.old) }
    requires layout { IsAllowedLayout layout }
    requires shape { IsOfShape layout m.now.catalog.shape }
    requires stripe { layout.stripe ≡ file.now.stripe }
    ensures keeps { KeepsGroup m.now m.now (B.state bay.old) (B.state bay.new) }
    ensures cause { IfErr result (ReadCause m.now (B.state bay.old) (B.state bay.new) file.now) }
    ensures reads { ReadsGroup m.now (B.state bay.old) (B.state bay.new) }
    ensures mounted { KeepsMounted m.now (B.state bay.old) (B.state bay.new) }
    ensures agrees { OnOk result (WhereMounted m.now (B.state bay.old) (B.state bay.new)
        (λ g. ShowsFile g file.now at buf.new)) }
{
    let shape = m.catalog().shape();
    let mut from = at;
    let mut done = 0;
    while done < buf.len() {
        let left = buf.len() - done;
        let Some(piece) = first_piece(shape, layout, file.file, from, left as u64) else {
            return Err(Refusal::NoMemory);
        };
        match read_one(m, bay, file, piece, &mut buf[done..done + piece.len]) {
            Ok(()) => {}
            Err(refusal) => return Err(refusal),
        }
        from = from.saturating_add(piece.len as u64);
        done += piece.len;
    }
    Ok(())
}

/// Fills the buffer with the bytes of a file from one on, which it has. Each piece is read from its
/// usable copies, by number until one reads. Lost: an extent has none. ReadFault: those of an
/// extent all failed, that on this disk first. Dismounted: the group is.
pub fn read_next<B: Bay>(
    m: &Mounted,
    bay: &mut B,
    file: &OpenFile,
    at: u64,
    buf: &mut [u8],
) -> Result<(), Refusal>
    requires takes { Takes m.now (B.state bay.old) }
    ensures keeps { KeepsGroup m.now m.now (B.state bay.old) (B.state bay.new) }
    ensures cause { IfErr result (ReadCause m.now (B.state bay.old) (B.state bay.new) file.now) }
    ensures reads { Runs (IsOwn m.now) Same (B.state bay.old) (B.state bay.new) }
    ensures mounted { KeepsMounted m.now (B.state bay.old) (B.state bay.new) }
    ensures agrees { OnOk result (WhereMounted m.now (B.state bay.old) (B.state bay.new)
        (λ g. ShowsFile g file.now at buf.new)) }
{
    match m.takes_calls() {
        Ok(()) => {}
        Err(refusal) => return Err(refusal),
    }
    match layout_of(m.catalog().shape(), file.stripe) {
        Some(layout) => read_pieces(m, bay, layout, file, at, buf),
        None => Err(Refusal::NoMemory),
    }
}

/// Fills the buffer with a span of a file, as long as the buffer. Refusals in their order: NoName,
/// NotSectors, OutOfFile, Lost, ReadFault.
pub fn read<B: Bay>(
    m: &Mounted,
    bay: &mut B,
    path: &Path,
    span: Span,
    buf: &mut [u8],
) -> Result<(), Refusal>
    requires takes { Takes m.now (B.state bay.old) }
    ensures keeps { KeepsGroup m.now m.now (B.state bay.old) (B.state bay.new) }
    ensures cause { IfErr result (λ refusal. AtFile m.now path.now.parts
        (SpanCause m.now span.at span.len) refusal
        ⊎ AtFile m.now path.now.parts (ReadCause m.now (B.state bay.old) (B.state bay.new))
        refusal) }
    ensures reads { Runs (IsOwn m.now) Same (B.state bay.old) (B.state bay.new) }
    ensures mounted { KeepsMounted m.now (B.state bay.old) (B.state bay.new) }
{
    match open_span(m, path, span.at, span.len) {
        Ok(file) => read_next(m, bay, &file, span.at, buf),
        Err(refusal) => Err(refusal),
    }
}
