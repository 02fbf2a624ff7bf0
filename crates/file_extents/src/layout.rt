// Where the bytes of a file lie, in pieces.
ghost use Rattle.std.specs.Prelude.{◌≡◌, ◌+◌, ◌<◌, ◌≤◌, ◌^◌, IfSome};
ghost use Rattle.catalog_tables.specs.striping.Pieces.{IsAllowedLayout};
ghost use Rattle.group_pieces.specs.Usable.{FitsExtent};
ghost use Rattle.file_extents.specs.Pieces.{IsFirstPiece, IsOfShape};

use asm_base::{ExtentId, Shape, Span, Stripe};
use catalog_tables::{Layout, next_piece, units_of};

/// The most bytes of a piece.
pub const LONGEST_PIECE: u64 = 1_048_576;

/// Some bytes of one extent in a row.
#[derive(Clone, Copy)]
pub struct Piece {
    pub x: ExtentId,
    /// The first of them, in the extent.
    pub inner: u64,
    pub len: usize,
}

/// How the files of a group of this shape lie that have this stripe. None where no group has the
/// shape.
pub fn layout_of(shape: Shape, stripe: Stripe) -> Option<Layout>
    ensures layout { IfSome result IsAllowedLayout }
    ensures unit { IfSome result (λ layout. layout.au ≡ shape.au) }
    ensures step { IfSome result (λ layout. layout.step ≡ shape.step) }
    ensures stripe { IfSome result (λ layout. layout.stripe ≡ stripe) }
{
    if !shape.is_allowed() {
        return None;
    }
    Some(Layout {
        au: shape.au as u64,
        step: shape.step,
        stripe,
    })
}

/// The first of a file's bytes from one on that lie in a row on one extent, at most 1 MiB of them.
/// None where there are none, or where they aren't whole sectors of an extent with a number.
pub fn first_piece(shape: Shape, layout: Layout, file: u32, at: u64, len: u64) -> Option<Piece>
    requires layout { IsAllowedLayout layout }
    ensures fits { IfSome result (λ p. FitsExtent shape p.x.index p.inner p.len) }
    ensures file { IfSome result (λ p. p.x.file ≡ file) }
    ensures some { IfSome result (λ p. 0 < p.len) }
    ensures within { IfSome result (λ p. p.len ≤ len) }
    ensures end { IfSome result (λ p. at + len < 2 ^ 64) }
    // The file's bytes from that one on lie there, where the layout is one of the group's.
    ensures first { IsOfShape layout shape → IfSome result
        (IsFirstPiece shape layout.stripe file at len) }
{
    if len > u64::MAX - at {
        return None;
    }
    let (extent, inner, run) = next_piece(layout, Span { at, len })?;
    piece_in(shape, file, extent, inner, run.min(LONGEST_PIECE))
}

/// So many bytes of an extent from an inner byte on, where it has them.
#[tactic(auto, using(crate::proofs::Layouts::fits_in))]
fn piece_in(shape: Shape, file: u32, extent: u64, inner: u64, len: u64) -> Option<Piece>
    ensures fits { IfSome result (λ p. FitsExtent shape p.x.index p.inner p.len) }
    ensures file { IfSome result (λ p. p.x.file ≡ file) }
    ensures len { IfSome result (λ p. (0 < p.len) × (p.len ≤ len)) }
    ensures place { IfSome result (λ p. (p.x.index ≡ extent) × (p.inner ≡ inner)) }
{
    if extent > u32::MAX as u64 || len == 0 {
        return None;
    }
    let size = units_of(shape.step, extent) as u64 * shape.au as u64;
    if inner > size || len > size - inner {
        return None;
    }
    if inner % 512 != 0 || len % 512 != 0 {
        return None;
    }
    Some(Piece {
        x: ExtentId {
            file,
            index: extent as u32,
        },
        inner,
        len: len as usize,
    })
}

/// The bytes before an extent of a file, and for a fine file before its set.
pub fn bytes_before(shape: Shape, extent: u64) -> u64 {
    let au = shape.au as u64;
    let step = shape.step as u64;
    let first = extent.min(step);
    let second = extent.min(2 * step) - first;
    let third = extent - first - second;
    let units = third.saturating_mul(16).saturating_add(first + 4 * second);
    units.saturating_mul(au)
}
