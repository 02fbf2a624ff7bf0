// Pieces of extents.
ghost use Rattle.std.specs.Prelude.{◌≡◌, ◌+◌, ◌^◌, ◌<◌, ◌≤◌, IfSome};
ghost use Rattle.file_extents.specs.group_pieces.Usable.{FitsExtent};

use asm_base::Shape;
use file_extents::{LONGEST_PIECE, units_of};

/// The bytes of a copy of an extent by its index.
pub fn extent_bytes(shape: Shape, index: u32) -> u64 {
    units_of(shape.step, index as u64) as u64 * shape.au as u64
}

/// How many bytes of an extent are copied at once from an inner byte on: those that are left, at
/// most 1 MiB. None where none are, and where the inner byte or their number isn't one of whole
/// sectors.
#[tactic(auto, using(file_extents::proofs::Layouts::fits_in))]
pub fn piece_len(shape: Shape, index: u32, inner: u64) -> Option<usize>
    ensures fits { IfSome result (λ n. FitsExtent shape index inner n) }
    ensures some { IfSome result (λ n. 0 < n) }
    ensures most { IfSome result (λ n. n ≤ 1048576) }
    ensures end { IfSome result (λ n. inner + n < 2 ^ 64) }
{
    let size = units_of(shape.step, index as u64) as u64 * shape.au as u64;
    if inner >= size {
        return None;
    }
    let len = (size - inner).min(LONGEST_PIECE);
    if inner % 512 != 0 || len % 512 != 0 {
        return None;
    }
    Some(len as usize)
}
