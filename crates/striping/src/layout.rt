//! The layout of a file over its extents: extents grow with their index, and those of a fine file
//! take turns.

ghost use Rattle.std.specs.Prelude.{◌≡◌, ◌+◌, ◌<◌, ◌≤◌, ◌^◌, ◌%◌, ◌↔◌, ℕ, MatchOption, IsTrue};
ghost use Rattle.asm_placement.specs.Layout.{chunk_of, extent_len, extents_at_once, has_extent_by_size, start, units_of};
ghost use Rattle.asm_placement.proofs.Starts.{IsInOrder};
ghost use Rattle.striping.specs.Pieces.{IsAllowedLayout, IsFirstPieceOfSpan, LaysByteAt, run_by};

use asm_base::{Span, Stripe};

/// How the files of a group lie on extents.
#[derive(Clone, Copy)]
pub struct Layout {
    /// Bytes of an allocation unit.
    pub au: u64,
    /// Extents of each size.
    pub step: u32,
    /// Whether extents follow one another or take turns.
    pub stripe: Stripe,
}

/// The units of an extent: 1 below the step, 4 below twice the step, and 16 from there.
#[tactic(auto, unfolding(asm_placement::specs::Layout::units_of))]
pub fn units_of(step: u32, index: u64) -> u32
    ensures units { result ≡ units_of step index }
    ensures few { result ≤ 16 }
{
    let step = step as u64;
    if index < step {
        1
    } else if index < 2 * step {
        4
    } else {
        16
    }
}

/// Where a byte would lie if the extents followed one another.
#[tactic(auto, using(asm_placement::proofs::Starts::in_second_left, asm_placement::proofs::Units::is_unit, asm_placement::proofs::Units::few_bytes))]
fn in_order(layout: Layout, offset: u64) -> (u64, u64)
    requires { IsAllowedLayout layout }
    ensures { IsInOrder layout.au layout.step offset result.0 result.1 }
{
    let step = layout.step as u64;
    let first = step * layout.au;
    if offset < first {
        return (offset / layout.au, offset % layout.au);
    }
    let offset = offset - first;
    if offset < 4 * first {
        let length = 4 * layout.au;
        return (step + offset / length, offset % length);
    }
    let offset = offset - 4 * first;
    let length = 16 * layout.au;
    (2 * step + offset / length, offset % length)
}

/// Bytes that a fine extent has in a row.
fn chunk_of(au: u64) -> u64
    ensures { result ≡ chunk_of au }
{
    (au / 8).min(131_072)
}

/// Where a byte of a file lies: the extent, and the byte of it.
pub fn extent_of(layout: Layout, offset: u64) -> (u64, u64)
    requires { IsAllowedLayout layout }
    // The byte lies there.
    ensures place { LaysByteAt layout offset result.0 result.1 }
    // It lies nowhere else.
    ensures only { (i q : ℕ) → LaysByteAt layout offset i q → (i ≡ result.0) × (q ≡ result.1) }
    // Whole extents have the bytes before their end, and no others.
    ensures whole { (n : ℕ) → n % extents_at_once layout.stripe ≡ 0 → (result.0 < n)
        ↔ (offset < start layout.au layout.step n) }
{
    place_of(layout, offset)
}

#[tactic(auto, using(asm_placement::proofs::Places::lies_coarse, asm_placement::proofs::Units::few_bytes, asm_placement::proofs::Units::is_unit))]
fn place_of(layout: Layout, offset: u64) -> (u64, u64)
    requires { IsAllowedLayout layout }
    ensures { LaysByteAt layout offset result.0 result.1 }
{
    let (extent, inner) = in_order(layout, offset);
    match layout.stripe {
        Stripe::Coarse => (extent, inner),
        Stripe::Fine => {
            let length = units_of(layout.step, extent) as u64 * layout.au;
            let byte = extent % 8 * length + inner;
            let chunk = chunk_of(layout.au);
            let place = byte / chunk;
            (extent / 8 * 8 + place % 8, place / 8 * chunk + byte % chunk)
        }
    }
}

/// How many extents a file of so many bytes has: whole sets of eight where the file is fine, and
/// none where it is empty.
pub fn extents_for(layout: Layout, size: u64) -> u64
    requires { IsAllowedLayout layout }
    // The file has the extents below this number, and no others.
    ensures has { (i : ℕ) → (i < result) ↔ IsTrue
        (has_extent_by_size layout.stripe layout.au layout.step size i) }
{
    if size == 0 {
        return 0;
    }
    let (last, _) = in_order(layout, size - 1);
    match layout.stripe {
        Stripe::Coarse => last + 1,
        Stripe::Fine => (last / 8 + 1) * 8,
    }
}

/// How many bytes of a file lie in a row from a byte of an extent on.
#[tactic(auto, using(asm_placement::proofs::Units::is_unit))]
fn run_from(layout: Layout, extent: u64, inner: u64) -> u64
    requires layout { IsAllowedLayout layout }
    requires inside { inner < extent_len layout.au layout.step extent }
    ensures { result ≡ run_by layout.stripe layout.au layout.step extent inner }
{
    match layout.stripe {
        Stripe::Coarse => units_of(layout.step, extent) as u64 * layout.au - inner,
        Stripe::Fine => {
            let chunk = chunk_of(layout.au);
            chunk - inner % chunk
        }
    }
}

/// The longest run of bytes at a span's start that lie in a row on one extent: the extent, the byte
/// of it, and how many bytes they are. None where the span is empty.
pub fn next_piece(layout: Layout, span: Span) -> Option<(u64, u64, u64)>
    requires layout { IsAllowedLayout layout }
    requires end { span.at + span.len < 2 ^ 64 }
    ensures { MatchOption result (span.len ≡ 0) (λ p. IsFirstPieceOfSpan layout span p.0 p.1 p.2) }
{
    if span.len == 0 {
        return None;
    }
    let (extent, inner) = place_of(layout, span.at);
    let length = span.len.min(run_from(layout, extent, inner));
    Some((extent, inner, length))
}
