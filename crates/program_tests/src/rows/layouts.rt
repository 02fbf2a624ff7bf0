// Where bytes of files lie: calls that no script makes alone.
ghost use Rattle.striping.specs.Pieces.{IsAllowedLayout};

use asm_base::{Span, Stripe};
use std::alloc::{AllocError, Global};
use striping::{Layout, extent_of, extents_for, next_piece, units_of};

/// A group with units of 1 MB and 20,000 extents of each size, or one with units of 4 KB and 8.
#[derive(Clone, Copy)]
pub enum Group {
    Usual,
    Small,
}

/// What is asked of a layout.
#[derive(Clone, Copy)]
pub enum Question {
    /// The units of an extent.
    Units(u64),
    /// The place of a byte.
    Byte(u64),
    /// The extents of a size, and their units.
    Size(u64),
    /// The first piece of so many bytes from a place on.
    Piece(u64, u64),
}

fn layout_of(group: Group, stripe: Stripe) -> Layout
    ensures { IsAllowedLayout result }
{
    match group {
        Group::Usual => Layout {
            au: 1_048_576,
            step: 20_000,
            stripe,
        },
        Group::Small => Layout {
            au: 4_096,
            step: 8,
            stripe,
        },
    }
}

/// The units of the extents below a number.
fn units_below(step: u32, extents: u64) -> u64 {
    let mut units = 0u64;
    for extent in 0..extents {
        units = units.saturating_add(units_of(step, extent) as u64);
    }
    units
}

/// The first piece of a span that doesn't end past 64 bits.
fn piece(layout: Layout, at: u64, len: u64) -> Option<(u64, u64, u64)>
    requires { IsAllowedLayout layout }
{
    if len > u64::MAX - at {
        return None;
    }
    next_piece(layout, Span { at, len })
}

fn piece_text(alloc: Global, layout: Layout, at: u64, len: u64) -> Result<String, AllocError>
    requires { IsAllowedLayout layout }
{
    match piece(layout, at, len) {
        Some((extent, inner, length)) => {
            format!(in alloc; "{length} bytes of extent {extent} from {inner} on")
        }
        None => String::from_str(alloc, "none"),
    }
}

/// What is answered.
pub fn answer(
    alloc: Global,
    group: Group,
    stripe: Stripe,
    question: Question,
) -> Result<String, AllocError> {
    let layout = layout_of(group, stripe);
    match question {
        Question::Units(extent) => {
            let units = units_of(layout.step, extent);
            format!(in alloc; "{units}")
        }
        Question::Byte(byte) => {
            let (extent, inner) = extent_of(layout, byte);
            format!(in alloc; "byte {inner} of extent {extent}")
        }
        Question::Size(size) => {
            let extents = extents_for(layout, size);
            let units = units_below(layout.step, extents);
            format!(in alloc; "{extents} in {units} units")
        }
        Question::Piece(at, len) => piece_text(alloc, layout, at, len),
    }
}
