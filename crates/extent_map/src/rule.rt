//! The rule that the extents of a file are numbered from 0 without a gap.

ghost use Rattle.std.specs.Prelude.{◌≡◌, false};
ghost use Rattle.extent_map.specs.Extents.{is_behind, is_blank, is_full, full_chunk, stand_first, stands_at};

use crate::chunk::{Chunk, has_home};
use asm_base::Homes;

/// Whether the chunk's extents keep the rule where `past` is the full chunk before it, if that is
/// full.
pub fn stands_at(past: Option<(u32, u32)>, at: (u32, u32), chunk: &Chunk) -> bool
    ensures { result ≡ stands_at past (at, chunk.now) }
{
    let homes = chunk.as_slice();
    stand_first(homes) && (is_blank(homes) || at.1 == 0 || is_behind(past, at))
}

/// The chunk, where it is full.
pub fn opened(at: (u32, u32), chunk: &Chunk) -> Option<(u32, u32)>
    ensures { result ≡ full_chunk (at, chunk.now) }
{
    if is_full(chunk.as_slice()) {
        Some(at)
    } else {
        None
    }
}

fn is_behind(past: Option<(u32, u32)>, at: (u32, u32)) -> bool
    ensures { result ≡ is_behind past at }
{
    match past {
        None => false,
        Some(before) => before.0 == at.0 && before.1 as u64 + 1 == at.1 as u64,
    }
}

/// Whether no extent stands behind a place without one.
fn stand_first(homes: &[Homes]) -> bool
    ensures { result ≡ stand_first false homes.now }
{
    let mut ended = false;
    for extent in homes {
        let is_there = has_home(extent);
        if ended && is_there {
            return false;
        }
        ended = !is_there;
    }
    true
}

fn is_full(homes: &[Homes]) -> bool
    ensures { result ≡ is_full homes.now }
{
    homes.iter().all(|extent| has_home(extent))
}

fn is_blank(homes: &[Homes]) -> bool
    ensures { result ≡ is_blank homes.now }
{
    homes.iter().all(|extent| !has_home(extent))
}
