//! The rule of stale marks: each is that of a copy that is there.

ghost use Rattle.std.specs.Prelude.{◌≡◌, ◌<◌, ◌||◌, not, is_some, None};
ghost use Rattle.std.specs.List.{list_all, zip};
ghost use Rattle.std.specs.Option.{option_copied};
ghost use Rattle.asm_formats.specs.Sets.{has_bit};
ghost use Rattle.catalog_tables.specs.Rules.{are_chunk_marks, are_marks_of, first_wrong, is_marked_right};

use crate::parts::Parts;
use asm_base::{Home, Homes};

impl Parts {
    /// The first record of stale marks that has a mark of a copy that isn't there. Of a chunk that
    /// isn't there it names none.
    pub(crate) fn mark_alone(&self) -> Option<(u32, u32)>
        ensures { result ≡ first_wrong (is_marked_right self.now) self.now.stale }
    {
        for (at, marks) in self.stale.iter() {
            if !are_chunk_marks(self.extents.chunk(at.0, at.1), &marks.bits) {
                return Some(*at);
            }
        }
        None
    }
}

fn are_chunk_marks(chunk: Option<&[Homes]>, marks: &[u8]) -> bool
    ensures { result ≡ are_chunk_marks (option_copied chunk.entry) marks.now }
{
    match chunk {
        None => true,
        Some(homes) => are_all_marks_of(marks, homes),
    }
}

fn are_all_marks_of(marks: &[u8], homes: &[Homes]) -> bool
    ensures { result ≡ list_all are_marks_of (zip marks.now homes.now) }
{
    marks
        .iter()
        .zip(homes.iter())
        .all(|(marks, homes)| are_marks_of(*marks, homes))
}

/// Whether an extent has a copy for each of its marks.
fn are_marks_of(marks: u8, homes: &Homes) -> bool
    ensures { result ≡ are_marks_of (marks, homes.now) }
{
    let homes = *homes;
    is_mark_of(marks, 0, homes.first)
        && is_mark_of(marks, 1, homes.second)
        && is_mark_of(marks, 2, homes.third)
}

/// Whether mark bit k is unset, or there is a home.
#[tactic(auto, unfolding(asm_formats::specs::Sets::has_bit))]
fn is_mark_of(marks: u8, copy: u8, home: Option<Home>) -> bool
    requires { copy < 3 }
    ensures { result ≡ (not (has_bit marks copy) || is_some home) }
{
    marks >> copy & 1 != 1 || home.is_some()
}
