//! The chunks that have an extent with a stale copy on a disk.

ghost use Rattle.std.specs.Prelude.{◌≡◌, ◌<◌, ◌&&◌};
ghost use Rattle.std.specs.List.{list_any, zip};
ghost use Rattle.std.specs.Option.{option_copied};
ghost use Rattle.asm_formats.specs.Sets.{has_bit};
ghost use Rattle.staleness_directory.specs.Marks.{marks_from};
ghost use Rattle.catalog_tables.specs.MarkedExtents.{any_stale_on, first_marked, has_marked, has_stale_on, is_home_on_disk};

use crate::parts::Parts;
use asm_base::{Home, Homes};

/// Extents of the chunks below this one have an index of 32 bits.
const END: u32 = 1 << 24;

impl Parts {
    /// The first chunk from one on that has such an extent.
    pub fn first_marked(&self, disk: u8, first: (u32, u32)) -> Option<(u32, u32)>
        ensures { result ≡ first_marked self.now disk (marks_from self.now.stale first) }
    {
        for (at, marks) in self.stale.iter_from(first) {
            if self.has_marked(disk, *at, &marks.bits) {
                return Some(*at);
            }
        }
        None
    }

    fn has_marked(&self, disk: u8, at: (u32, u32), marks: &[u8]) -> bool
        ensures { result ≡ has_marked self.now disk (at, marks.now) }
    {
        at.1 < END && any_stale_on(disk, marks, self.extents.chunk(at.0, at.1))
    }
}

/// Whether a chunk, where it is there, has an extent of which a stale copy lies on a disk.
fn any_stale_on(disk: u8, marks: &[u8], chunk: Option<&[Homes]>) -> bool
    ensures { result ≡ any_stale_on disk marks.now (option_copied chunk.entry) }
{
    match chunk {
        None => false,
        Some(homes) => any_stale_in(disk, marks, homes),
    }
}

fn any_stale_in(disk: u8, marks: &[u8], homes: &[Homes]) -> bool
    ensures { result ≡ list_any (has_stale_on disk) (zip marks.now homes.now) }
{
    marks
        .iter()
        .zip(homes.iter())
        .any(|(marks, homes)| has_stale_on(disk, *marks, homes))
}

/// Whether a stale copy of an extent lies on a disk.
pub fn has_stale_on(disk: u8, marks: u8, homes: &Homes) -> bool
    ensures { result ≡ has_stale_on disk (marks, homes.now) }
{
    let homes = *homes;
    is_stale_on(disk, marks, 0, homes.first)
        || is_stale_on(disk, marks, 1, homes.second)
        || is_stale_on(disk, marks, 2, homes.third)
}

/// Whether a copy has a mark, and its home lies on the disk.
#[tactic(auto, unfolding(asm_formats::specs::Sets::has_bit))]
fn is_stale_on(disk: u8, marks: u8, copy: u8, home: Option<Home>) -> bool
    requires { copy < 3 }
    ensures { result ≡ (has_bit marks copy && is_home_on_disk disk home) }
{
    marks >> copy & 1 == 1 && lies_on(disk, home)
}

fn lies_on(disk: u8, home: Option<Home>) -> bool
    ensures { result ≡ is_home_on_disk disk home }
{
    match home {
        None => false,
        Some(home) => home.disk == disk,
    }
}
