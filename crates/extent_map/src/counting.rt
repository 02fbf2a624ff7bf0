//! How many extents a file has.

ghost use Rattle.std.specs.Prelude.{◌≡◌, ◌≤◌, ◌+◌, ℕ, IsTrue};
ghost use Rattle.asm_formats.specs.Items.{Homes as FormatHomes, is_home, is_homes};
ghost use Rattle.extent_map.specs.Extents.{HasCount, IsExtentTable, may_stand, with_extent, without_extent};

use crate::chunk::has_home;
use crate::table::ExtentMap;
use asm_base::{Home, Homes};

/// No file has so many extents: the key of a record has no room for the number of their chunk.
const TOO_MANY_EXTENTS: u64 = 1_099_511_627_520;

impl ExtentMap {
    /// How many extents a file has, which is the index of its next one. It looks at 40 extents,
    /// however many there are.
    #[tactic(auto, using(crate::proofs::FileEnds::end_appends, crate::proofs::FileEnds::end_goes))]
    pub fn count(&self, file: u32) -> u64
        requires { IsExtentTable self.now }
        // The file has the extents below this number, and no others.
        ensures count { HasCount self.now file result }
        // It stays a table with an extent more at the end.
        ensures more { (homes : FormatHomes) → IsTrue (may_stand result homes)
            → IsExtentTable (with_extent self.now file result homes) }
        // It stays a table without the last one.
        ensures less { (n : ℕ) → n + 1 ≡ result → IsExtentTable (without_extent self.now file n) }
        ensures few { result ≤ 1099511627520 }
    {
        self.end_of(file)
    }

    /// The first index at which there is no extent, by halves.
    #[tactic(auto, using(crate::proofs::FileEnds::more_below, crate::proofs::FileEnds::none_above, crate::proofs::FileEnds::no_extent_past, crate::proofs::FileEnds::count_is))]
    fn end_of(&self, file: u32) -> u64
        requires { IsExtentTable self.now }
        ensures count { HasCount self.now file result }
        ensures few { result ≤ 1099511627520 }
    {
        let mut low = 0;
        let mut high = TOO_MANY_EXTENTS;
        while low < high {
            let middle = low + (high - low) / 2;
            if self.has(file, middle) {
                low = middle + 1;
            } else {
                high = middle;
            }
        }
        low
    }
}

/// Whether an extent of this index may be put with these homes: each is one of the formats, and
/// there is one.
pub fn may_stand(index: u32, homes: &Homes) -> bool
    ensures { result ≡ may_stand index homes.now }
{
    are_homes(homes) && has_home(homes)
}

fn are_homes(homes: &Homes) -> bool
    ensures { result ≡ is_homes homes.now }
{
    let homes = *homes;
    is_home(homes.first) && is_home(homes.second) && is_home(homes.third)
}

/// Disk 255 stands for an absent home.
fn is_home(home: Option<Home>) -> bool
    ensures { result ≡ is_home home }
{
    match home {
        None => true,
        Some(home) => home.disk < 255,
    }
}
