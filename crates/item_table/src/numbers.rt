//! Tables by number.

ghost use Rattle.std.specs.Prelude.{◌≡◌, ◌≤◌, ◌<◌, ◌^◌, ℕ, false, IfNone, IfSome, IsTrue};
ghost use Rattle.std.specs.Ordering.{nat_cmp};

use crate::listed::Listed;
use crate::table::KeyTable;

impl<T: Listed<u32>> KeyTable<u32, T> {
    ghost use Rattle.item_table.specs.Numbers.{IsFreeNumberFrom, IsLeastNumberFrom, has_number};

    /// The least number that is there and isn't below `least`.
    pub fn least_from(&self, least: u32) -> Option<u32>
        ensures found { IfSome result (IsLeastNumberFrom self.now least) }
        ensures none { IfNone result ((k : ℕ) → least ≤ k → has_number self.now k ≡ false) }
    {
        match self.map.range(least..).next() {
            Some((number, _)) => Some(*number),
            None => None,
        }
    }

    /// The least number that isn't below `least` and that is free, or None where there is none.
    pub fn free_from(&self, least: u32) -> Option<u32>
        ensures found { IfSome result (IsFreeNumberFrom self.now least) }
        ensures none { IfNone result ((k : ℕ) → least ≤ k → k < 2 ^ 32
            → IsTrue (has_number self.now k)) }
    {
        let mut free = least;
        while self.get(free).is_some() {
            free = free.checked_add(1)?;
        }
        Some(free)
    }
}
