//! The rule of a file's extents: each that the file has by its size has all its copies.

ghost use Rattle.std.specs.Prelude.{◌≡◌, ◌≤◌, ◌<◌, ℕ, IfNone, IfSome, IsTrue, false, true};
ghost use Rattle.std.specs.Bool.{OnFalse, OnTrue};
ghost use Rattle.std.specs.List.{AllByRecursion};
ghost use Rattle.std.specs.Option.{option_copied};
ghost use Rattle.asm_group.specs.Shape.{is_shape};
ghost use Rattle.extent_map.specs.Extents as extent_map;
ghost use Rattle.extent_map.specs.Extents.{extent_at};
ghost use Rattle.catalog_tables.specs.Rules.{HasExtents, IsShortFile, LacksExtent, has_copies};

use crate::parts::Parts;
use asm_base::{Homes, Shape};
use file_directory::FileHead;
use partnership::{Layout, extents_for};

impl Parts {
    /// The first file of which an extent that it has by its size hasn't all its copies.
    pub(crate) fn short_file(&self, shape: &Shape) -> Option<u32>
        requires shape { IsTrue (is_shape shape.now) }
        requires table { extent_map.IsExtentTable self.now.extents }
        ensures some { IfSome result (IsShortFile self.now shape.now) }
        ensures none { IfNone result (AllByRecursion (HasExtents self.now shape.now)
            self.now.files) }
    {
        for (file, head) in self.files.iter() {
            if self.lacks_extent(shape, *file, head) {
                return Some(*file);
            }
        }
        None
    }

    /// Whether an extent that the file has by its size hasn't all its copies.
    #[tactic(auto, using(crate::proofs::FileLaws::lacks_at, crate::proofs::FileLaws::lacks_one, crate::proofs::FileLaws::has_all))]
    fn lacks_extent(&self, shape: &Shape, file: u32, head: &FileHead) -> bool
        requires shape { IsTrue (is_shape shape.now) }
        requires table { extent_map.IsExtentTable self.now.extents }
        ensures lacks { OnTrue result (LacksExtent self.now shape.now (file, head.now)) }
        ensures has { OnFalse result (HasExtents self.now shape.now (file, head.now)) }
    {
        let layout = Layout {
            au: shape.au as u64,
            step: shape.step,
            stripe: head.stripe,
        };
        let due = extents_for(layout, head.size);
        if due > self.extents.count(file) {
            return true;
        }
        self.lacks_copy(file, head.copies, due)
    }

    /// Whether one of the file's first extents hasn't all its copies.
    fn lacks_copy(&self, file: u32, copies: u8, due: u64) -> bool
        requires { due ≤ 1099511627776 }
        ensures lacks { OnTrue result ((i : ℕ) × (i < due)
            × (has_copies copies (extent_at self.now.extents file i) ≡ false)) }
        ensures has { OnFalse result ((i : ℕ) → i < due
            → has_copies copies (extent_at self.now.extents file i) ≡ true) }
    {
        for index in 0..due {
            if !has_copies(copies, self.extents.at(file, index)) {
                return true;
            }
        }
        false
    }
}

/// Whether the extent is there, with a home at each copy number below this one.
fn has_copies(copies: u8, homes: Option<&Homes>) -> bool
    ensures { result ≡ has_copies copies (option_copied homes.entry) }
{
    match homes {
        None => false,
        Some(homes) => {
            let homes = *homes;
            (copies == 0 || homes.first.is_some())
                && (copies <= 1 || homes.second.is_some())
                && (copies <= 2 || homes.third.is_some())
        }
    }
}
