//! The extents that have a stale copy on a disk.

ghost use Rattle.std.specs.Prelude.{◌≡◌, ◌≤◌, ◌<◌, ◌^◌, IfNone, IfSome, length};
ghost use Rattle.std.specs.Option.{option_copied};
ghost use Rattle.plan_records.specs.extent_map.Extents.{chunk_at};
ghost use Rattle.plan_records.specs.staleness_directory.Marks.{marks_at, marks_from};
ghost use Rattle.plan_records.specs.catalog_tables.MarkedExtents.{HasNoMarkedHome, HasNoneIn, HasNoneMarked, IsFirstIn, IsFirstMarked, IsFirstPlace, first_marked};

use crate::catalog::Catalog;
use asm_base::{ExtentId, Homes};
use plan_records::{Marks, has_stale_on};

impl Catalog {
    /// The first extent from `least` on, by file and index, that has a stale mark of a copy on a
    /// disk. It looks at the marks of the chunks up to there.
    #[tactic(auto, using(crate::proofs::MarkedExtents::in_first, crate::proofs::MarkedExtents::later_small, crate::proofs::MarkedExtents::in_none))]
    pub fn marked_from(&self, disk: u8, least: ExtentId) -> Option<ExtentId>
        ensures found { IfSome result (λ x. IsFirstMarked self.now.tables disk
            (least.file, least.index) (x.file, x.index)) }
        ensures none { IfNone result (HasNoneMarked self.now.tables disk
            (least.file, least.index)) }
    {
        self.keeps_rules();
        let first = (least.file, least.index / 256);
        if let Some(x) = self.marked_in(disk, first, least.index % 256) {
            return Some(x);
        }
        let Some(later) = self.first_marked(disk, (first.0, first.1 + 1)) else {
            return None;
        };
        self.marked_in(disk, later, 0)
    }

    /// The first extent of a chunk that has a stale copy on a disk, from a place on.
    #[tactic(auto, using(crate::proofs::MarkedExtents::no_chunk, crate::proofs::MarkedExtents::no_marks))]
    fn marked_in(&self, disk: u8, at: (u32, u32), from: u32) -> Option<ExtentId>
        requires number { at.1 < 2 ^ 24 }
        ensures found { IfSome result (λ x. IsFirstIn self.now.tables disk at from
            (x.file, x.index)) }
        ensures none { IfNone result (HasNoneIn self.now.tables disk at from) }
    {
        self.keeps_rules();
        let Some(marks) = self.marks_at(at) else {
            return None;
        };
        let Some(homes) = self.chunk(at) else {
            return None;
        };
        let Some(place) = first_place(disk, from as usize, &marks.bits, homes) else {
            return None;
        };
        Some(ExtentId {
            file: at.0,
            index: at.1 * 256 + place as u32,
        })
    }

    /// The homes of a chunk's extents, or None where it isn't there.
    fn chunk(&self, at: (u32, u32)) -> Option<&[Homes]>
        ensures { option_copied result ≡ chunk_at self.now.tables.extents at }
    {
        self.parts.extents.chunk(at.0, at.1)
    }

    /// Their marks.
    fn marks_at(&self, at: (u32, u32)) -> Option<&Marks>
        ensures { option_copied result ≡ marks_at self.now.tables.stale at }
    {
        self.parts.stale.get(at)
    }

    /// The first chunk from one on that has an extent with a stale copy on a disk.
    fn first_marked(&self, disk: u8, first: (u32, u32)) -> Option<(u32, u32)>
        ensures { result ≡ first_marked self.now.tables disk
            (marks_from self.now.tables.stale first) }
    {
        self.parts.first_marked(disk, first)
    }
}

/// The first place of a chunk, from one on, at which a stale copy lies on a disk.
fn first_place(disk: u8, from: usize, marks: &[u8], homes: &[Homes]) -> Option<usize>
    requires marks { length marks.now ≡ 256 }
    requires homes { length homes.now ≡ 256 }
    ensures found { IfSome result (IsFirstPlace disk marks.now homes.now from) }
    ensures few { IfSome result (λ place. place < 256) }
    ensures none { IfNone result (HasNoMarkedHome disk marks.now homes.now from) }
{
    for place in from..256 {
        if has_stale_on(disk, marks[place], &homes[place]) {
            return Some(place);
        }
    }
    None
}
