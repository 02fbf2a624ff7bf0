//! Whether an extent has all that its redundancy asks for.

ghost use Rattle.std.specs.Prelude.{◌≡◌, ◌<◌, ◌≤◌, ◌+◌, ◌-◌, List, [], ◌∷◌};
ghost use Rattle.std.specs.List.{list_any};
ghost use Rattle.asm_group.specs.Shape.{Shape};
ghost use Rattle.asm_formats.specs.Items.{Item};
ghost use Rattle.asm_placement.specs.Copies.{Copy, disks_of_copies, has_full_redundancy, siblings};
ghost use Rattle.extent_copies.specs.Extents.{IsExtentOf, copy_of};
ghost use Rattle.extent_copies.specs.NewFiles.{is_of_group};
ghost use Rattle.extent_copies.specs.Usable.{all_from, copies_after, failgroup_count_after, is_full_at, is_whole_at};

use crate::extent::{Extent, is_online};
use crate::homes::entry_at;
use partnership::PstEntry;

impl Extent {
    /// Whether the extent is full: each of its copies is current and on an Online disk, and no two
    /// lie in one failure group.
    #[tactic(auto, using(crate::proofs::FullExtents::full_is))]
    pub fn is_full(&self, disks: &[PstEntry]) -> bool
        requires { self.now.copies ≤ 3 }
        ensures value { result ≡ is_full_at disks.now self.now }
        // Where the extent is that of a group's records, it is so by these.
        ensures records { (s : Shape) (items : List Item) (all : List Copy)
            → IsExtentOf s items all self.now
            → result ≡ has_full_redundancy disks.now items (siblings all (copy_of self.now 0)) }
    {
        is_full_at(disks, self)
    }
}

fn is_full_at(disks: &[PstEntry], extent: &Extent) -> bool
    requires { extent.now.copies ≤ 3 }
    ensures { result ≡ is_full_at disks.now extent.now }
{
    are_whole(disks, extent) && groups_after(disks, extent, 0) == extent.copies
}

#[tactic(auto, using(crate::proofs::FullExtents::all_more, crate::proofs::FullExtents::all_failed, crate::proofs::FullExtents::all_start, crate::proofs::FullExtents::all_end))]
fn are_whole(disks: &[PstEntry], extent: &Extent) -> bool
    requires { extent.now.copies ≤ 3 }
    ensures { result ≡ all_from (is_whole_at disks.now extent.now) 0 extent.now.copies }
{
    for copy in 0..extent.copies {
        if !is_whole(disks, extent, copy) {
            return false;
        }
    }
    true
}

fn is_whole(disks: &[PstEntry], extent: &Extent, copy: u8) -> bool
    requires { copy < 3 }
    ensures { result ≡ is_whole_at disks.now extent.now copy }
{
    is_online(disks, extent, copy) && !extent.has_mark(copy)
}

/// In how many failure groups the disks of the copies from a number on lie.
#[tactic(auto, using(crate::proofs::FullExtents::groups_end, crate::proofs::FullExtents::groups_absent, crate::proofs::FullExtents::groups_known, crate::proofs::FullExtents::groups_new))]
fn groups_after(disks: &[PstEntry], extent: &Extent, copy: u8) -> u8
    requires { extent.now.copies ≤ 3 }
    ensures count { result ≡ failgroup_count_after disks.now extent.now copy }
    ensures few { result ≤ extent.now.copies - copy }
{
    if copy >= extent.copies {
        return 0;
    }
    let others = groups_after(disks, extent, copy + 1);
    match entry_at(disks, extent.home(copy)) {
        None => others,
        Some(disk) => {
            if has_group(disks, extent, copy + 1, disk.failgroup) {
                others
            } else {
                others + 1
            }
        }
    }
}

/// Whether the disk of a copy from a number on lies in the failure group.
#[tactic(auto, using(crate::proofs::FullExtents::any_end, crate::proofs::FullExtents::any_step))]
fn has_group(disks: &[PstEntry], extent: &Extent, copy: u8, failgroup: u8) -> bool
    requires { extent.now.copies ≤ 3 }
    ensures { result ≡ list_any (is_of_group failgroup)
        (disks_of_copies disks.now (copies_after extent.now copy)) }
{
    if copy >= extent.copies {
        return false;
    }
    lies_in_group(disks, extent, copy, failgroup) || has_group(disks, extent, copy + 1, failgroup)
}

fn lies_in_group(disks: &[PstEntry], extent: &Extent, copy: u8, failgroup: u8) -> bool
    ensures { result ≡ list_any (is_of_group failgroup)
        (disks_of_copies disks.now (copy_of extent.now copy ∷ [])) }
{
    match entry_at(disks, extent.home(copy)) {
        Some(disk) => disk.failgroup == failgroup,
        None => false,
    }
}
