//! Which copies of an extent count.

ghost use Rattle.std.specs.Prelude.{◌≡◌, ◌<◌, ◌≤◌, ◌-◌, IfSome, List};
ghost use Rattle.asm_group.specs.Shape.{Shape};
ghost use Rattle.asm_formats.specs.Items.{Item};
ghost use Rattle.asm_placement.specs.Copies.{Copy, is_on};
ghost use Rattle.extent_copies.specs.Extents.{IsExtentOf, copy_of};
ghost use Rattle.extent_copies.specs.Usable.{copies_after, first_passing, first_usable, is_current, is_current_at, is_fresh, is_fresh_at, is_kept_mode, is_usable, is_usable_at, is_home_in_disk_set};

use crate::extent::{Extent, can_be_read};
use crate::homes::entry_at;
use partnership::PstEntry;
use template_directory::{DiskSet, Home, Mode};

impl Extent {
    /// Whether the copy is there and not stale, whatever its disk's mode is.
    #[tactic(auto, using(crate::proofs::Counting::fresh_is))]
    pub fn is_fresh(&self, copy: u8) -> bool
        requires { copy < 3 }
        ensures value { result ≡ is_fresh_at self.now copy }
        // Where the extent is that of a group's records, it is so by these.
        ensures records { (s : Shape) (items : List Item) (all : List Copy)
            → IsExtentOf s items all self.now → copy < self.now.copies
            → result ≡ is_fresh items (copy_of self.now copy) }
    {
        is_fresh_at(self, copy)
    }

    /// Whether the copy is current: its disk has an entry that isn't Forced, and it isn't stale.
    #[tactic(auto, using(crate::proofs::Counting::current_is))]
    pub fn is_current(&self, disks: &[PstEntry], copy: u8) -> bool
        requires { copy < 3 }
        ensures value { result ≡ is_current_at disks.now self.now copy }
        ensures records { (s : Shape) (items : List Item) (all : List Copy)
            → IsExtentOf s items all self.now → copy < self.now.copies
            → result ≡ is_current disks.now items (copy_of self.now copy) }
    {
        is_current_at(disks, self, copy)
    }

    /// Whether the copy is usable: it is current, and its disk serves, being attached and Online,
    /// Syncing or Dropping.
    #[tactic(auto, using(crate::proofs::Counting::usable_is))]
    pub fn is_usable(&self, disks: &[PstEntry], attached: DiskSet, copy: u8) -> bool
        requires { copy < 3 }
        ensures value { result ≡ is_usable_at attached disks.now self.now copy }
        ensures records { (s : Shape) (items : List Item) (all : List Copy)
            → IsExtentOf s items all self.now → copy < self.now.copies
            → result ≡ is_usable attached disks.now items (copy_of self.now copy) }
    {
        is_usable_at(disks, attached, self, copy)
    }

    /// The first usable copy from a number on.
    #[tactic(auto, using(crate::proofs::Counting::first_usable_is))]
    pub fn first_usable(&self, disks: &[PstEntry], attached: DiskSet, from: u8) -> Option<u8>
        requires { self.now.copies ≤ 3 }
        ensures value { result ≡ first_passing (is_usable_at attached disks.now self.now) from
            (self.now.copies - from) }
        ensures records { (s : Shape) (items : List Item) (all : List Copy)
            → IsExtentOf s items all self.now
            → result ≡ first_usable attached disks.now items (copies_after self.now from) }
    {
        first_usable_at(disks, attached, self, from)
    }
}

fn is_fresh_at(extent: &Extent, copy: u8) -> bool
    requires { copy < 3 }
    ensures { result ≡ is_fresh_at extent.now copy }
{
    extent.home(copy).is_some() && !extent.has_mark(copy)
}

fn is_current_at(disks: &[PstEntry], extent: &Extent, copy: u8) -> bool
    requires { copy < 3 }
    ensures { result ≡ is_current_at disks.now extent.now copy }
{
    is_kept(disks, extent, copy) && !extent.has_mark(copy)
}

fn is_kept(disks: &[PstEntry], extent: &Extent, copy: u8) -> bool
    ensures { result ≡ is_on is_kept_mode disks.now (copy_of extent.now copy) }
{
    match entry_at(disks, extent.home(copy)) {
        Some(disk) => !matches!(disk.mode, Mode::Forced),
        None => false,
    }
}

fn is_usable_at(disks: &[PstEntry], attached: DiskSet, extent: &Extent, copy: u8) -> bool
    requires { copy < 3 }
    ensures { result ≡ is_usable_at attached disks.now extent.now copy }
{
    can_be_read(disks, extent, copy) && lies_in(attached, extent.home(copy))
}

/// Whether a home lies on one of these disks.
fn lies_in(disks: DiskSet, home: Option<Home>) -> bool
    ensures { result ≡ is_home_in_disk_set disks home }
{
    match home {
        Some(home) => disks.has(home.disk),
        None => false,
    }
}

#[tactic(auto, using(crate::proofs::Counting::first_more, crate::proofs::Counting::first_found, crate::proofs::Counting::first_end))]
fn first_usable_at(disks: &[PstEntry], attached: DiskSet, extent: &Extent, from: u8) -> Option<u8>
    requires { extent.now.copies ≤ 3 }
    ensures { result ≡ first_passing (is_usable_at attached disks.now extent.now) from
        (extent.now.copies - from) }
{
    for copy in from..extent.copies {
        if is_usable_at(disks, attached, extent, copy) {
            return Some(copy);
        }
    }
    None
}
