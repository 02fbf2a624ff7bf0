//! An extent of a file, and its copies.

ghost use Rattle.std.specs.Prelude.{◌≡◌, ◌<◌, get_or};
ghost use Rattle.asm_formats.specs.Sets.{has_bit};
ghost use Rattle.asm_placement.specs.Modes.{is_online, serves};
ghost use Rattle.asm_placement.specs.Copies.{is_on};
ghost use Rattle.extent_copies.specs.Extents.{can_be_read_at, copy_of};

use crate::homes::entry_at;
use partnership::PstEntry;
use template_directory::{ExtentId, Home, Homes, Mode};

/// An extent of a file, as a group's tables have it.
#[derive(Clone, Copy)]
pub struct Extent {
    pub id: ExtentId,
    pub homes: Homes,
    /// Bit k, counted from the least, is set where copy k is stale.
    pub marks: u8,
    /// Copies that the file has: one, two or three.
    pub copies: u8,
    /// Units of each copy.
    pub units: u32,
}

impl Extent {
    /// The home of a copy, where it has one.
    #[tactic(auto, using(crate::proofs::Verdicts::no_home))]
    pub fn home(&self, copy: u8) -> Option<Home>
        ensures { result ≡ get_or self.now.homes copy None }
    {
        let homes = self.homes;
        match copy {
            0 => homes.first,
            1 => homes.second,
            2 => homes.third,
            _ => None,
        }
    }

    /// Whether the copy is stale.
    #[tactic(auto, unfolding(asm_formats::specs::Sets::has_bit))]
    pub fn has_mark(&self, copy: u8) -> bool
        requires { copy < 3 }
        ensures { result ≡ has_bit self.now.marks copy }
    {
        self.marks >> copy & 1 == 1
    }

    /// Whether the copy's disk is Online.
    pub fn is_on_online(&self, disks: &[PstEntry], copy: u8) -> bool
        ensures { result ≡ is_on is_online disks.now (copy_of self.now copy) }
    {
        is_online(disks, self, copy)
    }

    /// Whether the copy isn't stale and the mode of its disk serves, which may be attached or not.
    pub fn can_be_read(&self, disks: &[PstEntry], copy: u8) -> bool
        requires { copy < 3 }
        ensures { result ≡ can_be_read_at disks.now self.now copy }
    {
        can_be_read(disks, self, copy)
    }
}

pub(crate) fn is_online(disks: &[PstEntry], extent: &Extent, copy: u8) -> bool
    ensures { result ≡ is_on is_online disks.now (copy_of extent.now copy) }
{
    match entry_at(disks, extent.home(copy)) {
        Some(disk) => matches!(disk.mode, Mode::Online),
        None => false,
    }
}

fn serves(disks: &[PstEntry], extent: &Extent, copy: u8) -> bool
    ensures { result ≡ is_on serves disks.now (copy_of extent.now copy) }
{
    match entry_at(disks, extent.home(copy)) {
        Some(disk) => matches!(disk.mode, Mode::Online | Mode::Syncing | Mode::Dropping),
        None => false,
    }
}

/// Whether the copy isn't stale and its disk serves.
pub(crate) fn can_be_read(disks: &[PstEntry], extent: &Extent, copy: u8) -> bool
    requires { copy < 3 }
    ensures { result ≡ can_be_read_at disks.now extent.now copy }
{
    serves(disks, extent, copy) && !extent.has_mark(copy)
}
