//! Some of a group's disks.

ghost use Rattle.std.specs.Prelude.{◌≡◌, ◌<◌, ◌≤◌, [], ◌∷◌, ◌++◌, filter, length};
ghost use Rattle.asm_placement.specs.Modes.{is_online, stays};
ghost use Rattle.partnership.specs.Selections.{is_meant};

use allocator::{DiskSet, Mode};
use status_table::PstEntry;
use std::marker::Model;

/// Which of a group's disks are meant.
#[derive(Clone, Copy)]
pub enum Which {
    /// The Online ones.
    Online,
    /// Those of quorum failure groups.
    Quorum,
    /// The others.
    Regular,
    /// Those that may take copies: Online and regular.
    Targets,
    /// Those of a set that stay in the group.
    Staying(DiskSet),
}

impl Which {
    pub fn has(&self, disk: &PstEntry) -> bool
        ensures { result ≡ is_meant self.now disk.now }
    {
        match self {
            Which::Online => is_online(disk.mode),
            Which::Quorum => disk.quorum,
            Which::Regular => !disk.quorum,
            Which::Targets => is_online(disk.mode) && !disk.quorum,
            Which::Staying(set) => stays(disk.mode) && set.has(disk.number),
        }
    }
}

fn is_online(mode: Mode) -> bool
    ensures { result ≡ is_online mode }
{
    matches!(mode, Mode::Online)
}

fn stays(mode: Mode) -> bool
    ensures { result ≡ stays mode }
{
    matches!(mode, Mode::Online | Mode::Offline | Mode::Syncing)
}

/// Some of a group's disks, in their order. Contracts see their entries as a list.
#[derive(Drop)]
pub struct Disks {
    entries: [PstEntry; 64],
    count: usize,
}

impl Model for Disks {
    ghost use Rattle.std.specs.Prelude.{◌≤◌, List, take};
    ghost use Rattle.asm_formats.specs.Status.{Entry};

    ghost Value = { List Entry };

    ghost view = { λ d. take d.count d.entries };

    ghost invariant = { λ d. d.count ≤ 64 };
}

impl Disks {
    /// Those of the disks that are meant.
    #[tactic(auto, using(crate::proofs::Selected::one_more, crate::proofs::Selected::passed_over))]
    pub fn of(disks: &[PstEntry], which: Which) -> Disks
        requires { length disks.now ≤ 64 }
        ensures { result ≡ filter (is_meant which) disks.now }
    {
        let mut found = Disks::none();
        for disk in disks {
            if which.has(disk) {
                found.push(*disk);
            }
        }
        found
    }

    fn none() -> Disks
        ensures { result ≡ [] }
    {
        Disks {
            entries: [PstEntry::blank(); 64],
            count: 0,
        }
    }

    fn push(&mut self, disk: PstEntry)
        requires { length self.old < 64 }
        ensures { self.new ≡ self.old ++ disk ∷ [] }
    {
        self.entries[self.count] = disk;
        self.count += 1;
    }

    pub fn as_slice(&self) -> &[PstEntry]
        ensures { result.now ≡ self.now }
    {
        &self.entries[..self.count]
    }
}
