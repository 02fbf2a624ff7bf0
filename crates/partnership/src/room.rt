//! Where copies would begin on each disk, looked up once for a choice.

ghost use Rattle.std.specs.Prelude.{◌≡◌, ◌<◌};
ghost use Rattle.std.specs.List.{slice_get};
ghost use Rattle.std.specs.Option.{option_and_then};
ghost use Rattle.partnership.specs.Candidates.{candidate_at, lowest};
ghost use Rattle.partnership.specs.Rooms.{AreStarts};

use crate::candidate::{Candidate, candidate_from, is_target, lowest, units_of};
use allocator::Units;
use status_table::PstEntry;
use std::marker::Model;

/// As many as a byte has values, which are the numbers of disks.
const NUMBERS: usize = 256;

/// The units of the disks, and where a copy of so many units would begin on each: the search
/// through the map of a disk is made once, however often the disk is asked for.
#[derive(Drop)]
pub struct Room<'a> {
    /// The map of disk k at place k.
    units: &'a [Units],
    /// Units of a copy.
    n: u32,
    /// The first unit of the lowest run of so many free units of disk k at place k.
    starts: [Option<u32>; 256],
}

impl<'a> Model for Room<'a> {
    ghost use Rattle.partnership.specs.Rooms.{AreStarts, Searched};

    ghost Value = { Searched };

    ghost view = { λ r. record { n = r.n; maps = r.units.now } };

    ghost invariant = { λ r. AreStarts r.n r.units.now r.starts };
}

impl<'a> Room<'a> {
    /// Looks for room for n units in each map.
    pub fn of(units: &'a [Units], n: u32) -> Room<'a>
        requires { 0 < n }
        ensures { result ≡ record { n = n; maps = units.now } }
    {
        let starts = starts_of(units, n);
        Room { units, n, starts }
    }

    /// The disk, where it may take a copy.
    #[tactic(auto, unfolding(crate::specs::Candidates::candidate_at, crate::specs::Candidates::candidate))]
    pub fn candidate(&self, disk: &PstEntry) -> Option<Candidate>
        ensures { result ≡ candidate_at self.now.n disk.now self.now.maps }
    {
        let units = units_of(self.units, disk.number)?;
        if !is_target(disk) {
            return None;
        }
        let unit = self.start_on(disk.number)?;
        Some(candidate_from(disk, units, unit))
    }

    /// Where a copy would begin on a disk.
    fn start_on(&self, disk: u8) -> Option<u32>
        ensures { result ≡ option_and_then (lowest self.now.n) (slice_get self.now.maps disk) }
    {
        self.starts[disk as usize]
    }
}

fn starts_of(units: &[Units], n: u32) -> [Option<u32>; 256]
    requires { 0 < n }
    ensures { AreStarts n units.now result }
{
    let mut starts = [None; 256];
    for disk in 0..units.len().min(NUMBERS) {
        starts[disk] = lowest(&units[disk], n);
    }
    starts
}
