//! Disks that may take a copy.

ghost use Rattle.std.specs.Prelude.{◌≡◌, ◌<◌};
ghost use Rattle.std.specs.List.{slice_get};
ghost use Rattle.std.specs.Option.{option_and_then, option_copied};
ghost use Rattle.asm_placement.specs.Modes.{is_target};
ghost use Rattle.partnership.specs.Candidates.{candidate, candidate_at, candidate_from, earlier_candidate, candidate_home, is_less_full, lowest};
ghost use Rattle.partnership.specs.Steps.{with_next};

use allocator::{Home, Mode, Units};
use status_table::PstEntry;
use std::marker::Model;

/// A disk that may take a copy, and how full it is.
#[derive(Clone, Copy)]
pub struct Candidate {
    pub disk: PstEntry,
    /// Used user units.
    pub used: u32,
    /// User units.
    pub total: u32,
    /// Where the copy would begin.
    pub unit: u32,
}

impl Model for Candidate {
    ghost use Rattle.std.specs.Prelude.{Some};
    ghost use Rattle.partnership.specs.Candidates.{Candidate as DiskCandidate, unit_of};

    ghost Value = { DiskCandidate };

    ghost view = { λ c. record { entry = c.disk; used = c.used; total = c.total; home = Some (record { disk = c.disk.number; unit = c.unit }) } };

    ghost inverse = { λ c. record { disk = c.entry; used = c.used; total = c.total; unit = unit_of c.home } };
}

impl Candidate {
    pub fn home(&self) -> Home
        ensures { Some result ≡ self.now.home }
    {
        Home {
            disk: self.disk.number,
            unit: self.unit,
        }
    }
}

/// Whether new copies may go to the disk.
pub fn is_target(disk: &PstEntry) -> bool
    ensures { result ≡ is_target disk.now }
{
    matches!(disk.mode, Mode::Online) && !disk.quorum
}

/// The disk, where it may take a copy of so many units. `units` has its map at the place of its
/// number.
#[tactic(auto, unfolding(crate::specs::Candidates::candidate_at))]
pub fn candidate_on(disk: &PstEntry, units: &[Units], n: u32) -> Option<Candidate>
    requires { 0 < n }
    ensures { result ≡ candidate_at n disk.now units.now }
{
    candidate_with(disk, units_of(units, disk.number)?, n)
}

/// The map at the place of a disk's number.
pub fn units_of(units: &[Units], disk: u8) -> Option<&Units>
    ensures { option_copied result ≡ slice_get units.now disk }
{
    units.get(disk as usize)
}

#[tactic(auto, unfolding(crate::specs::Candidates::candidate))]
fn candidate_with(disk: &PstEntry, units: &Units, n: u32) -> Option<Candidate>
    requires { 0 < n }
    ensures { result ≡ candidate n disk.now units.now }
{
    if !is_target(disk) {
        return None;
    }
    let unit = lowest(units, n)?;
    Some(candidate_from(disk, units, unit))
}

/// The disk as a candidate for a copy that begins at the unit.
pub fn candidate_from(disk: &PstEntry, units: &Units, unit: u32) -> Candidate
    ensures { result ≡ candidate_from disk.now units.now unit }
{
    Candidate {
        disk: *disk,
        used: units.used(),
        total: units.total(),
        unit,
    }
}

/// Where a copy of so many units would begin.
#[tactic(auto, using(crate::proofs::Runs::lowest_is))]
pub fn lowest(units: &Units, n: u32) -> Option<u32>
    requires { 0 < n }
    ensures { result ≡ lowest n units.now }
{
    units.lowest(n)
}

/// Whether a is tried before b: it is less full, or as full and of a lower number. Fills are
/// compared by cross products.
#[tactic(auto, unfolding(crate::specs::Candidates::is_less_full))]
fn is_before(a: &Candidate, b: &Candidate) -> bool
    ensures { result ≡ is_less_full a.now b.now }
{
    let fill_of_a = a.used as u64 * b.total as u64;
    let fill_of_b = b.used as u64 * a.total as u64;
    fill_of_a < fill_of_b || (fill_of_a == fill_of_b && a.disk.number < b.disk.number)
}

/// The one of the two that is tried first.
fn earlier(candidate: Candidate, best: Option<Candidate>) -> Candidate
    ensures { Some result ≡ earlier_candidate candidate best }
{
    match best {
        Some(best) if is_before(&best, &candidate) => best,
        _ => candidate,
    }
}

/// The first of those so far, with one more where there is one.
pub fn with_next(next: Option<Candidate>, best: Option<Candidate>) -> Option<Candidate>
    ensures { result ≡ with_next next best }
{
    match next {
        Some(candidate) => Some(earlier(candidate, best)),
        None => best,
    }
}

pub fn home_of(candidate: Option<Candidate>) -> Option<Home>
    ensures { result ≡ option_and_then candidate_home candidate }
{
    match candidate {
        Some(candidate) => Some(candidate.home()),
        None => None,
    }
}
