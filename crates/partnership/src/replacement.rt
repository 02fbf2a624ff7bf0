//! Where a copy goes in place of one of an extent's copies.

ghost use Rattle.std.specs.Prelude.{◌≡◌, ℕ, ◌<◌, ◌==◌, List, Some, length};
ghost use Rattle.std.specs.List.{list_any};
ghost use Rattle.asm_formats.specs.asm_group.Shape.{Shape};
ghost use Rattle.asm_formats.specs.Items.{Item, Homes};
ghost use Rattle.asm_formats.specs.Status.{entry_of};
ghost use Rattle.asm_placement.specs.Choices.{replacement, replacement_on};
ghost use Rattle.partnership.specs.Candidates.{among, candidates, chosen_copy, chosen_copy_of, has_partner, is_allowed, has_entry_of_failgroup, is_partner_of_kept, is_disk_in_set, lies_in_group, lies_on, may_take, may_take_at, may_take_of, candidate_tried_first};
ghost use Rattle.partnership.specs.Steps.{candidate_if};
ghost use Rattle.partnership.specs.UnitsOf.{AreHomesOf, AreUnitsOf, is_eligible_at};

use crate::candidate::{Candidate, candidate_on, home_of, is_target, with_next};
use allocator::{DiskSet, Home, Units};
use status_table::PstEntry;

/// Whether disk d may take a copy of an extent: it is Online and regular, holds none of its copies,
/// shares no failure group with a kept one, and is a partner of the first kept one's disk, where
/// one is kept. `holders` are the homes of all copies, `kept` those of the copies that stay, on
/// disks that stay.
#[tactic(auto, using(crate::proofs::Kept::eligible_is))]
pub fn eligible(disks: &[PstEntry], kept: &[Home], holders: &[Home], d: u8) -> bool
    ensures value { result ≡ may_take_at disks.now kept.now holders.now (entry_of disks.now d) }
    // Where the homes are those of an extent of which one copy is to be replaced, the disk is
    // eligible for that.
    ensures placement { (replaced : ℕ) (homes : Homes)
        → AreHomesOf disks.now replaced homes kept.now holders.now
        → result ≡ is_eligible_at disks.now replaced homes (entry_of disks.now d) }
{
    may_take_at(disks, kept, holders, d)
}

fn may_take_at(disks: &[PstEntry], kept: &[Home], holders: &[Home], d: u8) -> bool
    ensures { result ≡ may_take_at disks.now kept.now holders.now (entry_of disks.now d) }
{
    match entry_of(disks, d) {
        Some(disk) => may_take(disks, kept, holders, &disk),
        None => false,
    }
}

/// The home of a copy of n units: the lowest run of the first eligible disk with room, the least
/// full before the fuller. None where there is no such disk. `units` has the map of disk k at place
/// k.
#[tactic(auto, using(crate::proofs::Kept::copy_is))]
pub fn choose_copy(
    disks: &[PstEntry],
    units: &[Units],
    kept: &[Home],
    holders: &[Home],
    n: u32,
) -> Option<Home>
    requires { 0 < n }
    ensures chosen { result ≡ chosen_copy disks.now kept.now holders.now
        (candidates n disks.now units.now) }
    // Where the units are those of a group's records, and the homes those of an extent, the home
    // takes a copy's place.
    ensures placement { (s : Shape) (items : List Item) (replaced : ℕ) (homes : Homes)
        → AreUnitsOf s items disks.now units.now
        → AreHomesOf disks.now replaced homes kept.now holders.now
        → result ≡ replacement s disks.now items n replaced homes }
{
    chosen_copy_of(disks, units, kept, holders, &None, n)
}

/// The same among the disks of a set alone.
#[tactic(auto, using(crate::proofs::Kept::copy_on_is))]
pub fn choose_copy_on(
    disks: &[PstEntry],
    units: &[Units],
    kept: &[Home],
    holders: &[Home],
    on: DiskSet,
    n: u32,
) -> Option<Home>
    requires { 0 < n }
    ensures chosen { result ≡ chosen_copy_of (Some on) disks.now kept.now holders.now
        (candidates n disks.now units.now) }
    // Where the units are those of a group's records, and the homes those of an extent, the home
    // takes a copy's place.
    ensures placement { (s : Shape) (items : List Item) (replaced : ℕ) (homes : Homes)
        → AreUnitsOf s items disks.now units.now
        → AreHomesOf disks.now replaced homes kept.now holders.now
        → result ≡ replacement_on (is_disk_in_set on) s disks.now items n replaced homes }
{
    chosen_copy_of(disks, units, kept, holders, &Some(on), n)
}

fn chosen_copy_of(
    disks: &[PstEntry],
    units: &[Units],
    kept: &[Home],
    holders: &[Home],
    on: &Option<DiskSet>,
    n: u32,
) -> Option<Home>
    requires { 0 < n }
    ensures { result ≡ chosen_copy_of on.now disks.now kept.now holders.now
        (candidates n disks.now units.now) }
{
    home_of(first_eligible(disks, units, kept, holders, on, n))
}

#[tactic(auto, using(crate::proofs::Turns::tried_from, crate::proofs::Turns::tried_start))]
fn first_eligible(
    disks: &[PstEntry],
    units: &[Units],
    kept: &[Home],
    holders: &[Home],
    on: &Option<DiskSet>,
    n: u32,
) -> Option<Candidate>
    requires { 0 < n }
    ensures { result ≡ candidate_tried_first
        (among (may_take_of on.now disks.now kept.now holders.now)
        (candidates n disks.now units.now)) }
{
    let mut best = None;
    for i in (0..disks.len()).rev() {
        let next = eligible_candidate(disks, kept, holders, on, &disks[i], units, n);
        best = with_next(next, best);
    }
    best
}

#[tactic(auto, unfolding(crate::specs::Steps::candidate_if))]
fn eligible_candidate(
    disks: &[PstEntry],
    kept: &[Home],
    holders: &[Home],
    on: &Option<DiskSet>,
    disk: &PstEntry,
    units: &[Units],
    n: u32,
) -> Option<Candidate>
    requires { 0 < n }
    ensures { result ≡ candidate_if (may_take_of on.now disks.now kept.now holders.now) n disk.now
        units.now }
{
    if is_allowed(on, disk) && may_take(disks, kept, holders, disk) {
        candidate_on(disk, units, n)
    } else {
        None
    }
}

/// Whether the disk is of the set, where one is given.
fn is_allowed(on: &Option<DiskSet>, disk: &PstEntry) -> bool
    ensures { result ≡ is_allowed on.now disk.now }
{
    match on {
        Some(set) => set.has(disk.number),
        None => true,
    }
}

#[tactic(auto, unfolding(crate::specs::Candidates::may_take))]
fn may_take(disks: &[PstEntry], kept: &[Home], holders: &[Home], disk: &PstEntry) -> bool
    ensures { result ≡ may_take disks.now kept.now holders.now disk.now }
{
    is_target(disk)
        && !holds_copy(holders, disk.number)
        && !share_group(disks, kept, disk.failgroup)
        && is_partner_of_kept(disks, kept, disk.number)
}

fn holds_copy(holders: &[Home], d: u8) -> bool
    ensures { result ≡ list_any (lies_on d) holders.now }
{
    holders.iter().any(|home| home.disk == d)
}

/// Whether one of the kept copies lies in the failure group.
fn share_group(disks: &[PstEntry], kept: &[Home], failgroup: u8) -> bool
    ensures { result ≡ list_any (lies_in_group disks.now failgroup) kept.now }
{
    kept.iter()
        .any(|home| lies_in_group(disks, failgroup, *home))
}

fn lies_in_group(disks: &[PstEntry], failgroup: u8, home: Home) -> bool
    ensures { result ≡ lies_in_group disks.now failgroup home }
{
    match entry_of(disks, home.disk) {
        Some(disk) => disk.failgroup == failgroup,
        None => false,
    }
}

fn is_partner_of_kept(disks: &[PstEntry], kept: &[Home], d: u8) -> bool
    ensures { result ≡ is_partner_of_kept disks.now kept.now d }
{
    match kept {
        [] => true,
        [home, ..] => is_partner_of(disks, home.disk, d),
    }
}

fn is_partner_of(disks: &[PstEntry], of: u8, d: u8) -> bool
    ensures { result ≡ has_partner d (entry_of disks.now of) }
{
    match entry_of(disks, of) {
        Some(disk) => disk.partners.has(d),
        None => false,
    }
}

/// The entry of disk d.
#[tactic(auto, unfolding(asm_formats::specs::Status::entry_of))]
pub fn entry_of(disks: &[PstEntry], d: u8) -> Option<PstEntry>
    ensures { result ≡ entry_of disks.now d }
{
    for disk in disks {
        if disk.number == d {
            return Some(*disk);
        }
    }
    None
}
