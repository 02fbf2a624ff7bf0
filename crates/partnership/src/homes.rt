//! The homes of a new extent's copies.

ghost use Rattle.std.specs.Prelude.{◌≡◌, ◌+◌, ◌<◌, ◌≤◌, List, length, nat_le};
ghost use Rattle.std.specs.List.{list_any};
ghost use Rattle.std.specs.Option.{option_map};
ghost use Rattle.asm_formats.specs.asm_group.Shape.{Shape};
ghost use Rattle.asm_formats.specs.Items.{Item};
ghost use Rattle.asm_placement.specs.DiskSets.{is_among};
ghost use Rattle.asm_placement.specs.Choices.{homes_for};
ghost use Rattle.partnership.specs.Candidates.{among, candidates, chosen_homes, group_count, candidate_home, is_outside, is_disk_in_set, may_be_first_candidate, three, candidate_tried_first};
ghost use Rattle.partnership.specs.Steps.{candidate_if, is_free_partner, is_new_group, is_candidate_of_failgroup, has_candidate_of_failgroup, second_of, third_of};
ghost use Rattle.partnership.specs.UnitsOf.{AreUnitsOf};

use crate::candidate::{Candidate, home_of, with_next};
use crate::room::Room;
use allocator::{DiskSet, Home, Homes, Units};
use status_table::PstEntry;

/// Homes for one to three copies of a new extent of n units, or None where there is no space. The
/// first goes to the first disk, the least full before the fuller, that is Online and regular, has
/// room, and has partners for the others. Those go in turn to such partners of it, each in another
/// failure group. `units` has the map of disk k at place k.
#[tactic(auto, using(crate::proofs::Placement::homes_are))]
pub fn choose_homes(disks: &[PstEntry], units: &[Units], copies: u8, n: u32) -> Option<Homes>
    requires { 0 < n }
    ensures chosen { result ≡ chosen_homes (candidates n disks.now units.now) copies }
    // Where the units are those of a group's records, the homes are those of their placement.
    ensures placement { (s : Shape) (items : List Item) → AreUnitsOf s items disks.now units.now
        → result ≡ option_map three (homes_for s items disks.now copies n) }
{
    chosen_homes(disks, &Room::of(units, n), copies)
}

#[tactic(auto, using(crate::proofs::Choices::three_homes))]
fn chosen_homes(disks: &[PstEntry], room: &Room, copies: u8) -> Option<Homes>
    ensures { result ≡ chosen_homes (candidates room.now.n disks.now room.now.maps) copies }
{
    let first = first_disk(disks, room, copies)?;
    let second = second_disk(disks, room, copies, &first);
    let third = third_disk(disks, room, copies, &first, &second);
    Some(Homes {
        first: Some(first.home()),
        second: home_of(second),
        third: home_of(third),
    })
}

/// The disk of the first copy.
#[tactic(auto, using(crate::proofs::Turns::tried_from, crate::proofs::Turns::tried_start))]
fn first_disk(disks: &[PstEntry], room: &Room, copies: u8) -> Option<Candidate>
    ensures { result ≡ candidate_tried_first
        (among (may_be_first_candidate (candidates room.now.n disks.now room.now.maps) copies)
        (candidates room.now.n disks.now room.now.maps)) }
{
    let mut best = None;
    for i in (0..disks.len()).rev() {
        let next = first_candidate(disks, room, copies, &disks[i]);
        best = with_next(next, best);
    }
    best
}

/// The disk, where it may take the first copy.
#[tactic(auto, unfolding(crate::specs::Steps::candidate_if, crate::specs::Candidates::may_be_first_candidate))]
fn first_candidate(
    disks: &[PstEntry],
    room: &Room,
    copies: u8,
    disk: &PstEntry,
) -> Option<Candidate>
    ensures { result ≡ candidate_if (may_be_first_candidate
        (candidates room.now.n disks.now room.now.maps) copies) room.now.n disk.now room.now.maps }
{
    let found = room.candidate(disk)?;
    if may_be_first(disks, room, copies, disk.partners) {
        Some(found)
    } else {
        None
    }
}

/// Whether the partners that may take copies lie in failure groups enough for the other copies.
fn may_be_first(disks: &[PstEntry], room: &Room, copies: u8, partners: DiskSet) -> bool
    ensures { result ≡ nat_le copies (group_count
        (among (is_disk_in_set partners) (candidates room.now.n disks.now room.now.maps)) + 1) }
{
    copies as usize <= group_count(disks, room, partners) + 1
}

/// In how many failure groups those of a set lie that may take copies.
#[tactic(auto, using(crate::proofs::Groups::count_from, crate::proofs::Groups::count_start))]
fn group_count(disks: &[PstEntry], room: &Room, set: DiskSet) -> usize
    ensures count { result ≡ group_count (among (is_disk_in_set set)
        (candidates room.now.n disks.now room.now.maps)) }
    ensures few { result ≤ length disks.now }
{
    let mut count = 0;
    for i in (0..disks.len()).rev() {
        let next = member(set, &disks[i], room);
        if is_new_group(&disks[i + 1..], room, set, next) {
            count += 1;
        }
    }
    count
}

/// The disk, where it is of the set and may take a copy.
#[tactic(auto, unfolding(crate::specs::Steps::candidate_if))]
fn member(set: DiskSet, disk: &PstEntry, room: &Room) -> Option<Candidate>
    ensures { result ≡ candidate_if (is_disk_in_set set) room.now.n disk.now room.now.maps }
{
    if set.has(disk.number) {
        room.candidate(disk)
    } else {
        None
    }
}

/// Whether the disk is there, and lies in a failure group in which none of the others lies.
fn is_new_group(disks: &[PstEntry], room: &Room, set: DiskSet, next: Option<Candidate>) -> bool
    ensures { result ≡ is_new_group (among (is_disk_in_set set)
        (candidates room.now.n disks.now room.now.maps)) next }
{
    match next {
        Some(disk) => !has_member_in(disks, room, set, disk.disk.failgroup),
        None => false,
    }
}

/// Whether one of the set that may take a copy lies in the failure group.
#[tactic(auto, using(crate::proofs::Groups::any_from, crate::proofs::Groups::any_end))]
fn has_member_in(disks: &[PstEntry], room: &Room, set: DiskSet, failgroup: u8) -> bool
    ensures { result ≡ list_any (is_candidate_of_failgroup failgroup)
        (among (is_disk_in_set set) (candidates room.now.n disks.now room.now.maps)) }
{
    for i in 0..disks.len() {
        if is_member_in(set, failgroup, &disks[i], room) {
            return true;
        }
    }
    false
}

#[tactic(auto, using(crate::proofs::Groups::one_of_disk))]
fn is_member_in(set: DiskSet, failgroup: u8, disk: &PstEntry, room: &Room) -> bool
    ensures { result ≡ has_candidate_of_failgroup failgroup
        (candidate_if (is_disk_in_set set) room.now.n disk.now room.now.maps) }
{
    disk.failgroup == failgroup && member(set, disk, room).is_some()
}

/// The disk of the second copy, where there is one.
#[tactic(auto, unfolding(crate::specs::Steps::second_of))]
fn second_disk(disks: &[PstEntry], room: &Room, copies: u8, first: &Candidate) -> Option<Candidate>
    ensures { result ≡ second_of (among (is_disk_in_set first.now.entry.partners)
        (candidates room.now.n disks.now room.now.maps)) first.now.entry.failgroup copies }
{
    if copies < 2 {
        return None;
    }
    let taken = [first.disk.failgroup];
    next_disk(disks, room, first.disk.partners, &taken)
}

/// The disk of the third copy, where there is one.
#[tactic(auto, unfolding(crate::specs::Steps::third_of))]
fn third_disk(
    disks: &[PstEntry],
    room: &Room,
    copies: u8,
    first: &Candidate,
    second: &Option<Candidate>,
) -> Option<Candidate>
    ensures { result ≡ third_of (among (is_disk_in_set first.now.entry.partners)
        (candidates room.now.n disks.now room.now.maps)) first.now.entry.failgroup copies
        second.now }
{
    if copies < 3 {
        return None;
    }
    let second = second.as_ref()?;
    let taken = [second.disk.failgroup, first.disk.failgroup];
    next_disk(disks, room, first.disk.partners, &taken)
}

/// The first disk in order of a set that may take a copy and lies outside of the failure groups
/// that are taken.
#[tactic(auto, using(crate::proofs::Turns::tried_from, crate::proofs::Turns::tried_start, crate::proofs::Turns::both_tests))]
fn next_disk(disks: &[PstEntry], room: &Room, set: DiskSet, taken: &[u8]) -> Option<Candidate>
    ensures { result ≡ candidate_tried_first
        (among (is_outside taken.now)
        (among (is_disk_in_set set) (candidates room.now.n disks.now room.now.maps))) }
{
    let mut best = None;
    for i in (0..disks.len()).rev() {
        let next = free_member(set, taken, &disks[i], room);
        best = with_next(next, best);
    }
    best
}

#[tactic(auto, unfolding(crate::specs::Steps::candidate_if))]
fn free_member(set: DiskSet, taken: &[u8], disk: &PstEntry, room: &Room) -> Option<Candidate>
    ensures { result ≡ candidate_if (is_free_partner set taken.now) room.now.n disk.now
        room.now.maps }
{
    if set.has(disk.number) && !is_among(taken, disk.failgroup) {
        room.candidate(disk)
    } else {
        None
    }
}

fn is_among(groups: &[u8], failgroup: u8) -> bool
    ensures { result ≡ is_among groups.now failgroup }
{
    groups.iter().any(|group| *group == failgroup)
}
