//! Which disks hold status tables and directory copies, and where these move.

ghost use Rattle.std.specs.Prelude.{◌≡◌, ◌≤◌, ◌&&◌, ◌||◌, not, IsTrue, length, filter, find, nat_lt};
ghost use Rattle.std.specs.List.{list_any};
ghost use Rattle.std.specs.Option.{option_map};
ghost use Rattle.asm_formats.specs.Sets.{elements, has_bit};
ghost use Rattle.asm_formats.specs.Status.{Entry, entry_of, is_status};
ghost use Rattle.asm_placement.specs.Modes.{is_online, is_target, leaves, mode_is};
ghost use Rattle.asm_placement.specs.DiskSets.{distinct_failgroups, is_among};
ghost use Rattle.asm_placement.specs.TableDisks.{copy_count, directory_set, directory_target, due_set, has_leaving, is_status_move_due, status_target, table_count, table_set};
ghost use Rattle.partnership.specs.Selections.{FitInSet};

use crate::choice::{Choice, in_rounds, with_round};
use crate::disks::{Disks, Which};
use crate::failure_groups::{group_count, has_group};
use crate::replacement::entry_of;
use allocator::{DiskSet, GroupKind, Mode};
use status_table::{PstEntry, PstRecord};

/// The holders of status tables where a group of this kind has these disks: one in an EXTERNAL
/// group; three in a NORMAL one, or one where it has fewer than three disks; five in a HIGH one, or
/// three where it has fewer than five. They are taken in rounds over the failure groups, quorum
/// groups first, each kind in the order of its least disks; each round takes the least disk of each
/// group that isn't taken yet.
#[tactic(auto, using(crate::proofs::TableSets::holders_are, crate::proofs::Selected::numbered))]
pub fn first_holders(kind: GroupKind, disks: &[PstEntry]) -> DiskSet
    requires few { length disks.now ≤ 64 }
    requires numbers { FitInSet disks.now }
    ensures { result ≡ table_set kind disks.now }
{
    let quorum = Disks::of(disks, Which::Quorum);
    let regular = Disks::of(disks, Which::Regular);
    let count = table_count(kind, disks.len());
    in_rounds(quorum.as_slice(), regular.as_slice(), disks.len(), count).set
}

/// The disks of the first directory copies: the least disk of each of the first regular failure
/// groups, of one in an EXTERNAL group and of three at most in others.
#[tactic(auto, using(crate::proofs::TableSets::directories_are, crate::proofs::Selected::numbered))]
pub fn first_directories(kind: GroupKind, disks: &[PstEntry]) -> DiskSet
    requires few { length disks.now ≤ 64 }
    requires numbers { FitInSet disks.now }
    ensures { result ≡ directory_set kind disks.now }
{
    let regular = Disks::of(disks, Which::Regular);
    with_round(Choice::none_of(copy_count(kind)), regular.as_slice(), 0).set
}

fn table_count(kind: GroupKind, disks: usize) -> usize
    ensures { result ≡ table_count kind disks }
{
    match kind {
        GroupKind::External => 1,
        GroupKind::Normal if disks < 3 => 1,
        GroupKind::Normal => 3,
        GroupKind::High if disks < 5 => 3,
        GroupKind::High => 5,
    }
}

fn copy_count(kind: GroupKind) -> usize
    ensures { result ≡ copy_count kind }
{
    match kind {
        GroupKind::External => 1,
        GroupKind::Normal | GroupKind::High => 3,
    }
}

/// Where the status tables move: to the next holders where there are some; else to those that the
/// Online disks would give, where these are more than the holders, or where they are some and a
/// holder's disk leaves the group.
#[tactic(auto, unfolding(asm_placement::specs::TableDisks::is_status_move_due))]
pub fn status_target(kind: GroupKind, status: &PstRecord) -> Option<DiskSet>
    requires { IsTrue (is_status status.now) }
    ensures { result ≡ status_target kind status.now }
{
    let next = status.next_holders;
    if next.bits() != 0 {
        return Some(next);
    }
    let due = due_set(kind, status);
    if is_move_due(status, due) {
        Some(due)
    } else {
        None
    }
}

#[tactic(auto, using(crate::proofs::Selected::status_numbered, crate::proofs::Selected::numbered))]
fn due_set(kind: GroupKind, status: &PstRecord) -> DiskSet
    requires { IsTrue (is_status status.now) }
    ensures { result ≡ due_set kind status.now.entries }
{
    let online = Disks::of(status.entries(), Which::Online);
    first_holders(kind, online.as_slice())
}

/// Whether the tables are to move to the set that is due.
fn is_move_due(status: &PstRecord, due: DiskSet) -> bool
    ensures { result ≡ ((has_leaving status.now.entries status.now.holders
        || nat_lt (length (elements status.now.holders)) (length (elements due)))
        && nat_lt 0 (length (elements due))) }
{
    let holders = status.holders;
    (has_leaving(status.entries(), holders) || holders.count() < due.count()) && due.count() > 0
}

/// Whether a disk of the set leaves the group.
#[tactic(auto, using(crate::proofs::TableSets::leaving_start, crate::proofs::TableSets::leaving_more, crate::proofs::TableSets::leaving_found, crate::proofs::TableSets::leaving_end))]
fn has_leaving(disks: &[PstEntry], set: DiskSet) -> bool
    ensures { result ≡ has_leaving disks.now set }
{
    for d in 0..64 {
        if is_leaving(disks, set, d) {
            return true;
        }
    }
    false
}

fn is_leaving(disks: &[PstEntry], set: DiskSet, d: u8) -> bool
    ensures { result ≡ (has_bit set d && mode_is leaves (entry_of disks.now d)) }
{
    set.has(d) && leaves(disks, d)
}

fn leaves(disks: &[PstEntry], d: u8) -> bool
    ensures { result ≡ mode_is leaves (entry_of disks.now d) }
{
    match entry_of(disks, d) {
        Some(disk) => matches!(disk.mode, Mode::Dropping | Mode::Forced),
        None => false,
    }
}

/// The disk that takes a further directory copy, where one is due: fewer failure groups have one on
/// a disk that stays than are to have one, which is one in an EXTERNAL group and three at most in
/// others, of those with an Online regular disk. It is the least Online regular disk of a failure
/// group that has none.
#[tactic(auto, unfolding(asm_placement::specs::TableDisks::directory_target))]
pub fn directory_target(kind: GroupKind, status: &PstRecord) -> Option<u8>
    ensures { result ≡ directory_target kind status.now }
{
    let disks = status.entries();
    let targets = Disks::of(disks, Which::Targets);
    let due = copy_count(kind).min(group_count(targets.as_slice()));
    let staying = Disks::of(disks, Which::Staying(status.dirs));
    let holding = staying.as_slice();
    if group_count(holding) < due {
        first_outside(disks, holding)
    } else {
        None
    }
}

/// The least disk that may take a copy and lies in another failure group than each of the disks
/// that hold one.
fn first_outside(disks: &[PstEntry], holding: &[PstEntry]) -> Option<u8>
    ensures { result ≡ option_map (λ (e : Entry). e.number)
        (find (λ (e : Entry). is_target e
        && not (is_among (distinct_failgroups holding.now) e.failgroup)) disks.now) }
{
    for disk in disks {
        if is_outside(disk, holding) {
            return Some(disk.number);
        }
    }
    None
}

#[tactic(auto, using(crate::proofs::FailureGroups::groups_any))]
fn is_outside(disk: &PstEntry, holding: &[PstEntry]) -> bool
    ensures { result ≡ (is_target disk.now
        && not (is_among (distinct_failgroups holding.now) disk.now.failgroup)) }
{
    Which::Targets.has(disk) && !has_group(holding, disk.failgroup)
}
