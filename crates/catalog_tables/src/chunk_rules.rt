//! The rules of chunks and of their stale marks.

ghost use Rattle.std.specs.Prelude.{◌≡◌, None};
ghost use Rattle.std.specs.List.{list_all};
ghost use Rattle.std.specs.Option.{option_copied};
ghost use Rattle.asm_formats.specs.Items.{Home as FormatHome};
ghost use Rattle.partnership.specs.asm_placement.Work.{is_regular};
ghost use Rattle.partnership.specs.asm_placement.Naming.{is_pending};
ghost use Rattle.catalog_tables.specs.Rules.{are_on_disks, are_on_regular, are_on_two, are_within, are_within_head, first_wrong, has_chunk, has_marks, is_on_disks, is_on_regular, is_owned, is_regular_chunk, is_home_within, keeps_copies};

use crate::parts::Parts;
use asm_base::{Home, Homes};
use file_directory::FileHead;
use operations_directory::Pending;
use partnership::{PstEntry, entry_of};

impl Parts {
    /// The first chunk that has no record of stale marks.
    pub(crate) fn unmarked(&self) -> Option<(u32, u32)>
        ensures { result ≡ first_wrong (has_marks self.now) self.now.extents }
    {
        for (at, _) in self.extents.iter() {
            if self.stale.get(*at).is_none() {
                return Some(*at);
            }
        }
        None
    }

    /// The first record of stale marks that has no chunk.
    pub(crate) fn marks_alone(&self) -> Option<(u32, u32)>
        ensures { result ≡ first_wrong (has_chunk self.now) self.now.stale }
    {
        for (at, _) in self.stale.iter() {
            if self.extents.chunk(at.0, at.1).is_none() {
                return Some(*at);
            }
        }
        None
    }

    /// The first chunk that is neither one of a file nor of the pending operation's.
    pub(crate) fn unowned(&self) -> Option<(u32, u32)>
        ensures { result ≡ first_wrong (is_owned self.now) self.now.extents }
    {
        for (at, _) in self.extents.iter() {
            if self.files.get(at.0).is_none() && !is_pending(at.0, self.operations.pending()) {
                return Some(*at);
            }
        }
        None
    }

    /// The first chunk that has a home at a copy number that its file doesn't have.
    pub(crate) fn too_many_copies(&self) -> Option<(u32, u32)>
        ensures { result ≡ first_wrong (keeps_copies self.now) self.now.extents }
    {
        for (at, chunk) in self.extents.iter() {
            if !are_within_head(self.files.get(at.0), chunk.as_slice()) {
                return Some(*at);
            }
        }
        None
    }

    /// The first chunk that has two homes of an extent on one disk.
    pub(crate) fn on_one_disk(&self) -> Option<(u32, u32)>
        ensures { result ≡ first_wrong is_on_disks self.now.extents }
    {
        for (at, chunk) in self.extents.iter() {
            if !are_on_disks_all(chunk.as_slice()) {
                return Some(*at);
            }
        }
        None
    }

    /// The first chunk that has a home on a disk of a quorum failure group.
    pub(crate) fn on_quorum(&self, entries: &[PstEntry]) -> Option<(u32, u32)>
        ensures { result ≡ first_wrong (is_regular_chunk entries.now) self.now.extents }
    {
        for (at, chunk) in self.extents.iter() {
            if !are_on_regular_all(entries, chunk.as_slice()) {
                return Some(*at);
            }
        }
        None
    }
}

pub fn is_pending(file: u32, op: Option<Pending>) -> bool
    ensures { result ≡ is_pending file op }
{
    match op {
        None => false,
        Some(op) => op.file == file,
    }
}

/// Whether no extent has a home at a copy number that the file, where it is there, doesn't have.
fn are_within_head(head: Option<&FileHead>, homes: &[Homes]) -> bool
    ensures { result ≡ are_within_head (option_copied head.entry) homes.now }
{
    match head {
        None => true,
        Some(head) => are_within_all(head.copies, homes),
    }
}

fn are_within_all(copies: u8, homes: &[Homes]) -> bool
    ensures { result ≡ list_all (are_within copies) homes.now }
{
    homes.iter().all(|extent| are_within(copies, extent))
}

/// Whether the extent has no home at a copy number that isn't below this one.
pub fn are_within(copies: u8, homes: &Homes) -> bool
    ensures { result ≡ are_within copies homes.now }
{
    let homes = *homes;
    (copies > 0 || homes.first.is_none())
        && (copies > 1 || homes.second.is_none())
        && (copies > 2 || homes.third.is_none())
}

fn are_on_disks_all(homes: &[Homes]) -> bool
    ensures { result ≡ list_all are_on_disks homes.now }
{
    homes.iter().all(|extent| are_on_disks(extent))
}

/// Whether the homes of an extent lie on different disks.
pub fn are_on_disks(homes: &Homes) -> bool
    ensures { result ≡ are_on_disks homes.now }
{
    let homes = *homes;
    are_on_two(homes.first, homes.second)
        && are_on_two(homes.first, homes.third)
        && are_on_two(homes.second, homes.third)
}

/// Whether two homes aren't both there on one disk.
fn are_on_two(a: Option<Home>, b: Option<Home>) -> bool
    ensures { result ≡ are_on_two a b }
{
    match (a, b) {
        (Some(a), Some(b)) => a.disk != b.disk,
        _ => true,
    }
}

fn are_on_regular_all(entries: &[PstEntry], homes: &[Homes]) -> bool
    ensures { result ≡ list_all (are_on_regular entries.now) homes.now }
{
    homes.iter().all(|extent| are_on_regular(entries, extent))
}

/// Whether no home of an extent lies on a disk of a quorum failure group.
fn are_on_regular(entries: &[PstEntry], homes: &Homes) -> bool
    ensures { result ≡ are_on_regular entries.now homes.now }
{
    let homes = *homes;
    is_on_regular(entries, homes.first)
        && is_on_regular(entries, homes.second)
        && is_on_regular(entries, homes.third)
}

fn is_on_regular(entries: &[PstEntry], home: Option<Home>) -> bool
    ensures { result ≡ is_on_regular entries.now home }
{
    match home {
        None => true,
        Some(home) => is_regular(entry_of(entries, home.disk)),
    }
}

/// Whether a disk, where it has an entry, is in no quorum failure group.
fn is_regular(entry: Option<PstEntry>) -> bool
    ensures { result ≡ is_regular entry }
{
    match entry {
        None => true,
        Some(entry) => !entry.quorum,
    }
}
