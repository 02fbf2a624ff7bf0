//! Which extents of a group lack a copy, and which would be lost with a disk.

ghost use Rattle.std.specs.Prelude.{◌≡◌, ◌≤◌, ◌<◌, ◌+◌, ◌^◌, [], length};
ghost use Rattle.std.specs.List.{find};
ghost use Rattle.extent_copies.specs.Extents.{copy_of};
ghost use Rattle.extent_copies.specs.Usable.{first_passing, is_current_at};
ghost use Rattle.asm_placement.specs.Copies.{home};
ghost use Rattle.catalog_laws.specs.catalog_tables.MarkedExtents.{is_home_on_disk};
ghost use Rattle.group_reports.specs.Extents.{all_extents, checked_of, chunk_extents, extent_there, extents_from, first_lost, has_copy, is_kept_elsewhere, is_only_on, with_extent_if_any};

use crate::extents::{extent_there, most_chunks};
use asm_base::{Home, Homes};
use catalog_laws::Catalog;
use extent_copies::Extent;
use status_table::{PstEntry, PstRecord};

/// How many extents there are, and how many of them aren't full.
#[derive(Clone, Copy, Debug, PartialEq, Eq)]
pub struct Checked {
    pub extents: u64,
    pub not_full: u64,
}

impl Checked {
    fn none() -> Checked
        ensures { result ≡ record { extents = 0; not_full = 0 } }
    {
        Checked {
            extents: 0,
            not_full: 0,
        }
    }

    fn plus(self, others: Checked) -> Checked
        requires extents { self.extents + others.extents < 2 ^ 64 }
        requires not_full { self.not_full + others.not_full < 2 ^ 64 }
        ensures { result ≡ record {
          extents = self.extents + others.extents;
          not_full = self.not_full + others.not_full;
        } }
    {
        Checked {
            extents: self.extents + others.extents,
            not_full: self.not_full + others.not_full,
        }
    }
}

/// How many extents the files of a group have, and how many of them aren't full: CHECK. It takes no
/// memory, and goes over the extents once.
pub fn check(catalog: &Catalog, status: &PstRecord) -> Checked
    ensures { result ≡ checked_of status.now.entries (all_extents catalog.now) }
{
    checked_by(catalog, status.entries())
}

#[tactic(auto, using(crate::proofs::Counting::chunk_counted, crate::proofs::Counting::chunks_counted, crate::proofs::Counting::counted_start))]
fn checked_by(catalog: &Catalog, disks: &[PstEntry]) -> Checked
    ensures { result ≡ checked_of disks.now (all_extents catalog.now) }
{
    // Its clause shows that there are few chunks.
    let _most = most_chunks(catalog);
    let mut checked = Checked::none();
    for (at, chunk) in catalog.chunks() {
        checked = checked.plus(checked_chunk(catalog, disks, *at, chunk.as_slice()));
    }
    checked
}

/// The same of a chunk.
fn checked_chunk(
    catalog: &Catalog,
    disks: &[PstEntry],
    at: (u32, u32),
    extents: &[Homes],
) -> Checked
    requires { length extents.now ≤ 256 }
    ensures checked { result ≡ checked_of disks.now (chunk_extents catalog.now (at, extents.now)) }
    ensures few { result.extents ≤ 256 }
    ensures fewer { result.not_full ≤ 256 }
{
    match catalog.copies_of(at.0) {
        Some(copies) => {
            let first = at.1 as u64 * 256;
            checked_row(catalog, disks, at.0, copies, first, extents)
        }
        None => Checked::none(),
    }
}

/// The same of some extents of a file, that have the numbers from one on.
#[tactic(auto, using(crate::proofs::Counting::row_counted, crate::proofs::Counting::rows_counted, crate::proofs::Counting::counted_start))]
fn checked_row(
    catalog: &Catalog,
    disks: &[PstEntry],
    file: u32,
    copies: u8,
    first: u64,
    extents: &[Homes],
) -> Checked
    requires copies { copies ≤ 3 }
    requires few { length extents.now ≤ 256 }
    requires numbers { first + 256 < 2 ^ 63 }
    ensures checked { result ≡ checked_of disks.now
        (extents_from catalog.now file copies first extents.now) }
    ensures few { result.extents ≤ 256 }
    ensures fewer { result.not_full ≤ 256 }
{
    let mut checked = Checked::none();
    let mut index = first;
    for homes in extents {
        checked = checked.plus(checked_one(catalog, disks, file, copies, index, homes));
        index += 1;
    }
    checked
}

fn checked_one(
    catalog: &Catalog,
    disks: &[PstEntry],
    file: u32,
    copies: u8,
    index: u64,
    homes: &Homes,
) -> Checked
    requires { copies ≤ 3 }
    ensures checked { result ≡ checked_of disks.now
        (with_extent_if_any (extent_there catalog.now file copies index homes.now) []) }
    ensures few { result.extents ≤ 1 }
    ensures fewer { result.not_full ≤ 1 }
{
    match extent_there(catalog, file, copies, index, homes) {
        Some(extent) => Checked {
            extents: 1,
            not_full: if extent.is_full(disks) { 0 } else { 1 },
        },
        None => Checked::none(),
    }
}

/// The first extent that has all its current copies on a disk, which would be lost if the disk were
/// dropped by force. It takes no memory, and goes over the extents up to there.
pub fn first_lost(catalog: &Catalog, status: &PstRecord, disk: u8) -> Option<Extent>
    ensures { result ≡ first_lost status.now.entries catalog.now disk }
{
    first_lost_by(catalog, status.entries(), disk)
}

#[tactic(auto, using(crate::proofs::Counting::chunk_not_lost, crate::proofs::Counting::chunk_lost))]
fn first_lost_by(catalog: &Catalog, disks: &[PstEntry], disk: u8) -> Option<Extent>
    ensures { result ≡ first_lost disks.now catalog.now disk }
{
    for (at, chunk) in catalog.chunks() {
        let found = lost_in_chunk(catalog, disks, disk, *at, chunk.as_slice());
        if found.is_some() {
            return found;
        }
    }
    None
}

fn lost_in_chunk(
    catalog: &Catalog,
    disks: &[PstEntry],
    disk: u8,
    at: (u32, u32),
    extents: &[Homes],
) -> Option<Extent>
    requires { length extents.now ≤ 256 }
    ensures { result ≡ find (is_only_on disks.now disk)
        (chunk_extents catalog.now (at, extents.now)) }
{
    let Some(copies) = catalog.copies_of(at.0) else {
        return None;
    };
    let first = at.1 as u64 * 256;
    lost_in_row(catalog, disks, disk, at.0, copies, first, extents)
}

#[tactic(auto, using(crate::proofs::Counting::row_not_lost, crate::proofs::Counting::row_lost))]
fn lost_in_row(
    catalog: &Catalog,
    disks: &[PstEntry],
    disk: u8,
    file: u32,
    copies: u8,
    first: u64,
    extents: &[Homes],
) -> Option<Extent>
    requires copies { copies ≤ 3 }
    requires few { length extents.now ≤ 256 }
    requires numbers { first + 256 < 2 ^ 63 }
    ensures { result ≡ find (is_only_on disks.now disk)
        (extents_from catalog.now file copies first extents.now) }
{
    let mut index = first;
    for homes in extents {
        let found = lost_there(catalog, disks, disk, file, copies, index, homes);
        if found.is_some() {
            return found;
        }
        index += 1;
    }
    None
}

fn lost_there(
    catalog: &Catalog,
    disks: &[PstEntry],
    disk: u8,
    file: u32,
    copies: u8,
    index: u64,
    homes: &Homes,
) -> Option<Extent>
    requires { copies ≤ 3 }
    ensures { result ≡ find (is_only_on disks.now disk)
        (with_extent_if_any (extent_there catalog.now file copies index homes.now) []) }
{
    let Some(extent) = extent_there(catalog, file, copies, index, homes) else {
        return None;
    };
    if is_only_on(disks, disk, &extent) {
        Some(extent)
    } else {
        None
    }
}

/// Whether the extent has a current copy, and all of them are on the disk.
fn is_only_on(disks: &[PstEntry], disk: u8, extent: &Extent) -> bool
    requires { extent.now.copies ≤ 3 }
    ensures { result ≡ is_only_on disks.now disk extent.now }
{
    has_current(disks, extent) && !is_kept_elsewhere(disks, disk, extent)
}

#[tactic(auto, using(extent_copies::proofs::Counting::first_more, extent_copies::proofs::Counting::first_found, extent_copies::proofs::Counting::first_end))]
fn has_current(disks: &[PstEntry], extent: &Extent) -> bool
    requires { extent.now.copies ≤ 3 }
    ensures { result ≡ has_copy (is_current_at disks.now extent.now) extent.now }
{
    for copy in 0..extent.copies {
        if extent.is_current(disks, copy) {
            return true;
        }
    }
    false
}

/// Whether a current copy is on another disk.
#[tactic(auto, using(extent_copies::proofs::Counting::first_more, extent_copies::proofs::Counting::first_found, extent_copies::proofs::Counting::first_end))]
fn is_kept_elsewhere(disks: &[PstEntry], disk: u8, extent: &Extent) -> bool
    requires { extent.now.copies ≤ 3 }
    ensures { result ≡ has_copy (is_kept_elsewhere disks.now disk extent.now) extent.now }
{
    for copy in 0..extent.copies {
        if is_copy_elsewhere(disks, disk, extent, copy) {
            return true;
        }
    }
    false
}

fn is_copy_elsewhere(disks: &[PstEntry], disk: u8, extent: &Extent, copy: u8) -> bool
    requires { copy < 3 }
    ensures { result ≡ is_kept_elsewhere disks.now disk extent.now copy }
{
    extent.is_current(disks, copy) && !lies_on(disk, extent.home(copy))
}

fn lies_on(disk: u8, home: Option<Home>) -> bool
    ensures { result ≡ is_home_on_disk disk home }
{
    match home {
        None => false,
        Some(home) => home.disk == disk,
    }
}
