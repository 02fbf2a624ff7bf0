// Which extent would be lost with some disks.
ghost use Rattle.std.specs.Prelude.{◌≡◌, ◌<◌, ◌≤◌, ◌+◌, ◌^◌, [], find, get_or, length, None};
ghost use Rattle.group_reports.specs.Extents.{chunk_extents, extent_there, extents_from, with_extent_if_any};
ghost use Rattle.disk_modes.specs.Losing.{counts, first_losing, is_elsewhere, is_surviving_copy, is_losing, some_copy};

use asm_base::{DiskSet, Home, Homes};
use group_reports::{Catalog, Extent, extent_there};
use status_table::PstEntry;

/// Which copies of an extent count.
#[derive(Clone, Copy)]
pub enum Counted {
    /// Those that serve now, where these disks are attached.
    Usable { attached: DiskSet },
    /// Those that aren't stale, on disks that aren't Forced.
    Current,
}

/// The first extent that has copies that count, all of them on these disks. It goes over the
/// extents up to there, by file and index, and takes no memory.
pub(crate) fn first_losing(
    catalog: &Catalog,
    disks: &[PstEntry],
    counted: &Counted,
    named: DiskSet,
) -> Option<Extent>
    ensures { result ≡ first_losing counted.now disks.now named catalog.now }
{
    for (at, chunk) in catalog.chunks() {
        let found = losing_in_chunk(catalog, disks, counted, named, *at, chunk.as_slice());
        if found.is_some() {
            return found;
        }
    }
    None
}

fn losing_in_chunk(
    catalog: &Catalog,
    disks: &[PstEntry],
    counted: &Counted,
    named: DiskSet,
    at: (u32, u32),
    extents: &[Homes],
) -> Option<Extent>
    requires { length extents.now ≤ 256 }
    ensures { result ≡ find (is_losing counted.now disks.now named)
        (chunk_extents catalog.now (at, extents.now)) }
{
    let Some(copies) = catalog.copies_of(at.0) else {
        return None;
    };
    let first = at.1 as u64 * 256;
    losing_in_row(catalog, disks, counted, named, at.0, copies, first, extents)
}

fn losing_in_row(
    catalog: &Catalog,
    disks: &[PstEntry],
    counted: &Counted,
    named: DiskSet,
    file: u32,
    copies: u8,
    first: u64,
    extents: &[Homes],
) -> Option<Extent>
    requires copies { copies ≤ 3 }
    requires few { length extents.now ≤ 256 }
    requires numbers { first + 256 < 2 ^ 63 }
    ensures { result ≡ find (is_losing counted.now disks.now named)
        (extents_from catalog.now file copies first extents.now) }
{
    let mut index = first;
    for homes in extents {
        let found = losing_there(catalog, disks, counted, named, file, copies, index, homes);
        if found.is_some() {
            return found;
        }
        index += 1;
    }
    None
}

fn losing_there(
    catalog: &Catalog,
    disks: &[PstEntry],
    counted: &Counted,
    named: DiskSet,
    file: u32,
    copies: u8,
    index: u64,
    homes: &Homes,
) -> Option<Extent>
    requires { copies ≤ 3 }
    ensures { result ≡ find (is_losing counted.now disks.now named)
        (with_extent_if_any (extent_there catalog.now file copies index homes.now) []) }
{
    let Some(extent) = extent_there(catalog, file, copies, index, homes) else {
        return None;
    };
    if is_losing(disks, counted, named, &extent) {
        Some(extent)
    } else {
        None
    }
}

/// Whether the extent has a copy that counts, and all of them are on the disks.
fn is_losing(disks: &[PstEntry], counted: &Counted, named: DiskSet, extent: &Extent) -> bool
    ensures { result ≡ is_losing counted.now disks.now named extent.now }
{
    has_counted(disks, counted, extent) && !is_kept(disks, counted, named, extent)
}

fn has_counted(disks: &[PstEntry], counted: &Counted, extent: &Extent) -> bool
    ensures { result ≡ some_copy (counts counted.now disks.now extent.now) }
{
    counts(disks, counted, extent, 0)
        || counts(disks, counted, extent, 1)
        || counts(disks, counted, extent, 2)
}

fn counts(disks: &[PstEntry], counted: &Counted, extent: &Extent, copy: u8) -> bool
    requires { copy < 3 }
    ensures { result ≡ counts counted.now disks.now extent.now copy }
{
    match *counted {
        Counted::Usable { attached } => extent.is_usable(disks, attached, copy),
        Counted::Current => extent.is_current(disks, copy),
    }
}

/// Whether a copy that counts is on none of the disks.
fn is_kept(disks: &[PstEntry], counted: &Counted, named: DiskSet, extent: &Extent) -> bool
    ensures { result ≡ some_copy (is_surviving_copy counted.now disks.now named extent.now) }
{
    is_kept_copy(disks, counted, named, extent, 0)
        || is_kept_copy(disks, counted, named, extent, 1)
        || is_kept_copy(disks, counted, named, extent, 2)
}

fn is_kept_copy(
    disks: &[PstEntry],
    counted: &Counted,
    named: DiskSet,
    extent: &Extent,
    copy: u8,
) -> bool
    requires { copy < 3 }
    ensures { result ≡ is_surviving_copy counted.now disks.now named extent.now copy }
{
    is_elsewhere(named, extent.home(copy)) && counts(disks, counted, extent, copy)
}

/// Whether the home is there, and on none of the disks.
fn is_elsewhere(disks: DiskSet, home: Option<Home>) -> bool
    ensures { result ≡ is_elsewhere disks home }
{
    match home {
        Some(home) => !disks.has(home.disk),
        None => false,
    }
}
