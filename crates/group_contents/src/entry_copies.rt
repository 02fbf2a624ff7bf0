// Which copies of the extents of a written file were usable as the call began.
ghost use Rattle.std.specs.Prelude.{◌<◌};

use asm_base::{DiskSet, ExtentId, Home, Mode};
use file_extents::{Extent, Mounted};
use striping::units_of;

/// How many extents of a file are written by turns: those of a fine set.
const TURNS: usize = 8;

/// An extent that was met, and the disk of its first copy that was usable as the call began.
#[derive(Clone, Copy)]
struct Met {
    index: u32,
    first: Option<u8>,
}

/// The disks that served as a call on a file's bytes began, and of the extents that it met last the
/// copies that were usable then. An extent is met before it is written, so that its marks are those
/// that it had; a file's bytes go through a fine set, and never come back to it.
#[derive(Clone, Copy)]
pub(crate) struct EntryCopies {
    serving: DiskSet,
    met: [Option<Met>; TURNS],
}

impl EntryCopies {
    /// At the begin of a call.
    pub(crate) fn now(m: &Mounted) -> EntryCopies {
        EntryCopies {
            serving: serving_disks(m),
            met: [None; TURNS],
        }
    }

    /// The disk of the first copy of an extent that was usable as the call began. Each extent of
    /// the file is asked for before its first piece is written.
    pub(crate) fn first_of(&mut self, m: &Mounted, x: ExtentId) -> Option<u8> {
        let turn = x.index as usize % TURNS;
        if let Some(met) = self.met[turn] {
            if met.index == x.index {
                return met.first;
            }
        }
        let first = first_usable(m, x, self.serving);
        self.met[turn] = Some(Met {
            index: x.index,
            first,
        });
        first
    }
}

/// The disks whose modes serve.
fn serving_disks(m: &Mounted) -> DiskSet {
    let mut serving = DiskSet::empty();
    for entry in m.status().entries() {
        if entry.number < 64
            && matches!(entry.mode, Mode::Online | Mode::Syncing | Mode::Dropping)
        {
            serving = serving.with(entry.number);
        }
    }
    serving
}

/// The disk of the first copy of an extent that is usable where these disks serve.
fn first_usable(m: &Mounted, x: ExtentId, serving: DiskSet) -> Option<u8> {
    let catalog = m.catalog();
    let extent = Extent {
        id: x,
        homes: catalog.homes(x)?,
        marks: catalog.marks(x),
        copies: 3,
        units: units_of(catalog.shape().step, x.index as u64),
    };
    if let Some(disk) = usable_disk(m, &extent, 0, serving) {
        return Some(disk);
    }
    if let Some(disk) = usable_disk(m, &extent, 1, serving) {
        return Some(disk);
    }
    usable_disk(m, &extent, 2, serving)
}

/// The disk of a copy, if the copy isn't stale and lies, whole, on the image of one of these disks.
fn usable_disk(m: &Mounted, extent: &Extent, copy: u8, serving: DiskSet) -> Option<u8>
    requires { copy < 3 }
{
    let home = extent.home(copy)?;
    if home.disk >= 64 || extent.has_mark(copy) || !serving.has(home.disk) {
        return None;
    }
    if is_whole(m, home, extent.units) {
        Some(home.disk)
    } else {
        None
    }
}

/// Whether the disk of a home is attached, and its image has all units of the copy.
fn is_whole(m: &Mounted, home: Home, units: u32) -> bool
    requires { home.disk < 64 }
{
    let Some(_slot) = m.slot(home.disk) else {
        return false;
    };
    let Some(size) = m.size(home.disk) else {
        return false;
    };
    let au = m.catalog().shape().au as u64;
    match (home.unit as u64 + units as u64).checked_mul(au) {
        Some(end) => end <= size,
        None => false,
    }
}
