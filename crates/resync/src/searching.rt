// The extents of which a stale copy lies on a disk.
ghost use Rattle.std.specs.Prelude.{◌≡◌, ◌<◌, IfSome, IsTrue};
ghost use Rattle.asm_group.specs.Shape.{is_shape};

use asm_base::{ExtentId, Home};
use file_extents::{Catalog, Mounted, is_lost};

/// Where the search for stale copies goes on, and what it passed over.
#[derive(Clone, Copy)]
pub(crate) struct Search {
    /// The extent from which on it goes; none behind the last.
    pub(crate) from: Option<ExtentId>,
    /// The first extent that it passed over, since no copy of it is usable.
    pub(crate) left: Option<ExtentId>,
}

/// The search from the first extent on.
pub(crate) fn start() -> Search {
    Search {
        from: Some(ExtentId { file: 0, index: 0 }),
        left: None,
    }
}

/// A stale copy of an extent.
#[derive(Clone, Copy)]
pub(crate) struct StaleCopy {
    pub(crate) copy: u8,
    pub(crate) home: Home,
}

/// The extent behind one, whether it is there or not.
fn behind(x: ExtentId) -> Option<ExtentId> {
    if x.index < u32::MAX {
        return Some(ExtentId {
            file: x.file,
            index: x.index + 1,
        });
    }
    if x.file < u32::MAX {
        return Some(ExtentId {
            file: x.file + 1,
            index: 0,
        });
    }
    None
}

/// The next extent of which a stale copy lies on a disk, and another copy is usable. Those without
/// such a copy are passed over.
pub(crate) fn next_stale(m: &Mounted, disk: u8, search: &mut Search) -> Option<ExtentId>
    requires shape { IsTrue (is_shape m.now.catalog.shape) }
{
    for _ in 0..u64::MAX {
        let from = search.from?;
        let x = m.catalog().marked_from(disk, from)?;
        search.from = behind(x);
        if !is_lost(m, x) {
            return Some(x);
        }
        if search.left.is_none() {
            search.left = Some(x);
        }
    }
    None
}

/// The stale copy of an extent that lies on a disk.
pub(crate) fn stale_copy(catalog: &Catalog, x: ExtentId, disk: u8) -> Option<StaleCopy>
    ensures copy { IfSome result (λ stale. stale.copy < 3) }
    ensures disk { IfSome result (λ stale. stale.home.disk ≡ disk) }
{
    let homes = catalog.homes(x)?;
    let marks = catalog.marks(x);
    if let Some(home) = stale_at(homes.first, marks, 0, disk) {
        return Some(StaleCopy { copy: 0, home });
    }
    if let Some(home) = stale_at(homes.second, marks, 1, disk) {
        return Some(StaleCopy { copy: 1, home });
    }
    let home = stale_at(homes.third, marks, 2, disk)?;
    Some(StaleCopy { copy: 2, home })
}

/// The home of a copy, where that has a mark and lies on a disk.
fn stale_at(home: Option<Home>, marks: u8, copy: u8, disk: u8) -> Option<Home>
    requires { copy < 3 }
    ensures { IfSome result (λ home. home.disk ≡ disk) }
{
    let home = home?;
    if home.disk == disk && marks >> copy & 1 == 1 {
        Some(home)
    } else {
        None
    }
}
