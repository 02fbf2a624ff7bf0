//! Steps, and what they have, of several files of rows.

use crate::answers::Answer;
use crate::facts::Fact;
use crate::steps::{Next, Piece, Step};
use asm_base::Mode;
use disk_modes::DropDisk;

pub const IS_MOUNTED: Step = Step::Tells(Fact::IsMounted(true));

pub const IS_NOT_MOUNTED: Step = Step::Tells(Fact::IsMounted(false));

/// A directory is made in the root.
pub const MAKE_A: Step = Step::CommitDir(b"+D/a", Answer::Done);

pub const HAS_A: Step = Step::Tells(Fact::HasDir(b"+D/a", true));

/// Disk 3 is taken Offline.
pub const OFFLINE: Next = Next::Mode(3, Mode::Offline);

/// File 256 is made, of four extents of a unit: by turns on disks 0 and 1, and on 2 and 3.
pub const MAKE: Step = Step::MakeFile(4, Answer::Done);

/// The whole of extent 0, which is on disks 0 and 1.
pub const FIRST: Piece = Piece(256, 0, 0, 4096);

/// The whole of extent 1, which is on disks 2 and 3.
pub const SECOND: Piece = Piece(256, 1, 0, 4096);

/// The whole of extent 3, which is on disks 2 and 3 too.
pub const FOURTH: Piece = Piece(256, 3, 0, 4096);

// The disks of a DROP, without FORCE and with it.
pub const D0: DropDisk = DropDisk {
    disk: 0,
    force: false,
};

pub const D1: DropDisk = DropDisk {
    disk: 1,
    force: false,
};

pub const D2: DropDisk = DropDisk {
    disk: 2,
    force: false,
};

pub const D3: DropDisk = DropDisk {
    disk: 3,
    force: false,
};

pub const F0: DropDisk = DropDisk {
    disk: 0,
    force: true,
};

pub const F1: DropDisk = DropDisk {
    disk: 1,
    force: true,
};

pub const F2: DropDisk = DropDisk {
    disk: 2,
    force: true,
};

pub const F3: DropDisk = DropDisk {
    disk: 3,
    force: true,
};
