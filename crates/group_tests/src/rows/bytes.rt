//! Rows on bytes of extents: who takes and gives them, what is recorded of disks that fail, and
//! which copies count then. File 256 has four extents of a unit, by turns on disks 0 and 1, and on
//! 2 and 3; the first unit of each disk for users is 270.

use crate::answers::Answer;
use crate::facts::{Copies, Fact};
use crate::rows::shared::{FIRST, FOURTH, IS_MOUNTED, IS_NOT_MOUNTED, MAKE, SECOND};
use crate::steps::{Next, Piece, Step, Wrong};
use crate::trials::{Then, play};
use asm_base::Mode;
use group_recovery::MountOption;
use std::alloc::Global;

/// Both copies are on Online disks.
const BOTH: Copies = Copies {
    online: 0b11,
    read: 0b11,
    fresh: 0b11,
    current: 0b11,
    usable: 0b11,
    first: Some(0),
    is_full: true,
};

/// The first is on a disk that isn't Online, and counts otherwise.
const NOT_FULL: Copies = Copies {
    online: 0b10,
    read: 0b11,
    fresh: 0b11,
    current: 0b11,
    usable: 0b11,
    first: Some(0),
    is_full: false,
};

/// The homes are chosen by turns.
const HOMES: [Step; 14] = [
    MAKE,
    Step::Tells(Fact::Home(0, 0, Some((0, 270)))),
    Step::Tells(Fact::Home(0, 1, Some((1, 270)))),
    Step::Tells(Fact::Home(0, 2, None)),
    Step::Tells(Fact::Home(1, 0, Some((2, 270)))),
    Step::Tells(Fact::Home(1, 1, Some((3, 270)))),
    Step::Tells(Fact::Home(2, 0, Some((0, 271)))),
    Step::Tells(Fact::Home(3, 1, Some((3, 271)))),
    Step::Tells(Fact::Home(4, 0, None)),
    Step::Tells(Fact::Copies(0, BOTH)),
    Step::Tells(Fact::Copies(1, BOTH)),
    Step::Tells(Fact::IsLost(0, false)),
    Step::Tells(Fact::IsLost(4, true)),
    Step::Read(Piece(256, 4, 0, 512), Answer::Lost(256, 4)),
];

/// Both copies take the bytes, and no others change.
const WRITTEN: [Step; 25] = [
    MAKE,
    Step::Read(SECOND, Answer::Bytes(0)),
    Step::Write(SECOND, 61, Answer::Done),
    Step::Read(SECOND, Answer::Bytes(61)),
    Step::Sector(2, 270, 0, Answer::Bytes(61)),
    Step::Sector(2, 270, 3584, Answer::Bytes(61)),
    Step::Sector(3, 270, 0, Answer::Bytes(61)),
    Step::Sector(3, 270, 3584, Answer::Bytes(61)),
    Step::Sector(2, 271, 0, Answer::Bytes(0)),
    Step::Sector(3, 271, 0, Answer::Bytes(0)),
    Step::Write(Piece(256, 1, 1024, 512), 62, Answer::Done),
    Step::Sector(2, 270, 512, Answer::Bytes(61)),
    Step::Sector(2, 270, 1024, Answer::Bytes(62)),
    Step::Sector(2, 270, 1536, Answer::Bytes(61)),
    Step::Sector(3, 270, 1024, Answer::Bytes(62)),
    Step::Read(Piece(256, 1, 1024, 512), Answer::Bytes(62)),
    Step::Read(Piece(256, 1, 512, 512), Answer::Bytes(61)),
    Step::Read(Piece(256, 1, 1536, 2560), Answer::Bytes(61)),
    Step::Tells(Fact::Marks(1, 0)),
    Step::Tells(Fact::Record(1, 1)),
    Step::WriteUsable(Piece(256, 1, 3584, 512), 63, Answer::Done),
    Step::Sector(2, 270, 3584, Answer::Bytes(63)),
    Step::Sector(3, 270, 3584, Answer::Bytes(63)),
    Step::Sector(3, 270, 3072, Answer::Bytes(61)),
    IS_MOUNTED,
];

const READ_AGAIN: Then = Then::Mount(
    MountOption::NoForce,
    &[
        Step::Read(Piece(256, 1, 1024, 512), Answer::Bytes(62)),
        Step::Read(Piece(256, 1, 3584, 512), Answer::Bytes(63)),
    ],
);

/// The other copy takes the bytes: that of disk 3 is stale, and disk 3 Offline, for the seconds of
/// the attribute. Later writes pass it, and mark its copies.
const COPY_FAILS: [Step; 27] = [
    MAKE,
    Step::Write(SECOND, 61, Answer::Done),
    Step::FlyTo(0, 0, (2, 300), 0),
    Step::Fails(3, true),
    Step::Write(SECOND, 62, Answer::Failed(0b1000)),
    IS_MOUNTED,
    Step::Tells(Fact::Marks(1, 0b10)),
    Step::Tells(Fact::Marks(3, 0)),
    Step::Tells(Fact::Mode(3, Some(Mode::Offline))),
    Step::Tells(Fact::Since(3, 7, 12_960)),
    Step::Tells(Fact::Record(1, 2)),
    Step::Tells(Fact::Dirs(0b111)),
    Step::Tells(Fact::IsMoving(false)),
    Step::Tells(Fact::Copies(
        1,
        Copies {
            online: 0b1,
            read: 0b1,
            fresh: 0b1,
            current: 0b1,
            usable: 0b1,
            first: Some(0),
            is_full: false,
        },
    )),
    Step::Tells(Fact::Copies(0, BOTH)),
    Step::Fails(3, false),
    Step::Sector(2, 270, 0, Answer::Bytes(62)),
    Step::Sector(3, 270, 0, Answer::Bytes(61)),
    Step::Read(SECOND, Answer::Bytes(62)),
    Step::Write(SECOND, 63, Answer::Done),
    Step::Sector(3, 270, 0, Answer::Bytes(61)),
    Step::Tells(Fact::Record(1, 2)),
    Step::Write(FOURTH, 64, Answer::Done),
    Step::Tells(Fact::Marks(3, 0b10)),
    Step::Tells(Fact::Record(1, 2)),
    Step::Sector(2, 271, 0, Answer::Bytes(64)),
    Step::Sector(3, 271, 0, Answer::Bytes(0)),
];

const STALE_STILL: Then = Then::Mount(
    MountOption::NoForce,
    &[
        Step::Tells(Fact::Marks(1, 0b10)),
        Step::Tells(Fact::Mode(3, Some(Mode::Offline))),
        Step::Read(SECOND, Answer::Bytes(63)),
    ],
);

/// Disk 2 has a directory copy besides, which the marks don't reach, so a record without it comes
/// before that of the mode.
const FIRST_FAILS: [Step; 9] = [
    MAKE,
    Step::Fails(2, true),
    Step::Write(SECOND, 62, Answer::Failed(0b100)),
    Step::Tells(Fact::Marks(1, 0b1)),
    Step::Tells(Fact::Mode(2, Some(Mode::Offline))),
    Step::Tells(Fact::Dirs(0b11)),
    Step::Tells(Fact::Record(1, 3)),
    Step::Fails(2, false),
    Step::Read(SECOND, Answer::Bytes(62)),
];

/// Nothing is recorded where no copy took the bytes. The disk of the first is named.
const ALL_FAIL: [Step; 14] = [
    MAKE,
    Step::Write(SECOND, 61, Answer::Done),
    Step::Fails(2, true),
    Step::Fails(3, true),
    Step::Write(SECOND, 62, Answer::WriteFault(2)),
    Step::WriteUsable(SECOND, 62, Answer::WriteFault(2)),
    Step::Read(SECOND, Answer::ReadFault(2)),
    IS_MOUNTED,
    Step::Tells(Fact::Marks(1, 0)),
    Step::Tells(Fact::Mode(2, Some(Mode::Online))),
    Step::Tells(Fact::Record(1, 1)),
    Step::Fails(2, false),
    Step::WriteUsable(SECOND, 63, Answer::Failed(0b1000)),
    Step::Tells(Fact::Marks(1, 0)),
];

/// The one copy is stale, and the disk of the other Offline.
const LOST: [Step; 21] = [
    MAKE,
    Step::Write(SECOND, 61, Answer::Done),
    Step::Fails(3, true),
    Step::Write(SECOND, 62, Answer::Failed(0b1000)),
    Step::Fails(3, false),
    Step::Tells(Fact::IsLost(1, false)),
    Step::Record(Next::Mode(2, Mode::Offline), Answer::Done),
    Step::Tells(Fact::IsLost(1, true)),
    Step::Tells(Fact::IsLost(0, false)),
    Step::Read(SECOND, Answer::Lost(256, 1)),
    Step::Write(SECOND, 63, Answer::Lost(256, 1)),
    Step::WriteUsable(SECOND, 63, Answer::Lost(256, 1)),
    Step::CopyPiece(SECOND, (0, 300), Answer::Nowhere),
    Step::Sector(2, 270, 0, Answer::Bytes(62)),
    Step::Sector(3, 270, 0, Answer::Bytes(61)),
    Step::Tells(Fact::Copies(
        1,
        Copies {
            online: 0,
            read: 0,
            fresh: 0b1,
            current: 0b1,
            usable: 0,
            first: None,
            is_full: false,
        },
    )),
    Step::Record(Next::Mode(3, Mode::Online), Answer::Done),
    Step::Read(SECOND, Answer::Lost(256, 1)),
    Step::Tells(Fact::Marks(1, 0b10)),
    Step::Record(Next::Mode(2, Mode::Syncing), Answer::Done),
    Step::Read(SECOND, Answer::Bytes(62)),
];

/// The marks are committed on no more than one copy, and no majority takes the record that says so.
const MARKS_UNWRITTEN: [Step; 7] = [
    MAKE,
    Step::Fails(1, true),
    Step::Fails(2, true),
    Step::Write(FIRST, 61, Answer::Dismounted(0b110)),
    IS_NOT_MOUNTED,
    Step::Fails(1, false),
    Step::Fails(2, false),
];

/// The copy on disk 1 lacks the bytes, so the disk isn't Online.
const MARKED: Then = Then::Mount(
    MountOption::NoForce,
    &[
        Step::Tells(Fact::Dirs(0b1)),
        Step::Tells(Fact::Marks(0, 0b10)),
        Step::Tells(Fact::Mode(1, Some(Mode::Syncing))),
        Step::Read(FIRST, Answer::Bytes(61)),
    ],
);

/// The marks are committed, and no majority takes the record of the mode. It stands on disk 2, and
/// is the greatest that a mount reads.
const MODE_UNWRITTEN: [Step; 10] = [
    MAKE,
    Step::Record(Next::Dirs(0b100), Answer::Done),
    Step::Fails(0, true),
    Step::Fails(1, true),
    Step::Fails(3, true),
    Step::Write(SECOND, 61, Answer::Dismounted(0b11)),
    IS_NOT_MOUNTED,
    Step::Fails(0, false),
    Step::Fails(1, false),
    Step::Fails(3, false),
];

const MARKED_SECOND: Then = Then::Mount(
    MountOption::NoForce,
    &[
        Step::Tells(Fact::Marks(1, 0b10)),
        Step::Tells(Fact::Mode(3, Some(Mode::Offline))),
        Step::Read(SECOND, Answer::Bytes(61)),
    ],
);

/// A group that takes no calls.
const SHUT: [Step; 5] = [
    MAKE,
    Step::Close,
    Step::Write(SECOND, 61, Answer::NoMemory),
    Step::Sector(2, 270, 0, Answer::Bytes(0)),
    Step::Sector(3, 270, 0, Answer::Bytes(0)),
];

/// A copy that doesn't read gives way to the next that is usable, whatever that holds.
const NEXT_COPY: [Step; 23] = [
    MAKE,
    Step::Write(SECOND, 61, Answer::Done),
    Step::WriteSpare((3, 270), 0, 4096, 62, Answer::Done),
    Step::Read(SECOND, Answer::Bytes(61)),
    Step::Fails(2, true),
    Step::Read(SECOND, Answer::Bytes(62)),
    Step::Fails(3, true),
    Step::Read(SECOND, Answer::ReadFault(2)),
    Step::Fails(2, false),
    Step::Read(SECOND, Answer::Bytes(61)),
    Step::Fails(3, false),
    Step::FailsAt(1),
    Step::Read(SECOND, Answer::Bytes(62)),
    Step::Tells(Fact::Record(1, 1)),
    Step::Tells(Fact::Marks(1, 0)),
    Step::Record(Next::Mode(2, Mode::Dropping), Answer::Done),
    Step::Read(SECOND, Answer::Bytes(61)),
    Step::Record(Next::Mode(2, Mode::Syncing), Answer::Done),
    Step::Read(SECOND, Answer::Bytes(61)),
    Step::Record(Next::Mode(2, Mode::Forced), Answer::Done),
    Step::Read(SECOND, Answer::Bytes(62)),
    Step::Record(Next::Mode(2, Mode::Offline), Answer::Done),
    Step::Read(SECOND, Answer::Bytes(62)),
];

/// Which copies count by the modes of their disks.
const COUNTED: [Step; 9] = [
    MAKE,
    Step::Record(Next::Mode(2, Mode::Dropping), Answer::Done),
    Step::Tells(Fact::Copies(1, NOT_FULL)),
    Step::Record(Next::Mode(2, Mode::Syncing), Answer::Done),
    Step::Tells(Fact::Copies(1, NOT_FULL)),
    Step::Record(Next::Mode(2, Mode::Forced), Answer::Done),
    Step::Tells(Fact::Copies(
        1,
        Copies {
            online: 0b10,
            read: 0b10,
            fresh: 0b11,
            current: 0b10,
            usable: 0b10,
            first: Some(1),
            is_full: false,
        },
    )),
    Step::Record(Next::Mode(2, Mode::Offline), Answer::Done),
    Step::Tells(Fact::Copies(
        1,
        Copies {
            online: 0b10,
            read: 0b10,
            fresh: 0b11,
            current: 0b11,
            usable: 0b10,
            first: Some(1),
            is_full: false,
        },
    )),
];

/// Regular failure groups serve whose disk stays in the group. Templates are found by the type, or
/// by their name, in any case.
const NEW_FILES: [Step; 14] = [
    Step::Tells(Fact::ServingGroups(4)),
    Step::Record(Next::Mode(3, Mode::Dropping), Answer::Done),
    Step::Tells(Fact::ServingGroups(3)),
    Step::Record(Next::Mode(2, Mode::Forced), Answer::Done),
    Step::Tells(Fact::ServingGroups(2)),
    Step::Record(Next::Mode(2, Mode::Offline), Answer::Done),
    Step::Record(Next::Mode(3, Mode::Syncing), Answer::Done),
    Step::Tells(Fact::ServingGroups(4)),
    Step::Tells(Fact::Template(b"DATAFILE", None, Some(2))),
    Step::Tells(Fact::Template(b"controlfile", None, Some(3))),
    Step::Tells(Fact::Template(b"SCRATCH", None, None)),
    Step::Tells(Fact::Template(b"SCRATCH", Some(b"datafile"), Some(2))),
    Step::Tells(Fact::Template(b"DATAFILE", Some(b"CONTROLFILE"), Some(3))),
    Step::Tells(Fact::Template(b"DATAFILE", Some(b"SCRATCH"), None)),
];

/// The new copy of a move takes what is written, as far as it was copied. Where it doesn't, the
/// move is given up and nothing else.
const FOLLOWED: [Step; 19] = [
    MAKE,
    Step::FlyTo(0, 0, (3, 300), 2048),
    Step::Write(FIRST, 61, Answer::Done),
    Step::Sector(3, 300, 0, Answer::Bytes(61)),
    Step::Sector(3, 300, 1536, Answer::Bytes(61)),
    Step::Sector(3, 300, 2048, Answer::Bytes(0)),
    Step::Sector(0, 270, 2048, Answer::Bytes(61)),
    Step::Write(Piece(256, 0, 2048, 512), 62, Answer::Done),
    Step::Sector(3, 300, 2048, Answer::Bytes(0)),
    Step::Write(SECOND, 63, Answer::Done),
    Step::Sector(3, 300, 0, Answer::Bytes(61)),
    Step::Tells(Fact::Copied(2048)),
    Step::Read(Piece(256, 0, 2048, 512), Answer::Bytes(62)),
    Step::Fails(3, true),
    Step::Write(FIRST, 64, Answer::Done),
    Step::Tells(Fact::IsMoving(false)),
    Step::Tells(Fact::Mode(3, Some(Mode::Online))),
    Step::Tells(Fact::Marks(0, 0)),
    Step::Tells(Fact::Record(1, 1)),
];

/// Bytes of a free unit are written there alone.
const SPARE: [Step; 10] = [
    MAKE,
    Step::WriteSpare((3, 300), 512, 1024, 61, Answer::Done),
    Step::Sector(3, 300, 0, Answer::Bytes(0)),
    Step::Sector(3, 300, 512, Answer::Bytes(61)),
    Step::Sector(3, 300, 1024, Answer::Bytes(61)),
    Step::Sector(3, 300, 1536, Answer::Bytes(0)),
    Step::Sector(2, 300, 512, Answer::Bytes(0)),
    Step::Fails(3, true),
    Step::WriteSpare((3, 300), 0, 512, 62, Answer::WriteFault(3)),
    Step::Tells(Fact::Record(1, 1)),
];

/// Bytes go to a home, from the first copy that reads. Nothing is recorded.
const COPIED: [Step; 24] = [
    MAKE,
    Step::Write(SECOND, 61, Answer::Done),
    Step::WriteSpare((3, 270), 0, 4096, 62, Answer::Done),
    Step::CopyPiece(SECOND, (0, 300), Answer::Done),
    Step::Sector(0, 300, 0, Answer::Bytes(61)),
    Step::Sector(0, 300, 3584, Answer::Bytes(61)),
    Step::CopyPiece(Piece(256, 1, 1024, 512), (0, 301), Answer::Done),
    Step::Sector(0, 301, 512, Answer::Bytes(0)),
    Step::Sector(0, 301, 1024, Answer::Bytes(61)),
    Step::Sector(0, 301, 1536, Answer::Bytes(0)),
    Step::Fails(2, true),
    Step::CopyPiece(SECOND, (0, 301), Answer::Done),
    Step::Sector(0, 301, 0, Answer::Bytes(62)),
    Step::Fails(0, true),
    Step::CopyPiece(SECOND, (0, 301), Answer::WriteFault(0)),
    Step::Fails(3, true),
    Step::CopyPiece(SECOND, (0, 301), Answer::ReadFault(2)),
    Step::Fails(2, false),
    Step::CopyPiece(SECOND, (4, 300), Answer::Nowhere),
    Step::CopyPiece(SECOND, (64, 300), Answer::Nowhere),
    Step::CopyPiece(SECOND, (1, 269), Answer::Nowhere),
    Step::CopyPiece(SECOND, (1, 1024), Answer::Nowhere),
    Step::Tells(Fact::Marks(1, 0)),
    Step::Tells(Fact::Record(1, 1)),
];

fn play_writes(alloc: Global) -> Result<(), Wrong> {
    play(alloc, "homes", &HOMES, Then::Ends)?;
    play(alloc, "piece is written", &WRITTEN, READ_AGAIN)?;
    play(alloc, "copy fails", &COPY_FAILS, STALE_STILL)?;
    play(alloc, "first copy fails", &FIRST_FAILS, Then::Ends)?;
    play(alloc, "both copies fail", &ALL_FAIL, Then::Ends)?;
    play(alloc, "extent is lost", &LOST, Then::Ends)?;
    play(alloc, "marks aren't written", &MARKS_UNWRITTEN, MARKED)?;
    play(alloc, "mode isn't written", &MODE_UNWRITTEN, MARKED_SECOND)?;
    play(alloc, "piece of a closed group", &SHUT, Then::Ends)
}

pub fn play_bytes(alloc: Global) -> Result<(), Wrong> {
    play_writes(alloc)?;
    play(alloc, "next copy", &NEXT_COPY, Then::Ends)?;
    play(alloc, "copies that count", &COUNTED, Then::Ends)?;
    play(alloc, "copies of new files", &NEW_FILES, Then::Ends)?;
    play(alloc, "move follows", &FOLLOWED, Then::Ends)?;
    play(alloc, "spare bytes", &SPARE, Then::Ends)?;
    play(alloc, "bytes are copied", &COPIED, Then::Ends)
}
