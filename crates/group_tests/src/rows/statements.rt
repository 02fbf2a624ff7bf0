//! Rows on statements on disks: modes, units and the rebalance, each refusal in its order, and what
//! the statements name. File 256 has four extents of a unit, by turns on disks 0 and 1, and on 2
//! and 3.

use crate::answers::Answer;
use crate::facts::Fact;
use crate::rows::shared::{D0, D1, D2, D3, F0, F1, F2, F3, FIRST, MAKE, SECOND};
use crate::steps::{Next, Statement, Step, Wrong};
use crate::trials::{Then, play};
use asm_base::Mode;
use disk_modes::GroupSort;
use group_recovery::MountOption;
use std::alloc::Global;

const UNIT: u64 = 4096;

/// OFFLINE takes Online disks, for the seconds that are said or those of the attribute, and their
/// directory copies with them. Partners stay.
const OFFLINE: [Step; 17] = [
    Step::FlyTo(0, 0, (3, 300), 0),
    Step::State(Statement::Offline(0b1000, None), Answer::Done),
    Step::Tells(Fact::Mode(3, Some(Mode::Offline))),
    Step::Tells(Fact::Since(3, 5, 12_960)),
    Step::Tells(Fact::Record(1, 2)),
    Step::Tells(Fact::Dirs(0b111)),
    Step::Tells(Fact::IsMoving(false)),
    Step::Tells(Fact::Sets(0b111, 0b1000)),
    Step::Tells(Fact::Partners(0, 0b1110)),
    Step::State(
        Statement::Offline(0b1000, None),
        Answer::DiskState(3, Mode::Offline),
    ),
    Step::State(
        Statement::Offline(0b1100, None),
        Answer::DiskState(3, Mode::Offline),
    ),
    Step::Tells(Fact::Record(1, 2)),
    Step::State(Statement::Offline(0b100, Some(300)), Answer::Done),
    Step::Tells(Fact::Since(2, 5, 300)),
    Step::Tells(Fact::Dirs(0b11)),
    Step::Tells(Fact::Record(1, 3)),
    Step::Tells(Fact::Rebalance(None)),
];

const OFFLINE_STILL: Then = Then::Mount(
    MountOption::NoForce,
    &[
        Step::Tells(Fact::Mode(2, Some(Mode::Offline))),
        Step::Tells(Fact::Mode(3, Some(Mode::Offline))),
        Step::Tells(Fact::Dirs(0b11)),
        Step::Tells(Fact::Since(2, 5, 300)),
    ],
);

/// The disks may not have all directory copies. The least that has one is named.
const ALL_COPIES: [Step; 9] = [
    Step::State(Statement::Offline(0b111, None), Answer::HoldsDirectories(0)),
    Step::State(
        Statement::Offline(0b1111, None),
        Answer::HoldsDirectories(0),
    ),
    Step::Record(Next::Dirs(0b10), Answer::Done),
    Step::State(Statement::Offline(0b10, None), Answer::HoldsDirectories(1)),
    Step::State(Statement::Offline(0b111, None), Answer::HoldsDirectories(1)),
    Step::Tells(Fact::Mode(1, Some(Mode::Online))),
    Step::Tells(Fact::Record(1, 2)),
    Step::State(Statement::Offline(0b1101, None), Answer::Done),
    Step::Tells(Fact::Dirs(0b10)),
];

/// Each extent keeps a usable copy. The mode of a disk is asked first, then the directory copies.
const LOSING: [Step; 11] = [
    MAKE,
    Step::State(Statement::Offline(0b1100, None), Answer::WouldLose(256, 1)),
    Step::State(Statement::Offline(0b11, None), Answer::WouldLose(256, 0)),
    Step::State(Statement::Offline(0b1011, None), Answer::WouldLose(256, 0)),
    Step::State(Statement::Offline(0b111, None), Answer::HoldsDirectories(0)),
    Step::Tells(Fact::Record(1, 1)),
    Step::State(Statement::Offline(0b1000, None), Answer::Done),
    // The copy on disk 3 is current, and not usable.
    Step::State(Statement::Offline(0b100, None), Answer::WouldLose(256, 1)),
    Step::State(
        Statement::Offline(0b1111, None),
        Answer::DiskState(3, Mode::Offline),
    ),
    Step::Tells(Fact::Mode(2, Some(Mode::Online))),
    Step::Tells(Fact::Record(1, 2)),
];

/// No majority takes the record.
const OFFLINE_UNWRITTEN: [Step; 4] = [
    Step::Fails(0, true),
    Step::Fails(1, true),
    Step::State(Statement::Offline(0b1000, None), Answer::Dismounted(0b11)),
    Step::Tells(Fact::Dismounted(0b11)),
];

/// DROP takes Online disks, which have no partners then, and UNDROP gives them back. It makes a
/// rebalance of power 1 active also where no disk is being dropped.
const DROP: [Step; 27] = [
    MAKE,
    Step::FlyTo(0, 0, (2, 300), 0),
    Step::Tells(Fact::Partners(3, 0b111)),
    Step::State(Statement::Drop(&[D3], 4), Answer::Done),
    Step::Tells(Fact::Mode(3, Some(Mode::Dropping))),
    Step::Tells(Fact::Rebalance(Some(4))),
    Step::Tells(Fact::Rebalances(true)),
    Step::Tells(Fact::Record(1, 2)),
    Step::Tells(Fact::Dirs(0b111)),
    Step::Tells(Fact::IsMoving(false)),
    Step::Tells(Fact::Partners(0, 0b110)),
    Step::Tells(Fact::Partners(3, 0)),
    Step::Tells(Fact::Sets(0b1111, 0)),
    Step::Tells(Fact::ServingGroups(3)),
    Step::State(
        Statement::Drop(&[D3], 5),
        Answer::DiskState(3, Mode::Dropping),
    ),
    Step::Tells(Fact::Rebalance(Some(4))),
    Step::FlyTo(0, 0, (2, 300), 0),
    Step::State(Statement::Undrop, Answer::Done),
    Step::Tells(Fact::Mode(3, Some(Mode::Online))),
    Step::Tells(Fact::Rebalance(Some(1))),
    Step::Tells(Fact::Record(1, 3)),
    Step::Tells(Fact::IsMoving(false)),
    Step::Tells(Fact::Partners(3, 0b111)),
    Step::State(Statement::Rebalance(Some(7)), Answer::Done),
    Step::State(Statement::Undrop, Answer::Done),
    Step::Tells(Fact::Rebalance(Some(1))),
    Step::Tells(Fact::Record(1, 3)),
];

/// The first disk of the statement that isn't Online is named.
const DROP_MODES: [Step; 7] = [
    Step::State(Statement::Offline(0b1000, None), Answer::Done),
    Step::State(Statement::Drop(&[D2], 0), Answer::Done),
    Step::Tells(Fact::Rebalances(false)),
    Step::State(
        Statement::Drop(&[D3, D2], 1),
        Answer::DiskState(3, Mode::Offline),
    ),
    Step::State(
        Statement::Drop(&[D2, D3], 1),
        Answer::DiskState(2, Mode::Dropping),
    ),
    Step::State(
        Statement::Drop(&[D1, D3], 1),
        Answer::DiskState(3, Mode::Offline),
    ),
    Step::Tells(Fact::Mode(1, Some(Mode::Online))),
];

/// FORCE takes all modes but Forced, and the directory copies of the disks.
const FORCE: [Step; 18] = [
    Step::State(Statement::Drop(&[F3], 2), Answer::Done),
    Step::Tells(Fact::Mode(3, Some(Mode::Forced))),
    Step::Tells(Fact::Rebalance(Some(2))),
    Step::Tells(Fact::Dirs(0b111)),
    Step::Tells(Fact::Partners(0, 0b110)),
    Step::Tells(Fact::Sets(0b111, 0)),
    Step::State(
        Statement::Drop(&[F3], 2),
        Answer::DiskState(3, Mode::Forced),
    ),
    Step::State(Statement::Offline(0b100, None), Answer::Done),
    Step::State(Statement::Drop(&[F2], 3), Answer::Done),
    Step::Tells(Fact::Mode(2, Some(Mode::Forced))),
    Step::Tells(Fact::Dirs(0b11)),
    Step::State(Statement::Drop(&[F1, F0], 1), Answer::HoldsDirectories(0)),
    Step::State(Statement::Drop(&[D0], 1), Answer::TooFewGroups(2, 1)),
    Step::Tells(Fact::Mode(0, Some(Mode::Online))),
    Step::Tells(Fact::Rebalance(Some(3))),
    Step::State(Statement::Drop(&[F0], 1), Answer::Done),
    Step::Tells(Fact::Dirs(0b10)),
    Step::State(Statement::Drop(&[F1], 1), Answer::HoldsDirectories(1)),
];

/// Each extent keeps a current copy, on whatever disk: that is asked of the disks with FORCE alone,
/// behind the directory copies and before the failure groups.
const FORCE_LOSES: [Step; 10] = [
    MAKE,
    Step::State(Statement::Drop(&[F2, F3], 1), Answer::WouldLose(256, 1)),
    Step::State(Statement::Drop(&[F0, F1], 1), Answer::WouldLose(256, 0)),
    Step::State(
        Statement::Drop(&[F0, F1, F2], 1),
        Answer::HoldsDirectories(0),
    ),
    Step::State(Statement::Drop(&[F2, F3, D0], 1), Answer::WouldLose(256, 1)),
    Step::Tells(Fact::Record(1, 1)),
    Step::State(Statement::Offline(0b1000, None), Answer::Done),
    Step::State(Statement::Drop(&[F2], 1), Answer::Done),
    Step::State(Statement::Drop(&[F3], 1), Answer::WouldLose(256, 1)),
    Step::Tells(Fact::Mode(3, Some(Mode::Offline))),
];

/// The groups are counted as the whole statement leaves them, and where a disk is named without
/// FORCE.
const TOO_FEW: [Step; 11] = [
    Step::State(
        Statement::Drop(&[D1, D2, D3], 1),
        Answer::TooFewGroups(2, 1),
    ),
    Step::State(
        Statement::Drop(&[D0, D1, D2, D3], 1),
        Answer::TooFewGroups(2, 0),
    ),
    Step::State(
        Statement::Drop(&[F1, D2, D3], 1),
        Answer::TooFewGroups(2, 1),
    ),
    Step::Tells(Fact::Mode(3, Some(Mode::Online))),
    Step::Tells(Fact::Rebalance(None)),
    Step::Tells(Fact::Record(1, 1)),
    Step::State(Statement::Drop(&[F1, F2, F3], 1), Answer::Done),
    Step::Tells(Fact::Dirs(0b1)),
    Step::Tells(Fact::ServingGroups(1)),
    Step::Tells(Fact::Mode(0, Some(Mode::Online))),
    Step::Tells(Fact::Record(1, 2)),
];

/// Of a disk that is named twice the last option holds.
const TWICE: [Step; 5] = [
    Step::State(Statement::Drop(&[F3, D3, D2], 1), Answer::Done),
    Step::Tells(Fact::Mode(3, Some(Mode::Dropping))),
    Step::Tells(Fact::Mode(2, Some(Mode::Dropping))),
    Step::State(Statement::Drop(&[D3, F3], 1), Answer::Done),
    Step::Tells(Fact::Mode(3, Some(Mode::Forced))),
];

/// The commit of the rebalance reaches one copy, and no majority takes the record that says so.
const DROP_UNWRITTEN: [Step; 4] = [
    Step::Fails(0, true),
    Step::Fails(1, true),
    Step::State(Statement::Drop(&[D3], 1), Answer::Dismounted(0b11)),
    Step::Tells(Fact::Dismounted(0b11)),
];

/// A disk expires once its seconds are over, and by force.
const EXPIRY: [Step; 13] = [
    Step::State(Statement::Expire(100_000), Answer::Expires(None)),
    Step::Tells(Fact::Rebalance(None)),
    Step::State(Statement::Offline(0b1000, Some(300)), Answer::Done),
    Step::State(Statement::Expire(304), Answer::Expires(None)),
    Step::Tells(Fact::Expiring(304, None)),
    Step::Tells(Fact::Expiring(305, Some(3))),
    Step::Tells(Fact::Mode(3, Some(Mode::Offline))),
    Step::FlyTo(0, 0, (2, 300), 0),
    Step::State(Statement::Expire(305), Answer::Expires(Some(3))),
    Step::Tells(Fact::Mode(3, Some(Mode::Forced))),
    Step::Tells(Fact::Rebalance(Some(1))),
    Step::Tells(Fact::IsMoving(false)),
    Step::State(Statement::Expire(400), Answer::Expires(None)),
];

/// The attribute's seconds are 12,960. The least disk is the first.
const EXPIRY_ORDER: [Step; 9] = [
    Step::State(Statement::Offline(0b1100, None), Answer::Done),
    Step::State(Statement::Expire(12_964), Answer::Expires(None)),
    Step::State(Statement::Expire(12_965), Answer::Expires(Some(2))),
    Step::Tells(Fact::Mode(3, Some(Mode::Offline))),
    Step::Tells(Fact::Dirs(0b11)),
    Step::State(Statement::Expire(12_965), Answer::Expires(Some(3))),
    Step::State(Statement::Expire(12_965), Answer::Expires(None)),
    Step::Tells(Fact::Mode(2, Some(Mode::Forced))),
    Step::Tells(Fact::Mode(3, Some(Mode::Forced))),
];

/// A disk with all current copies of an extent stays.
const KEEPS_EXTENT: [Step; 11] = [
    MAKE,
    Step::Fails(2, true),
    Step::Write(SECOND, 61, Answer::Failed(0b100)),
    Step::Fails(2, false),
    Step::Record(Next::Mode(3, Mode::Offline), Answer::Done),
    Step::Tells(Fact::Since(3, 5, 0)),
    Step::Tells(Fact::FirstLost(3, Some(1))),
    Step::Tells(Fact::FirstLost(2, None)),
    Step::State(Statement::Expire(5), Answer::Expires(None)),
    Step::State(Statement::Expire(12_967), Answer::Expires(Some(2))),
    Step::State(Statement::Expire(12_967), Answer::Expires(None)),
];

/// A disk with the only directory copy stays, till another has one.
const KEEPS_COPY: [Step; 7] = [
    Step::Record(Next::Dirs(0b100), Answer::Done),
    Step::Record(Next::Mode(2, Mode::Offline), Answer::Done),
    Step::State(Statement::Expire(5), Answer::Expires(None)),
    Step::Copy(3, Answer::Done),
    Step::Tells(Fact::Dirs(0b1100)),
    Step::State(Statement::Expire(5), Answer::Expires(Some(2))),
    Step::Tells(Fact::Dirs(0b1000)),
];

/// REBALANCE changes its power alone. The move that is on its way stays.
const REBALANCE: [Step; 10] = [
    Step::FlyTo(0, 0, (3, 300), 0),
    Step::State(Statement::Rebalance(Some(5)), Answer::Done),
    Step::Tells(Fact::Rebalance(Some(5))),
    Step::Tells(Fact::Rebalances(true)),
    Step::State(Statement::Rebalance(Some(0)), Answer::Done),
    Step::Tells(Fact::Rebalance(Some(0))),
    Step::Tells(Fact::Rebalances(false)),
    Step::State(Statement::Rebalance(None), Answer::Done),
    Step::Tells(Fact::IsMoving(true)),
    Step::Tells(Fact::Record(1, 1)),
];

/// A disk may have as many units as its image, and has 16 for users at least, behind the 270 of its
/// directories. The least disk is named, and its mode is asked first.
const RESIZE: [Step; 21] = [
    Step::State(
        Statement::Resize(0b1000, Some(1025 * UNIT), 1),
        Answer::TooSmall(3, 1025),
    ),
    Step::State(
        Statement::Resize(0b1111, Some(1025 * UNIT), 1),
        Answer::TooSmall(0, 1025),
    ),
    Step::State(
        Statement::Resize(0b1000, Some(285 * UNIT), 1),
        Answer::TooSmall(3, 286),
    ),
    Step::State(
        Statement::Resize(0b1000, Some(0 * UNIT), 1),
        Answer::TooSmall(3, 286),
    ),
    Step::Tells(Fact::Rebalance(None)),
    Step::FlyTo(0, 0, (2, 300), 0),
    Step::State(Statement::Resize(0b1000, Some(286 * UNIT), 3), Answer::Done),
    Step::Tells(Fact::Units(3, 286)),
    Step::Tells(Fact::Units(2, 1024)),
    Step::Tells(Fact::Rebalance(Some(3))),
    Step::Tells(Fact::IsMoving(false)),
    Step::Tells(Fact::Record(1, 2)),
    Step::State(Statement::Resize(0b1000, Some(286 * UNIT), 2), Answer::Done),
    Step::Tells(Fact::Rebalance(Some(2))),
    Step::Tells(Fact::Record(1, 2)),
    Step::State(Statement::Resize(0b1000, None, 1), Answer::Done),
    Step::Tells(Fact::Units(3, 1024)),
    Step::State(
        Statement::Resize(0b1000, Some(300 * UNIT + 4095), 1),
        Answer::Done,
    ),
    Step::Tells(Fact::Units(3, 300)),
    Step::State(Statement::Offline(0b1000, None), Answer::Done),
    Step::State(
        Statement::Resize(0b1000, Some(1 * UNIT), 1),
        Answer::DiskState(3, Mode::Offline),
    ),
];

/// The last unit that is used stays. Of 40 extents each disk has 20.
const RESIZE_USED: [Step; 7] = [
    Step::MakeFile(40, Answer::Done),
    Step::State(
        Statement::Resize(0b1000, Some(289 * UNIT), 1),
        Answer::TooSmall(3, 290),
    ),
    Step::State(Statement::Resize(0b1000, Some(290 * UNIT), 1), Answer::Done),
    Step::State(Statement::Drop(&[D3], 1), Answer::Done),
    Step::State(Statement::Resize(0b1111, Some(290 * UNIT), 1), Answer::Done),
    Step::Tells(Fact::Units(0, 290)),
    Step::MakeFile(1, Answer::NoSpace(257, 0)),
];

/// Disks and their failure groups are found by their names in any case.
const NAMED: [Step; 9] = [
    Step::Tells(Fact::Named(b"D_0003", Some(3))),
    Step::Tells(Fact::Named(b"d_0000", Some(0))),
    Step::Tells(Fact::Named(b"D_0004", None)),
    Step::Tells(Fact::InGroup(GroupSort::Any, b"D_0002", Some(0b100))),
    Step::Tells(Fact::InGroup(GroupSort::Regular, b"d_0002", Some(0b100))),
    Step::Tells(Fact::InGroup(GroupSort::Quorum, b"D_0002", None)),
    Step::Tells(Fact::InGroup(GroupSort::Any, b"D_0004", None)),
    Step::Tells(Fact::Sets(0b1111, 0)),
    Step::Tells(Fact::Syncing(None)),
];

/// Each statement on a group that disk 1 or 2 has dismounted.
const DISMOUNTED: [Step; 14] = [
    MAKE,
    Step::Fails(1, true),
    Step::Fails(2, true),
    Step::MakeDir(b"+D/a", Answer::Dismounted(0b110)),
    Step::State(Statement::Offline(0b1000, None), Answer::Dismounted(0b110)),
    Step::State(Statement::Drop(&[D3], 1), Answer::Dismounted(0b110)),
    Step::State(Statement::Undrop, Answer::Dismounted(0b110)),
    Step::State(
        Statement::Resize(0b1000, Some(1 * UNIT), 1),
        Answer::Dismounted(0b110),
    ),
    Step::State(Statement::Rebalance(None), Answer::Dismounted(0b110)),
    Step::State(Statement::Expire(9), Answer::Dismounted(0b110)),
    Step::Write(FIRST, 61, Answer::Dismounted(0b110)),
    Step::Sync(3, 0, Answer::Dismounted(0b110)),
    Step::Slice(1, 0, Answer::Dismounted(0b110)),
    Step::ToEnd(1, 0, Answer::Dismounted(0b110)),
];

/// The same of a closed group.
const CLOSED: [Step; 10] = [
    Step::Close,
    Step::State(Statement::Offline(0b1111, None), Answer::NoMemory),
    Step::State(Statement::Drop(&[D3], 1), Answer::NoMemory),
    Step::State(Statement::Undrop, Answer::NoMemory),
    Step::State(
        Statement::Resize(0b1000, Some(1 * UNIT), 1),
        Answer::NoMemory,
    ),
    Step::State(Statement::Rebalance(None), Answer::NoMemory),
    Step::State(Statement::Expire(9), Answer::NoMemory),
    Step::Sync(3, 0, Answer::NoMemory),
    Step::Slice(1, 0, Answer::NoMemory),
    Step::ToEnd(0, 0, Answer::NoMemory),
];

fn play_drops(alloc: Global) -> Result<(), Wrong> {
    play(alloc, "drop", &DROP, Then::Ends)?;
    play(alloc, "modes at drop", &DROP_MODES, Then::Ends)?;
    play(alloc, "drop by force", &FORCE, Then::Ends)?;
    play(alloc, "force would lose", &FORCE_LOSES, Then::Ends)?;
    play(alloc, "too few groups", &TOO_FEW, Then::Ends)?;
    play(alloc, "named twice", &TWICE, Then::Ends)?;
    play(alloc, "drop isn't written", &DROP_UNWRITTEN, Then::Ends)
}

pub fn play_statements(alloc: Global) -> Result<(), Wrong> {
    play(alloc, "offline", &OFFLINE, OFFLINE_STILL)?;
    play(alloc, "all directory copies", &ALL_COPIES, Then::Ends)?;
    play(alloc, "offline would lose", &LOSING, Then::Ends)?;
    play(
        alloc,
        "offline isn't written",
        &OFFLINE_UNWRITTEN,
        Then::Ends,
    )?;
    play_drops(alloc)?;
    play(alloc, "expiry", &EXPIRY, Then::Ends)?;
    play(alloc, "order of expiry", &EXPIRY_ORDER, Then::Ends)?;
    play(alloc, "expiry keeps an extent", &KEEPS_EXTENT, Then::Ends)?;
    play(alloc, "expiry keeps a copy", &KEEPS_COPY, Then::Ends)?;
    play(alloc, "rebalance", &REBALANCE, Then::Ends)?;
    play(alloc, "resize", &RESIZE, Then::Ends)?;
    play(alloc, "used units", &RESIZE_USED, Then::Ends)?;
    play(alloc, "names of disks", &NAMED, Then::Ends)?;
    play(alloc, "statements dismounted", &DISMOUNTED, Then::Ends)?;
    play(alloc, "statements closed", &CLOSED, Then::Ends)
}
