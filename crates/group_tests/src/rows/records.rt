//! Rows on status records: which may come next, and how many disks take one.

use crate::answers::Answer;
use crate::facts::Fact;
use crate::rows::commits::FOUND;
use crate::rows::shared::{HAS_A, IS_MOUNTED, IS_NOT_MOUNTED, MAKE_A, OFFLINE};
use crate::steps::{Next, Step, Wrong};
use crate::trials::{Then, play};
use asm_base::Mode;
use group_recovery::MountOption;
use std::alloc::Global;

/// The record holds under the next number, and the tables stay.
const RECORD: [Step; 8] = [
    Step::Record(OFFLINE, Answer::Done),
    IS_MOUNTED,
    Step::Tells(Fact::Mode(3, Some(Mode::Offline))),
    Step::Tells(Fact::Record(1, 2)),
    Step::Tells(Fact::FreeBlocks(120)),
    Step::Record(Next::Mode(3, Mode::Online), Answer::Done),
    Step::Tells(Fact::Record(1, 3)),
    MAKE_A,
];

const ONLINE: Then = Then::Mount(
    MountOption::NoForce,
    &[
        HAS_A,
        Step::Tells(Fact::Record(2, 1)),
        Step::Tells(Fact::Mode(3, Some(Mode::Online))),
    ],
);

/// Two of three disks are enough for a record. It names the copy of a disk that doesn't take it.
const HOLDER_FAILS: [Step; 5] = [
    Step::Fails(2, true),
    Step::Record(OFFLINE, Answer::Done),
    Step::Tells(Fact::Record(1, 2)),
    Step::Tells(Fact::Dirs(0b111)),
    Step::Fails(2, false),
];

const OFFLINE_STILL: Then = Then::Mount(
    MountOption::NoForce,
    &[
        Step::Tells(Fact::Mode(3, Some(Mode::Offline))),
        Step::Tells(Fact::Record(2, 1)),
    ],
);

/// One isn't.
const HOLDERS_FAIL: [Step; 5] = [
    Step::Fails(0, true),
    Step::Fails(1, true),
    Step::Record(OFFLINE, Answer::Dismounted(0b11)),
    IS_NOT_MOUNTED,
    Step::Tells(Fact::Dismounted(0b11)),
];

/// A copy that a record doesn't name takes no commits.
const FEWER_COPIES: [Step; 6] = [
    Step::Record(Next::Dirs(0b11), Answer::Done),
    Step::Tells(Fact::Record(1, 2)),
    Step::Fails(2, true),
    MAKE_A,
    Step::Tells(Fact::Dirs(0b11)),
    Step::Tells(Fact::Record(1, 2)),
];

/// A disk gets fewer units.
const UNITS: [Step; 4] = [
    Step::Record(Next::Units(3, 1000), Answer::Done),
    Step::Tells(Fact::Record(1, 2)),
    MAKE_A,
    HAS_A,
];

/// A record may be of this group and no other, isn't marked gone, names copies that are there, and
/// has an entry for each disk of its sets. Its sets are those before, or a second one comes to the
/// one.
const MAY_NOT: [Step; 11] = [
    Step::Record(Next::OfAnother, Answer::MayNot),
    Step::Record(Next::Gone, Answer::MayNot),
    Step::Record(Next::Dirs(0b1111), Answer::MayNot),
    Step::Record(Next::Dirs(0b1000), Answer::MayNot),
    Step::Record(Next::Dirs(0b1_0111), Answer::MayNot),
    Step::Record(Next::Without(2), Answer::MayNot),
    Step::Record(Next::Holders(0b1011), Answer::MayNot),
    Step::Record(Next::Holders(0b11), Answer::MayNot),
    Step::Record(Next::NextHolders(0b1_0011), Answer::MayNot),
    Step::Tells(Fact::Record(1, 1)),
    MAKE_A,
];

/// A second set comes, and then it alone is left.
const SETS: [Step; 9] = [
    Step::Record(Next::NextHolders(0b1110), Answer::Done),
    Step::Tells(Fact::Holders(0b111, 0b1110)),
    Step::Record(Next::NextHolders(0b1011), Answer::MayNot),
    Step::Record(Next::Holders(0b111), Answer::MayNot),
    Step::Record(OFFLINE, Answer::Done),
    Step::Record(Next::Holders(0b1110), Answer::Done),
    Step::Tells(Fact::Holders(0b1110, 0)),
    Step::Tells(Fact::Record(1, 4)),
    MAKE_A,
];

/// Of each of two sets a majority is wanted: of the second one disk is left.
const SECOND_SET_FAILS: [Step; 5] = [
    Step::Record(Next::NextHolders(0b1100), Answer::Done),
    Step::Fails(3, true),
    Step::Record(OFFLINE, Answer::Dismounted(0b1000)),
    IS_NOT_MOUNTED,
    Step::Tells(Fact::Dismounted(0b1000)),
];

/// A disk whose number has no entry may have no copy.
const NO_ENTRY: [Step; 5] = [
    Step::Record(Next::Without(3), Answer::Done),
    Step::Tells(Fact::Mode(3, None)),
    Step::Tells(Fact::HasInfo(3, true)),
    Step::Copy(3, Answer::NoMemory),
    MAKE_A,
];

pub fn play_records(alloc: Global) -> Result<(), Wrong> {
    play(alloc, "record", &RECORD, ONLINE)?;
    play(alloc, "holder fails", &HOLDER_FAILS, OFFLINE_STILL)?;
    play(alloc, "holders fail", &HOLDERS_FAIL, Then::Ends)?;
    play(alloc, "fewer copies", &FEWER_COPIES, Then::Ends)?;
    play(alloc, "fewer units", &UNITS, FOUND)?;
    play(alloc, "record may not come next", &MAY_NOT, Then::Ends)?;
    play(alloc, "sets", &SETS, Then::Ends)?;
    play(alloc, "second set fails", &SECOND_SET_FAILS, Then::Ends)?;
    play(alloc, "no entry", &NO_ENTRY, Then::Ends)
}
