// What no clause says: that a creation succeeds where memory is had, how many calls it takes, and
// which refusal comes; that a group that was made is found and mounted again, that it goes, and
// that an image is made anew.
use crate::creations::playing::play;
use crate::creations::steps::{Answer, Finding, LEAST, Mounting, Step, Then};
use crate::helpers::Wrong;
use std::alloc::Global;
use std::test::*;

/// The bytes of an image of 64 units.
const SIZE: u64 = 67_108_864;

/// The most device calls of a creation on one image, which it makes where all gates are open.
const MOST_CALLS: u64 = 82;

/// The group DATA is created, and has the id 7.
const CREATED: Step = Step::Create(b"d0", Some(7), Answer::Done);

const FEW_CALLS: [Step; 2] = [CREATED, Step::CallsAtMost(MOST_CALLS)];

fn new_group_takes_few_calls(alloc: Global) -> Result<(), Wrong> {
    play(alloc, "new group takes few calls", Some(SIZE), &FEW_CALLS)
}

/// Those of the header, of two claims and two status records, and of two logs behind 1,024 pages
/// are all that there are.
const OPEN_GATES: [Step; 10] = [
    Step::OpenGate(0),
    Step::OpenGate(2),
    Step::OpenGate(4),
    Step::OpenGate(6),
    Step::OpenGate(8),
    Step::OpenGate(1_034),
    Step::OpenGate(1_100),
    Step::Calls(14),
    CREATED,
    Step::CallsAtMost(14 + MOST_CALLS),
];

/// Each open gate is closed by a write and a sync more.
fn open_gates_take_few_calls_more(alloc: Global) -> Result<(), Wrong> {
    play(
        alloc,
        "open gates take few calls more",
        Some(SIZE),
        &OPEN_GATES,
    )
}

const TAKEN: [Step; 2] = [CREATED, Step::Create(b"d0", None, Answer::DiskTaken)];

const TOO_SMALL: [Step; 1] = [Step::Create(b"d0", None, Answer::TooSmall(25))];

const FAILED: [Step; 2] = [
    Step::Fail(20),
    Step::Create(b"d0", Some(7), Answer::WriteFault),
];

/// Of a path that isn't the image's, and of one whose image isn't there.
const NO_DISK: [Step; 2] = [
    Step::Create(b"d1", None, Answer::NoDisk),
    Step::Create(b"d0", None, Answer::NoDisk),
];

fn play_refused(alloc: Global) -> Result<(), Wrong> {
    play(alloc, "disk of a group is taken", Some(LEAST), &TAKEN)?;
    play(
        alloc,
        "disk of 24 units is too small",
        Some(26_213_888),
        &TOO_SMALL,
    )?;
    play(alloc, "failed write is a fault", Some(LEAST), &FAILED)?;
    play(alloc, "other path is no disk", None, &NO_DISK)
}

const ZEROS: [Step; 1] = [Step::Find(b"DATA", Finding::NoGroup)];

const FOUND: [Step; 2] = [CREATED, Step::Find(b"data", Finding::Group(7, 1))];

const TWICE: [Step; 3] = [CREATED, Step::Recover(1, 7), Step::Recover(2, 7)];

const AGAIN: [Step; 3] = [
    Step::Begin(Then::Stays),
    Step::Mount(b"data", Mounting::Data),
    Step::Mount(b"FRA", Mounting::NoGroup),
];

const DROPPED: [Step; 3] = [
    Step::Begin(Then::Goes),
    Step::Mount(b"DATA", Mounting::NoGroup),
    Step::Begin(Then::Stays),
];

const ANEW: [Step; 6] = [
    Step::Make(&[], Answer::Done),
    Step::Begin(Then::Goes),
    Step::Make(&[0], Answer::DiskTaken),
    Step::Make(&[], Answer::Done),
    Step::Begin(Then::Stays),
    Step::Make(&[], Answer::DiskTaken),
];

fn play_mounted(alloc: Global) -> Result<(), Wrong> {
    play(alloc, "no group is found on zeros", Some(SIZE), &ZEROS)?;
    play(alloc, "group is found without case", Some(SIZE), &FOUND)?;
    play(alloc, "group is mounted twice", Some(SIZE), &TWICE)?;
    play(alloc, "new group is mounted again", Some(LEAST), &AGAIN)?;
    play(
        alloc,
        "dropped group leaves its disk",
        Some(LEAST),
        &DROPPED,
    )?;
    play(alloc, "image is made anew", None, &ANEW)
}

fn play_all(alloc: Global) -> Result<(), Wrong> {
    new_group_takes_few_calls(alloc)?;
    open_gates_take_few_calls_more(alloc)?;
    play_refused(alloc)?;
    play_mounted(alloc)
}

#[test]
fn groups_on_one_disk(rt: HostRuntime) -> Result<(), Fail> {
    play_all(rt.alloc())?;
    Ok(())
}
