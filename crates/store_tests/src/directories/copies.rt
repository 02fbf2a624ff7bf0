// What no clause says: that a format and a load succeed where no call fails, what a format leaves,
// and how many calls it takes.
use crate::directories::steps::{Loaded, Step, play};
use crate::helpers::Wrong;
use std::alloc::Global;
use std::test::Fail;

const FORMAT_SHUTS_AND_ZEROES: [Step; 9] = [
    Step::Mark(10, 7),
    Step::Mark(137, 7),
    Step::Mark(138, 0xa5),
    Step::Mark(204, 0xa5),
    Step::Format,
    Step::Byte(10, 0),
    Step::Byte(137, 0),
    Step::Byte(138, 0),
    Step::Byte(204, 0),
];

const FORMAT_LEAVES_WHAT_LIES_AROUND: [Step; 7] = [
    Step::Mark(9, 7),
    Step::Mark(139, 7),
    Step::Mark(269, 7),
    Step::Format,
    Step::Byte(9, 7),
    Step::Byte(139, 7),
    Step::Byte(269, 7),
];

const SHUT_GATES_ARE_NOT_WRITTEN: [Step; 2] = [Step::Format, Step::Written(524_288)];

const FORMATTED_COPY_IS_EMPTY: [Step; 2] = [Step::Power(12, 1), Step::Loads(Loaded::Nothing)];

const IMAGE_COUNTS_IN_PLACE_OF_ITS_HOME: [Step; 4] = [
    Step::Fill(13, 7),
    Step::Power(15, 9),
    Step::Log(138, 1, [3, 5], 4),
    Step::Loads(Loaded::One(1, 3, 4, 3, 140)),
];

const GREATER_NUMBER_COUNTS: [Step; 7] = [
    Step::Log(138, 6, [3, 5], 4),
    Step::Log(204, 7, [3, 5], 8),
    Step::Loads(Loaded::One(7, 3, 8, 3, 206)),
    Step::Log(138, 8, [3, 5], 2),
    Step::Loads(Loaded::One(8, 3, 2, 3, 140)),
    Step::Mark(138, 0),
    Step::Loads(Loaded::One(7, 3, 8, 3, 206)),
];

const FIRST_DAMAGED_BLOCK_IS_NAMED: [Step; 8] = [
    Step::Log(138, 1, [3, 5], 4),
    Step::Log(204, 2, [3, 5], 4),
    Step::Fill(207, 1),
    Step::Loads(Loaded::Damaged(207)),
    Step::Head(139, 1, [5, 3]),
    Step::Loads(Loaded::Damaged(139)),
    Step::Fill(137, 1),
    Step::Loads(Loaded::Damaged(137)),
];

const FAILED_READ_IS_A_FAULT: [Step; 3] = [
    Step::Log(138, 1, [3, 5], 4),
    Step::FailAt(6),
    Step::Loads(Loaded::Fault),
];

fn play_formats(alloc: Global) -> Result<(), Wrong> {
    play(alloc, "format shuts and zeroes", &FORMAT_SHUTS_AND_ZEROES)?;
    play(
        alloc,
        "format leaves what lies around",
        &FORMAT_LEAVES_WHAT_LIES_AROUND,
    )?;
    play(
        alloc,
        "shut gates are not written",
        &SHUT_GATES_ARE_NOT_WRITTEN,
    )
}

fn play_loads(alloc: Global) -> Result<(), Wrong> {
    play(alloc, "formatted copy is empty", &FORMATTED_COPY_IS_EMPTY)?;
    play(
        alloc,
        "image counts in place of its home",
        &IMAGE_COUNTS_IN_PLACE_OF_ITS_HOME,
    )?;
    play(alloc, "greater number counts", &GREATER_NUMBER_COUNTS)?;
    play(
        alloc,
        "first damaged block is named",
        &FIRST_DAMAGED_BLOCK_IS_NAMED,
    )?;
    play(alloc, "failed read is a fault", &FAILED_READ_IS_A_FAULT)
}

#[test]
fn copies(rt: HostRuntime) -> Result<(), Fail> {
    play_formats(rt.alloc())?;
    play_loads(rt.alloc())?;
    Ok(())
}
