// What no clause says: that each call succeeds where no disk fails, and that what it writes are
// whole sectors. The cases are rows of steps, which one function plays on images of its own.
use crate::helpers::{SIZE, Wrong};
use asm_base::{GroupKind, Name, Shape};
use bay::Bay;
use bay_mem::MemBay;
use disk_header::{Header, is_header};
use disk_images::{Looked, close_gates, close_header, look_at, look_at_images, write_header};
use std::alloc::Global;
use std::test::*;

// The bytes of a sector.
const SECTOR: u64 = 4_096;

const SHAPE: Shape = Shape {
    kind: GroupKind::Normal,
    au: 65_536,
    sector: 4_096,
    step: 8,
    dir_blocks: 128,
};

// What is done with the images, or must be seen of them.
#[derive(Clone, Copy)]
enum Step {
    // The header of disk 3 of group 7 is written to the first image.
    GiveHeader,
    // The first image's header goes.
    TakeHeader,
    // The gate in a block of the first image is opened, whatever stands behind it.
    OpenGate(u64),
    // All gates of the first image are closed.
    ShutGates,
    // A call fails, by its number.
    Fail(u64),
    // So many bytes were written to the first image so far.
    Written(u64),
    // A look at the first image.
    Look(Look),
    // Looks at all three images.
    Looks(Look, Look, Look),
}

// What a look has shown. Sizes are in bytes.
#[derive(Clone, Copy, PartialEq, Eq)]
enum Look {
    Absent,
    Unread(u64),
    // There is no open header.
    Blank(u64),
    // The header of a disk of this number and birth, of the group of this id.
    Headed(u64, u64, u8, u64),
}

fn name(alloc: Global, text: &[u8]) -> Option<Name> {
    match Name::read(alloc, text, 30) {
        Ok(name) => name,
        Err(_) => None,
    }
}

// Both values, where both are there.
fn both<A: Drop, B: Drop>(first: Option<A>, second: Option<B>) -> Option<(A, B)> {
    Some((first?, second?))
}

// The header of disk 3 of group 7.
fn header(alloc: Global) -> Option<Header> {
    let names = both(name(alloc, b"D3"), name(alloc, b"F1"));
    let (group, (disk, failgroup)) = both(name(alloc, b"DATA"), names)?;
    Some(Header {
        group,
        id: 7,
        number: 3,
        birth: 9,
        kind: SHAPE.kind,
        disk,
        failgroup,
        quorum: false,
        au_size: SHAPE.au,
        sector: SHAPE.sector,
        step: SHAPE.step,
        dir_blocks: SHAPE.dir_blocks,
    })
}

fn give_header(bay: &mut MemBay, header: &Header) -> bool {
    match bay.attach(0, "d0") {
        Ok(size) if size >= SIZE && is_header(header) && header.sector == 4_096 => {
            write_header(bay, 0, header).is_ok()
        }
        _ => false,
    }
}

fn give(alloc: Global, bay: &mut MemBay) -> bool {
    match header(alloc) {
        Some(header) => {
            let is_given = give_header(bay, &header);
            drop(header);
            is_given
        }
        None => false,
    }
}

fn take_header(bay: &mut MemBay) -> bool {
    match bay.attach(0, "d0") {
        Ok(size) if size >= SIZE => close_header(bay, 0, SHAPE).is_ok(),
        _ => false,
    }
}

fn shut_gates(bay: &mut MemBay) -> bool {
    match bay.attach(0, "d0") {
        Ok(size) if size >= SIZE && SHAPE.is_allowed() => close_gates(bay, 0, SHAPE).is_ok(),
        _ => false,
    }
}

fn open_gate(bay: &mut MemBay, block: u64) -> bool {
    match bay.attach(0, "d0") {
        Ok(size) if size >= SIZE && block < 270 => {
            bay.write(0, block * SECTOR, &[0xa5; 4_096]).is_ok()
        }
        _ => false,
    }
}

fn look_of(looked: &Looked) -> Look {
    match looked {
        Looked::Absent => Look::Absent,
        Looked::Unread { size } => Look::Unread(*size),
        Looked::Read { size, header: None } => Look::Blank(*size),
        Looked::Read {
            size,
            header: Some(header),
        } => Look::Headed(*size, header.id, header.number, header.birth),
    }
}

// What a look at the first image shows, where there is memory.
fn first_look(alloc: Global, bay: &mut MemBay) -> Option<Look> {
    match look_at(alloc, bay, 0, "d0") {
        Ok(looked) => {
            let look = look_of(&looked);
            drop(looked);
            Some(look)
        }
        Err(_) => None,
    }
}

// The paths of three images.
fn put_paths(alloc: Global, paths: &mut Vec<String>) -> Option<()> {
    for path in ["d0", "d1", "d2"] {
        paths.push(String::from_str(alloc, path).ok()?).ok()?;
    }
    Some(())
}

fn are_looks(found: &[Looked], wanted: [Look; 3]) -> bool {
    match found {
        [first, second, third] => [look_of(first), look_of(second), look_of(third)] == wanted,
        _ => false,
    }
}

// Whether looks at the images of these paths show this.
fn show(alloc: Global, bay: &mut MemBay, paths: &[String], wanted: [Look; 3]) -> bool {
    if paths.len() > 512 {
        return false;
    }
    match look_at_images(alloc, bay, paths) {
        Ok(found) => {
            let are_wanted = are_looks(&found, wanted);
            drop(found);
            are_wanted
        }
        Err(_) => false,
    }
}

// The same of three images.
fn all_show(alloc: Global, bay: &mut MemBay, wanted: [Look; 3]) -> bool {
    let mut paths = Vec::new(alloc);
    let are_wanted = match put_paths(alloc, &mut paths) {
        Some(()) => show(alloc, bay, &paths, wanted),
        None => false,
    };
    drop(paths);
    are_wanted
}

// Does a step. Whether this comes of it.
fn is_right(alloc: Global, bay: &mut MemBay, step: Step) -> bool {
    match step {
        Step::GiveHeader => give(alloc, bay),
        Step::TakeHeader => take_header(bay),
        Step::OpenGate(block) => open_gate(bay, block),
        Step::ShutGates => shut_gates(bay),
        Step::Fail(call) => bay.fail_at(call).is_ok(),
        Step::Written(bytes) => bay.written(0) == bytes,
        Step::Look(wanted) => first_look(alloc, bay) == Some(wanted),
        Step::Looks(first, second, third) => all_show(alloc, bay, [first, second, third]),
    }
}

// Does steps one after the other. Fails by the row's name and the place of the first step that
// isn't right.
fn play_on(
    alloc: Global,
    name: &'static str,
    bay: &mut MemBay,
    steps: &[Step],
) -> Result<(), Wrong> {
    for (place, step) in steps.iter().enumerate() {
        if !is_right(alloc, bay, *step) {
            return Err((name, place));
        }
    }
    Ok(())
}

// Plays a row on images of these sizes.
fn play(
    alloc: Global,
    name: &'static str,
    sizes: &[Option<u64>],
    steps: &[Step],
) -> Result<(), Wrong> {
    match MemBay::new(alloc, sizes) {
        Ok(mut bay) => {
            let played = play_on(alloc, name, &mut bay, steps);
            drop(bay);
            played
        }
        Err(_) => Err((name, 0)),
    }
}

const HEADED: Look = Look::Headed(SIZE, 7, 3, 9);

// What is written are a body and a gate that is opened, and then the gate once more.
const HEADER: [Step; 6] = [
    Step::GiveHeader,
    Step::Written(2 * SECTOR),
    Step::Look(HEADED),
    Step::TakeHeader,
    Step::Written(3 * SECTOR),
    Step::Look(Look::Blank(SIZE)),
];

// Open gates are closed by a sector each, and shut ones aren't written.
const GATES: [Step; 12] = [
    Step::OpenGate(0),
    Step::OpenGate(2),
    Step::OpenGate(4),
    Step::OpenGate(6),
    Step::OpenGate(8),
    Step::OpenGate(138),
    Step::OpenGate(204),
    Step::Written(7 * SECTOR),
    Step::ShutGates,
    Step::Written(14 * SECTOR),
    Step::ShutGates,
    Step::Written(14 * SECTOR),
];

const APART: [Step; 2] = [
    Step::GiveHeader,
    Step::Looks(HEADED, Look::Absent, Look::Blank(36_864)),
];

// The sync behind the attaching fails.
const FAILED: [Step; 2] = [Step::Fail(2), Step::Look(Look::Unread(SIZE))];

const IMAGES: [Option<u64>; 3] = [Some(SIZE), None, Some(36_864)];

fn play_rows(alloc: Global) -> Result<(), Wrong> {
    play(
        alloc,
        "header comes and goes by whole sectors",
        &[Some(SIZE)],
        &HEADER,
    )?;
    play(
        alloc,
        "open gates are closed by whole sectors",
        &[Some(SIZE)],
        &GATES,
    )?;
    play(alloc, "looks tell images apart", &IMAGES, &APART)?;
    play(alloc, "failed look is unread", &[Some(SIZE)], &FAILED)
}

#[test]
fn headers_and_looks(rt: HostRuntime) -> Result<(), Fail> {
    play_rows(rt.alloc())?;
    Ok(())
}
