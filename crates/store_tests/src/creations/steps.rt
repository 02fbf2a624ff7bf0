// Steps of a row, and what comes of each. A group, and what is found of one, is dropped by a call
// in one place, since what goes in place is proved in place.
use asm_base::Name;
use bay::Bay;
use bay_mem::MemBay;
use mounted_groups::{
    Found, MountError, MountOption, Mounted, create_disk, create_group, drop_group, mount_group,
};
use refusal_lines::Refusal;
use std::alloc::Global;

/// The bytes of an image of 25 units.
pub const LEAST: u64 = 26_214_400;

/// What is done with the one image, or must be seen of it.
#[derive(Clone, Copy)]
pub enum Step {
    /// The group DATA is created on the image of a path: its id, and what comes of it.
    Create(&'static [u8], Option<u64>, Answer),
    /// It is created on the image and stays, or is dropped.
    Begin(Then),
    /// A group of a name is looked for.
    Find(&'static [u8], Finding),
    /// The group DATA is mounted at a second, step by step: its id.
    Recover(u64, u64),
    /// A group of a name is mounted, where none is mounted.
    Mount(&'static [u8], Mounting),
    /// The image is made anew, where groups hold these slots.
    Make(&'static [u32], Answer),
    /// The gate in a block of the image is opened, whatever stands behind it. Two calls.
    OpenGate(u64),
    /// A call fails, by its number.
    Fail(u64),
    /// So many calls were made so far.
    Calls(u64),
    /// No more than so many calls were made so far.
    CallsAtMost(u64),
}

/// What becomes of a group that was created.
#[derive(Clone, Copy, PartialEq, Eq)]
pub enum Then {
    Stays,
    Goes,
}

/// What comes of a creation, or of an image that is made.
#[derive(Clone, Copy, PartialEq, Eq)]
pub enum Answer {
    Done,
    DiskTaken,
    NoDisk,
    /// So many units are needed.
    TooSmall(u64),
    WriteFault,
    Another,
}

/// What is found by a name: a group of an id with so many headers, or that there is none.
#[derive(Clone, Copy, PartialEq, Eq)]
pub enum Finding {
    Group(u64, usize),
    NoGroup,
    Another,
}

/// What a mount comes to: whether the group has the name DATA, or whether there is none.
#[derive(Clone, Copy, PartialEq, Eq)]
pub enum Mounting {
    Data,
    NoGroup,
    Another,
}

fn answer_of(refusal: &Refusal) -> Answer {
    match refusal {
        Refusal::DiskTaken { .. } => Answer::DiskTaken,
        Refusal::NoDisk { .. } => Answer::NoDisk,
        Refusal::TooSmall { need, .. } => Answer::TooSmall(*need),
        Refusal::WriteFault { .. } => Answer::WriteFault,
        _ => Answer::Another,
    }
}

/// What comes of a call, whose value goes.
fn outcome_of<T: Drop>(made: Result<T, Refusal>) -> Answer {
    match made {
        Ok(value) => {
            drop(value);
            Answer::Done
        }
        Err(refusal) => {
            let answer = answer_of(&refusal);
            drop(refusal);
            answer
        }
    }
}

/// Creates the group of a name on the image of a path.
fn create(
    alloc: Global,
    bay: &mut MemBay,
    paths: &[String; 1],
    name: &Name,
    path: &[u8],
) -> (Option<u64>, Answer) {
    if !name.is_name() {
        return (None, Answer::Another);
    }
    let mut ids = Vec::new(alloc);
    let (id, made) = create_group(alloc, bay, paths, name, path, 7, &mut ids, &[]);
    drop(ids);
    (id, outcome_of(made))
}

/// Creates the group of a name on the image, which may go then. Whether that is done.
fn begin(alloc: Global, bay: &mut MemBay, paths: &[String; 1], name: &Name, then: Then) -> bool {
    if !name.is_name() {
        return false;
    }
    let mut ids = Vec::new(alloc);
    let (_, made) = create_group(alloc, bay, paths, name, b"d0", 7, &mut ids, &[]);
    drop(ids);
    match made {
        Ok(mut group) => {
            let is_done = then == Then::Stays || drop_group(&mut group, bay, false).is_ok();
            drop(group);
            is_done
        }
        Err(refusal) => {
            drop(refusal);
            false
        }
    }
}

fn finding_of(found: Result<Found, MountError>) -> Finding {
    match found {
        Ok(found) => {
            let finding = Finding::Group(found.id(), found.headed().len());
            drop(found);
            finding
        }
        Err(error) => {
            let is_none = matches!(error, MountError::NoGroup);
            drop(error);
            if is_none {
                Finding::NoGroup
            } else {
                Finding::Another
            }
        }
    }
}

/// The id of the group of a name, which is mounted at a second.
fn recovered(
    alloc: Global,
    bay: &mut MemBay,
    paths: &[String; 1],
    name: &Name,
    now: u64,
) -> Result<u64, MountError> {
    match Found::find(alloc, bay, paths, name) {
        Ok(found) => match found.quorate(alloc, bay, MountOption::NoForce) {
            Ok(quorate) => match quorate.recover(alloc, bay, now) {
                Ok(parts) => {
                    let id = parts.id;
                    drop(parts);
                    Ok(id)
                }
                Err(error) => Err(error),
            },
            Err(error) => Err(error),
        },
        Err(error) => Err(error),
    }
}

/// Whether the group of a name is mounted at a second and has an id.
fn is_recovered(
    alloc: Global,
    bay: &mut MemBay,
    paths: &[String; 1],
    name: &Name,
    now: u64,
    id: u64,
) -> bool {
    match recovered(alloc, bay, paths, name, now) {
        Ok(found) => found == id,
        Err(error) => {
            drop(error);
            false
        }
    }
}

fn mounting_of(mounted: Result<Mounted, MountError>) -> Mounting {
    match mounted {
        Ok(group) => {
            let is_data = group.name().as_bytes() == b"DATA".as_slice();
            drop(group);
            if is_data {
                Mounting::Data
            } else {
                Mounting::Another
            }
        }
        Err(error) => {
            let is_none = matches!(error, MountError::NoGroup);
            drop(error);
            if is_none {
                Mounting::NoGroup
            } else {
                Mounting::Another
            }
        }
    }
}

fn open_gate(bay: &mut MemBay, block: u64) -> bool {
    match bay.attach(0, "d0") {
        Ok(size) if size >= 67_108_864 && block < 16_384 => {
            bay.write(0, block * 4_096, &[0xa5; 512]).is_ok()
        }
        _ => false,
    }
}

/// The name of the group of a step.
pub fn name_in(step: Step) -> &'static [u8] {
    match step {
        Step::Find(name, _) | Step::Mount(name, _) => name,
        _ => b"DATA",
    }
}

/// Does a step with the group of a name. Whether this comes of it.
pub fn is_right(
    alloc: Global,
    bay: &mut MemBay,
    paths: &[String; 1],
    name: &Name,
    step: Step,
) -> bool {
    match step {
        Step::Create(path, id, answer) => create(alloc, bay, paths, name, path) == (id, answer),
        Step::Begin(then) => begin(alloc, bay, paths, name, then),
        Step::Find(_, finding) => finding_of(Found::find(alloc, bay, paths, name)) == finding,
        Step::Recover(now, id) => is_recovered(alloc, bay, paths, name, now, id),
        Step::Mount(_, mounting) => {
            let option = MountOption::NoForce;
            mounting_of(mount_group(alloc, bay, paths, name, option, 1, &[])) == mounting
        }
        Step::Make(held, answer) => {
            outcome_of(create_disk(alloc, bay, paths, b"d0", LEAST, held)) == answer
        }
        Step::OpenGate(block) => open_gate(bay, block),
        Step::Fail(call) => bay.fail_at(call).is_ok(),
        Step::Calls(calls) => bay.calls() == calls,
        Step::CallsAtMost(most) => bay.calls() <= most,
    }
}
