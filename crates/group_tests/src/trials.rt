//! A row: steps on a new group, and on the group that is found of it.

ghost use Rattle.std.specs.Prelude.{IfSome};
ghost use Rattle.bay_mem.specs.MemState.{state_of};
ghost use Rattle.group_engine.specs.Mounts.{Takes};

use crate::forming::{create, mount, paths};
use crate::playing::wrong_in;
use crate::steps::{Step, Wrong};
use bay_mem::MemBay;
use group_engine::Mounted;
use group_recovery::MountOption;
use std::alloc::Global;

/// The bytes of an image.
pub const SIZE: u64 = 4_194_304;

/// Does the steps on a group, where there is one, and lets it go. The places of the steps are
/// counted from one on.
fn judged(
    alloc: Global,
    name: &'static str,
    bay: &mut MemBay,
    group: Option<Mounted>,
    steps: &[Step],
    from: usize,
) -> Result<(), Wrong>
    requires takes { IfSome group (λ m. Takes m (state_of bay.old)) }
{
    match group {
        Some(mut group) => {
            let wrong = wrong_in(alloc, &mut group, bay, steps);
            drop(group);
            match wrong {
                Some(place) => Err((name, from.saturating_add(place))),
                None => Ok(()),
            }
        }
        None => Err((name, from)),
    }
}

/// What is done with the group behind the first steps.
#[derive(Clone, Copy)]
pub enum Then {
    /// Nothing more.
    Ends,
    /// It can't be mounted.
    Goes,
    /// It is mounted again, and these steps are done.
    Mount(MountOption, &'static [Step]),
}

/// Plays what comes behind the first steps, of which there are so many.
fn play_then(
    alloc: Global,
    name: &'static str,
    bay: &mut MemBay,
    paths: &[String; 5],
    then: Then,
    from: usize,
) -> Result<(), Wrong> {
    match then {
        Then::Ends => Ok(()),
        Then::Goes => match mount(alloc, bay, paths, MountOption::NoForce) {
            Some(group) => {
                drop(group);
                Err((name, from))
            }
            None => Ok(()),
        },
        Then::Mount(option, steps) => {
            let group = mount(alloc, bay, paths, option);
            judged(alloc, name, bay, group, steps, from)
        }
    }
}

/// Plays a row on these disks.
fn play_on(
    alloc: Global,
    name: &'static str,
    bay: &mut MemBay,
    paths: &[String; 5],
    steps: &[Step],
    then: Then,
) -> Result<(), Wrong> {
    let group = create(alloc, bay, paths);
    judged(alloc, name, bay, group, steps, 0)?;
    play_then(alloc, name, bay, paths, then, steps.len())
}

/// The same, by the paths of the images.
fn play_at(
    alloc: Global,
    name: &'static str,
    bay: &mut MemBay,
    steps: &[Step],
    then: Then,
) -> Result<(), Wrong> {
    match paths(alloc) {
        Some(paths) => {
            let played = play_on(alloc, name, bay, &paths, steps, then);
            drop(paths);
            played
        }
        None => Err((name, 0)),
    }
}

/// Plays a row: steps on a new group of four disks, and what comes then. Fails by its name where a
/// step isn't right.
pub fn play(alloc: Global, name: &'static str, steps: &[Step], then: Then) -> Result<(), Wrong> {
    match MemBay::new(
        alloc,
        &[Some(SIZE), Some(SIZE), Some(SIZE), Some(SIZE), Some(SIZE)],
    ) {
        Ok(mut bay) => {
            let played = play_at(alloc, name, &mut bay, steps, then);
            drop(bay);
            played
        }
        Err(_) => Err((name, 0)),
    }
}
