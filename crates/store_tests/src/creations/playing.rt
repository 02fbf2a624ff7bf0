// A row of steps, played over one image in memory.
use crate::creations::steps::{Step, is_right, name_in};
use crate::helpers::Wrong;
use asm_base::Name;
use bay_mem::MemBay;
use std::alloc::Global;

/// Does a step. Whether this comes of it.
fn is_done(alloc: Global, bay: &mut MemBay, paths: &[String; 1], step: Step) -> bool {
    match Name::read(alloc, name_in(step), 30) {
        Ok(Some(name)) => {
            let is_done = is_right(alloc, bay, paths, &name, step);
            drop(name);
            is_done
        }
        _ => false,
    }
}

/// Does steps one after the other. Fails by the row's name and the place of the first that isn't
/// right.
fn play_on(
    alloc: Global,
    name: &'static str,
    bay: &mut MemBay,
    paths: &[String; 1],
    steps: &[Step],
) -> Result<(), Wrong> {
    for (place, step) in steps.iter().enumerate() {
        if !is_done(alloc, bay, paths, *step) {
            return Err((name, place));
        }
    }
    Ok(())
}

/// The same on an image of the path d0.
fn play_at_d0(
    alloc: Global,
    name: &'static str,
    bay: &mut MemBay,
    steps: &[Step],
) -> Result<(), Wrong> {
    match String::from_str(alloc, "d0") {
        Ok(path) => {
            let paths = [path];
            let played = play_on(alloc, name, bay, &paths, steps);
            drop(paths);
            played
        }
        Err(_) => Err((name, 0)),
    }
}

/// Plays a row: steps on an image of a size in bytes, or one that isn't there. Fails by its name
/// where a step isn't right.
pub fn play(
    alloc: Global,
    name: &'static str,
    size: Option<u64>,
    steps: &[Step],
) -> Result<(), Wrong> {
    match MemBay::new(alloc, &[size]) {
        Ok(mut bay) => {
            let played = play_at_d0(alloc, name, &mut bay, steps);
            drop(bay);
            played
        }
        Err(_) => Err((name, 0)),
    }
}
