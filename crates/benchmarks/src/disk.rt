//! Taking a unit of a disk that is all but full.

use crate::records::{out_of_memory, unexpected};
use allocator::Units;
use std::alloc::Global;
use std::io;
use std::time::{Duration, Instant};

/// The most units that a disk may have.
const UNITS: u32 = 16_777_216;

const RESERVED: u32 = 9;

/// The time that it takes to take the last free unit, where all before it were marked as used.
pub fn last_unit(alloc: Global, rt: &HostRuntime) -> io::Result<Duration> {
    match Units::new(alloc, RESERVED, UNITS) {
        Ok(mut units) => {
            let time = last_of(rt, &mut units);
            drop(units);
            time
        }
        Err(error) => Err(out_of_memory(error)),
    }
}

/// The same of the units of a disk, of which none is used.
fn last_of(rt: &HostRuntime, units: &mut Units) -> io::Result<Duration> {
    if !units.mark(RESERVED, UNITS - RESERVED - 1) {
        return Err(unexpected());
    }
    let start = Instant::now(rt)?;
    let last = units.take(1);
    let time = start.elapsed(rt)?;
    if last == Some(UNITS - 1) {
        Ok(time)
    } else {
        Err(unexpected())
    }
}
