// Scripts, played to disks in memory by the program's own call.
use crate::line_source::LineSource;
use crate::ruled_bay::RuledBay;
use crate::running::{NOON, Outside, Seen, perform};
use crate::trace::TracedCall;
use bay::Bay;
use bay_mem::{MemBay, MemClock, MemHost, MemSink};
use std::alloc::{AllocError, Global};
use std::cell::Cell;

/// The disks' size in bytes.
pub const SIZE: u64 = 4_194_304;

/// Four disks of zeros.
pub fn four_disks(alloc: Global) -> Option<MemBay> {
    MemBay::new(alloc, &[Some(SIZE), Some(SIZE), Some(SIZE), Some(SIZE)]).ok()
}

/// What a run printed, how it ended, the calls on its disks, and how many of these were over at the
/// end of each reply.
#[derive(Drop)]
pub struct Played {
    pub status: u8,
    pub text: Vec<u8>,
    pub marks: Vec<usize>,
    pub calls: Vec<TracedCall>,
}

fn paths(alloc: Global) -> Result<Vec<String>, AllocError> {
    let mut words = Vec::new(alloc);
    for word in ["d0", "d1", "d2", "d3"] {
        words.push(String::from_str(alloc, word)?)?;
    }
    Ok(words)
}

// Counts from a count on.
fn counts_from(alloc: Global, marks: &[u64], start: u64) -> Result<Vec<usize>, AllocError> {
    let mut counts = Vec::new(alloc);
    for mark in marks {
        counts.push(mark.saturating_sub(start) as usize)?;
    }
    Ok(counts)
}

// What is kept of a run. None where the record of the calls isn't complete.
fn kept(alloc: Global, bay: RuledBay<'_>, seen: Seen, start: u64) -> Option<Played> {
    let calls = bay.into_calls()?;
    let Seen {
        sink,
        status,
        marks,
        replies: _,
    } = seen;
    let text = sink.bytes().to_vec(alloc).ok()?;
    let marks = counts_from(alloc, &marks, start).ok()?;
    Some(Played {
        status,
        text,
        marks,
        calls,
    })
}

// What a run works on beside the disks: a clock that shows noon, and no call of a host or a sink
// that fails.
fn outside_at_noon(alloc: Global) -> Option<Outside> {
    Some(Outside {
        host: MemHost::new(alloc, &[]).ok()?,
        sink: MemSink::new(alloc, &[]).ok()?,
        clock: MemClock::new(alloc, &[NOON]).ok()?,
    })
}

/// Plays a script to four disks at noon. None where there is no memory for it.
pub fn play(alloc: Global, script: &[u8], disks: MemBay) -> Option<Played> {
    let start = disks.calls();
    let line = Cell::new(0);
    let bay = RuledBay::traced(alloc, disks, &line);
    let words = paths(alloc).ok()?;
    let outside = outside_at_noon(alloc)?;
    let mut source = LineSource::new(script, None, &line);
    let (bay, seen) = perform(alloc, &words, bay, &mut source, outside);
    kept(alloc, bay, seen, start)
}
