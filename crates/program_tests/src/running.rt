// The program's own call, on disks in memory.
use crate::line_source::LineSource;
use crate::ruled_bay::RuledBay;
use asm_run::{Report, run};
use bay_mem::{MemClock, MemHost, MemSink};
use std::alloc::Global;

/// The seconds of a clock that shows noon, as where nothing else is asked for.
pub const NOON: u64 = 43_200;

/// What a run works on beside the disks.
#[derive(Drop)]
pub struct Outside {
    pub host: MemHost,
    pub sink: MemSink,
    pub clock: MemClock,
}

/// What a run left, but for the disks: what it printed, its status, how many replies it counted,
/// and the count of the disks' calls at the end of each.
#[derive(Drop)]
pub struct Seen {
    pub sink: MemSink,
    pub status: u8,
    pub replies: u64,
    pub marks: Vec<u64>,
}

/// Runs a script on disks. All rows and trials are played by this one call, so that the program is
/// made once for them.
pub fn perform<'a>(
    alloc: Global,
    words: &[String],
    bay: RuledBay<'a>,
    source: &mut LineSource<'_>,
    outside: Outside,
) -> (RuledBay<'a>, Seen) {
    let Outside { host, sink, clock } = outside;
    let Report {
        status,
        replies,
        marks,
        bay,
        host,
        sink,
        clock,
    } = run(alloc, words, bay, host, source, sink, clock);
    drop(host);
    drop(clock);
    let seen = Seen {
        sink,
        status,
        replies,
        marks,
    };
    (bay, seen)
}
