// What no clause says: that calls succeed where memory is had, and what a stopped write leaves.
ghost use Rattle.std.specs.Prelude.{◌+◌, ◌≤◌, length};
ghost use Rattle.bay.specs.State.{IsOnSectors};

use crate::rows::{Wrong, row};
use bay::{Bay, Clock, Host, Sink, Source, write_all};
use bay_mem::{MemBay, MemClock, MemHost, MemSink, MemSource};
use std::alloc::Global;

// Attaches slot 0 and writes there. Two calls.
fn writes(bay: &mut MemBay, at: u64, bytes: &[u8]) -> bool
    requires inside { at + length bytes.now ≤ 16384 }
    requires sectors { IsOnSectors at (length bytes.now) }
{
    match bay.attach(0, "d0") {
        Ok(size) => size >= 16384 && bay.write(0, at, bytes).is_ok(),
        Err(_) => false,
    }
}

// Attaches slot 0 and reads there. Two calls.
fn reads(bay: &mut MemBay, at: u64, buf: &mut [u8]) -> bool
    requires inside { at + length buf.old ≤ 16384 }
    requires sectors { IsOnSectors at (length buf.old) }
{
    match bay.attach(0, "d0") {
        Ok(size) => size >= 16384 && bay.read(0, at, buf).is_ok(),
        Err(_) => false,
    }
}

// Attaches slot 0 and syncs it. Two calls.
fn syncs(bay: &mut MemBay) -> bool {
    match bay.attach(0, "d0") {
        Ok(size) => size >= 16384 && bay.sync(0).is_ok(),
        Err(_) => false,
    }
}

fn are_read_across_pages(bay: &mut MemBay) -> Result<(), Wrong> {
    row("no second slot", bay.attach(1, "d1").is_err())?;
    row("a write across pages", writes(bay, 3584, &[7; 1024]))?;
    row("a sync", syncs(bay))?;
    let mut buf = [1; 2048];
    row("a read across pages", reads(bay, 3072, &mut buf))?;
    let is_read = buf[511] == 0 && buf[512] == 7 && buf[1535] == 7 && buf[1536] == 0;
    row("written bytes are read across pages", is_read)?;
    row(
        "calls and written bytes",
        bay.calls() == 7 && bay.written(0) == 1024,
    )
}

fn leave_the_first_half(bay: &mut MemBay) -> Result<(), Wrong> {
    bay.stop_after(3);
    row("a write before the stop", writes(bay, 0, &[1; 512]))?;
    row("a write that stops", !writes(bay, 512, &[2; 1024]))?;
    row("a write after the stop", !writes(bay, 4096, &[3; 512]))?;
    bay.restart();
    let mut buf = [9; 4608];
    row("a read after the restart", reads(bay, 0, &mut buf))?;
    row(
        "a write before the stop stays",
        buf[0] == 1 && buf[511] == 1,
    )?;
    let is_half = buf[512] == 2 && buf[1023] == 2 && buf[1024] == 0 && buf[1535] == 0;
    row("a stopped write leaves its first half", is_half)?;
    row("a write after the stop leaves nothing", buf[4096] == 0)?;
    row(
        "calls and bytes of a stop",
        bay.calls() == 7 && bay.written(0) == 1536,
    )
}

fn fail_as_named(bay: &mut MemBay) -> Result<(), Wrong> {
    row("a call is named", bay.fail_at(2).is_ok())?;
    let mut buf = [0; 512];
    row("a named call fails", !reads(bay, 0, &mut buf))?;
    row("the next call doesn't fail", reads(bay, 0, &mut buf))?;
    bay.set_absent(0, true);
    row("an absent slot fails", !writes(bay, 0, &[1; 512]))?;
    bay.set_absent(0, false);
    row(
        "a slot that is back is read",
        reads(bay, 0, &mut buf) && buf[0] == 0,
    )?;
    row("a disk is made", bay.make(0, "d0", 1024).is_ok())?;
    let is_short = bay.attach(0, "d0").is_ok_and(|size| size == 1024);
    row("a disk has its new size", is_short)?;
    row(
        "no disk is made at no slot",
        bay.make(1, "d1", 1024).is_err(),
    )
}

/// What is tried on a disk in memory.
#[derive(Clone, Copy)]
enum Trial {
    AcrossPages,
    FirstHalf,
    Named,
}

fn try_disk(alloc: Global, slots: &[Option<u64>], trial: Trial) -> Result<(), Wrong> {
    match MemBay::new(alloc, slots) {
        Ok(mut bay) => {
            let tried = match trial {
                Trial::AcrossPages => are_read_across_pages(&mut bay),
                Trial::FirstHalf => leave_the_first_half(&mut bay),
                Trial::Named => fail_as_named(&mut bay),
            };
            drop(bay);
            tried
        }
        Err(_) => Err("memory"),
    }
}

fn keeps_files(host: &mut MemHost) -> Result<(), Wrong> {
    host.put("in", b"abcd").map_err(|_| "a file is put")?;
    let mut buf = [0; 2];
    let is_read = host.read("in", 1, &mut buf).is_ok() && buf[0] == b'b' && buf[1] == b'c';
    row("a file is read", is_read)?;
    row("a size", host.size("in").is_ok_and(|size| size == 4))?;
    row("no size of no file", host.size("out").is_err())?;
    row("the fourth call fails", host.create("out").is_err())?;
    row("a file is made", host.create("out").is_ok())?;
    row("bytes are appended", host.append("out", b"xy").is_ok())?;
    row("a byte is appended", host.append("out", b"z").is_ok())?;
    row(
        "nothing is appended to no file",
        host.append("none", b"z").is_err(),
    )?;
    row(
        "the size of all",
        host.size("out").is_ok_and(|size| size == 3),
    )
}

fn try_host(alloc: Global) -> Result<(), Wrong> {
    match MemHost::new(alloc, &[4]) {
        Ok(mut host) => {
            let tried = keeps_files(&mut host);
            drop(host);
            tried
        }
        Err(_) => Err("memory"),
    }
}

fn gives_its_bytes(source: &mut MemSource) -> Result<(), Wrong> {
    let mut buf = [0; 2];
    let is_read = source.read(&mut buf).is_ok_and(|n| n == 2) && buf[0] == b'a' && buf[1] == b'b';
    row("two bytes of a source", is_read)?;
    row(
        "the second call of a source fails",
        source.read(&mut buf).is_err(),
    )?;
    let is_read = source.read(&mut buf).is_ok_and(|n| n == 1) && buf[0] == b'c';
    row("the last byte of a source", is_read)?;
    row(
        "the end of a source",
        source.read(&mut buf).is_ok_and(|n| n == 0),
    )
}

fn try_source(alloc: Global) -> Result<(), Wrong> {
    match MemSource::new(alloc, b"abc", &[2]) {
        Ok(mut source) => {
            let tried = gives_its_bytes(&mut source);
            drop(source);
            tried
        }
        Err(_) => Err("memory"),
    }
}

fn takes_bytes(sink: &mut MemSink) -> Result<(), Wrong> {
    row("a sink takes bytes", write_all(sink, b"abc").is_ok())?;
    row(
        "the second call of a sink fails",
        write_all(sink, b"de").is_err(),
    )?;
    row(
        "a sink takes a byte",
        sink.write(b"f").is_ok_and(|n| n == 1),
    )?;
    row("a sink has its bytes", sink.bytes() == b"abcf".as_slice())
}

fn try_sink(alloc: Global) -> Result<(), Wrong> {
    match MemSink::new(alloc, &[2]) {
        Ok(mut sink) => {
            let tried = takes_bytes(&mut sink);
            drop(sink);
            tried
        }
        Err(_) => Err("memory"),
    }
}

/// Whether a clock of these times tells them in turn: the first, the second, and that again.
fn tells(alloc: Global, times: &[u64], told: [u64; 3]) -> bool {
    match MemClock::new(alloc, times) {
        Ok(mut clock) => {
            let is_told = clock.now() == told[0]
                && clock.now() == told[1]
                && clock.now() == told[2];
            drop(clock);
            is_told
        }
        Err(_) => false,
    }
}

pub fn play_memory(alloc: Global) -> Result<(), Wrong> {
    try_disk(alloc, &[Some(16384), None], Trial::AcrossPages)?;
    try_disk(alloc, &[Some(16384)], Trial::FirstHalf)?;
    try_disk(alloc, &[Some(16384)], Trial::Named)?;
    try_host(alloc)?;
    try_source(alloc)?;
    try_sink(alloc)?;
    row(
        "a clock keeps its last time",
        tells(alloc, &[5, 9], [5, 9, 9]),
    )?;
    row("a clock without times", tells(alloc, &[], [0, 0, 0]))
}
