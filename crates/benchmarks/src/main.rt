//! Measures what no contract says: that some calls of the tables cost as little as they should.
//! With a word, any one, it prints the ratios of the times; without one it does and prints nothing.
#![tactic(auto)]

mod disk;
mod files;
mod moves;
mod names;
mod paths;
mod records;

use std::alloc::Global;
use std::time::Duration;
use std::{env, io};

fn main(rt: HostRuntime) -> io::Result<()> {
    if env::args(&rt)?.nth(1).is_none() {
        return Ok(());
    }
    show(rt.alloc(), &rt)
}

fn show(alloc: Global, rt: &HostRuntime) -> io::Result<()> {
    show_searches(alloc, rt)?;
    show_adding(alloc, rt)?;
    show_aliases(alloc, rt)?;
    show_reading(alloc, rt)?;
    show_last_unit(alloc, rt)?;
    show_moves(alloc, rt)
}

fn show_searches(alloc: Global, rt: &HostRuntime) -> io::Result<()> {
    let few = paths::searches(alloc, rt, 10)?;
    let many = paths::searches(alloc, rt, 100_000)?;
    let of_few = percent(many, few);
    println!(rt;
        "finding a path beside 100,000 names of another directory: {of_few} % of the time beside 10"
    )
}

fn show_adding(alloc: Global, rt: &HostRuntime) -> io::Result<()> {
    let few = names::adding(alloc, rt, 10)?;
    let many = names::adding(alloc, rt, 60_000)?;
    let of_few = percent(many, few);
    println!(rt; "making 2,000 directories beside 60,000 names: {of_few} % of the time beside 10")
}

fn show_aliases(alloc: Global, rt: &HostRuntime) -> io::Result<()> {
    let few = names::aliases(alloc, rt, 10)?;
    let many = names::aliases(alloc, rt, 60_000)?;
    let of_few = percent(many, few);
    println!(rt;
        "an alias for a file and the loss of its names, beside 60,000 names: {of_few} % of the time beside 10"
    )
}

fn show_reading(alloc: Global, rt: &HostRuntime) -> io::Result<()> {
    let tenth = files::reading(alloc, rt, 1_000)?;
    let all = files::reading(alloc, rt, 10_000)?;
    let times = tenths(all, tenth);
    println!(rt;
        "reading the heads of 10,000 files: {times} tenths of the time of 1,000, so 100 if it is linear"
    )
}

fn show_last_unit(alloc: Global, rt: &HostRuntime) -> io::Result<()> {
    let take = disk::last_unit(alloc, rt)?;
    let of_allowed = percent(take, Duration::from_millis(1));
    println!(rt; "taking the last unit of 16,777,216: {of_allowed} % of a millisecond")
}

fn show_moves(alloc: Global, rt: &HostRuntime) -> io::Result<()> {
    let (all, rest) = moves::searches(alloc, rt)?;
    let times = ratio(all, rest, 1);
    println!(rt;
        "the next move beside 100,000 extents, once a move was made: a search of all takes {times} times the time from the cursor"
    )
}

/// The first time in percent of the second.
fn percent(time: Duration, of: Duration) -> u128 {
    ratio(time, of, 100)
}

/// The first time in tenths of the second.
fn tenths(time: Duration, of: Duration) -> u128 {
    ratio(time, of, 10)
}

fn ratio(time: Duration, of: Duration, scale: u128) -> u128 {
    time.as_nanos().saturating_mul(scale) / of.as_nanos().max(1)
}
