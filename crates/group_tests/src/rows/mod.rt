//! What no clause says: that each call is done where memory is had and no disk fails, what the
//! record, the tables, the bytes and the disks are then, and which refusal comes where disks fail.
//! The expected values come from the rules.

mod bytes;
mod commits;
mod copies;
mod disks;
mod ends;
mod numbers;
mod places;
mod records;
mod reports;
mod resyncs;
mod shared;
mod shifts;
mod statements;

use crate::steps::Wrong;
use bytes::play_bytes;
use commits::play_commits;
use copies::play_copies;
use disks::play_disks;
use ends::play_ends;
use numbers::play_numbers;
use places::play_places;
use records::play_records;
use reports::play_reports;
use resyncs::play_resyncs;
use shifts::play_shifts;
use statements::play_statements;
use std::alloc::Global;
use std::test::*;

fn play_engine(alloc: Global) -> Result<(), Wrong> {
    play_commits(alloc)?;
    play_records(alloc)?;
    play_copies(alloc)?;
    play_disks(alloc)?;
    play_ends(alloc)
}

#[test]
fn mounted_groups(rt: HostRuntime) -> Result<(), Fail> {
    play_engine(rt.alloc())?;
    Ok(())
}

fn play_calls(alloc: Global) -> Result<(), Wrong> {
    play_numbers(alloc)?;
    play_places(alloc)?;
    play_bytes(alloc)?;
    play_statements(alloc)?;
    play_resyncs(alloc)?;
    play_shifts(alloc)?;
    play_reports(alloc)
}

#[test]
fn calls_on_groups(rt: HostRuntime) -> Result<(), Fail> {
    play_calls(rt.alloc())?;
    Ok(())
}
