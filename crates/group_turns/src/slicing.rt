// Slices of resync and rebalance, and how they ended.
ghost use Rattle.std.specs.Prelude.{◌≡◌, IfOk};
ghost use Rattle.std.specs.Option.{option_map};
ghost use Rattle.event_lines.specs.Said.{rebalanced_said, resynced_said};
ghost use Rattle.disk_modes.specs.group_engine.Members.{LetsGo};
ghost use Rattle.disk_modes.specs.group_engine.Mounts.{IsMounted, Takes};
ghost use Rattle.relocation.specs.Shortfalls.{EndCause};
ghost use Rattle.group_turns.specs.Slices.{IsMovedLine, failed_rebalance, failed_resync, rebalanced_by, resynced_by};
ghost use Rattle.group_turns.specs.Turns.{AfterReply, IsLineOf, OnEvent, OnIdle, OnWork, IsWork};

use crate::failure::{Failure, failure_of, shown_name};
use crate::taking::Turned;
use bay::Bay;
use disk_modes::Mounted;
use event_lines::{Event, Rebalanced, Resynced};
use line_buffer::LineBuffer;
use refusal_lines::Refusal;
use relocation::{Resynced as Synced, Slice, slice, sync_slice, syncing_disk};
use std::alloc::Global;

/// How a slice of a rebalance ended, or the slices of a whole one, with the steps of it and each
/// disk by its name. None for want of memory.
pub fn rebalanced<'a>(
    m: &'a Mounted,
    sliced: &Result<Slice, Refusal>,
    steps: u64,
) -> Option<Rebalanced<'a>>
    ensures { option_map rebalanced_said result ≡ rebalanced_by m.now sliced.now steps }
{
    match sliced {
        Ok(Slice::More) => Some(Rebalanced::MovesLeft { steps }),
        Ok(Slice::Done) => Some(Rebalanced::Finished { steps }),
        Ok(Slice::NoSpace(extent)) => Some(Rebalanced::OutOfSpace {
            steps,
            extent: *extent,
        }),
        Ok(Slice::Lost(extent)) => Some(Rebalanced::LostExtent {
            steps,
            extent: *extent,
        }),
        Err(refusal) => failed_rebalance(m, failure_of(refusal), steps),
    }
}

fn failed_rebalance<'a>(m: &'a Mounted, failure: Failure, steps: u64) -> Option<Rebalanced<'a>>
    ensures { option_map rebalanced_said result ≡ failed_rebalance m.now failure steps }
{
    match failure {
        Failure::Fault { disk } => Some(Rebalanced::MoveFault {
            steps,
            disk: shown_name(m, disk),
        }),
        Failure::Dismounted { disk } => Some(Rebalanced::MoveEnds {
            disk: shown_name(m, disk),
        }),
        Failure::NoMemory => None,
    }
}

/// How a slice of a resync ended, or the slices of a whole one, with the steps of it and each disk
/// by its name. None for want of memory.
pub fn resynced<'a>(
    m: &'a Mounted,
    synced: &Result<Synced, Refusal>,
    steps: u64,
) -> Option<Resynced<'a>>
    ensures { option_map resynced_said result ≡ resynced_by m.now synced.now steps }
{
    match synced {
        Ok(Synced::More) => Some(Resynced::MarksLeft { steps }),
        Ok(Synced::Online) => Some(Resynced::Back { steps }),
        Ok(Synced::Left(extent)) => Some(Resynced::LeftMarked { extent: *extent }),
        Err(refusal) => failed_resync(m, failure_of(refusal), steps),
    }
}

fn failed_resync<'a>(m: &'a Mounted, failure: Failure, steps: u64) -> Option<Resynced<'a>>
    ensures { option_map resynced_said result ≡ failed_resync m.now failure steps }
{
    match failure {
        Failure::Fault { disk } => Some(Resynced::SyncFault {
            steps,
            disk: shown_name(m, disk),
        }),
        Failure::Dismounted { disk } => Some(Resynced::SyncEnds {
            disk: shown_name(m, disk),
        }),
        Failure::NoMemory => None,
    }
}

/// Writes the line of a slice of a rebalance. There is none for want of memory.
fn write_rebalance(
    m: &Mounted,
    sliced: Result<Slice, Refusal>,
    steps: u64,
    line: &mut LineBuffer,
) -> Turned
    requires why { IfOk sliced (EndCause m.now) }
    ensures work { IsWork result }
    ensures line { OnEvent result (IsLineOf m.now.name AfterReply line.new) }
    ensures moved { OnEvent result (IsMovedLine m.now line.new) }
{
    let how = rebalanced(m, &sliced, steps);
    drop(sliced);
    match how {
        Some(how) => {
            Event::Moved {
                group: m.name(),
                how,
            }
            .write(line);
            Turned::Happened
        }
        None => Turned::NoMemory,
    }
}

/// Writes the line of a slice of the resync of a disk. There is none for want of memory.
fn write_resync(
    m: &Mounted,
    disk: u8,
    synced: Result<Synced, Refusal>,
    steps: u64,
    line: &mut LineBuffer,
) -> Turned
    ensures work { IsWork result }
    ensures line { OnEvent result (IsLineOf m.now.name AfterReply line.new) }
{
    let how = resynced(m, &synced, steps);
    drop(synced);
    match how {
        Some(how) => {
            Event::Synced {
                group: m.name(),
                disk: shown_name(m, disk),
                how,
            }
            .write(line);
            Turned::Happened
        }
        None => Turned::NoMemory,
    }
}

/// Runs a slice of the resync of the least Syncing disk, where there is one, and writes the line of
/// it.
pub fn resync_slice<B: Bay>(
    m: &mut Mounted,
    alloc: Global,
    bay: &mut B,
    line: &mut LineBuffer,
) -> Turned
    requires takes { Takes m.old (B.state bay.old) }
    requires mounted { IsMounted m.old }
    ensures idle { OnIdle result ((m.new ≡ m.old) × (bay.new ≡ bay.old)) }
    ensures lets { OnWork result (IsMounted m.old
        × LetsGo m.old m.new (B.state bay.old) (B.state bay.new)) }
    ensures line { OnEvent result (IsLineOf m.old.name AfterReply line.new) }
{
    match syncing_disk(m) {
        Some(disk) => {
            let (synced, steps) = sync_slice(m, alloc, bay, disk);
            write_resync(m, disk, synced, steps, line)
        }
        None => Turned::Idle,
    }
}

/// Runs a slice of the rebalance, where one is active with a power of at least 1, and writes the
/// line of it.
pub fn rebalance_slice<B: Bay>(
    m: &mut Mounted,
    alloc: Global,
    bay: &mut B,
    line: &mut LineBuffer,
) -> Turned
    requires takes { Takes m.old (B.state bay.old) }
    requires mounted { IsMounted m.old }
    ensures idle { OnIdle result ((m.new ≡ m.old) × (bay.new ≡ bay.old)) }
    ensures lets { OnWork result (IsMounted m.old
        × LetsGo m.old m.new (B.state bay.old) (B.state bay.new)) }
    ensures line { OnEvent result (IsLineOf m.old.name AfterReply line.new) }
    ensures moved { OnEvent result (IsMovedLine m.new line.new) }
{
    match m.catalog().rebalance() {
        Some(power) if power >= 1 => {
            let (sliced, steps) = slice(m, alloc, bay, power);
            write_rebalance(m, sliced, steps, line)
        }
        _ => Turned::Idle,
    }
}
