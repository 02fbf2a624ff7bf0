// A slice of a rebalance, and slices to its end.
ghost use Rattle.std.specs.Prelude.{◌≤◌, IfErr, IfOk, IfSome, OnOk};
ghost use Rattle.resync.specs.group_engine.Members.{LetsGo};
ghost use Rattle.resync.specs.group_engine.Mounts.{IsMounted, Takes};
ghost use Rattle.relocation.specs.Shortfalls.{EndCause};
ghost use Rattle.relocation.specs.Slices.{Goes, SliceCause};

use crate::asking::{Asked, Slice, ask};
use crate::ending::end_with;
use crate::steps::{add_directory, copy_step, move_tables};
use asm_base::NoMemory;
use bay::Bay;
use refusal_lines::Refusal;
use resync::{Flight, Mounted, items_say_tables, piece_buffer, tables_have_items};
use std::alloc::Global;

/// Does at most so many steps of the active rebalance, and after the last of them asks for the end
/// again. Gives the number of steps beside the answer, also of one that is refused; ends and disks
/// that leave are no steps. Refusals: ReadFault, where all usable copies of an extent failed, and
/// the move that is on its way stays; WriteFault, where its target did, and the move is given up,
/// or where the disk of a new directory copy did: the rebalance stays active then, and no mode
/// changes; Dismounted; NoMemory.
pub fn slice<B: Bay>(
    m: &mut Mounted,
    alloc: Global,
    bay: &mut B,
    power: u16,
) -> (Result<Slice, Refusal>, u64)
    requires takes { Takes m.old (B.state bay.old) }
    // The group's parts agree, it takes the next call, and the disks of others stay; some disks may
    // have left.
    ensures lets { LetsGo m.old m.new (B.state bay.old) (B.state bay.new) }
    ensures mounted { OnOk result.0 (IsMounted m.new) }
    ensures cause { IfErr result.0 (SliceCause m.old m.new (B.state bay.old) (B.state bay.new)) }
    ensures ends { IfOk result.0 (EndCause m.new) }
    ensures steps { result.1 ≤ power }
{
    match m.takes_calls() {
        Ok(()) => slice_mounted(m, alloc, bay, power),
        Err(refusal) => (Err(refusal), 0),
    }
}

/// The slice of a group that takes calls.
fn slice_mounted<B: Bay>(
    m: &mut Mounted,
    alloc: Global,
    bay: &mut B,
    power: u16,
) -> (Result<Slice, Refusal>, u64)
    requires mounted { IsMounted m.old }
    requires takes { Takes m.old (B.state bay.old) }
    ensures lets { LetsGo m.old m.new (B.state bay.old) (B.state bay.new) }
    ensures mounted { OnOk result.0 (IsMounted m.new) }
    ensures cause { IfErr result.0 (SliceCause m.old m.new (B.state bay.old) (B.state bay.new)) }
    ensures ends { IfOk result.0 (EndCause m.new) }
    ensures steps { result.1 ≤ power }
{
    let mut buffer = Vec::new(alloc);
    do_steps(m, alloc, bay, power as u64, &mut buffer)
}

/// The steps of the slice, over a buffer for a piece, which the first that copies takes.
fn do_steps<B: Bay>(
    m: &mut Mounted,
    alloc: Global,
    bay: &mut B,
    power: u64,
    buffer: &mut Vec<u8>,
) -> (Result<Slice, Refusal>, u64)
    requires mounted { IsMounted m.old }
    requires takes { Takes m.old (B.state bay.old) }
    ensures lets { LetsGo m.old m.new (B.state bay.old) (B.state bay.new) }
    ensures mounted { OnOk result.0 (IsMounted m.new) }
    ensures cause { IfErr result.0 (SliceCause m.old m.new (B.state bay.old) (B.state bay.new)) }
    ensures ends { IfOk result.0 (EndCause m.new) }
    ensures steps { result.1 ≤ power }
{
    for done in 0..power {
        match step(m, alloc, bay, buffer) {
            Ok(None) => {}
            Ok(Some(end)) => return (Ok(end), done),
            Err(refusal) => return (Err(refusal), done),
        }
    }
    (last(m, alloc, bay), power)
}

/// Asks for the next step, and does it, or ends the rebalance and gives its end.
fn step<B: Bay>(
    m: &mut Mounted,
    alloc: Global,
    bay: &mut B,
    buffer: &mut Vec<u8>,
) -> Result<Option<Slice>, Refusal>
    requires mounted { IsMounted m.old }
    requires takes { Takes m.old (B.state bay.old) }
    ensures lets { LetsGo m.old m.new (B.state bay.old) (B.state bay.new) }
    ensures mounted { OnOk result (IsMounted m.new) }
    ensures cause { IfErr result (SliceCause m.old m.new (B.state bay.old) (B.state bay.new)) }
    ensures ends { IfOk result (λ ended. IfSome ended (EndCause m.new)) }
{
    match ask(m, bay) {
        Asked::End { end } => match ended(m, alloc, bay, end) {
            Ok(end) => Ok(Some(end)),
            Err(refusal) => Err(refusal),
        },
        asked => match do_step(m, alloc, bay, asked, buffer) {
            Ok(()) => Ok(None),
            Err(refusal) => Err(refusal),
        },
    }
}

/// Asks for the end after the last step.
fn last<B: Bay>(m: &mut Mounted, alloc: Global, bay: &mut B) -> Result<Slice, Refusal>
    requires mounted { IsMounted m.old }
    requires takes { Takes m.old (B.state bay.old) }
    ensures lets { LetsGo m.old m.new (B.state bay.old) (B.state bay.new) }
    ensures mounted { OnOk result (IsMounted m.new) }
    ensures cause { IfErr result (SliceCause m.old m.new (B.state bay.old) (B.state bay.new)) }
    ensures ends { IfOk result (EndCause m.new) }
{
    match ask(m, bay) {
        Asked::End { end } => ended(m, alloc, bay, end),
        _ => Ok(Slice::More),
    }
}

/// Ends the rebalance, and gives its end.
fn ended<B: Bay>(m: &mut Mounted, alloc: Global, bay: &mut B, end: Slice) -> Result<Slice, Refusal>
    requires mounted { IsMounted m.old }
    requires takes { Takes m.old (B.state bay.old) }
    requires why { EndCause m.old end }
    ensures lets { LetsGo m.old m.new (B.state bay.old) (B.state bay.new) }
    ensures mounted { OnOk result (IsMounted m.new) }
    ensures cause { IfErr result (SliceCause m.old m.new (B.state bay.old) (B.state bay.new)) }
    ensures ends { IfOk result (EndCause m.new) }
{
    tables_have_items();
    items_say_tables();
    match end_with(m, alloc, bay, end) {
        Ok(()) => Ok(end),
        Err(refusal) => Err(refusal),
    }
}

/// Does a step.
fn do_step<B: Bay>(
    m: &mut Mounted,
    alloc: Global,
    bay: &mut B,
    asked: Asked,
    buffer: &mut Vec<u8>,
) -> Result<(), Refusal>
    requires mounted { IsMounted m.old }
    requires takes { Takes m.old (B.state bay.old) }
    ensures { Goes m.old result m.new (B.state bay.old) (B.state bay.new) }
{
    match asked {
        Asked::Copy { flight } => copy_with(m, alloc, bay, flight, buffer),
        Asked::Directory { to } => add_directory(m, alloc, bay, to),
        Asked::Status { to } => move_tables(m, alloc, bay, to),
        // An end is no step.
        Asked::End { end: _ } => Err(Refusal::NoMemory),
        Asked::Unknown => Err(Refusal::NoMemory),
    }
}

/// Does a step that copies. It takes the buffer, where none before it did.
fn copy_with<B: Bay>(
    m: &mut Mounted,
    alloc: Global,
    bay: &mut B,
    flight: Flight,
    buffer: &mut Vec<u8>,
) -> Result<(), Refusal>
    requires mounted { IsMounted m.old }
    requires takes { Takes m.old (B.state bay.old) }
    ensures { Goes m.old result m.new (B.state bay.old) (B.state bay.new) }
{
    match take_buffer(alloc, buffer) {
        Ok(()) => copy_step(m, alloc, bay, flight, buffer),
        Err(NoMemory) => Err(Refusal::NoMemory),
    }
}

/// Makes an empty buffer one for the longest piece.
fn take_buffer(alloc: Global, buffer: &mut Vec<u8>) -> Result<(), NoMemory> {
    if buffer.is_empty() {
        *buffer = piece_buffer(alloc)?;
    }
    Ok(())
}

/// Does slices of this power until one doesn't answer More. Gives the number of all their steps
/// beside the answer of the last. The refusals are those of a slice. By a power of 0 nothing is
/// done, and the answer is More.
pub fn run_to_end<B: Bay>(
    m: &mut Mounted,
    alloc: Global,
    bay: &mut B,
    power: u16,
) -> (Result<Slice, Refusal>, u64)
    requires takes { Takes m.old (B.state bay.old) }
    ensures lets { LetsGo m.old m.new (B.state bay.old) (B.state bay.new) }
    ensures mounted { OnOk result.0 (IsMounted m.new) }
    ensures cause { IfErr result.0 (SliceCause m.old m.new (B.state bay.old) (B.state bay.new)) }
    ensures ends { IfOk result.0 (EndCause m.new) }
{
    match m.takes_calls() {
        Ok(()) => run_slices(m, alloc, bay, power),
        Err(refusal) => (Err(refusal), 0),
    }
}

/// The same of a group that takes calls.
fn run_slices<B: Bay>(
    m: &mut Mounted,
    alloc: Global,
    bay: &mut B,
    power: u16,
) -> (Result<Slice, Refusal>, u64)
    requires mounted { IsMounted m.old }
    requires takes { Takes m.old (B.state bay.old) }
    ensures lets { LetsGo m.old m.new (B.state bay.old) (B.state bay.new) }
    ensures mounted { OnOk result.0 (IsMounted m.new) }
    ensures cause { IfErr result.0 (SliceCause m.old m.new (B.state bay.old) (B.state bay.new)) }
    ensures ends { IfOk result.0 (EndCause m.new) }
{
    if power == 0 {
        return (Ok(Slice::More), 0);
    }
    let mut steps = 0u64;
    for _ in 0..u64::MAX {
        let (answer, done) = slice(m, alloc, bay, power);
        steps = steps.saturating_add(done);
        match answer {
            Ok(Slice::More) => {}
            Ok(end) => return (Ok(end), steps),
            Err(refusal) => return (Err(refusal), steps),
        }
    }
    // Each slice does a step at least, and each move leaves less to do, so that this doesn't come.
    (Err(Refusal::NoMemory), steps)
}
