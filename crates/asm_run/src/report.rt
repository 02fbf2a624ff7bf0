// What a run reports.
ghost use Rattle.std.specs.Prelude.{◌≡◌, [], length};
ghost use Rattle.asm_run.specs.Headline.{status_number};

use bay::{Bay, Clock, Host, Sink};
use serving::{Desk, Program, Stop};
use std::alloc::Global;

/// How a run ended: its status, how many replies were printed whole, the count of the disks' calls
/// at the end of each of these, and the outside as it is then.
#[derive(Drop)]
pub struct Report<B, H, K, C> {
    pub status: u8,
    pub replies: u64,
    pub marks: Vec<u64>,
    pub bay: B,
    pub host: H,
    pub sink: K,
    pub clock: C,
}

/// What a program leaves that has served a script.
pub fn ended<B: Bay, H: Host, K: Sink, C: Clock>(
    outcome: Result<(), Stop>,
    program: Program<B, H, K, C>,
) -> Report<B, H, K, C>
    ensures status { result.status ≡ status_number outcome program.refused }
    ensures replies { result.replies ≡ length result.marks.items }
    ensures marks { result.marks.items ≡ program.marks.items }
    ensures outside { (result.bay ≡ program.desk.bay) × (result.sink ≡ program.sink)
        × (result.clock ≡ program.clock) }
    ensures host { result.host ≡ program.desk.host }
{
    let Program {
        desk,
        sink,
        clock,
        marks,
        refused,
        ..
    } = program;
    let Desk { bay, host, .. } = desk;
    Report {
        status: status_of(outcome, refused),
        replies: marks.len() as u64,
        marks,
        bay,
        host,
        sink,
        clock,
    }
}

/// The report of a run that read nothing.
pub fn nothing_done<B, H, K, C>(
    alloc: Global,
    status: u8,
    bay: B,
    host: H,
    sink: K,
    clock: C,
) -> Report<B, H, K, C>
    ensures status { result.status ≡ status }
    ensures replies { result.replies ≡ length result.marks.items }
    ensures marks { result.marks.items ≡ [] }
    ensures outside { (result.bay ≡ bay) × (result.sink ≡ sink) × (result.clock ≡ clock) }
    ensures host { result.host ≡ host }
{
    Report {
        status,
        replies: 0,
        marks: Vec::new(alloc),
        bay,
        host,
        sink,
        clock,
    }
}

fn status_of(outcome: Result<(), Stop>, refused: bool) -> u8
    ensures { result ≡ status_number outcome refused }
{
    match outcome {
        Ok(()) if refused => 1,
        Ok(()) => 0,
        Err(Stop::ReadFault) => 3,
        Err(Stop::WriteFault) => 4,
        Err(Stop::NoMemory) => 5,
        Err(Stop::TooLong) => 6,
    }
}
