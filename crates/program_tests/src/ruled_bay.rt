// Disks in memory of which calls fail by what they are, and which keep a record of their calls.
use crate::calls::{Call, Kind};
use crate::rules::{Fate, Rule, fate_of};
use crate::trace::{Trace, TracedCall};
use bay::{Bay, BayError, Fault};
use bay_mem::{MemBay, NoMemory};
use std::alloc::Global;
use std::cell::Cell;

/// Disks in memory, the rules by which their calls fail, and the record of the calls of a run;
/// where it is asked for, also one of what they wrote and whether they were done.
#[derive(Drop)]
pub struct RuledBay<'a> {
    disks: MemBay,
    rules: Vec<Rule>,
    record: Vec<Call>,
    trace: Trace,
    /// The places and lengths of the run's reads and writes, bit by bit: it has the bits that one
    /// of them has.
    pieces: u64,
    stop: Option<u64>,
    line: &'a Cell<u64>,
}

impl<'a> RuledBay<'a> {
    ghost use Rattle.bay_mem.specs.MemState as mem;
    ghost use Rattle.program_tests.specs.Untold.{Stays};

    /// Disks of zeros of these sizes by slot. The cell has the number of lines that were read of a
    /// script.
    pub fn new(
        alloc: Global,
        sizes: &[Option<u64>],
        line: &'a Cell<u64>,
    ) -> Result<RuledBay<'a>, NoMemory> {
        Ok(RuledBay {
            disks: MemBay::new(alloc, sizes)?,
            rules: Vec::new(alloc),
            record: Vec::new(alloc),
            trace: Trace::none(alloc),
            pieces: 0,
            stop: None,
            line,
        })
    }

    /// These disks, whose calls are kept with what they write.
    pub fn traced(alloc: Global, disks: MemBay, line: &'a Cell<u64>) -> RuledBay<'a> {
        RuledBay {
            disks,
            rules: Vec::new(alloc),
            record: Vec::new(alloc),
            trace: Trace::whole(alloc),
            pieces: 0,
            stop: None,
            line,
        }
    }

    /// The calls with what they wrote. None where some aren't kept.
    pub fn into_calls(self) -> Option<Vec<TracedCall>> {
        let RuledBay {
            disks,
            rules,
            record,
            trace,
            ..
        } = self;
        drop(disks);
        drop(rules);
        drop(record);
        trace.into_calls()
    }

    /// A run begins, with these rules.
    pub fn begin_run(&mut self, rules: &[Rule]) -> Result<(), NoMemory> {
        self.record.clear();
        self.pieces = 0;
        self.rules.clear();
        self.rules.extend_from_slice(rules)?;
        Ok(())
    }

    /// A run has ended: all is detached and there again, and no rule holds.
    pub fn end_run(&mut self) {
        self.rules.clear();
        self.stop = None;
        self.disks.restart();
    }

    pub fn set_absent(&mut self, slot: u32, absent: bool) {
        self.disks.set_absent(slot, absent);
    }

    /// After so many calls more the run stops.
    pub fn stop_after(&mut self, calls: u64)
        ensures { Stays (mem.state_of self.old.disks) (mem.state_of self.new.disks) }
    {
        let last = self.disks.calls().saturating_add(calls);
        self.stop = Some(last);
        self.disks.stop_after(last);
    }

    /// The call of this number fails, counted from now.
    pub fn fail_at(&mut self, call: u64) -> Result<(), NoMemory>
        ensures { Stays (mem.state_of self.old.disks) (mem.state_of self.new.disks) }
    {
        let number = self.disks.calls().saturating_add(call);
        self.disks.fail_at(number)
    }

    /// Whether the run was stopped.
    pub fn is_stopped(&self) -> bool {
        match self.stop {
            Some(last) => self.disks.calls() > last,
            None => false,
        }
    }

    /// The calls of the run.
    pub fn record(&self) -> &[Call] {
        &self.record
    }

    /// Whether each read and write of the run was on multiples of so many bytes, a power of two.
    pub fn is_on(&self, bytes: u64) -> bool {
        bytes != 0 && self.pieces % bytes == 0
    }

    fn add_piece(&mut self, at: u64, len: usize)
        ensures { Stays (mem.state_of self.old.disks) (mem.state_of self.new.disks) }
    {
        self.pieces = self.pieces | at | len as u64;
    }

    // A call comes. Want of memory for the record or for a failure is not told: the row fails by
    // what comes of it.
    fn begin(&mut self, kind: Kind, slot: u32, bytes: u64)
        ensures { Stays (mem.state_of self.old.disks) (mem.state_of self.new.disks) }
    {
        let call = Call {
            line: self.line.get(),
            slot,
            kind,
            bytes,
        };
        let _ = self.record.push(call);
        match fate_of(&mut self.rules, call) {
            Fate::IsDone => {}
            Fate::Fails => {
                let _ = self.fail_at(1);
            }
            Fate::Stops => self.stop_after(0),
        }
    }
}

impl Bay for RuledBay<'_> {
    ghost use Rattle.program_tests.specs.RuledBays.{ruled_bay_state};
    ghost use Rattle.program_tests.specs.RuledSound.{ruled_bay_is_sound};

    ghost state = { ruled_bay_state };

    ghost sound = { ruled_bay_is_sound };

    fn attach(&mut self, slot: u32, path: &str) -> Result<u64, BayError> {
        self.begin(Kind::Attach, slot, 0);
        let answer = self.disks.attach(slot, path);
        self.trace.note(Kind::Attach, slot, 0, &[], answer.is_ok());
        answer
    }

    fn make(&mut self, slot: u32, path: &str, size: u64) -> Result<(), BayError> {
        self.begin(Kind::Make, slot, 0);
        let answer = self.disks.make(slot, path, size);
        self.trace.note(Kind::Make, slot, size, &[], answer.is_ok());
        answer
    }

    fn read(&mut self, slot: u32, at: u64, buf: &mut [u8]) -> Result<(), Fault> {
        self.begin(Kind::Read, slot, 0);
        self.add_piece(at, buf.len());
        let answer = self.disks.read(slot, at, buf);
        self.trace.note(Kind::Read, slot, at, &[], answer.is_ok());
        answer
    }

    fn write(&mut self, slot: u32, at: u64, bytes: &[u8]) -> Result<(), Fault> {
        self.begin(Kind::Write, slot, bytes.len() as u64);
        self.add_piece(at, bytes.len());
        let answer = self.disks.write(slot, at, bytes);
        self.trace
            .note(Kind::Write, slot, at, bytes, answer.is_ok());
        answer
    }

    fn sync(&mut self, slot: u32) -> Result<(), Fault> {
        self.begin(Kind::Sync, slot, 0);
        let answer = self.disks.sync(slot);
        self.trace.note(Kind::Sync, slot, 0, &[], answer.is_ok());
        answer
    }

    fn calls(&self) -> u64 {
        self.disks.calls()
    }

    fn written(&self, slot: u32) -> u64 {
        self.disks.written(slot)
    }
}
