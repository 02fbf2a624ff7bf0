// A run of a row is played.
use crate::line_source::LineSource;
use crate::rows::asked::{
    Each, absent_of, each_of, failing_read, failing_write, rules_of, script_of, status_of,
    times_of, words_of,
};
use crate::rows::checks::{
    compare_counts, compare_output, ends_by_reply, has_second, is_to_stop, replies_in,
};
use crate::rows::findings::{Findings, Trouble};
use crate::rows::line::{Line, Numbered};
use crate::ruled_bay::RuledBay;
use crate::running::{Outside, Seen, perform};
use bay::Bay;
use bay_mem::{MemClock, MemHost, MemSink};
use std::alloc::Global;
use std::cell::Cell;

/// How a row is played.
#[derive(Clone, Copy)]
pub enum Trial {
    /// Once.
    Whole,
    /// Up to the run that is tried, whose calls are counted.
    Count,
    /// The run is stopped after so many calls, or the call of this number fails.
    At(u64),
}

fn outside_of(alloc: Global, lines: &[Numbered<'_>]) -> Result<Outside, Trouble> {
    let times = times_of(alloc, lines)?;
    Ok(Outside {
        host: MemHost::new(alloc, &[])?,
        sink: MemSink::new(alloc, &[failing_write(lines)])?,
        clock: MemClock::new(alloc, &times)?,
    })
}

/// The disks of a row, its lines, and how it is played.
#[derive(Drop)]
pub struct Stage<'a> {
    pub alloc: Global,
    pub bay: Option<RuledBay<'a>>,
    pub row: &'a [Numbered<'a>],
    pub line: &'a Cell<u64>,
    pub trial: Trial,
}

/// Sets which calls of a run are to fail.
fn set_trial(bay: &mut RuledBay<'_>, lines: &[Numbered<'_>], trial: Trial) -> Result<(), Trouble> {
    match (each_of(lines), trial) {
        (Some(Each::Stop), Trial::At(calls)) => bay.stop_after(calls),
        (Some(Each::FailFrom(_)), Trial::At(call)) => bay.fail_at(call)?,
        _ => {}
    }
    Ok(())
}

/// Makes slots absent, or lets them be there.
fn set_absent(bay: &mut RuledBay<'_>, slots: &[u32], absent: bool) {
    for slot in slots {
        bay.set_absent(*slot, absent);
    }
}

impl Stage<'_> {
    /// Sets the rules of a run.
    fn begin(&mut self, lines: &[Numbered<'_>]) -> Result<(), Trouble> {
        let rules = rules_of(self.alloc, self.row, lines)?;
        let absent = absent_of(self.alloc, self.row, lines)?;
        if let Some(bay) = &mut self.bay {
            bay.begin_run(&rules)?;
            set_absent(bay, &absent, true);
            set_trial(bay, lines, self.trial)?;
        }
        Ok(())
    }

    /// Ends a run: all is there again.
    fn end(&mut self, lines: &[Numbered<'_>]) -> Result<(), Trouble> {
        let absent = absent_of(self.alloc, self.row, lines)?;
        if let Some(bay) = &mut self.bay {
            set_absent(bay, &absent, false);
            bay.end_run();
        }
        Ok(())
    }

    /// Takes the disks, runs the script on them, and puts them back.
    fn perform(&mut self, words: &str, lines: &[Numbered<'_>]) -> Result<Seen, Trouble> {
        let words = words_of(self.alloc, words)?;
        let script = script_of(self.alloc, lines)?;
        let outside = outside_of(self.alloc, lines)?;
        let mut source = LineSource::new(&script, failing_read(lines), self.line);
        match self.bay.take() {
            Some(bay) => {
                let (bay, seen) = perform(self.alloc, &words, bay, &mut source, outside);
                drop(self.bay.replace(bay));
                Ok(seen)
            }
            None => {
                drop(outside);
                Err(Trouble::NoMemory)
            }
        }
    }

    /// Plays a run whose line has a number.
    pub fn play_run(
        &mut self,
        findings: &mut Findings,
        number: u64,
        words: &str,
        lines: &[Numbered<'_>],
    ) -> Result<(), Trouble> {
        self.begin(lines)?;
        let seen = self.perform(words, lines)?;
        let judged = self.judge(findings, number, lines, &seen);
        drop(seen);
        judged?;
        self.end(lines)
    }

    /// Compares what a run left with what is wanted.
    fn judge(
        &self,
        findings: &mut Findings,
        number: u64,
        lines: &[Numbered<'_>],
        seen: &Seen,
    ) -> Result<(), Trouble> {
        let Some(bay) = &self.bay else {
            return Err(Trouble::NoMemory);
        };
        match (each_of(lines), self.trial) {
            (Some(_), Trial::Count) => {
                findings.calls = bay.record().len() as u64;
                Err(Trouble::Counted)
            }
            (Some(Each::Stop), _) => {
                let is_answered = seen.status as u64 == status_of(lines);
                findings.seconds.push(is_answered)?;
                if bay.is_stopped() {
                    return Ok(());
                }
                judge_run(self.alloc, findings, number, self.row, lines, bay, seen)
            }
            _ => judge_run(self.alloc, findings, number, self.row, lines, bay, seen),
        }
    }
}

fn judge_run(
    alloc: Global,
    findings: &mut Findings,
    number: u64,
    row: &[Numbered<'_>],
    lines: &[Numbered<'_>],
    bay: &RuledBay<'_>,
    seen: &Seen,
) -> Result<(), Trouble> {
    let is_stopped = bay.is_stopped();
    let Ok(output) = str::from_utf8(seen.sink.bytes()) else {
        return Err(findings.wrong(number, "a text", "other bytes"));
    };
    compare_output(findings, number, lines, output, is_stopped)?;
    if is_to_stop(lines) && !is_stopped {
        return Err(findings.wrong(number, "a stop", "none"));
    }
    if !is_stopped {
        compare_end(findings, number, lines, output, bay.calls(), seen)?;
    }
    compare_sectors(findings, lines, bay)?;
    compare_counts(alloc, findings, row, lines, bay.record())
}

/// Compares the pieces that a run asked for with what is wanted of their places and lengths.
fn compare_sectors(
    findings: &mut Findings,
    lines: &[Numbered<'_>],
    bay: &RuledBay<'_>,
) -> Result<(), Trouble> {
    for numbered in lines {
        match numbered.line {
            Line::Sectors(bytes) if !bay.is_on(bytes) => {
                return Err(findings.wrong(numbered.number, "whole sectors", "parts of one"));
            }
            _ => {}
        }
    }
    Ok(())
}

/// Compares how a run ended that wasn't stopped.
fn compare_end(
    findings: &mut Findings,
    number: u64,
    lines: &[Numbered<'_>],
    output: &str,
    calls: u64,
    seen: &Seen,
) -> Result<(), Trouble> {
    let wanted = status_of(lines);
    if !has_second(lines) && seen.status as u64 != wanted {
        return Err(findings.wrong_number(number, wanted, seen.status as u64));
    }
    let replies = replies_in(output);
    if seen.replies != replies {
        return Err(findings.wrong_number(number, replies, seen.replies));
    }
    let last = seen.marks.last().copied().unwrap_or(0);
    if ends_by_reply(output) && last != calls {
        return Err(findings.wrong_number(number, calls, last));
    }
    Ok(())
}
