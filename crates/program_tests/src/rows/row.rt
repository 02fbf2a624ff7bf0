// A row is played, and what must be seen of its images between its runs.
use crate::rows::asked::{Each, each_of, sizes_of, slot_of, unreadable};
use crate::rows::checks::second_of;
use crate::rows::findings::{Findings, Trouble};
use crate::rows::formats_reader::what_stands;
use crate::rows::layouts::answer;
use crate::rows::line::{Line, Numbered, run_of};
use crate::rows::playing::{Stage, Trial};
use crate::ruled_bay::RuledBay;
use bay::Bay;
use std::alloc::Global;
use std::cell::Cell;
use std::mem;

/// Changes a byte of the image of a slot. Whether that is done.
fn change_byte<B: Bay>(bay: &mut B, slot: u32, place: u64, value: u8) -> bool {
    let Ok(size) = bay.attach(slot, "") else {
        return false;
    };
    let within = place % 512;
    let sector = place - within;
    if size < 512 || sector > size - 512 {
        return false;
    }
    let mut bytes = [0; 512];
    if bay.read(slot, sector, &mut bytes).is_err() {
        return false;
    }
    bytes[within as usize] = value;
    bay.write(slot, sector, &bytes).is_ok()
}

impl Stage<'_> {
    fn change_byte(&mut self, name: &str, place: u64, value: u8) -> bool {
        let slot = slot_of(self.row, name).unwrap_or(u32::MAX);
        match &mut self.bay {
            Some(bay) => {
                let is_done = change_byte(bay, slot, place, value);
                bay.end_run();
                is_done
            }
            None => false,
        }
    }

    /// What the first image is, by the formats.
    fn stands(&mut self) -> Result<&'static str, Trouble> {
        match &mut self.bay {
            Some(bay) => {
                let stands = what_stands(self.alloc, bay)?;
                bay.end_run();
                Ok(stands.text())
            }
            None => Err(Trouble::NoMemory),
        }
    }

    /// Plays a line of a row, behind which these come. Those of a run are played with its first.
    fn play_line(
        &mut self,
        findings: &mut Findings,
        numbered: Numbered<'_>,
        lines: &[Numbered<'_>],
    ) -> Result<(), Trouble> {
        let number = numbered.number;
        match numbered.line {
            Line::Run(words) => self.play_run(findings, number, words, run_of(lines)),
            Line::Byte(name, place, value) => {
                if self.change_byte(name, place, value) {
                    Ok(())
                } else {
                    Err(findings.wrong(number, "a byte", "none"))
                }
            }
            Line::Stands(wanted) => {
                let stands = self.stands()?;
                findings.compare(number, wanted, second_of(lines), stands)
            }
            Line::Striping(group, stripe, question, wanted) => {
                let came = answer(self.alloc, group, stripe, question)?;
                findings.compare(number, wanted, None, &came)
            }
            _ => Ok(()),
        }
    }

    fn play(&mut self, findings: &mut Findings) -> Result<(), Trouble> {
        let row = self.row;
        for (place, numbered) in row.iter().enumerate() {
            self.play_line(findings, *numbered, &row[place + 1..])?;
        }
        Ok(())
    }
}

/// Plays a row once, on images of its own.
fn play_once(
    alloc: Global,
    row: &[Numbered<'_>],
    trial: Trial,
    findings: &mut Findings,
) -> Result<(), Trouble> {
    let line = Cell::new(0);
    let sizes = sizes_of(alloc, row)?;
    let bay = RuledBay::new(alloc, &sizes, &line)?;
    let mut stage = Stage {
        alloc,
        bay: Some(bay),
        row,
        line: &line,
        trial,
    };
    let played = stage.play(findings);
    drop(stage);
    played
}

/// How many calls the run of a row makes that is tried.
fn count_calls(
    alloc: Global,
    row: &[Numbered<'_>],
    findings: &mut Findings,
) -> Result<u64, Trouble> {
    match play_once(alloc, row, Trial::Count, findings) {
        Err(Trouble::Counted) => Ok(findings.calls),
        Err(trouble) => Err(trouble),
        Ok(()) => Ok(0),
    }
}

/// Plays a row with each call of its run failing, from one of a number on.
fn fail_each(
    alloc: Global,
    row: &[Numbered<'_>],
    findings: &mut Findings,
    first: u64,
) -> Result<(), Trouble> {
    let calls = count_calls(alloc, row, findings)?;
    if calls < first {
        return Err(findings.say("the run has too few calls"));
    }
    for call in first..=calls {
        if let Err(trouble) = play_once(alloc, row, Trial::At(call), findings) {
            return Err(findings.say_trial(trouble, call));
        }
    }
    Ok(())
}

fn all_are(ways: &[bool], way: bool) -> bool {
    ways.iter().all(|it| *it == way)
}

/// Whether answers that may come in two ways come in them as they should, where a stop comes a call
/// before another: the second way only where it came at that other, and only where the answers
/// behind come in it as well.
fn are_in_order(ways: &[bool], later: &[bool]) -> bool {
    let mut is_second = false;
    for (way, at_later) in ways.iter().zip(later.iter()) {
        if (*way && !*at_later) || (is_second && !*way) {
            return false;
        }
        is_second = *way;
    }
    true
}

/// Plays a row with its run stopped after each number of calls, from the last back.
fn stop_each(alloc: Global, row: &[Numbered<'_>], findings: &mut Findings) -> Result<(), Trouble> {
    let calls = count_calls(alloc, row, findings)?;
    play_once(alloc, row, Trial::At(calls), findings)?;
    let mut later = mem::replace(&mut findings.seconds, Vec::new(alloc));
    if !all_are(&later, true) {
        return Err(findings.say("the first way comes where no call is left out"));
    }
    for call in (0..calls).rev() {
        findings.seconds.clear();
        if let Err(trouble) = play_once(alloc, row, Trial::At(call), findings) {
            return Err(findings.say_trial(trouble, call));
        }
        if !are_in_order(&findings.seconds, &later) {
            return Err(findings.say_trial(Trouble::Wrong, call));
        }
        mem::swap(&mut later, &mut findings.seconds);
    }
    if !all_are(&later, false) {
        return Err(findings.say("the second way comes where no call was made"));
    }
    Ok(())
}

/// Plays a row.
pub fn play_row(
    alloc: Global,
    row: &[Numbered<'_>],
    findings: &mut Findings,
) -> Result<(), Trouble> {
    if let Some(number) = unreadable(row) {
        return Err(findings.wrong(number, "a line of a row", "another"));
    }
    match each_of(row) {
        Some(Each::Stop) => stop_each(alloc, row, findings),
        Some(Each::FailFrom(first)) => fail_each(alloc, row, findings, first),
        None => {
            play_once(alloc, row, Trial::Whole, findings)?;
            if findings.seconds.is_empty() {
                Ok(())
            } else {
                Err(findings.say("an answer in two ways, and no `stop each`"))
            }
        }
    }
}
