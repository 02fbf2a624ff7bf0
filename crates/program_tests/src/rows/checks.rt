// What is wanted of a run, and what came.
use crate::calls::{Call, Kind};
use crate::lines::ends_reply;
use crate::rows::asked::slot_of;
use crate::rows::findings::{Findings, Trouble};
use crate::rows::line::{Amount, Line, Numbered};
use crate::rules::Then;
use std::alloc::Global;
use std::fmt::Write;

/// The second answer that may come, where the lines behind the first begin with it.
pub fn second_of<'t>(lines: &[Numbered<'t>]) -> Option<&'t str> {
    match lines.first() {
        Some(
            Numbered {
                line: Line::Or(text),
                ..
            },
        ) => Some(text),
        _ => None,
    }
}

/// Whether some answer may come in two ways.
pub fn has_second(lines: &[Numbered<'_>]) -> bool {
    lines
        .iter()
        .any(|numbered| matches!(numbered.line, Line::Or(_)))
}

/// Compares what was printed with the lines that are wanted. What is printed after a stop is not
/// looked at.
pub fn compare_output(
    findings: &mut Findings,
    number: u64,
    lines: &[Numbered<'_>],
    output: &str,
    is_stopped: bool,
) -> Result<(), Trouble> {
    let mut came = output.lines();
    for (place, numbered) in lines.iter().enumerate() {
        if let Line::Answer(wanted) = numbered.line {
            let second = second_of(&lines[place + 1..]);
            let text = came.next().unwrap_or("the end");
            findings.compare(numbered.number, wanted, second, text)?;
        }
    }
    match came.next() {
        Some(text) if !is_stopped => Err(findings.wrong(number, "the end", text)),
        _ => Ok(()),
    }
}

/// How many replies were printed whole: a reply ends with `ok` or with its error.
pub fn replies_in(output: &str) -> u64 {
    let mut count = 0u64;
    for line in output.lines() {
        if ends_reply(line.as_bytes()) {
            count = count.saturating_add(1);
        }
    }
    count
}

/// Whether the last line that was printed ends a reply, so that no event is told behind it.
pub fn ends_by_reply(output: &str) -> bool {
    match output.lines().last() {
        Some(line) => ends_reply(line.as_bytes()),
        None => false,
    }
}

/// Whether a run is to be stopped at some call.
pub fn is_to_stop(lines: &[Numbered<'_>]) -> bool {
    lines.iter().any(|numbered| matches!(numbered.line, Line::Rule(_, _, Then::StopAt(_))))
}

/// How many bytes the command of a line handed to writes of a slot.
fn bytes_written(record: &[Call], line: u64, slot: u32) -> u64 {
    let mut bytes = 0u64;
    for call in record {
        if call.line == line && call.slot == slot && call.kind == Kind::Write {
            bytes = bytes.saturating_add(call.bytes);
        }
    }
    bytes
}

/// How many calls there were up to the end of the command of a line.
fn calls_until(record: &[Call], line: u64) -> u64 {
    let mut calls = 0u64;
    for call in record {
        if call.line <= line {
            calls = calls.saturating_add(1);
        }
    }
    calls
}

fn compare_amount(
    findings: &mut Findings,
    number: u64,
    wanted: Amount,
    came: u64,
) -> Result<(), Trouble> {
    match wanted {
        Amount::Exactly(wanted) if wanted != came => {
            Err(findings.wrong_number(number, wanted, came))
        }
        Amount::AtMost(most) if most < came => Err(findings.wrong_number(number, most, came)),
        _ => Ok(()),
    }
}

/// The calls of the command of a line, as a text.
fn shown(alloc: Global, record: &[Call], line: u64) -> Result<String, Trouble> {
    let mut text = String::new(alloc);
    for call in record {
        if call.line == line {
            let word = call.kind.word();
            write!(text, "{word} {} {}, ", call.slot, call.bytes)?;
        }
    }
    Ok(text)
}

fn show(
    alloc: Global,
    findings: &mut Findings,
    number: u64,
    record: &[Call],
    line: u64,
) -> Result<(), Trouble> {
    let text = shown(alloc, record, line)?;
    Err(findings.wrong(number, "no line `show`", &text))
}

/// Compares what is counted of the calls with what is wanted of each command.
pub fn compare_counts(
    alloc: Global,
    findings: &mut Findings,
    row: &[Numbered<'_>],
    lines: &[Numbered<'_>],
    record: &[Call],
) -> Result<(), Trouble> {
    let mut line = 0u64;
    for numbered in lines {
        let number = numbered.number;
        match numbered.line {
            Line::Script(_) | Line::Text(_) => line = line.saturating_add(1),
            Line::Written(name, wanted) => {
                let slot = slot_of(row, name).unwrap_or(u32::MAX);
                compare_amount(findings, number, wanted, bytes_written(record, line, slot))?;
            }
            Line::Calls(wanted) => {
                compare_amount(findings, number, wanted, calls_until(record, line))?
            }
            Line::Show => show(alloc, findings, number, record, line)?,
            _ => {}
        }
    }
    Ok(())
}
