// What a run of a row is asked.
use crate::rows::line::{Line, Numbered};
use crate::rules::Rule;
use crate::running::NOON;
use std::alloc::{AllocError, Global};

/// The slot of an image of a row: its place among them.
pub fn slot_of(row: &[Numbered<'_>], name: &str) -> Option<u32> {
    let mut slot = 0u32;
    for numbered in row {
        if let Line::Image(other, _) = numbered.line {
            if other == name {
                return Some(slot);
            }
            slot = slot.saturating_add(1);
        }
    }
    None
}

/// The sizes of the images of a row.
pub fn sizes_of(alloc: Global, row: &[Numbered<'_>]) -> Result<Vec<Option<u64>>, AllocError> {
    let mut sizes = Vec::new(alloc);
    for numbered in row {
        if let Line::Image(_, size) = numbered.line {
            sizes.push(size)?;
        }
    }
    Ok(sizes)
}

/// The words of a line, cut at blanks.
pub fn words_of(alloc: Global, line: &str) -> Result<Vec<String>, AllocError> {
    let mut words = Vec::new(alloc);
    for word in line.split_whitespace() {
        words.push(String::from_str(alloc, word)?)?;
    }
    Ok(words)
}

/// The byte that a letter behind a backslash stands for.
fn escaped(letter: u8) -> u8 {
    match letter {
        b't' => b'\t',
        b'r' => b'\r',
        b'n' => b'\n',
        b's' => b' ',
        other => other,
    }
}

/// Adds a text with its escapes.
fn push_text(script: &mut Vec<u8>, text: &str) -> Result<(), AllocError> {
    let mut is_escaped = false;
    for byte in text.bytes() {
        if is_escaped {
            script.push(escaped(byte))?;
            is_escaped = false;
        } else if byte == b'\\' {
            is_escaped = true;
        } else {
            script.push(byte)?;
        }
    }
    Ok(())
}

/// The script of a run.
pub fn script_of(alloc: Global, lines: &[Numbered<'_>]) -> Result<Vec<u8>, AllocError> {
    let mut script = Vec::new(alloc);
    for numbered in lines {
        match numbered.line {
            Line::Script(text) => {
                script.extend_from_slice(text.as_bytes())?;
                script.push(b'\n')?;
            }
            Line::Text(text) => push_text(&mut script, text)?,
            _ => {}
        }
    }
    Ok(script)
}

/// The rules of a run: each holds from the command behind it on.
pub fn rules_of(
    alloc: Global,
    row: &[Numbered<'_>],
    lines: &[Numbered<'_>],
) -> Result<Vec<Rule>, AllocError> {
    let mut rules = Vec::new(alloc);
    let mut line = 1u64;
    for numbered in lines {
        match numbered.line {
            Line::Script(_) | Line::Text(_) => line = line.saturating_add(1),
            Line::Rule(kind, name, then) => {
                if let Some(slot) = slot_of(row, name) {
                    rules.push(Rule {
                        line,
                        slot,
                        kind,
                        then,
                    })?;
                }
            }
            _ => {}
        }
    }
    Ok(rules)
}

/// The slots that are away in a run.
pub fn absent_of(
    alloc: Global,
    row: &[Numbered<'_>],
    lines: &[Numbered<'_>],
) -> Result<Vec<u32>, AllocError> {
    let mut slots = Vec::new(alloc);
    for numbered in lines {
        if let Line::Away(name) = numbered.line {
            if let Some(slot) = slot_of(row, name) {
                slots.push(slot)?;
            }
        }
    }
    Ok(slots)
}

/// The times that a run reads: noon, where none are said.
pub fn times_of(alloc: Global, lines: &[Numbered<'_>]) -> Result<Vec<u64>, AllocError> {
    let mut times = Vec::new(alloc);
    for numbered in lines {
        if let Line::Clock(text) = numbered.line {
            for word in text.split_whitespace() {
                times.push(word.parse::<u64>().unwrap_or(0))?;
            }
        }
    }
    if times.is_empty() {
        times.push(NOON)?;
    }
    Ok(times)
}

/// The read of the source that fails.
pub fn failing_read(lines: &[Numbered<'_>]) -> Option<u64> {
    for numbered in lines {
        if let Line::FailSource(number) = numbered.line {
            return Some(number);
        }
    }
    None
}

/// The write of the sink that fails. There is none of number 0.
pub fn failing_write(lines: &[Numbered<'_>]) -> u64 {
    for numbered in lines {
        if let Line::FailSink(number) = numbered.line {
            return number;
        }
    }
    0
}

/// The status that is wanted.
pub fn status_of(lines: &[Numbered<'_>]) -> u64 {
    for numbered in lines {
        if let Line::Status(status) = numbered.line {
            return status;
        }
    }
    0
}

/// Whether a line names no image that isn't of the row.
fn names_images(row: &[Numbered<'_>], line: Line<'_>) -> bool {
    match line {
        Line::Away(name) | Line::Byte(name, ..) | Line::Rule(_, name, _) | Line::Written(name, _) =>
            slot_of(row, name).is_some(),
        Line::Other => false,
        _ => true,
    }
}

/// The first line of a row that can't be read, or that names an image that isn't of the row.
pub fn unreadable(row: &[Numbered<'_>]) -> Option<u64> {
    for numbered in row {
        if !names_images(row, numbered.line) {
            return Some(numbered.number);
        }
    }
    None
}

/// How often a run is tried: stopped after each number of its calls, or with each call from a
/// number on failing.
#[derive(Clone, Copy)]
pub enum Each {
    Stop,
    FailFrom(u64),
}

/// How the run of a row is tried.
pub fn each_of(lines: &[Numbered<'_>]) -> Option<Each> {
    for numbered in lines {
        match numbered.line {
            Line::StopEach => return Some(Each::Stop),
            Line::FailEach(first) => return Some(Each::FailFrom(first)),
            _ => {}
        }
    }
    None
}
