// What a run printed, reply by reply.
use crate::lines::ends_reply;
use std::alloc::{AllocError, Global};

/// The text before the first line feed, and what stands behind it.
fn cut(text: &[u8]) -> Option<(&[u8], &[u8])> {
    let end = text.iter().position(|byte| *byte == b'\n')?;
    Some((&text[..end], &text[end + 1..]))
}

/// Whether a line tells of an event.
fn is_event(line: &[u8]) -> bool {
    line.starts_with(b"rebal ") || line.starts_with(b"sync ") || line.starts_with(b"expired ")
}

/// A reply, and the event lines that stand before its end, those of slices after the reply before
/// included.
#[derive(Drop)]
pub struct Reply<'a> {
    pub report: Vec<&'a [u8]>,
    pub events: Vec<&'a [u8]>,
    pub last: &'a [u8],
}

impl<'a> Reply<'a> {
    pub fn is_ok(&self) -> bool {
        self.last == b"ok".as_slice()
    }
}

/// The replies of a run, and the event lines behind the last.
#[derive(Drop)]
pub struct Replies<'a> {
    pub list: Vec<Reply<'a>>,
    pub events: Vec<&'a [u8]>,
}

/// Reads what a run printed.
pub fn read(alloc: Global, text: &[u8]) -> Result<Replies<'_>, AllocError> {
    let mut list = Vec::new(alloc);
    let mut report = Vec::new(alloc);
    let mut events = Vec::new(alloc);
    let mut rest = text;
    for _ in 0..text.len() {
        let Some((line, behind)) = cut(rest) else {
            break;
        };
        rest = behind;
        if is_event(line) {
            events.push(line)?;
        } else if ends_reply(line) {
            list.push(Reply {
                report: std::mem::replace(&mut report, Vec::new(alloc)),
                events: std::mem::replace(&mut events, Vec::new(alloc)),
                last: line,
            })?;
        } else {
            report.push(line)?;
        }
    }
    drop(report);
    Ok(Replies { list, events })
}

/// A decimal number at the front of a text, and what stands behind the blank after it.
pub fn decimal(text: &[u8]) -> Option<(usize, &[u8])> {
    let mut value = 0usize;
    let mut rest = text;
    for _ in 0..20usize {
        match rest.split_first() {
            Some((digit, behind)) if digit.is_ascii_digit() => {
                value = value
                    .saturating_mul(10)
                    .saturating_add((*digit - b'0') as usize);
                rest = behind;
            }
            Some((b' ', behind)) => return Some((value, behind)),
            Some(_) => return None,
            None => return Some((value, rest)),
        }
    }
    None
}

fn hexadecimal(digit: u8) -> Option<u8> {
    match digit {
        b'0'..=b'9' => Some(digit - b'0'),
        b'a'..=b'f' => Some(digit - b'a' + 10),
        _ => None,
    }
}

/// A run of equal bytes, as dbread prints it.
#[derive(Clone, Copy, Debug, PartialEq, Eq)]
pub struct Run {
    pub at: usize,
    pub count: usize,
    pub byte: u8,
}

/// Reads a line of dbread.
pub fn read_run(line: &[u8]) -> Option<Run> {
    let (at, rest) = decimal(line)?;
    let (count, rest) = decimal(rest)?;
    let high = hexadecimal(*rest.first()?)?;
    let low = hexadecimal(*rest.get(1)?)?;
    Some(Run {
        at,
        count,
        byte: high.wrapping_mul(16).wrapping_add(low),
    })
}
