// A script that is handed out line by line.
ghost use Rattle.std.specs.Prelude.{◌≤◌, length};

use bay::{Fault, Source};
use std::cell::Cell;

/// A script of which each read gives a line, so that commands run when their line was read and not
/// the next. The cell has the number of reads so far.
#[derive(Drop)]
pub struct LineSource<'a> {
    rest: &'a [u8],
    fails_at: Option<u64>,
    faults: u64,
    line: &'a Cell<u64>,
}

impl<'a> LineSource<'a> {
    /// A script whose read of a number is to fail, counted from 1.
    pub fn new(script: &'a [u8], fails_at: Option<u64>, line: &'a Cell<u64>) -> LineSource<'a> {
        line.set(0);
        LineSource {
            rest: script,
            fails_at,
            faults: 0,
            line,
        }
    }
}

/// The length of the first line, with its end.
fn line_length(bytes: &[u8]) -> usize
    ensures { result ≤ length bytes.now }
{
    for (place, byte) in bytes.iter().enumerate() {
        if *byte == b'\n' {
            return place + 1;
        }
    }
    bytes.len()
}

impl Source for LineSource<'_> {
    ghost use Rattle.std.specs.Prelude.{None};

    ghost left = { λ s. None };

    ghost faults = { λ s. s.faults };

    fn read(&mut self, buf: &mut [u8]) -> Result<usize, Fault> {
        let read = self.line.get().saturating_add(1);
        self.line.set(read);
        if self.fails_at == Some(read) {
            self.faults = self.faults.saturating_add(1);
            return Err(Fault);
        }
        let length = line_length(self.rest).min(buf.len());
        let (line, rest) = self.rest.split_at(length);
        buf[..length].copy_from_slice(line);
        self.rest = rest;
        Ok(length)
    }
}
