// Standard error.
use crate::limit::StreamLimit;
use crate::one_line::on_one_line;
use std::io::Write;

/// The program's standard error, which is for people. No answer depends on it: a line that can't be
/// written, or finds no memory, is left out.
#[derive(Drop)]
pub struct StdErrors {
    runtime: HostRuntime,
    limit: StreamLimit,
}

impl StdErrors {
    /// Nothing is written yet.
    pub fn new(runtime: HostRuntime) -> Self {
        StdErrors {
            runtime,
            limit: StreamLimit::of_errors(runtime),
        }
    }

    /// Writes a text as one line, whatever it holds: bytes below 32, and the byte 127, are shown by
    /// escapes as `\n` and `\x1b`.
    pub fn tell(&self, text: &str) {
        if let Ok(line) = on_one_line(self.runtime.alloc(), text) {
            self.write(&line);
        }
    }

    // Writes a line, unless a file behind the stream may grow no more.
    pub(crate) fn write(&self, line: &[u8]) {
        if !self.limit.refuses(line.len()) {
            let _ = self.runtime.stderr().write_all(line);
        }
    }
}
