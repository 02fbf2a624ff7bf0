// Standard input and output.
use crate::limit::StreamLimit;
use bay::{Fault, Sink, Source};
use std::io::{Read, Write};
use std::rt::{Stdin, Stdout};

/// A source over a reader of std. `new` gives that of standard input.
#[derive(Drop)]
pub struct StdSource<R: Read = Stdin> {
    inner: R,
    faults: u64,
}

impl StdSource<Stdin> {
    /// The program's standard input.
    pub fn new(runtime: HostRuntime) -> Self {
        StdSource::over(runtime.stdin())
    }
}

impl<R: Read> StdSource<R> {
    // A source over any reader.
    pub(crate) fn over(inner: R) -> Self {
        StdSource { inner, faults: 0 }
    }
}

impl<R: Read> Source for StdSource<R> {
    ghost left = { λ s. R.remaining s.inner };

    ghost faults = { λ s. s.faults };

    fn read(&mut self, buf: &mut [u8]) -> Result<usize, Fault> {
        match self.inner.read(buf) {
            Ok(count) => Ok(count),
            Err(_) => {
                self.faults = self.faults.saturating_add(1);
                Err(Fault)
            }
        }
    }
}

/// A sink over a writer of std. `new` gives that of standard output.
#[derive(Drop)]
pub struct StdSink<W: Write = Stdout> {
    inner: W,
    limit: Option<StreamLimit>,
    faults: u64,
}

impl StdSink<Stdout> {
    /// The program's standard output. A reader that closed its end of a pipe is a fault like
    /// another, and so is a file that may grow no more.
    pub fn new(runtime: HostRuntime) -> Self {
        StdSink {
            inner: runtime.stdout(),
            limit: Some(StreamLimit::of_output(runtime)),
            faults: 0,
        }
    }
}

impl<W: Write> StdSink<W> {
    // A sink over any writer.
    pub(crate) fn over(inner: W) -> Self {
        StdSink {
            inner,
            limit: None,
            faults: 0,
        }
    }
}

impl<W: Write> Sink for StdSink<W> {
    ghost taken = { λ s. W.contents s.inner };

    ghost faults = { λ s. s.faults };

    // A writer that takes nothing of a piece that is not empty has failed.
    fn write(&mut self, bytes: &[u8]) -> Result<usize, Fault> {
        if let Some(limit) = &self.limit
            && limit.refuses(bytes.len())
        {
            self.faults = self.faults.saturating_add(1);
            return Err(Fault);
        }
        match self.inner.write(bytes) {
            Ok(count) if count > 0 || bytes.is_empty() => Ok(count),
            _ => {
                self.faults = self.faults.saturating_add(1);
                Err(Fault)
            }
        }
    }
}
