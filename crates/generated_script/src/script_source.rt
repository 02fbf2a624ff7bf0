//! The generated script as a source.

ghost use Rattle.std.specs.Prelude.{◌≡◌, ◌≤◌, ◌<◌, [], Some, IfOk, length, min, take, vec_len};

use crate::creations::creations;
use crate::lines::Lines;
use asm_base::{NoMemory, Text};
use bay::{Fault, Source};
use line_buffer::LineBuffer;
use std::alloc::Global;

/// The script for a number and some images. Only the statements that create the disks and the
/// group, whose length is that of the paths, are kept in memory; each later command is made when it
/// is read.
#[derive(Drop)]
pub struct GeneratedScript {
    /// The creations, each with its line feed.
    creations: Vec<u8>,
    /// How many bytes of them were read.
    given: usize,
    /// The command that is being read, with its line feed.
    line: LineBuffer,
    /// How many bytes of it were read.
    at: usize,
    /// The commands behind it.
    lines: Lines,
    ghost in_creations: { given ≤ vec_len creations },
    ghost in_line: { at ≤ length line },
}

/// Gives a front of the bytes, as much as there is room for.
fn give(bytes: &[u8], buf: &mut [u8]) -> usize
    ensures count { result ≡ min (length bytes.now) (length buf.old) }
    ensures bytes { take result buf.new ≡ take result bytes.now }
    ensures len { length buf.new ≡ length buf.old }
{
    let count = bytes.len().min(buf.len());
    buf[..count].copy_from_slice(&bytes[..count]);
    count
}

impl GeneratedScript {
    ghost use Rattle.asm_world.specs.Generator.{generated_script};
    ghost use Rattle.generated_script.specs.Source.{GivesBytes, left_in};

    /// The script made from a number over the images at these paths, of which there are four where
    /// the program calls it. No path has a single quote.
    pub fn new(alloc: Global, number: u64, paths: &[Text]) -> Result<GeneratedScript, NoMemory>
        ensures { IfOk result (λ script. left_in script ≡ generated_script number paths.now) }
    {
        Ok(GeneratedScript {
            creations: creations(alloc, paths)?,
            given: 0,
            line: LineBuffer::new(),
            at: 0,
            lines: Lines::new(number),
        })
    }

    /// Gives bytes of the creations.
    fn read_creations(&mut self, buf: &mut [u8]) -> usize
        requires { self.old.given < vec_len self.old.creations }
        ensures { GivesBytes (left_in self.old) (left_in self.new) result buf.old buf.new }
    {
        let count = give(&self.creations[self.given..], buf);
        self.given += count;
        count
    }

    /// Makes the next command, where the last was read.
    fn go_on(&mut self)
        requires { self.old.given ≡ vec_len self.old.creations }
        ensures read { self.new.given ≡ vec_len self.new.creations }
        ensures left { left_in self.new ≡ left_in self.old }
        ensures over { length self.new.line ≤ self.new.at → left_in self.new ≡ [] }
    {
        if self.at == self.line.as_bytes().len() {
            self.lines.next(&mut self.line);
            self.at = 0;
        }
    }

    /// Gives bytes of the command that is being read, or of the next one.
    fn read_line(&mut self, buf: &mut [u8]) -> usize
        requires { self.old.given ≡ vec_len self.old.creations }
        ensures { GivesBytes (left_in self.old) (left_in self.new) result buf.old buf.new }
    {
        self.go_on();
        let count = give(&self.line.as_bytes()[self.at..], buf);
        self.at += count;
        count
    }
}

impl Source for GeneratedScript {
    ghost use Rattle.generated_script.specs.Source.{left_in};

    ghost left = { λ s. Some (left_in s) };

    ghost faults = { λ _. 0 };

    fn read(&mut self, buf: &mut [u8]) -> Result<usize, Fault> {
        if self.given < self.creations.len() {
            Ok(self.read_creations(buf))
        } else {
            Ok(self.read_line(buf))
        }
    }
}
