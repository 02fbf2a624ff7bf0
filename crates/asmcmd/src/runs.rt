//! The lines of dbread: one for each longest run of equal bytes, whose bytes come piece by piece.

ghost use Rattle.std.specs.Option.{option_map};
ghost use Rattle.std.specs.Prelude.{◌≡◌, ◌≤◌, ◌<◌, ℕ, ◌+◌, ◌^◌, ◌++◌, ◌∷◌, [], length, drop, replicate, IfOk, IsTrue, OnOk};
ghost use Rattle.asm_group.specs.Names.{Bytes};
ghost use Rattle.asm_world.specs.Text.{hex, hex_digit, read_lines};
ghost use Rattle.asmcmd.specs.Runs.{HoldsRun, equal_front, first_run, lines_with, run_line};

use crate::text::{Field, line_of};
use asm_base::{List, NoMemory, Text};
use std::alloc::Global;
use std::marker::Model;

fn hex_digit(n: u8) -> u8
    requires { n < 16 }
    ensures { result ≡ hex_digit n }
{
    if n < 10 { n + 48 } else { n + 87 }
}

/// Two lower case hexadecimal digits.
fn hex(byte: u8) -> [u8; 2]
    ensures { result ≡ hex byte }
{
    [hex_digit(byte / 16), hex_digit(byte % 16)]
}

/// How many bytes are compared at once.
const PIECE: usize = 64;

/// Whether a piece holds this byte alone.
fn holds_only(byte: u8, piece: &[u8; PIECE]) -> bool
    ensures { IsTrue result → piece.now ≡ replicate 64 byte }
{
    *piece == [byte; PIECE]
}

/// How many bytes at the front are told to be this one by whole pieces.
fn equal_pieces(byte: u8, bytes: &[u8]) -> usize
    ensures front { result + equal_front byte (drop result bytes.now) ≡ equal_front byte bytes.now }
    ensures within { result ≤ length bytes.now }
{
    let (pieces, behind) = bytes.as_chunks::<PIECE>();
    for (i, piece) in pieces.iter().enumerate() {
        if !holds_only(byte, piece) {
            return i * PIECE;
        }
    }
    bytes.len() - behind.len()
}

/// How many bytes at the front are this one, told byte by byte.
#[tactic(auto, using(std::proofs::lemmas::List::drop_all))]
fn equal_bytes(byte: u8, bytes: &[u8]) -> usize
    ensures count { result ≡ equal_front byte bytes.now }
    ensures within { result ≤ length bytes.now }
{
    for (i, b) in bytes.iter().enumerate() {
        if byte != *b {
            return i;
        }
    }
    bytes.len()
}

/// How many bytes at the front are this one.
fn equal_front(byte: u8, bytes: &[u8]) -> usize
    ensures count { result ≡ equal_front byte bytes.now }
    ensures within { result ≤ length bytes.now }
{
    let told = equal_pieces(byte, bytes);
    told + equal_bytes(byte, &bytes[told..])
}

/// The first byte, how many equal bytes stand at the front, and the bytes behind them. None of no
/// bytes.
fn first_run<'a>(bytes: &'a [u8]) -> Option<(u8, u64, &'a [u8])>
    ensures { option_map (λ r. (r.0, r.1, r.2.now)) result ≡ first_run bytes.now }
{
    match bytes {
        [] => None,
        [first, behind @ ..] => {
            let others = equal_front(*first, behind);
            Some((*first, others as u64 + 1, &behind[others..]))
        }
    }
}

/// The line of a run.
fn run_line(alloc: Global, at: u64, byte: u8, len: u64) -> Result<Text, NoMemory>
    ensures { IfOk result (λ line. line ≡ run_line at byte len) }
{
    let digits = hex(byte);
    line_of(
        alloc,
        Field::Number(at),
        &[Field::Number(len), Field::Word(&digits)],
    )
}

/// The runs of equal bytes that were put so far. The last of them goes on where the next bytes are
/// the same.
#[derive(Drop)]
pub struct Runs {
    alloc: Global,
    /// The lines of the runs that have ended.
    lines: List<Text>,
    /// The offset at which the last run begins, and the one behind it. At first they are the same.
    at: u64,
    end: u64,
    byte: u8,
}

impl Model for Runs {
    ghost use Rattle.std.specs.Prelude.{◌≤◌};
    ghost use Rattle.asmcmd.specs.Runs.{RunsView};

    ghost Value = { RunsView };

    ghost view = { λ r. record { lines = r.lines; at = r.at; end = r.end; byte = r.byte } };

    ghost invariant = { λ r. r.at ≤ r.end };
}

impl Runs {
    /// No bytes, which stand from this offset on.
    #[tactic(auto, using(crate::proofs::PutRuns::none_yet))]
    pub fn new(alloc: Global, at: u64) -> Runs
        ensures holds { HoldsRun result at [] }
        ensures end { result.end ≡ at }
    {
        Runs {
            alloc,
            lines: List::new(alloc),
            at,
            end: at,
            byte: 0,
        }
    }

    /// Puts the line of the last run behind the others, where it has bytes. Another byte comes
    /// next.
    fn end_run(&mut self) -> Result<(), NoMemory>
        ensures lines { OnOk result ((more : Bytes) → equal_front self.old.byte more ≡ 0
            → lines_with self.new more ≡ lines_with self.old more) }
        ensures end { self.new.end ≡ self.old.end }
        ensures at { OnOk result (self.new.at ≡ self.old.end) }
    {
        if self.at < self.end {
            let line = run_line(self.alloc, self.at, self.byte, self.end - self.at)?;
            self.lines.push(line)?;
            self.at = self.end;
        }
        Ok(())
    }

    /// Puts so many equal bytes behind the others.
    #[tactic(auto, using(crate::proofs::PutRuns::begins))]
    fn put_run(&mut self, byte: u8, len: u64) -> Result<(), NoMemory>
        requires some { 0 < len }
        requires room { self.old.end + len < 2 ^ 64 }
        ensures lines { OnOk result ((more : Bytes)
            → lines_with self.new more ≡ lines_with self.old (replicate len byte ++ more)) }
        ensures end { OnOk result (self.new.end ≡ self.old.end + len) }
    {
        if byte == self.byte {
            self.end += len;
            return Ok(());
        }
        self.end_run()?;
        self.byte = byte;
        self.end += len;
        Ok(())
    }

    /// Puts bytes behind the others. All offsets are numbers of 64 bits.
    pub fn put(&mut self, bytes: &[u8]) -> Result<(), NoMemory>
        requires room { self.old.end + length bytes.now < 2 ^ 64 }
        ensures holds { OnOk result ((at : ℕ) (before : Bytes) → HoldsRun self.old at before
            → HoldsRun self.new at (before ++ bytes.now)) }
        ensures end { OnOk result (self.new.end ≡ self.old.end + length bytes.now) }
    {
        let mut rest = bytes;
        while let Some((byte, len, behind)) = first_run(rest) {
            self.put_run(byte, len)?;
            rest = behind;
        }
        Ok(())
    }

    /// The lines of all runs: where each begins, how many bytes it has, and its byte in hexadecimal
    /// digits.
    pub fn into_lines(mut self) -> Result<List<Text>, NoMemory>
        ensures { IfOk result (λ lines. (at : ℕ) (bytes : Bytes) → HoldsRun self at bytes
            → lines ≡ read_lines at bytes) }
    {
        self.end_run()?;
        Ok(self.lines)
    }
}
