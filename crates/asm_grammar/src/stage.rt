//! How far a word of a verb has come, byte by byte.

ghost use Rattle.std.specs.Option.{option_map};
ghost use Rattle.std.specs.Prelude.{◌≡◌, ◌+◌, ◌-◌, ◌*◌, ◌^◌, ◌&&◌, ◌==◌, not, nat_lt, if◌then◌else◌, Some, None};
ghost use Rattle.asm_grammar.specs.Bytes.{is_digit_byte, is_letter_byte};
ghost use Rattle.asm_grammar.specs.Argument.{is_path_byte, is_visible, is_hex, factor, part_begins, part_goes_on, has_slashes, step, ends_at, near_from, reached};
ghost use Rattle.asm_grammar.specs.Argument as a;
ghost use Rattle.asm_grammar.specs.Stages.{meant_parts, stage_of, is_path_stage};

use crate::scan::{is_word, with_digit};

/// Which parts a path may have.
#[derive(Clone, Copy)]
pub enum Parts {
    /// Without `*`, and with `/` between them.
    Plain,
    /// With `*`, and with `/` between them.
    Starred,
    /// One, with `*`.
    Single,
}

/// How far a word has come: the counts are bytes, the numbers what digits spelt.
#[derive(Clone, Copy)]
pub enum Stage {
    NameStart,
    Letters(u8),
    NumberStart,
    Digits(u64),
    SizeStart,
    SizeDigits(u64),
    /// A size with its letter.
    Lettered(u64),
    PathStart(Parts),
    /// `+` alone.
    Plus(Parts),
    GroupName(Parts, u8),
    /// A part has to begin.
    Slash(Parts),
    /// A part that is one dot.
    Dot(Parts),
    Part(Parts, u8),
    NotLongStart,
    /// `-` alone.
    Dash,
    /// `-l` alone.
    DashL,
    OutsideStart,
    OutsideDot,
    OutsidePath,
    /// No digit, and whether more than two may come.
    HexStart(bool),
    /// The first digit of a byte.
    Half(bool),
    /// Whole bytes.
    Whole(bool),
}

fn is_letter(b: u8) -> bool
    ensures { result ≡ is_letter_byte b }
{
    b.is_ascii_alphabetic()
}

fn is_digit(b: u8) -> bool
    ensures { result ≡ is_digit_byte b }
{
    b'0' <= b && b <= b'9'
}

fn is_part_byte(parts: Parts, b: u8) -> bool
    ensures { result ≡ is_path_byte (meant_parts parts) b }
{
    is_word(b)
        || b == b'-'
        || b == b'.'
        || match parts {
            Parts::Plain => false,
            Parts::Starred | Parts::Single => b == b'*',
        }
}

fn is_slash(parts: Parts, b: u8) -> bool
    ensures { result ≡ (has_slashes (meant_parts parts) && (b == 47)) }
{
    match parts {
        Parts::Plain | Parts::Starred => b == b'/',
        Parts::Single => false,
    }
}

fn is_visible(b: u8) -> bool
    ensures { result ≡ is_visible b }
{
    b'!' <= b && b <= b'~'
}

fn is_hex(b: u8) -> bool
    ensures { result ≡ is_hex b }
{
    is_digit(b) || (b'A' <= b && b <= b'F') || (b'a' <= b && b <= b'f')
}

/// What a letter behind a size stands for, and 0 where it is none.
fn factor(b: u8) -> u64
    ensures { result ≡ factor b }
{
    match b {
        b'K' => 1 << 10,
        b'M' => 1 << 20,
        b'G' => 1 << 30,
        b'T' => 1 << 40,
        _ => 0,
    }
}

/// The size with a letter behind it, where the byte is one and the size stays below 2^64.
pub fn with_letter(number: u64, b: u8) -> Option<u64>
    ensures { result ≡ (if not (factor b == 0) && nat_lt (number * factor b) (2 ^ 64)
        then Some (number * factor b) else None) }
{
    let factor = factor(b);
    if factor == 0 {
        return None;
    }
    number.checked_mul(factor)
}

fn part_begins(parts: Parts, b: u8) -> Option<Stage>
    ensures { option_map stage_of result ≡ part_begins (meant_parts parts) b }
{
    if b == b'.' {
        return Some(Stage::Dot(parts));
    }
    if is_part_byte(parts, b) {
        return Some(Stage::Part(parts, 1));
    }
    None
}

fn part_goes_on(parts: Parts, n: u8, b: u8) -> Option<Stage>
    ensures { option_map stage_of result ≡ part_goes_on (meant_parts parts) n b }
{
    if is_slash(parts, b) {
        return Some(Stage::Slash(parts));
    }
    if is_part_byte(parts, b) && n < 80 {
        return Some(Stage::Part(parts, n + 1));
    }
    None
}

fn group_name_goes_on(parts: Parts, n: u8, b: u8) -> Option<Stage>
    ensures { option_map stage_of result ≡ step (a.GroupName (meant_parts parts) n) b }
{
    if b == b'/' {
        return Some(Stage::Slash(parts));
    }
    if is_word(b) && n < 30 {
        return Some(Stage::GroupName(parts, n + 1));
    }
    None
}

fn size_goes_on(number: u64, b: u8) -> Option<Stage>
    ensures { option_map stage_of result ≡ step (a.SizeDigits number) b }
{
    if let Some(next) = with_digit(number, b) {
        return Some(Stage::SizeDigits(next));
    }
    match with_letter(number, b) {
        Some(size) => Some(Stage::Lettered(size)),
        None => None,
    }
}

/// What a path goes on with.
fn path_step(stage: Stage, b: u8) -> Option<Stage>
    ensures { option_map stage_of result
        ≡ (if is_path_stage (stage_of stage) then step (stage_of stage) b else None) }
{
    match stage {
        Stage::PathStart(parts) if b == b'+' => Some(Stage::Plus(parts)),
        Stage::PathStart(parts) => part_begins(parts, b),
        Stage::Plus(parts) if is_letter(b) => Some(Stage::GroupName(parts, 1)),
        Stage::GroupName(parts, n) => group_name_goes_on(parts, n, b),
        Stage::Slash(parts) => part_begins(parts, b),
        Stage::Dot(parts) if is_part_byte(parts, b) => Some(Stage::Part(parts, 2)),
        Stage::Part(parts, n) => part_goes_on(parts, n, b),
        Stage::NotLongStart if b == b'-' => Some(Stage::Dash),
        Stage::NotLongStart if b == b'+' => Some(Stage::Plus(Parts::Starred)),
        Stage::NotLongStart => part_begins(Parts::Starred, b),
        Stage::Dash if b == b'l' => Some(Stage::DashL),
        Stage::Dash => part_goes_on(Parts::Starred, 1, b),
        Stage::DashL => part_goes_on(Parts::Starred, 2, b),
        Stage::OutsideStart if b == b'/' => Some(Stage::OutsidePath),
        Stage::OutsideStart if b == b'.' => Some(Stage::OutsideDot),
        Stage::OutsideDot if b == b'/' => Some(Stage::OutsidePath),
        Stage::OutsidePath if is_visible(b) => Some(Stage::OutsidePath),
        _ => None,
    }
}

/// The stage behind one more byte. None where no word goes on so.
pub fn step(stage: Stage, b: u8) -> Option<Stage>
    ensures { option_map stage_of result ≡ step (stage_of stage) b }
{
    match stage {
        Stage::NameStart if is_letter(b) => Some(Stage::Letters(1)),
        Stage::Letters(n) if is_word(b) && n < 30 => Some(Stage::Letters(n + 1)),
        Stage::NumberStart if is_digit(b) => Some(Stage::Digits((b - b'0') as u64)),
        Stage::Digits(number) => match with_digit(number, b) {
            Some(next) => Some(Stage::Digits(next)),
            None => None,
        },
        Stage::SizeStart if is_digit(b) => Some(Stage::SizeDigits((b - b'0') as u64)),
        Stage::SizeDigits(number) => size_goes_on(number, b),
        Stage::HexStart(more) if is_hex(b) => Some(Stage::Half(more)),
        Stage::Half(more) if is_hex(b) => Some(Stage::Whole(more)),
        Stage::Whole(more) if more && is_hex(b) => Some(Stage::Half(more)),
        Stage::NameStart
        | Stage::Letters(_)
        | Stage::NumberStart
        | Stage::SizeStart
        | Stage::Lettered(_)
        | Stage::HexStart(_)
        | Stage::Half(_)
        | Stage::Whole(_) => None,
        other => path_step(other, b),
    }
}

/// Whether a word may end at the stage.
pub fn ends_at(stage: Stage) -> bool
    ensures { result ≡ ends_at (stage_of stage) }
{
    match stage {
        Stage::Letters(_)
        | Stage::Digits(_)
        | Stage::SizeDigits(_)
        | Stage::Lettered(_)
        | Stage::Plus(_)
        | Stage::GroupName(..)
        | Stage::Part(..)
        | Stage::Dash
        | Stage::OutsidePath
        | Stage::Whole(_) => true,
        _ => false,
    }
}

/// How many bytes of the word go on from the stage, and the stage behind all of them, where all do.
pub fn take(stage: Stage, word: &[u8]) -> (usize, Option<Stage>)
    ensures near { result.0 ≡ near_from (stage_of stage) word.now }
    ensures reached { option_map stage_of result.1 ≡ reached (stage_of stage) word.now }
{
    let mut now = stage;
    for (i, b) in word.iter().enumerate() {
        match step(now, *b) {
            Some(next) => now = next,
            None => return (i, None),
        }
    }
    (word.len(), Some(now))
}
