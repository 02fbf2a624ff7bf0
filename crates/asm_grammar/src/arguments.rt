//! Reading one word of a verb, which spaces and tabs alone part.

ghost use Rattle.std.specs.Option.{option_map};
ghost use Rattle.std.specs.Prelude.{◌≡◌, ◌+◌, ◌-◌, ◌<◌, min, length, true, false, IfOk, Some, None};
ghost use Rattle.std.specs.List.{list_all};
ghost use Rattle.asm_grammar.specs.Argument.{Exact, Text, PlainNumber, Sized, HexBytes, HexByte, Rest, text_start, near_from, argument_of, is_of, onward, ends_at, said_at, spelt_number, hex_bytes, hex_value, is_hex, NumberStart, SizeStart, HexStart};
ghost use Rattle.asm_grammar.specs.Word.{Argument, End, fit};
ghost use Rattle.asm_grammar.specs.Reading.{one, close};
ghost use Rattle.asm_grammar.specs.Stages.{stage_of, text_kind_of};
ghost use Rattle.asm_grammar.specs.Reads.{Gives, Passes, Tries, TriesFor};

use crate::scan::{Run, split_run};
use crate::stage::{Parts, Stage, ends_at, take};
use crate::words::{Place, ReadError, missed};

/// The kinds of words that say their own bytes.
#[derive(Clone, Copy)]
pub enum TextKind {
    /// A letter and letters, digits, `_`, `$` or `#`, at most 30 bytes.
    Named,
    /// A path in a group: `+` alone, `+` and a group's name and parts behind `/`, or parts alone
    /// with `/` between.
    Path,
    /// The same, where a part may hold `*`.
    PathPattern,
    /// The same, but not `-l`.
    NotLong,
    /// One part that may hold `*`.
    PartPattern,
    /// A path outside, which begins with `/` or `./`.
    Outside,
}

fn start_of(kind: TextKind) -> Stage
    ensures { stage_of result ≡ text_start (text_kind_of kind) }
{
    match kind {
        TextKind::Named => Stage::NameStart,
        TextKind::Path => Stage::PathStart(Parts::Plain),
        TextKind::PathPattern => Stage::PathStart(Parts::Starred),
        TextKind::NotLong => Stage::NotLongStart,
        TextKind::PartPattern => Stage::Slash(Parts::Single),
        TextKind::Outside => Stage::OutsideStart,
    }
}

/// Whether a word ends there.
fn is_end(stage: Option<Stage>) -> bool
    ensures { result ≡ onward false ends_at (option_map stage_of stage) }
{
    match stage {
        Some(stage) => ends_at(stage),
        None => false,
    }
}

/// Whether the bytes are a word of the kind, and how many of them begin one.
fn judge_text(kind: TextKind, word: &[u8]) -> (bool, usize)
    ensures is { result.0 ≡ is_of (Text (text_kind_of kind)) word.now }
    ensures near { result.1 ≡ near_from (text_start (text_kind_of kind)) word.now }
{
    let (near, stage) = take(start_of(kind), word);
    (is_end(stage), near)
}

/// How many bytes the two have in common at their fronts.
#[tactic(auto, using(crate::proofs::Taken::exact_end, std::proofs::lemmas::List::drop_all))]
fn exact_len(key: &[u8], bytes: &[u8]) -> usize
    ensures { result ≡ near_from (Rest key.now) bytes.now }
{
    for (i, b) in key.iter().enumerate() {
        if i >= bytes.len() {
            return i;
        }
        if bytes[i] != *b {
            return i;
        }
    }
    key.len()
}

/// Whether the bytes are these, and how many of them are.
#[tactic(auto, using(crate::proofs::Taken::exact_fits))]
fn judge_exact(key: &[u8], word: &[u8]) -> (bool, usize)
    ensures is { result.0 ≡ is_of (Exact key.now) word.now }
    ensures near { result.1 ≡ near_from (Rest key.now) word.now }
{
    let near = exact_len(key, word);
    (near == key.len() && word.len() == key.len(), near)
}

/// Takes the word, where it is the next.
pub fn try_exact<'a>(place: Place<'a>, key: &[u8]) -> (bool, Place<'a>)
    ensures { Tries (Argument (Exact key.now)) tt place.entry result.0 result.1 }
{
    let (_spaces, text) = split_run(Run::Spaces, place.rest);
    let (word, rest) = split_run(Run::Filled, text);
    let (is, near) = judge_exact(key, word);
    if is {
        return (
            true,
            Place {
                rest,
                left: place.left,
            },
        );
    }
    (false, missed(place, text, near))
}

/// The word is the next.
pub fn exact<'a>(place: Place<'a>, key: &[u8]) -> Result<Place<'a>, ReadError>
    ensures { Passes result (one (Argument (Exact key.now)) place.entry.rest.now place.entry.left
        (fit (Argument (Exact key.now)) place.entry.rest.now)) }
{
    let (found, place) = try_exact(place, key);
    if found {
        Ok(place)
    } else {
        Err(ReadError::Syntax { left: place.left })
    }
}

/// The next word, where it is of the kind.
pub fn try_text<'a>(place: Place<'a>, kind: TextKind) -> (Option<&'a [u8]>, Place<'a>)
    ensures { TriesFor (Argument (Text (text_kind_of kind))) place.entry
        (option_map (λ b. b.now) result.0) result.1 }
{
    let (_spaces, text) = split_run(Run::Spaces, place.rest);
    let (word, rest) = split_run(Run::Filled, text);
    let (is, near) = judge_text(kind, word);
    if is {
        return (
            Some(word),
            Place {
                rest,
                left: place.left,
            },
        );
    }
    (None, missed(place, text, near))
}

/// The next word is of the kind.
pub fn text<'a>(place: Place<'a>, kind: TextKind) -> Result<(&'a [u8], Place<'a>), ReadError>
    ensures { Gives (λ b. b.now) result (one (Argument (Text (text_kind_of kind)))
        place.entry.rest.now place.entry.left
        (fit (Argument (Text (text_kind_of kind))) place.entry.rest.now)) }
{
    match try_text(place, kind) {
        (Some(word), place) => Ok((word, place)),
        (None, place) => Err(ReadError::Syntax { left: place.left }),
    }
}

/// The number that digits spelt, where a word ends there.
fn number_there(stage: Option<Stage>) -> Option<u64>
    ensures { result ≡ onward None (λ s. said_at spelt_number s) (option_map stage_of stage) }
{
    match stage {
        Some(Stage::Digits(number)) => Some(number),
        Some(Stage::SizeDigits(number)) => Some(number),
        Some(Stage::Lettered(number)) => Some(number),
        Some(stage) if ends_at(stage) => Some(0),
        _ => None,
    }
}

/// The number that the bytes spell, and how many of them begin a number.
fn judge_number(word: &[u8]) -> (Option<u64>, usize)
    ensures says { result.0 ≡ argument_of PlainNumber word.now }
    ensures near { result.1 ≡ near_from NumberStart word.now }
{
    let (near, stage) = take(Stage::NumberStart, word);
    (number_there(stage), near)
}

/// The size that the bytes spell, and how many of them begin a size.
fn judge_size(word: &[u8]) -> (Option<u64>, usize)
    ensures says { result.0 ≡ argument_of Sized word.now }
    ensures near { result.1 ≡ near_from SizeStart word.now }
{
    let (near, stage) = take(Stage::SizeStart, word);
    (number_there(stage), near)
}

/// The next word is a number.
pub fn number_word<'a>(place: Place<'a>) -> Result<(u64, Place<'a>), ReadError>
    ensures { Gives (λ n. n) result (one (Argument PlainNumber) place.entry.rest.now
        place.entry.left (fit (Argument PlainNumber) place.entry.rest.now)) }
{
    let (_spaces, text) = split_run(Run::Spaces, place.rest);
    let (word, rest) = split_run(Run::Filled, text);
    let (number, near) = judge_number(word);
    match number {
        Some(number) => Ok((
            number,
            Place {
                rest,
                left: place.left,
            },
        )),
        None => Err(ReadError::Syntax {
            left: missed(place, text, near).left,
        }),
    }
}

/// The next word is a size, in bytes.
pub fn size_word<'a>(place: Place<'a>) -> Result<(u64, Place<'a>), ReadError>
    ensures { Gives (λ n. n) result (one (Argument Sized) place.entry.rest.now place.entry.left
        (fit (Argument Sized) place.entry.rest.now)) }
{
    let (_spaces, text) = split_run(Run::Spaces, place.rest);
    let (word, rest) = split_run(Run::Filled, text);
    let (size, near) = judge_size(word);
    match size {
        Some(size) => Ok((
            size,
            Place {
                rest,
                left: place.left,
            },
        )),
        None => Err(ReadError::Syntax {
            left: missed(place, text, near).left,
        }),
    }
}

/// Whether the bytes are an even number of hexadecimal digits, and how many of them begin such.
fn judge_hex(word: &[u8]) -> (bool, usize)
    ensures is { result.0 ≡ is_of HexBytes word.now }
    ensures near { result.1 ≡ near_from (HexStart true) word.now }
{
    let (near, stage) = take(Stage::HexStart(true), word);
    (is_end(stage), near)
}

/// The next word is an even number of hexadecimal digits, which it gives.
pub fn hex_word<'a>(place: Place<'a>) -> Result<(&'a [u8], Place<'a>), ReadError>
    ensures digits { IfOk result (λ r. list_all is_hex r.0.now ≡ true) }
    ensures gives { Gives (λ b. hex_bytes b.now) result
        (one (Argument HexBytes) place.entry.rest.now place.entry.left
        (fit (Argument HexBytes) place.entry.rest.now)) }
{
    let (_spaces, text) = split_run(Run::Spaces, place.rest);
    let (word, rest) = split_run(Run::Filled, text);
    let (is, near) = judge_hex(word);
    if is {
        return Ok((
            word,
            Place {
                rest,
                left: place.left,
            },
        ));
    }
    Err(ReadError::Syntax {
        left: missed(place, text, near).left,
    })
}

/// What a hexadecimal digit stands for.
pub fn hex_value(digit: u8) -> u8
    requires { is_hex digit ≡ true }
    ensures value { result ≡ hex_value digit }
    ensures small { result < 16 }
{
    if digit <= b'9' {
        digit - b'0'
    } else if digit <= b'F' {
        digit - b'A' + 10
    } else {
        digit - b'a' + 10
    }
}

/// The byte that two hexadecimal digits stand for, and how many of the bytes begin such.
fn judge_byte(word: &[u8]) -> (Option<u8>, usize)
    ensures says { result.0 ≡ argument_of HexByte word.now }
    ensures near { result.1 ≡ near_from (HexStart false) word.now }
{
    let (near, stage) = take(Stage::HexStart(false), word);
    if !is_end(stage) {
        return (None, near);
    }
    (Some(hex_value(word[0]) * 16 + hex_value(word[1])), near)
}

/// The next word is two hexadecimal digits: the byte that they stand for.
pub fn byte_word<'a>(place: Place<'a>) -> Result<(u8, Place<'a>), ReadError>
    ensures { Gives (λ n. n) result (one (Argument HexByte) place.entry.rest.now place.entry.left
        (fit (Argument HexByte) place.entry.rest.now)) }
{
    let (_spaces, text) = split_run(Run::Spaces, place.rest);
    let (word, rest) = split_run(Run::Filled, text);
    let (byte, near) = judge_byte(word);
    match byte {
        Some(byte) => Ok((
            byte,
            Place {
                rest,
                left: place.left,
            },
        )),
        None => Err(ReadError::Syntax {
            left: missed(place, text, near).left,
        }),
    }
}

/// Nothing is left but spaces and tabs.
pub fn line_end<'a>(place: Place<'a>) -> Result<Place<'a>, ReadError>
    ensures { Passes result (close End place.entry.rest.now place.entry.left) }
{
    let (_spaces, text) = split_run(Run::Spaces, place.rest);
    match text {
        [] => Ok(Place {
            rest: text,
            left: place.left,
        }),
        [_, ..] => Err(ReadError::Syntax {
            left: missed(place, text, 0).left,
        }),
    }
}
