//! Reading one word.

ghost use Rattle.std.specs.Prelude.{◌≡◌, ◌-◌, min, length, Some};
ghost use Rattle.std.specs.Option.{option_map};
ghost use Rattle.asm_grammar.specs.Word.{Keyword, Mark, Name, Number, Size, Minutes, Quoted, fit};
ghost use Rattle.asm_grammar.specs.Reading.{one, close};
ghost use Rattle.asm_grammar.specs.Bytes.{is_word, run_of};
ghost use Rattle.asm_grammar.specs.Word.{in_minutes, near_letter, size_of_text, near_digits, near_size};
ghost use Rattle.asm_grammar.specs.Reads.{Gives, Passes, Tries};
ghost use Rattle.asm_grammar.specs.declared.words.ReadError.TheVariants.{NoMemory};

use crate::scan::{
    Run, begins_word, count_prefix, is_key, key_prefix, number_prefix, size_prefix, split_quoted,
    split_run, starts_with_digit, starts_with_letter, with_unit,
};
use std::alloc::{AllocError, AllocFailed};

/// Where a reader stands.
#[derive(Clone, Copy)]
pub struct Place<'a> {
    /// The bytes that are still to be read.
    pub rest: &'a [u8],
    /// The fewest bytes that were left at a word that didn't fit.
    pub left: usize,
}

/// Why a text was not read.
#[derive(Debug, Drop)]
pub enum ReadError {
    /// It is not in the grammar: only so many bytes are left behind its longest front that begins a
    /// text of it.
    Syntax { left: usize },
    NoMemory,
}

impl From<AllocError> for ReadError {
    ghost from_gives = { λ _ e. e ≡ NoMemory };

    fn from(_e: AllocError) -> ReadError {
        ReadError::NoMemory
    }
}

impl<T: Drop> From<AllocFailed<T>> for ReadError {
    ghost from_gives = { λ _ e. e ≡ NoMemory };

    fn from(_e: AllocFailed<T>) -> ReadError {
        ReadError::NoMemory
    }
}

/// The place with a miss noted: only so many bytes of the text behind the blanks fit.
pub fn missed<'a>(place: Place<'a>, text: &[u8], near: usize) -> Place<'a>
    ensures rest { result.rest.now ≡ place.entry.rest.now }
    ensures left { result.left ≡ min place.entry.left (length text.now - near) }
{
    Place {
        rest: place.rest,
        left: place.left.min(text.len().saturating_sub(near)),
    }
}

/// Takes the keyword, where it is the next word.
#[tactic(auto, using(crate::proofs::Consumes::run_and_rest))]
pub fn try_key<'a>(place: Place<'a>, key: &[u8]) -> (bool, Place<'a>)
    ensures { Tries (Keyword key.now) tt place.entry result.0 result.1 }
{
    let (_blanks, text) = split_run(Run::Blanks, place.rest);
    let (word, rest) = split_run(Run::Word, text);
    if is_key(word, key) {
        return (
            true,
            Place {
                rest,
                left: place.left,
            },
        );
    }
    (false, missed(place, text, key_prefix(key, text)))
}

/// The keyword is the next word.
pub fn key<'a>(place: Place<'a>, key: &[u8]) -> Result<Place<'a>, ReadError>
    ensures { Passes result (one (Keyword key.now) place.entry.rest.now place.entry.left
        (fit (Keyword key.now) place.entry.rest.now)) }
{
    let (found, place) = try_key(place, key);
    if found {
        Ok(place)
    } else {
        Err(ReadError::Syntax { left: place.left })
    }
}

/// Takes the mark, where it is next.
#[tactic(auto, using(crate::proofs::Consumes::run_and_rest))]
pub fn try_mark<'a>(place: Place<'a>, mark: u8) -> (bool, Place<'a>)
    ensures { Tries (Mark mark) tt place.entry result.0 result.1 }
{
    let (_blanks, text) = split_run(Run::Blanks, place.rest);
    match text {
        [first, rest @ ..] if *first == mark => (
            true,
            Place {
                rest,
                left: place.left,
            },
        ),
        _ => (false, missed(place, text, 0)),
    }
}

/// The mark is next.
pub fn mark<'a>(place: Place<'a>, mark: u8) -> Result<Place<'a>, ReadError>
    ensures { Passes result (one (Mark mark) place.entry.rest.now place.entry.left
        (fit (Mark mark) place.entry.rest.now)) }
{
    let (found, place) = try_mark(place, mark);
    if found {
        Ok(place)
    } else {
        Err(ReadError::Syntax { left: place.left })
    }
}

/// The next word is a name.
#[tactic(auto, using(crate::proofs::Consumes::run_and_rest))]
pub fn name<'a>(place: Place<'a>) -> Result<(&'a [u8], Place<'a>), ReadError>
    ensures { Gives (λ b. b.now) result (one Name place.entry.rest.now place.entry.left
        (fit Name place.entry.rest.now)) }
{
    let (_blanks, text) = split_run(Run::Blanks, place.rest);
    let (word, rest) = split_run(Run::Word, text);
    if starts_with_letter(word) && word.len() <= 30 {
        return Ok((
            word,
            Place {
                rest,
                left: place.left,
            },
        ));
    }
    let near = if starts_with_letter(text) {
        word.len().min(30)
    } else {
        0
    };
    Err(ReadError::Syntax {
        left: missed(place, text, near).left,
    })
}

/// The next word is a number.
#[tactic(auto, using(crate::proofs::Consumes::run_and_rest, crate::proofs::Readers::number_read, crate::proofs::Readers::number_near_is))]
pub fn number<'a>(place: Place<'a>) -> Result<(u64, Place<'a>), ReadError>
    ensures { Gives (λ n. n) result (one Number place.entry.rest.now place.entry.left
        (fit Number place.entry.rest.now)) }
{
    let (_blanks, text) = split_run(Run::Blanks, place.rest);
    let (word, rest) = split_run(Run::Word, text);
    let (len, number) = number_prefix(text);
    if 0 < len && len == word.len() {
        return Ok((
            number,
            Place {
                rest,
                left: place.left,
            },
        ));
    }
    Err(ReadError::Syntax {
        left: missed(place, text, len).left,
    })
}

/// The size that the first word spells, and how many bytes of the text begin a size.
fn judge_size(text: &[u8], word: &[u8]) -> (Option<u64>, usize)
    requires { word.now ≡ run_of is_word text.now }
    ensures says { result.0 ≡ size_of_text word.now }
    ensures near { result.1 ≡ near_digits near_size text.now }
{
    if !starts_with_digit(text) {
        return (None, 0);
    }
    let (len, size) = size_prefix(text);
    if len != word.len() {
        return (None, len);
    }
    (Some(size), len)
}

/// The next word is a size, in bytes.
pub fn size<'a>(place: Place<'a>) -> Result<(u64, Place<'a>), ReadError>
    ensures { Gives (λ n. n) result (one Size place.entry.rest.now place.entry.left
        (fit Size place.entry.rest.now)) }
{
    let (_blanks, text) = split_run(Run::Blanks, place.rest);
    let (word, rest) = split_run(Run::Word, text);
    let (size, near) = judge_size(text, word);
    match size {
        Some(size) => Ok((
            size,
            Place {
                rest,
                left: place.left,
            },
        )),
        None => Err(ReadError::Syntax {
            left: missed(place, text, near).left,
        }),
    }
}

/// The minutes that a letter behind so many and the end of the word make, what stands behind them,
/// and how many bytes begin such a letter.
fn judge_unit(count: u64, text: &[u8]) -> (Option<(u64, &[u8])>, usize)
    ensures says { option_map (λ p. (p.0, p.1.now)) result.0 ≡ in_minutes (Some count) text.now }
    ensures near { result.1 ≡ near_letter count text.now }
{
    let [letter, rest @ ..] = text else {
        return (None, 0);
    };
    match with_unit(count, *letter) {
        Some(minutes) if !begins_word(rest) => (Some((minutes, rest)), 1),
        Some(_minutes) => (None, 1),
        None => (None, 0),
    }
}

/// The next is a number of minutes or hours, in minutes.
pub fn minutes<'a>(place: Place<'a>) -> Result<(u64, Place<'a>), ReadError>
    ensures { Gives (λ n. n) result (one Minutes place.entry.rest.now place.entry.left
        (fit Minutes place.entry.rest.now)) }
{
    let (_blanks, text) = split_run(Run::Blanks, place.rest);
    let (digits, after) = split_run(Run::Digits, text);
    let (len, count) = count_prefix(text);
    if len == 0 || len != digits.len() {
        return Err(ReadError::Syntax {
            left: missed(place, text, len).left,
        });
    }
    let (blanks, behind) = split_run(Run::Blanks, after);
    let (unit, near) = judge_unit(count, behind);
    match unit {
        Some((minutes, rest)) => Ok((
            minutes,
            Place {
                rest,
                left: place.left,
            },
        )),
        None => Err(ReadError::Syntax {
            left: missed(place, text, len + blanks.len() + near).left,
        }),
    }
}

/// The next is a text in single quotes.
#[tactic(auto, using(crate::proofs::Consumes::run_and_rest))]
pub fn quoted<'a>(place: Place<'a>) -> Result<(&'a [u8], Place<'a>), ReadError>
    ensures { Gives (λ b. b.now) result (one Quoted place.entry.rest.now place.entry.left
        (fit Quoted place.entry.rest.now)) }
{
    let (_blanks, text) = split_run(Run::Blanks, place.rest);
    let (inner, near) = split_quoted(text);
    match inner {
        Some((bytes, rest)) => Ok((
            bytes,
            Place {
                rest,
                left: place.left,
            },
        )),
        None => Err(ReadError::Syntax {
            left: missed(place, text, near).left,
        }),
    }
}

/// The mark is next, and nothing behind it.
#[tactic(auto, using(crate::proofs::Closing::mark_exact))]
pub fn end<'a>(place: Place<'a>, mark: u8) -> Result<Place<'a>, ReadError>
    ensures { Passes result (close (Mark mark) place.entry.rest.now place.entry.left) }
{
    let (found, behind) = try_mark(place, mark);
    if !found {
        return Err(ReadError::Syntax { left: behind.left });
    }
    match behind.rest {
        [] => Ok(behind),
        [_, ..] => Err(ReadError::Syntax {
            left: behind.left.min(behind.rest.len()),
        }),
    }
}
