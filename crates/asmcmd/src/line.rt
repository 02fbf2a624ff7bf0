//! Lines.

ghost use Rattle.std.specs.Prelude.{◌≡◌, ◌≤◌, length, false};
ghost use Rattle.asm_grammar.specs.Reading.{mapped, close, ended_by_word, parse};
ghost use Rattle.asm_grammar.specs.Reads.{Gives, reads};
ghost use Rattle.asm_grammar.specs.Word.{End};
ghost use Rattle.asm_grammar.specs.FirstWord.{opens_statement};
ghost use Rattle.asm_world.specs.FirstWord.{begins_blank, keyword_front};
ghost use Rattle.asm_world.specs.VerbMeaning.{verb_of};
ghost use Rattle.asm_world.specs.Verbs as g;
ghost use Rattle.asmcmd.specs.Exact.{other_verbs, other_of, last_verbs, last_of, read_error_of, IsVerbRead, IsExact, IsCommand};
ghost use Rattle.asmcmd.specs.Verbs.{meant_verb};

use crate::files::file_verb;
use crate::groups::{disk_verb, report_verb};
use crate::names::name_verb;
use crate::verb::{ReadError, Verb};
use asm_grammar::{Place, ReadError as Unread, key_prefix, line_end};
use std::alloc::Global;

/// How many bytes begin one of the words that open a statement.
#[tactic(auto, using(crate::proofs::Lines::front_within))]
fn keyword_front(text: &[u8]) -> usize
    ensures front { result ≡ keyword_front text.now }
    ensures within { result ≤ length text.now }
{
    let create = key_prefix(b"CREATE", text);
    let drop = key_prefix(b"DROP", text);
    let alter = key_prefix(b"ALTER", text);
    create.max(drop.max(alter))
}

/// A report of a group or a verb on its disks.
fn last_verb<'a>(alloc: Global, place: Place<'a>) -> Result<(Verb, Place<'a>), Unread>
    ensures { Gives meant_verb result (reads last_verbs last_of place.entry) }
{
    match report_verb(alloc, place) {
        Ok((read, place)) => match read {
            Some(verb) => Ok((verb, place)),
            None => disk_verb(alloc, place),
        },
        Err(error) => Err(error),
    }
}

/// Any verb but those on the bytes of files.
fn other_verb<'a>(alloc: Global, place: Place<'a>) -> Result<(Verb, Place<'a>), Unread>
    ensures { Gives meant_verb result (reads other_verbs other_of place.entry) }
{
    match name_verb(alloc, place) {
        Ok((read, place)) => match read {
            Some(verb) => Ok((verb, place)),
            None => last_verb(alloc, place),
        },
        Err(error) => Err(error),
    }
}

fn verb<'a>(alloc: Global, place: Place<'a>) -> Result<(Verb, Place<'a>), Unread>
    ensures { Gives meant_verb result (reads g.verb verb_of place.entry) }
{
    match file_verb(alloc, place) {
        Ok((read, place)) => match read {
            Some(verb) => Ok((verb, place)),
            None => other_verb(alloc, place),
        },
        Err(error) => Err(error),
    }
}

/// The verb, where the line ends behind it.
fn with_end<'a>(verb: Verb, place: Place<'a>) -> Result<(Verb, Place<'a>), Unread>
    ensures { Gives meant_verb result (mapped (λ u. meant_verb verb)
        (close End place.entry.rest.now place.entry.left)) }
{
    let place = line_end(place)?;
    Ok((verb, place))
}

fn whole_verb<'a>(alloc: Global, place: Place<'a>) -> Result<(Verb, Place<'a>), Unread>
    ensures { Gives meant_verb result (mapped verb_of
        (ended_by_word End (parse g.verb place.entry.rest.now place.entry.left))) }
{
    match verb(alloc, place) {
        Ok((verb, place)) => with_end(verb, place),
        Err(error) => Err(error),
    }
}

/// Where a line of so many bytes is refused.
fn place_of(error: Unread, text: &[u8]) -> ReadError
    ensures { result ≡ read_error_of (length text.now) error }
{
    match error {
        Unread::Syntax { left } => ReadError::Syntax {
            at: text.len().saturating_sub(left) as u64,
        },
        Unread::NoMemory => ReadError::NoMemory,
    }
}

fn read_whole(alloc: Global, text: &[u8]) -> Result<Verb, ReadError>
    ensures { IsVerbRead result text.now }
{
    let place = Place {
        rest: text,
        left: text.len() - keyword_front(text),
    };
    match whole_verb(alloc, place) {
        Ok((verb, _place)) => Ok(verb),
        Err(error) => Err(place_of(error, text)),
    }
}

/// Reads a line as a verb. Spaces and tabs part its words, and may stand before and behind them. Of
/// a line that is none the error says how many bytes begin a verb, or one of the words CREATE, DROP
/// and ALTER.
pub fn read_line(alloc: Global, text: &[u8]) -> Result<Verb, ReadError>
    ensures reads { IsVerbRead result text.now }
    ensures exact { IsExact result text.now }
    ensures command { opens_statement text.now ≡ false → begins_blank text.now ≡ false
        → IsCommand result text.now }
{
    read_whole(alloc, text)
}
