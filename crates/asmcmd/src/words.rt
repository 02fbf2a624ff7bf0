//! Words of verbs as values of their own.

ghost use Rattle.std.specs.List.{list_all};
ghost use Rattle.std.specs.Option.{option_map};
ghost use Rattle.std.specs.Prelude.{◌≡◌, ◌++◌, true, IfOk, IfErr, Some};
ghost use Rattle.asm_group.specs.Names.{is_part};
ghost use Rattle.asm_grammar.specs.Argument.{Text as OfKind, PlainName, HexBytes, hex_bytes, is_hex};
ghost use Rattle.asm_grammar.specs.Reading.{Outcome, mapped, one};
ghost use Rattle.asm_grammar.specs.Reads.{Gives};
ghost use Rattle.asm_grammar.specs.Stages.{text_kind_of};
ghost use Rattle.asm_grammar.specs.Word.{Argument, fit};
ghost use Rattle.asm_grammar.specs.declared.words.ReadError.TheVariants.{NoMemory};
ghost use Rattle.asm_world.specs.Verbs.{name, argument};
ghost use Rattle.asm_world.specs.Command as c;
ghost use Rattle.asmcmd.specs.Rows.{may_read};
ghost use Rattle.asmcmd.specs.Verbs.{meant_verb};

use crate::verb::Verb;
use asm_base::{List, Name, Text};
use asm_grammar::{Place, ReadError, TextKind, hex_value, hex_word, text, try_text};
use std::alloc::Global;

fn owned(alloc: Global, bytes: &[u8]) -> Result<Text, ReadError>
    ensures value { IfOk result (λ t. t ≡ bytes.now) }
    ensures memory { IfErr result (λ e. e ≡ NoMemory) }
{
    List::from_slice(alloc, bytes).map_err(|_| ReadError::NoMemory)
}

/// The next word is of the kind.
pub fn text_word<'a>(
    alloc: Global,
    place: Place<'a>,
    kind: TextKind,
) -> Result<(Text, Place<'a>), ReadError>
    ensures { Gives (λ t. t) result (one (Argument (OfKind (text_kind_of kind)))
        place.entry.rest.now place.entry.left
        (fit (Argument (OfKind (text_kind_of kind))) place.entry.rest.now)) }
{
    let (word, place) = text(place, kind)?;
    let word = owned(alloc, word)?;
    Ok((word, place))
}

/// The next word, where it is of the kind.
pub fn maybe_text<'a>(
    alloc: Global,
    place: Place<'a>,
    kind: TextKind,
) -> Result<(Option<Text>, Place<'a>), ReadError>
    ensures { Gives (λ t. t) result (may_read (argument (OfKind (text_kind_of kind))) (λ t. t)
        place.entry) }
{
    let (word, place) = try_text(place, kind);
    let Some(word) = word else {
        return Ok((None, place));
    };
    let word = owned(alloc, word)?;
    Ok((Some(word), place))
}

fn owned_name(alloc: Global, word: &[u8]) -> Result<Name, ReadError>
    requires { is_part 30 word.now ≡ true }
    ensures value { IfOk result (λ n. n ≡ word.now) }
    ensures memory { IfErr result (λ e. e ≡ NoMemory) }
{
    match Name::read(alloc, word, 30) {
        Ok(Some(name)) => Ok(name),
        Ok(None) => unreachable!(),
        Err(_) => Err(ReadError::NoMemory),
    }
}

/// The next word is a name.
pub fn name_word<'a>(alloc: Global, place: Place<'a>) -> Result<(Name, Place<'a>), ReadError>
    ensures { Gives (λ n. n) result (one (Argument (OfKind PlainName)) place.entry.rest.now
        place.entry.left (fit (Argument (OfKind PlainName)) place.entry.rest.now)) }
{
    let (word, place) = text(place, TextKind::Named)?;
    let name = owned_name(alloc, word)?;
    Ok((name, place))
}

/// The next word, where it is a name.
pub fn maybe_name<'a>(
    alloc: Global,
    place: Place<'a>,
) -> Result<(Option<Name>, Place<'a>), ReadError>
    ensures { Gives (λ n. n) result (may_read name (λ n. n) place.entry) }
{
    let (word, place) = try_text(place, TextKind::Named);
    let Some(word) = word else {
        return Ok((None, place));
    };
    let name = owned_name(alloc, word)?;
    Ok((Some(name), place))
}

/// The bytes that pairs of hexadecimal digits stand for.
fn bytes_of(alloc: Global, digits: &[u8]) -> Result<Text, ReadError>
    requires { list_all is_hex digits.now ≡ true }
    ensures value { IfOk result (λ t. t ≡ hex_bytes digits.now) }
    ensures memory { IfErr result (λ e. e ≡ NoMemory) }
{
    let mut bytes = Vec::new(alloc);
    let mut rest = digits;
    while let [high, low, behind @ ..] = rest {
        bytes.push(hex_value(*high) * 16 + hex_value(*low))?;
        rest = behind;
    }
    Ok(List::from_vec(bytes))
}

/// The next word is an even number of hexadecimal digits: the bytes that they stand for.
pub fn bytes_word<'a>(alloc: Global, place: Place<'a>) -> Result<(Text, Place<'a>), ReadError>
    ensures { Gives (λ t. t) result (one (Argument HexBytes) place.entry.rest.now place.entry.left
        (fit (Argument HexBytes) place.entry.rest.now)) }
{
    let (digits, place) = hex_word(place)?;
    let bytes = bytes_of(alloc, digits)?;
    Ok((bytes, place))
}

/// The verb that was read, as one that may be absent.
pub fn present<'a>(
    read: Result<(Verb, Place<'a>), ReadError>,
) -> Result<(Option<Verb>, Place<'a>), ReadError>
    ensures { (o : Outcome c.Verb) → Gives meant_verb read.entry o
        → Gives (λ v. option_map meant_verb v) result (mapped (λ v. Some v) o) }
{
    match read {
        Ok((verb, place)) => Ok((Some(verb), place)),
        Err(error) => Err(error),
    }
}
