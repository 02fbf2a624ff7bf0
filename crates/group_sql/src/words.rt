//! Single words, read from a place that moves on.

ghost use Rattle.std.specs.Prelude.{◌≡◌, ◌++◌, ◌∷◌, [], OnOk, IfErr};
ghost use Rattle.asm_grammar.specs.Reads.{Tries};
ghost use Rattle.asm_grammar.specs.declared.words.ReadError.TheVariants.{NoMemory as WantOfMemory};
ghost use Rattle.asm_grammar.specs.Reading.{close, parse};
ghost use Rattle.asm_grammar.specs.Syntax.{One};
ghost use Rattle.asm_grammar.specs.Word as w;
ghost use Rattle.group_sql.specs.Readers.{GivesPart};

use asm_base::{List, Name, NoMemory, Text};
use asm_grammar::{
    Place, ReadError, end, key, mark, minutes, name, number, quoted, size, try_key, try_mark,
};
use std::alloc::Global;

/// Takes the keyword, where it is next.
pub fn takes<'a>(place: &mut Place<'a>, word: &[u8]) -> bool
    ensures { Tries (w.Keyword word.now) tt place.old result place.new }
{
    let (found, next) = try_key(*place, word);
    *place = next;
    found
}

/// The keyword is next.
pub fn expect<'a>(place: &mut Place<'a>, word: &[u8]) -> Result<(), ReadError>
    ensures { GivesPart (λ u. u) result place.new
        (parse (One (w.Keyword word.now)) place.old.rest.now place.old.left) }
{
    *place = key(*place, word)?;
    Ok(())
}

/// Takes the mark, where it is next.
pub fn takes_mark<'a>(place: &mut Place<'a>, byte: u8) -> bool
    ensures { Tries (w.Mark byte) tt place.old result place.new }
{
    let (found, next) = try_mark(*place, byte);
    *place = next;
    found
}

/// The mark is next.
pub fn expect_mark<'a>(place: &mut Place<'a>, byte: u8) -> Result<(), ReadError>
    ensures { GivesPart (λ u. u) result place.new
        (parse (One (w.Mark byte)) place.old.rest.now place.old.left) }
{
    *place = mark(*place, byte)?;
    Ok(())
}

/// The mark is next, and nothing behind it.
pub fn expect_end<'a>(place: &mut Place<'a>, byte: u8) -> Result<(), ReadError>
    ensures { GivesPart (λ u. u) result place.new
        (close (w.Mark byte) place.old.rest.now place.old.left) }
{
    *place = end(*place, byte)?;
    Ok(())
}

/// A name is next.
#[tactic(auto, using(crate::proofs::Names::name_is))]
pub fn read_name<'a>(alloc: Global, place: &mut Place<'a>) -> Result<Name, ReadError>
    ensures { GivesPart (λ n. n) result place.new
        (parse (One w.Name) place.old.rest.now place.old.left) }
{
    let (bytes, next) = name(*place)?;
    *place = next;
    match Name::read(alloc, bytes, 30) {
        Ok(Some(name)) => Ok(name),
        Ok(None) => unreachable!(),
        Err(NoMemory) => Err(ReadError::NoMemory),
    }
}

/// A path or a text in quotes is next.
pub fn read_text<'a>(alloc: Global, place: &mut Place<'a>) -> Result<Text, ReadError>
    ensures { GivesPart (λ t. t) result place.new
        (parse (One w.Quoted) place.old.rest.now place.old.left) }
{
    let (bytes, next) = quoted(*place)?;
    *place = next;
    match Text::from_slice(alloc, bytes) {
        Ok(text) => Ok(text),
        Err(NoMemory) => Err(ReadError::NoMemory),
    }
}

/// A number is next.
pub fn read_number<'a>(place: &mut Place<'a>) -> Result<u64, ReadError>
    ensures { GivesPart (λ n. n) result place.new
        (parse (One w.Number) place.old.rest.now place.old.left) }
{
    let (number, next) = number(*place)?;
    *place = next;
    Ok(number)
}

/// A size is next; it is given in bytes.
pub fn read_size<'a>(place: &mut Place<'a>) -> Result<u64, ReadError>
    ensures { GivesPart (λ n. n) result place.new
        (parse (One w.Size) place.old.rest.now place.old.left) }
{
    let (size, next) = size(*place)?;
    *place = next;
    Ok(size)
}

/// A time is next; it is given in minutes.
pub fn read_minutes<'a>(place: &mut Place<'a>) -> Result<u64, ReadError>
    ensures { GivesPart (λ n. n) result place.new
        (parse (One w.Minutes) place.old.rest.now place.old.left) }
{
    let (minutes, next) = minutes(*place)?;
    *place = next;
    Ok(minutes)
}

/// Puts what was read at the end of a list.
pub fn push<T: Drop>(list: &mut List<T>, item: T) -> Result<(), ReadError>
    ensures ok { OnOk result (list.new ≡ list.old ++ item ∷ []) }
    ensures err { IfErr result (λ e. e ≡ WantOfMemory) }
{
    match list.push(item) {
        Ok(()) => Ok(()),
        Err(NoMemory) => Err(ReadError::NoMemory),
    }
}
