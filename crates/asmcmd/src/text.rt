//! Lines, made word by word.

ghost use Rattle.std.specs.List.{flat_map};
ghost use Rattle.std.specs.Prelude.{◌≡◌, ◌++◌, ◌∷◌, [], map, IfOk};
ghost use Rattle.asm_group.specs.Refusal.{spaced};
ghost use Rattle.asmcmd.specs.Texts.{text_of_field};

use asm_base::{List, NoMemory, Text};
use itoa::Buffer;
use std::alloc::Global;

/// A word of a line.
#[derive(Clone, Copy)]
pub enum Field<'a> {
    Word(&'a [u8]),
    /// A name, with `/` after it.
    Directory(&'a [u8]),
    Number(u64),
    /// A number that 64 bits may not hold.
    WideNumber(u128),
}

pub fn with_bytes(mut text: Vec<u8>, bytes: &[u8]) -> Result<Vec<u8>, NoMemory>
    ensures { IfOk result (λ longer. longer.items ≡ text.items ++ bytes.now) }
{
    text.extend_from_slice(bytes).map_err(|_| NoMemory)?;
    Ok(text)
}

pub fn with_byte(mut text: Vec<u8>, byte: u8) -> Result<Vec<u8>, NoMemory>
    ensures { IfOk result (λ longer. longer.items ≡ text.items ++ byte ∷ []) }
{
    text.push(byte).map_err(|_| NoMemory)?;
    Ok(text)
}

fn with_field(text: Vec<u8>, field: Field<'_>) -> Result<Vec<u8>, NoMemory>
    ensures { IfOk result (λ longer. longer.items ≡ text.items ++ text_of_field field.entry) }
{
    match field {
        Field::Word(word) => with_bytes(text, word),
        Field::Directory(name) => with_byte(with_bytes(text, name)?, b'/'),
        Field::Number(n) => with_bytes(text, Buffer::new().format(n).as_bytes()),
        Field::WideNumber(n) => with_bytes(text, Buffer::new().format(n).as_bytes()),
    }
}

fn with_next(text: Vec<u8>, field: Field<'_>) -> Result<Vec<u8>, NoMemory>
    ensures { IfOk result (λ longer. longer.items ≡ text.items ++ 32 ∷ text_of_field field.entry) }
{
    with_field(with_byte(text, b' ')?, field)
}

fn with_others(mut text: Vec<u8>, others: &[Field<'_>]) -> Result<Vec<u8>, NoMemory>
    ensures { IfOk result (λ longer. longer.items
        ≡ text.items ++ flat_map (λ field. 32 ∷ text_of_field field) others.now) }
{
    for field in others {
        text = with_next(text, *field)?;
    }
    Ok(text)
}

/// The text with words behind it, with one space between.
fn with_words(text: Vec<u8>, first: Field<'_>, others: &[Field<'_>]) -> Result<Vec<u8>, NoMemory>
    ensures { IfOk result (λ longer. longer.items
        ≡ text.items ++ spaced (text_of_field first.entry ∷ map text_of_field others.now)) }
{
    let text = with_field(text, first)?;
    with_others(text, others)
}

/// The line of these words, with one space between.
pub fn line_of(alloc: Global, first: Field<'_>, others: &[Field<'_>]) -> Result<Text, NoMemory>
    ensures { IfOk result (λ line. line ≡ spaced
        (text_of_field first.entry ∷ map text_of_field others.now)) }
{
    let line = with_words(Vec::new(alloc), first, others)?;
    Ok(List::from_vec(line))
}

/// The head line of a report, which others follow.
pub fn headed(alloc: Global, head: &[u8]) -> Result<List<Text>, NoMemory>
    ensures { IfOk result (λ lines. lines ≡ head.now ∷ []) }
{
    let mut lines = List::new(alloc);
    lines.push(Text::from_slice(alloc, head)?)?;
    Ok(lines)
}
