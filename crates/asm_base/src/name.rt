//! Names of groups, disks and files, and texts, with their fields in records.

ghost use Rattle.std.specs.Prelude.{◌≡◌, ◌≤◌, ◌<◌, ◌+◌, ◌^◌, ◌==◌, length, IfOk, IfSome, OnErr, true, List as Items, ℕ};
ghost use Rattle.std.specs.List.{list_all};
ghost use Rattle.std.specs.Option.{option_copied};
ghost use Rattle.asm_group.specs.Names.{folded_byte, is_name, is_name_byte, is_letter, is_part, is_part_byte, is_same_name};
ghost use Rattle.asm_formats.specs.Bytes.{name_field};
ghost use Rattle.asm_base.specs.Cursors.{PutsField, TakesValue};
ghost use Rattle.asm_base.specs.Names.{folded_cmp, name_of};
ghost use Rattle.asm_base.specs.Readings.{name_reading, text_in, text_reading};

use crate::cursor::{Reader, Writer, are_zeros, put_bytes, put_u8, put_zeros};
use crate::kinds::NoMemory;
use crate::list::{List, Text};
use std::alloc::Global;
use std::cmp::Ordering;
use std::marker::Model;

/// A name or a part of a path: letters, digits, `_`, `$`, `#`, `-` and `.`, and not `.` alone.
/// Contracts see it as its bytes.
#[derive(Debug, Drop)]
pub struct Name {
    bytes: Vec<u8>,
}

impl Model for Name {
    ghost use Rattle.std.specs.Prelude.{◌≡◌, List as Items, ℕ, true};
    ghost use Rattle.asm_group.specs.Names.{is_part};

    ghost Value = { Items ℕ };

    ghost view = { λ n. n.bytes.items };

    ghost invariant = { λ n. is_part 255 n.bytes.items ≡ true };
}

impl Name {
    /// The part of a path that the bytes are, or None where they aren't one of at most `longest`
    /// bytes.
    #[tactic(auto, using(crate::proofs::NameLaws::part_is_longer))]
    pub fn read(alloc: Global, bytes: &[u8], longest: u8) -> Result<Option<Name>, NoMemory>
        ensures { IfOk result (λ read. read ≡ name_of longest bytes.now) }
    {
        if !is_part(bytes, longest) {
            return Ok(None);
        }
        let bytes = Vec::from_slice(alloc, bytes).map_err(|_| NoMemory)?;
        Ok(Some(Name { bytes }))
    }

    pub fn as_bytes(&self) -> &[u8]
        ensures bytes { result.now ≡ self.now }
        ensures part { is_part 255 self.now ≡ true }
    {
        &self.bytes
    }

    pub fn copy(&self) -> Result<Name, NoMemory>
        ensures { IfOk result (λ n. n ≡ self.now) }
    {
        let alloc = *self.bytes.allocator();
        let bytes = Vec::from_slice(alloc, &self.bytes).map_err(|_| NoMemory)?;
        Ok(Name { bytes })
    }

    /// Whether it is a name of a group, a disk or a template: a letter first, no `-` or `.`, and at
    /// most 30 bytes.
    pub fn is_name(&self) -> bool
        ensures { result ≡ is_name self.now }
    {
        is_name(&self.bytes)
    }

    /// The order without regard to the case of letters.
    pub fn folded_cmp(&self, other: &Name) -> Ordering
        ensures { result ≡ folded_cmp self.now other.now }
    {
        folded_order(&self.bytes, &other.bytes)
    }

    /// Whether both are one name, without regard to the case of letters.
    #[tactic(auto, using(crate::proofs::NameLaws::same_order))]
    pub fn is_same(&self, other: &Name) -> bool
        ensures { result ≡ is_same_name self.now other.now }
    {
        folded_order(&self.bytes, &other.bytes).is_eq()
    }
}

fn is_name_byte(b: u8) -> bool
    ensures { result ≡ is_name_byte b }
{
    matches!(b, b'A'..=b'Z' | b'a'..=b'z' | b'0'..=b'9' | b'_' | b'$' | b'#')
}

fn are_name_bytes(bytes: &[u8]) -> bool
    ensures { result ≡ list_all is_name_byte bytes.now }
{
    bytes.iter().all(|b| is_name_byte(*b))
}

/// Whether bytes are a name of a group, a disk or a template: a letter first, no `-` or `.`, and
/// at most 30 bytes.
#[tactic(auto, unfolding(asm_group::specs::Names::is_name))]
pub fn is_name(bytes: &[u8]) -> bool
    ensures { result ≡ is_name bytes.now }
{
    match bytes {
        [] => false,
        [first, others @ ..] => {
            first.is_ascii_alphabetic() && are_name_bytes(others) && others.len() <= 29
        }
    }
}

fn are_part_bytes(bytes: &[u8]) -> bool
    ensures { result ≡ list_all is_part_byte bytes.now }
{
    bytes
        .iter()
        .all(|b| is_name_byte(*b) || *b == b'-' || *b == b'.')
}

/// Whether bytes are a part of a path of at most `longest` bytes.
#[tactic(auto, unfolding(asm_group::specs::Names::is_part))]
pub fn is_part(bytes: &[u8], longest: u8) -> bool
    ensures { result ≡ is_part longest bytes.now }
{
    are_part_bytes(bytes)
        && !bytes.is_empty()
        && bytes.len() <= longest as usize
        && bytes != b".".as_slice()
}

/// The byte with a capital letter made small.
pub fn folded_byte(b: u8) -> u8
    ensures { result ≡ folded_byte b }
{
    if b.is_ascii_uppercase() { b + 32 } else { b }
}

#[tactic(auto, using(crate::proofs::NameLaws::above_nothing))]
fn folded_order(a: &[u8], b: &[u8]) -> Ordering
    ensures { result ≡ folded_cmp a.now b.now }
{
    match (a, b) {
        ([], []) => Ordering::Equal,
        ([], [_, ..]) => Ordering::Less,
        ([_, ..], []) => Ordering::Greater,
        ([x, xs @ ..], [y, ys @ ..]) => match folded_byte(*x).cmp(&folded_byte(*y)) {
            Ordering::Equal => folded_order(xs, ys),
            order => order,
        },
    }
}

/// Puts a text: its length, its bytes, and zeros behind them up to a width.
#[tactic(auto, unfolding(asm_formats::specs::Bytes::name_field))]
pub fn put_text(to: &mut Writer, text: &[u8], width: u8)
    requires fits { length text.now ≤ width }
    requires room { to.old.at + width + 1 ≤ 4096 }
    ensures puts { PutsField to.old to.new (name_field width text.now) }
    ensures at { to.new.at ≡ to.old.at + width + 1 }
{
    let len = text.len() as u8;
    put_u8(to, len);
    put_bytes(to, text);
    put_zeros(to, (width - len) as u32);
}

/// Puts a name, with zeros behind it up to a width.
pub fn put_name(to: &mut Writer, name: &Name, width: u8)
    requires fits { length name.now ≤ width }
    requires room { to.old.at + width + 1 ≤ 4096 }
    ensures puts { PutsField to.old to.new (name_field width name.now) }
    ensures at { to.new.at ≡ to.old.at + width + 1 }
{
    put_text(to, name.as_bytes(), width);
}

/// Takes a text of a width, or None where the field is short, or isn't a spelling of one.
#[tactic(auto, unfolding(crate::specs::Readings::text_reading))]
pub fn take_text(alloc: Global, from: &mut Reader, width: u8) -> Result<Option<Text>, NoMemory>
    ensures read { IfOk result (λ read. TakesValue from.old from.new read
        (text_reading width from.old)) }
    ensures err { OnErr result (from.new ≡ from.old) }
{
    let Some(text) = text_in(&from.bytes[from.at as usize..], width) else {
        return Ok(None);
    };
    let text = List::from_slice(alloc, text)?;
    from.at += width as u32 + 1;
    Ok(Some(text))
}

/// Takes a name or a part of a path of a width, or None where the field is short, or isn't a
/// spelling of one.
#[tactic(auto, unfolding(crate::specs::Readings::text_reading), using(crate::proofs::NameLaws::part_is_longer))]
pub fn take_name(alloc: Global, from: &mut Reader, width: u8) -> Result<Option<Name>, NoMemory>
    ensures read { IfOk result (λ read. TakesValue from.old from.new read
        (name_reading width from.old)) }
    ensures err { OnErr result (from.new ≡ from.old) }
{
    let Some(text) = text_in(&from.bytes[from.at as usize..], width) else {
        return Ok(None);
    };
    if !is_part(text, width) {
        return Ok(None);
    }
    let bytes = Vec::from_slice(alloc, text).map_err(|_| NoMemory)?;
    from.at += width as u32 + 1;
    Ok(Some(Name { bytes }))
}

/// The text in a field of a width: its length, its bytes, and zeros up to the width. None where the
/// field is short, or isn't a spelling of one.
pub fn text_in(bytes: &[u8], width: u8) -> Option<&[u8]>
    ensures { option_copied result ≡ text_in width bytes.now }
{
    let (len, rest) = bytes.split_first()?;
    if *len > width || rest.len() < width as usize {
        return None;
    }
    let (field, _) = rest.split_at(width as usize);
    let (text, zeros) = field.split_at(*len as usize);
    if are_zeros(zeros) { Some(text) } else { None }
}
