//! Paths of a group.

ghost use Rattle.std.specs.Prelude.{◌≡◌, ◌≤◌, length, IfOk, Some, None, if◌then◌else◌};
ghost use Rattle.asm_group.specs.Names.{is_name, all_parts};
ghost use Rattle.asm_base.specs.Paths.{parts_behind_slash, parts_between_slashes, path_with_group, path_of, slash_at};

use crate::kinds::NoMemory;
use crate::list::List;
use crate::name::Name;
use std::alloc::Global;

/// A path of a group: the group's name, and the parts after it.
#[derive(Debug, Drop)]
pub struct Path {
    pub group: Name,
    pub parts: List<Name>,
}

impl Path {
    /// The path that the bytes are: `+`, a group's name, and parts of 1 to 80 bytes, each after
    /// `/`. None where they aren't one.
    #[tactic(auto, unfolding(crate::specs::Paths::path_of))]
    pub fn read(alloc: Global, bytes: &[u8]) -> Result<Option<Path>, NoMemory>
        ensures { IfOk result (λ read. read ≡ path_of bytes.now) }
    {
        match bytes.split_first() {
            Some((b'+', bytes)) => read_in_group(alloc, bytes),
            _ => Ok(None),
        }
    }

    pub fn copy(&self) -> Result<Path, NoMemory>
        ensures { IfOk result (λ p. p ≡ self.now) }
    {
        let group = self.group.copy()?;
        let parts = copy_names(self.parts.allocator(), self.parts.as_slice())?;
        Ok(Path { group, parts })
    }
}

/// The same, without `+`.
#[tactic(auto, using(crate::proofs::PathLaws::path_is, crate::proofs::PathLaws::no_group_name, crate::proofs::PathLaws::no_parts))]
fn read_in_group(alloc: Global, bytes: &[u8]) -> Result<Option<Path>, NoMemory>
    ensures { IfOk result (λ read. read ≡ path_with_group (parts_between_slashes bytes.now)) }
{
    let n = slash_at(bytes);
    let Some(group) = read_group(alloc, &bytes[..n])? else {
        return Ok(None);
    };
    let Some(parts) = read_parts(alloc, &bytes[n..])? else {
        return Ok(None);
    };
    Ok(Some(Path { group, parts }))
}

#[tactic(auto, using(crate::proofs::PathLaws::no_group))]
fn read_group(alloc: Global, bytes: &[u8]) -> Result<Option<Name>, NoMemory>
    ensures { IfOk result (λ read. read ≡ (if is_name bytes.now then Some bytes.now else None)) }
{
    let Some(group) = Name::read(alloc, bytes, 30)? else {
        return Ok(None);
    };
    if group.is_name() {
        Ok(Some(group))
    } else {
        Ok(None)
    }
}

/// The parts of which each stands behind a slash.
#[tactic(auto, using(crate::proofs::PathLaws::refused, crate::proofs::PathLaws::read_more, crate::proofs::PathLaws::all_read))]
fn read_parts(alloc: Global, bytes: &[u8]) -> Result<Option<List<Name>>, NoMemory>
    ensures { IfOk result (λ read. read ≡ all_parts (parts_behind_slash bytes.now)) }
{
    let mut parts = List::new(alloc);
    let mut left = bytes;
    while let Some((_slash, rest)) = left.split_first() {
        let n = slash_at(rest);
        let Some(part) = Name::read(alloc, &rest[..n], 80)? else {
            return Ok(None);
        };
        parts.push(part)?;
        left = &rest[n..];
    }
    Ok(Some(parts))
}

/// How many bytes stand before the first slash.
fn slash_at(bytes: &[u8]) -> usize
    ensures at { result ≡ slash_at bytes.now }
    ensures within { result ≤ length bytes.now }
{
    let mut n = 0;
    for b in bytes {
        if *b == b'/' {
            return n;
        }
        n += 1;
    }
    n
}

fn copy_names(alloc: Global, names: &[Name]) -> Result<List<Name>, NoMemory>
    ensures { IfOk result (λ copies. copies ≡ names.now) }
{
    let mut copies = List::new(alloc);
    for name in names {
        copies.push(name.copy()?)?;
    }
    Ok(copies)
}
