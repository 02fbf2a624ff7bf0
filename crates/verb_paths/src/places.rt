//! Where the path of a verb leads from the session's place.

ghost use Rattle.std.specs.Prelude.{◌≡◌, ◌-◌, ◌∷◌, [], IfOk, Some, length, take};
ghost use Rattle.std.specs.Option.{option_map, option_copied};
ghost use Rattle.asm_group.specs.Names.{is_part, all_parts};
ghost use Rattle.asm_world.specs.Paths.{between_slashes, clause_path, is_host_path, is_pattern, parts_of, resolved, resolved_by, resolved_or_here, resolved_pattern, target_from, walk, within_group};
ghost use Rattle.verb_paths.specs.Slashes.{parts_left};

use crate::pattern::is_pattern;
use crate::slashes::split_part;
use asm_base::{List, Name, NoMemory, Path, Text};
use std::alloc::Global;

fn copies(alloc: Global, names: &[Name]) -> Result<List<Name>, NoMemory>
    ensures { IfOk result (λ copies. copies ≡ names.now) }
{
    let mut copies = List::new(alloc);
    for name in names {
        copies.push(name.copy()?)?;
    }
    Ok(copies)
}

fn texts(alloc: Global, names: &[Name]) -> Result<List<Text>, NoMemory>
    ensures { IfOk result (λ texts. texts ≡ names.now) }
{
    let mut texts = List::new(alloc);
    for name in names {
        texts.push(List::from_slice(alloc, name.as_bytes())?)?;
    }
    Ok(texts)
}

/// All parts but the last. At the top it stays there.
fn up<T: Drop>(parts: List<T>) -> List<T>
    ensures { result ≡ take (length parts - 1) parts }
{
    let mut parts = parts.into_vec();
    parts.pop();
    List::from_vec(parts)
}

/// Where one part leads.
#[tactic(auto, using(crate::proofs::Walking::up_is))]
fn step(alloc: Global, mut at: List<Name>, part: &[u8]) -> Result<Option<List<Name>>, NoMemory>
    ensures { IfOk result (λ led. led ≡ walk (is_part 80) at (part.now ∷ [])) }
{
    if part == b"..".as_slice() {
        return Ok(Some(up(at)));
    }
    match Name::read(alloc, part, 80)? {
        Some(part) => {
            at.push(part)?;
            Ok(Some(at))
        }
        None => Ok(None),
    }
}

/// The same, where the part may be a pattern.
#[tactic(auto, using(crate::proofs::Walking::up_is))]
fn step_by_pattern(
    alloc: Global,
    mut at: List<Text>,
    part: &[u8],
) -> Result<Option<List<Text>>, NoMemory>
    ensures { IfOk result (λ led. led ≡ walk is_pattern at (part.now ∷ [])) }
{
    if part == b"..".as_slice() {
        return Ok(Some(up(at)));
    }
    if !is_pattern(part) {
        return Ok(None);
    }
    at.push(List::from_slice(alloc, part)?)?;
    Ok(Some(at))
}

/// Where the parts of a path lead.
fn walk(alloc: Global, mut at: List<Name>, path: &[u8]) -> Result<Option<List<Name>>, NoMemory>
    ensures { IfOk result (λ led. led ≡ walk (is_part 80) at (between_slashes path.now)) }
{
    let mut left = Some(path);
    while let Some(bytes) = left {
        let (part, behind) = split_part(bytes);
        match step(alloc, at, part)? {
            Some(next) => at = next,
            None => return Ok(None),
        }
        left = behind;
    }
    Ok(Some(at))
}

/// The same, where the parts may be patterns.
fn walk_by_pattern(
    alloc: Global,
    mut at: List<Text>,
    path: &[u8],
) -> Result<Option<List<Text>>, NoMemory>
    ensures { IfOk result (λ led. led ≡ walk is_pattern at (between_slashes path.now)) }
{
    let mut left = Some(path);
    while let Some(bytes) = left {
        let (part, behind) = split_part(bytes);
        match step_by_pattern(alloc, at, part)? {
            Some(next) => at = next,
            None => return Ok(None),
        }
        left = behind;
    }
    Ok(Some(at))
}

/// Where the path of `cd` or `find` leads: a group's name and the parts behind it, or no name at
/// `+`. A path with `+` begins at the top, any other at the place. The part `..` goes up. None
/// where another part isn't one of a path.
pub fn resolve(alloc: Global, place: &[Name], path: &[u8]) -> Result<Option<List<Name>>, NoMemory>
    ensures { IfOk result (λ led. led ≡ resolved place.now path.now) }
{
    match path {
        [] => Ok(Some(copies(alloc, place)?)),
        [b'+'] => Ok(Some(List::new(alloc))),
        [b'+', path @ ..] => walk(alloc, List::new(alloc), path),
        _ => walk(alloc, copies(alloc, place)?, path),
    }
}

/// The path of `du`: where none is said it is the place.
pub fn resolve_or_here(
    alloc: Global,
    place: &[Name],
    path: Option<&[u8]>,
) -> Result<Option<List<Name>>, NoMemory>
    ensures { IfOk result (λ led. led ≡ resolved_or_here place.now (option_copied path.entry)) }
{
    match path {
        None => Ok(Some(copies(alloc, place)?)),
        Some(path) => resolve(alloc, place, path),
    }
}

fn resolve_one_pattern(
    alloc: Global,
    place: &[Name],
    path: &[u8],
) -> Result<Option<List<Text>>, NoMemory>
    ensures { IfOk result (λ led. led ≡ resolved_by is_pattern place.now path.now) }
{
    match path {
        [] => Ok(Some(texts(alloc, place)?)),
        [b'+'] => Ok(Some(List::new(alloc))),
        [b'+', path @ ..] => walk_by_pattern(alloc, List::new(alloc), path),
        _ => walk_by_pattern(alloc, texts(alloc, place)?, path),
    }
}

/// The path of `ls`, of which each part may hold `*`: where none is said it is the place. Only the
/// last part is looked for as a pattern, since no name has a `*`.
pub fn resolve_pattern(
    alloc: Global,
    place: &[Name],
    path: Option<&[u8]>,
) -> Result<Option<List<Text>>, NoMemory>
    ensures { IfOk result (λ led. led ≡ resolved_pattern place.now (option_copied path.entry)) }
{
    match path {
        None => Ok(Some(texts(alloc, place)?)),
        Some(path) => resolve_one_pattern(alloc, place, path),
    }
}

/// The group's name that a path's parts from the top begin with, and the parts behind it. None
/// where there are no parts: the path comes to `+`.
pub fn parts_in_group(parts: List<Name>) -> Option<Path>
    ensures { option_map (λ p. (p.group, p.parts)) result ≡ parts_of (Some parts) }
{
    let mut parts = parts.into_vec();
    if parts.is_empty() {
        return None;
    }
    let group = parts.remove(0);
    Some(Path {
        group,
        parts: List::from_vec(parts),
    })
}

/// The group and the path in it to which the path of a verb leads, but of `ls`, `cd`, `du` and
/// `find`. None where a part isn't one, or the path comes to `+`: it names no group then.
pub fn target(alloc: Global, place: &[Name], path: &[u8]) -> Result<Option<Path>, NoMemory>
    ensures { IfOk result (λ led. option_map (λ p. (p.group, p.parts)) led
        ≡ target_from place.now path.now) }
{
    match resolve(alloc, place, path)? {
        Some(parts) => Ok(parts_in_group(parts)),
        None => Ok(None),
    }
}

/// The parts as they stand, where each is one of a path.
fn all_parts(alloc: Global, path: &[u8]) -> Result<Option<List<Name>>, NoMemory>
    ensures { IfOk result (λ read. read ≡ all_parts (between_slashes path.now)) }
{
    let mut parts = List::new(alloc);
    let mut left = Some(path);
    while let Some(bytes) = left {
        let (part, behind) = split_part(bytes);
        match Name::read(alloc, part, 80)? {
            Some(part) => parts.push(part)?,
            None => return Ok(None),
        }
        left = behind;
    }
    Ok(Some(parts))
}

/// The path in a group, where the group has this name.
fn within_group(name: &Name, parts: List<Name>) -> Option<List<Name>>
    ensures { result ≡ within_group name.now (parts_of (Some parts)) }
{
    let path = parts_in_group(parts)?;
    if path.group.is_same(name) {
        Some(path.parts)
    } else {
        None
    }
}

/// The path of a clause on directories, aliases or files, in the group that the statement names.
/// `..` is a part like others here. None where it isn't a path of that group.
pub fn clause_path(alloc: Global, name: &Name, path: &[u8]) -> Result<Option<List<Name>>, NoMemory>
    ensures { IfOk result (λ read. read ≡ clause_path name.now path.now) }
{
    let [b'+', path @ ..] = path else {
        return Ok(None);
    };
    match all_parts(alloc, path)? {
        Some(parts) => Ok(within_group(name, parts)),
        None => Ok(None),
    }
}

/// Whether a path of `cp` leads outside: it has `/` or `./` at its front.
pub fn is_host_path(path: &[u8]) -> bool
    ensures { result ≡ is_host_path path.now }
{
    matches!(path, [b'/', ..] | [b'.', b'/', ..])
}
