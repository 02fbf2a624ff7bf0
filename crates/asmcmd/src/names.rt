//! Verbs on names: directories, files, aliases and the place.

ghost use Rattle.std.specs.Option.{option_map};
ghost use Rattle.asm_grammar.specs.Reads.{Gives, reads};
ghost use Rattle.asm_group.specs.Names.{Bytes};
ghost use Rattle.asm_world.specs.Command.{CopyFile};
ghost use Rattle.asm_world.specs.VerbMeaning.{of_names};
ghost use Rattle.asm_world.specs.Verbs.{names};
ghost use Rattle.asmcmd.specs.Rows.{may_read, list_rest, list_verb_of, target, target_of, copy_rest, copy_verb_of, find_rest, find_of, alias_rest, alias_of, later_names, later_names_of};
ghost use Rattle.asmcmd.specs.Verbs.{meant_verb};

use crate::verb::Verb;
use crate::words::{maybe_text, present, text_word};
use asm_base::Text;
use asm_grammar::{Place, ReadError, TextKind, try_exact};
use std::alloc::Global;

/// `-l` is no path here.
fn list<'a>(alloc: Global, place: Place<'a>) -> Result<(Verb, Place<'a>), ReadError>
    ensures { Gives meant_verb result (reads list_rest list_verb_of place.entry) }
{
    let (long, place) = try_exact(place, b"-l");
    let (path, place) = maybe_text(alloc, place, TextKind::NotLong)?;
    Ok((Verb::Ls { long, path }, place))
}

/// The target of a copy from a group: in a group or outside.
fn any_target<'a>(alloc: Global, place: Place<'a>) -> Result<(Text, Place<'a>), ReadError>
    ensures { Gives (λ t. t) result (reads target target_of place.entry) }
{
    let (path, place) = maybe_text(alloc, place, TextKind::Path)?;
    match path {
        Some(path) => Ok((path, place)),
        None => text_word(alloc, place, TextKind::Outside),
    }
}

/// The rest of a copy from a group.
fn copy_from<'a>(
    alloc: Global,
    source: Text,
    place: Place<'a>,
) -> Result<(Verb, Place<'a>), ReadError>
    ensures { Gives meant_verb result (reads target (λ v. CopyFile source (target_of v))
        place.entry) }
{
    let (target, place) = any_target(alloc, place)?;
    Ok((Verb::Copy { source, target }, place))
}

/// One of the two paths at most is outside.
fn copy<'a>(alloc: Global, place: Place<'a>) -> Result<(Verb, Place<'a>), ReadError>
    ensures { Gives meant_verb result (reads copy_rest copy_verb_of place.entry) }
{
    let (source, place) = maybe_text(alloc, place, TextKind::Path)?;
    if let Some(source) = source {
        return copy_from(alloc, source, place);
    }
    let (source, place) = text_word(alloc, place, TextKind::Outside)?;
    let (target, place) = text_word(alloc, place, TextKind::Path)?;
    Ok((Verb::Copy { source, target }, place))
}

fn find<'a>(alloc: Global, place: Place<'a>) -> Result<(Verb, Place<'a>), ReadError>
    ensures { Gives meant_verb result (reads find_rest find_of place.entry) }
{
    let (path, place) = text_word(alloc, place, TextKind::Path)?;
    let (pattern, place) = text_word(alloc, place, TextKind::PartPattern)?;
    Ok((Verb::Find { path, pattern }, place))
}

fn make_alias<'a>(alloc: Global, place: Place<'a>) -> Result<(Verb, Place<'a>), ReadError>
    ensures { Gives meant_verb result (reads alias_rest alias_of place.entry) }
{
    let (path, place) = text_word(alloc, place, TextKind::Path)?;
    let (alias, place) = text_word(alloc, place, TextKind::Path)?;
    Ok((Verb::MakeAlias { path, alias }, place))
}

/// cp, du, find, mkalias or rmalias, where that is the next word.
fn later_name_verb<'a>(
    alloc: Global,
    place: Place<'a>,
) -> Result<(Option<Verb>, Place<'a>), ReadError>
    ensures { Gives (λ v. option_map meant_verb v) result
        (may_read later_names later_names_of place.entry) }
{
    let (copies, place) = try_exact(place, b"cp");
    if copies {
        return present(copy(alloc, place));
    }
    let (measures, place) = try_exact(place, b"du");
    if measures {
        let (path, place) = maybe_text(alloc, place, TextKind::Path)?;
        return Ok((Some(Verb::Usage { path }), place));
    }
    let (finds, place) = try_exact(place, b"find");
    if finds {
        return present(find(alloc, place));
    }
    let (adds, place) = try_exact(place, b"mkalias");
    if adds {
        return present(make_alias(alloc, place));
    }
    let (drops, place) = try_exact(place, b"rmalias");
    if drops {
        let (path, place) = text_word(alloc, place, TextKind::Path)?;
        return Ok((Some(Verb::RemoveAlias { path }), place));
    }
    Ok((None, place))
}

/// A verb on names, where its word is the next.
pub fn name_verb<'a>(
    alloc: Global,
    place: Place<'a>,
) -> Result<(Option<Verb>, Place<'a>), ReadError>
    ensures { Gives (λ v. option_map meant_verb v) result (may_read names of_names place.entry) }
{
    let (lists, place) = try_exact(place, b"ls");
    if lists {
        return present(list(alloc, place));
    }
    let (goes, place) = try_exact(place, b"cd");
    if goes {
        let (path, place) = text_word(alloc, place, TextKind::Path)?;
        return Ok((Some(Verb::Cd { path }), place));
    }
    let (tells, place) = try_exact(place, b"pwd");
    if tells {
        return Ok((Some(Verb::Pwd), place));
    }
    let (makes, place) = try_exact(place, b"mkdir");
    if makes {
        let (path, place) = text_word(alloc, place, TextKind::Path)?;
        return Ok((Some(Verb::MakeDir { path }), place));
    }
    let (removes, place) = try_exact(place, b"rm");
    if removes {
        let (path, place) = text_word(alloc, place, TextKind::Path)?;
        return Ok((Some(Verb::Remove { path }), place));
    }
    later_name_verb(alloc, place)
}
