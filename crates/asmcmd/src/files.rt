//! Verbs on the bytes of files.

ghost use Rattle.std.specs.Option.{option_map};
ghost use Rattle.asm_grammar.specs.Reads.{Gives, reads};
ghost use Rattle.asm_world.specs.VerbMeaning.{of_files};
ghost use Rattle.asm_world.specs.Verbs.{files};
ghost use Rattle.asmcmd.specs.Rows.{may_read, create_rest, create_of, write_rest, write_of, fill_rest, fill_of, read_rest, read_of, resize_verb_rest, resize_verb_of};
ghost use Rattle.asmcmd.specs.Verbs.{meant_verb};

use crate::verb::Verb;
use crate::words::{bytes_word, maybe_name, present, text_word};
use asm_grammar::{Place, ReadError, TextKind, byte_word, size_word, try_exact};
use std::alloc::Global;

fn create<'a>(alloc: Global, place: Place<'a>) -> Result<(Verb, Place<'a>), ReadError>
    ensures { Gives meant_verb result (reads create_rest create_of place.entry) }
{
    let (path, place) = text_word(alloc, place, TextKind::Path)?;
    let (size, place) = size_word(place)?;
    let (template, place) = maybe_name(alloc, place)?;
    Ok((
        Verb::DbCreate {
            path,
            size,
            template,
        },
        place,
    ))
}

fn write<'a>(alloc: Global, place: Place<'a>) -> Result<(Verb, Place<'a>), ReadError>
    ensures { Gives meant_verb result (reads write_rest write_of place.entry) }
{
    let (path, place) = text_word(alloc, place, TextKind::Path)?;
    let (at, place) = size_word(place)?;
    let (bytes, place) = bytes_word(alloc, place)?;
    Ok((Verb::DbWrite { path, at, bytes }, place))
}

fn fill<'a>(alloc: Global, place: Place<'a>) -> Result<(Verb, Place<'a>), ReadError>
    ensures { Gives meant_verb result (reads fill_rest fill_of place.entry) }
{
    let (path, place) = text_word(alloc, place, TextKind::Path)?;
    let (at, place) = size_word(place)?;
    let (size, place) = size_word(place)?;
    let (byte, place) = byte_word(place)?;
    Ok((
        Verb::DbFill {
            path,
            at,
            size,
            byte,
        },
        place,
    ))
}

fn read<'a>(alloc: Global, place: Place<'a>) -> Result<(Verb, Place<'a>), ReadError>
    ensures { Gives meant_verb result (reads read_rest read_of place.entry) }
{
    let (path, place) = text_word(alloc, place, TextKind::Path)?;
    let (at, place) = size_word(place)?;
    let (size, place) = size_word(place)?;
    Ok((Verb::DbRead { path, at, size }, place))
}

fn resize<'a>(alloc: Global, place: Place<'a>) -> Result<(Verb, Place<'a>), ReadError>
    ensures { Gives meant_verb result (reads resize_verb_rest resize_verb_of place.entry) }
{
    let (path, place) = text_word(alloc, place, TextKind::Path)?;
    let (size, place) = size_word(place)?;
    Ok((Verb::DbResize { path, size }, place))
}

/// A verb on the bytes of a file, where its word is the next.
pub fn file_verb<'a>(
    alloc: Global,
    place: Place<'a>,
) -> Result<(Option<Verb>, Place<'a>), ReadError>
    ensures { Gives (λ v. option_map meant_verb v) result (may_read files of_files place.entry) }
{
    let (creates, place) = try_exact(place, b"dbcreate");
    if creates {
        return present(create(alloc, place));
    }
    let (writes, place) = try_exact(place, b"dbwrite");
    if writes {
        return present(write(alloc, place));
    }
    let (fills, place) = try_exact(place, b"dbfill");
    if fills {
        return present(fill(alloc, place));
    }
    let (reads, place) = try_exact(place, b"dbread");
    if reads {
        return present(read(alloc, place));
    }
    let (resizes, place) = try_exact(place, b"dbresize");
    if resizes {
        return present(resize(alloc, place));
    }
    Ok((None, place))
}
