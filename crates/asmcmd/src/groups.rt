//! Verbs on groups and their disks.

ghost use Rattle.std.specs.Option.{option_map};
ghost use Rattle.asm_grammar.specs.Reads.{Gives, reads};
ghost use Rattle.asm_world.specs.VerbMeaning.{of_reports, of_disks};
ghost use Rattle.asm_world.specs.Verbs.{reports, disks};
ghost use Rattle.asmcmd.specs.Rows.{may_read};
ghost use Rattle.asmcmd.specs.Verbs.{meant_verb};

use crate::verb::Verb;
use crate::words::{maybe_name, name_word};
use asm_grammar::{Place, ReadError, exact, number_word, try_exact};
use std::alloc::Global;

/// A report of a group, where its word is the next.
pub fn report_verb<'a>(
    alloc: Global,
    place: Place<'a>,
) -> Result<(Option<Verb>, Place<'a>), ReadError>
    ensures { Gives (λ v. option_map meant_verb v) result
        (may_read reports of_reports place.entry) }
{
    let (groups, place) = try_exact(place, b"lsdg");
    if groups {
        let (group, place) = maybe_name(alloc, place)?;
        return Ok((Some(Verb::ListGroups { group }), place));
    }
    let (disks, place) = try_exact(place, b"lsdsk");
    if disks {
        let (group, place) = name_word(alloc, place)?;
        return Ok((Some(Verb::ListDisks { group }), place));
    }
    let (templates, place) = try_exact(place, b"lstmpl");
    if templates {
        let (group, place) = name_word(alloc, place)?;
        return Ok((Some(Verb::ListTemplates { group }), place));
    }
    let (attributes, place) = try_exact(place, b"lsattr");
    if attributes {
        let (group, place) = name_word(alloc, place)?;
        return Ok((Some(Verb::ListAttributes { group }), place));
    }
    Ok((None, place))
}

/// A verb on the disks of a group.
pub fn disk_verb<'a>(alloc: Global, place: Place<'a>) -> Result<(Verb, Place<'a>), ReadError>
    ensures { Gives meant_verb result (reads disks of_disks place.entry) }
{
    let (stops, place) = try_exact(place, b"offline");
    if stops {
        let (group, place) = name_word(alloc, place)?;
        let (disk, place) = name_word(alloc, place)?;
        return Ok((Verb::OfflineDisk { group, disk }, place));
    }
    let (serves, place) = try_exact(place, b"online");
    if serves {
        let (group, place) = name_word(alloc, place)?;
        let (disk, place) = name_word(alloc, place)?;
        return Ok((Verb::OnlineDisk { group, disk }, place));
    }
    let place = exact(place, b"rebal")?;
    let (group, place) = name_word(alloc, place)?;
    let (power, place) = number_word(place)?;
    Ok((Verb::SetPower { group, power }, place))
}
