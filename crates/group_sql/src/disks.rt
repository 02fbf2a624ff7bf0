//! The disks that statements name, and those that they give to a group.

ghost use Rattle.std.specs.Prelude.{◌≡◌, ◌∷◌, []};
ghost use Rattle.asm_grammar.specs.Reads.{items_from, items_of, reads};
ghost use Rattle.asm_grammar.specs.Syntax.{Maybe};
ghost use Rattle.asm_world.specs.Grammar as g;
ghost use Rattle.asm_world.specs.Meaning.{behind, new_disk_of, dropped_of, failgroups_of, some_disks_of};
ghost use Rattle.group_sql.specs.Choices.{failgroup_at, failgroups_after, groups_at, in_group_at};
ghost use Rattle.group_sql.specs.Readers.{GivesPart};
ghost use Rattle.group_sql.specs.Rows.{disks_in, dropped_disk, group_and_disks, group_name_and_disks, maybe_name, named_in};
ghost use Rattle.group_sql.specs.Said.{disks_said, kind_and_name};

use crate::options::{failgroup_kind, is_forced, sized};
use crate::statement::{Disks, DroppedDisk, FailgroupKind, NewDisk, NewFailgroup};
use crate::words::{expect, push, read_name, read_text, takes, takes_mark};
use asm_base::{List, Name};
use asm_grammar::{Place, ReadError};
use std::alloc::Global;

/// The names behind commas, put behind those so far.
#[tactic(auto, using(crate::proofs::Items::no_more_names, crate::proofs::Items::one_more_name, crate::proofs::Items::bad_name, crate::proofs::Items::name_falls))]
fn more_names<'a>(
    alloc: Global,
    names: &mut List<Name>,
    place: &mut Place<'a>,
) -> Result<(), ReadError>
    ensures { GivesPart (λ _. names.new) result place.new
        (items_from g.name (λ n. n) 44 names.old place.old.rest.now place.old.left) }
{
    while takes_mark(place, b',') {
        let name = read_name(alloc, place)?;
        push(names, name)?;
    }
    Ok(())
}

/// A name, and others behind commas.
#[tactic(auto, using(crate::proofs::Items::names_from))]
pub fn read_names<'a>(alloc: Global, place: &mut Place<'a>) -> Result<List<Name>, ReadError>
    ensures { GivesPart (λ ns. ns) result place.new
        (reads (g.listed g.name) (λ v. items_of (λ n. n) v) place.old) }
{
    let mut names = List::new(alloc);
    let name = read_name(alloc, place)?;
    push(&mut names, name)?;
    more_names(alloc, &mut names, place)?;
    Ok(names)
}

#[tactic(auto, unfolding(crate::specs::Choices::forced_at))]
fn read_dropped<'a>(alloc: Global, place: &mut Place<'a>) -> Result<DroppedDisk, ReadError>
    ensures { GivesPart (λ d. d) result place.new (reads dropped_disk dropped_of place.old) }
{
    let name = read_name(alloc, place)?;
    let force = is_forced(place);
    Ok(DroppedDisk { name, force })
}

/// The dropped disks behind commas, put behind those so far.
#[tactic(auto, using(crate::proofs::Items::no_more_drops, crate::proofs::Items::one_more_drop, crate::proofs::Items::bad_drop, crate::proofs::Items::drop_falls))]
fn more_drops<'a>(
    alloc: Global,
    disks: &mut List<DroppedDisk>,
    place: &mut Place<'a>,
) -> Result<(), ReadError>
    ensures { GivesPart (λ _. disks.new) result place.new
        (items_from dropped_disk dropped_of 44 disks.old place.old.rest.now place.old.left) }
{
    while takes_mark(place, b',') {
        let disk = read_dropped(alloc, place)?;
        push(disks, disk)?;
    }
    Ok(())
}

/// A disk that is dropped, and others behind commas.
#[tactic(auto, using(crate::proofs::Items::drops_from))]
pub fn read_drops<'a>(alloc: Global, place: &mut Place<'a>) -> Result<List<DroppedDisk>, ReadError>
    ensures { GivesPart (λ ds. ds) result place.new
        (reads (g.listed dropped_disk) (λ v. items_of dropped_of v) place.old) }
{
    let mut disks = List::new(alloc);
    let disk = read_dropped(alloc, place)?;
    push(&mut disks, disk)?;
    more_drops(alloc, &mut disks, place)?;
    Ok(disks)
}

/// NAME and a name, where it is said.
fn named<'a>(alloc: Global, place: &mut Place<'a>) -> Result<Option<Name>, ReadError>
    ensures { GivesPart (λ n. n) result place.new (reads maybe_name behind place.old) }
{
    if !takes(place, b"NAME") {
        return Ok(None);
    }
    let name = read_name(alloc, place)?;
    Ok(Some(name))
}

/// A disk's path and its options.
#[tactic(auto, unfolding(crate::specs::Choices::forced_at, crate::specs::Choices::size_at))]
fn read_disk<'a>(alloc: Global, place: &mut Place<'a>) -> Result<NewDisk, ReadError>
    ensures { GivesPart (λ d. d) result place.new (reads g.disk new_disk_of place.old) }
{
    let path = read_text(alloc, place)?;
    let name = named(alloc, place)?;
    let size = sized(place)?;
    let force = is_forced(place);
    Ok(NewDisk {
        path,
        name,
        size,
        force,
    })
}

/// The disks behind commas, put behind those so far.
#[tactic(auto, using(crate::proofs::Items::no_more_disks, crate::proofs::Items::one_more_disk, crate::proofs::Items::bad_disk, crate::proofs::Items::disk_falls))]
fn more_disks<'a>(
    alloc: Global,
    disks: &mut List<NewDisk>,
    place: &mut Place<'a>,
) -> Result<(), ReadError>
    ensures { GivesPart (λ _. disks.new) result place.new
        (items_from g.disk new_disk_of 44 disks.old place.old.rest.now place.old.left) }
{
    while takes_mark(place, b',') {
        let disk = read_disk(alloc, place)?;
        push(disks, disk)?;
    }
    Ok(())
}

/// A disk, and others behind commas.
#[tactic(auto, using(crate::proofs::Items::disks_from))]
fn read_disks<'a>(alloc: Global, place: &mut Place<'a>) -> Result<List<NewDisk>, ReadError>
    ensures { GivesPart (λ ds. ds) result place.new
        (reads (g.listed g.disk) (λ v. items_of new_disk_of v) place.old) }
{
    let mut disks = List::new(alloc);
    let disk = read_disk(alloc, place)?;
    push(&mut disks, disk)?;
    more_disks(alloc, &mut disks, place)?;
    Ok(disks)
}

/// The disks of a failure group, behind its name.
fn disks_of_group<'a>(
    alloc: Global,
    quorum: bool,
    place: &mut Place<'a>,
) -> Result<NewFailgroup, ReadError>
    ensures { GivesPart (λ f. f) result place.new
        (reads group_name_and_disks (named_in quorum) place.old) }
{
    let name = read_name(alloc, place)?;
    expect(place, b"DISK")?;
    let disks = read_disks(alloc, place)?;
    Ok(NewFailgroup {
        quorum,
        name: Some(name),
        disks,
    })
}

/// The disks of a failure group, behind its kind.
fn disks_behind_kind<'a>(
    alloc: Global,
    quorum: bool,
    place: &mut Place<'a>,
) -> Result<NewFailgroup, ReadError>
    ensures { GivesPart (λ f. f) result place.new
        (reads group_and_disks (disks_in quorum) place.old) }
{
    if takes(place, b"FAILGROUP") {
        return disks_of_group(alloc, quorum, place);
    }
    expect(place, b"DISK")?;
    let disks = read_disks(alloc, place)?;
    Ok(NewFailgroup {
        quorum,
        name: None,
        disks,
    })
}

/// A failure group with its disks, where one begins.
#[tactic(auto, unfolding(crate::specs::Choices::failgroup_at))]
pub fn try_failgroup<'a>(
    alloc: Global,
    place: &mut Place<'a>,
) -> Result<Option<NewFailgroup>, ReadError>
    ensures { GivesPart (λ f. f) result place.new (failgroup_at place.old.rest.now place.old.left) }
{
    if takes(place, b"QUORUM") {
        let group = disks_behind_kind(alloc, true, place)?;
        return Ok(Some(group));
    }
    if takes(place, b"REGULAR") {
        let group = disks_behind_kind(alloc, false, place)?;
        return Ok(Some(group));
    }
    if takes(place, b"FAILGROUP") {
        let group = disks_of_group(alloc, false, place)?;
        return Ok(Some(group));
    }
    if !takes(place, b"DISK") {
        return Ok(None);
    }
    let disks = read_disks(alloc, place)?;
    Ok(Some(NewFailgroup {
        quorum: false,
        name: None,
        disks,
    }))
}

/// The failure groups that follow, put behind those so far.
#[tactic(auto, using(crate::proofs::Groups::no_more, crate::proofs::Groups::one_more, crate::proofs::Groups::bad, crate::proofs::Groups::falls))]
fn more_failgroups<'a>(
    alloc: Global,
    groups: &mut List<NewFailgroup>,
    place: &mut Place<'a>,
) -> Result<(), ReadError>
    ensures { GivesPart (λ _. groups.new) result place.new
        (failgroups_after groups.old place.old.rest.now place.old.left) }
{
    while let Some(group) = try_failgroup(alloc, place)? {
        push(groups, group)?;
    }
    Ok(())
}

/// The first failure group and those that follow it.
pub fn failgroups_behind<'a>(
    alloc: Global,
    first: NewFailgroup,
    place: &mut Place<'a>,
) -> Result<List<NewFailgroup>, ReadError>
    ensures { GivesPart (λ fs. fs) result place.new
        (failgroups_after (first ∷ []) place.old.rest.now place.old.left) }
{
    let mut groups = List::new(alloc);
    push(&mut groups, first)?;
    more_failgroups(alloc, &mut groups, place)?;
    Ok(groups)
}

/// A failure group, and others.
#[tactic(auto, using(crate::proofs::Groups::groups_are, crate::proofs::Groups::no_group, crate::proofs::Groups::bad_group))]
pub fn read_failgroups<'a>(
    alloc: Global,
    place: &mut Place<'a>,
) -> Result<List<NewFailgroup>, ReadError>
    ensures { GivesPart (λ fs. fs) result place.new (groups_at place.old.rest.now place.old.left) }
{
    let Some(first) = try_failgroup(alloc, place)? else {
        return Err(ReadError::Syntax { left: place.left });
    };
    failgroups_behind(alloc, first, place)
}

/// IN and a failure group: its kind, where one is said, and its name.
#[tactic(auto, unfolding(crate::specs::Choices::in_group_at))]
pub fn in_failgroup<'a>(
    alloc: Global,
    place: &mut Place<'a>,
) -> Result<(Option<FailgroupKind>, Name), ReadError>
    ensures { GivesPart kind_and_name result place.new
        (in_group_at place.old.rest.now place.old.left) }
{
    expect(place, b"IN")?;
    let kind = failgroup_kind(place);
    expect(place, b"FAILGROUP")?;
    let name = read_name(alloc, place)?;
    Ok((kind, name))
}

/// Disks by their names, or those of a failure group.
#[tactic(auto, unfolding(crate::specs::Choices::in_group_at))]
pub fn read_some_disks<'a>(alloc: Global, place: &mut Place<'a>) -> Result<Disks, ReadError>
    ensures { GivesPart disks_said result place.new (reads g.some_disks some_disks_of place.old) }
{
    if takes(place, b"DISK") {
        let names = read_names(alloc, place)?;
        return Ok(Disks::Named(names));
    }
    expect(place, b"DISKS")?;
    let (kind, name) = in_failgroup(alloc, place)?;
    Ok(Disks::InFailgroup { kind, name })
}
