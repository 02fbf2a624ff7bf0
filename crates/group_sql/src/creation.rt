//! CREATE, and DROP DISKGROUP.

ghost use Rattle.asm_grammar.specs.Reads.{items_from, items_of, reads};
ghost use Rattle.asm_world.specs.Grammar as g;
ghost use Rattle.asm_world.specs.Meaning.{attribute_of, attributes_of};
ghost use Rattle.group_sql.specs.Choices.{attributes_at, created_at, drop_group_at, groups_and_attributes_at, kind_at, new_disk_at, new_group_at};
ghost use Rattle.group_sql.specs.Readers.{FindsPart, GivesPart};
ghost use Rattle.group_sql.specs.Rows.{contents_of, maybe_contents};
ghost use Rattle.group_sql.specs.Said.{statement_said};

use crate::disks::read_failgroups;
use crate::statement::{Attribute, NewFailgroup, Statement};
use crate::words::{expect, expect_mark, push, read_name, read_size, read_text, takes, takes_mark};
use asm_base::{GroupKind, List};
use asm_grammar::{Place, ReadError};
use std::alloc::Global;

/// An attribute's name and its value.
pub fn read_attribute<'a>(alloc: Global, place: &mut Place<'a>) -> Result<Attribute, ReadError>
    ensures { GivesPart (λ a. a) result place.new (reads g.attribute attribute_of place.old) }
{
    let name = read_text(alloc, place)?;
    expect_mark(place, b'=')?;
    let value = read_text(alloc, place)?;
    Ok(Attribute { name, value })
}

/// The attributes behind commas, put behind those so far.
#[tactic(auto, using(crate::proofs::Items::no_more_attributes, crate::proofs::Items::one_more_attribute, crate::proofs::Items::bad_attribute, crate::proofs::Items::attribute_falls))]
fn more_attributes<'a>(
    alloc: Global,
    attributes: &mut List<Attribute>,
    place: &mut Place<'a>,
) -> Result<(), ReadError>
    ensures { GivesPart (λ _. attributes.new) result place.new
        (items_from g.attribute attribute_of 44 attributes.old place.old.rest.now place.old.left) }
{
    while takes_mark(place, b',') {
        let attribute = read_attribute(alloc, place)?;
        push(attributes, attribute)?;
    }
    Ok(())
}

/// An attribute, and others behind commas.
#[tactic(auto, using(crate::proofs::Items::attributes_from))]
fn listed_attributes<'a>(alloc: Global, place: &mut Place<'a>) -> Result<List<Attribute>, ReadError>
    ensures { GivesPart (λ l. l) result place.new
        (reads (g.listed g.attribute) (λ v. items_of attribute_of v) place.old) }
{
    let mut attributes = List::new(alloc);
    let attribute = read_attribute(alloc, place)?;
    push(&mut attributes, attribute)?;
    more_attributes(alloc, &mut attributes, place)?;
    Ok(attributes)
}

/// ATTRIBUTE and a list of attributes, where it is said.
#[tactic(auto, unfolding(crate::specs::Choices::attributes_at))]
fn read_attributes<'a>(alloc: Global, place: &mut Place<'a>) -> Result<List<Attribute>, ReadError>
    ensures { GivesPart (λ l. l) result place.new
        (attributes_at place.old.rest.now place.old.left) }
{
    if !takes(place, b"ATTRIBUTE") {
        return Ok(List::new(alloc));
    }
    listed_attributes(alloc, place)
}

/// The kind of a group and REDUNDANCY, where they are said.
#[tactic(auto, unfolding(crate::specs::Choices::kind_at))]
fn group_kind<'a>(place: &mut Place<'a>) -> Result<Option<GroupKind>, ReadError>
    ensures { GivesPart (λ k. k) result place.new (kind_at place.old.rest.now place.old.left) }
{
    let kind = if takes(place, b"EXTERNAL") {
        GroupKind::External
    } else if takes(place, b"NORMAL") {
        GroupKind::Normal
    } else if takes(place, b"HIGH") {
        GroupKind::High
    } else {
        return Ok(None);
    };
    expect(place, b"REDUNDANCY")?;
    Ok(Some(kind))
}

/// Failure groups, and the attributes behind them.
#[tactic(auto, unfolding(crate::specs::Choices::groups_and_attributes_at))]
fn groups_and_attributes<'a>(
    alloc: Global,
    place: &mut Place<'a>,
) -> Result<(List<NewFailgroup>, List<Attribute>), ReadError>
    ensures { GivesPart (λ p. p) result place.new
        (groups_and_attributes_at place.old.rest.now place.old.left) }
{
    let groups = read_failgroups(alloc, place)?;
    let attributes = read_attributes(alloc, place)?;
    Ok((groups, attributes))
}

/// What stands behind CREATE DISKGROUP.
#[tactic(auto, unfolding(crate::specs::Choices::new_group_at))]
fn create_group<'a>(alloc: Global, place: &mut Place<'a>) -> Result<Statement, ReadError>
    ensures { GivesPart statement_said result place.new
        (new_group_at place.old.rest.now place.old.left) }
{
    let name = read_name(alloc, place)?;
    let kind = group_kind(place)?;
    let (groups, attributes) = groups_and_attributes(alloc, place)?;
    Ok(Statement::CreateGroup {
        name,
        kind,
        groups,
        attributes,
    })
}

/// What stands behind CREATE DISK.
#[tactic(auto, unfolding(crate::specs::Choices::new_disk_at))]
fn create_disk<'a>(alloc: Global, place: &mut Place<'a>) -> Result<Statement, ReadError>
    ensures { GivesPart statement_said result place.new
        (new_disk_at place.old.rest.now place.old.left) }
{
    let path = read_text(alloc, place)?;
    expect(place, b"SIZE")?;
    let size = read_size(place)?;
    Ok(Statement::CreateDisk { path, size })
}

/// What stands behind CREATE.
#[tactic(auto, unfolding(crate::specs::Choices::created_at))]
pub fn created<'a>(alloc: Global, place: &mut Place<'a>) -> Result<Statement, ReadError>
    ensures { GivesPart statement_said result place.new
        (created_at place.old.rest.now place.old.left) }
{
    if takes(place, b"DISK") {
        return create_disk(alloc, place);
    }
    expect(place, b"DISKGROUP")?;
    create_group(alloc, place)
}

/// Whether INCLUDING CONTENTS is said, where it or EXCLUDING CONTENTS may stand.
fn with_contents<'a>(place: &mut Place<'a>) -> Result<bool, ReadError>
    ensures { GivesPart (λ c. c) result place.new (reads maybe_contents contents_of place.old) }
{
    let contents = if takes(place, b"INCLUDING") {
        true
    } else if takes(place, b"EXCLUDING") {
        false
    } else {
        return Ok(false);
    };
    expect(place, b"CONTENTS")?;
    Ok(contents)
}

/// What stands behind DROP.
#[tactic(auto, unfolding(crate::specs::Choices::drop_group_at))]
pub fn drop_group<'a>(alloc: Global, place: &mut Place<'a>) -> Result<Statement, ReadError>
    ensures { GivesPart statement_said result place.new
        (drop_group_at place.old.rest.now place.old.left) }
{
    expect(place, b"DISKGROUP")?;
    let name = read_name(alloc, place)?;
    let contents = with_contents(place)?;
    Ok(Statement::DropGroup { name, contents })
}
