//! Whole statements, written.

ghost use Rattle.std.specs.Prelude.{◌≡◌, ◌∷◌, List as Items, ℕ, IfOk};
ghost use Rattle.asm_world.specs.Meaning.{Says};
ghost use Rattle.asm_world.specs.Grammar as g;
ghost use Rattle.asm_world.specs.Statement as s;
ghost use Rattle.asm_world.specs.Writing.{attribute_value, attributes_value, statement_text};
ghost use Rattle.written_sql.specs.Lines as lines;
ghost use Rattle.group_sql.specs.Rows.{groups_and_attributes, maybe_attributes, maybe_redundancy};
ghost use Rattle.group_sql.specs.Said.{clause_said, statement_said};

use crate::line::Line;
use crate::written_clauses::{write_attribute, write_clause};
use crate::written_disks::write_failgroups;
use asm_base::{GroupKind, Name, NoMemory, Text};
use group_sql::{Attribute, Clause, NewFailgroup, Statement};
use std::alloc::Global;

/// A group's kind and REDUNDANCY, where one is said.
fn write_group_kind(line: Line, kind: Option<GroupKind>) -> Result<Line, NoMemory>
    ensures { IfOk result (λ longer. longer
        ≡ lines.with_value maybe_redundancy (lines.kind_words kind) line) }
{
    let word = match kind {
        Some(GroupKind::External) => b"EXTERNAL".as_slice(),
        Some(GroupKind::Normal) => b"NORMAL".as_slice(),
        Some(GroupKind::High) => b"HIGH".as_slice(),
        None => return Ok(line),
    };
    line.key(word)?.key(b"REDUNDANCY")
}

/// Attributes behind commas.
fn write_more_attributes(mut line: Line, attributes: &[Attribute]) -> Result<Line, NoMemory>
    ensures { IfOk result (λ longer. longer
        ≡ lines.put_more g.attribute attribute_value attributes.now line) }
{
    for attribute in attributes {
        line = write_attribute(line.mark(b',')?, attribute)?;
    }
    Ok(line)
}

/// ATTRIBUTE, an attribute, and others behind commas.
#[tactic(auto, using(crate::proofs::Wholes::attributes_put))]
fn write_listed_attributes(
    line: Line,
    first: &Attribute,
    others: &[Attribute],
) -> Result<Line, NoMemory>
    ensures { IfOk result (λ longer. longer
        ≡ lines.with_value maybe_attributes (attributes_value (first.now ∷ others.now)) line) }
{
    let line = write_attribute(line.key(b"ATTRIBUTE")?, first)?;
    write_more_attributes(line, others)
}

/// ATTRIBUTE and attributes, where there is one.
fn write_attributes(line: Line, attributes: &[Attribute]) -> Result<Line, NoMemory>
    ensures { IfOk result (λ longer. longer
        ≡ lines.with_value maybe_attributes (attributes_value attributes.now) line) }
{
    match attributes {
        [] => Ok(line),
        [first, others @ ..] => write_listed_attributes(line, first, others),
    }
}

/// CREATE DISK.
#[tactic(auto, unfolding(crate::specs::Lines::statement_line))]
fn create_disk(line: Line, path: &Text, size: u64) -> Result<Option<Line>, NoMemory>
    ensures { IfOk result (λ longer. longer
        ≡ lines.statement_line (s.CreateDisk path.now size) line) }
{
    let line = line.key(b"CREATE")?.key(b"DISK")?.quoted(path)?;
    let line = line.key(b"SIZE")?.size(size)?;
    Ok(Some(line))
}

/// What stands behind the name in CREATE DISKGROUP. None where there is no failure group, or one
/// has no disk.
#[tactic(auto, using(crate::proofs::Wholes::group_rest_put))]
fn write_group_rest(
    line: Line,
    groups: &[NewFailgroup],
    attributes: &[Attribute],
) -> Result<Option<Line>, NoMemory>
    ensures { IfOk result (λ longer. longer
        ≡ lines.put_maybe groups_and_attributes (lines.group_rest_value groups.now attributes.now)
        line) }
{
    let Some(line) = write_failgroups(line, groups)? else {
        return Ok(None);
    };
    Ok(Some(write_attributes(line, attributes)?))
}

/// CREATE DISKGROUP. None where there is no failure group, or one has no disk.
#[tactic(auto, using(crate::proofs::Wholes::created_group))]
fn create_group(
    line: Line,
    name: &Name,
    kind: Option<GroupKind>,
    groups: &[NewFailgroup],
    attributes: &[Attribute],
) -> Result<Option<Line>, NoMemory>
    ensures { IfOk result (λ longer. longer
        ≡ lines.statement_line (s.CreateGroup name.now kind groups.now attributes.now) line) }
{
    let line = line.key(b"CREATE")?.key(b"DISKGROUP")?.name(name)?;
    write_group_rest(write_group_kind(line, kind)?, groups, attributes)
}

/// DROP DISKGROUP.
#[tactic(auto, unfolding(crate::specs::Lines::statement_line))]
fn drop_group(line: Line, name: &Name, contents: bool) -> Result<Option<Line>, NoMemory>
    ensures { IfOk result (λ longer. longer
        ≡ lines.statement_line (s.DropGroup name.now contents) line) }
{
    let line = line.key(b"DROP")?.key(b"DISKGROUP")?.name(name)?;
    if !contents {
        return Ok(Some(line));
    }
    Ok(Some(line.key(b"INCLUDING")?.key(b"CONTENTS")?))
}

/// ALTER DISKGROUP. None where the clause has no text.
#[tactic(auto, using(crate::proofs::Wholes::altered))]
fn alter_group(line: Line, group: &Name, clause: &Clause) -> Result<Option<Line>, NoMemory>
    ensures { IfOk result (λ longer. longer
        ≡ lines.statement_line (s.Alter group.now (clause_said clause.now)) line) }
{
    let line = line.key(b"ALTER")?.key(b"DISKGROUP")?.name(group)?;
    write_clause(line, clause)
}

/// The words of a statement. None where a list that has a member in the language has none, or a
/// template has no word.
fn write_words(line: Line, statement: &Statement) -> Result<Option<Line>, NoMemory>
    ensures { IfOk result (λ longer. longer
        ≡ lines.statement_line (statement_said statement.now) line) }
{
    match statement {
        Statement::CreateDisk { path, size } => create_disk(line, path, *size),
        Statement::CreateGroup {
            name,
            kind,
            groups,
            attributes,
        } => create_group(line, name, *kind, groups.as_slice(), attributes.as_slice()),
        Statement::DropGroup { name, contents } => drop_group(line, name, *contents),
        Statement::Alter { group, clause } => alter_group(line, group, clause),
    }
}

/// The canonical text of a statement: keywords in upper case, one space between words, `, ` between
/// the members of a list, sizes in bytes, the time of DROP AFTER in minutes, a redundancy before a
/// stripe, MODIFY for a template that is altered, and no option that changes nothing. Some text
/// says the statement where each list of disks, failure groups or names has a member, a template
/// has a word, names are names of the language, paths and texts have no single quote and no byte
/// below 32, and the time is below 2^64 seconds; then this one does, so that reading it gives the
/// same statement. The text is empty where a list has no member or a template no word.
#[tactic(auto, using(crate::proofs::Texts::no_text, crate::proofs::Texts::whole_text, crate::proofs::Texts::text_says))]
pub fn write_statement(alloc: Global, statement: &Statement) -> Result<Vec<u8>, NoMemory>
    ensures written { IfOk result (λ text. text.items
        ≡ statement_text (statement_said statement.now)) }
    ensures said { IfOk result (λ text. (other : Items ℕ)
        → Says other (statement_said statement.now)
        → Says text.items (statement_said statement.now)) }
{
    let Some(line) = write_words(Line::new(alloc), statement)? else {
        return Ok(Vec::new(alloc));
    };
    let line = line.mark(b';')?;
    Ok(line.into_bytes())
}
