//! Whole statements.

ghost use Rattle.std.specs.Prelude.{◌≡◌, IfOk, IfErr};
ghost use Rattle.asm_world.specs.Meaning.{Says};
ghost use Rattle.asm_world.specs.Statement as s;
ghost use Rattle.group_sql.specs.Answers.{IsStatementRead, IsTextRefused};
ghost use Rattle.group_sql.specs.Choices.{ended_at, statement_at};
ghost use Rattle.group_sql.specs.Readers.{GivesPart};
ghost use Rattle.group_sql.specs.Said.{statement_said};

use crate::clauses::read_clause;
use crate::creation::{created, drop_group};
use crate::statement::Statement;
use crate::words::{expect, expect_end, read_name, takes};
use asm_grammar::Place;
use std::alloc::Global;

/// Why a text was not read.
#[derive(Debug, Drop)]
pub enum ReadError {
    /// It is no statement: so many of its bytes, and no more, begin one.
    Syntax { at: u64 },
    NoMemory,
}

/// A statement without its semicolon.
#[tactic(auto, unfolding(crate::specs::Choices::statement_at))]
fn statement<'a>(alloc: Global, place: &mut Place<'a>) -> Result<Statement, asm_grammar::ReadError>
    ensures { GivesPart statement_said result place.new
        (statement_at place.old.rest.now place.old.left) }
{
    if takes(place, b"CREATE") {
        return created(alloc, place);
    }
    if takes(place, b"DROP") {
        return drop_group(alloc, place);
    }
    expect(place, b"ALTER")?;
    expect(place, b"DISKGROUP")?;
    let group = read_name(alloc, place)?;
    let clause = read_clause(alloc, place)?;
    Ok(Statement::Alter { group, clause })
}

/// A statement and the semicolon that ends the text.
#[tactic(auto, unfolding(crate::specs::Choices::ended_at))]
fn ended<'a>(alloc: Global, place: &mut Place<'a>) -> Result<Statement, asm_grammar::ReadError>
    ensures { GivesPart statement_said result place.new
        (ended_at place.old.rest.now place.old.left) }
{
    let statement = statement(alloc, place)?;
    expect_end(place, b';')?;
    Ok(statement)
}

/// What reading the whole text gives.
#[tactic(auto, using(crate::proofs::Exact::ended_ok, crate::proofs::Exact::ended_err))]
fn read_whole(alloc: Global, text: &[u8]) -> Result<Statement, ReadError>
    ensures { IsStatementRead result text.now }
{
    let mut place = Place {
        rest: text,
        left: text.len(),
    };
    match ended(alloc, &mut place) {
        Ok(statement) => Ok(statement),
        Err(asm_grammar::ReadError::Syntax { left }) => Err(ReadError::Syntax {
            at: text.len().saturating_sub(left) as u64,
        }),
        Err(asm_grammar::ReadError::NoMemory) => Err(ReadError::NoMemory),
    }
}

/// The statement that a whole text says, up to a semicolon at its end.
#[tactic(auto, using(crate::proofs::Exact::found, crate::proofs::Exact::only, crate::proofs::Exact::refused))]
pub fn read_statement(alloc: Global, text: &[u8]) -> Result<Statement, ReadError>
    ensures read { IsStatementRead result text.now }
    ensures found { IfOk result (λ x. Says text.now (statement_said x)) }
    ensures only { IfOk result (λ x. (t : s.Statement) → Says text.now t → t ≡ statement_said x) }
    ensures refused { IfErr result (λ e. IsTextRefused e text.now) }
{
    read_whole(alloc, text)
}
