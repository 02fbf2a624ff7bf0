// What the text of a command asks for, by the two languages.
ghost use Rattle.std.specs.Prelude.{◌≡◌};
ghost use Rattle.group_sql.specs.Answers.{statement_or_front};
ghost use Rattle.serving.specs.Reads.{IsRequestRead};

use asmcmd::{ReadError, Verb, read_line};
use group_sql::{ReadError as NoStatement, Statement, read_statement};
use script::opens_statement;
use std::alloc::Global;

/// A command of the two languages.
#[derive(Drop)]
pub enum Request {
    Said(Statement),
    Asked(Verb),
}

/// What a text asks for that is no statement, of which so many bytes begin one.
#[tactic(auto, using(crate::proofs::Reading::asked_nothing))]
fn other_request(alloc: Global, text: &[u8], at: u64) -> Result<Request, ReadError>
    requires { statement_or_front text.now ≡ Err at }
    ensures reads { IsRequestRead result text.now }
{
    if opens_statement(text) {
        return Err(ReadError::Syntax { at });
    }
    match read_line(alloc, text) {
        Ok(verb) => Ok(Request::Asked(verb)),
        Err(ReadError::Syntax { at: far }) => Err(ReadError::Syntax { at: at.max(far) }),
        Err(ReadError::NoMemory) => Err(ReadError::NoMemory),
    }
}

/// The command that a text asks for. Any other text is refused where its longest front that begins
/// some command ends.
pub fn read_request(alloc: Global, text: &[u8]) -> Result<Request, ReadError>
    ensures reads { IsRequestRead result text.now }
{
    match read_statement(alloc, text) {
        Ok(statement) => Ok(Request::Said(statement)),
        Err(NoStatement::Syntax { at }) => other_request(alloc, text, at),
        Err(NoStatement::NoMemory) => Err(ReadError::NoMemory),
    }
}
