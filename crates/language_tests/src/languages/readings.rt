// The calls of the readers of statements. Tests call these, which have no clause, so that no
// language is computed on a literal text. A statement is dropped by a call, since what goes in
// place is proved in place.
use group_sql::{ReadError, Statement, read_statement};
use script::next_command;
use std::alloc::Global;

/// What a text says. None where it is refused or there is no memory.
pub fn statement(alloc: Global, text: &[u8]) -> Option<Statement> {
    read_statement(alloc, text).ok()
}

fn place_of(read: Result<Statement, ReadError>) -> Option<u64> {
    match read {
        Ok(statement) => {
            drop(statement);
            None
        }
        Err(ReadError::Syntax { at }) => Some(at),
        Err(_) => None,
    }
}

/// Where a text is refused. None where it is read.
pub fn refused_at(alloc: Global, text: &[u8]) -> Option<u64> {
    place_of(read_statement(alloc, text))
}

pub fn is_read(alloc: Global, text: &[u8]) -> bool {
    match read_statement(alloc, text) {
        Ok(statement) => {
            drop(statement);
            true
        }
        Err(_) => false,
    }
}

/// The next command of a script: where it begins, and how long it is.
pub fn command(script: &[u8]) -> Option<(u64, u64)> {
    let span = next_command(script)?;
    Some((span.at, span.len))
}

/// The place of a text that isn't read.
pub fn other_read(alloc: Global, texts: &[&[u8]]) -> Option<usize> {
    texts.iter().position(|text| !is_read(alloc, text))
}

/// The place of a text that isn't refused at its place.
pub fn other_refused(alloc: Global, rows: &[(&[u8], u64)]) -> Option<usize> {
    rows.iter()
        .position(|(text, at)| refused_at(alloc, text) != Some(*at))
}
