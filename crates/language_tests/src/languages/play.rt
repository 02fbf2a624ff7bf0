// Plays all rows. What isn't right fails by the name of its row.
use crate::languages::{refused_statements, reports, rewriting, statements, verbs};
use asm_base::{List, Text};
use std::alloc::Global;
use std::test::*;

/// The name of a row that isn't right, and the place of its first step that isn't, or 0.
pub type Wrong = (&'static str, usize);

/// Fails by the name of a row that isn't right.
pub fn row(name: &'static str, is_right: bool) -> Result<(), Wrong> {
    if is_right { Ok(()) } else { Err((name, 0)) }
}

/// Fails by the name of a table and the place of a row that isn't right, where there is one.
pub fn table(name: &'static str, wrong: Option<usize>) -> Result<(), Wrong> {
    match wrong {
        Some(place) => Err((name, place)),
        None => Ok(()),
    }
}

/// Both values, where both are there.
pub fn both<A: Drop, B: Drop>(first: Option<A>, second: Option<B>) -> Option<(A, B)> {
    Some((first?, second?))
}

pub fn word(alloc: Global, bytes: &[u8]) -> Option<Text> {
    List::from_slice(alloc, bytes).ok()
}

/// The lines as one text, in which a line feed ends each.
fn ended(alloc: Global, lines: &[Text]) -> Option<Vec<u8>> {
    let mut text = Vec::new(alloc);
    for line in lines {
        text.extend_from_slice(line.as_slice()).ok()?;
        text.push(b'\n').ok()?;
    }
    Some(text)
}

fn are_lines(alloc: Global, lines: &[Text], text: &[u8]) -> bool {
    match ended(alloc, lines) {
        Some(whole) => {
            let is_same = whole.as_slice() == text;
            drop(whole);
            is_same
        }
        None => false,
    }
}

/// Whether a report has the lines of this text, in which a line feed ends each.
pub fn has_lines(alloc: Global, lines: Option<List<Text>>, text: &[u8]) -> bool {
    match lines {
        Some(lines) => {
            let is_same = are_lines(alloc, lines.as_slice(), text);
            drop(lines);
            is_same
        }
        None => false,
    }
}

fn play(alloc: Global) -> Result<(), Wrong> {
    statements::play_rows(alloc)?;
    refused_statements::play_rows(alloc)?;
    rewriting::play_rows(alloc)?;
    verbs::play_rows(alloc)?;
    reports::play_rows(alloc)
}

#[test]
fn languages(rt: HostRuntime) -> Result<(), Fail> {
    play(rt.alloc())?;
    Ok(())
}
