// Edits of the templates of a group, and what they leave.
use crate::helpers::{Wrong, name, row};
use crate::tables::templates::new_table;
use asm_base::{GroupKind, Stripe};
use refusal_lines::{Limited, Refusal};
use std::alloc::Global;
use template_directory::{TemplateEdit, TemplateTable};

/// An edit of the template of a name, and the copies that it says. One that is added has coarse
/// stripes, one that is modified fine ones.
#[derive(Clone, Copy)]
enum Edit<'a> {
    Add(&'a [u8], Option<u8>),
    Modify(&'a [u8], Option<u8>),
    Drop(&'a [u8]),
}

/// The answer of an edit.
#[derive(Clone, Copy, PartialEq, Eq)]
enum Answer {
    Done,
    NameTaken,
    NoTemplate,
    SystemTemplate,
    BadRedundancy,
    MoreThan64,
    Other,
}

fn edit_of(alloc: Global, edit: Edit<'_>) -> Option<TemplateEdit> {
    match edit {
        Edit::Add(bytes, copies) => Some(TemplateEdit::Add {
            name: name(alloc, bytes)?,
            copies,
            stripe: Stripe::Coarse,
        }),
        Edit::Modify(bytes, copies) => Some(TemplateEdit::Modify {
            name: name(alloc, bytes)?,
            copies,
            stripe: Stripe::Fine,
        }),
        Edit::Drop(bytes) => Some(TemplateEdit::Drop {
            name: name(alloc, bytes)?,
        }),
    }
}

fn answer_of(refusal: &Refusal) -> Answer {
    match refusal {
        Refusal::NameTaken => Answer::NameTaken,
        Refusal::NoTemplate => Answer::NoTemplate,
        Refusal::SystemTemplate => Answer::SystemTemplate,
        Refusal::BadRedundancy => Answer::BadRedundancy,
        Refusal::TooMany {
            kind: Limited::Templates,
            limit: 64,
        } => Answer::MoreThan64,
        _ => Answer::Other,
    }
}

fn answer_by(table: &mut TemplateTable, kind: GroupKind, edit: &TemplateEdit) -> Option<Answer> {
    if !edit.is_allowed() {
        return None;
    }
    match table.edit(kind, edit) {
        Ok(()) => Some(Answer::Done),
        Err(refusal) => {
            let answer = answer_of(&refusal);
            drop(refusal);
            Some(answer)
        }
    }
}

/// The answer of an edit of a group of a kind. None where it is no edit, or there is no memory.
fn answer_to(
    alloc: Global,
    table: &mut TemplateTable,
    kind: GroupKind,
    edit: Edit<'_>,
) -> Option<Answer> {
    match edit_of(alloc, edit) {
        Some(edit) => {
            let answer = answer_by(table, kind, &edit);
            drop(edit);
            answer
        }
        None => None,
    }
}

type Row = (Edit<'static>, Answer);

/// How many edits, one after the other, have their answers, until one hasn't.
fn count_answered(
    alloc: Global,
    table: &mut TemplateTable,
    kind: GroupKind,
    rows: &[Row],
) -> usize {
    for (place, (edit, wanted)) in rows.iter().enumerate() {
        if answer_to(alloc, table, kind, *edit) != Some(*wanted) {
            return place;
        }
    }
    rows.len()
}

/// A template: its place, its name in this spelling, its copies, and whether it is one of the
/// system's.
type Placed = (usize, &'static [u8], u8, bool);

fn is_placed(table: &TemplateTable, row: Placed) -> bool {
    let (place, name, copies, system) = row;
    match table.list().get(place) {
        Some(template) => {
            template.name.as_bytes() == name
                && template.copies == copies
                && template.system == system
        }
        None => false,
    }
}

/// Plays edits of a new group, which has so many templates then, one of them at its place.
fn play(
    alloc: Global,
    name: &'static str,
    kind: GroupKind,
    rows: &[Row],
    count: usize,
    placed: Placed,
) -> Result<(), Wrong> {
    match new_table(alloc, kind) {
        Some(mut table) => {
            let answered = count_answered(alloc, &mut table, kind, rows);
            let is_left = table.list().len() == count && is_placed(&table, placed);
            drop(table);
            row(name, answered == rows.len() && is_left)
        }
        None => Err((name, 0)),
    }
}

const CONTROL: Placed = (4, b"CONTROLFILE", 3, true);

const FILE: Placed = (5, b"DATAFILE", 2, true);

/// A template is added in its place, with the usual copies.
const ADDED: [Row; 1] = [(Edit::Add(b"Bravo", None), Answer::Done)];

const BRAVO: Placed = (3, b"Bravo", 2, false);

/// A template is changed in any case of its name, and keeps its spelling and that it is the
/// system's.
const MODIFIED: [Row; 1] = [(Edit::Modify(b"datafile", Some(3)), Answer::Done)];

const OF_THREE: Placed = (5, b"DATAFILE", 3, true);

/// A template is dropped in any case of its name.
const DROPPED: [Row; 2] = [
    (Edit::Add(b"new", None), Answer::Done),
    (Edit::Drop(b"NEW"), Answer::Done),
];

/// What is refused, and which cause comes first. The table stays.
const REFUSED: [Row; 6] = [
    (Edit::Add(b"datafile", Some(2)), Answer::NameTaken),
    (Edit::Add(b"new", Some(2)), Answer::BadRedundancy),
    (Edit::Modify(b"new", Some(2)), Answer::NoTemplate),
    (Edit::Modify(b"datafile", Some(3)), Answer::BadRedundancy),
    (Edit::Drop(b"new"), Answer::NoTemplate),
    (Edit::Drop(b"datafile"), Answer::SystemTemplate),
];

const OF_ONE: Placed = (5, b"DATAFILE", 1, true);

/// Adds 51 templates beside the system's. Whether that is done.
fn fill(alloc: Global, table: &mut TemplateTable) -> bool {
    for i in 0..51 {
        let name = [b'T', b'0' + i / 10, b'0' + i % 10];
        let answer = answer_to(alloc, table, GroupKind::High, Edit::Add(&name, None));
        if answer != Some(Answer::Done) {
            return false;
        }
    }
    true
}

/// The answer to one template more.
fn one_more(alloc: Global, table: &mut TemplateTable) -> Option<Answer> {
    answer_to(alloc, table, GroupKind::High, Edit::Add(b"one_more", None))
}

/// A group has at most 64 templates.
fn has_at_most_64(alloc: Global) -> bool {
    match new_table(alloc, GroupKind::High) {
        Some(mut table) => {
            let is_refused = fill(alloc, &mut table)
                && one_more(alloc, &mut table) == Some(Answer::MoreThan64);
            drop(table);
            is_refused
        }
        None => false,
    }
}

pub fn play_rows(alloc: Global) -> Result<(), Wrong> {
    let normal = GroupKind::Normal;
    play(
        alloc,
        "control file of the system",
        normal,
        &[],
        13,
        CONTROL,
    )?;
    play(alloc, "data file of the system", normal, &[], 13, FILE)?;
    play(alloc, "template is added", normal, &ADDED, 14, BRAVO)?;
    play(
        alloc,
        "template is modified",
        normal,
        &MODIFIED,
        13,
        OF_THREE,
    )?;
    play(
        alloc,
        "template is dropped",
        GroupKind::High,
        &DROPPED,
        13,
        CONTROL,
    )?;
    play(
        alloc,
        "edits are refused",
        GroupKind::External,
        &REFUSED,
        13,
        OF_ONE,
    )?;
    row("at most 64 templates", has_at_most_64(alloc))
}
