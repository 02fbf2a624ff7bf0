// What a command must answer, by the directories and the status record as they are when it begins.
use crate::trials::deeds::{Effect, File, Fill};
use crate::trials::formats::{Group, copy_in, file_number, has, number};
use std::alloc::{AllocError, Global};

/// The files that a command reads or writes, by their sectors.
#[derive(Clone, Copy)]
pub struct Span {
    pub file: File,
    pub first: usize,
    pub count: usize,
}

/// The extents of a span: the first, and the one behind the last.
pub fn extents(span: Span) -> (usize, usize) {
    let end = span.first.saturating_add(span.count);
    (span.first / 8, end.saturating_add(7) / 8)
}

fn of_fill(fill: Fill) -> Span {
    Span {
        file: fill.file,
        first: fill.first,
        count: fill.count,
    }
}

/// The span of a command, where it reads or writes a file's bytes.
pub fn span_of(effect: Effect) -> Option<Span> {
    match effect {
        Effect::Filled(fill) => Some(of_fill(fill)),
        Effect::Read(file) => Some(Span {
            file,
            first: 0,
            count: 80,
        }),
        _ => None,
    }
}

/// The name of a mode, by its number.
pub fn mode_name(mode: u64) -> &'static str {
    match mode {
        1 => "Online",
        2 => "Offline",
        3 => "Syncing",
        4 => "Dropping",
        5 => "Forced",
        _ => "none",
    }
}

// The first extent of a span that has no usable copy.
fn lost_in(group: &Group<'_>, span: Span) -> Option<usize> {
    let (first, end) = extents(span);
    (first..end).find(|index| group.usable(span.file, *index) == 0)
}

/// Whether an extent of a span has its only usable copy on a disk.
pub fn is_alone(group: &Group<'_>, span: Span, disk: usize) -> bool {
    let (first, end) = extents(span);
    (first..end).any(|index| disk < 64 && group.usable(span.file, index) == 1u64 << disk)
}

// The disks that have an unmarked copy of an extent and aren't Forced, as a set.
fn unmarked(group: &Group<'_>, file: File, index: usize) -> u64 {
    let (Some(chunk), Some(marks)) = (group.chunk(file), group.marks(file)) else {
        return 0;
    };
    let mut found = 0u64;
    for place in 0..3usize {
        if let Some(copy) = copy_in(chunk, index, place) {
            let counts = group.status.mode(copy.disk) != 5 && !has(number(marks, index, 1), place);
            if counts && copy.disk < 4 {
                found |= 1u64 << copy.disk;
            }
        }
    }
    found
}

// The first extent that would be lost without a disk: whose usable copies are there alone, or by
// force those that aren't marked.
fn would_lose(group: &Group<'_>, disk: usize, by_force: bool) -> Option<(File, usize)> {
    for file in [File::U, File::V] {
        for index in 0..10usize {
            let copies = if by_force {
                unmarked(group, file, index)
            } else {
                group.usable(file, index)
            };
            if disk < 64 && copies == 1u64 << disk {
                return Some((file, index));
            }
        }
    }
    None
}

// What a statement must answer that takes a disk away.
fn due_loss(
    alloc: Global,
    group: &Group<'_>,
    disk: usize,
    by_force: bool,
) -> Result<Option<String>, AllocError> {
    let mode = group.status.mode(disk);
    let is_taken = if by_force { mode != 5 } else { mode == 1 };
    if !is_taken {
        let name = mode_name(mode);
        return Ok(Some(format!(in alloc; "error 34 DiskState DATA_000{disk} {name}")?));
    }
    if disk < 64 && group.status.copies() == 1u64 << disk {
        return Ok(Some(format!(in alloc; "error 40 HoldsDirectories DATA_000{disk}")?));
    }
    match would_lose(group, disk, by_force) {
        Some((file, index)) => {
            let file = file_number(file);
            Ok(Some(format!(in alloc; "error 33 WouldLose {file} {index}")?))
        }
        None => Ok(None),
    }
}

/// The refusal that a command must be answered with, if no device fails in it.
pub fn due_refusal(
    alloc: Global,
    group: &Group<'_>,
    effect: Effect,
) -> Result<Option<String>, AllocError> {
    match effect {
        Effect::Offline => due_loss(alloc, group, 1, false),
        Effect::Forced => due_loss(alloc, group, 2, true),
        Effect::Online if group.status.mode(1) != 2 => {
            let name = mode_name(group.status.mode(1));
            Ok(Some(format!(in alloc; "error 34 DiskState DATA_0001 {name}")?))
        }
        _ => match span_of(effect) {
            Some(span) => match lost_in(group, span) {
                Some(index) => {
                    let file = file_number(span.file);
                    Ok(Some(format!(in alloc; "error 29 Lost {file} {index}")?))
                }
                None => Ok(None),
            },
            None => Ok(None),
        },
    }
}
