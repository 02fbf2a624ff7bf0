//! What no group is asked for: copies of new files, bytes of extents, and the buffer for a piece.

use crate::answers::{Answer, refused};
use crate::steps::Wrong;
use asm_base::{GroupKind, Shape};
use extent_copies::copies_for;
use relocation::{CopyError, extent_bytes, piece_buffer, piece_len, refusal_of};
use std::alloc::Global;

/// The kind of a group, the copies of a template, the failure groups that serve, and the copies of
/// a new file.
const NEW_FILES: [(GroupKind, u8, usize, u8); 11] = [
    (GroupKind::External, 3, 3, 1),
    (GroupKind::External, 1, 0, 1),
    (GroupKind::Normal, 1, 4, 1),
    (GroupKind::Normal, 2, 4, 2),
    (GroupKind::Normal, 2, 1, 1),
    (GroupKind::Normal, 3, 3, 3),
    (GroupKind::Normal, 3, 2, 2),
    (GroupKind::Normal, 2, 0, 1),
    (GroupKind::Normal, 2, 300, 2),
    (GroupKind::High, 1, 3, 3),
    (GroupKind::High, 2, 1, 3),
];

/// Units of 4K, of which an extent has one, and from the 8th and the 16th on four and 16.
const SMALL: Shape = Shape {
    kind: GroupKind::Normal,
    au: 4096,
    sector: 512,
    step: 8,
    dir_blocks: 128,
};

/// Units of 4 MiB.
const LARGE: Shape = Shape {
    kind: GroupKind::Normal,
    au: 4_194_304,
    sector: 512,
    step: 8,
    dir_blocks: 128,
};

/// The index of an extent and the bytes of one of its copies, in units of 4K.
const SIZES: [(u32, u64); 6] = [
    (0, 4096),
    (7, 4096),
    (8, 16_384),
    (15, 16_384),
    (16, 65_536),
    (4_000_000_000, 65_536),
];

/// The index of an extent of units of 4 MiB, an inner byte, and how many bytes are copied at once
/// from there on.
const PIECES: [(u32, u64, Option<usize>); 8] = [
    (0, 0, Some(1_048_576)),
    (0, 3_145_728, Some(1_048_576)),
    (0, 3_146_240, Some(1_048_064)),
    (0, 4_193_792, Some(512)),
    (0, 4_194_304, None),
    (0, 1, None),
    (8, 16_777_215, None),
    (8, 16_776_704, Some(512)),
];

fn wrong_file() -> Option<usize> {
    for (place, row) in NEW_FILES.iter().enumerate() {
        let (kind, copies, groups, wanted) = *row;
        if copies_for(kind, copies, groups) != wanted {
            return Some(place);
        }
    }
    None
}

fn wrong_size() -> Option<usize> {
    for (place, row) in SIZES.iter().enumerate() {
        let (index, bytes) = *row;
        if extent_bytes(SMALL, index) != bytes {
            return Some(place);
        }
    }
    None
}

fn wrong_piece() -> Option<usize> {
    for (place, row) in PIECES.iter().enumerate() {
        let (index, inner, len) = *row;
        if piece_len(LARGE, index, inner) != len {
            return Some(place);
        }
    }
    None
}

/// What a slice answers where bytes aren't copied.
const REFUSALS: [(CopyError, Answer); 3] = [
    (CopyError::Unread { disk: 5 }, Answer::ReadFault(5)),
    (CopyError::Unwritten { disk: 63 }, Answer::WriteFault(63)),
    (CopyError::Nowhere, Answer::NoMemory),
];

fn wrong_refusal() -> Option<usize> {
    for (place, row) in REFUSALS.iter().enumerate() {
        let (error, answer) = *row;
        if refused(refusal_of(error)) != answer {
            return Some(place);
        }
    }
    None
}

/// Whether the buffer for a piece has 1 MiB of zeros.
fn has_buffer(alloc: Global) -> bool {
    match piece_buffer(alloc) {
        Ok(buffer) => {
            let is = buffer.len() == 1_048_576 && buffer.first() == Some(&0);
            drop(buffer);
            is
        }
        Err(_) => false,
    }
}

fn judged(name: &'static str, wrong: Option<usize>) -> Result<(), Wrong> {
    match wrong {
        Some(place) => Err((name, place)),
        None => Ok(()),
    }
}

/// Plays the rows.
pub fn play_numbers(alloc: Global) -> Result<(), Wrong> {
    judged("copies of a new file", wrong_file())?;
    judged("bytes of an extent", wrong_size())?;
    judged("bytes that are copied at once", wrong_piece())?;
    judged("why bytes aren't copied", wrong_refusal())?;
    if has_buffer(alloc) {
        Ok(())
    } else {
        Err(("buffer for a piece", 0))
    }
}
