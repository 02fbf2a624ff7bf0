//! New extents of a file, which all get homes, and then are filled and committed chunk by chunk.
//! Whoever fills them hands over their bytes in order.
ghost use Rattle.std.specs.Prelude.{◌≡◌, ◌<◌, ◌≤◌, ◌+◌, IfErr, IfOk, IfSome, OnOk, vec_len};
ghost use Rattle.catalog_tables.specs.striping.Pieces.{IsAllowedLayout};
ghost use Rattle.group_pieces.specs.group_engine.Mounts.{IsMounted, IsWhole, Takes};
ghost use Rattle.group_pieces.specs.group_engine.Own.{KeepsGroup};
ghost use Rattle.group_pieces.specs.group_engine.Pending.{GoesOn};
ghost use Rattle.file_extents.specs.Filling.{FailsMore, FillCause, PutCause, end_by};
ghost use Rattle.file_extents.specs.Rows.{SpaceCause};

use crate::appending::{Part, append};
use crate::committing::{give_back, or_shut};
use crate::layout::{LONGEST_PIECE, Piece, bytes_before, first_piece, layout_of};
use crate::rows::{ABSENT, CHUNK, MOST_EXTENTS, NewExtents, choose_row_of};
use crate::sparing::{Filled, are_all_marked, fill_copies};
use asm_base::{DiskSet, Homes, NoMemory, Stripe};
use bay::Bay;
use catalog_tables::Layout;
use group_pieces::Mounted;
use refusal_lines::{DiskRef, Refusal};
use std::alloc::Global;

/// What the new extents of a file are filled with.
#[derive(Clone, Copy, Debug, PartialEq, Eq)]
pub enum Contents {
    /// With zeros, to their ends.
    Zeros,
    /// With the file's bytes; those behind its size are left as they are.
    Bytes,
}

/// New extents of a file on their way: all of them have homes before the first byte is written, and
/// those of one chunk at a time are filled and committed.
#[derive(Drop)]
pub struct Filling {
    pub extents: NewExtents,
    pub stripe: Stripe,
    /// The file's byte that is written next.
    pub at: u64,
    /// The first that isn't written any more.
    pub end: u64,
    /// The first extent of the part that is filled, how many it has, and the file's byte behind
    /// them.
    first: u64,
    len: usize,
    stop: u64,
    /// The homes of all the extents, and their marks.
    row: Vec<Homes>,
    marks: Vec<u8>,
    /// The disks that failed since the filling began.
    pub failed: DiskSet,
}

impl Filling {
    /// How many bytes are wanted next, at most 1 MiB; none once all are written.
    pub fn wanted(&self) -> u64
        ensures { 0 < result → self.now.at + result ≤ self.now.end }
    {
        let stop = self.stop.min(self.end);
        stop.saturating_sub(self.at).min(LONGEST_PIECE)
    }
}

// ---- its parts

/// A row for the homes of so many extents, and their marks.
fn blank_row(alloc: Global, count: u64) -> Result<(Vec<Homes>, Vec<u8>), NoMemory> {
    let mut row = Vec::new(alloc);
    let mut marks = Vec::new(alloc);
    for _ in 0..count {
        row.push(ABSENT).map_err(|_| NoMemory)?;
        marks.push(0).map_err(|_| NoMemory)?;
    }
    Ok((row, marks))
}

/// Makes all ready for new extents of a file, which will have this size, and changes nothing.
pub fn prepare(
    m: &Mounted,
    alloc: Global,
    new: NewExtents,
    stripe: Stripe,
    contents: Contents,
    size: u64,
) -> Result<Filling, NoMemory>
    ensures new { IfOk result (λ filling. filling.extents ≡ new) }
    ensures end { IfOk result (λ filling. end_by contents size filling.end) }
    ensures failed { IfOk result (λ filling. filling.failed ≡ 0) }
{
    if new.first > MOST_EXTENTS || new.count > MOST_EXTENTS - new.first {
        return Err(NoMemory);
    }
    let (row, marks) = blank_row(alloc, new.count)?;
    let shape = m.catalog().shape();
    let at = bytes_before(shape, new.first);
    let end = match contents {
        Contents::Zeros => bytes_before(shape, new.first + new.count),
        Contents::Bytes => size,
    };
    Ok(Filling {
        extents: new,
        stripe,
        at,
        end,
        first: new.first,
        len: 0,
        stop: at,
        row,
        marks,
        failed: DiskSet::empty(),
    })
}

/// Chooses the homes of all the extents. NoSpace: the first of them for which there is no choice
/// once those before it have theirs.
pub(crate) fn choose_all(m: &Mounted, alloc: Global, filling: &mut Filling) -> Result<(), Refusal>
    requires whole { IsWhole m.now }
    ensures cause { IfErr result (SpaceCause m.now filling.old.extents) }
    ensures extents { filling.new.extents ≡ filling.old.extents }
    ensures end { filling.new.end ≡ filling.old.end }
    ensures failed { filling.new.failed ≡ filling.old.failed }
{
    let new = filling.extents;
    if new.first > MOST_EXTENTS || new.count > MOST_EXTENTS - new.first {
        return Err(Refusal::NoMemory);
    }
    if filling.row.len() as u64 != new.count {
        return Err(Refusal::NoMemory);
    }
    choose_row_of(m, alloc, new, &mut filling.row)
}

/// Opens the next part: the extents up to the end of the chunk, where any are left.
pub(crate) fn open_part(m: &Mounted, filling: &mut Filling)
    ensures extents { filling.new.extents ≡ filling.old.extents }
    ensures end { filling.new.end ≡ filling.old.end }
    ensures failed { filling.new.failed ≡ filling.old.failed }
{
    let end = filling.extents.first.saturating_add(filling.extents.count);
    let room = CHUNK - filling.first % CHUNK;
    let len = end.saturating_sub(filling.first).min(room);
    filling.stop = bytes_before(m.catalog().shape(), filling.first.saturating_add(len));
    filling.len = len as usize;
}

/// The places in the row of the part at hand: the first, and the one behind its last.
fn part_of(filling: &Filling) -> Option<(usize, usize)>
    ensures { IfSome result (λ part. (part.0 ≤ part.1)
        × ((part.1 ≤ vec_len filling.now.row) × (part.1 ≤ vec_len filling.now.marks))) }
{
    let from = filling.first.checked_sub(filling.extents.first)? as usize;
    let to = from.checked_add(filling.len)?;
    if to > filling.row.len() || to > filling.marks.len() {
        return None;
    }
    Some((from, to))
}

/// Commits the part, all of whose bytes are written.
fn close_part<B: Bay>(
    m: &mut Mounted,
    alloc: Global,
    bay: &mut B,
    filling: &mut Filling,
) -> Result<(), Refusal>
    requires mounted { IsMounted m.old }
    requires takes { Takes m.old (B.state bay.old) }
    ensures goes { GoesOn m.old result m.new (B.state bay.old) (B.state bay.new) }
    ensures end { filling.new.end ≡ filling.old.end }
    ensures failed { filling.new.failed ≡ filling.old.failed }
{
    let Some((from, to)) = part_of(filling) else {
        return Err(Refusal::NoMemory);
    };
    let part = Part {
        file: filling.extents.file,
        copies: filling.extents.copies,
        first: filling.first,
    };
    match append(
        m,
        alloc,
        bay,
        part,
        &filling.row[from..to],
        &filling.marks[from..to],
    ) {
        Ok(()) => {
            filling.first = filling.first.saturating_add(filling.len as u64);
            filling.len = 0;
            Ok(())
        }
        Err(refusal) => Err(refusal),
    }
}

/// Commits the part at hand, and opens the next one.
fn next_part<B: Bay>(
    m: &mut Mounted,
    alloc: Global,
    bay: &mut B,
    filling: &mut Filling,
) -> Result<(), Refusal>
    requires mounted { IsMounted m.old }
    requires takes { Takes m.old (B.state bay.old) }
    ensures goes { GoesOn m.old result m.new (B.state bay.old) (B.state bay.new) }
    ensures end { filling.new.end ≡ filling.old.end }
    ensures failed { filling.new.failed ≡ filling.old.failed }
{
    match close_part(m, alloc, bay, filling) {
        Ok(()) => {
            open_part(m, filling);
            Ok(())
        }
        Err(refusal) => Err(refusal),
    }
}

// ---- its bytes

/// The refusal where all copies of a new extent have failed.
fn all_failed(homes: &Homes, failed: DiskSet) -> Refusal
    ensures { FillCause failed result }
{
    match homes.first {
        Some(home) => {
            if home.disk < 64 && failed.has(home.disk) {
                Refusal::WriteFault {
                    disk: DiskRef::Number(home.disk),
                }
            } else {
                Refusal::NoMemory
            }
        }
        None => Refusal::NoMemory,
    }
}

/// The place in the row of an extent of the part at hand.
fn place_of(filling: &Filling, index: u32) -> Option<usize>
    ensures { IfSome result (λ place. (place < vec_len filling.now.row)
        × (place < vec_len filling.now.marks)) }
{
    let (from, to) = part_of(filling)?;
    let place = (index as u64).checked_sub(filling.extents.first)? as usize;
    if place < from || place >= to {
        return None;
    }
    Some(place)
}

/// Writes a piece of the part at hand to the copies of its extent. WriteFault: all of them have
/// failed, of which this disk has the first copy.
fn write_new<B: Bay>(
    m: &Mounted,
    bay: &mut B,
    filling: &mut Filling,
    piece: Piece,
    bytes: &[u8],
) -> Result<(), Refusal>
    requires mounted { IsMounted m.now }
    requires takes { Takes m.now (B.state bay.old) }
    ensures keeps { KeepsGroup m.now m.now (B.state bay.old) (B.state bay.new) }
    ensures end { filling.new.end ≡ filling.old.end }
    ensures failed { FailsMore m.now filling.old.failed filling.new.failed (B.state bay.old)
        (B.state bay.new) }
    ensures cause { IfErr result (FillCause filling.new.failed) }
{
    let Some(place) = place_of(filling, piece.x.index) else {
        return Err(Refusal::NoMemory);
    };
    let homes = filling.row[place];
    let before = Filled {
        marks: filling.marks[place],
        failed: filling.failed,
    };
    let filled = fill_copies(m, bay, &homes, piece, bytes, before);
    filling.marks[place] = filled.marks;
    filling.failed = filled.failed;
    if are_all_marked(&homes, filled.marks) {
        return Err(all_failed(&homes, filled.failed));
    }
    Ok(())
}

/// Writes the file's next bytes, which lie so, all in the part at hand.
fn write_pieces<B: Bay>(
    m: &Mounted,
    bay: &mut B,
    layout: Layout,
    filling: &mut Filling,
    bytes: &[u8],
) -> Result<(), Refusal>
    requires mounted { IsMounted m.now }
    requires takes { Takes m.now (B.state bay.old) }
    requires layout { IsAllowedLayout layout }
    ensures keeps { KeepsGroup m.now m.now (B.state bay.old) (B.state bay.new) }
    ensures end { filling.new.end ≡ filling.old.end }
    ensures failed { FailsMore m.now filling.old.failed filling.new.failed (B.state bay.old)
        (B.state bay.new) }
    ensures cause { IfErr result (FillCause filling.new.failed) }
{
    let shape = m.catalog().shape();
    let mut done = 0;
    while done < bytes.len() {
        let left = (bytes.len() - done) as u64;
        let Some(piece) = first_piece(shape, layout, filling.extents.file, filling.at, left) else {
            return Err(Refusal::NoMemory);
        };
        write_new(m, bay, filling, piece, &bytes[done..done + piece.len])?;
        filling.at = filling.at.saturating_add(piece.len as u64);
        done += piece.len;
    }
    Ok(())
}

/// Writes the file's next bytes, all of which lie in the part at hand.
fn write_part<B: Bay>(
    m: &Mounted,
    bay: &mut B,
    filling: &mut Filling,
    bytes: &[u8],
) -> Result<(), Refusal>
    requires mounted { IsMounted m.now }
    requires takes { Takes m.now (B.state bay.old) }
    ensures keeps { KeepsGroup m.now m.now (B.state bay.old) (B.state bay.new) }
    ensures end { filling.new.end ≡ filling.old.end }
    ensures failed { FailsMore m.now filling.old.failed filling.new.failed (B.state bay.old)
        (B.state bay.new) }
    ensures cause { IfErr result (FillCause filling.new.failed) }
{
    match layout_of(m.catalog().shape(), filling.stripe) {
        Some(layout) => write_pieces(m, bay, layout, filling, bytes),
        None => Err(Refusal::NoMemory),
    }
}

/// Commits the part at hand and opens the next one, where all bytes of the part are written. After
/// want of memory the group takes no more calls.
fn end_part<B: Bay>(
    m: &mut Mounted,
    alloc: Global,
    bay: &mut B,
    filling: &mut Filling,
) -> Result<(), Refusal>
    requires mounted { IsMounted m.old }
    requires takes { Takes m.old (B.state bay.old) }
    ensures goes { GoesOn m.old result m.new (B.state bay.old) (B.state bay.new) }
    ensures end { filling.new.end ≡ filling.old.end }
    ensures failed { filling.new.failed ≡ filling.old.failed }
{
    if filling.wanted() > 0 || filling.len == 0 {
        return Ok(());
    }
    let answer = next_part(m, alloc, bay, filling);
    or_shut(m, answer)
}

/// Writes the file's next bytes, at most as many as are wanted. Where they are the last of a chunk
/// its extents are committed. A refusal gives all back: WriteFault, where all copies of an extent
/// failed; Dismounted and NoMemory, after which nothing more is written, and the next mount gives
/// it back.
pub fn put_next<B: Bay>(
    m: &mut Mounted,
    alloc: Global,
    bay: &mut B,
    filling: &mut Filling,
    bytes: &[u8],
) -> Result<(), Refusal>
    requires takes { Takes m.old (B.state bay.old) }
    ensures keeps { KeepsGroup m.old m.new (B.state bay.old) (B.state bay.new) }
    ensures mounted { OnOk result (IsMounted m.new) }
    ensures cause { IfErr result (PutCause m.old filling.old.failed m.new (B.state bay.old)
        (B.state bay.new)) }
    ensures failed { FailsMore m.old filling.old.failed filling.new.failed (B.state bay.old)
        (B.state bay.new) }
    ensures end { filling.new.end ≡ filling.old.end }
{
    m.takes_calls()?;
    match write_part(m, bay, filling, bytes) {
        Ok(()) => end_part(m, alloc, bay, filling),
        Err(refusal) => Err(give_back(m, alloc, bay, refusal)),
    }
}

/// Writes zeros to all that is left.
pub fn put_zeros<B: Bay>(
    m: &mut Mounted,
    alloc: Global,
    bay: &mut B,
    filling: &mut Filling,
    zeros: &[u8],
) -> Result<(), Refusal>
    requires mounted { IsMounted m.old }
    requires takes { Takes m.old (B.state bay.old) }
    ensures keeps { KeepsGroup m.old m.new (B.state bay.old) (B.state bay.new) }
    ensures mounted { OnOk result (IsMounted m.new) }
    ensures cause { IfErr result (PutCause m.old filling.old.failed m.new (B.state bay.old)
        (B.state bay.new)) }
{
    for _ in 0..u64::MAX {
        let n = filling.wanted().min(zeros.len() as u64) as usize;
        if n == 0 {
            return Ok(());
        }
        put_next(m, alloc, bay, filling, &zeros[..n])?;
    }
    Ok(())
}
