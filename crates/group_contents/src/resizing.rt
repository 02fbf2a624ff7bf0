//! Another size of a file.
ghost use Rattle.std.specs.Bool.{OnTrue};
ghost use Rattle.std.specs.Prelude.{◌≡◌, IfErr, IfOk, IsTrue, OnOk};
ghost use Rattle.file_extents.specs.file_directory.Files.{is_file_number};
ghost use Rattle.file_extents.specs.catalog.FilePlans.{MayGrow, is_on_file};
ghost use Rattle.file_extents.specs.group_engine.Commits.{StatusCause};
ghost use Rattle.file_extents.specs.group_engine.Mounts.{IsMounted, Takes};
ghost use Rattle.file_extents.specs.group_engine.Own.{KeepsGroup};
ghost use Rattle.file_extents.specs.group_engine.Pending.{GoesOn};
ghost use Rattle.group_contents.specs.Creating.{RoomCause};
ghost use Rattle.group_contents.specs.Files.{WriteCause};
ghost use Rattle.group_contents.specs.Sizes.{AreMore, GrowCause, GrowthCause, IsCut, IsFaultBack, IsSized, LaterCause, MoreCause, ResizeCause, ResizesFile, SetsSize};

use crate::buffers::buffer;
use crate::chunks::chunks_of;
use crate::opening::{OpenFile, first_lost, is_sectors, open};
use crate::writing::fill_span;
use asm_base::{NoMemory, Path};
use bay::Bay;
use file_extents::{
    Catalog, Contents, Filling, LONGEST_PIECE, Mounted, NewExtents, PendingKind, begin_operation,
    bytes_before, give_back, give_homes, has_all, is_at_rest, layout_of, or_shut, prepare,
    put_zeros,
};
use refusal_lines::{DiskRef, Refusal};
use std::alloc::Global;
use striping::extents_for;

// ---- the size alone

/// Whether no operation is pending, or one on a file that has a head.
fn is_on_file(catalog: &Catalog) -> bool
    ensures { result ≡ is_on_file catalog.now.tables.files catalog.now.tables.operations.pending }
{
    match catalog.pending() {
        Some(op) => catalog.file(op.file).is_some(),
        None => true,
    }
}

/// Whether the file has a head, and the extents of a size with all their copies where that is
/// greater.
fn may_grow(catalog: &Catalog, file: u32, size: u64) -> bool
    ensures file { OnTrue result (IsTrue (is_file_number catalog.now.tables.files file)) }
    ensures grow { OnTrue result (MayGrow catalog.now.shape catalog.now.tables file size) }
{
    let Some(head) = catalog.file(file) else {
        return false;
    };
    if size <= head.size {
        return true;
    }
    match layout_of(catalog.shape(), head.stripe) {
        Some(layout) => has_all(catalog, file, head.copies, extents_for(layout, size)),
        None => false,
    }
}

/// The same, where the pending operation is on a file that has a head, or none is.
fn may_size(catalog: &Catalog, file: u32, size: u64) -> bool
    ensures file { OnTrue result (IsTrue (is_file_number catalog.now.tables.files file)) }
    ensures grow { OnTrue result (MayGrow catalog.now.shape catalog.now.tables file size) }
    ensures on { OnTrue result (IsTrue (is_on_file catalog.now.tables.files
        catalog.now.tables.operations.pending)) }
{
    may_grow(catalog, file, size) && is_on_file(catalog)
}

/// Commits another size of a file, where all extents that it has then are there.
fn set_size<B: Bay>(
    m: &mut Mounted,
    alloc: Global,
    bay: &mut B,
    file: u32,
    size: u64,
) -> Result<(), Refusal>
    requires mounted { IsMounted m.old }
    requires takes { Takes m.old (B.state bay.old) }
    ensures goes { GoesOn m.old result m.new (B.state bay.old) (B.state bay.new) }
    ensures sized { OnOk result (SetsSize m.old file size m.new) }
{
    if !may_size(m.catalog(), file, size) {
        return Err(Refusal::NoMemory);
    }
    match m.catalog().plan_size(alloc, file, size) {
        Ok(change) => m.commit_plan(alloc, bay, &change),
        Err(_) => Err(Refusal::NoMemory),
    }
}

// ---- a smaller file

/// Makes a file smaller: the size first, and then the extents behind it go, chunk by chunk from the
/// last.
fn shrink<B: Bay>(
    m: &mut Mounted,
    alloc: Global,
    bay: &mut B,
    file: u32,
    size: u64,
) -> Result<(), Refusal>
    requires mounted { IsMounted m.old }
    requires takes { Takes m.old (B.state bay.old) }
    ensures keeps { KeepsGroup m.old m.new (B.state bay.old) (B.state bay.new) }
    ensures cause { IfErr result (StatusCause m.old m.new (B.state bay.old) (B.state bay.new)) }
    ensures sized { OnOk result (IsCut m.old file size) }
{
    m.set_flight(None);
    match set_size(m, alloc, bay, file, size) {
        Ok(()) => m.end_pending(alloc, bay),
        Err(refusal) => Err(refusal),
    }
}

// ---- a greater file

/// The extents that a file gets by a greater size, for which there are blocks. DirectoryFull: more
/// are needed than are free.
fn more_extents(m: &Mounted, file: &OpenFile, size: u64) -> Result<NewExtents, Refusal>
    ensures cause { IfErr result (RoomCause m.now.catalog) }
    ensures extents { IfOk result (AreMore m.now.catalog file.now) }
{
    let Some(layout) = layout_of(m.catalog().shape(), file.stripe) else {
        return Err(Refusal::NoMemory);
    };
    let kept = extents_for(layout, file.size);
    let count = extents_for(layout, size);
    let chunks = chunks_of(count).saturating_sub(chunks_of(kept));
    let need = chunks.saturating_mul(2);
    let free = m.catalog().free_blocks();
    if free < need {
        return Err(Refusal::DirectoryFull { need, free });
    }
    Ok(NewExtents {
        file: file.file,
        copies: file.copies,
        first: kept,
        count: count.saturating_sub(kept),
    })
}

/// The bytes that a file's extents have behind its size.
fn bytes_behind(m: &Mounted, file: &OpenFile) -> u64 {
    match layout_of(m.catalog().shape(), file.stripe) {
        Some(layout) => {
            let kept = extents_for(layout, file.size);
            bytes_before(m.catalog().shape(), kept).saturating_sub(file.size)
        }
        None => 0,
    }
}

/// Looks whether a file may have a greater size, and has the memory for its new extents; nothing is
/// changed.
fn prepare_more(m: &Mounted, alloc: Global, file: &OpenFile, size: u64) -> Result<Filling, Refusal>
    ensures cause { IfErr result (GrowCause m.now file.now) }
    ensures extents { IfOk result (λ filling. AreMore m.now.catalog file.now filling.extents) }
    ensures failed { IfOk result (λ filling. filling.failed ≡ 0) }
{
    if let Some(extent) = first_lost(m, file, file.size, bytes_behind(m, file)) {
        return Err(Refusal::Lost { extent });
    }
    let new = more_extents(m, file, size)?;
    match prepare(m, alloc, new, file.stripe, Contents::Zeros, size) {
        Ok(filling) => Ok(filling),
        Err(NoMemory) => Err(Refusal::NoMemory),
    }
}

/// A growth that is prepared: what its file and its size are, and when it begins.
#[derive(Clone, Copy)]
struct Growth {
    file: OpenFile,
    size: u64,
    /// In seconds.
    time: u64,
}

/// Writes zeros over what a file's extents have behind its size.
fn clear_behind<B: Bay>(
    m: &mut Mounted,
    alloc: Global,
    bay: &mut B,
    growth: &Growth,
    zeros: &[u8],
) -> Result<(), Refusal>
    requires mounted { IsMounted m.old }
    requires takes { Takes m.old (B.state bay.old) }
    ensures keeps { KeepsGroup m.old m.new (B.state bay.old) (B.state bay.new) }
    ensures mounted { OnOk result (IsMounted m.new) }
    ensures cause { IfErr result (WriteCause m.old m.new (B.state bay.old) (B.state bay.new)) }
{
    let file = growth.file;
    let behind = bytes_behind(m, &file);
    fill_span(m, alloc, bay, &file, file.size, behind, zeros, growth.time)
}

/// Gives a growth that takes calls back after WriteFault by this disk. NoSpace comes before that,
/// where there is no choice of homes for one of its extents.
fn give_back_more<B: Bay>(
    m: &mut Mounted,
    alloc: Global,
    bay: &mut B,
    filling: &mut Filling,
    disk: DiskRef,
) -> Refusal
    requires mounted { IsMounted m.old }
    requires takes { Takes m.old (B.state bay.old) }
    ensures keeps { KeepsGroup m.old m.new (B.state bay.old) (B.state bay.new) }
    ensures cause { IsFaultBack m.old filling.old.extents disk m.new (B.state bay.old)
        (B.state bay.new) result }
{
    match give_homes(m, alloc, bay, filling) {
        Ok(()) => give_back(m, alloc, bay, Refusal::WriteFault { disk }),
        Err(refusal) => refusal,
    }
}

/// The same, where the group takes calls still.
fn give_back_fault<B: Bay>(
    m: &mut Mounted,
    alloc: Global,
    bay: &mut B,
    filling: &mut Filling,
    disk: DiskRef,
) -> Refusal
    requires takes { Takes m.old (B.state bay.old) }
    ensures keeps { KeepsGroup m.old m.new (B.state bay.old) (B.state bay.new) }
    ensures cause { IsFaultBack m.old filling.old.extents disk m.new (B.state bay.old)
        (B.state bay.new) result }
{
    match m.takes_calls() {
        Ok(()) => give_back_more(m, alloc, bay, filling, disk),
        Err(closed) => {
            drop(closed);
            Refusal::WriteFault { disk }
        }
    }
}

/// Commits another size of a file. After want of memory the group takes no more calls.
fn size_or_shut<B: Bay>(
    m: &mut Mounted,
    alloc: Global,
    bay: &mut B,
    file: u32,
    size: u64,
) -> Result<(), Refusal>
    requires mounted { IsMounted m.old }
    requires takes { Takes m.old (B.state bay.old) }
    ensures goes { GoesOn m.old result m.new (B.state bay.old) (B.state bay.new) }
    ensures sized { OnOk result (SetsSize m.old file size m.new) }
{
    let answer = set_size(m, alloc, bay, file, size);
    or_shut(m, answer)
}

/// Puts the new extents of a growth, which have homes, and commits its size. After want of memory
/// the group takes no more calls.
fn put_more<B: Bay>(
    m: &mut Mounted,
    alloc: Global,
    bay: &mut B,
    growth: &Growth,
    filling: &mut Filling,
    zeros: &[u8],
) -> Result<(), Refusal>
    requires mounted { IsMounted m.old }
    requires takes { Takes m.old (B.state bay.old) }
    requires fresh { filling.old.failed ≡ 0 }
    ensures keeps { KeepsGroup m.old m.new (B.state bay.old) (B.state bay.new) }
    ensures cause { IfErr result (WriteCause m.old m.new (B.state bay.old) (B.state bay.new)) }
    ensures sized { OnOk result (IsSized growth.now.file.file growth.now.size m.new) }
{
    match put_zeros(m, alloc, bay, filling, zeros) {
        Ok(()) => size_or_shut(m, alloc, bay, growth.file.file, growth.size),
        Err(refusal) => Err(refusal),
    }
}

/// Gives the new extents of a growth homes, by the modes and the units as they are now, puts them,
/// and commits its size.
fn place_more<B: Bay>(
    m: &mut Mounted,
    alloc: Global,
    bay: &mut B,
    growth: &Growth,
    filling: &mut Filling,
    zeros: &[u8],
) -> Result<(), Refusal>
    requires mounted { IsMounted m.old }
    requires takes { Takes m.old (B.state bay.old) }
    requires fresh { filling.old.failed ≡ 0 }
    ensures keeps { KeepsGroup m.old m.new (B.state bay.old) (B.state bay.new) }
    ensures cause { IfErr result (LaterCause m.old filling.old.extents m.new (B.state bay.old)
        (B.state bay.new)) }
    ensures sized { OnOk result (IsSized growth.now.file.file growth.now.size m.new) }
{
    match give_homes(m, alloc, bay, filling) {
        Ok(()) => put_more(m, alloc, bay, growth, filling, zeros),
        Err(refusal) => Err(refusal),
    }
}

/// Writes zeros behind the size of a file whose growth has begun, and puts its new extents. After
/// WriteFault of the zeros the growth is given back, and after want of memory the group takes no
/// more calls.
fn extend_begun<B: Bay>(
    m: &mut Mounted,
    alloc: Global,
    bay: &mut B,
    growth: &Growth,
    filling: &mut Filling,
    zeros: &[u8],
) -> Result<(), Refusal>
    requires mounted { IsMounted m.old }
    requires takes { Takes m.old (B.state bay.old) }
    requires fresh { filling.old.failed ≡ 0 }
    ensures keeps { KeepsGroup m.old m.new (B.state bay.old) (B.state bay.new) }
    ensures cause { IfErr result (LaterCause m.old filling.old.extents m.new (B.state bay.old)
        (B.state bay.new)) }
    ensures sized { OnOk result (IsSized growth.now.file.file growth.now.size m.new) }
{
    match clear_behind(m, alloc, bay, growth, zeros) {
        Ok(()) => place_more(m, alloc, bay, growth, filling, zeros),
        Err(Refusal::WriteFault { disk }) => Err(give_back_fault(m, alloc, bay, filling, disk)),
        Err(refusal) => or_shut(m, Err(refusal)),
    }
}

/// Makes a file greater by new extents: the growth is the pending operation first.
fn extend<B: Bay>(
    m: &mut Mounted,
    alloc: Global,
    bay: &mut B,
    growth: &Growth,
    filling: &mut Filling,
    zeros: &[u8],
) -> Result<(), Refusal>
    requires mounted { IsMounted m.old }
    requires takes { Takes m.old (B.state bay.old) }
    requires fresh { filling.old.failed ≡ 0 }
    ensures keeps { KeepsGroup m.old m.new (B.state bay.old) (B.state bay.new) }
    ensures cause { IfErr result (MoreCause m.old filling.old.extents m.new (B.state bay.old)
        (B.state bay.new)) }
    ensures sized { OnOk result (IsSized growth.now.file.file growth.now.size m.new) }
{
    match begin_operation(m, alloc, bay, PendingKind::Grow, filling.extents) {
        Ok(()) => extend_begun(m, alloc, bay, growth, filling, zeros),
        Err(refusal) => Err(refusal),
    }
}

/// Makes a file greater within the extents that it has.
fn stretch<B: Bay>(
    m: &mut Mounted,
    alloc: Global,
    bay: &mut B,
    growth: &Growth,
    zeros: &[u8],
) -> Result<(), Refusal>
    requires mounted { IsMounted m.old }
    requires takes { Takes m.old (B.state bay.old) }
    ensures keeps { KeepsGroup m.old m.new (B.state bay.old) (B.state bay.new) }
    ensures cause { IfErr result (WriteCause m.old m.new (B.state bay.old) (B.state bay.new)) }
    ensures sized { OnOk result (IsSized growth.now.file.file growth.now.size m.new) }
{
    m.set_flight(None);
    match clear_behind(m, alloc, bay, growth, zeros) {
        Ok(()) => set_size(m, alloc, bay, growth.file.file, growth.size),
        Err(refusal) => Err(refusal),
    }
}

/// Makes a file greater: with new extents, where it needs some.
fn grow_by<B: Bay>(
    m: &mut Mounted,
    alloc: Global,
    bay: &mut B,
    growth: &Growth,
    filling: &mut Filling,
    zeros: &[u8],
) -> Result<(), Refusal>
    requires mounted { IsMounted m.old }
    requires takes { Takes m.old (B.state bay.old) }
    requires fresh { filling.old.failed ≡ 0 }
    ensures keeps { KeepsGroup m.old m.new (B.state bay.old) (B.state bay.new) }
    ensures cause { IfErr result (MoreCause m.old filling.old.extents m.new (B.state bay.old)
        (B.state bay.new)) }
    ensures sized { OnOk result (IsSized growth.now.file.file growth.now.size m.new) }
{
    if filling.extents.count > 0 {
        extend(m, alloc, bay, growth, filling, zeros)
    } else {
        stretch(m, alloc, bay, growth, zeros)
    }
}

/// Makes a file greater, where it may be, with the zeros of a buffer.
fn grow_with<B: Bay>(
    m: &mut Mounted,
    alloc: Global,
    bay: &mut B,
    growth: &Growth,
    zeros: &[u8],
) -> Result<(), Refusal>
    requires mounted { IsMounted m.old }
    requires takes { Takes m.old (B.state bay.old) }
    ensures keeps { KeepsGroup m.old m.new (B.state bay.old) (B.state bay.new) }
    ensures cause { IfErr result (GrowthCause m.old growth.now.file m.new (B.state bay.old)
        (B.state bay.new)) }
    ensures sized { OnOk result (IsSized growth.now.file.file growth.now.size m.new) }
{
    match prepare_more(m, alloc, &growth.file, growth.size) {
        Ok(mut filling) => {
            let answer = grow_by(m, alloc, bay, growth, &mut filling, zeros);
            drop(filling);
            answer
        }
        Err(refusal) => Err(refusal),
    }
}

/// Makes a file greater: the growth is the pending operation, where the file needs more extents;
/// then zeros go over what its extents have behind its size, more extents get homes and are filled
/// with zeros, chunk by chunk, and the size comes last.
fn grow<B: Bay>(m: &mut Mounted, alloc: Global, bay: &mut B, growth: &Growth) -> Result<(), Refusal>
    requires mounted { IsMounted m.old }
    requires takes { Takes m.old (B.state bay.old) }
    ensures keeps { KeepsGroup m.old m.new (B.state bay.old) (B.state bay.new) }
    ensures cause { IfErr result (GrowthCause m.old growth.now.file m.new (B.state bay.old)
        (B.state bay.new)) }
    ensures sized { OnOk result (IsSized growth.now.file.file growth.now.size m.new) }
{
    if !is_at_rest(m) {
        return Err(Refusal::NoMemory);
    }
    let Ok(zeros) = buffer(alloc, LONGEST_PIECE, 0) else {
        return Err(Refusal::NoMemory);
    };
    let answer = grow_with(m, alloc, bay, growth, &zeros);
    drop(zeros);
    answer
}

/// Gives the file at a path another size in bytes; what it gets reads as zeros. Refusals in their
/// order: NoName; NotSectors; of a greater size Lost, with the first of its extents that has bytes
/// behind the old size and no usable copy, and DirectoryFull. Before these nothing is changed; then
/// come Dismounted by the commit of the growth, NoSpace by the modes as they are once zeros went
/// over what the file has behind its size, WriteFault and Dismounted. A refusal leaves the size as
/// it was, but for Dismounted, after which it is either.
pub fn resize<B: Bay>(
    m: &mut Mounted,
    alloc: Global,
    bay: &mut B,
    path: &Path,
    size: u64,
    now: u64,
) -> Result<(), Refusal>
    requires takes { Takes m.old (B.state bay.old) }
    ensures keeps { KeepsGroup m.old m.new (B.state bay.old) (B.state bay.new) }
    ensures cause { IfErr result (ResizeCause m.old path.now.parts size m.new (B.state bay.old)
        (B.state bay.new)) }
    // The file at the path had the size and the group stays, or a commit gave it.
    ensures sized { OnOk result (ResizesFile m.old path.now.parts size m.new) }
{
    m.takes_calls()?;
    let file = match open(m, path) {
        Ok(file) => file,
        Err(refusal) => return Err(refusal),
    };
    if !is_sectors(m, size) {
        return Err(Refusal::NotSectors);
    }
    if size == file.size {
        return Ok(());
    }
    if size < file.size {
        shrink(m, alloc, bay, file.file, size)
    } else {
        grow(
            m,
            alloc,
            bay,
            &Growth {
                file,
                size,
                time: now,
            },
        )
    }
}
