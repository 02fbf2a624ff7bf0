//! The pending operation is ended: one that a stop left, or one that a command gives up or has done
//! but for its tail.
ghost use Rattle.std.specs.Prelude.{◌≡◌, ◌≤◌, IfErr, IfSome, IsTrue, None, OnErr, OnOk, is_some};
ghost use Rattle.std.specs.Bool.{OnTrue};
ghost use Rattle.asm_group.specs.Shape.{is_shape};
ghost use Rattle.rebalance.specs.catalog.ExtentPlans.{MayCut};
ghost use Rattle.rebalance.specs.catalog.FilePlans.{HasSoMany};
ghost use Rattle.rebalance.specs.catalog.Plans.{AreOwned};
ghost use Rattle.rebalance.specs.catalog_tables.Tables.{AreTables};
ghost use Rattle.rebalance.specs.extent_map.Extents.{chunk_at, chunks_from};
ghost use Rattle.rebalance.specs.file_directory.Files.{head_at};
ghost use Rattle.group_of.specs.Describing.{KeepsNames};
ghost use Rattle.group_engine.specs.Commits.{KeepsRecord, StatusCause, turns_at_most};
ghost use Rattle.group_engine.specs.Mounts.{IsMounted, IsReady, IsWhole};
ghost use Rattle.group_engine.specs.Own.{KeepsGroup};
ghost use Rattle.group_engine.specs.Pending.{EndsOn, HasAtMost, StandsThrough, StaysMounted, first_key, without_pending};

use crate::access::Access;
use crate::mounted::Mounted;
use asm_base::{ExtentId, Shape};
use bay::Bay;
use rebalance::{Catalog, FileHead, Layout, extents_for};
use refusal_lines::{DiskRef, Refusal};
use std::alloc::Global;

/// Extents of a chunk.
const CHUNK: u64 = 256;

/// The extents that a file of this head has by its size.
fn extents_of(shape: &Shape, head: &FileHead) -> u64
    requires { IsTrue (is_shape shape.now) }
    ensures { HasSoMany shape.now head.now result }
{
    let layout = Layout {
        au: shape.au as u64,
        step: shape.step,
        stripe: head.stripe,
    };
    extents_for(layout, head.size)
}

/// The extents that a file has by its size: none where it has no head.
fn kept_extents(catalog: &Catalog, file: u32) -> u64
    requires { IsTrue (is_shape catalog.now.shape) }
    ensures { HasAtMost catalog.now.shape (head_at catalog.now.tables.files file) result }
{
    let shape = catalog.shape();
    match catalog.file(file) {
        Some(head) => extents_of(&shape, head),
        None => 0,
    }
}

/// The first chunk from one on, in the order of file and number.
fn chunk_from(catalog: &Catalog, from: (u32, u32)) -> Option<(u32, u32)>
    ensures { result ≡ first_key (chunks_from catalog.now.tables.extents from) }
{
    match catalog.chunks_from(from).next() {
        Some((at, _)) => Some(*at),
        None => None,
    }
}

/// Whether a chunk is there, with extents or without.
fn has_chunk(catalog: &Catalog, file: u32, chunk: u32) -> bool
    requires { AreTables catalog.now.tables }
    ensures { result ≡ is_some (chunk_at catalog.now.tables.extents (file, chunk)) }
{
    match chunk_from(catalog, (file, chunk)) {
        Some(at) => at.0 == file && at.1 == chunk,
        None => false,
    }
}

/// The number after that of the last chunk of a file, and 0 where it has none.
fn chunks_of(catalog: &Catalog, file: u32) -> u32 {
    let mut count = 0;
    for (at, _) in catalog.chunks_from((file, 0)) {
        if at.0 != file {
            return count;
        }
        count = at.1.saturating_add(1);
    }
    count
}

/// Whether a chunk has nothing to cut from a place on: it keeps its first extents, and has no
/// others.
fn is_cut(catalog: &Catalog, file: u32, chunk: u32, from: u32) -> bool {
    let index = chunk as u64 * CHUNK + from as u64;
    if from == 0 || index > u32::MAX as u64 {
        return false;
    }
    let extent = ExtentId {
        file,
        index: index as u32,
    };
    catalog.homes(extent).is_none()
}

/// The place in the last chunk of a file from which its extents may go: None where the chunk isn't
/// the last, or none of them does.
fn cut_of(catalog: &Catalog, file: u32, chunk: u32) -> Option<u32>
    requires shape { IsTrue (is_shape catalog.now.shape) }
    requires tables { AreTables catalog.now.tables }
    ensures { IfSome result (MayCut catalog.now.shape catalog.now.tables file chunk) }
{
    let from = kept_extents(catalog, file).saturating_sub(chunk as u64 * CHUNK);
    if from >= CHUNK || chunk == u32::MAX {
        return None;
    }
    if !has_chunk(catalog, file, chunk) || has_chunk(catalog, file, chunk + 1) {
        return None;
    }
    Some(from as u32)
}

/// Whether each chunk is one of a file that has a head once no operation is pending.
fn may_end(catalog: &Catalog) -> bool
    ensures { OnTrue result (AreOwned (without_pending catalog.now.tables)) }
{
    let _shape = catalog.shape();
    let Some(pending) = catalog.pending() else {
        return true;
    };
    if catalog.file(pending.file).is_some() {
        return true;
    }
    match chunk_from(catalog, (pending.file, 0)) {
        Some(at) => at.0 != pending.file,
        None => true,
    }
}

impl Mounted {
    /// Ends the pending operation, where there is one: the extents that its file hasn't by its size
    /// go, chunk by chunk from the last, and then the operation. What its record says of its kind
    /// and of extents decides nothing. Refusals: Dismounted, where the group is, or as a commit
    /// finds it; NoMemory. After a refusal the group takes no calls: after NoMemory it is closed,
    /// and the next mount ends the operation.
    pub fn end_pending<B: Bay>(&mut self, alloc: Global, bay: &mut B) -> Result<(), Refusal>
        requires whole { IsMounted self.old → IsWhole self.old }
        requires ready { IsMounted self.old → IsReady self.old (B.state bay.old) }
        ensures keeps { KeepsGroup self.old self.new (B.state bay.old) (B.state bay.new) }
        ensures cause { IfErr result (StatusCause self.old self.new (B.state bay.old)
            (B.state bay.new)) }
        // Whatever it answers, the record that holds has the entries and the sets of the one
        // before, and no directory copy more.
        ensures status { KeepsRecord self.old.register.value self.new.register.value }
        // Once it is done, the group takes calls, nothing is pending, and the files have their
        // heads.
        ensures mounted { OnOk result (IsMounted self.new) }
        ensures ended { OnOk result (self.new.catalog.tables.operations.pending ≡ None) }
        ensures files { OnOk result (self.new.catalog.tables.files
            ≡ self.old.catalog.tables.files) }
        ensures names { OnOk result (KeepsNames self.old.catalog.tables self.new.catalog.tables) }
        // The group stays the one that it is: each image of each moment is held for it alone,
        // whatever comes, and once it is done it is mounted.
        ensures moments { StandsThrough self.old (B.state bay.old) (B.state bay.new) }
        ensures done { OnOk result (StaysMounted self.old self.new (B.state bay.old)
            (B.state bay.new)) }
        // Each turn that it takes costs a copy.
        ensures turns { turns_at_most self.new ≤ turns_at_most self.old }
        ensures closed { OnErr result (IsMounted self.new → ⊥) }
    {
        match self.access {
            Access::Mounted => self.end_or_close(alloc, bay),
            Access::Dismounted { disk } => Err(Refusal::Dismounted {
                disk: DiskRef::Number(disk),
            }),
            Access::Closed => Err(Refusal::NoMemory),
        }
    }

    /// Ends the pending operation of a group that takes calls, and closes the group where there is
    /// no memory.
    fn end_or_close<B: Bay>(&mut self, alloc: Global, bay: &mut B) -> Result<(), Refusal>
        requires mounted { IsMounted self.old }
        requires whole { IsWhole self.old }
        requires ready { IsReady self.old (B.state bay.old) }
        ensures ends { EndsOn self.old result self.new (B.state bay.old) (B.state bay.new) }
        ensures ended { OnOk result (self.new.catalog.tables.operations.pending ≡ None) }
        ensures closed { OnErr result (IsMounted self.new → ⊥) }
    {
        match self.end_operation(alloc, bay) {
            Ok(()) => Ok(()),
            Err(Refusal::Dismounted { disk }) => Err(Refusal::Dismounted { disk }),
            Err(_) => {
                self.close();
                Err(Refusal::NoMemory)
            }
        }
    }

    /// Ends the pending operation, where there is one.
    fn end_operation<B: Bay>(&mut self, alloc: Global, bay: &mut B) -> Result<(), Refusal>
        requires mounted { IsMounted self.old }
        requires whole { IsWhole self.old }
        requires ready { IsReady self.old (B.state bay.old) }
        ensures ends { EndsOn self.old result self.new (B.state bay.old) (B.state bay.new) }
        ensures ended { OnOk result (self.new.catalog.tables.operations.pending ≡ None) }
    {
        let Some(pending) = self.catalog().pending() else {
            return Ok(());
        };
        match self.cut_chunks(alloc, bay, pending.file) {
            Ok(()) => self.end_record(alloc, bay),
            Err(refusal) => Err(refusal),
        }
    }

    /// Cuts what a file hasn't by its size, chunk by chunk from the last.
    fn cut_chunks<B: Bay>(&mut self, alloc: Global, bay: &mut B, file: u32) -> Result<(), Refusal>
        requires mounted { IsMounted self.old }
        requires whole { IsWhole self.old }
        requires ready { IsReady self.old (B.state bay.old) }
        ensures { EndsOn self.old result self.new (B.state bay.old) (B.state bay.new) }
    {
        let chunks = chunks_of(self.catalog(), file);
        for i in 0..chunks {
            match self.cut_chunk(alloc, bay, file, chunks - 1 - i) {
                Ok(()) => {}
                Err(refusal) => return Err(refusal),
            }
        }
        Ok(())
    }

    /// Cuts the extents of a chunk that the file hasn't by its size, where it is the last one.
    fn cut_chunk<B: Bay>(
        &mut self,
        alloc: Global,
        bay: &mut B,
        file: u32,
        chunk: u32,
    ) -> Result<(), Refusal>
        requires mounted { IsMounted self.old }
        requires whole { IsWhole self.old }
        requires ready { IsReady self.old (B.state bay.old) }
        ensures { EndsOn self.old result self.new (B.state bay.old) (B.state bay.new) }
    {
        let Some(from) = cut_of(self.catalog(), file, chunk) else {
            return Ok(());
        };
        if is_cut(self.catalog(), file, chunk, from) {
            return Ok(());
        }
        match self.catalog().plan_cut(alloc, file, chunk, from) {
            Ok(change) => self.commit_plan(alloc, bay, &change),
            Err(_) => Err(Refusal::NoMemory),
        }
    }

    /// Takes away the record of the pending operation. Its file is cut by then, so that each chunk
    /// left is one of a file.
    fn end_record<B: Bay>(&mut self, alloc: Global, bay: &mut B) -> Result<(), Refusal>
        requires mounted { IsMounted self.old }
        requires whole { IsWhole self.old }
        requires ready { IsReady self.old (B.state bay.old) }
        ensures ends { EndsOn self.old result self.new (B.state bay.old) (B.state bay.new) }
        ensures ended { OnOk result (self.new.catalog.tables.operations.pending ≡ None) }
    {
        if !may_end(self.catalog()) {
            return Err(Refusal::NoMemory);
        }
        match self.catalog().plan_end(alloc) {
            Ok(change) => self.commit_plan(alloc, bay, &change),
            Err(_) => Err(Refusal::NoMemory),
        }
    }
}
