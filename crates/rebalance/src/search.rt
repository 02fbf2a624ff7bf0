//! The walk through the extents of a group, for what is due at a stage and for what is said.

ghost use Rattle.std.specs.Prelude.{◌≡◌, ◌<◌, ◌≤◌, ◌+◌, ◌^◌, IfSome, length};
ghost use Rattle.std.specs.Option.{option_map};
ghost use Rattle.catalog_laws.specs.catalog_tables.Faults.{IsCatalog};
ghost use Rattle.catalog_laws.specs.extent_map.Extents.{chunks_from};
ghost use Rattle.rebalance.specs.Due.{first_due_of, is_due_in};
ghost use Rattle.rebalance.specs.Finding.{IsWholeExtent, found_from, found_in_chunk, found_of_extents, found_there, is_as_asked};
ghost use Rattle.rebalance.specs.Moves.{next_meant};
ghost use Rattle.rebalance.specs.Searching.{says_of};
ghost use Rattle.rebalance.specs.Sums.{sums_at};

use crate::extent::extent_of;
use crate::moves::Next;
use crate::shares::Shares;
use crate::stages::{AskedExtent, Stage};
use asm_base::{ExtentId, Homes};
use catalog_laws::{Catalog, has_home};
use extent_copies::Extent;
use partnership::{PstEntry, PstRecord};

/// What is asked of an extent at a stage of the search for the next move.
#[derive(Clone, Copy)]
pub enum Asked {
    /// Whether it lacks what the stage is about, whether or not a disk has room.
    Due(Stage),
    /// Whether it says something.
    Says(Stage),
}

/// An extent of which that is so, and its chunk, by file and number.
#[derive(Clone, Copy)]
pub struct Found {
    pub at: (u32, u32),
    pub extent: Extent,
}

/// A group whose extents are asked, in the order of file and index.
#[derive(Clone, Copy)]
pub struct Search<'a> {
    pub catalog: &'a Catalog,
    pub disks: &'a [PstEntry],
    pub shares: Shares,
}

impl<'a> Search<'a> {
    /// Asks the extents of a group by its tables, the maps of its units and its status record.
    pub fn of(catalog: &'a Catalog, status: &'a PstRecord) -> Search<'a>
        ensures catalog { result.catalog.now ≡ catalog.now }
        ensures disks { result.disks.now ≡ status.now.entries }
        ensures shares { result.shares ≡ sums_at catalog.now.units status.now.entries }
        ensures rules { IsCatalog catalog.now }
    {
        Search {
            catalog,
            disks: status.entries(),
            shares: Shares::of(status, catalog.units()),
        }
    }
}

impl Search<'_> {
    /// The first chunk from one on in which something is due at a stage.
    pub fn first_due(&self, stage: Stage, first: (u32, u32)) -> Option<(u32, u32)>
        ensures due { result ≡ first_due_of stage self.now.disks.now self.now.catalog.now
            self.now.shares (chunks_from self.now.catalog.now.tables.extents first) }
    {
        let found = self.first_from(Asked::Due(stage), first)?;
        Some(found.at)
    }

    /// What the first extent of the chunks from one on says at a stage.
    pub fn first_said(&self, stage: Stage, first: (u32, u32)) -> Option<Next>
        ensures said { option_map next_meant result
            ≡ says_of stage self.now.disks.now self.now.catalog.now self.now.shares
            (chunks_from self.now.catalog.now.tables.extents first) }
    {
        let found = self.first_from(Asked::Says(stage), first)?;
        self.asked_of(&found.extent).first_said(stage)
    }

    /// Whether something is due in a chunk, where its file has a head. Where nothing is due,
    /// nothing is said.
    pub fn is_due_in(&self, stage: Stage, at: (u32, u32), extents: &[Homes]) -> bool
        requires { length extents.now ≤ 256 }
        ensures { result ≡ is_due_in stage self.now.disks.now self.now.catalog.now self.now.shares
            (at, extents.now) }
    {
        self.first_in(Asked::Due(stage), at, extents).is_some()
    }

    /// The first extent of the chunks from one on of which it is so.
    fn first_from(&self, asked: Asked, first: (u32, u32)) -> Option<Found>
        ensures found { result ≡ found_from asked self.now.disks.now self.now.catalog.now
            self.now.shares (chunks_from self.now.catalog.now.tables.extents first) }
        ensures whole { IfSome result (λ found. IsWholeExtent found.extent) }
    {
        for (at, chunk) in self.catalog.chunks_from(first) {
            if let Some(extent) = self.first_in(asked, *at, chunk.as_slice()) {
                return Some(Found { at: *at, extent });
            }
        }
        None
    }

    /// The first extent of a chunk, where its file has a head.
    fn first_in(&self, asked: Asked, at: (u32, u32), extents: &[Homes]) -> Option<Extent>
        requires { length extents.now ≤ 256 }
        ensures found { result ≡ found_in_chunk asked self.now.disks.now self.now.catalog.now
            self.now.shares (at, extents.now) }
        ensures whole { IfSome result IsWholeExtent }
    {
        match self.catalog.copies_of(at.0) {
            Some(copies) => self.first_in_row(asked, at.0, copies, at.1 as u64 * 256, extents),
            None => None,
        }
    }

    /// The first of some extents of a file, that have the numbers from one on.
    fn first_in_row(
        &self,
        asked: Asked,
        file: u32,
        copies: u8,
        first: u64,
        extents: &[Homes],
    ) -> Option<Extent>
        requires copies { copies ≤ 3 }
        requires numbers { first + length extents.now < 2 ^ 63 }
        ensures found { result ≡ found_of_extents
            (is_as_asked asked self.now.disks.now self.now.catalog.now.units self.now.shares)
            self.now.catalog.now.shape self.now.catalog.now.tables file copies first extents.now }
        ensures whole { IfSome result IsWholeExtent }
    {
        let mut index = first;
        for homes in extents {
            let found = self.found_at(asked, file, copies, index, homes);
            if found.is_some() {
                return found;
            }
            index += 1;
        }
        None
    }

    /// The extent of a number, where it is there and it is so.
    fn found_at(
        &self,
        asked: Asked,
        file: u32,
        copies: u8,
        index: u64,
        homes: &Homes,
    ) -> Option<Extent>
        requires { copies ≤ 3 }
        ensures found { result ≡ found_there (is_as_asked asked self.now.disks.now
            self.now.catalog.now.units self.now.shares) self.now.catalog.now.shape
            self.now.catalog.now.tables file copies index homes.now }
        ensures whole { IfSome result IsWholeExtent }
    {
        // An extent that is there has a number of 32 bits, since it has units of its own.
        if !has_home(homes) || index > u32::MAX as u64 {
            return None;
        }
        let id = ExtentId {
            file,
            index: index as u32,
        };
        let extent = extent_of(self.catalog, id, copies, homes);
        if self.passes(asked, &extent) {
            Some(extent)
        } else {
            None
        }
    }

    /// Whether it is so of an extent.
    #[tactic(auto, using(crate::proofs::Finding::said_some))]
    fn passes(&self, asked: Asked, extent: &Extent) -> bool
        requires { IsWholeExtent extent.now }
        ensures { result ≡ is_as_asked asked self.now.disks.now self.now.catalog.now.units
            self.now.shares extent.now }
    {
        match asked {
            Asked::Due(stage) => self.asked_of(extent).is_due(stage),
            Asked::Says(stage) => self.asked_of(extent).first_said(stage).is_some(),
        }
    }

    fn asked_of<'a>(&'a self, extent: &'a Extent) -> AskedExtent<'a>
        ensures disks { result.disks.now ≡ self.now.disks.now }
        ensures units { result.units.now ≡ self.now.catalog.now.units }
        ensures shares { result.shares.now ≡ self.now.shares }
        ensures extent { result.extent.now ≡ extent.now }
    {
        AskedExtent {
            disks: self.disks,
            units: self.catalog.units(),
            shares: &self.shares,
            extent,
        }
    }
}
