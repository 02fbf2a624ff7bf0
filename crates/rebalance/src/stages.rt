//! What is due of an extent at each stage of the search for the next move, and what it says.

ghost use Rattle.std.specs.Prelude.{◌≡◌, ◌<◌, ◌≤◌, IsTrue};
ghost use Rattle.std.specs.Option.{option_map, option_or};
ghost use Rattle.asm_group.specs.Shape.{Shape};
ghost use Rattle.asm_formats.specs.Status.{is_status};
ghost use Rattle.asm_placement.specs.TableDisks.{directory_target, status_target};
ghost use Rattle.asm_placement.specs.Rebalancing.{directory, move, next_directory, next_tables, tables};
ghost use Rattle.rebalance.specs.Due.{is_due};
ghost use Rattle.rebalance.specs.Extents.{first_from};
ghost use Rattle.rebalance.specs.Finding.{IsWholeExtent};
ghost use Rattle.rebalance.specs.Moves.{next_meant};
ghost use Rattle.rebalance.specs.Searching.{extent_says};
ghost use Rattle.rebalance.specs.Stages.{answer_at, balancing_at, home_below, home_for, is_due_at, copy_says};

use crate::extent::{has_other_source, has_source, is_stale_online, wants_fill, wants_shift};
use crate::homes::{HomeList, entry_at};
use crate::moves::{Move, Next};
use crate::shares::Shares;
use allocator::Units;
use asm_base::{GroupKind, Home};
use extent_copies::Extent;
use partnership::{
    PstEntry, PstRecord, choose_copy, choose_copy_on, directory_target, status_target,
};

/// The stages of the search in which the extents are asked, in their order. Between `Shift` and
/// `Lost` come the moves of directory copies and of status tables.
#[derive(Clone, Copy, Debug, PartialEq, Eq)]
pub enum Stage {
    /// A stale copy on an Online disk, with a usable copy elsewhere.
    Recopy,
    /// A copy that is absent or on a Forced disk, with a usable copy and a disk that can take it.
    Fill,
    /// In the same way, a copy on a Dropping disk, or one that shares its failure group with an
    /// earlier copy.
    Shift,
    /// No usable copy.
    Lost,
    /// A copy that must go elsewhere and can't.
    NoSpace,
    /// A copy on a disk that is above its share, for which one below it has room.
    Balance,
}

/// The move of a directory copy, or else of the status tables, where one is due.
#[tactic(auto, using(crate::proofs::TableMoves::table_said))]
pub fn said_by_tables(kind: GroupKind, status: &PstRecord) -> Option<Next>
    requires { IsTrue (is_status status.now) }
    ensures { (s : Shape) → s.kind ≡ kind
        → option_map next_meant result
        ≡ option_or (next_directory s status.now) (next_tables s status.now) }
{
    table_move(kind, status)
}

fn table_move(kind: GroupKind, status: &PstRecord) -> Option<Next>
    requires { IsTrue (is_status status.now) }
    ensures { option_map next_meant result
        ≡ option_or (option_map (λ d. move (directory d)) (directory_target kind status.now))
        (option_map (λ to. move (tables to)) (status_target kind status.now)) }
{
    if let Some(to) = directory_target(kind, status) {
        return Some(Next::Move(Move::Directory { to }));
    }
    let to = status_target(kind, status)?;
    Some(Next::Move(Move::Status { to }))
}

/// What the first copy of an extent says at a stage, by its number. `units` has the map of disk k
/// at place k.
pub fn said_first(
    disks: &[PstEntry],
    units: &[Units],
    shares: &Shares,
    extent: &Extent,
    stage: Stage,
) -> Option<Next>
    requires copies { extent.now.copies ≤ 3 }
    requires long { 0 < extent.now.units }
    ensures { option_map next_meant result
        ≡ first_from (copy_says stage disks.now units.now shares.now extent.now) 0
        extent.now.copies }
{
    let asked = AskedExtent {
        disks,
        units,
        shares,
        extent,
    };
    asked.first_said(stage)
}

/// An extent, and what it is asked by: `units` has the map of disk k at place k.
#[derive(Clone, Copy)]
pub struct AskedExtent<'a> {
    pub disks: &'a [PstEntry],
    pub units: &'a [Units],
    pub shares: &'a Shares,
    pub extent: &'a Extent,
}

impl AskedExtent<'_> {
    /// Whether something is due of a copy of it.
    #[tactic(auto, using(crate::proofs::Verdicts::any_more, crate::proofs::Verdicts::any_found, crate::proofs::Verdicts::any_start, crate::proofs::Verdicts::any_end))]
    pub fn is_due(&self, stage: Stage) -> bool
        requires { IsWholeExtent self.now.extent.now }
        ensures { result ≡ is_due stage self.now.disks.now self.now.units.now self.now.shares.now
            self.now.extent.now }
    {
        for copy in 0..self.extent.copies {
            if self.is_due_at(stage, copy) {
                return true;
            }
        }
        false
    }

    /// What the first of its copies says.
    #[tactic(auto, using(crate::proofs::Verdicts::said_more, crate::proofs::Verdicts::said_found, crate::proofs::Verdicts::said_start, crate::proofs::Verdicts::said_end))]
    pub fn first_said(&self, stage: Stage) -> Option<Next>
        requires { IsWholeExtent self.now.extent.now }
        ensures { option_map next_meant result
            ≡ extent_says stage self.now.disks.now self.now.units.now self.now.shares.now
            self.now.extent.now }
    {
        for copy in 0..self.extent.copies {
            let next = self.said_by(stage, copy);
            if next.is_some() {
                return next;
            }
        }
        None
    }

    /// What a copy says: nothing where nothing is due.
    fn said_by(&self, stage: Stage, copy: u8) -> Option<Next>
        requires number { copy < 3 }
        requires whole { IsWholeExtent self.now.extent.now }
        ensures { option_map next_meant result
            ≡ copy_says stage self.now.disks.now self.now.units.now self.now.shares.now
            self.now.extent.now copy }
    {
        if self.is_due_at(stage, copy) {
            self.answer(stage, copy)
        } else {
            None
        }
    }

    /// Whether a copy lacks what the stage is about, whether or not a disk has room for it.
    fn is_due_at(&self, stage: Stage, copy: u8) -> bool
        requires number { copy < 3 }
        requires whole { IsWholeExtent self.now.extent.now }
        ensures { result ≡ is_due_at stage self.now.disks.now self.now.units.now self.now.shares.now
            self.now.extent.now copy }
    {
        let disks = self.disks;
        let extent = self.extent;
        match stage {
            Stage::Recopy => {
                is_stale_online(disks, extent, copy) && has_other_source(disks, extent, copy)
            }
            Stage::Fill => wants_fill(disks, extent, copy) && has_source(disks, extent),
            Stage::Shift => wants_shift(disks, extent, copy) && has_source(disks, extent),
            Stage::Lost => !has_source(disks, extent),
            Stage::NoSpace => wants_fill(disks, extent, copy) || wants_shift(disks, extent, copy),
            Stage::Balance => self.balancing(copy).is_some(),
        }
    }

    /// What is said of a copy of which something is due.
    fn answer(&self, stage: Stage, copy: u8) -> Option<Next>
        requires { IsWholeExtent self.now.extent.now }
        ensures { option_map next_meant result
            ≡ answer_at stage self.now.disks.now self.now.units.now self.now.shares.now
            self.now.extent.now copy }
    {
        let x = self.extent.id;
        match stage {
            Stage::Recopy => Some(Next::Move(Move::Recopy { x, copy })),
            Stage::Fill => {
                let to = self.new_home(copy)?;
                Some(Next::Move(Move::Fill { x, copy, to }))
            }
            Stage::Shift => {
                let to = self.new_home(copy)?;
                Some(Next::Move(Move::Shift { x, copy, to }))
            }
            Stage::Lost => Some(Next::Lost(x)),
            Stage::NoSpace => match self.new_home(copy) {
                Some(_) => None,
                None => Some(Next::NoSpace(x)),
            },
            Stage::Balance => {
                let to = self.balancing(copy)?;
                Some(Next::Move(Move::Shift { x, copy, to }))
            }
        }
    }

    /// The home that a copy gets in place of its own.
    fn new_home(&self, copy: u8) -> Option<Home>
        requires { 0 < self.now.extent.now.units }
        ensures { result ≡ home_for self.now.disks.now self.now.units.now self.now.extent.now copy }
    {
        let disks = self.disks;
        let extent = self.extent;
        let kept = HomeList::kept(disks, &extent.homes, copy);
        let held = HomeList::held(&extent.homes);
        choose_copy(
            disks,
            self.units,
            kept.as_slice(),
            held.as_slice(),
            extent.units,
        )
    }

    /// The home to which a copy shifts to balance the disks, where its own is on a disk above its
    /// share: on one below.
    fn balancing(&self, copy: u8) -> Option<Home>
        requires { 0 < self.now.extent.now.units }
        ensures { result ≡ balancing_at self.now.disks.now self.now.units.now self.now.shares.now
            self.now.extent.now copy }
    {
        let extent = self.extent;
        let disk = entry_at(self.disks, extent.home(copy))?;
        if !self.shares.is_above(self.units, disk.number, extent.units) {
            return None;
        }
        self.home_below(copy)
    }

    /// The home that a copy gets on a disk below its share.
    fn home_below(&self, copy: u8) -> Option<Home>
        requires { 0 < self.now.extent.now.units }
        ensures { result ≡ home_below self.now.disks.now self.now.units.now self.now.shares.now
            self.now.extent.now copy }
    {
        let disks = self.disks;
        let units = self.units;
        let extent = self.extent;
        let kept = HomeList::kept(disks, &extent.homes, copy);
        let held = HomeList::held(&extent.homes);
        let below = self.shares.below(units, extent.units);
        choose_copy_on(
            disks,
            units,
            kept.as_slice(),
            held.as_slice(),
            below,
            extent.units,
        )
    }
}
