// What a slice does next.
ghost use Rattle.std.specs.Prelude.{◌≡◌, IsTrue};
ghost use Rattle.asm_group.specs.Shape.{is_shape};
ghost use Rattle.resync.specs.group_engine.Mounts.{IsMounted, IsWhole, Takes};
ghost use Rattle.resync.specs.group_engine.Members.{LetsGo};
ghost use Rattle.resync.specs.group_engine.Searches.{IsNextMove};
ghost use Rattle.relocation.specs.Shortfalls.{EndCause, IsNoEnd, OnEnd};

use crate::fitting::{can_go_on, home_of};
use asm_base::{DiskSet, ExtentId, Home};
use bay::Bay;
use resync::{Flight, Mounted, Move, Next};

/// How a slice of a rebalance ends.
#[derive(Clone, Copy, Debug, PartialEq, Eq)]
pub enum Slice {
    /// All steps of the slice are done, and something is left to do.
    More,
    /// Nothing is left to do.
    Done,
    /// No disk can take a copy of this extent that is to be elsewhere.
    NoSpace(ExtentId),
    /// This extent has no usable copy.
    Lost(ExtentId),
}

/// What comes next.
#[derive(Clone, Copy)]
pub(crate) enum Asked {
    /// Bytes of this move are copied.
    Copy { flight: Flight },
    /// The disk gets a directory copy.
    Directory { to: u8 },
    /// The status tables move to these disks.
    Status { to: DiskSet },
    /// The rebalance ends.
    End { end: Slice },
    /// What comes next can't be told. It doesn't come: the tables of a group that takes calls keep
    /// the rules.
    Unknown,
}

/// What comes next: the move that is on its way goes on, or is given up where it can't; else it is
/// the next one.
pub(crate) fn ask<B: Bay>(m: &mut Mounted, bay: &B) -> Asked
    requires mounted { IsMounted m.old }
    requires takes { Takes m.old (B.state bay.now) }
    ensures lets { LetsGo m.old m.new (B.state bay.now) (B.state bay.now) }
    ensures mounted { IsMounted m.new }
    ensures end { OnEnd result (EndCause m.new) }
{
    match going_on(m) {
        Some(flight) => Asked::Copy { flight },
        None => {
            m.set_flight(None);
            next_asked(m)
        }
    }
}

/// The move that is on its way, where it can go on.
fn going_on(m: &Mounted) -> Option<Flight>
    requires shape { IsTrue (is_shape m.now.catalog.shape) }
{
    match m.in_flight() {
        None => None,
        Some(flight) => {
            if can_go_on(m, flight) {
                return m.in_flight();
            }
            None
        }
    }
}

/// What comes next where no move is on its way.
fn next_asked(m: &mut Mounted) -> Asked
    requires whole { IsWhole m.old }
    ensures same { m.new ≡ m.old }
    ensures end { OnEnd result (EndCause m.old) }
{
    match m.next_move() {
        Some(next) => asked_of(m, next),
        None => Asked::Unknown,
    }
}

/// The next move, or the end, as a slice asks it.
fn asked_of(m: &Mounted, next: Next) -> Asked
    requires next { IsNextMove m.now.catalog m.now.register.value next }
    ensures end { OnEnd result (EndCause m.now) }
{
    match next {
        Next::Move(next) => begun(m, next),
        Next::Done => Asked::End { end: Slice::Done },
        Next::NoSpace(x) => Asked::End {
            end: Slice::NoSpace(x),
        },
        Next::Lost(x) => Asked::End {
            end: Slice::Lost(x),
        },
    }
}

/// The beginning of a move.
fn begun(m: &Mounted, next: Move) -> Asked
    ensures { IsNoEnd result }
{
    match next {
        Move::Recopy { x, copy } => match home_of(m.catalog(), x, copy) {
            Some(to) => copying(x, copy, to),
            None => Asked::Unknown,
        },
        Move::Fill { x, copy, to } => copying(x, copy, to),
        Move::Shift { x, copy, to } => copying(x, copy, to),
        Move::Directory { to } => Asked::Directory { to },
        Move::Status { to } => Asked::Status { to },
    }
}

/// The move of a copy, of which nothing is copied yet.
fn copying(x: ExtentId, copy: u8, to: Home) -> Asked
    ensures { IsNoEnd result }
{
    Asked::Copy {
        flight: Flight {
            x,
            copy,
            to,
            copied: 0,
        },
    }
}
