// What a group does between two commands, in its turn: expired disks are dropped before a command's
// text, slices run after its reply.
ghost use Rattle.std.specs.Prelude.{◌≡◌};
ghost use Rattle.disk_modes.specs.group_engine.Members.{LetsGo};
ghost use Rattle.disk_modes.specs.group_engine.Mounts.{IsMounted, Takes};
ghost use Rattle.group_turns.specs.Turns.{IsLineOf, OnEvent, OnIdle, OnWork, when_of};

use crate::expiring::drop_expired;
use crate::slicing::{rebalance_slice, resync_slice};
use bay::Bay;
use disk_modes::Mounted;
use line_buffer::LineBuffer;
use std::alloc::Global;

/// What a group does next.
#[derive(Clone, Copy, Debug)]
pub enum Turn {
    /// An expired disk is dropped, at a time in seconds.
    Expiry { now: u64 },
    /// A slice of the resync of its least Syncing disk.
    Resync,
    /// A slice of its rebalance.
    Rebalance,
}

/// How a turn ended.
#[derive(Clone, Copy, Debug)]
pub enum Turned {
    /// Nothing was due, and nothing was done.
    Idle,
    /// An event came, whose line was written.
    Happened,
    /// There was no memory for what was due.
    NoMemory,
}

/// Takes a turn of a group, and writes the line of what happened. For a group that takes no calls
/// nothing is due.
pub fn take_turn<B: Bay>(
    m: &mut Mounted,
    alloc: Global,
    bay: &mut B,
    turn: Turn,
    line: &mut LineBuffer,
) -> Turned
    requires takes { Takes m.old (B.state bay.old) }
    ensures idle { OnIdle result ((m.new ≡ m.old) × (bay.new ≡ bay.old)) }
    ensures lets { OnWork result (IsMounted m.old
        × LetsGo m.old m.new (B.state bay.old) (B.state bay.new)) }
    ensures line { OnEvent result (IsLineOf m.old.name (when_of turn) line.new) }
{
    if !m.is_mounted() {
        return Turned::Idle;
    }
    match turn {
        Turn::Expiry { now } => drop_expired(m, alloc, bay, now, line),
        Turn::Resync => resync_slice(m, alloc, bay, line),
        Turn::Rebalance => rebalance_slice(m, alloc, bay, line),
    }
}
