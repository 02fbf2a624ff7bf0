// A group of the session takes its turn.
ghost use Rattle.std.specs.Prelude.{◌≡◌};
ghost use Rattle.session.specs.Naming.{CarriesOn};
ghost use Rattle.session.specs.Sessions.{AreReady};
ghost use Rattle.group_turns.specs.Turns.{HasLine, OnEvent, OnIdle, OnWork, when_of};

use crate::session::Session;
use bay::Bay;
use group_turns::{Turn, Turned, take_turn};
use line_buffer::LineBuffer;
use std::alloc::Global;

impl Session {
    /// How many groups there are, mounted or not.
    pub fn count(&self) -> usize {
        self.groups.len()
    }

    /// Takes a turn of the group at a place in the order of mounting, from 0, and writes the line
    /// of what happened.
    pub fn turn<B: Bay>(
        &mut self,
        alloc: Global,
        bay: &mut B,
        place: usize,
        turn: Turn,
        line: &mut LineBuffer,
    ) -> Turned
        requires ready { AreReady self.old.groups (B.state bay.old) }
        ensures idle { OnIdle result ((self.new ≡ self.old) × (bay.new ≡ bay.old)) }
        ensures carries { OnWork result (CarriesOn self.old self.new (B.state bay.old)
            (B.state bay.new)) }
        ensures line { OnEvent result (HasLine self.old.groups (when_of turn) line.new) }
    {
        match self.groups.get_index_mut(place) {
            Some(entry) => take_turn(&mut entry.group, alloc, bay, turn, line),
            None => Turned::Idle,
        }
    }
}
