// Turns of groups, with a line of each event: expired disks are dropped before a command's text,
// slices run after its reply.
ghost use Rattle.std.specs.Prelude.{◌≡◌};
ghost use Rattle.serving.specs.Programs.{TellsTurns};
ghost use Rattle.disk_commands.specs.session.Sessions.{AreReady};
ghost use Rattle.disk_commands.specs.group_turns.Turns.{AfterReply, BeforeText, when_of};

use crate::manner::tell_event;
use crate::program::Program;
use crate::stop::Stop;
use bay::{Bay, Clock, Fault, Host, Sink};
use disk_commands::{Turn, Turned};
use line_buffer::LineBuffer;

/// The most disks that a group has, so the most that expire in one.
const MAX_DISKS: usize = 64;

impl<B: Bay, H: Host, K: Sink, C: Clock> Program<B, H, K, C> {
    /// Takes a turn of the group at a place in the order of mounting, and prints the line of what
    /// happened. Says whether something was due. It takes no memory of its own.
    fn take_turn(&mut self, place: usize, turn: Turn) -> Result<bool, Stop>
        requires ready { AreReady self.old.desk.session.groups (B.state self.old.desk.bay) }
        ensures { TellsTurns result (when_of turn) self.old self.new }
    {
        let mut line = LineBuffer::new();
        match self.desk.session.turn(self.desk.alloc, &mut self.desk.bay, place, turn, &mut line) {
            Turned::Idle => Ok(false),
            Turned::Happened => match tell_event(&mut self.sink, self.manner, line.as_bytes()) {
                Ok(()) => Ok(true),
                Err(Fault) => Err(Stop::WriteFault),
            },
            Turned::NoMemory => Err(Stop::NoMemory),
        }
    }

    /// Drops the disks of a group whose time is up and that may go, the least first.
    fn expire_group(&mut self, place: usize) -> Result<(), Stop>
        requires ready { AreReady self.old.desk.session.groups (B.state self.old.desk.bay) }
        ensures { TellsTurns result BeforeText self.old self.new }
    {
        let now = self.desk.session.time();
        for _ in 0..MAX_DISKS {
            if !self.take_turn(place, Turn::Expiry { now })? {
                break;
            }
        }
        Ok(())
    }

    /// Drops the expired disks of each mounted group, in the order of mounting.
    pub fn expire_groups(&mut self) -> Result<(), Stop>
        requires ready { AreReady self.old.desk.session.groups (B.state self.old.desk.bay) }
        ensures { TellsTurns result BeforeText self.old self.new }
    {
        for place in 0..self.desk.session.count() {
            self.expire_group(place)?;
        }
        Ok(())
    }

    /// Runs a slice of the resync of a group and then one of its rebalance, so that a disk which
    /// the first brings back is seen by the second.
    fn slice_group(&mut self, place: usize) -> Result<(), Stop>
        requires ready { AreReady self.old.desk.session.groups (B.state self.old.desk.bay) }
        ensures { TellsTurns result AfterReply self.old self.new }
    {
        self.take_turn(place, Turn::Resync)?;
        self.take_turn(place, Turn::Rebalance)?;
        Ok(())
    }

    /// Runs the slices that are due in each mounted group, in the order of mounting.
    pub fn slice_groups(&mut self) -> Result<(), Stop>
        requires ready { AreReady self.old.desk.session.groups (B.state self.old.desk.bay) }
        ensures { TellsTurns result AfterReply self.old self.new }
    {
        for place in 0..self.desk.session.count() {
            self.slice_group(place)?;
        }
        Ok(())
    }
}
