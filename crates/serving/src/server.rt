// A script is read piece by piece. Each command is run as soon as its end was read, so that a user
// at a terminal is answered line by line.
ghost use Rattle.std.specs.Prelude.{◌≡◌, ℕ, ◌≤◌, false, List, [], OnOk, IsErrOf, length, drop};
ghost use Rattle.std.specs.Io.KnownBytes.{Consumes};
ghost use Rattle.bay.specs.Counts.{Rose};
ghost use Rattle.script.specs.Script.{cut};
ghost use Rattle.script.specs.Scanning.{place_of_state, IsCutterOf};
ghost use Rattle.disk_commands.specs.session.Desks.{paths_on};
ghost use Rattle.disk_commands.specs.session.Sessions.{AreReady};
ghost use Rattle.serving.specs.Programs.{EachWorld, AnswersEnded, AnswersLast, ServesAll};
ghost use Rattle.serving.specs.Stops.{StopsByOutput};
ghost use Rattle.serving.specs.Serves.{IsReadPiece, StopsByInput};

use crate::program::Program;
use crate::stop::Stop;
use bay::{Bay, Clock, Fault, Host, Sink, Source};
use script::{Cutter, goes_on_with_more};

/// The most bytes that a script may have.
pub const LIMIT: usize = 67_108_864;

const PIECE: usize = 65_536;

/// Reads a piece of the script, of which so many bytes more are allowed. 0 says that it is at its
/// end.
fn read_more<S: Source>(source: &mut S, pending: &mut Vec<u8>, room: usize) -> Result<usize, Stop>
    ensures taken { (taken : List ℕ) × Consumes (S.left source.old) (S.left source.new) taken
        × IsReadPiece result room taken pending.old.items pending.new.items (S.left source.new) }
    ensures cause { StopsByInput result (S.faults source.old) (S.faults source.new) }
{
    let mut piece = [0; PIECE];
    let want = room.clamp(1, PIECE);
    let count = match source.read(&mut piece[..want]) {
        Ok(count) => count,
        Err(Fault) => return Err(Stop::ReadFault),
    };
    if room < count {
        return Err(Stop::TooLong);
    }
    pending.extend_from_slice(&piece[..count])?;
    Ok(count)
}

fn remove_front(bytes: &mut Vec<u8>, count: usize)
    requires { count ≤ length bytes.old.items }
    ensures { bytes.new.items ≡ drop count bytes.old.items }
{
    bytes.drain(..count);
}

impl<B: Bay, H: Host, K: Sink, C: Clock> Program<B, H, K, C> {
    /// Reads a script to its end and answers its commands.
    pub fn serve<S: Source>(&mut self, source: &mut S) -> Result<(), Stop>
        requires ready { AreReady self.old.desk.session.groups (B.state self.old.desk.bay) }
        ensures ready { AreReady self.new.desk.session.groups (B.state self.new.desk.bay) }
        ensures serves { EachWorld self.old (ServesAll result
            (S.left source.old) (S.left source.new) self.old self.new) }
        ensures input { StopsByInput result (S.faults source.old) (S.faults source.new) }
        ensures output { IsErrOf result Stop.WriteFault
            → Rose (K.faults self.old.sink) (K.faults self.new.sink) }
    {
        let mut pending = Vec::new(self.desk.alloc);
        let mut cutter = Cutter::new();
        let mut taken = 0;
        loop {
            let count = read_more(source, &mut pending, LIMIT - taken)?;
            if count == 0 {
                break;
            }
            taken += count;
            // the cutter stands where it stood, with the piece behind what it has seen
            goes_on_with_more();
            self.answer_ended(&mut cutter, &mut pending)?;
        }
        self.answer_last(cutter, &pending)
    }

    /// Answers the commands whose ends are among the pending bytes, and drops these and what is
    /// skipped behind them.
    fn answer_ended(&mut self, cutter: &mut Cutter, pending: &mut Vec<u8>) -> Result<(), Stop>
        requires stands { IsCutterOf pending.old.items cutter.old }
        requires ready { AreReady self.old.desk.session.groups (B.state self.old.desk.bay) }
        ensures ready { AreReady self.new.desk.session.groups (B.state self.new.desk.bay) }
        ensures paths { paths_on self.new.desk ≡ paths_on self.old.desk }
        ensures answers { EachWorld self.old (AnswersEnded result
            (place_of_state cutter.old.from) (place_of_state cutter.new.from) pending.old.items pending.new.items self.old self.new) }
        ensures stands { OnOk result (IsCutterOf pending.new.items cutter.new) }
        ensures none { OnOk result (cut false (place_of_state cutter.new.from) pending.new.items
            ≡ []) }
        ensures cause { StopsByOutput result (K.faults self.old.sink) (K.faults self.new.sink) }
    {
        let mut done = 0;
        while let Some(span) = cutter.next(&pending[done..]) {
            let from = done + span.at as usize;
            let to = from + span.len as usize;
            self.run_command(&pending[from..to])?;
            done = to;
        }
        let skipped = done + cutter.start;
        remove_front(pending, skipped);
        *cutter = cutter.without_gap();
        Ok(())
    }

    /// Answers the commands that the end of the script ends.
    fn answer_last(&mut self, cutter: Cutter, pending: &[u8]) -> Result<(), Stop>
        requires stands { IsCutterOf pending.now cutter }
        requires ready { AreReady self.old.desk.session.groups (B.state self.old.desk.bay) }
        ensures ready { AreReady self.new.desk.session.groups (B.state self.new.desk.bay) }
        ensures paths { paths_on self.new.desk ≡ paths_on self.old.desk }
        ensures answers { EachWorld self.old (AnswersLast result
            (place_of_state cutter.from) pending.now self.old self.new) }
        ensures cause { StopsByOutput result (K.faults self.old.sink) (K.faults self.new.sink) }
    {
        let mut cutter = cutter;
        let mut done = 0;
        while let Some(span) = cutter.last(&pending[done..]) {
            let from = done + span.at as usize;
            let to = from + span.len as usize;
            self.run_command(&pending[from..to])?;
            done = to;
            cutter = Cutter::new();
        }
        Ok(())
    }
}
