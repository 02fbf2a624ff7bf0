// One command after another: its reply and its mark.
ghost use Rattle.std.specs.Prelude.{◌≡◌, ℕ, ◌<◌, ◌≤◌, false, [], length, map, vec_len, vec_capacity};
ghost use Rattle.std.specs.String.{string_bytes};
ghost use Rattle.asm_world.specs.Language.{command_of};
ghost use Rattle.disk_commands.specs.session.Desks.{is_copy_command, paths_on};
ghost use Rattle.disk_commands.specs.session.Sessions.{AreReady};
ghost use Rattle.serving.specs.Programs.{EachWorld, AnswersOne, RunsOne};
ghost use Rattle.serving.specs.Stops.{StopsByOutput};

use crate::commands::run_text;
use crate::manner::{Manner, tell_reply};
use crate::printing::{is_no_memory, is_refusal};
use crate::program::Program;
use crate::stop::Stop;
use bay::{Bay, Clock, Fault, Host, Sink};
use disk_commands::{Desk, Session};
use std::alloc::Global;

impl<B: Bay, H: Host, K: Sink, C: Clock> Program<B, H, K, C> {
    /// No group is in the session, and nothing was answered. Texts will be told in this manner.
    pub fn new(
        alloc: Global,
        bay: B,
        host: H,
        sink: K,
        clock: C,
        paths: Vec<String>,
        manner: Manner,
    ) -> Program<B, H, K, C>
        requires few { length paths.items ≤ 512 }
        ensures session { (result.desk.session.entries ≡ []) × (result.desk.session.given ≡ 0) }
        ensures groups { result.desk.session.groups ≡ [] }
        ensures place { result.desk.session.place ≡ [] }
        ensures ready { AreReady result.desk.session.groups (B.state result.desk.bay) }
        ensures marks { result.marks.items ≡ [] }
        ensures refused { result.refused ≡ false }
        ensures manner { result.manner ≡ manner }
        ensures bay { result.desk.bay ≡ bay }
        ensures host { result.desk.host ≡ host }
        ensures sink { result.sink ≡ sink }
        ensures clock { result.clock ≡ clock }
        ensures paths { paths_on result.desk ≡ map string_bytes paths.items }
    {
        Program {
            desk: Desk {
                alloc,
                session: Session::new(alloc),
                bay,
                host,
                paths,
            },
            sink,
            clock,
            marks: Vec::new(alloc),
            refused: false,
            manner,
        }
    }

    /// Runs a command and prints its reply. There is room for its mark.
    fn answer(&mut self, text: &[u8]) -> Result<(), Stop>
        requires room { vec_len self.old.marks < vec_capacity self.old.marks }
        requires ready { AreReady self.old.desk.session.groups (B.state self.old.desk.bay) }
        ensures ready { AreReady self.new.desk.session.groups (B.state self.new.desk.bay) }
        ensures paths { paths_on self.new.desk ≡ paths_on self.old.desk }
        ensures host { is_copy_command (command_of text.now) ≡ false
            → self.new.desk.host ≡ self.old.desk.host }
        ensures answers { EachWorld self.old (AnswersOne result text.now self.old self.new) }
        ensures cause { StopsByOutput result (K.faults self.old.sink) (K.faults self.new.sink) }
    {
        let answer = run_text(&mut self.desk, text);
        let (reply, printed) = tell_reply(
            self.desk.alloc,
            &mut self.sink,
            self.manner,
            answer.reply,
        );
        self.manner = self.manner.after_reply();
        self.refused |= is_refusal(&reply);
        let mark = self.desk.bay.calls();
        match printed {
            Ok(()) => {
                let _ = self.marks.push(mark);
            }
            Err(Fault) => return Err(Stop::WriteFault),
        }
        if is_no_memory(&reply) {
            return Err(Stop::NoMemory);
        }
        Ok(())
    }

    /// Runs one command whole: the clock is read, expired disks are dropped, the command runs and
    /// its reply is printed, then slices of resync and rebalance run. The memory for its mark is
    /// taken first, so that no line stands before a command that gets no reply for want of that.
    pub fn run_command(&mut self, text: &[u8]) -> Result<(), Stop>
        requires ready { AreReady self.old.desk.session.groups (B.state self.old.desk.bay) }
        ensures ready { AreReady self.new.desk.session.groups (B.state self.new.desk.bay) }
        ensures paths { paths_on self.new.desk ≡ paths_on self.old.desk }
        ensures host { is_copy_command (command_of text.now) ≡ false
            → self.new.desk.host ≡ self.old.desk.host }
        ensures runs { EachWorld self.old (RunsOne result text.now self.old self.new) }
        ensures cause { StopsByOutput result (K.faults self.old.sink) (K.faults self.new.sink) }
    {
        self.marks.reserve(1)?;
        let time = self.clock.now();
        self.desk.session.see(time);
        self.expire_groups()?;
        self.answer(text)?;
        self.slice_groups()
    }
}
