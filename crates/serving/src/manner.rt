// How replies and event lines are told: in full, or short under `--generate`.
ghost use Rattle.std.specs.Prelude.{◌≡◌, ◌≤◌, ◌∷◌, [], OnErr};
ghost use Rattle.bay.specs.Counts.{Rose};
ghost use Rattle.bay.specs.Streams.{AppendsAll};
ghost use Rattle.asm_world.specs.Run.{reply_in};
ghost use Rattle.asm_world.specs.Text.{reply_text, short_text};
ghost use Rattle.serving.specs.Manners.{after_reply, line_in, reply_style};
ghost use Rattle.serving.specs.Stops.{IsReplyOrNoMemory};
ghost use Rattle.disk_commands.specs.session.Views.{reply_view};

use crate::printing::print_reply;
use bay::{Fault, Sink, write_all};
use disk_commands::Reply;
use event_lines::Outcome;
use std::alloc::Global;

/// How the texts of a run are told.
#[derive(Clone, Copy, Debug, PartialEq, Eq)]
pub enum Manner {
    /// Each in full.
    InFull,
    /// So many commands are left. The reply to each but the last is one byte, the last reply stands
    /// in full behind a line feed, and events have no lines.
    InShort { left: u64 },
}

impl Manner {
    /// The manner behind a reply.
    pub fn after_reply(self) -> Manner
        ensures { result ≡ after_reply self }
    {
        match self {
            Manner::InFull => Manner::InFull,
            Manner::InShort { left } => Manner::InShort {
                left: left.saturating_sub(1),
            },
        }
    }
}

/// Prints a reply in this manner, or the refusal for want of memory alone where there is none for
/// the text of one.
pub fn tell_reply<K: Sink>(
    alloc: Global,
    sink: &mut K,
    manner: Manner,
    reply: Reply,
) -> (Reply, Result<(), Fault>)
    ensures reply { IsReplyOrNoMemory (reply_view reply) (reply_view result.0) }
    ensures bytes { AppendsAll (K.taken sink.old) (K.taken sink.new) result.1
        (reply_in (reply_style manner) (reply_view result.0)) }
    ensures later { K.faults sink.old ≤ K.faults sink.new }
    ensures cause { OnErr result.1 (Rose (K.faults sink.old) (K.faults sink.new)) }
{
    match manner {
        Manner::InFull => print_reply(alloc, sink, reply),
        Manner::InShort { left: 1 } => print_last(alloc, sink, reply),
        Manner::InShort { .. } => print_mark(sink, reply),
    }
}

/// Prints the last reply of the generator's commands: in full, behind the bytes of those before it.
fn print_last<K: Sink>(alloc: Global, sink: &mut K, reply: Reply) -> (Reply, Result<(), Fault>)
    ensures reply { IsReplyOrNoMemory (reply_view reply) (reply_view result.0) }
    ensures bytes { AppendsAll (K.taken sink.old) (K.taken sink.new) result.1
        (10 ∷ reply_text (reply_view result.0)) }
    ensures later { K.faults sink.old ≤ K.faults sink.new }
    ensures cause { OnErr result.1 (Rose (K.faults sink.old) (K.faults sink.new)) }
{
    match write_all(sink, b"\n") {
        Ok(()) => print_reply(alloc, sink, reply),
        Err(Fault) => (reply, Err(Fault)),
    }
}

/// Prints the byte of a reply.
fn print_mark<K: Sink>(sink: &mut K, reply: Reply) -> (Reply, Result<(), Fault>)
    ensures reply { result.0 ≡ reply }
    ensures bytes { AppendsAll (K.taken sink.old) (K.taken sink.new) result.1
        (short_text (reply_view reply)) }
    ensures later { K.faults sink.old ≤ K.faults sink.new }
    ensures cause { OnErr result.1 (Rose (K.faults sink.old) (K.faults sink.new)) }
{
    let mark = mark_of(&reply);
    (reply, write_all(sink, &[mark]))
}

/// The byte of a reply.
fn mark_of(reply: &Reply) -> u8
    ensures { short_text (reply_view reply.now) ≡ result ∷ [] }
{
    match reply {
        Reply::Done(_) => Outcome::Done.mark(),
        Reply::Refused(_) => Outcome::Refused.mark(),
        Reply::RefusedAfter(_, _) => Outcome::Refused.mark(),
    }
}

/// Prints the line of an event in this manner.
pub fn tell_event<K: Sink>(sink: &mut K, manner: Manner, line: &[u8]) -> Result<(), Fault>
    ensures bytes { AppendsAll (K.taken sink.old) (K.taken sink.new) result
        (line_in manner line.now) }
    ensures later { K.faults sink.old ≤ K.faults sink.new }
    ensures cause { OnErr result (Rose (K.faults sink.old) (K.faults sink.new)) }
{
    match manner {
        Manner::InFull => write_all(sink, line),
        Manner::InShort { .. } => Ok(()),
    }
}
