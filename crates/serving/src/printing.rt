// How replies are printed.
ghost use Rattle.std.specs.Prelude.{◌≡◌, ◌≢◌, ◌≤◌, [], ◌∷◌, ◌++◌, MatchBool, IfOk, OnErr};
ghost use Rattle.bay.specs.Counts.{Rose};
ghost use Rattle.bay.specs.Streams.{AppendsAll};
ghost use Rattle.asm_group.specs.Refusal as r;
ghost use Rattle.refusal_lines.specs.Refusals.{meaning_of};
ghost use Rattle.asm_world.specs.Reply.{Refused};
ghost use Rattle.asm_world.specs.Run.{Slicing, phase_after, slices_of, mounted_groups, is_refusal};
ghost use Rattle.asm_world.specs.Text.{ended, reply_text};
ghost use Rattle.asm_world.specs.World.{World};
ghost use Rattle.serving.specs.Stops.{IsReplyOrNoMemory, IsWantOfMemory};
ghost use Rattle.disk_commands.specs.session.Views.{reply_view};

use asm_base::{List, NoMemory, Text};
use bay::{Fault, Sink, write_all};
use disk_commands::Reply;
use refusal_lines::{Refusal, no_memory_line};
use std::alloc::Global;

/// Prints a reply, or the refusal for want of memory alone where there is none for the text of one.
pub fn print_reply<K: Sink>(alloc: Global, sink: &mut K, reply: Reply) -> (Reply, Result<(), Fault>)
    ensures reply { IsReplyOrNoMemory (reply_view reply) (reply_view result.0) }
    ensures bytes { AppendsAll (K.taken sink.old) (K.taken sink.new) result.1
        (reply_text (reply_view result.0)) }
    ensures later { K.faults sink.old ≤ K.faults sink.new }
    ensures cause { OnErr result.1 (Rose (K.faults sink.old) (K.faults sink.new)) }
{
    match reply {
        Reply::Done(lines) => {
            let printed = print_lines(sink, lines.as_slice(), b"ok\n");
            (Reply::Done(lines), printed)
        }
        Reply::Refused(refusal) => print_refusal(alloc, sink, refusal),
        Reply::RefusedAfter(lines, refusal) => print_after(alloc, sink, lines, refusal),
    }
}

/// Prints a refusal.
fn print_refusal<K: Sink>(
    alloc: Global,
    sink: &mut K,
    refusal: Refusal,
) -> (Reply, Result<(), Fault>)
    ensures reply { IsReplyOrNoMemory (Refused [] (meaning_of (λ _. []) refusal))
        (reply_view result.0) }
    ensures bytes { AppendsAll (K.taken sink.old) (K.taken sink.new) result.1
        (reply_text (reply_view result.0)) }
    ensures later { K.faults sink.old ≤ K.faults sink.new }
    ensures cause { OnErr result.1 (Rose (K.faults sink.old) (K.faults sink.new)) }
{
    match refusal_text(alloc, &refusal) {
        Ok(text) => (Reply::Refused(refusal), write_all(sink, &text)),
        Err(NoMemory) => print_no_memory(sink),
    }
}

/// Prints the lines of WAIT, and behind them a refusal.
fn print_after<K: Sink>(
    alloc: Global,
    sink: &mut K,
    lines: List<Text>,
    refusal: Refusal,
) -> (Reply, Result<(), Fault>)
    ensures reply { IsReplyOrNoMemory (Refused lines (meaning_of (λ _. []) refusal))
        (reply_view result.0) }
    ensures bytes { AppendsAll (K.taken sink.old) (K.taken sink.new) result.1
        (reply_text (reply_view result.0)) }
    ensures later { K.faults sink.old ≤ K.faults sink.new }
    ensures cause { OnErr result.1 (Rose (K.faults sink.old) (K.faults sink.new)) }
{
    match refusal_text(alloc, &refusal) {
        Ok(text) => {
            let printed = print_lines(sink, lines.as_slice(), &text);
            (Reply::RefusedAfter(lines, refusal), printed)
        }
        Err(NoMemory) => {
            drop(lines);
            print_no_memory(sink)
        }
    }
}

/// Prints the refusal for want of memory, which takes none.
fn print_no_memory<K: Sink>(sink: &mut K) -> (Reply, Result<(), Fault>)
    ensures reply { reply_view result.0 ≡ Refused [] r.NoMemory }
    ensures bytes { AppendsAll (K.taken sink.old) (K.taken sink.new) result.1
        (reply_text (reply_view result.0)) }
    ensures later { K.faults sink.old ≤ K.faults sink.new }
    ensures cause { OnErr result.1 (Rose (K.faults sink.old) (K.faults sink.new)) }
{
    (
        Reply::Refused(Refusal::NoMemory),
        print_line(sink, no_memory_line()),
    )
}

/// Prints lines, and behind them a text that has its line feed.
fn print_lines<K: Sink>(sink: &mut K, lines: &[Text], last: &[u8]) -> Result<(), Fault>
    ensures bytes { AppendsAll (K.taken sink.old) (K.taken sink.new) result
        (ended lines.now ++ last.now) }
    ensures later { K.faults sink.old ≤ K.faults sink.new }
    ensures cause { OnErr result (Rose (K.faults sink.old) (K.faults sink.new)) }
{
    for line in lines {
        print_line(sink, line.as_slice())?;
    }
    write_all(sink, last)
}

fn print_line<K: Sink>(sink: &mut K, line: &[u8]) -> Result<(), Fault>
    ensures bytes { AppendsAll (K.taken sink.old) (K.taken sink.new) result (line.now ++ 10 ∷ []) }
    ensures later { K.faults sink.old ≤ K.faults sink.new }
    ensures cause { OnErr result (Rose (K.faults sink.old) (K.faults sink.new)) }
{
    write_all(sink, line)?;
    write_all(sink, b"\n")
}

/// The line of a refusal. A refusal that comes yet spells each disk that it names.
fn refusal_text(alloc: Global, refusal: &Refusal) -> Result<Vec<u8>, NoMemory>
    ensures { IfOk result (λ text. text.items
        ≡ reply_text (Refused [] (meaning_of (λ _. []) refusal.now))) }
{
    let mut text = refusal.line(alloc, b"")?;
    text.push(b'\n').map_err(|_| NoMemory)?;
    Ok(text)
}

pub fn is_refusal(reply: &Reply) -> bool
    ensures { result ≡ is_refusal (reply_view reply.now) }
{
    match reply {
        Reply::Done(_) => false,
        Reply::Refused(_) => true,
        Reply::RefusedAfter(_, _) => true,
    }
}

/// Whether the reply ends the session.
pub fn is_no_memory(reply: &Reply) -> bool
    ensures { MatchBool result (IsWantOfMemory (reply_view reply.now))
        ((w : World) → phase_after (reply_view reply.now) w ≡ Slicing (slices_of (mounted_groups w.session))) }
{
    match reply {
        Reply::Done(_) => false,
        Reply::Refused(refusal) => is_want_of_memory(refusal),
        Reply::RefusedAfter(_, refusal) => is_want_of_memory(refusal),
    }
}

fn is_want_of_memory(refusal: &Refusal) -> bool
    ensures { MatchBool result (meaning_of (λ _. []) refusal.now ≡ r.NoMemory)
        (meaning_of (λ _. []) refusal.now ≢ r.NoMemory) }
{
    match refusal {
        Refusal::NoMemory => true,
        _ => false,
    }
}
