// The top call.
ghost use Rattle.std.specs.Prelude.{◌≡◌, ◌≢◌, ℕ, ◌≤◌, None, Some, List, Option, length, map};
ghost use Rattle.std.specs.String.{string_bytes};
ghost use Rattle.bay.specs.Counts.{Rose};
ghost use Rattle.asm_world.specs.Run.{AreInFull};
ghost use Rattle.asm_world.specs.World.{World};
ghost use Rattle.command_line.specs.Command.{IsRead, images_in};
ghost use Rattle.command_line.specs.Paths.{WordBytes};
ghost use Rattle.asm_run.specs.Headline.{IsFirstWorld, GeneratedRun, Transcript, number_given};

use crate::generating::generate;
use crate::report::{Report, ended, nothing_done};
use bay::{Bay, Clock, Host, Sink, Source};
use command_line::{Words, WordsError, read_words};
use serving::{Manner, Program};
use std::alloc::Global;

/// Reads a script from the source, runs its commands on the images that the words name, and prints
/// their replies to the sink. With `--generate` the source isn't read: the script made from the
/// number is run, each reply but the last is one byte, and events have no lines. The words don't
/// hold the program's own name. Statuses: 0 each command was answered `ok`; 1 some command was
/// refused; 2 the words aren't `[--generate N] IMAGE...`, with 1 to 512 paths, none twice and none
/// with a byte below 32, and under `--generate` with four paths without a single quote; 3 the
/// source failed; 4 the sink failed; 5 there was no memory; 6 the script is longer than 67,108,864
/// bytes.
pub fn run<B: Bay, H: Host, S: Source, K: Sink, C: Clock>(
    alloc: Global,
    words: &[String],
    bay: B,
    host: H,
    source: &mut S,
    sink: K,
    clock: C,
) -> Report<B, H, K, C>
    ensures transcript { number_given (map string_bytes words.now) ≡ None → (w : World) → IsFirstWorld w
        → Transcript C.gives (images_in (map string_bytes words.now)) AreInFull result.status result.marks.items
        (S.left source.old) (S.left source.new) (K.taken sink) (K.taken result.sink) clock result.clock (B.state bay) (B.state result.bay) w }
    ensures generated { (number : ℕ) → number_given (map string_bytes words.now) ≡ Some number → (w : World) → IsFirstWorld w
        → GeneratedRun C.gives number (images_in (map string_bytes words.now)) result.status result.marks.items
        (K.taken sink) (K.taken result.sink) clock result.clock (B.state bay) (B.state result.bay) w }
    ensures unread { (number : ℕ) → number_given (map string_bytes words.now) ≡ Some number
        → source.new ≡ source.old }
    ensures replies { result.replies ≡ length result.marks.items }
    ensures status { result.status ≤ 6 }
    ensures usage { result.status ≡ 2 → (generate : Option ℕ) (images : List WordBytes)
        → IsRead (map string_bytes words.now) generate images → ⊥ }
    ensures named { result.status ≢ 2 → result.status ≢ 5
        → IsRead (map string_bytes words.now) (number_given (map string_bytes words.now)) (images_in (map string_bytes words.now)) }
    ensures read_fault { result.status ≡ 3 → Rose (S.faults source.old) (S.faults source.new) }
    ensures write_fault { result.status ≡ 4 → Rose (K.faults sink) (K.faults result.sink) }
{
    match read_words(alloc, words) {
        Ok(
            Words {
                generate: number,
                images,
            },
        ) => match number {
            Some(number) => generate(alloc, number, images, bay, host, sink, clock),
            None => {
                let mut program = Program::new(
                    alloc,
                    bay,
                    host,
                    sink,
                    clock,
                    images,
                    Manner::InFull,
                );
                let outcome = program.serve(source);
                ended(outcome, program)
            }
        },
        Err(WordsError::Usage) => nothing_done(alloc, 2, bay, host, sink, clock),
        Err(WordsError::NoMemory) => nothing_done(alloc, 5, bay, host, sink, clock),
    }
}
