// The run of the generator's script.
ghost use Rattle.std.specs.Prelude.{◌≡◌, ◌≢◌, ◌≤◌, false, IfOk, length, map};
ghost use Rattle.std.specs.String.{string_bytes};
ghost use Rattle.bay.specs.Counts.{Rose};
ghost use Rattle.asm_world.specs.Generator.{generated_script};
ghost use Rattle.asm_world.specs.World.{World};
ghost use Rattle.command_line.specs.Paths.{has_quote};
ghost use Rattle.generated_script.specs.Source.{left_in};
ghost use Rattle.asm_run.specs.Headline.{IsFirstWorld, GeneratedRun};

use crate::report::{Report, ended, nothing_done};
use asm_base::{NoMemory, Text};
use bay::{Bay, Clock, Host, Sink};
use generated_script::GeneratedScript;
use serving::{Manner, Program};
use std::alloc::Global;

/// How many commands the generator makes over four images.
const COMMANDS: u64 = 1023;

/// Runs the script that is made from a number, and prints its replies short. Status 5 comes also
/// where there is no memory for the script, and then nothing is done.
pub fn generate<B: Bay, H: Host, K: Sink, C: Clock>(
    alloc: Global,
    number: u64,
    images: Vec<String>,
    bay: B,
    host: H,
    sink: K,
    clock: C,
) -> Report<B, H, K, C>
    requires four { length images.items ≡ 4 }
    requires unquoted { has_quote (map string_bytes images.items) ≡ false }
    ensures transcript { (w : World) → IsFirstWorld w → GeneratedRun C.gives number (map string_bytes images.items) result.status result.marks.items
        (K.taken sink) (K.taken result.sink) clock result.clock (B.state bay) (B.state result.bay) w }
    ensures replies { result.replies ≡ length result.marks.items }
    ensures status { result.status ≤ 6 }
    ensures taken { (result.status ≢ 2) × (result.status ≢ 3) }
    ensures write_fault { result.status ≡ 4 → Rose (K.faults sink) (K.faults result.sink) }
{
    match script_of(alloc, number, &images) {
        Ok(mut script) => {
            let manner = Manner::InShort { left: COMMANDS };
            let mut program = Program::new(alloc, bay, host, sink, clock, images, manner);
            let outcome = program.serve(&mut script);
            ended(outcome, program)
        }
        Err(NoMemory) => nothing_done(alloc, 5, bay, host, sink, clock),
    }
}

/// The script made from a number over images.
fn script_of(alloc: Global, number: u64, images: &[String]) -> Result<GeneratedScript, NoMemory>
    ensures { IfOk result (λ script. left_in script
        ≡ generated_script number (map string_bytes images.now)) }
{
    let paths = texts_of(alloc, images)?;
    GeneratedScript::new(alloc, number, &paths)
}

/// The bytes of paths.
fn texts_of(alloc: Global, paths: &[String]) -> Result<Vec<Text>, NoMemory>
    ensures { IfOk result (λ texts. texts.items ≡ map string_bytes paths.now) }
{
    let mut texts = Vec::new(alloc);
    for path in paths {
        let text = Text::from_slice(alloc, path.as_bytes())?;
        texts.push(text).map_err(|_| NoMemory)?;
    }
    Ok(texts)
}
