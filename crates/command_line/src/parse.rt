// The form of the words, as `clap` reads it.
ghost use Rattle.std.specs.Prelude.{◌≡◌, [], IfOk, IfErr, map};
ghost use Rattle.std.specs.String.{string_bytes};
ghost use Rattle.clap.specs.Words.{HasKind, app_of, fault_of, found_of, matches_of, rows_of};
ghost use Rattle.command_line.specs.Command.{asm_command};

use clap::{Arg, ArgAction, ArgMatches, Command, Error};
use std::alloc::{AllocError, Global};

// One option with one value, and one positional with one or more. Help is no part of it: the
// program answers that apart.
fn command<'a>(alloc: Global) -> Result<Command<'a>, AllocError>
    ensures { IfOk result (λ command. app_of command ≡ asm_command) }
{
    let generate = Arg::new(alloc, "generate")
        .long("generate")
        .action(ArgAction::Set);
    let image = Arg::new(alloc, "IMAGE")
        .required(true)
        .action(ArgAction::Append);
    Command::new(alloc, "asm")
        .no_binary_name(true)
        .disable_help_flag(true)
        .arg(generate)?
        .arg(image)
}

// Parses the words. An error comes where they aren't of the command's form, or for want of memory.
pub fn parse<'a>(alloc: Global, words: &'a [String]) -> Result<ArgMatches<'a>, Error>
    ensures form { IfOk result (λ matches. fault_of asm_command (map string_bytes words.now) ≡ []) }
    ensures rows { IfOk result (λ matches. rows_of (found_of matches)
        ≡ matches_of asm_command (map string_bytes words.now)) }
    ensures kind { IfErr result (λ error. HasKind (fault_of asm_command (map string_bytes words.now)) error) }
{
    command(alloc)?.try_get_matches_from(words)
}
