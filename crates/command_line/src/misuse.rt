// What is wrong with words that aren't taken.
ghost use Rattle.std.specs.Prelude.{ℕ, Option, IfOk, IfSome, IsNone, map};
ghost use Rattle.std.specs.String.{string_bytes};
ghost use Rattle.command_line.specs.Command.{IsRead, images_in};
ghost use Rattle.command_line.specs.Misuses.{IsMisuse};

use crate::checks::checked;
use crate::parse::parse;
use clap::error::ErrorKind;
use std::alloc::{AllocError, Global};
use thiserror::Error;

/// What is wrong with words that aren't taken. Its text is for people, and may hold any byte that a
/// word holds.
#[derive(Debug, Drop, Error)]
pub enum Misuse<'a> {
    /// They aren't of the form `[--generate N] IMAGE...`: the kind of what `clap` found, and its
    /// reason.
    #[error("{reason}")]
    Form { kind: ErrorKind, reason: String },
    /// There are so many images, and at most 512 are taken.
    #[error("there are {0} images, and at most 512 are taken")]
    TooMany(usize),
    /// An image's path has a byte below 32.
    #[error("the image {0} has a control character")]
    Control(&'a str),
    /// An image is given twice.
    #[error("the image {0} is given twice")]
    Twice(&'a str),
    /// The value of `--generate` isn't a number below 2^64.
    #[error("--generate takes a number below 2^64, and {0} is none")]
    NotNumber(&'a str),
    /// There are so many images, and the generator takes four.
    #[error("--generate takes four images, and {0} are named")]
    NotFour(usize),
    /// An image of the generator has a single quote.
    #[error("--generate takes no image with a single quote, as {0}")]
    Quoted(&'a str),
}

/// Says what is wrong with words that `read_words` refuses as `Usage`; of others nothing is.
pub fn misuse_of<'a>(alloc: Global, words: &'a [String]) -> Result<Option<Misuse<'a>>, AllocError>
    ensures misuse { IfOk result (λ found. IfSome found (IsMisuse (map string_bytes words.now))) }
    ensures none { IfOk result (λ found. IsNone found → (generate : Option ℕ)
        × IsRead (map string_bytes words.now) generate (images_in (map string_bytes words.now))) }
{
    match parse(alloc, words) {
        Ok(matches) => {
            let paths = matches.get_strs("IMAGE").unwrap_or(&[]);
            Ok(checked(matches.get_str("generate"), paths).err())
        }
        Err(error) => match error.kind() {
            ErrorKind::OutOfMemory => Err(AllocError),
            kind => Ok(Some(Misuse::Form {
                kind,
                reason: reason_of(alloc, &error)?,
            })),
        },
    }
}

// What `clap` says is wrong, without its tips and its usage.
fn reason_of(alloc: Global, error: &clap::Error) -> Result<String, AllocError> {
    if error.kind() == ErrorKind::MissingRequiredArgument {
        return String::from_str(alloc, "no image is named");
    }
    let text = error.to_string(alloc)?;
    let mut reason = text.strip_prefix("error: ").unwrap_or(&text);
    for behind in ["\n\n  tip:", "\n\nUsage:"] {
        reason = reason.split(behind).next().unwrap_or(reason);
    }
    String::from_str(alloc, reason.trim_end())
}
