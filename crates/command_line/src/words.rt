// The words of the program.
ghost use Rattle.std.specs.Prelude.{◌≡◌, ◌≢◌, ℕ, List, Option, IfOk, IsErrOf, map, option_map};
ghost use Rattle.std.specs.String.{string_bytes};
ghost use Rattle.clap.specs.Words.{kind_of};
ghost use Rattle.clap.specs.declared.error.kind.ErrorKind.TheVariants.{OutOfMemory};
ghost use Rattle.command_line.specs.Command.{IsRead};
ghost use Rattle.command_line.specs.Paths.{WordBytes, IsTaken, texts};
ghost use Rattle.command_line.specs.declared.words.WordsError.TheVariants.{Usage, NoMemory};

use crate::checks::checked;
use crate::parse::parse;
use clap::error::ErrorKind;
use std::alloc::{AllocError, AllocFailed, Global};
use thiserror::Error;

/// The most images that a run takes.
pub const MOST_IMAGES: usize = 512;

/// What the program is asked to do.
#[derive(Debug, Drop)]
pub struct Words {
    /// The seed of the generated script, where there is one. Without it the script is read on
    /// standard input.
    pub generate: Option<u64>,
    /// The paths of the images, in their order. Slot k is the k-th of them, counted from 0.
    pub images: Vec<String>,
}

/// Why the words aren't read.
#[derive(Clone, Copy, Debug, PartialEq, Eq, Error)]
pub enum WordsError {
    /// The words aren't `[--generate N] IMAGE...`, a path is given twice or has a byte below 32,
    /// there are more than 512, or the generator gets other than four paths without a single
    /// quote. `misuse_of` says which.
    #[error("the words are not [--generate N] IMAGE...")]
    Usage,
    /// No memory was found.
    #[error("there is no memory")]
    NoMemory,
}

impl From<clap::Error> for WordsError {
    ghost from_gives = { λ error e. e ≡ Usage → kind_of error ≢ OutOfMemory };

    fn from(error: clap::Error) -> Self {
        match error.kind() {
            ErrorKind::OutOfMemory => WordsError::NoMemory,
            _ => WordsError::Usage,
        }
    }
}

impl From<AllocError> for WordsError {
    ghost from_gives = { λ _ e. e ≡ NoMemory };

    fn from(_: AllocError) -> Self {
        WordsError::NoMemory
    }
}

impl<T: Drop> From<AllocFailed<T>> for WordsError {
    ghost from_gives = { λ _ e. e ≡ NoMemory };

    fn from(_: AllocFailed<T>) -> Self {
        WordsError::NoMemory
    }
}

/// Reads the words that follow the program's own name: options anywhere before a `--`, and all
/// others as images.
pub fn read_words(alloc: Global, words: &[String]) -> Result<Words, WordsError>
    ensures read { IfOk result (λ read. IsRead (map string_bytes words.now) read.generate
        (map string_bytes read.images.items)) }
    ensures usage { IsErrOf result WordsError.Usage
        → (generate : Option ℕ) (images : List WordBytes)
        → IsRead (map string_bytes words.now) generate images → ⊥ }
{
    let matches = parse(alloc, words)?;
    let paths = matches.get_strs("IMAGE").unwrap_or(&[]);
    take(alloc, matches.get_str("generate"), paths)
}

// Takes the number and the paths, where they meet what is asked of them.
fn take(alloc: Global, number: Option<&str>, paths: &[&str]) -> Result<Words, WordsError>
    ensures taken { IfOk result (λ read. IsTaken (option_map (λ s. s.now) number.entry)
        (texts paths.now) read.generate (map string_bytes read.images.items)) }
    ensures usage { IsErrOf result WordsError.Usage → (generate : Option ℕ) (images : List WordBytes)
        → IsTaken (option_map (λ s. s.now) number.entry) (texts paths.now) generate images → ⊥ }
{
    let Ok(generate) = checked(number, paths) else {
        return Err(WordsError::Usage);
    };
    Ok(Words {
        generate,
        images: copied(alloc, paths)?,
    })
}

// Copies the paths.
fn copied(alloc: Global, paths: &[&str]) -> Result<Vec<String>, AllocError>
    ensures { IfOk result (λ images. map string_bytes images.items ≡ texts paths.now) }
{
    let mut images = Vec::new(alloc);
    for path in paths {
        images.push(String::from_str(alloc, path)?)?;
    }
    Ok(images)
}
