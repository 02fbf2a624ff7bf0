// What is asked of the words beyond their form.
ghost use Rattle.std.specs.Prelude.{◌≡◌, ℕ, Some, None, IfOk, IfErr, IfSome, IsNone, find, length, option_map};
ghost use Rattle.command_line.specs.Paths.{IsNumber, IsTaken, first_twice, is_control, is_quoted, texts};
ghost use Rattle.command_line.specs.Misuses.{IsMisuseOf};

use crate::misuse::Misuse;
use crate::words::MOST_IMAGES;

// How many images the generator takes.
const GENERATOR_IMAGES: usize = 4;

// The number, where it and the paths meet what is asked of them; else what is wrong.
pub fn checked<'a>(number: Option<&'a str>, paths: &[&'a str]) -> Result<Option<u64>, Misuse<'a>>
    ensures taken { IfOk result (λ generate. IsTaken (option_map (λ s. s.now) number.entry)
        (texts paths.now) generate (texts paths.now)) }
    ensures misuse { IfErr result (λ misuse. IsMisuseOf (option_map (λ s. s.now) number.entry)
        (texts paths.now) misuse) }
{
    if paths.len() > MOST_IMAGES {
        return Err(Misuse::TooMany(paths.len()));
    }
    if let Some(path) = first_control(paths) {
        return Err(Misuse::Control(path));
    }
    if let Some(path) = first_twice(paths) {
        return Err(Misuse::Twice(path));
    }
    match number {
        None => Ok(None),
        Some(text) => Ok(Some(checked_generator(text, paths)?)),
    }
}

// The same of the generator's words.
fn checked_generator<'a>(text: &'a str, paths: &[&'a str]) -> Result<u64, Misuse<'a>>
    ensures number { IfOk result (λ n. IsNumber text.now n) }
    ensures four { IfOk result (λ _. length (texts paths.now) ≡ 4) }
    ensures unquoted { IfOk result (λ _. find is_quoted (texts paths.now) ≡ None) }
    ensures misuse { IfErr result (λ misuse. IsMisuseOf (Some text.now) (texts paths.now) misuse) }
{
    let Some(seed) = read_number(text) else {
        return Err(Misuse::NotNumber(text));
    };
    if paths.len() != GENERATOR_IMAGES {
        return Err(Misuse::NotFour(paths.len()));
    }
    match first_quoted(paths) {
        None => Ok(seed),
        Some(path) => Err(Misuse::Quoted(path)),
    }
}

// Reads a number of 64 bits in decimal digits, without a sign.
fn read_number(text: &str) -> Option<u64>
    ensures some { IfSome result (λ n. IsNumber text.now n) }
    ensures none { IsNone result → (n : ℕ) → IsNumber text.now n → ⊥ }
{
    if text.as_bytes().first() == Some(&b'+') {
        return None;
    }
    text.parse::<u64>().ok()
}

// The first path that stands once more behind it.
fn first_twice<'a>(paths: &[&'a str]) -> Option<&'a str>
    ensures { option_map (λ s. s.now) result ≡ first_twice (texts paths.now) }
{
    match paths.split_first() {
        None => None,
        Some((path, others)) => {
            if others.contains(path) {
                Some(path)
            } else {
                first_twice(others)
            }
        }
    }
}

// The first path that has a byte below 32.
fn first_control<'a>(paths: &[&'a str]) -> Option<&'a str>
    ensures { option_map (λ s. s.now) result ≡ find is_control (texts paths.now) }
{
    paths.iter().copied().find(|path| is_control(path))
}

// The path has a byte below 32.
fn is_control(path: &str) -> bool
    ensures { result ≡ is_control path.now }
{
    path.as_bytes().iter().any(|byte| *byte < 32)
}

// The first path that has a single quote.
fn first_quoted<'a>(paths: &[&'a str]) -> Option<&'a str>
    ensures { option_map (λ s. s.now) result ≡ find is_quoted (texts paths.now) }
{
    paths.iter().copied().find(|path| is_quoted(path))
}

// The path has a single quote.
fn is_quoted(path: &str) -> bool
    ensures { result ≡ is_quoted path.now }
{
    path.as_bytes().contains(&b'\'')
}
