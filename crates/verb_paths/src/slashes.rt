//! The parts of a path between its slashes.

ghost use Rattle.std.specs.Prelude.{◌≡◌, ◌≤◌, length};
ghost use Rattle.std.specs.Option.{option_copied};
ghost use Rattle.verb_paths.specs.Slashes.{behind_slash, first_part, left_length};
ghost use Rattle.asm_base.specs.Paths.{slash_at};

/// How many bytes stand before the first slash.
fn slash_at(bytes: &[u8]) -> usize
    ensures at { result ≡ slash_at bytes.now }
    ensures within { result ≤ length bytes.now }
{
    let mut n = 0;
    for b in bytes {
        if *b == b'/' {
            return n;
        }
        n += 1;
    }
    n
}

/// The first part, and the bytes behind its slash, where it has one.
pub fn split_part(bytes: &[u8]) -> (&[u8], Option<&[u8]>)
    ensures part { result.0.now ≡ first_part bytes.now }
    ensures behind { option_copied result.1 ≡ behind_slash bytes.now }
    ensures shorter { left_length (option_copied result.1) ≤ length bytes.now }
{
    let (part, rest) = bytes.split_at(slash_at(bytes));
    match rest {
        [] => (part, None),
        [_slash, behind @ ..] => (part, Some(behind)),
    }
}
