//! Patterns, in which `*` stands for any bytes.

ghost use Rattle.std.specs.Prelude.{◌≡◌};
ghost use Rattle.std.specs.List.{list_all};
ghost use Rattle.asm_group.specs.Names.{folded};
ghost use Rattle.asm_world.specs.Listings.{has_star, is_match};
ghost use Rattle.asm_world.specs.Paths.{is_pattern, is_pattern_byte};
ghost use Rattle.verb_paths.specs.Patterns.{meet, meeting_seen, matches_from};

use asm_base::folded_byte;

fn is_pattern_byte(b: u8) -> bool
    ensures { result ≡ is_pattern_byte b }
{
    matches!(b, b'A'..=b'Z' | b'a'..=b'z' | b'0'..=b'9' | b'_' | b'$' | b'#' | b'-' | b'.' | b'*')
}

fn are_pattern_bytes(bytes: &[u8]) -> bool
    ensures { result ≡ list_all is_pattern_byte bytes.now }
{
    bytes.iter().all(|b| is_pattern_byte(*b))
}

/// Whether bytes are a part of a path in which `*` may stand: 1 to 80 bytes, and not `.` alone.
pub fn is_pattern(bytes: &[u8]) -> bool
    ensures { result ≡ is_pattern bytes.now }
{
    are_pattern_bytes(bytes) && !bytes.is_empty() && bytes.len() <= 80 && bytes != b".".as_slice()
}

/// Whether a part has a `*`.
pub fn has_star(part: &[u8]) -> bool
    ensures { result ≡ has_star part.now }
{
    part.iter().any(|b| *b == b'*')
}

/// How a pattern meets the front of a name.
enum Meeting<'a> {
    /// They differ at a byte, or one of them ends before the other.
    Differs,
    /// They are the same.
    Same,
    /// They are the same up to a `*`: what stands behind it, and the name from there on.
    Star(&'a [u8], &'a [u8]),
}

/// Compares up to the first `*`, without case.
#[tactic(auto, using(crate::proofs::Matching::star_folds))]
fn meet<'a>(pattern: &'a [u8], name: &'a [u8]) -> Meeting<'a>
    ensures { meeting_seen result ≡ meet (folded pattern.now) (folded name.now) }
{
    let [p, behind @ ..] = pattern else {
        return if name.is_empty() {
            Meeting::Same
        } else {
            Meeting::Differs
        };
    };
    if *p == b'*' {
        return Meeting::Star(behind, name);
    }
    match name {
        [b, rest @ ..] if folded_byte(*p) == folded_byte(*b) => meet(behind, rest),
        _ => Meeting::Differs,
    }
}

/// Whether a pattern matches the name from some byte on. What stands before the next `*` is taken
/// where it comes first: that leaves the most to the later stars. So no place is tried twice for
/// one `*`, and the time is at most the product of the two lengths.
#[tactic(auto, using(crate::proofs::Matching::same_here, crate::proofs::Matching::first_place))]
fn matches_from<'a>(mut pattern: &'a [u8], mut name: &'a [u8]) -> bool
    ensures { result ≡ matches_from (folded pattern.now) (folded name.now) }
{
    loop {
        match meet(pattern, name) {
            Meeting::Same => return true,
            Meeting::Star(behind, rest) => {
                pattern = behind;
                name = rest;
            }
            Meeting::Differs => match name {
                [] => return false,
                [_, rest @ ..] => name = rest,
            },
        }
    }
}

/// Whether a name matches a pattern, without case.
#[tactic(auto, using(crate::proofs::Matching::matches_is))]
pub fn is_match(pattern: &[u8], name: &[u8]) -> bool
    ensures { result ≡ is_match pattern.now name.now }
{
    match meet(pattern, name) {
        Meeting::Same => true,
        Meeting::Differs => false,
        Meeting::Star(behind, rest) => matches_from(behind, rest),
    }
}
