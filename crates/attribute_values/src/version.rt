//! The versions that a compatibility may have.

ghost use Rattle.std.specs.Prelude.{◌≡◌};
ghost use Rattle.asm_world.specs.Settings.{is_version, is_version_rest};

use crate::digits::split_digits;

/// Whether a text is `11.2`, or that and further parts of a point and digits, at most 30 bytes in
/// all.
#[tactic(auto, using(crate::proofs::VersionLaws::short_enough, crate::proofs::VersionLaws::too_long, crate::proofs::VersionLaws::too_short))]
pub fn is_version(value: &[u8]) -> bool
    ensures { result ≡ is_version value.now }
{
    if value.len() < 4 || 30 < value.len() {
        return false;
    }
    let (front, rest) = value.split_at(4);
    front == b"11.2".as_slice() && is_version_rest(30, rest)
}

/// Whether bytes are at most so many parts of a point and digits.
fn is_version_rest(parts: u8, bytes: &[u8]) -> bool
    ensures { result ≡ is_version_rest parts bytes.now }
{
    match bytes {
        [] => true,
        [point, behind @ ..] => {
            if parts == 0 || *point != b'.' {
                return false;
            }
            let (digits, rest) = split_digits(behind);
            !digits.is_empty() && is_version_rest(parts - 1, rest)
        }
    }
}
