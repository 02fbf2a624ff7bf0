//! The time after which an offline disk is dropped.

ghost use Rattle.std.specs.Prelude.{◌≡◌, ◌≤◌, ◌+◌, ◌-◌, ◌*◌, min, ◌∷◌, [], IfSome, None, Some, if◌then◌else◌};
ghost use Rattle.std.specs.Option.{option_map};
ghost use Rattle.asm_grammar.specs.Bytes.{is_digit_byte};
ghost use Rattle.asm_grammar.specs.Word.{digits_of};
ghost use Rattle.asm_world.specs.Settings.{at_most, repair_seconds, tenth_of, tenths_of};

use crate::digits::{is_digit, split_digits};

/// One more than the most of a unit that a time may have.
const TOO_MANY: u64 = 100_001;

/// The seconds of a repair time: a number with at most one decimal digit, and m or h for minutes or
/// hours, in any case. Hours are meant where there is no letter. None where the bytes aren't a
/// time, or more than 100,000 of the unit.
#[tactic(auto, using(crate::proofs::RepairLaws::many_are_alike))]
pub fn repair_seconds(value: &[u8]) -> Option<u64>
    ensures { result ≡ repair_seconds value.now }
{
    let (digits, rest) = split_digits(value);
    match whole_number(digits) {
        Some(whole) => tenths(whole, rest),
        None => None,
    }
}

/// The number that one digit or more spell. A greater one than 100,001 is given as that.
#[tactic(auto, using(crate::proofs::RepairLaws::one_more, crate::proofs::RepairLaws::no_digit))]
fn whole_number(digits: &[u8]) -> Option<u64>
    ensures number { result ≡ option_map (min 100001) (digits_of digits.now) }
    ensures small { IfSome result (λ n. n ≤ 100001) }
{
    if digits.is_empty() {
        return None;
    }
    let mut number: u64 = 0;
    for b in digits {
        match with_digit(number, *b) {
            Some(next) => number = next,
            None => return None,
        }
    }
    Some(number)
}

/// The number with one more digit, and 100,001 where it is greater. None where the byte is no
/// digit.
fn with_digit(number: u64, b: u8) -> Option<u64>
    requires { number ≤ 100001 }
    ensures { result ≡ (if is_digit_byte b then Some (min 100001 (number * 10 + (b - 48)))
        else None) }
{
    if !is_digit(b) {
        return None;
    }
    let next = number * 10 + (b - b'0') as u64;
    if next < TOO_MANY {
        Some(next)
    } else {
        Some(TOO_MANY)
    }
}

/// The seconds of so many whole units, and of what stands behind them: a point and a digit, or
/// neither, and a letter or none.
fn tenths(whole: u64, rest: &[u8]) -> Option<u64>
    requires { whole ≤ 100001 }
    ensures { result ≡ tenths_of (Some whole) rest.now }
{
    match rest {
        [] => at_most(whole * 10, rest),
        [_] => at_most(whole * 10, rest),
        [point, digit, unit @ ..] => {
            if *point == b'.' && is_digit(*digit) {
                at_most(whole * 10 + (*digit - b'0') as u64, unit)
            } else {
                None
            }
        }
    }
}

/// The seconds of so many tenths of a unit, where they are at most 100,000 of it.
fn at_most(tenths: u64, unit: &[u8]) -> Option<u64>
    ensures { result ≡ at_most tenths (tenth_of unit.now) }
{
    match tenth_of(unit) {
        Some(seconds) => {
            if tenths <= 1_000_000 {
                Some(tenths * seconds)
            } else {
                None
            }
        }
        None => None,
    }
}

/// The seconds of a tenth of a unit: hours where there is no letter.
fn tenth_of(unit: &[u8]) -> Option<u64>
    ensures seconds { result ≡ tenth_of unit.now }
    ensures small { IfSome result (λ s. s ≤ 360) }
{
    match unit {
        [] => Some(360),
        [letter] => tenth_by(*letter),
        _ => None,
    }
}

/// The seconds of a tenth of a minute or of an hour, by its letter.
fn tenth_by(letter: u8) -> Option<u64>
    ensures seconds { result ≡ tenth_of (letter ∷ []) }
    ensures small { IfSome result (λ s. s ≤ 360) }
{
    match letter {
        b'm' | b'M' => Some(6),
        b'h' | b'H' => Some(360),
        _ => None,
    }
}
