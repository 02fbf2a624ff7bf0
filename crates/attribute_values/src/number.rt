//! Numbers and sizes in text.

ghost use Rattle.std.specs.Prelude.{◌≡◌, ◌+◌, ◌-◌, ◌*◌, ◌^◌, ◌==◌, ◌&&◌, not, nat_lt, None, Some, if◌then◌else◌};
ghost use Rattle.asm_grammar.specs.Argument.{factor};
ghost use Rattle.asm_grammar.specs.Bytes.{is_digit_byte};
ghost use Rattle.asm_grammar.specs.Word.{number_of_text, size_of_text};
ghost use Rattle.attribute_values.specs.Sizes.{size_behind};

use crate::digits::{is_digit, split_digits};

/// The number below 2^64 that one digit or more spell.
#[tactic(auto, using(crate::proofs::NumberLaws::one_more, crate::proofs::NumberLaws::no_more))]
pub(crate) fn number_of(digits: &[u8]) -> Option<u64>
    ensures { result ≡ number_of_text digits.now }
{
    if digits.is_empty() {
        return None;
    }
    let mut number: u64 = 0;
    for b in digits {
        match with_digit(number, *b) {
            Some(next) => number = next,
            None => return None,
        }
    }
    Some(number)
}

/// The number with one more digit, where the byte is a digit and it stays below 2^64.
fn with_digit(number: u64, b: u8) -> Option<u64>
    ensures { result ≡ (if is_digit_byte b && nat_lt (number * 10 + (b - 48)) (2 ^ 64)
        then Some (number * 10 + (b - 48)) else None) }
{
    if !is_digit(b) {
        return None;
    }
    number.checked_mul(10)?.checked_add((b - b'0') as u64)
}

/// The bytes below 2^64 that one digit or more spell, with K, M, G or T or nothing behind them.
#[tactic(auto, using(crate::proofs::NumberLaws::no_size))]
pub(crate) fn size_of(text: &[u8]) -> Option<u64>
    ensures { result ≡ size_of_text text.now }
{
    let (digits, rest) = split_digits(text);
    match number_of(digits) {
        Some(number) => size_behind(number, rest),
        None => None,
    }
}

/// The size below 2^64 that a number makes with what stands behind it.
fn size_behind(number: u64, rest: &[u8]) -> Option<u64>
    ensures { result ≡ size_behind number rest.now }
{
    match rest {
        [] => Some(number),
        [letter] => with_letter(number, *letter),
        _ => None,
    }
}

fn with_letter(number: u64, b: u8) -> Option<u64>
    ensures { result ≡ (if not (factor b == 0) && nat_lt (number * factor b) (2 ^ 64)
        then Some (number * factor b) else None) }
{
    match factor(b) {
        0 => None,
        factor => number.checked_mul(factor),
    }
}

/// What a letter behind a size stands for, and 0 where it is none.
fn factor(b: u8) -> u64
    ensures { result ≡ factor b }
{
    match b {
        b'K' => 1 << 10,
        b'M' => 1 << 20,
        b'G' => 1 << 30,
        b'T' => 1 << 40,
        _ => 0,
    }
}
