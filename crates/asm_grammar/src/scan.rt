//! Runs of bytes of one kind.

ghost use Rattle.std.specs.Option.{option_map};
ghost use Rattle.std.specs.Prelude.{◌≡◌, ◌<◌, drop, ◌+◌, ◌-◌, ◌*◌, ◌^◌, ◌&&◌, ◌==◌, not, nat_lt, map, length, if◌then◌else◌};
ghost use Rattle.asm_grammar.specs.Bytes.{is_blank, is_space, is_word, is_digit_byte, upper, run_of, after_run, common};
ghost use Rattle.asm_grammar.specs.Runs.{tests};
ghost use Rattle.asm_grammar.specs.Argument.{factor};
ghost use Rattle.asm_grammar.specs.Word.{same_bytes, starts_with_letter, starts_with_digit, near_number, near_value, near_size, near_size_value, near_count, near_count_value, minutes_in, begins_word, starts_with_quote, near_quoted, quoted_of};

use crate::stage::with_letter;

/// A kind of bytes that stand together.
#[derive(Clone, Copy)]
pub enum Run {
    Blanks,
    /// Spaces and tabs.
    Spaces,
    /// Bytes other than spaces and tabs.
    Filled,
    Word,
    Digits,
    /// Bytes that stand inside quotes.
    Text,
}

pub fn is_blank(b: u8) -> bool
    ensures { result ≡ is_blank b }
{
    b == b' ' || b == b'\t' || b == b'\r' || b == b'\n'
}

pub fn is_word(b: u8) -> bool
    ensures { result ≡ is_word b }
{
    b.is_ascii_alphabetic() || b.is_ascii_digit() || b == b'_' || b == b'$' || b == b'#'
}

pub fn is_space(b: u8) -> bool
    ensures { result ≡ is_space b }
{
    b == b' ' || b == b'\t'
}

pub fn upper(b: u8) -> u8
    ensures { result ≡ upper b }
{
    if b'a' <= b && b <= b'z' { b - 32 } else { b }
}

fn belongs(run: Run, b: u8) -> bool
    ensures { result ≡ tests run b }
{
    match run {
        Run::Blanks => is_blank(b),
        Run::Spaces => is_space(b),
        Run::Filled => !is_space(b),
        Run::Word => is_word(b),
        Run::Digits => b'0' <= b && b <= b'9',
        Run::Text => b != b'\'' && b' ' <= b,
    }
}

/// How many bytes of the kind stand at the front.
pub fn run_len(run: Run, bytes: &[u8]) -> usize
    ensures { result ≡ length (run_of (tests run) bytes.now) }
{
    for (i, b) in bytes.iter().enumerate() {
        if !belongs(run, *b) {
            return i;
        }
    }
    bytes.len()
}

/// Those bytes, and what stands behind them.
#[tactic(auto, using(crate::proofs::RunLemmas::take_run, crate::proofs::RunLemmas::drop_run, crate::proofs::RunLemmas::run_short))]
pub fn split_run(run: Run, bytes: &[u8]) -> (&[u8], &[u8])
    ensures front { result.0.now ≡ run_of (tests run) bytes.now }
    ensures rest { result.1.now ≡ after_run (tests run) bytes.now }
{
    let n = run_len(run, bytes);
    bytes.split_at(n)
}

/// Whether the bytes are the keyword, in any case.
#[tactic(auto, using(crate::proofs::RunLemmas::other_length))]
pub fn is_key(bytes: &[u8], key: &[u8]) -> bool
    ensures { result ≡ same_bytes (map upper bytes.now) key.now }
{
    if bytes.len() != key.len() {
        return false;
    }
    for (i, b) in bytes.iter().enumerate() {
        if upper(*b) != key[i] {
            return false;
        }
    }
    true
}

/// How many bytes of the keyword, in any case, stand at the front.
#[tactic(auto, using(crate::proofs::RunLemmas::common_nothing, std::proofs::lemmas::List::drop_all))]
pub fn key_prefix(key: &[u8], bytes: &[u8]) -> usize
    ensures { result ≡ common key.now (map upper bytes.now) }
{
    for (i, b) in key.iter().enumerate() {
        if i >= bytes.len() {
            return i;
        }
        if upper(bytes[i]) != *b {
            return i;
        }
    }
    key.len()
}

pub fn starts_with_letter(bytes: &[u8]) -> bool
    ensures { result ≡ starts_with_letter bytes.now }
{
    match bytes {
        [] => false,
        [first, ..] => first.is_ascii_alphabetic(),
    }
}

/// The longest front of digits that spells a number below 2 ^ 64: its length and the number.
pub fn number_prefix(text: &[u8]) -> (usize, u64)
    ensures len { result.0 ≡ near_number 0 text.now }
    ensures value { result.1 ≡ near_value 0 text.now }
{
    let mut number: u64 = 0;
    for (i, b) in text.iter().enumerate() {
        match with_digit(number, *b) {
            Some(next) => number = next,
            None => return (i, number),
        }
    }
    (text.len(), number)
}

/// The number with one more digit, where the byte is a digit and it stays below 2 ^ 64.
pub fn with_digit(number: u64, b: u8) -> Option<u64>
    ensures { result ≡ (if is_digit_byte b && nat_lt (number * 10 + (b - 48)) (2 ^ 64)
        then Some (number * 10 + (b - 48)) else None) }
{
    if b < b'0' || b'9' < b {
        return None;
    }
    number.checked_mul(10)?.checked_add((b - b'0') as u64)
}

/// The bytes behind the first.
fn after_first(bytes: &[u8]) -> &[u8]
    requires { 0 < length bytes.now }
    ensures { result.now ≡ drop 1 bytes.now }
{
    bytes.split_at(1).1
}

fn begins_quote(text: &[u8]) -> bool
    ensures { result ≡ starts_with_quote text.now }
{
    match text {
        [] => false,
        [first, ..] => *first == b'\'',
    }
}

/// The text between quotes at the front and what stands behind it, and how many bytes begin such a
/// text.
#[tactic(auto, using(crate::proofs::Readers::quote_begins, crate::proofs::Readers::quoted_not, crate::proofs::Readers::quoted_open, crate::proofs::Readers::quoted_fits, crate::proofs::Readers::inside_short))]
pub fn split_quoted(text: &[u8]) -> (Option<(&[u8], &[u8])>, usize)
    ensures says { option_map (λ p. (p.0.now, p.1.now)) result.0 ≡ quoted_of text.now }
    ensures near { result.1 ≡ near_quoted text.now }
{
    if !begins_quote(text) {
        return (None, 0);
    }
    let (bytes, behind) = split_run(Run::Text, after_first(text));
    if !begins_quote(behind) {
        return (None, bytes.len() + 1);
    }
    (Some((bytes, after_first(behind))), bytes.len() + 2)
}

pub fn starts_with_digit(bytes: &[u8]) -> bool
    ensures { result ≡ starts_with_digit bytes.now }
{
    match bytes {
        [] => false,
        [first, ..] => b'0' <= *first && *first <= b'9',
    }
}

/// The longest front of digits, and at most one letter behind them, that spells a size below 2 ^
/// 64: its length and the size.
pub fn size_prefix(text: &[u8]) -> (usize, u64)
    ensures len { result.0 ≡ near_size 0 text.now }
    ensures value { result.1 ≡ near_size_value 0 text.now }
{
    let mut size: u64 = 0;
    for (i, b) in text.iter().enumerate() {
        match with_digit(size, *b) {
            Some(next) => size = next,
            None => return behind_digits(i, size, *b),
        }
    }
    (text.len(), size)
}

/// The length and the size of digits and a letter, where the byte is one.
fn behind_digits(len: usize, size: u64, b: u8) -> (usize, u64)
    requires { len + 1 < 2 ^ 64 }
    ensures len { result.0 ≡ len + (if not (factor b == 0) && nat_lt (size * factor b) (2 ^ 64)
        then 1 else 0) }
    ensures value { result.1 ≡ (if not (factor b == 0) && nat_lt (size * factor b) (2 ^ 64)
        then size * factor b else size) }
{
    match with_letter(size, b) {
        Some(sized) => (len + 1, sized),
        None => (len, size),
    }
}

/// How many minutes a letter stands for, and 0 where it is none.
fn minutes_in(b: u8) -> u64
    ensures { result ≡ minutes_in b }
{
    match b {
        b'm' | b'M' => 1,
        b'h' | b'H' => 60,
        _ => 0,
    }
}

/// The number with one more digit, where the byte is a digit and so many minutes stay below 2 ^ 64
/// seconds.
fn with_count(number: u64, b: u8) -> Option<u64>
    ensures { result ≡ (if is_digit_byte b && nat_lt ((number * 10 + (b - 48)) * 60) (2 ^ 64)
        then Some (number * 10 + (b - 48)) else None) }
{
    if b < b'0' || b'9' < b {
        return None;
    }
    let next = number.checked_mul(10)?.checked_add((b - b'0') as u64)?;
    let _seconds = next.checked_mul(60)?;
    Some(next)
}

/// The longest front of digits that spells a number of minutes below 2 ^ 64 seconds: its length and
/// the number.
pub fn count_prefix(text: &[u8]) -> (usize, u64)
    ensures len { result.0 ≡ near_count 0 text.now }
    ensures value { result.1 ≡ near_count_value 0 text.now }
{
    let mut number: u64 = 0;
    for (i, b) in text.iter().enumerate() {
        match with_count(number, *b) {
            Some(next) => number = next,
            None => return (i, number),
        }
    }
    (text.len(), number)
}

/// So many minutes or hours, by the letter, in minutes, where that is below 2 ^ 64 seconds.
pub fn with_unit(count: u64, b: u8) -> Option<u64>
    ensures { result ≡ (if not (minutes_in b == 0) && nat_lt (count * minutes_in b * 60) (2 ^ 64)
        then Some (count * minutes_in b) else None) }
{
    let unit = minutes_in(b);
    if unit == 0 {
        return None;
    }
    let minutes = count.checked_mul(unit)?;
    let _seconds = minutes.checked_mul(60)?;
    Some(minutes)
}

pub fn begins_word(text: &[u8]) -> bool
    ensures { result ≡ begins_word text.now }
{
    match text {
        [] => false,
        [first, ..] => is_word(*first),
    }
}
