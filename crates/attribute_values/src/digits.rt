//! The digits at the front of a text.

ghost use Rattle.std.specs.Prelude.{◌≡◌, length};
ghost use Rattle.asm_grammar.specs.Bytes.{after_run, is_digit_byte, run_of};

pub(crate) fn is_digit(b: u8) -> bool
    ensures { result ≡ is_digit_byte b }
{
    b'0' <= b && b <= b'9'
}

/// How many digits stand at the front.
fn digits_len(bytes: &[u8]) -> usize
    ensures { result ≡ length (run_of is_digit_byte bytes.now) }
{
    for (i, b) in bytes.iter().enumerate() {
        if !is_digit(*b) {
            return i;
        }
    }
    bytes.len()
}

/// Those digits, and what stands behind them.
#[tactic(auto, using(asm_grammar::proofs::RunLemmas::take_run, asm_grammar::proofs::RunLemmas::drop_run, asm_grammar::proofs::RunLemmas::run_short))]
pub(crate) fn split_digits(bytes: &[u8]) -> (&[u8], &[u8])
    ensures front { result.0.now ≡ run_of is_digit_byte bytes.now }
    ensures rest { result.1.now ≡ after_run is_digit_byte bytes.now }
{
    let n = digits_len(bytes);
    bytes.split_at(n)
}
