//! What the bytes at a command's front say of it.

ghost use Rattle.std.specs.Prelude.{◌≡◌, ◌≤◌, length};
ghost use Rattle.std.specs.List.{prefix_len};
ghost use Rattle.asm_grammar.specs.Bytes.{is_blank};
ghost use Rattle.asm_grammar.specs.FirstWord.{is_first_word_byte, is_keyword, opens_statement};
ghost use Rattle.script.specs.Script.{begins_comment};

pub fn begins_comment(bytes: &[u8]) -> bool
    ensures { result ≡ begins_comment bytes.now }
{
    matches!(bytes, [b'-', b'-', ..])
}

pub fn is_blank(byte: u8) -> bool
    ensures { result ≡ is_blank byte }
{
    matches!(byte, b' ' | b'\t' | b'\r' | b'\n')
}

fn is_first_word_byte(byte: u8) -> bool
    ensures { result ≡ is_first_word_byte byte }
{
    !is_blank(byte) && !matches!(byte, b'\'' | b'(' | b')' | b',' | b';' | b'=')
}

/// Whether the first word is CREATE, ALTER or DROP.
#[tactic(auto, unfolding(asm_grammar::specs::FirstWord::opens_statement))]
pub fn opens_statement(bytes: &[u8]) -> bool
    ensures { result ≡ opens_statement bytes.now }
{
    let word = &bytes[..word_len(bytes)];
    is_keyword(word, b"CREATE") || is_keyword(word, b"ALTER") || is_keyword(word, b"DROP")
}

/// How many bytes the first word has.
pub fn word_len(bytes: &[u8]) -> usize
    ensures within { result ≤ length bytes.now }
    ensures len { result ≡ prefix_len is_first_word_byte bytes.now }
{
    for (at, byte) in bytes.iter().enumerate() {
        if !is_first_word_byte(*byte) {
            return at;
        }
    }
    bytes.len()
}

fn is_keyword(word: &[u8], keyword: &[u8]) -> bool
    ensures { result ≡ is_keyword word.now keyword.now }
{
    word.eq_ignore_ascii_case(keyword)
}
