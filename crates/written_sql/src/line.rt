//! A text of words, made one word behind another.

ghost use Rattle.std.specs.Prelude.{◌≡◌, ◌++◌, IfOk, false};
ghost use Rattle.asm_grammar.specs.Syntax.{One};
ghost use Rattle.asm_grammar.specs.Word.{Mark};
ghost use Rattle.asm_grammar.specs.Writing.{space_unless};
ghost use Rattle.asm_world.specs.Grammar as g;
ghost use Rattle.written_sql.specs.Lines as lines;

use asm_base::{Name, NoMemory, Text};
use itoa::Buffer;
use std::alloc::Global;
use std::marker::Model;

/// Words with the spaces between them: one between two words, and none before `,`, `)`, `=` and
/// `;`, nor behind `(` and `=`.
#[derive(Drop)]
pub struct Line {
    bytes: Vec<u8>,
    /// Whether the next word stands right behind the last one.
    close: bool,
}

impl Model for Line {
    ghost use Rattle.written_sql.specs.Lines.{Line as Words};

    ghost Value = { Words };

    ghost view = { λ l. record { bytes = l.bytes.items; close = l.close } };
}

fn with_bytes(mut text: Vec<u8>, bytes: &[u8]) -> Result<Vec<u8>, NoMemory>
    ensures { IfOk result (λ longer. longer.items ≡ text.items ++ bytes.now) }
{
    text.extend_from_slice(bytes).map_err(|_| NoMemory)?;
    Ok(text)
}

/// Whether no space stands before the mark.
fn stands_close(mark: u8) -> bool
    ensures { result ≡ lines.stands_close (Mark mark) }
{
    mark == b',' || mark == b')' || mark == b'=' || mark == b';'
}

/// Whether no space stands behind the mark.
fn is_open(mark: u8) -> bool
    ensures { result ≡ lines.is_opening_mark (Mark mark) }
{
    mark == b'(' || mark == b'='
}

impl Line {
    /// No words.
    pub fn new(alloc: Global) -> Line
        ensures { result ≡ lines.empty_line }
    {
        Line {
            bytes: Vec::new(alloc),
            close: true,
        }
    }

    pub fn into_bytes(self) -> Vec<u8>
        ensures { result.items ≡ self.bytes }
    {
        self.bytes
    }

    /// The bytes of a word, behind a space where one has to stand there.
    fn word(self, word: &[u8]) -> Result<Line, NoMemory>
        ensures { IfOk result (λ longer. longer
            ≡ record {
              bytes = self.bytes ++ (space_unless self.close ++ word.now);
              close = false;
            }) }
    {
        let text = if self.close {
            self.bytes
        } else {
            with_bytes(self.bytes, b" ")?
        };
        let bytes = with_bytes(text, word)?;
        Ok(Line {
            bytes,
            close: false,
        })
    }

    pub fn key(self, word: &[u8]) -> Result<Line, NoMemory>
        ensures { IfOk result (λ longer. longer ≡ lines.with_value (g.key word.now) tt self) }
    {
        self.word(word)
    }

    pub fn name(self, name: &Name) -> Result<Line, NoMemory>
        ensures { IfOk result (λ longer. longer ≡ lines.with_value g.name name.now self) }
    {
        self.word(name.as_bytes())
    }

    /// A path or a text, in quotes.
    pub fn quoted(self, text: &Text) -> Result<Line, NoMemory>
        ensures { IfOk result (λ longer. longer ≡ lines.with_value g.path text.now self) }
    {
        let line = self.word(b"'")?;
        let bytes = with_bytes(with_bytes(line.bytes, text.as_slice())?, b"'")?;
        Ok(Line {
            bytes,
            close: false,
        })
    }

    pub fn number(self, number: u64) -> Result<Line, NoMemory>
        ensures { IfOk result (λ longer. longer ≡ lines.with_value g.number number self) }
    {
        self.word(Buffer::new().format(number).as_bytes())
    }

    /// A size in bytes, without a letter.
    pub fn size(self, size: u64) -> Result<Line, NoMemory>
        ensures { IfOk result (λ longer. longer ≡ lines.with_value g.size size self) }
    {
        self.word(Buffer::new().format(size).as_bytes())
    }

    /// A time in minutes.
    pub fn minutes(self, minutes: u64) -> Result<Line, NoMemory>
        ensures { IfOk result (λ longer. longer ≡ lines.with_value g.minutes minutes self) }
    {
        let line = self.word(Buffer::new().format(minutes).as_bytes())?;
        let bytes = with_bytes(line.bytes, b"M")?;
        Ok(Line {
            bytes,
            close: false,
        })
    }

    pub fn mark(self, mark: u8) -> Result<Line, NoMemory>
        ensures { IfOk result (λ longer. longer ≡ lines.with_value (One (Mark mark)) tt self) }
    {
        let close = stands_close(mark) || self.close;
        let line = Line {
            bytes: self.bytes,
            close,
        };
        let line = line.word(&[mark])?;
        Ok(Line {
            bytes: line.bytes,
            close: is_open(mark),
        })
    }
}
