//! A buffer for one line of output. It takes no memory, so a line can be printed when there is
//! none.
#![tactic(auto)]

ghost use Rattle.std.specs.Prelude.{◌≡◌, ◌≤◌, ◌<◌, ◌+◌, ◌++◌, ◌∷◌, [], length};
ghost use Rattle.std.specs.Fmt.{decimal};

use arrayvec::ArrayVec;
use itoa::Buffer;
use std::marker::Model;

/// How many bytes a buffer has room for.
pub const LONGEST_LINE: usize = 800;

/// The front of a line. Contracts see it as its bytes.
#[derive(Drop)]
pub struct LineBuffer {
    bytes: ArrayVec<u8, LONGEST_LINE>,
}

impl Model for LineBuffer {
    ghost use Rattle.std.specs.Prelude.{List as Items, ℕ};

    ghost Value = { Items ℕ };

    ghost view = { λ b. b.bytes.items };
}

impl LineBuffer {
    pub fn new() -> LineBuffer
        ensures { result ≡ [] }
    {
        LineBuffer {
            bytes: ArrayVec::new(),
        }
    }

    pub fn as_bytes(&self) -> &[u8]
        ensures { result.now ≡ self.now }
    {
        self.bytes.as_slice()
    }

    pub fn clear(&mut self)
        ensures { self.new ≡ [] }
    {
        self.bytes.clear();
    }

    /// Puts bytes at the end, for which there must be room.
    pub fn put(&mut self, bytes: &[u8])
        requires { length self.old + length bytes.now ≤ 800 }
        ensures { self.new ≡ self.old ++ bytes.now }
    {
        if self.bytes.try_extend_from_slice(bytes).is_err() {
            unreachable!()
        }
    }

    /// Puts a number at the end, in decimal digits: at most 20.
    pub fn put_number(&mut self, n: u64)
        requires { length self.old + 20 ≤ 800 }
        ensures text { self.new ≡ self.old ++ decimal n }
        ensures len { length self.new ≤ length self.old + 20 }
    {
        self.put(Buffer::new().format(n).as_bytes());
    }

    /// Puts a space and a word at the end.
    pub fn put_word(&mut self, word: &[u8])
        requires { length self.old + length word.now < 800 }
        ensures text { self.new ≡ self.old ++ 32 ∷ word.now }
        ensures len { length self.new ≡ length self.old + length word.now + 1 }
    {
        self.put(b" ");
        self.put(word);
    }

    /// Puts a space and a number at the end: at most 21 bytes.
    pub fn put_count(&mut self, n: u64)
        requires { length self.old + 21 ≤ 800 }
        ensures text { self.new ≡ self.old ++ 32 ∷ decimal n }
        ensures len { length self.new ≤ length self.old + 21 }
    {
        self.put(b" ");
        self.put_number(n);
    }
}
