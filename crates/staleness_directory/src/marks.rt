//! The marks of a chunk.

ghost use Rattle.std.specs.Prelude.{◌≡◌, ◌≤◌};
ghost use Rattle.staleness_directory.specs.Marks.{are_marks, marks_to};

use std::marker::Model;

/// The marks of a chunk: of each of its 256 extents a byte, whose bit k is set where copy k is
/// stale. Contracts see the bytes.
#[derive(Clone, Copy, Debug)]
pub struct Marks {
    pub bits: [u8; 256],
}

impl Model for Marks {
    ghost use Rattle.std.specs.Prelude.{List as Items, ℕ};

    ghost Value = { Items ℕ };

    ghost view = { λ m. m.bits };

    ghost inverse = { λ bits. record { bits = bits } };
}

impl Marks {
    ghost use Rattle.std.specs.Prelude.{◌≡◌};
    ghost use Rattle.asm_formats.specs.Items.{is_item, marks_item};

    /// Whether a directory may hold them as those of a chunk: each extent has three copies at most.
    #[tactic(auto, using(crate::proofs::Laws::marks_allowed))]
    pub fn is_allowed(&self, file: u32, chunk: u32) -> bool
        ensures { result ≡ is_item (marks_item file chunk self.now) }
    {
        // Reading a number shows that it is one of its type.
        let _file = file;
        chunk != u32::MAX && are_marks(&self.bits)
    }

    /// Takes the marks of the extents from a place on away.
    pub fn cut(&mut self, kept: usize)
        requires { kept ≤ 256 }
        ensures { self.new ≡ marks_to kept self.old }
    {
        let chunk = [0; 256];
        let none = &chunk[..];
        let bits = &mut self.bits[..];
        bits[kept..].copy_from_slice(&none[kept..]);
    }
}

/// An extent has three copies at most.
pub(crate) fn are_marks(bytes: &[u8]) -> bool
    ensures { result ≡ are_marks bytes.now }
{
    bytes.iter().all(|marks| *marks < 8)
}
