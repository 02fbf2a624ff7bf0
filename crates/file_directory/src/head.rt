//! The head of a file.

ghost use Rattle.std.specs.Prelude.{◌≡◌, ◌&&◌, length, nat_le, nat_lt, true};
ghost use Rattle.asm_formats.specs.asm_group.Names.{is_part};
ghost use Rattle.asm_formats.specs.Items.{is_redundancy};

use asm_base::{Name, NoMemory, Stripe};
use std::marker::Model;

/// What a group knows of a file besides its names' places and its extents' homes. Contracts see it
/// as the head of the formats.
#[derive(Debug, Drop)]
pub struct FileHead {
    /// Copies of each extent: one, two or three.
    pub copies: u8,
    pub stripe: Stripe,
    /// The name of the file's type.
    pub kind: Name,
    /// Bytes in the file.
    pub size: u64,
    /// The file's incarnation, never used again in the group.
    pub incarnation: u64,
    /// The node of its system name, never 0.
    pub system: u32,
    /// The node of its alias, or 0 where it has none.
    pub alias: u32,
}

impl Model for FileHead {
    ghost use Rattle.asm_formats.specs.Items.{FileHead as FormatHead};

    ghost Value = { FormatHead };

    ghost view = { λ h. record { copies = h.copies; stripe = h.stripe; type_name = h.kind; size = h.size; incarnation = h.incarnation; system = h.system; alias = h.alias } };
}

impl FileHead {
    ghost use Rattle.std.specs.Prelude.{◌≡◌, IfOk};
    ghost use Rattle.asm_formats.specs.Items.{file_item, is_item};

    pub fn copy(&self) -> Result<FileHead, NoMemory>
        ensures { IfOk result (λ h. h ≡ self.now) }
    {
        Ok(FileHead {
            copies: self.copies,
            stripe: self.stripe,
            kind: self.kind.copy()?,
            size: self.size,
            incarnation: self.incarnation,
            system: self.system,
            alias: self.alias,
        })
    }

    /// Whether a directory may hold it as the head of this file: one, two or three copies, a type
    /// of at most 30 bytes, and a system node.
    pub fn is_allowed(&self, file: u32) -> bool
        ensures { result ≡ is_item (file_item file self.now) }
    {
        // Reading a number shows that it is one of its type.
        let _size = self.size;
        let _incarnation = self.incarnation;
        let _system = self.system;
        let _alias = self.alias;
        let _file = file;
        is_right(self)
    }
}

/// Whether a head passes the tests that are left where its numbers are those of their types.
fn is_right(head: &FileHead) -> bool
    ensures test { result ≡ (is_redundancy head.now.copies
        && (nat_le (length head.now.type_name) 30 && nat_lt 0 head.now.system)) }
    ensures part { is_part 255 head.now.type_name ≡ true }
{
    let len = head.kind.as_bytes().len();
    1 <= head.copies && head.copies <= 3 && len <= 30 && 0 < head.system
}
