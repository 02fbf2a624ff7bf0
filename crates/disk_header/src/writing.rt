//! The one spelling of a header.

ghost use Rattle.std.specs.Prelude.{◌≡◌, ◌≤◌, IsTrue};
ghost use Rattle.asm_formats.specs.Header.{is_header, header_fields, header_spelling};
ghost use Rattle.asm_base.specs.Cursors.{PutsField};

use crate::header::Header;
use asm_base::{
    Block, Writer, finish, put_bytes, put_flag, put_name, put_u8, put_u16, put_u32, put_u64,
};
use byte_codes::put_kind;

/// Fills the block with the header. Its values are such as a header may have.
#[tactic(auto, unfolding(asm_formats::specs::Header::header_spelling))]
pub fn encode(header: &Header, block: &mut Block)
    requires { IsTrue (is_header header.now) }
    ensures { block.new.bytes ≡ header_spelling header.now }
{
    let mut to = Writer { block, at: 0 };
    put_header(&mut to, header);
    finish(&mut to);
}

fn put_header(to: &mut Writer, header: &Header)
    requires start { to.old.at ≡ 0 }
    requires right { IsTrue (is_header header.now) }
    ensures puts { PutsField to.old to.new (header_fields header.now) }
    ensures at { to.new.at ≤ 4096 }
{
    put_bytes(to, b"ASMH\x02");
    put_name(to, &header.group, 30);
    put_u64(to, header.id);
    put_u8(to, header.number);
    put_u64(to, header.birth);
    put_kind(to, header.kind);
    put_name(to, &header.disk, 30);
    put_name(to, &header.failgroup, 30);
    put_flag(to, header.quorum);
    put_u32(to, header.au_size);
    put_u16(to, header.sector as u16);
    put_u16(to, header.step as u16);
    put_u16(to, header.dir_blocks as u16);
}
