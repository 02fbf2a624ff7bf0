//! The value of a file's record.

ghost use Rattle.std.specs.Prelude.{◌≡◌, ◌≤◌, length, IfOk, IsTrue};
ghost use Rattle.asm_formats.specs.Items.{file_item, is_item};
ghost use Rattle.asm_formats.specs.Values.{file_value};
ghost use Rattle.asm_base.specs.Cursors.{PutsField};
ghost use Rattle.file_directory.specs.Files.{record_of_file};

use crate::head::FileHead;
use asm_base::{
    Block, Key, NoMemory, Value, Writer, put_name, put_u8, put_u32, put_u64, record_kind,
};
use byte_codes::put_stripe;
use std::alloc::Global;

/// The record of a file with this head.
#[tactic(auto, using(crate::proofs::Laws::name_fits), unfolding(asm_formats::specs::Values::value))]
pub fn record_of(alloc: Global, file: u32, head: &FileHead) -> Result<(Key, Value), NoMemory>
    requires { IsTrue (is_item (file_item file head.now)) }
    ensures { IfOk result (λ e. e ≡ record_of_file (file, head.now)) }
{
    let mut block = Block::zeros();
    let mut to = Writer {
        block: &mut block,
        at: 0,
    };
    put_head(&mut to, head);
    let value = Value::from_writer(alloc, &to)?;
    let key = Key {
        kind: record_kind::FILES,
        a: file,
        b: 0,
    };
    Ok((key, value))
}

fn put_head(to: &mut Writer, head: &FileHead)
    requires start { to.old.at ≡ 0 }
    requires fits { length head.now.type_name ≤ 30 }
    ensures puts { PutsField to.old to.new (file_value head.now) }
    ensures at { to.new.at ≡ 57 }
{
    put_u8(to, head.copies);
    put_stripe(to, head.stripe);
    put_name(to, &head.kind, 30);
    put_u64(to, head.size);
    put_u64(to, head.incarnation);
    put_u32(to, head.system);
    put_u32(to, head.alias);
}
