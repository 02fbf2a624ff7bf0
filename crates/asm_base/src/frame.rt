//! A directory record in its block: a frame of its key and its value.

ghost use Rattle.std.specs.Prelude.{◌≡◌, ◌≤◌, ◌<◌, ◌^◌, length, IfOk};
ghost use Rattle.std.specs.Option.{option_map};
ghost use Rattle.asm_formats.specs.Records.{frame_spelling, decoded_frame};
ghost use Rattle.asm_base.specs.Cursors.{PutsField, Reads};
ghost use Rattle.asm_base.specs.Frames.{entry_frame, framed_entry, frame_fields, head_reading};

use crate::block::Block;
use crate::cursor::{
    Reader, Writer, are_zeros, finish, put_bytes, put_u16, put_u32, put_zeros, take_fixed,
    take_u16, take_u32,
};
use crate::kinds::NoMemory;
use crate::records::{Key, Value};
use std::alloc::Global;

/// The most bytes in a value.
pub const MOST_VALUE: usize = 4064;

/// Fills the block with the record of this key and value.
#[tactic(auto, unfolding(asm_formats::specs::Records::frame_spelling, crate::specs::Frames::frame_fields))]
pub fn encode_record(key: &Key, value: &Value, block: &mut Block)
    ensures { block.new.bytes ≡ frame_spelling (entry_frame (key.now, value.now)) }
{
    let mut to = Writer { block, at: 0 };
    put_frame(&mut to, *key, value.as_bytes());
    finish(&mut to);
}

#[tactic(auto, unfolding(crate::specs::Frames::frame_fields))]
fn put_frame(to: &mut Writer, key: Key, value: &[u8])
    requires start { to.old.at ≡ 0 }
    requires few { length value.now ≤ 4064 }
    ensures puts { PutsField to.old to.new (frame_fields (key, value.now)) }
    ensures at { to.new.at ≤ 4096 }
{
    put_bytes(to, b"ASMR");
    put_u16(to, key.kind);
    put_u32(to, key.a);
    put_u32(to, key.b);
    put_u16(to, value.len() as u16);
    put_zeros(to, 16);
    put_bytes(to, value);
}

/// The key and the value of the record in the block, or None where the block isn't the one
/// spelling of any.
pub fn decode_record(alloc: Global, block: &Block) -> Result<Option<(Key, Value)>, NoMemory>
    ensures { IfOk result (λ read. option_map entry_frame read ≡ decoded_frame block.now.bytes) }
{
    decode_bytes(alloc, &block.bytes)
}

#[tactic(auto, using(crate::proofs::FrameLaws::frame_is_read))]
fn decode_bytes(alloc: Global, bytes: &[u8]) -> Result<Option<(Key, Value)>, NoMemory>
    requires { length bytes.now ≡ 4096 }
    ensures { IfOk result (λ read. option_map entry_frame read ≡ decoded_frame bytes.now) }
{
    let read = read_bytes(alloc, bytes)?;
    Ok(read)
}

fn read_bytes(alloc: Global, bytes: &[u8]) -> Result<Option<(Key, Value)>, NoMemory>
    requires { length bytes.now ≤ 4096 }
    ensures { IfOk result (λ read. read ≡ framed_entry bytes.now) }
{
    let mut from = Reader { bytes, at: 0 };
    let Some((key, len)) = take_record_head(&mut from) else {
        return Ok(None);
    };
    let rest = &from.bytes[from.at as usize..];
    let len = len as usize;
    if len > MOST_VALUE || rest.len() < len || !are_zeros(&rest[len..]) {
        return Ok(None);
    }
    let value = Value::from_slice(alloc, &rest[..len])?;
    Ok(Some((key, value)))
}

/// Takes the key of a record and the length of its value. Where there is none, some bytes may be
/// gone.
#[tactic(auto, unfolding(crate::specs::Frames::head_reading))]
pub fn take_record_head(from: &mut Reader) -> Option<(Key, u16)>
    ensures { Reads from.new result (head_reading from.old) }
{
    take_fixed(from, b"ASMR")?;
    let kind = take_u16(from)?;
    let a = take_u32(from)?;
    let b = take_u32(from)?;
    let len = take_u16(from)?;
    take_fixed(from, &[0; 16])?;
    Some((Key { kind, a, b }, len))
}
