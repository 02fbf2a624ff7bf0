//! Cursors that put the fields of a body into a block, and take them from bytes. Numbers are
//! big-endian.

ghost use Rattle.std.specs.Prelude.{◌≡◌, ◌≤◌, ◌+◌, ◌++◌, ◌∷◌, [], ◌<◌, ◌^◌, ◌==◌, List, ℕ, drop, length, replicate};
ghost use Rattle.std.specs.Int.{w16, w32, w64};
ghost use Rattle.std.specs.List.{list_all};
ghost use Rattle.asm_formats.specs.Bytes.{number_bytes, whole_block};
ghost use Rattle.asm_formats.specs.Codes.{flag};
ghost use Rattle.asm_base.specs.Cursors.{PutsField, TakesValue, Reads, written_bytes};
ghost use Rattle.asm_base.specs.Readings.{byte_reading, number_reading, fixed_reading, flag_reading};

use crate::block::Block;
use crate::disk_set::DiskSet;
use byteorder::{BigEndian, ByteOrder};
use std::marker::Model;

/// Puts fields into a block, one after the other.
#[derive(Drop)]
pub struct Writer<'a> {
    pub block: &'a mut Block,
    /// Where the next field goes, in bytes.
    pub at: u32,
}

/// Puts bytes behind what was put before.
pub fn put_bytes(to: &mut Writer, bytes: &[u8])
    requires { to.old.at + length bytes.now ≤ 4096 }
    ensures puts { PutsField to.old to.new bytes.now }
    ensures at { to.new.at ≡ to.old.at + length bytes.now }
{
    let at = to.at as usize;
    let end = at + bytes.len();
    let all = &mut to.block.bytes[..];
    all[at..end].copy_from_slice(bytes);
    to.at = end as u32;
}

pub fn put_u8(to: &mut Writer, value: u8)
    requires { to.old.at + 1 ≤ 4096 }
    ensures puts { PutsField to.old to.new (value ∷ []) }
    ensures at { to.new.at ≡ to.old.at + 1 }
{
    put_bytes(to, &[value]);
}

#[tactic(auto, unfolding(asm_formats::specs::Bytes::number_bytes))]
pub fn put_u16(to: &mut Writer, value: u16)
    requires { to.old.at + 2 ≤ 4096 }
    ensures puts { PutsField to.old to.new (number_bytes w16 value) }
    ensures at { to.new.at ≡ to.old.at + 2 }
{
    let mut field = [0; 2];
    BigEndian::write_u16(&mut field, value);
    put_bytes(to, &field);
}

#[tactic(auto, unfolding(asm_formats::specs::Bytes::number_bytes))]
pub fn put_u32(to: &mut Writer, value: u32)
    requires { to.old.at + 4 ≤ 4096 }
    ensures puts { PutsField to.old to.new (number_bytes w32 value) }
    ensures at { to.new.at ≡ to.old.at + 4 }
{
    let mut field = [0; 4];
    BigEndian::write_u32(&mut field, value);
    put_bytes(to, &field);
}

#[tactic(auto, unfolding(asm_formats::specs::Bytes::number_bytes))]
pub fn put_u64(to: &mut Writer, value: u64)
    requires { to.old.at + 8 ≤ 4096 }
    ensures puts { PutsField to.old to.new (number_bytes w64 value) }
    ensures at { to.new.at ≡ to.old.at + 8 }
{
    let mut field = [0; 8];
    BigEndian::write_u64(&mut field, value);
    put_bytes(to, &field);
}

/// Puts 1 for yes and 0 for no.
pub fn put_flag(to: &mut Writer, value: bool)
    requires { to.old.at + 1 ≤ 4096 }
    ensures puts { PutsField to.old to.new (flag value ∷ []) }
    ensures at { to.new.at ≡ to.old.at + 1 }
{
    put_u8(to, value as u8);
}

/// Puts a set of disks: bit k, counted from the least, is disk k.
pub fn put_set(to: &mut Writer, value: DiskSet)
    requires { to.old.at + 8 ≤ 4096 }
    ensures puts { PutsField to.old to.new (number_bytes w64 value) }
    ensures at { to.new.at ≡ to.old.at + 8 }
{
    put_u64(to, value.bits());
}

/// Puts zeros.
pub fn put_zeros(to: &mut Writer, count: u32)
    requires { to.old.at + count ≤ 4096 }
    ensures puts { PutsField to.old to.new (replicate count 0) }
    ensures at { to.new.at ≡ to.old.at + count }
{
    let zeros = [0; 4096];
    put_bytes(to, &zeros[..count as usize]);
}

/// Puts zeros into the rest of the block.
#[tactic(auto, using(crate::proofs::FieldLaws::block_is_filled), unfolding(asm_formats::specs::Bytes::whole_block))]
pub fn finish(to: &mut Writer)
    requires { to.old.at ≤ 4096 }
    ensures filled { to.new.block.now.bytes ≡ whole_block (written_bytes to.old) }
    ensures same_block { to.new.block.ghost_name ≡ to.old.block.ghost_name }
{
    let left = 4096 - to.at;
    put_zeros(to, left);
}

/// Takes fields from bytes, one after the other. Contracts see the bytes that are left.
#[derive(Drop)]
pub struct Reader<'a> {
    pub bytes: &'a [u8],
    /// Where the next field begins, in bytes.
    pub at: u32,
}

impl<'a> Model for Reader<'a> {
    ghost Value = { List ℕ };

    ghost view = { λ r. drop r.at r.bytes.now };

    ghost invariant = { λ r. (r.at ≤ length r.bytes.now) × (length r.bytes.now < 2 ^ 32) };
}

/// Takes a byte, or None where none is left.
pub fn take_u8(from: &mut Reader) -> Option<u8>
    ensures { TakesValue from.old from.new result (byte_reading from.old) }
{
    let rest = &from.bytes[from.at as usize..];
    let value = *rest.first()?;
    from.at += 1;
    Some(value)
}

/// Takes a number of two bytes, or None where fewer are left.
#[tactic(auto, unfolding(crate::specs::Readings::number_reading))]
pub fn take_u16(from: &mut Reader) -> Option<u16>
    ensures { TakesValue from.old from.new result (number_reading w16 from.old) }
{
    let rest = &from.bytes[from.at as usize..];
    if rest.len() < 2 {
        return None;
    }
    let value = BigEndian::read_u16(rest);
    from.at += 2;
    Some(value)
}

/// Takes a number of four bytes, or None where fewer are left.
#[tactic(auto, unfolding(crate::specs::Readings::number_reading))]
pub fn take_u32(from: &mut Reader) -> Option<u32>
    ensures { TakesValue from.old from.new result (number_reading w32 from.old) }
{
    let rest = &from.bytes[from.at as usize..];
    if rest.len() < 4 {
        return None;
    }
    let value = BigEndian::read_u32(rest);
    from.at += 4;
    Some(value)
}

/// Takes a number of eight bytes, or None where fewer are left.
#[tactic(auto, unfolding(crate::specs::Readings::number_reading))]
pub fn take_u64(from: &mut Reader) -> Option<u64>
    ensures { TakesValue from.old from.new result (number_reading w64 from.old) }
{
    let rest = &from.bytes[from.at as usize..];
    if rest.len() < 8 {
        return None;
    }
    let value = BigEndian::read_u64(rest);
    from.at += 8;
    Some(value)
}

/// Takes a byte that is 0 or 1. Where there is none, a byte may be gone.
pub fn take_flag(from: &mut Reader) -> Option<bool>
    ensures { Reads from.new result (flag_reading from.old) }
{
    match take_u8(from)? {
        0 => Some(false),
        1 => Some(true),
        _ => None,
    }
}

/// Takes a set of disks.
pub fn take_set(from: &mut Reader) -> Option<DiskSet>
    ensures { TakesValue from.old from.new result (number_reading w64 from.old) }
{
    Some(DiskSet::from_bits(take_u64(from)?))
}

/// Takes bytes that must be these. Where they aren't, some may be gone.
#[tactic(auto, unfolding(crate::specs::Readings::fixed_reading))]
pub fn take_fixed(from: &mut Reader, field: &[u8]) -> Option<()>
    ensures { Reads from.new result (fixed_reading field.now from.old) }
{
    match field {
        [] => Some(()),
        [first, others @ ..] => {
            if take_u8(from)? != *first {
                return None;
            }
            take_fixed(from, others)
        }
    }
}

/// Whether no bytes are left.
pub fn is_at_end(from: &Reader) -> bool
    ensures { result ≡ (length from.now == 0) }
{
    from.at as usize == from.bytes.len()
}

/// Whether only zeros are left.
pub fn has_only_zeros(from: &Reader) -> bool
    ensures { result ≡ list_all (λ b. b == 0) from.now }
{
    are_zeros(&from.bytes[from.at as usize..])
}

/// Whether all bytes are zeros.
pub fn are_zeros(bytes: &[u8]) -> bool
    ensures { result ≡ list_all (λ b. b == 0) bytes.now }
{
    bytes.iter().all(|b| *b == 0)
}
