//! The reading of a header.

ghost use Rattle.std.specs.Prelude.{◌≡◌, ◌≤◌, length, IfOk};
ghost use Rattle.asm_formats.specs.Header.{decoded_header, is_header};
ghost use Rattle.asm_base.specs.Cursors.{Reads};
ghost use Rattle.asm_base.specs.Readings.{whole_reading};
ghost use Rattle.disk_header.specs.Readings.{ids_reading, sizes_reading, header_reading, is_right_header, right_header};

use crate::header::Header;
use asm_base::{
    Block, GroupKind, NoMemory, Reader, Shape, has_only_zeros, take_fixed, take_flag, take_name,
    take_u8, take_u16, take_u32, take_u64,
};
use byte_codes::take_kind;
use std::alloc::Global;

/// The header that the block is the spelling of, or None where it isn't that of any.
pub fn decode(alloc: Global, block: &Block) -> Result<Option<Header>, NoMemory>
    ensures { IfOk result (λ read. read ≡ decoded_header block.now.bytes) }
{
    decode_bytes(alloc, &block.bytes)
}

#[tactic(auto, using(crate::proofs::Laws::header_is_read))]
fn decode_bytes(alloc: Global, bytes: &[u8]) -> Result<Option<Header>, NoMemory>
    requires { length bytes.now ≡ 4096 }
    ensures { IfOk result (λ read. read ≡ decoded_header bytes.now) }
{
    let read = read_right(alloc, bytes)?;
    Ok(read)
}

fn read_right(alloc: Global, bytes: &[u8]) -> Result<Option<Header>, NoMemory>
    requires { length bytes.now ≤ 4096 }
    ensures { IfOk result (λ read. read ≡ right_header (whole_reading header_reading bytes.now)) }
{
    let Some(header) = read_bytes(alloc, bytes)? else {
        return Ok(None);
    };
    if is_right(&header) {
        Ok(Some(header))
    } else {
        Ok(None)
    }
}

fn read_bytes(alloc: Global, bytes: &[u8]) -> Result<Option<Header>, NoMemory>
    requires { length bytes.now ≤ 4096 }
    ensures { IfOk result (λ read. read ≡ whole_reading header_reading bytes.now) }
{
    let mut from = Reader { bytes, at: 0 };
    let Some(header) = take_header(alloc, &mut from)? else {
        return Ok(None);
    };
    if has_only_zeros(&from) {
        Ok(Some(header))
    } else {
        Ok(None)
    }
}

/// Whether the values are such as a header may have.
pub fn is_header(header: &Header) -> bool
    ensures { result ≡ is_header header.now }
{
    // Reading a number shows that it is one of its type.
    let _id = header.id;
    let _birth = header.birth;
    is_right(header)
}

/// The same, where the numbers are those of their types.
#[tactic(auto, unfolding(crate::specs::Readings::is_right_header))]
fn is_right(header: &Header) -> bool
    ensures { result ≡ is_right_header header.now }
{
    let shape = Shape {
        kind: header.kind,
        au: header.au_size,
        sector: header.sector,
        step: header.step,
        dir_blocks: header.dir_blocks,
    };
    shape.is_allowed()
        && header.group.is_name()
        && header.number < 64
        && header.disk.is_name()
        && header.failgroup.is_name()
}

/// The group's id, and the disk's number and birth.
#[derive(Clone, Copy)]
struct Ids {
    id: u64,
    number: u8,
    birth: u64,
    kind: GroupKind,
}

/// What stands behind the names.
#[derive(Clone, Copy)]
struct Sizes {
    quorum: bool,
    au_size: u32,
    sector: u16,
    step: u16,
    dir_blocks: u16,
}

#[tactic(auto, unfolding(crate::specs::Readings::header_reading))]
fn take_header(alloc: Global, from: &mut Reader) -> Result<Option<Header>, NoMemory>
    ensures { IfOk result (λ read. Reads from.new read (header_reading from.old)) }
{
    // "ASMH", and the form of a disk whose directory copy is pages with a log
    let Some(()) = take_fixed(from, b"ASMH\x02") else {
        return Ok(None);
    };
    let Some(group) = take_name(alloc, from, 30)? else {
        return Ok(None);
    };
    let Some(ids) = take_ids(from) else {
        return Ok(None);
    };
    let Some(disk) = take_name(alloc, from, 30)? else {
        return Ok(None);
    };
    let Some(failgroup) = take_name(alloc, from, 30)? else {
        return Ok(None);
    };
    let Some(sizes) = take_sizes(from) else {
        return Ok(None);
    };
    Ok(Some(Header {
        group,
        id: ids.id,
        number: ids.number,
        birth: ids.birth,
        kind: ids.kind,
        disk,
        failgroup,
        quorum: sizes.quorum,
        au_size: sizes.au_size,
        sector: sizes.sector as u32,
        step: sizes.step as u32,
        dir_blocks: sizes.dir_blocks as u32,
    }))
}

#[tactic(auto, unfolding(crate::specs::Readings::ids_reading))]
fn take_ids(from: &mut Reader) -> Option<Ids>
    ensures { Reads from.new result (ids_reading from.old) }
{
    Some(Ids {
        id: take_u64(from)?,
        number: take_u8(from)?,
        birth: take_u64(from)?,
        kind: take_kind(from)?,
    })
}

#[tactic(auto, unfolding(crate::specs::Readings::sizes_reading))]
fn take_sizes(from: &mut Reader) -> Option<Sizes>
    ensures { Reads from.new result (sizes_reading from.old) }
{
    Some(Sizes {
        quorum: take_flag(from)?,
        au_size: take_u32(from)?,
        sector: take_u16(from)?,
        step: take_u16(from)?,
        dir_blocks: take_u16(from)?,
    })
}
