//! The reading of a status record.

ghost use Rattle.std.specs.Prelude.{◌≡◌, ◌≤◌, length, take};
ghost use Rattle.asm_formats.specs.Status.{decoded_status};
ghost use Rattle.asm_base.specs.Readings.{fixed_reading, repeated, whole_reading};
ghost use Rattle.asm_base.specs.Cursors.{Reads, ReadsBy};
ghost use Rattle.status_table.specs.Rules.{right_status};
ghost use Rattle.status_table.specs.Readings.{tag_of, entry_reading, next_reading, status_reading};

use crate::record::{PstEntry, PstRecord};
use crate::rules::is_status;
use asm_base::{
    Block, DiskSet, Reader, has_only_zeros, take_fixed, take_flag, take_set, take_u8, take_u32,
    take_u64,
};
use byte_codes::take_mode;

/// The version of a spelling.
#[derive(Clone, Copy)]
enum Version {
    /// Without next holders. It is read and never written.
    One,
    Two,
}

/// The record of which the block is a spelling, or None where it isn't that of any.
pub fn decode(block: &Block) -> Option<PstRecord>
    ensures { result ≡ decoded_status block.now.bytes }
{
    decode_bytes(&block.bytes)
}

#[tactic(auto, using(crate::proofs::Laws::status_is_read))]
fn decode_bytes(bytes: &[u8]) -> Option<PstRecord>
    requires { length bytes.now ≡ 4096 }
    ensures { result ≡ decoded_status bytes.now }
{
    read_version(bytes, Version::Two).or(read_version(bytes, Version::One))
}

fn read_version(bytes: &[u8], version: Version) -> Option<PstRecord>
    requires { length bytes.now ≤ 4096 }
    ensures { result ≡ right_status (whole_reading (status_reading version) bytes.now) }
{
    let status = read_bytes(bytes, version)?;
    if is_status(&status) {
        Some(status)
    } else {
        None
    }
}

fn read_bytes(bytes: &[u8], version: Version) -> Option<PstRecord>
    requires { length bytes.now ≤ 4096 }
    ensures { result ≡ whole_reading (status_reading version) bytes.now }
{
    let mut from = Reader { bytes, at: 0 };
    let status = take_record(&mut from, version)?;
    if has_only_zeros(&from) {
        Some(status)
    } else {
        None
    }
}

#[tactic(auto, unfolding(crate::specs::Readings::status_reading))]
fn take_record(from: &mut Reader, version: Version) -> Option<PstRecord>
    ensures { Reads from.new result (status_reading version from.old) }
{
    take_tag(from, version)?;
    let id = take_u64(from)?;
    let epoch = take_u64(from)?;
    let turn = take_u64(from)?;
    let gone = take_flag(from)?;
    let births = take_u64(from)?;
    let holders = take_set(from)?;
    let next_holders = take_next(from, version)?;
    let dirs = take_set(from)?;
    let count = take_u8(from)?;
    if count > 64 {
        return None;
    }
    let entries = take_entries(from, count)?;
    Some(PstRecord {
        id,
        epoch,
        turn,
        gone,
        births,
        holders,
        next_holders,
        dirs,
        count,
        entries,
    })
}

fn take_tag(from: &mut Reader, version: Version) -> Option<()>
    ensures { Reads from.new result (fixed_reading (tag_of version) from.old) }
{
    match version {
        Version::One => take_fixed(from, b"ASMP\x00\x01"),
        Version::Two => take_fixed(from, b"ASMP\x00\x02"),
    }
}

fn take_next(from: &mut Reader, version: Version) -> Option<DiskSet>
    ensures { Reads from.new result (next_reading version from.old) }
{
    match version {
        Version::One => Some(DiskSet::empty()),
        Version::Two => take_set(from),
    }
}

/// An array that begins with `count` entries.
#[tactic(auto, using(asm_base::proofs::Loops::stores, asm_base::proofs::Loops::fails, asm_base::proofs::Loops::is_done))]
fn take_entries(from: &mut Reader, count: u8) -> Option<[PstEntry; 64]>
    requires { count ≤ 64 }
    ensures { ReadsBy (λ xs. take count xs) from.new result
        (repeated count entry_reading from.old) }
{
    let mut entries = [PstEntry::blank(); 64];
    for i in 0..count {
        entries[i as usize] = take_entry(from)?;
    }
    Some(entries)
}

#[tactic(auto, unfolding(crate::specs::Readings::entry_reading))]
fn take_entry(from: &mut Reader) -> Option<PstEntry>
    ensures { Reads from.new result (entry_reading from.old) }
{
    Some(PstEntry {
        number: take_u8(from)?,
        birth: take_u64(from)?,
        mode: take_mode(from)?,
        failgroup: take_u8(from)?,
        quorum: take_flag(from)?,
        units: take_u32(from)?,
        since: take_u64(from)?,
        repair: take_u64(from)?,
        partners: take_set(from)?,
    })
}
