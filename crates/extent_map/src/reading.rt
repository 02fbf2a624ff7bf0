//! The value of a chunk's record, read.

ghost use Rattle.std.specs.Prelude.{◌≡◌, ◌<◌, ◌+◌, ◌^◌, length, IfOk};
ghost use Rattle.std.specs.Option.{option_map};
ghost use Rattle.asm_formats.specs.Items.{chunk_item};
ghost use Rattle.asm_formats.specs.Values.{decoded_item};
ghost use Rattle.asm_base.specs.Cursors.{Reads};
ghost use Rattle.asm_base.specs.Readings.{repeated};
ghost use Rattle.asm_base.specs.Records.{all_of};
ghost use Rattle.extent_map.specs.Extents.{chunk_key};
ghost use Rattle.record_values.specs.Values.{chunk_reading, extent_reading};

use crate::chunk::Chunk;
use asm_base::{CHUNK_LEN, Homes, List, NoMemory, Reader, is_at_end};
use record_values::take_home;
use std::alloc::Global;

/// The extents of a file's chunk that a value has, or None where their record isn't of the formats.
pub fn chunk_in(
    alloc: Global,
    file: u32,
    chunk: u32,
    bytes: &[u8],
) -> Result<Option<Chunk>, NoMemory>
    requires number { chunk + 1 < 2 ^ 32 }
    requires few { length bytes.now < 2 ^ 32 }
    ensures { IfOk result (λ read. option_map (chunk_item file chunk) read
        ≡ decoded_item (chunk_key file chunk) bytes.now) }
{
    let read = read_chunk(alloc, bytes)?;
    Ok(read)
}

#[tactic(auto, using(asm_base::proofs::Tables::bytes_are), unfolding(asm_base::specs::Records::all_of))]
fn read_chunk(alloc: Global, bytes: &[u8]) -> Result<Option<Chunk>, NoMemory>
    requires { length bytes.now < 2 ^ 32 }
    ensures { IfOk result (λ read. read ≡ all_of chunk_reading bytes.now) }
{
    let mut from = Reader { bytes, at: 0 };
    let Some(chunk) = take_extents(alloc, &mut from)? else {
        return Ok(None);
    };
    if is_at_end(&from) {
        Ok(Some(chunk))
    } else {
        Ok(None)
    }
}

#[tactic(auto, using(asm_base::proofs::Loops::goes_on, asm_base::proofs::Loops::fails, asm_base::proofs::Loops::is_done, asm_base::proofs::Loops::starts), unfolding(record_values::specs::Values::chunk_reading))]
fn take_extents(alloc: Global, from: &mut Reader) -> Result<Option<Chunk>, NoMemory>
    ensures { IfOk result (λ read. Reads from.new read (chunk_reading from.old)) }
{
    let mut homes = List::from_vec(Vec::with_capacity(alloc, CHUNK_LEN).map_err(|_| NoMemory)?);
    for i in 0..CHUNK_LEN {
        let Some(extent) = take_extent(from) else {
            return Ok(None);
        };
        homes.push(extent)?;
    }
    Ok(Some(Chunk::from_homes(homes.into_vec())))
}

#[tactic(auto, unfolding(record_values::specs::Values::extent_reading, asm_base::specs::Readings::repeated))]
fn take_extent(from: &mut Reader) -> Option<Homes>
    ensures { Reads from.new result (extent_reading from.old) }
{
    Some(Homes {
        first: take_home(from)?,
        second: take_home(from)?,
        third: take_home(from)?,
    })
}
