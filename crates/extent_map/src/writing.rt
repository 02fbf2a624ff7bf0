//! The record of a chunk, written.

ghost use Rattle.std.specs.Prelude.{◌≡◌, ◌≤◌, ◌+◌, ◌*◌, flat_map, length, IfOk};
ghost use Rattle.asm_formats.specs.Values.{home_fields, value};
ghost use Rattle.asm_base.specs.Cursors.{PutsField};
ghost use Rattle.extent_map.specs.Extents.{record_of_chunk};

use crate::chunk::Chunk;
use asm_base::{
    Block, Home, Homes, Key, NoMemory, Value, Writer, put_bytes, put_u8, put_u32, record_kind,
};
use std::alloc::Global;

/// The record of a file's chunk.
#[tactic(auto, unfolding(asm_formats::specs::Values::value))]
pub fn chunk_record(alloc: Global, at: (u32, u32), chunk: &Chunk) -> Result<(Key, Value), NoMemory>
    requires { at.1 + 1 ≤ 4294967295 }
    ensures { IfOk result (λ made. made ≡ record_of_chunk (at, chunk.now)) }
{
    let key = Key {
        kind: record_kind::FILES,
        a: at.0,
        b: at.1 + 1,
    };
    Ok((key, chunk_value(alloc, chunk.as_slice())?))
}

fn chunk_value(alloc: Global, homes: &[Homes]) -> Result<Value, NoMemory>
    requires { length homes.now ≡ 256 }
    ensures { IfOk result (λ v. v ≡ flat_map (flat_map home_fields) homes.now) }
{
    let mut block = Block::zeros();
    let mut to = Writer {
        block: &mut block,
        at: 0,
    };
    put_extents(&mut to, homes);
    Value::from_writer(alloc, &to)
}

fn put_extents(to: &mut Writer, homes: &[Homes])
    requires { to.old.at + 15 * length homes.now ≤ 4096 }
    ensures puts { PutsField to.old to.new (flat_map (flat_map home_fields) homes.now) }
    ensures at { to.new.at ≡ to.old.at + 15 * length homes.now }
{
    put_bytes(to, &[]);
    for extent in homes {
        put_extent(to, extent);
    }
}

fn put_extent(to: &mut Writer, homes: &Homes)
    requires { to.old.at + 15 ≤ 4096 }
    ensures puts { PutsField to.old to.new (flat_map home_fields homes.now) }
    ensures at { to.new.at ≡ to.old.at + 15 }
{
    let homes = *homes;
    put_home(to, homes.first);
    put_home(to, homes.second);
    put_home(to, homes.third);
}

/// An absent home is 255 and 0.
fn put_home(to: &mut Writer, home: Option<Home>)
    requires { to.old.at + 5 ≤ 4096 }
    ensures puts { PutsField to.old to.new (home_fields home) }
    ensures at { to.new.at ≡ to.old.at + 5 }
{
    match home {
        None => {
            put_u8(to, 255);
            put_u32(to, 0);
        }
        Some(home) => {
            put_u8(to, home.disk);
            put_u32(to, home.unit);
        }
    }
}
