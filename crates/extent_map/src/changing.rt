//! Changes of the table of extents, record by record.

ghost use Rattle.std.specs.Prelude.{◌≡◌, ◌<◌, ◌+◌, ◌^◌, IfOk, None, OnErr, Some, if◌then◌else◌};
ghost use Rattle.std.specs.Bool.{OnFalse, OnTrue};
ghost use Rattle.std.specs.BTreeMap.{is_at};
ghost use Rattle.asm_formats.specs.Values.{decoded_item};
ghost use Rattle.extent_map.specs.Changing.{AreChunks, chunk_value_at};
ghost use Rattle.extent_map.specs.Extents.{chunk_key};
ghost use Rattle.asm_base.specs.Chunks.{Chunk, chunk_cmp};

use crate::reading::chunk_in;
use crate::table::ExtentMap;
use asm_base::{NoMemory, Value};
use std::alloc::Global;

impl ExtentMap {
    /// Puts a chunk with the extents that the value of its record says. `false`, with the table as
    /// it was, where the value isn't that of a chunk. Where there is no memory the table stays. In
    /// the midst of a change the extents of a file may have a gap.
    #[tactic(auto, using(crate::proofs::ChangeLaws::record_put, crate::proofs::ChangeLaws::put_keeps_chunks, crate::proofs::ChangeLaws::not_read))]
    pub fn put_record(
        &mut self,
        alloc: Global,
        file: u32,
        chunk: u32,
        value: &Value,
    ) -> Result<bool, NoMemory>
        requires { chunk + 1 < 2 ^ 32 }
        ensures put { IfOk result (λ put. OnTrue put
            ((c : Chunk) → chunk_value_at self.new c
            ≡ (if is_at (chunk_cmp (file, chunk)) c then Some value.now
            else chunk_value_at self.old c))) }
        ensures refused { IfOk result (λ put. OnFalse put
            (decoded_item (chunk_key file chunk) value.now ≡ None)) }
        ensures stays { IfOk result (λ put. OnFalse put (self.new ≡ self.old)) }
        ensures err { OnErr result (self.new ≡ self.old) }
        ensures chunks { AreChunks self.old → AreChunks self.new }
    {
        let bytes = value.as_bytes();
        let Some(homes) = chunk_in(alloc, file, chunk, bytes)? else {
            return Ok(false);
        };
        self.insert((file, chunk), homes)?;
        Ok(true)
    }

    /// Takes a chunk away, where it is there. In the midst of a change the extents of a file may
    /// have a gap.
    #[tactic(auto, using(crate::proofs::ChangeLaws::removed_keeps_chunks))]
    pub fn remove_record(&mut self, file: u32, chunk: u32)
        ensures gone { (c : Chunk) → chunk_value_at self.new c
            ≡ (if is_at (chunk_cmp (file, chunk)) c then None else chunk_value_at self.old c) }
        ensures chunks { AreChunks self.old → AreChunks self.new }
    {
        let _ = self.take_away((file, chunk));
    }
}
