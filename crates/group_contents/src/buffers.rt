// Buffers for the bytes of files.
ghost use Rattle.std.specs.Prelude.{◌≡◌, IfOk, min, replicate};

use asm_base::NoMemory;
use file_extents::LONGEST_PIECE;
use std::alloc::Global;

/// A buffer that is full of a byte, for a piece of so many bytes: of 1 MiB at most.
pub fn buffer(alloc: Global, len: u64, byte: u8) -> Result<Vec<u8>, NoMemory>
    ensures { IfOk result (λ v. v.items ≡ replicate (min len 1048576) byte) }
{
    let len = len.min(LONGEST_PIECE) as usize;
    let mut buf = Vec::with_capacity(alloc, len).map_err(|_| NoMemory)?;
    buf.resize(len, byte).map_err(|_| NoMemory)?;
    Ok(buf)
}
