// The chunks in which a file's extents get their homes.
use file_extents::CHUNK;

/// How many chunks so many extents take.
pub(crate) fn chunks_of(count: u64) -> u64 {
    count / CHUNK + (count % CHUNK).min(1)
}
