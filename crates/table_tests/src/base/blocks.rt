// Bytes of blocks.
use asm_base::Block;

/// Whether these bytes stand at a place.
pub fn has_at(block: &Block, at: usize, bytes: &[u8]) -> bool {
    match block.bytes[..].get(at..) {
        Some(rest) => rest.starts_with(bytes),
        None => false,
    }
}

/// Puts bytes at a place. Those behind the end are left out with all of them.
pub fn put_at(bytes: &mut [u8], at: usize, field: &[u8]) {
    if at <= bytes.len() && field.len() <= bytes.len() - at {
        bytes[at..at + field.len()].copy_from_slice(field);
    }
}

/// The same block with another last byte.
pub fn with_last(block: &Block, last: u8) -> Block {
    let mut bytes = block.bytes;
    bytes[4095] = last;
    Block { bytes }
}
