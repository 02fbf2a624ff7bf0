//! Writes that are joined, and blocks that are told by their bytes. Each law is the contract of a
//! function that does nothing.

ghost use Rattle.asm_formats.specs.Writing.{BlockIsStored, BlocksAreStored, WriteWidens, WritesJoin};

/// A write to a range is one to each range around it.
pub fn write_widens()
    ensures { WriteWidens }
{}

/// Two writes to a range are one.
pub fn writes_join()
    ensures { WritesJoin }
{}

/// A block of which each byte is that of a body is the body.
pub fn block_is_stored()
    ensures { BlockIsStored }
{}

/// Blocks in a row that are each a body are these bodies.
pub fn blocks_are_stored()
    ensures { BlocksAreStored }
{}
