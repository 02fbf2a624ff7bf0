//! The bytes of a block.

ghost use Rattle.std.specs.Prelude.{◌≡◌, replicate};

/// The bytes of a block.
#[derive(Drop)]
pub struct Block {
    pub bytes: [u8; 4096],
}

impl Block {
    pub fn zeros() -> Block
        ensures { result.bytes ≡ replicate 4096 0 }
    {
        Block { bytes: [0; 4096] }
    }
}
