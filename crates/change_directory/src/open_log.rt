// The log slots that are open.
ghost use Rattle.std.specs.Prelude.{◌+◌, ◌<◌, ◌^◌, vec_len};

use asm_base::Block;

/// A log slot that is open.
#[derive(Drop)]
pub struct OpenLog {
    /// The block of its gate.
    pub gate: u64,
    pub number: u64,
    pub images: Vec<(u32, Block)>,
    /// The first of its blocks that must decode and doesn't.
    pub damage: Option<u64>,
    ghost few: { gate + vec_len images < 2 ^ 32 },
}

/// The open log slots, the greater commit number first.
#[derive(Drop)]
pub struct OpenLogs {
    pub newest: Option<OpenLog>,
    pub older: Option<OpenLog>,
}
