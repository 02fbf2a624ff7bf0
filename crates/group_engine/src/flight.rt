use asm_base::{ExtentId, Home};

/// A copy of an extent that is on its way to another home.
#[derive(Clone, Copy, Debug, PartialEq, Eq)]
pub struct Flight {
    pub x: ExtentId,
    pub copy: u8,
    pub to: Home,
    /// How many bytes of the extent were copied.
    pub copied: u64,
}
