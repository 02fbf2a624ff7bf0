/// Whether a group takes calls.
#[derive(Clone, Copy, Debug, PartialEq, Eq)]
pub enum Access {
    /// It does.
    Mounted,
    /// It was dismounted, by this disk.
    Dismounted { disk: u8 },
    /// Memory was wanted behind a commit: each call answers NoMemory, and the next mount ends what
    /// is pending.
    Closed,
}
