//! The disks that the register reads and writes.

/// A disk of a group, by its number and birth, and the slot of its image. `sector` is the group's,
/// 512 or 4,096 bytes.
#[derive(Clone, Copy, Debug, PartialEq, Eq)]
pub struct Member {
    pub slot: u32,
    pub number: u8,
    pub birth: u64,
    pub sector: u32,
}
