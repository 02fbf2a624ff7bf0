//! A block of a disk, and where the regions of a disk begin.

/// The bytes in a block, as a length of a slice.
pub const BLOCK_SIZE: usize = 4096;

/// The bytes in a block, as an amount on a disk.
pub const BLOCK: u64 = 4096;

/// Bytes that a disk has at least: those up to the directory region.
pub const LEAST_SIZE: u64 = 40_960;

/// The blocks of the gates of the two claim slots.
pub const FIRST_CLAIM: u32 = 2;

pub const SECOND_CLAIM: u32 = 4;

/// The blocks of the gates of the two status slots.
pub const FIRST_STATUS: u32 = 6;

pub const SECOND_STATUS: u32 = 8;

/// The block of the first page of the directory region.
pub const REGION_START: u32 = 10;

/// The blocks of a log slot: its gate, its head and the images of 64 pages.
pub const LOG_BLOCKS: u32 = 66;
