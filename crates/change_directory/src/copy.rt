// Where a directory copy and its log slots lie.
ghost use Rattle.std.specs.Prelude.{◌≡◌, ◌≤◌};
ghost use Rattle.change_directory.specs.Places.{gate_of, other_of, log_place};

use body_slot::Place;
use disk_blocks::{BLOCK, LOG_BLOCKS, REGION_START};

/// The directory copy of one disk.
#[derive(Clone, Copy, Debug, PartialEq, Eq)]
pub struct DirCopy {
    /// The disk's number in its group.
    pub number: u8,
    /// The slot to which the disk is attached.
    pub slot: u32,
    /// The pages of the copy.
    pub dir_blocks: u32,
    /// The bytes in a sector of the group.
    pub sector: u32,
}

/// One of the two log slots.
#[derive(Clone, Copy, Debug, PartialEq, Eq)]
pub enum LogSlot {
    First,
    Second,
}

/// The other log slot.
pub(crate) fn other_slot(log: LogSlot) -> LogSlot
    ensures { result ≡ other_of log }
{
    match log {
        LogSlot::First => LogSlot::Second,
        LogSlot::Second => LogSlot::First,
    }
}

/// The block of a log slot's gate.
pub(crate) fn gate_block(copy: DirCopy, log: LogSlot) -> u32
    requires { copy.dir_blocks ≤ 16384 }
    ensures { result ≡ gate_of copy log }
{
    match log {
        LogSlot::First => REGION_START + copy.dir_blocks,
        LogSlot::Second => REGION_START + copy.dir_blocks + LOG_BLOCKS,
    }
}

/// A log slot of which so many blocks behind the gate are meant: the head and the images.
pub(crate) fn log_place(copy: DirCopy, log: LogSlot, blocks: u32) -> Place
    requires { copy.dir_blocks ≤ 16384 }
    ensures { result ≡ log_place copy log blocks }
{
    let gate = gate_block(copy, log) as u64;
    Place {
        gate: gate * BLOCK,
        body: (gate + 1) * BLOCK,
        len: blocks as u64 * BLOCK,
        sector: copy.sector,
    }
}
