//! The rules of disk records, and of the room for all records.

ghost use Rattle.std.specs.Prelude.{◌≡◌, ◌≤◌, ◌+◌, ◌↔◌, IsTrue, min};
ghost use Rattle.std.specs.Option.{option_copied};
ghost use Rattle.partnership.specs.asm_placement.Naming.{is_birth};
ghost use Rattle.catalog_tables.specs.Rules.{blocks_used, first_unknown, has_info};

use crate::parts::Parts;
use asm_base::Shape;
use disk_directory::DiskInfo;
use partnership::PstEntry;

/// Blocks of a directory copy that are kept for the rebalance and the pending operation.
const KEPT: u64 = 2;

impl Parts {
    /// The number of the first entry that has no disk record of its number and birth.
    pub(crate) fn unknown_disk(&self, entries: &[PstEntry]) -> Option<u8>
        ensures { result ≡ first_unknown self.now entries.now }
    {
        for entry in entries {
            if !self.has_info(entry) {
                return Some(entry.number);
            }
        }
        None
    }

    fn has_info(&self, entry: &PstEntry) -> bool
        ensures { result ≡ has_info self.now entry.now }
    {
        is_birth(entry.birth, self.disks.get(entry.number as u32))
    }

    /// Whether the records leave room for the rebalance and the pending operation.
    pub(crate) fn has_room(&self, shape: &Shape) -> bool
        ensures { IsTrue result ↔ (blocks_used self.now + 2 ≤ shape.now.dir_blocks) }
    {
        self.blocks_used().saturating_add(KEPT) <= shape.dir_blocks as u64
    }

    /// Blocks that the records take, but for the two that are kept, or the greatest number where
    /// there are more.
    pub fn blocks_used(&self) -> u64
        ensures { result ≡ min (blocks_used self.now) 18446744073709551615 }
    {
        (self.files.len() as u64)
            .saturating_add(self.extents.len() as u64)
            .saturating_add(self.tree.len() as u64)
            .saturating_add(2)
            .saturating_add(self.stale.len() as u64)
            .saturating_add(self.disks.len() as u64)
    }
}

fn is_birth(birth: u64, info: Option<&DiskInfo>) -> bool
    ensures { result ≡ is_birth birth (option_copied info.entry) }
{
    match info {
        None => false,
        Some(info) => info.birth == birth,
    }
}
