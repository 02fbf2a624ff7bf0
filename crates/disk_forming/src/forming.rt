// A disk becomes a member of a new group. Between its header and its record it is given the
// directory copy.
ghost use Rattle.std.specs.Prelude.{◌≡◌, ◌+◌, ◌*◌, length};
ghost use Rattle.bay.specs.Calls.{Call, ChangesEachImage, cost};
ghost use Rattle.disk_forming.specs.Gates.{HasAttachedRegion};
ghost use Rattle.asm_formats.specs.Bytes.{block_size};
ghost use Rattle.disk_forming.specs.Forming.{MayGiveHeader, HasHeader, MayGiveRecord, HasRecord};

use crate::gates::close_all_gates;
use crate::places::{block_slot, header_slot};
use bay::{Bay, Fault};
use body_slot::put;
use disk_blocks::{FIRST_CLAIM, FIRST_STATUS};

/// Closes every gate of a disk, that of its old header first, and then gives it a header of one
/// block. `dir_blocks` are the record blocks of the directory.
pub fn give_header<B: Bay>(
    bay: &mut B,
    slot: u32,
    dir_blocks: u16,
    header: &[u8],
) -> Result<(), Fault>
    requires region { HasAttachedRegion (B.state bay.old) slot 512 dir_blocks }
    requires header { length header.now ≡ block_size }
    ensures { Call result slot (MayGiveHeader slot 512 dir_blocks header.now)
        (ChangesEachImage (HasHeader slot 512 dir_blocks header.now)) (cost 36 (9 * 512 + block_size))
        (B.state bay.old) (B.state bay.new) }
{
    close_all_gates(bay, slot, 512, dir_blocks)?;
    put(bay, slot, header_slot(512), header)
}

/// Gives a disk that has its header and its directory copy a claim and then a status record, of one
/// block each.
pub fn give_record<B: Bay>(
    bay: &mut B,
    slot: u32,
    dir_blocks: u16,
    claim: &[u8],
    status: &[u8],
) -> Result<(), Fault>
    requires region { HasAttachedRegion (B.state bay.old) slot 512 dir_blocks }
    requires claim { length claim.now ≡ block_size }
    requires status { length status.now ≡ block_size }
    ensures { Call result slot (MayGiveRecord slot 512 claim.now status.now)
        (ChangesEachImage (HasRecord slot 512 claim.now status.now)) (cost 16 (4 * 512 + 2 * block_size))
        (B.state bay.old) (B.state bay.new) }
{
    put(bay, slot, block_slot(FIRST_CLAIM, 1, 512), claim)?;
    put(bay, slot, block_slot(FIRST_STATUS, 1, 512), status)
}
