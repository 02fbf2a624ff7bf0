// Closing the gates of a disk.
ghost use Rattle.std.specs.Prelude.{◌+◌, ◌*◌, ◌∷◌, []};
ghost use Rattle.bay.specs.Calls.{Call, ChangesEachImage, cost};
ghost use Rattle.bay.specs.Image.{ChangesOnly};
ghost use Rattle.disk_forming.specs.Places.{other_gates};
ghost use Rattle.disk_forming.specs.Gates.{HasAttachedRegion, GatesOf, ShutsGates, MayCloseAll, ClosesAll};

use crate::places::{block_slot, header_slot};
use bay::{Bay, Fault};
use body_slot::close_gate;
use disk_blocks::{
    FIRST_CLAIM, FIRST_STATUS, LOG_BLOCKS, REGION_START, SECOND_CLAIM, SECOND_STATUS,
};

/// Closes every gate of a disk of a group, that of the header first.
pub fn close_all_gates<B: Bay>(
    bay: &mut B,
    slot: u32,
    sector: u32,
    dir_blocks: u16,
) -> Result<(), Fault>
    requires { HasAttachedRegion (B.state bay.old) slot sector dir_blocks }
    ensures { Call result slot (MayCloseAll slot sector dir_blocks)
        (ChangesEachImage (ClosesAll slot sector dir_blocks)) (cost 28 (7 * sector))
        (B.state bay.old) (B.state bay.new) }
{
    close_gate(bay, slot, header_slot(sector))?;
    close_other_gates(bay, slot, sector, dir_blocks)
}

/// Closes the gates behind the header's: those of the claim, status and log slots.
fn close_other_gates<B: Bay>(
    bay: &mut B,
    slot: u32,
    sector: u32,
    dir_blocks: u16,
) -> Result<(), Fault>
    requires { HasAttachedRegion (B.state bay.old) slot sector dir_blocks }
    ensures { Call result slot (ChangesOnly (GatesOf slot sector (other_gates dir_blocks)))
        (ChangesEachImage (ShutsGates slot sector 6 (other_gates dir_blocks))) (cost 24 (6 * sector))
        (B.state bay.old) (B.state bay.new) }
{
    let dir_blocks = dir_blocks as u32;
    let gates: [u32; 6] = [
        FIRST_CLAIM,
        SECOND_CLAIM,
        FIRST_STATUS,
        SECOND_STATUS,
        REGION_START + dir_blocks,
        REGION_START + LOG_BLOCKS + dir_blocks,
    ];
    for gate in &gates {
        close_gate(bay, slot, block_slot(*gate, 1, sector))?;
    }
    Ok(())
}
