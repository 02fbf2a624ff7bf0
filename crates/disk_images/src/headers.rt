// How a disk gets its open header, and loses it. Gates are written by the sector of the group.
ghost use Rattle.std.specs.Prelude.{◌≡◌, ◌+◌, ◌*◌, Some, None, OnOk, IsTrue};
ghost use Rattle.bay.specs.Moments.{NowOnly};
ghost use Rattle.bay.specs.Calls.{Call, ChangesEachImage, cost};
ghost use Rattle.body_slot.specs.Slot.{MayClose, Closes, MayPut, HasPut};
ghost use Rattle.disk_forming.specs.Places.{gated_slot_at};
ghost use Rattle.disk_forming.specs.Gates.{HasAttachedRegion, MayCloseAll, ClosesAll};
ghost use Rattle.asm_group.specs.Shape.{is_shape};
ghost use Rattle.asm_formats.specs.Header.{is_header, header_spelling};
ghost use Rattle.asm_images.specs.Kept.{header_in};
ghost use Rattle.disk_images.specs.Headers.{HasHeaderSlot, IsBlank};

use bay::{Bay, Fault};
use body_slot::{close_gate, put};
use disk_forming::{close_all_gates, header_slot};
use disk_header::{Block, Header, Shape, encode};

/// Closes every gate of a disk, the header's first: before another gate is written no image that a
/// stop may leave has the header open. After Ok the disk is blank. A Fault is that of the disk,
/// whose gates may then be open or shut.
#[tactic(auto, using(crate::proofs::Shapes::few_blocks))]
pub fn close_gates<B: Bay>(bay: &mut B, slot: u32, shape: Shape) -> Result<(), Fault>
    requires shape { IsTrue (is_shape shape) }
    requires region { HasAttachedRegion (B.state bay.old) slot shape.sector shape.dir_blocks }
    ensures call { Call result slot (MayCloseAll slot shape.sector shape.dir_blocks) (ChangesEachImage (ClosesAll slot shape.sector shape.dir_blocks))
        (cost 28 (7 * shape.sector)) (B.state bay.old) (B.state bay.new) }
    ensures blank { OnOk result (NowOnly (B.state bay.new) (IsBlank slot shape.dir_blocks)) }
{
    close_all_gates(bay, slot, shape.sector, shape.dir_blocks as u16)
}

/// Puts a header in the place of the one that is there. At each moment the disk shows the old
/// header, none or the new one, and after Ok the new one. A Fault is that of the disk.
pub fn write_header<B: Bay>(bay: &mut B, slot: u32, header: &Header) -> Result<(), Fault>
    requires header { IsTrue (is_header header.now) }
    requires disk { HasHeaderSlot (B.state bay.old) slot header.now.shape.sector }
    ensures call { Call result slot (MayPut (gated_slot_at 0 1 header.now.shape.sector) slot (header_spelling header.now))
        (ChangesEachImage (HasPut (gated_slot_at 0 1 header.now.shape.sector) slot (header_spelling header.now)))
        (cost 8 (2 * header.now.shape.sector + 4096)) (B.state bay.old) (B.state bay.new) }
    ensures there { OnOk result (NowOnly (B.state bay.new)
        (λ image. header_in image slot ≡ Some header.now)) }
{
    let mut block = Block::zeros();
    encode(header, &mut block);
    put(bay, slot, header_slot(header.sector), &block.bytes)
}

/// Closes the gate of a disk's header, and no other. After Ok the disk is no member of any group. A
/// Fault is that of the disk, which may then be a member or not.
pub fn close_header<B: Bay>(bay: &mut B, slot: u32, shape: Shape) -> Result<(), Fault>
    requires { HasHeaderSlot (B.state bay.old) slot shape.sector }
    ensures call { Call result slot (MayClose (gated_slot_at 0 1 shape.sector) slot) (ChangesEachImage (Closes (gated_slot_at 0 1 shape.sector) slot))
        (cost 4 shape.sector) (B.state bay.old) (B.state bay.new) }
    ensures gone { OnOk result (NowOnly (B.state bay.new) (λ image. header_in image slot ≡ None)) }
{
    close_gate(bay, slot, header_slot(shape.sector))
}
