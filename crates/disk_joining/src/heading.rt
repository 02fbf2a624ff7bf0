//! New disks get their headers.
ghost use Rattle.std.specs.Prelude.{◌<◌, ◌≤◌, ◌∷◌, [], IfErr, IsTrue, OnErr, OnOk, length};
ghost use Rattle.asm_group.specs.Shape.{is_shape};
ghost use Rattle.disk_images.specs.disk_forming.Gates.{HasAttachedRegion};
ghost use Rattle.new_groups.specs.Drafts.{AreDisksApart};
ghost use Rattle.new_groups.specs.Forming.{AreHeadable, AreLong, IsHeadable, Works};
ghost use Rattle.disk_joining.specs.AddCauses.{SomeFailed};
ghost use Rattle.disk_joining.specs.Joiners.{ShowHeaders, ShowsHeader};

use asm_base::Shape;
use bay::{Bay, Fault};
use disk_images::{close_gates, close_header, write_header};
use new_groups::Headed;

/// Closes the gates of a disk, and gives it its header.
fn give_header<B: Bay>(bay: &mut B, disk: &Headed, shape: Shape) -> Result<(), Fault>
    requires shape { IsTrue (is_shape shape) }
    requires region { HasAttachedRegion (B.state bay.old) disk.now.slot shape.sector
        shape.dir_blocks }
    requires header { IsHeadable disk.now (B.state bay.old) }
    ensures works { Works (disk.now ∷ []) (B.state bay.old) (B.state bay.new) }
    ensures shows { OnOk result (ShowsHeader disk.now (B.state bay.new)) }
    ensures cause { OnErr result (SomeFailed (B.state bay.old) (B.state bay.new)) }
{
    match close_gates(bay, disk.slot, shape) {
        Ok(()) => write_header(bay, disk.slot, &disk.header),
        Err(Fault) => Err(Fault),
    }
}

/// Gives the disks their headers, one after another. Where one fails, its place among them is
/// answered.
pub fn give_headers<B: Bay>(bay: &mut B, disks: &[Headed], shape: Shape) -> Result<(), usize>
    requires shape { IsTrue (is_shape shape) }
    requires long { AreLong shape disks.now (B.state bay.old) }
    requires headers { AreHeadable disks.now (B.state bay.old) }
    requires apart { AreDisksApart disks.now }
    ensures works { Works disks.now (B.state bay.old) (B.state bay.new) }
    ensures show { OnOk result (ShowHeaders disks.now (B.state bay.new)) }
    ensures failed { IfErr result (λ i. i < length disks.now) }
    ensures cause { OnErr result (SomeFailed (B.state bay.old) (B.state bay.new)) }
{
    for i in 0..disks.len() {
        match give_header(bay, &disks[i], shape) {
            Ok(()) => {}
            Err(Fault) => return Err(i),
        }
    }
    Ok(())
}

/// Closes the header of a disk. That it fails changes nothing of what comes after.
fn take_header<B: Bay>(bay: &mut B, disk: &Headed, shape: Shape)
    requires { HasAttachedRegion (B.state bay.old) disk.now.slot shape.sector shape.dir_blocks }
    ensures { Works (disk.now ∷ []) (B.state bay.old) (B.state bay.new) }
{
    let _ = close_header(bay, disk.slot, shape);
}

/// Closes the headers of the first so many disks, past faults.
pub fn take_headers<B: Bay>(bay: &mut B, disks: &[Headed], count: usize, shape: Shape)
    requires few { count ≤ length disks.now }
    requires long { AreLong shape disks.now (B.state bay.old) }
    ensures works { Works disks.now (B.state bay.old) (B.state bay.new) }
{
    for i in 0..count {
        take_header(bay, &disks[i], shape);
    }
}
