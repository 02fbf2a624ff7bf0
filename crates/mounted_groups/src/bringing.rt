// The directory copies that lag behind are brought up by the mount: those that the record named, on
// disks that were read.
ghost use Rattle.std.specs.Prelude.{◌≡◌, ◌+◌, ◌*◌, ◌<◌, ◌≤◌, None, Some, get_or, OnOk, IfErr};
ghost use Rattle.refusal_lines.specs.declared.refusal.Refusal.TheVariants.{NoMemory as WithoutMemory};
ghost use Rattle.asm_formats.specs.Regions.{has_region};
ghost use Rattle.mounted_groups.specs.Bringing.{HasNamedCopies, BringsCopiesUp, BringsCopyUp, has_named_copy};
ghost use Rattle.group_engine.specs.Mounts.{IsMounted, Takes};
ghost use Rattle.group_engine.specs.declared.attached.Attached.{Attached as AttachedDisk};
ghost use Rattle.status_register.specs.Registered.{AreNumbered};

use asm_base::DiskSet;
use bay::Bay;
use group_engine::Mounted;
use group_recovery::has_region;
use refusal_lines::Refusal;
use status_register::{Member, is_of_entry};
use status_table::PstRecord;
use std::alloc::Global;

/// Whether a record names the directory copy of a disk.
fn is_named(status: &PstRecord, disk: Member) -> bool
    ensures { result ≡ has_named_copy status.now disk }
{
    status.dirs.has(disk.number) && is_of_entry(status.entries(), disk)
}

/// The disks whose directory copies a record names, of these.
pub fn named_disks(status: &PstRecord, disks: &[Member]) -> DiskSet
    requires { AreNumbered disks.now }
    ensures { HasNamedCopies status.now disks.now result }
{
    let [first, rest @ ..] = disks else {
        return DiskSet::empty();
    };
    let others = named_disks(status, rest);
    if is_named(status, *first) {
        return others.with(first.number);
    }
    others
}

/// Whether the image of a disk is attached and has a whole directory region.
fn has_room(m: &Mounted, disk: u8) -> bool
    requires { disk < 64 }
    ensures { (a : AttachedDisk) → get_or m.now.disks disk None ≡ Some a
        → result ≡ has_region m.now.catalog.shape.dir_blocks a.size }
{
    match m.size(disk) {
        Some(size) => has_region(m.catalog().shape().dir_blocks, size),
        None => false,
    }
}

/// Goes on after a copy that failed: the group is as it was.
fn without_copy(m: &Mounted) -> Result<(), Refusal>
    ensures mounted { OnOk result (IsMounted m.now) }
    ensures cause { IfErr result (λ refusal. refusal ≡ WithoutMemory) }
{
    if m.is_mounted() {
        Ok(())
    } else {
        Err(Refusal::NoMemory)
    }
}

/// Brings the directory copy of a disk up, where the disk is attached with room for one. Where its
/// slot fails, the copy is left out.
fn bring_up<B: Bay>(alloc: Global, bay: &mut B, m: &mut Mounted, disk: u8) -> Result<(), Refusal>
    requires small { disk < 64 }
    requires mounted { IsMounted m.old }
    requires takes { Takes m.old (B.state bay.old) }
    ensures { BringsCopyUp B.state disk m.old result m.new (B.state bay.old) (B.state bay.new) }
{
    if !has_room(m, disk) {
        return Ok(());
    }
    match m.copy_directory(alloc, bay, disk) {
        Ok(()) => Ok(()),
        Err(Refusal::WriteFault { .. }) => without_copy(m),
        Err(refusal) => Err(refusal),
    }
}

/// Brings the directory copies of these disks up, by their numbers.
pub fn bring_all<B: Bay>(
    alloc: Global,
    bay: &mut B,
    m: &mut Mounted,
    disks: DiskSet,
) -> Result<(), Refusal>
    requires mounted { IsMounted m.old }
    requires takes { Takes m.old (B.state bay.old) }
    ensures { BringsCopiesUp B.state disks 64 64 m.old result m.new (B.state bay.old)
        (B.state bay.new) }
{
    for disk in 0..64u8 {
        if disks.has(disk) {
            bring_up(alloc, bay, m, disk)?;
        }
    }
    Ok(())
}
