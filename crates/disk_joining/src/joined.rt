//! Disks that got their headers are attached.
ghost use Rattle.std.specs.Prelude.{◌≡◌, Some};
ghost use Rattle.asm_formats.specs.Among.{IsAmong};
ghost use Rattle.file_extents.specs.group_engine.Mounts.{Takes};
ghost use Rattle.new_groups.specs.group_recovery.declared.finding.Headed.{Headed as Disk};
ghost use Rattle.disk_joining.specs.Taking.{IsApart, TakesIn};

use crate::attaching::{DiskImage, attach_image};
use bay::Bay;
use file_extents::Mounted;
use new_groups::Headed;

/// Attaches disks that got their headers.
pub fn attach_all<B: Bay>(m: &mut Mounted, bay: &B, held: &[u32], disks: &[Headed])
    requires takes { Takes m.old (B.state bay.now) }
    requires apart { IsApart held.now m.old }
    requires attached { (h : Disk) → IsAmong disks.now h
        → (B.state bay.now).attached h.slot ≡ Some h.size }
    ensures taken { TakesIn held.now m.old m.new (B.state bay.now) (B.state bay.now) }
    ensures same { m.new.access ≡ m.old.access }
    ensures value { m.new.register.value ≡ m.old.register.value }
{
    for disk in disks {
        let image = DiskImage {
            slot: disk.slot,
            size: disk.size,
            number: disk.header.number,
            birth: disk.header.birth,
        };
        attach_image(m, bay, held, image);
    }
}
