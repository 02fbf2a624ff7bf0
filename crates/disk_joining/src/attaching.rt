//! An image is attached as a disk of a group.
ghost use Rattle.std.specs.Prelude.{◌≡◌, Some};
ghost use Rattle.std.specs.Bool.{OnTrue};
ghost use Rattle.file_extents.specs.group_engine.Mounts.{Takes};
ghost use Rattle.disk_joining.specs.Taking.{IsApart, TakesIn};
ghost use Rattle.disk_joining.specs.Attaching.{IsAttachable, member_of_image};

use crate::slots::is_held;
use bay::Bay;
use disk_blocks::LEAST_SIZE;
use file_extents::Mounted;
use status_register::Member;

/// An image of a disk of the group, with its size in bytes.
#[derive(Clone, Copy, Debug)]
pub struct DiskImage {
    pub slot: u32,
    pub size: u64,
    pub number: u8,
    pub birth: u64,
}

/// The disk as the register sees it.
fn member_of(m: &Mounted, image: DiskImage) -> Member
    ensures { result ≡ member_of_image m.now image }
{
    Member {
        slot: image.slot,
        number: image.number,
        birth: image.birth,
        sector: m.catalog().shape().sector,
    }
}

/// Whether the image may be attached: the group has a place for it, it is long enough, and no other
/// group has it.
fn may_attach(m: &Mounted, held: &[u32], image: DiskImage) -> bool
    ensures { OnTrue result (IsAttachable held.now m.now image) }
{
    if image.size < LEAST_SIZE || is_held(held, image.slot) {
        return false;
    }
    m.is_mounted() && m.has_place(member_of(m, image))
}

/// Attaches an image as the disk of its number, where it may be that: that it may not doesn't come.
pub fn attach_image<B: Bay>(m: &mut Mounted, bay: &B, held: &[u32], image: DiskImage)
    requires takes { Takes m.old (B.state bay.now) }
    requires apart { IsApart held.now m.old }
    requires attached { (B.state bay.now).attached image.slot ≡ Some image.size }
    ensures taken { TakesIn held.now m.old m.new (B.state bay.now) (B.state bay.now) }
    ensures same { m.new.access ≡ m.old.access }
    ensures value { m.new.register.value ≡ m.old.register.value }
{
    if may_attach(m, held, image) {
        let member = member_of(m, image);
        m.attach(bay, member, image.size);
    }
}
