// Copies that a status record doesn't name are given up.
ghost use Rattle.std.specs.Prelude.{◌≡◌, ◌<◌, length};
ghost use Rattle.asm_formats.specs.Sets.{has_bit};
ghost use Rattle.directory_store.specs.Stores.{Keeps};
ghost use Rattle.group_engine.specs.Forgetting.{Forgets, KeepsNamed};

use crate::attached::Attached;
use asm_base::DiskSet;
use bay::Bay;
use directory_store::Store;

/// Gives up the copies on the attached disks that aren't in the set.
pub(crate) fn forget_others<B: Bay>(
    bay: &B,
    store: &mut Store,
    disks: &[Option<Attached>],
    named: DiskSet,
)
    requires all { length disks.now ≡ 64 }
    requires kept { Keeps store.old (B.state bay.now) }
    ensures named { KeepsNamed store.old store.new disks.now named 64 }
    ensures kept { Keeps store.new (B.state bay.now) }
{
    for disk in 0..64u8 {
        forget_unnamed(bay, store, named, disk, disks[disk as usize]);
    }
}

/// Gives up the copies on a disk, where it is attached and isn't in the set.
fn forget_unnamed<B: Bay>(
    bay: &B,
    store: &mut Store,
    named: DiskSet,
    disk: u8,
    place: Option<Attached>,
)
    requires small { disk < 64 }
    requires kept { Keeps store.old (B.state bay.now) }
    ensures step { Forgets (has_bit named disk) place store.old store.new }
    ensures kept { Keeps store.new (B.state bay.now) }
{
    let _bay = bay;
    if named.has(disk) {
        return;
    }
    match place {
        Some(attached) => store.forget(attached.slot),
        None => {}
    }
}
