// A group is mounted into the session.
ghost use Rattle.std.specs.Prelude.{◌≡◌, [], IfOk, get_or, map};
ghost use Rattle.std.specs.String.{string_bytes};
ghost use Rattle.refusal_lines.specs.Refusals.{referred_disk_name, meaning_of};
ghost use Rattle.group_commands.specs.Mounting.{MountsInto, mount_said, option_of};
ghost use Rattle.session.specs.Sessions.{AreReady};

use asm_base::{Name, NoMemory, Text};
use bay::{Bay, Host};
use group_recovery::{MountError, MountOption};
use refusal_lines::{DiskRef, Refusal};
use session::{Desk, mount_group};
use std::alloc::Global;

/// Whether missing disks are passed over.
pub fn option_of(force: bool) -> MountOption
    ensures { result ≡ option_of force }
{
    if force {
        MountOption::Force
    } else {
        MountOption::NoForce
    }
}

/// The path of the image in a slot.
fn path_of(alloc: Global, paths: &[String], slot: u32) -> Result<Text, NoMemory>
    ensures { IfOk result (λ path. path ≡ get_or (map string_bytes paths.now) slot []) }
{
    match paths.get(slot as usize) {
        Some(path) => Text::from_slice(alloc, path.as_bytes()),
        None => Ok(Text::new(alloc)),
    }
}

/// A disk by its name.
fn spelt(alloc: Global, name: &Name) -> Result<DiskRef, NoMemory>
    ensures { IfOk result (λ disk. referred_disk_name (λ _. []) disk ≡ name.now) }
{
    Ok(DiskRef::Spelt(Text::from_slice(alloc, name.as_bytes())?))
}

/// Why a group isn't mounted, as a command is refused: images by their paths, disks by their names.
fn refusal_of(alloc: Global, paths: &[String], error: MountError) -> Result<Refusal, NoMemory>
    ensures { IfOk result (λ refusal. meaning_of (λ _. []) refusal
        ≡ mount_said (map string_bytes paths.now) error) }
{
    match error {
        MountError::NoGroup => Ok(Refusal::NoGroup),
        MountError::TwoGroups => Ok(Refusal::TwoGroups),
        MountError::NoMajority { seen, need } => Ok(Refusal::NoMajority { seen, need }),
        MountError::Damaged { slot, block } => Ok(Refusal::Damaged {
            path: path_of(alloc, paths, slot)?,
            block,
        }),
        MountError::DirectoriesLost => Ok(Refusal::DirectoriesLost),
        MountError::MissingDisk { name, .. } => Ok(Refusal::MissingDisks {
            disk: spelt(alloc, &name)?,
        }),
        MountError::Dead { name, .. } => Ok(Refusal::Dismounted {
            disk: spelt(alloc, &name)?,
        }),
        MountError::NoMemory => Err(NoMemory),
    }
}

/// Mounts the group of a name that isn't mounted, and enters it last. Where it is refused the
/// session is as it was, but that want of memory may come once a group of the name that was
/// dismounted has left.
pub fn mount_named<B: Bay, H: Host>(
    desk: &mut Desk<B, H>,
    name: &Name,
    option: MountOption,
) -> Result<(), Refusal>
    requires ready { AreReady desk.old.session.groups (B.state desk.old.bay) }
    ensures { MountsInto name.now option result desk.old desk.new }
{
    if desk.session.make_room().is_err() {
        return Err(Refusal::NoMemory);
    }
    let Ok(held) = desk.session.held_slots(desk.alloc) else {
        return Err(Refusal::NoMemory);
    };
    let now = desk.session.time();
    match mount_group(
        desk.alloc,
        &mut desk.bay,
        &desk.paths,
        name,
        option,
        now,
        &held,
    ) {
        Ok(group) => match desk.session.enter_mounted(group) {
            Ok(()) => Ok(()),
            Err(NoMemory) => Err(Refusal::NoMemory),
        },
        Err(error) => match refusal_of(desk.alloc, &desk.paths, error) {
            Ok(refusal) => Err(refusal),
            Err(NoMemory) => Err(Refusal::NoMemory),
        },
    }
}
