//! A group is found by its name and mounted: its record is claimed and written anew, and what a
//! stop left undone is ended.
ghost use Rattle.std.specs.Prelude.{◌≡◌, ◌≤◌, None, length, OnOk};
ghost use Rattle.group_engine.specs.Mounts.{IsMounted, IsWhole, Takes};
ghost use Rattle.mounted_groups.specs.Bringing.{BringsCopiesUp};
ghost use Rattle.mounted_groups.specs.GroupCalls.{MountsByName};
ghost use Rattle.mounted_groups.specs.Mounting.{HaveDiskNumbers, by_number, mounted_of};
ghost use Rattle.mounted_groups.specs.Taking.{TakesOver};

use crate::bringing::{bring_all, named_disks};
use crate::clearing::{clean_up, refusal_of_commit};
use asm_base::{DiskSet, Name};
use bay::Bay;
use group_engine::{Attached, Mounted};
use group_recovery::{Found, MountError, MountOption, Parts};
use refusal_lines::Refusal;
use status_register::Member;
use std::alloc::Global;

/// The attached disks by their numbers, with the sizes of their images.
fn by_number(disks: &[(Member, u64)]) -> [Option<Attached>; 64]
    requires { HaveDiskNumbers disks.now }
    ensures { result ≡ by_number disks.now }
{
    let mut places = [None; 64];
    for (member, size) in disks {
        places[member.number as usize] = Some(Attached {
            slot: member.slot,
            size: *size,
        });
    }
    places
}

/// The group of the parts that a mount gives.
fn mounted_of(parts: Parts) -> Mounted
    requires small { HaveDiskNumbers parts.disks.items }
    requires whole { IsWhole (mounted_of parts) }
    ensures { result ≡ mounted_of parts }
{
    let disks = by_number(&parts.disks);
    let Parts {
        name,
        catalog,
        store,
        register,
        ..
    } = parts;
    Mounted::new(name, catalog, store, register, disks)
}

/// A group whose record is written anew, and the disks whose directory copies the record that was
/// read named, as far as they were read.
#[derive(Drop)]
struct Taken {
    group: Mounted,
    named: DiskSet,
}

/// Finds the group of a name and writes its record anew. Images in the slots `held` are left out.
/// What a stop left undone of it isn't ended yet.
fn take_over<B: Bay>(
    alloc: Global,
    bay: &mut B,
    paths: &[String],
    name: &Name,
    option: MountOption,
    now: u64,
    held: &[u32],
) -> Result<Taken, MountError>
    requires few { length paths.now ≤ 512 }
    ensures { TakesOver B.state name.now (length paths.now) held.now option now result
        (B.state bay.old) (B.state bay.new) }
{
    let searched = Found::find(alloc, bay, paths, name)?;
    let found = searched.without(held);
    if !found.is_named(name) {
        return Err(MountError::NoGroup);
    }
    let quorate = found.quorate(alloc, bay, option)?;
    let named = named_disks(quorate.survey.value(), quorate.survey.seen());
    let parts = quorate.recover(alloc, bay, now)?;
    Ok(Taken {
        group: mounted_of(parts),
        named,
    })
}

/// Brings the directory copies of these disks up, and then ends what a stop left undone.
fn finish<B: Bay>(
    alloc: Global,
    bay: &mut B,
    m: &mut Mounted,
    named: DiskSet,
) -> Result<(), Refusal>
    requires mounted { IsMounted m.old }
    requires takes { Takes m.old (B.state bay.old) }
    // Turns must be left for 64 copies, and for what a stop left undone.
    ensures brings { BringsCopiesUp B.state named 64 65 m.old result m.new (B.state bay.old)
        (B.state bay.new) }
    ensures ended { OnOk result (m.new.catalog.tables.operations.pending ≡ None) }
{
    bring_all(alloc, bay, m, named)?;
    clean_up(alloc, bay, m)
}

/// Mounts the group of a name. Images in the slots `held` are attached to other groups, and are no
/// members. The refusals are tried in this order: NoGroup, TwoGroups, NoMajority, Damaged in a
/// claim or status body, NoMajority where the last epoch is used up, Damaged in the header of a
/// member that isn't a disk of the group, DirectoriesLost, Damaged in the directories, MissingDisk
/// where the mount isn't forced, NoMajority at the claim, Dead where too few disks took the record
/// anew or no directory copy a commit. NoMemory comes at any point. A directory copy that lags
/// behind is brought up, where its disk was read and takes it.
pub fn mount_group<B: Bay>(
    alloc: Global,
    bay: &mut B,
    paths: &[String],
    name: &Name,
    option: MountOption,
    now: u64,
    held: &[u32],
) -> Result<Mounted, MountError>
    requires few { length paths.now ≤ 512 }
    ensures { MountsByName B.state name.now (length paths.now) held.now option now result
        (B.state bay.old) (B.state bay.new) }
{
    let taken = take_over(alloc, bay, paths, name, option, now, held)?;
    let named = taken.named;
    let mut m = taken.group;
    match finish(alloc, bay, &mut m, named) {
        Ok(()) => Ok(m),
        Err(refusal) => Err(refusal_of_commit(&m, refusal)),
    }
}
