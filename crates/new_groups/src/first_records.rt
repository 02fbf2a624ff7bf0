//! The first records of a new group's directories: its disks, the system templates and the
//! settings.
ghost use Rattle.std.specs.Prelude.{IfOk, OnOk};
ghost use Rattle.directory_store.specs.Contents.{ArePutItems, IsPutItem};

use asm_base::{Change, GroupKind, Key, List, NoMemory, SETTINGS_KEY, TEMPLATES_KEY, Value};
use mounted_groups::{
    DiskInfo, Headed, Settings, are_allowed, disk_record, settings_value, system, templates_value,
};
use std::alloc::Global;

/// What the directories say of a disk.
fn info_of(disk: &Headed) -> Result<DiskInfo, NoMemory> {
    Ok(DiskInfo {
        birth: disk.header.birth,
        name: disk.header.disk.copy()?,
        failgroup: disk.header.failgroup.copy()?,
    })
}

/// The record of a new disk. Want of memory is answered, too, where the directories couldn't hold
/// it.
fn first_record(alloc: Global, disk: &Headed) -> Result<(Key, Value), NoMemory>
    ensures { IfOk result IsPutItem }
{
    let info = info_of(disk)?;
    let number = disk.header.number;
    if !info.is_allowed(number) {
        return Err(NoMemory);
    }
    disk_record(alloc, number, &info)
}

/// Puts the records of the disks behind others.
fn put_disks(alloc: Global, disks: &[Headed], put: &mut List<(Key, Value)>) -> Result<(), NoMemory>
    ensures { OnOk result (ArePutItems put.old → ArePutItems put.new) }
{
    let [first, rest @ ..] = disks else {
        return Ok(());
    };
    let new = first_record(alloc, first)?;
    put.push(new)?;
    put_disks(alloc, rest, put)
}

/// The record of the system templates.
fn templates_record(alloc: Global, kind: GroupKind) -> Result<(Key, Value), NoMemory>
    ensures { IfOk result IsPutItem }
{
    let templates = system(alloc, kind)?;
    if !are_allowed(templates.as_slice()) {
        return Err(NoMemory);
    }
    let value = templates_value(alloc, templates.as_slice())?;
    Ok((TEMPLATES_KEY, value))
}

/// The record of the settings.
fn settings_record(alloc: Global, settings: &Settings) -> Result<(Key, Value), NoMemory>
    ensures { IfOk result IsPutItem }
{
    if !settings.is_allowed() {
        return Err(NoMemory);
    }
    let value = settings_value(alloc, settings)?;
    Ok((SETTINGS_KEY, value))
}

/// The records of the disks, the templates and the settings.
fn first_items(
    alloc: Global,
    kind: GroupKind,
    disks: &[Headed],
    settings: &Settings,
) -> Result<List<(Key, Value)>, NoMemory>
    ensures { IfOk result ArePutItems }
{
    let mut put = List::new(alloc);
    put_disks(alloc, disks, &mut put)?;
    let templates = templates_record(alloc, kind)?;
    put.push(templates)?;
    let own = settings_record(alloc, settings)?;
    put.push(own)?;
    Ok(put)
}

/// The first records of a group of these disks.
pub fn first_change(
    alloc: Global,
    kind: GroupKind,
    disks: &[Headed],
    settings: &Settings,
) -> Result<Change, NoMemory>
    ensures { IfOk result (λ change. ArePutItems change.put) }
{
    let put = first_items(alloc, kind, disks, settings)?;
    Ok(Change {
        put,
        gone: List::new(alloc),
    })
}
