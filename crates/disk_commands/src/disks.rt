// The disks of groups: which there are, how large they are, and whether they are online.
//
// Behind the refusals that are listed comes Dismounted, where a commit finds no majority. Under
// WAIT there come those by which the last slice ends: NoSpace, Lost, ReadFault and WriteFault of a
// rebalance, ReadFault and WriteFault of a resync.
ghost use Rattle.std.specs.Prelude.{◌≡◌, false};
ghost use Rattle.asm_world.specs.Command.{Said, Asked, OfflineDisk, OnlineDisk, SetPower};
ghost use Rattle.asm_world.specs.Language.{command_of};
ghost use Rattle.asm_world.specs.Statement.{Alter, CreateDisk, AddDisks, DropDisks, DropFailgroup, UndropDisks, ResizeAll, ResizeDisk, Rebalancing, Online, Offline};
ghost use Rattle.asm_world.specs.Statement as s;
ghost use Rattle.group_sql.specs.Said.{disks_said, maybe_kind_said};
ghost use Rattle.session.specs.Desks.{IsAnswered};
ghost use Rattle.session.specs.Families.{is_proved_on_disks};
ghost use Rattle.session.specs.Sessions.{AreReady};

use crate::disk_works::{Chosen, DiskChange, said_of};
use crate::waiting::{add_and_wait, bring_back_and_wait, change_and_wait};
use asm_base::{List, Name, Text};
use bay::{Bay, Host};
use group_sql::{Disks, DroppedDisk, FailgroupKind, NewFailgroup, Rebalance};
use session::{Answer, Desk, Reply, create_disk as make_disk, no_memory, refused};

/// CREATE DISK. Its refusals are those of the image: NoDisk, ReadFault, DiskTaken.
pub fn create_disk<B: Bay, H: Host>(
    desk: &mut Desk<B, H>,
    text: &[u8],
    path: Text,
    size: u64,
) -> Answer
    requires asked { command_of text.now ≡ Said (CreateDisk path size) }
    requires ready { AreReady desk.old.session.groups (B.state desk.old.bay) }
    ensures answers { IsAnswered text.now result desk.old desk.new }
{
    let Ok(held) = desk.session.held_slots(desk.alloc) else {
        return no_memory(desk, text);
    };
    match make_disk(
        desk.alloc,
        &mut desk.bay,
        &desk.paths,
        path.as_slice(),
        size,
        &held,
    ) {
        Ok(()) => Answer::plain(desk.alloc, Reply::Done(List::new(desk.alloc))),
        Err(refusal) => refused(desk.alloc, refusal),
    }
}

/// Changes the disks of a group.
fn change<B: Bay, H: Host>(
    desk: &mut Desk<B, H>,
    text: &[u8],
    group: &Name,
    change: DiskChange<'_>,
    rebalance: Option<Rebalance>,
) -> Answer
    requires unproved { is_proved_on_disks (command_of text.now) ≡ false }
    requires ready { AreReady desk.old.session.groups (B.state desk.old.bay) }
    ensures answers { IsAnswered text.now result desk.old desk.new }
{
    let (power, wait) = said_of(rebalance);
    let reply = change_and_wait(
        &mut desk.session,
        desk.alloc,
        &mut desk.bay,
        group,
        change,
        power,
        wait,
    );
    Answer::plain(desk.alloc, reply)
}

/// Brings disks of a group back.
fn bring_back<B: Bay, H: Host>(
    desk: &mut Desk<B, H>,
    text: &[u8],
    group: &Name,
    chosen: Chosen<'_>,
    wait: bool,
) -> Answer
    requires unproved { is_proved_on_disks (command_of text.now) ≡ false }
    requires ready { AreReady desk.old.session.groups (B.state desk.old.bay) }
    ensures answers { IsAnswered text.now result desk.old desk.new }
{
    let reply = bring_back_and_wait(
        &mut desk.session,
        desk.alloc,
        &mut desk.bay,
        &desk.paths,
        group,
        chosen,
        wait,
    );
    Answer::plain(desk.alloc, reply)
}

/// ADD DISK. Its refusals in order: NoGroup, Dismounted, BadPower, TooMany, NoDisk, DiskTaken,
/// NameTaken, TooSmall, DirectoryFull, WriteFault.
pub fn add_disks<B: Bay, H: Host>(
    desk: &mut Desk<B, H>,
    text: &[u8],
    group: Name,
    groups: List<NewFailgroup>,
    rebalance: Option<Rebalance>,
) -> Answer
    requires asked { command_of text.now ≡ Said (Alter group (AddDisks groups rebalance)) }
    requires ready { AreReady desk.old.session.groups (B.state desk.old.bay) }
    ensures answers { IsAnswered text.now result desk.old desk.new }
{
    let (power, wait) = said_of(rebalance);
    let reply = add_and_wait(
        &mut desk.session,
        desk.alloc,
        &mut desk.bay,
        &desk.paths,
        &group,
        groups.as_slice(),
        power,
        wait,
    );
    Answer::plain(desk.alloc, reply)
}

/// DROP DISK. Its refusals in order: NoGroup, Dismounted, BadPower, NoName, DiskState,
/// HoldsDirectories, WouldLose, TooFewGroups.
pub fn drop_disks<B: Bay, H: Host>(
    desk: &mut Desk<B, H>,
    text: &[u8],
    group: Name,
    disks: List<DroppedDisk>,
    rebalance: Option<Rebalance>,
) -> Answer
    requires asked { command_of text.now ≡ Said (Alter group (DropDisks disks rebalance)) }
    requires ready { AreReady desk.old.session.groups (B.state desk.old.bay) }
    ensures answers { IsAnswered text.now result desk.old desk.new }
{
    let dropped = DiskChange::Drop(disks.as_slice());
    change(desk, text, &group, dropped, rebalance)
}

/// DROP DISKS IN FAILGROUP. Its refusals are those of DROP DISK.
pub fn drop_failgroup<B: Bay, H: Host>(
    desk: &mut Desk<B, H>,
    text: &[u8],
    group: Name,
    kind: Option<FailgroupKind>,
    name: Name,
    force: bool,
    rebalance: Option<Rebalance>,
) -> Answer
    requires asked { command_of text.now
        ≡ Said (Alter group (DropFailgroup (maybe_kind_said kind) name force rebalance)) }
    requires ready { AreReady desk.old.session.groups (B.state desk.old.bay) }
    ensures answers { IsAnswered text.now result desk.old desk.new }
{
    let dropped = DiskChange::DropGroup {
        kind,
        name: &name,
        force,
    };
    change(desk, text, &group, dropped, rebalance)
}

/// UNDROP DISKS. Its refusals in order: NoGroup, Dismounted.
pub fn undrop_disks<B: Bay, H: Host>(desk: &mut Desk<B, H>, text: &[u8], group: Name) -> Answer
    requires asked { command_of text.now ≡ Said (Alter group UndropDisks) }
    requires ready { AreReady desk.old.session.groups (B.state desk.old.bay) }
    ensures answers { IsAnswered text.now result desk.old desk.new }
{
    change(desk, text, &group, DiskChange::Undrop, None)
}

/// RESIZE ALL, of the disks that serve. Its refusals in order: NoGroup, Dismounted, BadPower,
/// TooSmall.
pub fn resize_all<B: Bay, H: Host>(
    desk: &mut Desk<B, H>,
    text: &[u8],
    group: Name,
    size: Option<u64>,
    rebalance: Option<Rebalance>,
) -> Answer
    requires asked { command_of text.now ≡ Said (Alter group (ResizeAll size rebalance)) }
    requires ready { AreReady desk.old.session.groups (B.state desk.old.bay) }
    ensures answers { IsAnswered text.now result desk.old desk.new }
{
    let disks = Chosen::Serving;
    change(
        desk,
        text,
        &group,
        DiskChange::Resize { disks, size },
        rebalance,
    )
}

/// RESIZE DISK. Its refusals in order: NoGroup, Dismounted, BadPower, NoName, DiskState, TooSmall.
pub fn resize_disk<B: Bay, H: Host>(
    desk: &mut Desk<B, H>,
    text: &[u8],
    group: Name,
    name: Name,
    size: Option<u64>,
    rebalance: Option<Rebalance>,
) -> Answer
    requires asked { command_of text.now ≡ Said (Alter group (ResizeDisk name size rebalance)) }
    requires ready { AreReady desk.old.session.groups (B.state desk.old.bay) }
    ensures answers { IsAnswered text.now result desk.old desk.new }
{
    let names = [name];
    let disks = Chosen::Named(&names);
    change(
        desk,
        text,
        &group,
        DiskChange::Resize { disks, size },
        rebalance,
    )
}

/// REBALANCE. Its refusals in order: NoGroup, Dismounted, BadPower.
pub fn start_rebalance<B: Bay, H: Host>(
    desk: &mut Desk<B, H>,
    text: &[u8],
    group: Name,
    rebalance: Rebalance,
) -> Answer
    requires asked { command_of text.now ≡ Said (Alter group (Rebalancing rebalance)) }
    requires ready { AreReady desk.old.session.groups (B.state desk.old.bay) }
    ensures answers { IsAnswered text.now result desk.old desk.new }
{
    change(desk, text, &group, DiskChange::Rebalance, Some(rebalance))
}

/// ONLINE ALL, of the disks that are Offline. Its refusals in order: NoGroup, Dismounted, NoDisk.
pub fn online_all<B: Bay, H: Host>(
    desk: &mut Desk<B, H>,
    text: &[u8],
    group: Name,
    wait: bool,
) -> Answer
    requires asked { command_of text.now ≡ Said (Alter group (Online s.All wait)) }
    requires ready { AreReady desk.old.session.groups (B.state desk.old.bay) }
    ensures answers { IsAnswered text.now result desk.old desk.new }
{
    bring_back(desk, text, &group, Chosen::Offline, wait)
}

/// The disks that a statement names.
fn chosen(disks: &Disks) -> Chosen<'_> {
    match disks {
        Disks::Named(names) => Chosen::Named(names.as_slice()),
        Disks::InFailgroup { kind, name } => Chosen::InGroup { kind: *kind, name },
    }
}

/// ONLINE of some disks. Its refusals in order: NoGroup, Dismounted, NoName, DiskState, NoDisk.
pub fn online_disks<B: Bay, H: Host>(
    desk: &mut Desk<B, H>,
    text: &[u8],
    group: Name,
    disks: Disks,
    wait: bool,
) -> Answer
    requires asked { command_of text.now ≡ Said (Alter group (Online (disks_said disks) wait)) }
    requires ready { AreReady desk.old.session.groups (B.state desk.old.bay) }
    ensures answers { IsAnswered text.now result desk.old desk.new }
{
    bring_back(desk, text, &group, chosen(&disks), wait)
}

/// Disks that don't serve from now on, and are dropped after so many minutes.
fn taken_offline<'a>(disks: Chosen<'a>, minutes: Option<u64>, now: u64) -> DiskChange<'a> {
    DiskChange::Offline {
        disks,
        repair: minutes.map(|minutes| minutes.saturating_mul(60)),
        now,
    }
}

/// OFFLINE of some disks. Its refusals in order: NoGroup, Dismounted, NoName, DiskState,
/// HoldsDirectories, WouldLose.
pub fn offline_disks<B: Bay, H: Host>(
    desk: &mut Desk<B, H>,
    text: &[u8],
    group: Name,
    disks: Disks,
    minutes: Option<u64>,
) -> Answer
    requires asked { command_of text.now ≡ Said (Alter group (Offline (disks_said disks) minutes)) }
    requires ready { AreReady desk.old.session.groups (B.state desk.old.bay) }
    ensures answers { IsAnswered text.now result desk.old desk.new }
{
    let taken = taken_offline(chosen(&disks), minutes, desk.session.time());
    change(desk, text, &group, taken, None)
}

/// offline: one disk, as OFFLINE DISK.
pub fn offline_disk<B: Bay, H: Host>(
    desk: &mut Desk<B, H>,
    text: &[u8],
    group: Name,
    disk: Name,
) -> Answer
    requires asked { command_of text.now ≡ Asked (OfflineDisk group disk) }
    requires ready { AreReady desk.old.session.groups (B.state desk.old.bay) }
    ensures answers { IsAnswered text.now result desk.old desk.new }
{
    let names = [disk];
    let taken = taken_offline(Chosen::Named(&names), None, desk.session.time());
    change(desk, text, &group, taken, None)
}

/// online: one disk, as ONLINE DISK.
pub fn online_disk<B: Bay, H: Host>(
    desk: &mut Desk<B, H>,
    text: &[u8],
    group: Name,
    disk: Name,
) -> Answer
    requires asked { command_of text.now ≡ Asked (OnlineDisk group disk) }
    requires ready { AreReady desk.old.session.groups (B.state desk.old.bay) }
    ensures answers { IsAnswered text.now result desk.old desk.new }
{
    let names = [disk];
    bring_back(desk, text, &group, Chosen::Named(&names), false)
}

/// rebal: the power of a rebalance, as REBALANCE POWER.
pub fn set_power<B: Bay, H: Host>(
    desk: &mut Desk<B, H>,
    text: &[u8],
    group: Name,
    power: u64,
) -> Answer
    requires asked { command_of text.now ≡ Asked (SetPower group power) }
    requires ready { AreReady desk.old.session.groups (B.state desk.old.bay) }
    ensures answers { IsAnswered text.now result desk.old desk.new }
{
    let rebalance = Rebalance {
        power: Some(power),
        wait: false,
    };
    change(desk, text, &group, DiskChange::Rebalance, Some(rebalance))
}
