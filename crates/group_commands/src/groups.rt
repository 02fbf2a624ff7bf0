// How groups come and go: CREATE and DROP DISKGROUP, MOUNT, DISMOUNT and CHECK.
ghost use Rattle.std.specs.Prelude.{⊤, ◌≡◌, ◌≤◌, true, false, None, Some, is_some, nat_le};
ghost use Rattle.std.specs.Option.{option_copied};
ghost use Rattle.asm_group.specs.Names.{is_name};
ghost use Rattle.asm_world.specs.Causes.{mounted_count};
ghost use Rattle.asm_world.specs.World.{World, entry_among};
ghost use Rattle.asm_world.specs.Command.{Said};
ghost use Rattle.asm_world.specs.Language.{command_of};
ghost use Rattle.asm_world.specs.Statement.{CreateGroup, DropGroup, Alter, Mount, Dismount};
ghost use Rattle.session.specs.Desks.{IsAnswered, is_copy_command};
ghost use Rattle.session.specs.Families.{is_proved_on_disks};
ghost use Rattle.session.specs.Sessions.{AreReady, held_by};
ghost use Rattle.session.specs.Groups.{only, plain_path, path_in_group, external_path, creation_of};
ghost use Rattle.session.specs.Meaning.{meaning};

use crate::mounting::{mount_named, option_of};
use asm_base::{GroupKind, List, Name, NoMemory, Text};
use bay::{Bay, Host};
use group_sql::{Attribute, NewDisk, NewFailgroup};
use refusal_lines::Refusal;
use session::{
    Answer, Desk, FoundIds, GroupAsked, GroupWork, Known, Mounted, Reply,
    create_on_disk as create_group, drop_group as drop_disks_of, no_memory, refused,
    too_many_groups,
};
use std::alloc::Global;

/// The item of a list of one.
fn only<T>(items: &[T]) -> Option<&T>
    ensures { option_copied result ≡ only items.now }
{
    match items {
        [item] => Some(item),
        _ => None,
    }
}

/// The path of a disk of which nothing else is said.
fn plain_path(disk: &NewDisk) -> Option<&Text>
    ensures { option_copied result ≡ plain_path (Some disk.now) }
{
    if disk.name.is_some() || disk.size.is_some() || disk.force {
        return None;
    }
    Some(&disk.path)
}

/// The same of the only disk of a failure group without a name.
fn path_in_group(group: &NewFailgroup) -> Option<&Text>
    ensures { option_copied result ≡ path_in_group (Some group.now) }
{
    if group.quorum || group.name.is_some() {
        return None;
    }
    plain_path(only(group.disks.as_slice())?)
}

/// The path of the one disk of an EXTERNAL group without attributes, of which nothing else is said.
fn external_path<'a>(
    kind: Option<GroupKind>,
    groups: &'a [NewFailgroup],
    attributes: &[Attribute],
) -> Option<&'a Text>
    ensures { option_copied result ≡ external_path kind groups.now attributes.now }
{
    let Some(GroupKind::External) = kind else {
        return None;
    };
    if !attributes.is_empty() {
        return None;
    }
    path_in_group(only(groups)?)
}

/// CREATE DISKGROUP. Of a creation of an EXTERNAL group on one disk, of which its path alone is
/// said, it is proved what it does.
pub fn create<B: Bay, H: Host>(
    desk: &mut Desk<B, H>,
    text: &[u8],
    name: Name,
    kind: Option<GroupKind>,
    groups: List<NewFailgroup>,
    attributes: List<Attribute>,
) -> Answer
    requires asked { command_of text.now ≡ Said (CreateGroup name kind groups attributes) }
    requires ready { AreReady desk.old.session.groups (B.state desk.old.bay) }
    ensures answers { IsAnswered text.now result desk.old desk.new }
{
    match external_path(kind, groups.as_slice(), attributes.as_slice()) {
        Some(path) => create_external(desk, text, path.as_slice(), name),
        None => create_any(desk, text, name, kind, groups, attributes),
    }
}

/// The creation of any other form. Its refusals in order: TooMany, GroupExists, and then those of
/// the statement and the disks.
fn create_any<B: Bay, H: Host>(
    desk: &mut Desk<B, H>,
    text: &[u8],
    name: Name,
    kind: Option<GroupKind>,
    groups: List<NewFailgroup>,
    attributes: List<Attribute>,
) -> Answer
    requires asked { command_of text.now ≡ Said (CreateGroup name kind groups attributes) }
    requires other { external_path kind groups attributes ≡ None }
    requires ready { AreReady desk.old.session.groups (B.state desk.old.bay) }
    ensures answers { IsAnswered text.now result desk.old desk.new }
{
    if desk.session.is_full() {
        return refused(desk.alloc, too_many_groups());
    }
    if desk.session.has(&name) {
        return refused(desk.alloc, Refusal::GroupExists);
    }
    if desk.session.make_room().is_err() {
        return refused(desk.alloc, Refusal::NoMemory);
    }
    let asked = GroupAsked {
        name,
        kind: kind.unwrap_or(GroupKind::Normal),
        groups,
        attributes,
    };
    match desk.session.known(desk.alloc) {
        Ok(known) => form_any(desk, text, asked, &known),
        Err(NoMemory) => refused(desk.alloc, Refusal::NoMemory),
    }
}

/// The refusal of a creation, with what it found.
fn refused_with(refusal: Refusal, found: FoundIds) -> Answer {
    Answer {
        reply: Reply::Refused(refusal),
        found,
    }
}

/// The creation of a group whose name isn't in the session, for whose entry there is room.
fn form_any<B: Bay, H: Host>(
    desk: &mut Desk<B, H>,
    text: &[u8],
    asked: GroupAsked,
    known: &Known,
) -> Answer
    requires none { is_proved_on_disks (command_of text.now) ≡ false }
    requires still { is_copy_command (command_of text.now) ≡ false }
    requires absent { is_some (entry_among desk.old.session.entries asked.name) ≡ false }
    requires floor { desk.old.session.given ≤ known.now.floor }
    requires held { known.now.held.items ≡ held_by desk.old.session.groups }
    requires ready { AreReady desk.old.session.groups (B.state desk.old.bay) }
    ensures answers { IsAnswered text.now result desk.old desk.new }
{
    let mut ids = Vec::new(desk.alloc);
    let (made, answer) = session::create_new_group(
        desk.alloc,
        &mut desk.bay,
        &desk.paths,
        &asked,
        known,
        &mut ids,
    );
    let found = FoundIds { ids, made };
    match answer {
        Ok(group) => match desk.session.enter(asked.name, made, group) {
            Ok(()) => Answer {
                reply: Reply::Done(List::new(desk.alloc)),
                found,
            },
            Err(NoMemory) => refused_with(Refusal::NoMemory, found),
        },
        Err(refusal) => {
            desk.session.gave(made);
            refused_with(refusal, found)
        }
    }
}

/// The creation on one disk. Its refusals in order: TooMany, GroupExists, and then those of the
/// disks.
fn create_external<B: Bay, H: Host>(
    desk: &mut Desk<B, H>,
    text: &[u8],
    path: &[u8],
    name: Name,
) -> Answer
    requires says { meaning text.now ≡ Said (creation_of name path.now) }
    requires named { is_name name ≡ true }
    requires ready { AreReady desk.old.session.groups (B.state desk.old.bay) }
    ensures answers { IsAnswered text.now result desk.old desk.new }
{
    if desk.session.is_full() {
        return refused(desk.alloc, too_many_groups());
    }
    if desk.session.has(&name) {
        return refused(desk.alloc, Refusal::GroupExists);
    }
    if desk.session.make_room().is_err() {
        return no_memory(desk, text);
    }
    match desk.session.held_slots(desk.alloc) {
        Ok(held) => form(desk, text, path, name, &held),
        Err(NoMemory) => no_memory(desk, text),
    }
}

/// The creation of a group whose name isn't in the session, for whose entry there is room, on none
/// of the images that are held.
fn form<B: Bay, H: Host>(
    desk: &mut Desk<B, H>,
    text: &[u8],
    path: &[u8],
    name: Name,
    held: &[u32],
) -> Answer
    requires says { meaning text.now ≡ Said (creation_of name path.now) }
    requires named { is_name name ≡ true }
    requires absent { is_some (entry_among desk.old.session.entries name) ≡ false }
    requires room { (w : World) → w.session ≡ desk.old.session.entries
        → nat_le 8 (mounted_count w) ≡ false }
    requires held { held.now ≡ held_by desk.old.session.groups }
    requires ready { AreReady desk.old.session.groups (B.state desk.old.bay) }
    ensures answers { IsAnswered text.now result desk.old desk.new }
{
    let mut ids = Vec::new(desk.alloc);
    let floor = desk.session.next_id();
    let (made, answer) = create_group(
        desk.alloc,
        &mut desk.bay,
        &desk.paths,
        &name,
        path,
        floor,
        &mut ids,
        held,
    );
    let found = FoundIds { ids, made };
    match answer {
        Ok(group) => match desk.session.enter(name, made, group) {
            Ok(()) => Answer {
                reply: Reply::Done(List::new(desk.alloc)),
                found,
            },
            Err(NoMemory) => Answer {
                reply: Reply::Refused(Refusal::NoMemory),
                found,
            },
        },
        Err(refusal) => {
            desk.session.gave(made);
            Answer {
                reply: Reply::Refused(refusal),
                found,
            }
        }
    }
}

/// DISMOUNT: the group leaves the session.
pub fn dismount<B: Bay, H: Host>(
    desk: &mut Desk<B, H>,
    text: &[u8],
    name: Name,
    _force: bool,
) -> Answer
    requires asked { command_of text.now ≡ Said (Alter name (Dismount _force)) }
    requires ready { AreReady desk.old.session.groups (B.state desk.old.bay) }
    ensures answers { IsAnswered text.now result desk.old desk.new }
{
    if !desk.session.leave(&name) {
        return refused(desk.alloc, Refusal::NoGroup);
    }
    Answer::plain(desk.alloc, Reply::Done(List::new(desk.alloc)))
}

/// A group is dropped, with its files or only where it has none.
#[derive(Clone, Copy)]
struct DropAll {
    contents: bool,
}

impl GroupWork for DropAll {
    type Given = ();

    ghost does = { λ work old result new s t. ⊤ };

    #[tactic(auto, using(session::proofs::Keeping::lets_go))]
    fn run<B: Bay>(self, m: &mut Mounted, _alloc: Global, bay: &mut B) -> Result<(), Refusal> {
        match drop_disks_of(m, bay, self.contents) {
            Ok(()) => Ok(()),
            Err(refusal) => Err(refusal),
        }
    }
}

/// DROP DISKGROUP. Its refusals in order: NoGroup, Dismounted, GroupNotEmpty where a file is there
/// and `contents` isn't said.
pub fn drop_group<B: Bay, H: Host>(
    desk: &mut Desk<B, H>,
    text: &[u8],
    name: Name,
    contents: bool,
) -> Answer
    requires asked { command_of text.now ≡ Said (DropGroup name contents) }
    requires ready { AreReady desk.old.session.groups (B.state desk.old.bay) }
    ensures answers { IsAnswered text.now result desk.old desk.new }
{
    let work = DropAll { contents };
    match desk.session.work(desk.alloc, &mut desk.bay, &name, work) {
        Ok(()) => {
            desk.session.leave(&name);
            Answer::plain(desk.alloc, Reply::Done(List::new(desk.alloc)))
        }
        Err(refusal) => refused(desk.alloc, refusal),
    }
}

/// MOUNT. Its refusals in order: AlreadyMounted, TooMany, and then those of the disks. A group that
/// was dismounted is tried afresh, and stays so where it is refused. Where the disks stand for the
/// world it is proved what it does, but for want of memory.
pub fn mount<B: Bay, H: Host>(
    desk: &mut Desk<B, H>,
    text: &[u8],
    group: Name,
    force: bool,
) -> Answer
    requires asked { command_of text.now ≡ Said (Alter group (Mount force)) }
    requires ready { AreReady desk.old.session.groups (B.state desk.old.bay) }
    ensures answers { IsAnswered text.now result desk.old desk.new }
{
    if desk.session.has_mounted(&group) {
        return refused(desk.alloc, Refusal::AlreadyMounted);
    }
    if desk.session.is_full() {
        return refused(desk.alloc, too_many_groups());
    }
    match mount_named(desk, &group, option_of(force)) {
        Ok(()) => Answer::plain(desk.alloc, Reply::Done(List::new(desk.alloc))),
        Err(refusal) => refused(desk.alloc, refusal),
    }
}
