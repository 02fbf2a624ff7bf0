// Directories and aliases: edits of a group's names, each of one commit.
ghost use Rattle.std.specs.Prelude.{◌≡◌, true, IfOk};
ghost use Rattle.std.specs.Option.{option_map};
ghost use Rattle.alias_edits.specs.Edits.{edit_meant};
ghost use Rattle.asm_world.specs.Command.{Said, Asked, MakeDirectory, MakeAlias, RemoveAlias};
ghost use Rattle.asm_world.specs.Language.{command_of};
ghost use Rattle.asm_world.specs.Paths.{clause_path};
ghost use Rattle.asm_world.specs.Statement.{Alter, AddDirectory, DropDirectory, RenameDirectory, AddAlias, DropAlias, RenameAlias};
ghost use Rattle.asm_world.specs.Step.{on_path, on_paths};
ghost use Rattle.session.specs.group_files.GroupEdits.{is_group_edit};
ghost use Rattle.session.specs.Desks.{IsAnswered};
ghost use Rattle.name_commands.specs.Asking.{AsksAlias, AsksAsRead, AsksAt, AsksForEdit, AsksInVain};
ghost use Rattle.session.specs.Meaning.{meaning};
ghost use Rattle.name_commands.specs.NameEdits.{edit_at, edit_between};
ghost use Rattle.session.specs.Sessions.{AreReady};

use alias_edits::TreeEdit;
use asm_base::{Name, NoMemory, Path, Text};
use bay::{Bay, Host};
use refusal_lines::Refusal;
use session::{Answer, Desk, GroupEdit, answer_of, no_memory, path_in, path_of_verb, refused};
use std::alloc::Global;
use verb_paths::target;

/// An edit of the names at one path.
#[derive(Clone, Copy)]
enum AtPath {
    MakeDir,
    DropDir,
    DropAlias,
}

/// An edit of the names with two paths: the old one and the new one, or the alias and that of its
/// file.
#[derive(Clone, Copy)]
enum BetweenPaths {
    RenameDir,
    AddAlias,
    RenameAlias,
}

fn edit_at(kind: AtPath, path: Path) -> TreeEdit
    ensures { edit_meant result ≡ edit_at kind path.parts }
{
    match kind {
        AtPath::MakeDir => TreeEdit::MakeDir { path },
        AtPath::DropDir => TreeEdit::DropDir { path },
        AtPath::DropAlias => TreeEdit::DropAlias { path },
    }
}

fn edit_between(kind: BetweenPaths, first: Path, second: Path) -> TreeEdit
    ensures { edit_meant result ≡ edit_between kind first.parts second.parts }
{
    match kind {
        BetweenPaths::RenameDir => TreeEdit::RenameDir {
            old: first,
            new: second,
        },
        BetweenPaths::AddAlias => TreeEdit::AddAlias {
            alias: first,
            path: second,
        },
        BetweenPaths::RenameAlias => TreeEdit::RenameAlias {
            old: first,
            new: second,
        },
    }
}

/// The edit that a clause with one path asks for. None where that isn't a path of the group.
fn clause_at(
    alloc: Global,
    group: &Name,
    path: &[u8],
    kind: AtPath,
) -> Result<Option<TreeEdit>, NoMemory>
    ensures { IfOk result (λ edit. option_map edit_meant edit
        ≡ on_path (clause_path group.now path.now) (edit_at kind)) }
{
    match path_in(alloc, group, path)? {
        Some(path) => Ok(Some(edit_at(kind, path))),
        None => Ok(None),
    }
}

/// The edit that a clause with two paths asks for. None where one of them isn't a path of the
/// group.
fn clause_between(
    alloc: Global,
    group: &Name,
    first: &[u8],
    second: &[u8],
    kind: BetweenPaths,
) -> Result<Option<TreeEdit>, NoMemory>
    ensures { IfOk result (λ edit. option_map edit_meant edit
        ≡ on_paths (clause_path group.now first.now) (clause_path group.now second.now)
        (edit_between kind)) }
{
    let Some(first) = path_in(alloc, group, first)? else {
        return Ok(None);
    };
    match path_in(alloc, group, second)? {
        Some(second) => Ok(Some(edit_between(kind, first, second))),
        None => Ok(None),
    }
}

/// Edits a group, as a command asks. Its refusals in order: NoGroup, Dismounted, those of the edit,
/// and Dismounted by its commit.
pub fn edit_named<B: Bay, H: Host>(
    desk: &mut Desk<B, H>,
    text: &[u8],
    group: &Name,
    edit: &GroupEdit,
) -> Answer
    requires asks { AsksForEdit desk.old.session.place (meaning text.now) group.now edit.now }
    requires allowed { is_group_edit edit.now ≡ true }
    requires ready { AreReady desk.old.session.groups (B.state desk.old.bay) }
    ensures answers { IsAnswered text.now result desk.old desk.new }
{
    if let Err(refusal) = desk.session.mounted(desk.alloc, group) {
        return refused(desk.alloc, refusal);
    }
    let done = desk.session.edit(desk.alloc, &mut desk.bay, group, edit);
    answer_of(desk.alloc, done)
}

/// The refusal of an edit that a command asks for in vain, behind NoGroup and Dismounted of its
/// group. Nothing is done.
pub fn refused_in<B: Bay, H: Host>(
    desk: &mut Desk<B, H>,
    text: &[u8],
    group: &Name,
    refusal: Refusal,
) -> Answer
    requires vain { AsksInVain desk.old.session.place (meaning text.now) group.now refusal }
    requires ready { AreReady desk.old.session.groups (B.state desk.old.bay) }
    ensures answers { IsAnswered text.now result desk.old desk.new }
{
    if let Err(earlier) = desk.session.mounted(desk.alloc, group) {
        return refused(desk.alloc, earlier);
    }
    refused(desk.alloc, refusal)
}

/// The edit of a clause. Its refusals in order: NoGroup, Dismounted, NoName where a path isn't one
/// of the group, and then those of the edit.
fn edit_clause<B: Bay, H: Host>(
    desk: &mut Desk<B, H>,
    text: &[u8],
    group: &Name,
    edit: Result<Option<TreeEdit>, NoMemory>,
) -> Answer
    requires asks { IfOk edit (AsksAsRead desk.old.session.place (meaning text.now) group.now) }
    requires ready { AreReady desk.old.session.groups (B.state desk.old.bay) }
    ensures answers { IsAnswered text.now result desk.old desk.new }
{
    match edit {
        Ok(Some(edit)) => edit_named(desk, text, group, &GroupEdit::Tree(edit)),
        Ok(None) => refused_in(desk, text, group, Refusal::NoName),
        Err(NoMemory) => no_memory(desk, text),
    }
}

/// The edit of a verb in the group that its path names.
fn edit_by_verb<B: Bay, H: Host>(
    desk: &mut Desk<B, H>,
    text: &[u8],
    group: &Name,
    edit: &GroupEdit,
) -> Answer
    requires asks { AsksForEdit desk.old.session.place (meaning text.now) group.now edit.now }
    requires ready { AreReady desk.old.session.groups (B.state desk.old.bay) }
    ensures answers { IsAnswered text.now result desk.old desk.new }
{
    // a place and the paths of verbs have no other parts
    if !edit.is_allowed() {
        return no_memory(desk, text);
    }
    edit_named(desk, text, group, edit)
}

/// The edit of a verb at its path. Its refusals in order: NoGroup, also where the path comes to
/// `+`, Dismounted, those of the edit, and Dismounted by its commit.
fn edit_verb<B: Bay, H: Host>(
    desk: &mut Desk<B, H>,
    text: &[u8],
    path: &[u8],
    kind: AtPath,
) -> Answer
    requires asks { AsksAt desk.old.session.place (meaning text.now) path.now kind }
    requires ready { AreReady desk.old.session.groups (B.state desk.old.bay) }
    ensures answers { IsAnswered text.now result desk.old desk.new }
{
    let path = match path_of_verb(desk.alloc, desk.session.place(), path) {
        Ok(path) => path,
        Err(refusal) => return refused(desk.alloc, refusal),
    };
    let Ok(group) = path.group.copy() else {
        return no_memory(desk, text);
    };
    let edit = GroupEdit::Tree(edit_at(kind, path));
    edit_by_verb(desk, text, &group, &edit)
}

/// ADD DIRECTORY.
pub fn add_directory<B: Bay, H: Host>(
    desk: &mut Desk<B, H>,
    text: &[u8],
    group: Name,
    path: Text,
) -> Answer
    requires asked { command_of text.now ≡ Said (Alter group (AddDirectory path)) }
    requires ready { AreReady desk.old.session.groups (B.state desk.old.bay) }
    ensures answers { IsAnswered text.now result desk.old desk.new }
{
    let edit = clause_at(desk.alloc, &group, path.as_slice(), AtPath::MakeDir);
    edit_clause(desk, text, &group, edit)
}

/// DROP DIRECTORY.
pub fn drop_directory<B: Bay, H: Host>(
    desk: &mut Desk<B, H>,
    text: &[u8],
    group: Name,
    path: Text,
) -> Answer
    requires asked { command_of text.now ≡ Said (Alter group (DropDirectory path)) }
    requires ready { AreReady desk.old.session.groups (B.state desk.old.bay) }
    ensures answers { IsAnswered text.now result desk.old desk.new }
{
    let edit = clause_at(desk.alloc, &group, path.as_slice(), AtPath::DropDir);
    edit_clause(desk, text, &group, edit)
}

/// RENAME DIRECTORY.
pub fn rename_directory<B: Bay, H: Host>(
    desk: &mut Desk<B, H>,
    text: &[u8],
    group: Name,
    old: Text,
    new: Text,
) -> Answer
    requires asked { command_of text.now ≡ Said (Alter group (RenameDirectory old new)) }
    requires ready { AreReady desk.old.session.groups (B.state desk.old.bay) }
    ensures answers { IsAnswered text.now result desk.old desk.new }
{
    let edit = clause_between(
        desk.alloc,
        &group,
        old.as_slice(),
        new.as_slice(),
        BetweenPaths::RenameDir,
    );
    edit_clause(desk, text, &group, edit)
}

/// ADD ALIAS.
pub fn add_alias<B: Bay, H: Host>(
    desk: &mut Desk<B, H>,
    text: &[u8],
    group: Name,
    alias: Text,
    path: Text,
) -> Answer
    requires asked { command_of text.now ≡ Said (Alter group (AddAlias alias path)) }
    requires ready { AreReady desk.old.session.groups (B.state desk.old.bay) }
    ensures answers { IsAnswered text.now result desk.old desk.new }
{
    let edit = clause_between(
        desk.alloc,
        &group,
        alias.as_slice(),
        path.as_slice(),
        BetweenPaths::AddAlias,
    );
    edit_clause(desk, text, &group, edit)
}

/// DROP ALIAS.
pub fn drop_alias<B: Bay, H: Host>(
    desk: &mut Desk<B, H>,
    text: &[u8],
    group: Name,
    path: Text,
) -> Answer
    requires asked { command_of text.now ≡ Said (Alter group (DropAlias path)) }
    requires ready { AreReady desk.old.session.groups (B.state desk.old.bay) }
    ensures answers { IsAnswered text.now result desk.old desk.new }
{
    let edit = clause_at(desk.alloc, &group, path.as_slice(), AtPath::DropAlias);
    edit_clause(desk, text, &group, edit)
}

/// RENAME ALIAS.
pub fn rename_alias<B: Bay, H: Host>(
    desk: &mut Desk<B, H>,
    text: &[u8],
    group: Name,
    old: Text,
    new: Text,
) -> Answer
    requires asked { command_of text.now ≡ Said (Alter group (RenameAlias old new)) }
    requires ready { AreReady desk.old.session.groups (B.state desk.old.bay) }
    ensures answers { IsAnswered text.now result desk.old desk.new }
{
    let edit = clause_between(
        desk.alloc,
        &group,
        old.as_slice(),
        new.as_slice(),
        BetweenPaths::RenameAlias,
    );
    edit_clause(desk, text, &group, edit)
}

/// mkdir.
pub fn make_directory<B: Bay, H: Host>(desk: &mut Desk<B, H>, text: &[u8], path: Text) -> Answer
    requires asked { command_of text.now ≡ Asked (MakeDirectory path) }
    requires ready { AreReady desk.old.session.groups (B.state desk.old.bay) }
    ensures answers { IsAnswered text.now result desk.old desk.new }
{
    edit_verb(desk, text, path.as_slice(), AtPath::MakeDir)
}

/// rmalias.
pub fn remove_alias<B: Bay, H: Host>(desk: &mut Desk<B, H>, text: &[u8], path: Text) -> Answer
    requires asked { command_of text.now ≡ Asked (RemoveAlias path) }
    requires ready { AreReady desk.old.session.groups (B.state desk.old.bay) }
    ensures answers { IsAnswered text.now result desk.old desk.new }
{
    edit_verb(desk, text, path.as_slice(), AtPath::DropAlias)
}

/// mkalias: as ADD ALIAS in the group that the alias names. NoGroup comes also where the alias's
/// path comes to `+`.
pub fn make_alias<B: Bay, H: Host>(
    desk: &mut Desk<B, H>,
    text: &[u8],
    path: Text,
    alias: Text,
) -> Answer
    requires asked { command_of text.now ≡ Asked (MakeAlias path alias) }
    requires ready { AreReady desk.old.session.groups (B.state desk.old.bay) }
    ensures answers { IsAnswered text.now result desk.old desk.new }
{
    match path_of_verb(desk.alloc, desk.session.place(), alias.as_slice()) {
        Ok(alias) => alias_path(desk, text, alias, path.as_slice()),
        Err(refusal) => refused(desk.alloc, refusal),
    }
}

/// A new alias of the file at a path. Its refusals in order: NoGroup and Dismounted of the alias's
/// group, NoGroup where the path of the file comes to `+`, NoName where it is one of another group,
/// and then those of the edit.
fn alias_path<B: Bay, H: Host>(
    desk: &mut Desk<B, H>,
    text: &[u8],
    alias: Path,
    path: &[u8],
) -> Answer
    requires asks { AsksAlias desk.old.session.place (meaning text.now) alias path.now }
    requires ready { AreReady desk.old.session.groups (B.state desk.old.bay) }
    ensures answers { IsAnswered text.now result desk.old desk.new }
{
    let Ok(group) = alias.group.copy() else {
        return no_memory(desk, text);
    };
    let Ok(led) = target(desk.alloc, desk.session.place(), path) else {
        return no_memory(desk, text);
    };
    let Some(path) = led else {
        return refused_in(desk, text, &group, Refusal::NoGroup);
    };
    if !path.group.is_same(&group) {
        return refused_in(desk, text, &group, Refusal::NoName);
    }
    let edit = TreeEdit::AddAlias { alias, path };
    edit_by_verb(desk, text, &group, &GroupEdit::Tree(edit))
}
