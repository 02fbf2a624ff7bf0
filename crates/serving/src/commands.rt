// A text is read, and what it asks for is run by the crate of its family.
ghost use Rattle.std.specs.Prelude.{◌≡◌};
ghost use Rattle.asm_world.specs.Command.{Said, Asked};
ghost use Rattle.asm_world.specs.Language.{command_of};
ghost use Rattle.asmcmd.specs.Verbs.{meant_verb as verb_said};
ghost use Rattle.asm_world.specs.Statement.{Alter};
ghost use Rattle.group_sql.specs.Said.{statement_said, clause_said};
ghost use Rattle.disk_commands.specs.session.Desks.{IsAnswered};
ghost use Rattle.disk_commands.specs.session.Sessions.{AreReady};

use crate::reader::{Request, read_request};
use asm_base::Name;
use asmcmd::{ReadError, Verb};
use bay::{Bay, Host};
use disk_commands::{Answer, Desk, no_memory, unreadable};
use group_sql::{Clause, Statement};

/// Runs a command on the desk.
pub fn run_text<B: Bay, H: Host>(desk: &mut Desk<B, H>, text: &[u8]) -> Answer
    requires ready { AreReady desk.old.session.groups (B.state desk.old.bay) }
    ensures answers { IsAnswered text.now result desk.old desk.new }
{
    match read_request(desk.alloc, text) {
        Ok(Request::Said(statement)) => run_statement(desk, text, statement),
        Ok(Request::Asked(verb)) => run_verb(desk, text, verb),
        Err(ReadError::Syntax { at }) => unreadable(desk, text, at),
        Err(ReadError::NoMemory) => no_memory(desk, text),
    }
}

fn run_statement<B: Bay, H: Host>(
    desk: &mut Desk<B, H>,
    text: &[u8],
    statement: Statement,
) -> Answer
    requires asked { command_of text.now ≡ Said (statement_said statement) }
    requires ready { AreReady desk.old.session.groups (B.state desk.old.bay) }
    ensures answers { IsAnswered text.now result desk.old desk.new }
{
    match statement {
        Statement::CreateDisk { path, size } => disk_commands::create_disk(desk, text, path, size),
        Statement::CreateGroup {
            name,
            kind,
            groups,
            attributes,
        } => group_commands::create(desk, text, name, kind, groups, attributes),
        Statement::DropGroup { name, contents } => group_commands::drop_group(
            desk, text, name, contents,
        ),
        Statement::Alter { group, clause } => run_clause(desk, text, group, clause),
    }
}

fn run_clause<B: Bay, H: Host>(
    desk: &mut Desk<B, H>,
    text: &[u8],
    group: Name,
    clause: Clause,
) -> Answer
    requires asked { command_of text.now ≡ Said (Alter group (clause_said clause)) }
    requires ready { AreReady desk.old.session.groups (B.state desk.old.bay) }
    ensures answers { IsAnswered text.now result desk.old desk.new }
{
    match clause {
        Clause::AddDisks { groups, rebalance } => disk_commands::add_disks(
            desk, text, group, groups, rebalance,
        ),
        Clause::AddTemplate { name, words } => name_commands::add_template(
            desk, text, group, name, words,
        ),
        Clause::AddDirectory { path } => name_commands::add_directory(desk, text, group, path),
        Clause::AddAlias { alias, path } => name_commands::add_alias(
            desk, text, group, alias, path,
        ),
        Clause::DropDisks { disks, rebalance } => disk_commands::drop_disks(
            desk, text, group, disks, rebalance,
        ),
        Clause::DropFailgroup {
            kind,
            name,
            force,
            rebalance,
        } => disk_commands::drop_failgroup(desk, text, group, kind, name, force, rebalance),
        Clause::DropTemplate { name } => name_commands::drop_template(desk, text, group, name),
        Clause::DropDirectory { path } => name_commands::drop_directory(desk, text, group, path),
        Clause::DropAlias { path } => name_commands::drop_alias(desk, text, group, path),
        Clause::DropFile { path } => file_commands::drop_file(desk, text, group, path),
        Clause::UndropDisks => disk_commands::undrop_disks(desk, text, group),
        Clause::ResizeAll { size, rebalance } => disk_commands::resize_all(
            desk, text, group, size, rebalance,
        ),
        Clause::ResizeDisk {
            name,
            size,
            rebalance,
        } => disk_commands::resize_disk(desk, text, group, name, size, rebalance),
        Clause::Rebalancing(rebalance) => disk_commands::start_rebalance(
            desk, text, group, rebalance,
        ),
        Clause::Check => report_commands::check(desk, text, group),
        Clause::Mount { force } => group_commands::mount(desk, text, group, force),
        Clause::Dismount { force } => group_commands::dismount(desk, text, group, force),
        Clause::OnlineAll { wait } => disk_commands::online_all(desk, text, group, wait),
        Clause::Online { disks, wait } => disk_commands::online_disks(
            desk, text, group, disks, wait,
        ),
        Clause::Offline { disks, minutes } => disk_commands::offline_disks(
            desk, text, group, disks, minutes,
        ),
        Clause::ModifyTemplate { name, words } => name_commands::modify_template(
            desk, text, group, name, words,
        ),
        Clause::RenameDirectory { old, new } => name_commands::rename_directory(
            desk, text, group, old, new,
        ),
        Clause::RenameAlias { old, new } => name_commands::rename_alias(
            desk, text, group, old, new,
        ),
        Clause::SetAttribute(attribute) => name_commands::set_attribute(
            desk, text, group, attribute,
        ),
    }
}

fn run_verb<B: Bay, H: Host>(desk: &mut Desk<B, H>, text: &[u8], verb: Verb) -> Answer
    requires asked { command_of text.now ≡ Asked (verb_said verb) }
    requires ready { AreReady desk.old.session.groups (B.state desk.old.bay) }
    ensures answers { IsAnswered text.now result desk.old desk.new }
{
    match verb {
        Verb::DbCreate {
            path,
            size,
            template,
        } => file_commands::create_file(desk, text, path, size, template),
        Verb::DbWrite { path, at, bytes } => file_commands::write_file(desk, text, path, at, bytes),
        Verb::DbFill {
            path,
            at,
            size,
            byte,
        } => file_commands::fill_file(desk, text, path, at, size, byte),
        Verb::DbRead { path, at, size } => file_commands::read_file(desk, text, path, at, size),
        Verb::DbResize { path, size } => file_commands::resize_file(desk, text, path, size),
        Verb::Ls { long, path } => report_commands::ls(desk, text, long, path),
        Verb::Cd { path } => report_commands::cd(desk, text, path),
        Verb::Pwd => report_commands::pwd(desk, text),
        Verb::MakeDir { path } => name_commands::make_directory(desk, text, path),
        Verb::Remove { path } => file_commands::remove(desk, text, path),
        Verb::Copy { source, target } => file_commands::copy_file(desk, text, source, target),
        Verb::Usage { path } => report_commands::usage(desk, text, path),
        Verb::Find { path, pattern } => report_commands::find(desk, text, path, pattern),
        Verb::MakeAlias { path, alias } => name_commands::make_alias(desk, text, path, alias),
        Verb::RemoveAlias { path } => name_commands::remove_alias(desk, text, path),
        Verb::ListGroups { group } => report_commands::list_groups(desk, text, group),
        Verb::ListDisks { group } => report_commands::list_disks(desk, text, group),
        Verb::ListTemplates { group } => report_commands::list_templates(desk, text, group),
        Verb::ListAttributes { group } => report_commands::list_attributes(desk, text, group),
        Verb::OfflineDisk { group, disk } => disk_commands::offline_disk(desk, text, group, disk),
        Verb::OnlineDisk { group, disk } => disk_commands::online_disk(desk, text, group, disk),
        Verb::SetPower { group, power } => disk_commands::set_power(desk, text, group, power),
    }
}
