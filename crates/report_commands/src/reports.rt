// Reports: lists of names, groups, disks, templates and attributes, and what files take. None asks
// a device or changes anything.
ghost use Rattle.std.specs.Prelude.{◌≡◌};
ghost use Rattle.asm_world.specs.Command.{Asked, Said, Ls, Find, Usage, ListGroups, ListDisks, ListTemplates, ListAttributes};
ghost use Rattle.asm_world.specs.Language.{command_of};
ghost use Rattle.asm_world.specs.Statement.{Alter, Check};
ghost use Rattle.session.specs.Desks.{IsAnswered};
ghost use Rattle.session.specs.Sessions.{AreReady};
ghost use Rattle.report_commands.specs.Told.{AsksForReport};

use crate::group_rows::groups_told;
use crate::listing::{listed, parts_led};
use crate::shown::{Report, directory_led, found, told, used};
use asm_base::{Name, Text};
use bay::{Bay, Host};
use refusal_lines::Refusal;
use session::{Answer, Desk, answer_lines, no_memory, refused};
use verb_paths::target;

/// A report on the mounted group of a name. Its refusals in order: NoGroup, Dismounted.
fn tell<B: Bay, H: Host>(desk: &mut Desk<B, H>, text: &[u8], group: &Name, report: Report) -> Answer
    requires asked { AsksForReport text.now group.now report }
    requires ready { AreReady desk.old.session.groups (B.state desk.old.bay) }
    ensures answers { IsAnswered text.now result desk.old desk.new }
{
    let lines = told(&desk.session, desk.alloc, group, report);
    answer_lines(desk.alloc, lines)
}

/// ls. Its refusals in order: NoGroup, Dismounted, NoName, and NotDirectory of what a pattern is
/// looked for in.
pub fn ls<B: Bay, H: Host>(
    desk: &mut Desk<B, H>,
    text: &[u8],
    long: bool,
    path: Option<Text>,
) -> Answer
    requires asked { command_of text.now ≡ Asked (Ls long path) }
    requires ready { AreReady desk.old.session.groups (B.state desk.old.bay) }
    ensures answers { IsAnswered text.now result desk.old desk.new }
{
    let Ok(led) = parts_led(desk.alloc, desk.session.place(), &path) else {
        return no_memory(desk, text);
    };
    let Some(parts) = led else {
        return refused(desk.alloc, Refusal::NoGroup);
    };
    let lines = listed(&desk.session, desk.alloc, parts.as_slice(), long);
    answer_lines(desk.alloc, lines)
}

/// find. Its refusals in order: NoGroup, Dismounted, NoName, NotDirectory.
pub fn find<B: Bay, H: Host>(
    desk: &mut Desk<B, H>,
    text: &[u8],
    path: Text,
    pattern: Text,
) -> Answer
    requires asked { command_of text.now ≡ Asked (Find path pattern) }
    requires ready { AreReady desk.old.session.groups (B.state desk.old.bay) }
    ensures answers { IsAnswered text.now result desk.old desk.new }
{
    let Ok(led) = target(desk.alloc, desk.session.place(), path.as_slice()) else {
        return no_memory(desk, text);
    };
    let Some(below) = led else {
        return refused(desk.alloc, Refusal::NoGroup);
    };
    let lines = found(&desk.session, desk.alloc, &below, pattern.as_slice());
    answer_lines(desk.alloc, lines)
}

/// du, where no path is said of the session's place. Its refusals in order: NoGroup, Dismounted,
/// NoName, NotDirectory.
pub fn usage<B: Bay, H: Host>(desk: &mut Desk<B, H>, text: &[u8], path: Option<Text>) -> Answer
    requires asked { command_of text.now ≡ Asked (Usage path) }
    requires ready { AreReady desk.old.session.groups (B.state desk.old.bay) }
    ensures answers { IsAnswered text.now result desk.old desk.new }
{
    let Ok(led) = directory_led(desk.alloc, desk.session.place(), &path) else {
        return no_memory(desk, text);
    };
    let Some(below) = led else {
        return refused(desk.alloc, Refusal::NoGroup);
    };
    let lines = used(&desk.session, desk.alloc, &below);
    answer_lines(desk.alloc, lines)
}

/// lsdg: the group of a name, or all of the session in the order of mounting. NoGroup: no group has
/// the name.
pub fn list_groups<B: Bay, H: Host>(
    desk: &mut Desk<B, H>,
    text: &[u8],
    group: Option<Name>,
) -> Answer
    requires asked { command_of text.now ≡ Asked (ListGroups group) }
    requires ready { AreReady desk.old.session.groups (B.state desk.old.bay) }
    ensures answers { IsAnswered text.now result desk.old desk.new }
{
    let lines = groups_told(&desk.session, desk.alloc, &group);
    answer_lines(desk.alloc, lines)
}

/// lsdsk. Its refusals in order: NoGroup, Dismounted.
pub fn list_disks<B: Bay, H: Host>(desk: &mut Desk<B, H>, text: &[u8], group: Name) -> Answer
    requires asked { command_of text.now ≡ Asked (ListDisks group) }
    requires ready { AreReady desk.old.session.groups (B.state desk.old.bay) }
    ensures answers { IsAnswered text.now result desk.old desk.new }
{
    tell(desk, text, &group, Report::Disks)
}

/// lstmpl. Its refusals in order: NoGroup, Dismounted.
pub fn list_templates<B: Bay, H: Host>(desk: &mut Desk<B, H>, text: &[u8], group: Name) -> Answer
    requires asked { command_of text.now ≡ Asked (ListTemplates group) }
    requires ready { AreReady desk.old.session.groups (B.state desk.old.bay) }
    ensures answers { IsAnswered text.now result desk.old desk.new }
{
    tell(desk, text, &group, Report::Templates)
}

/// lsattr. Its refusals in order: NoGroup, Dismounted.
pub fn list_attributes<B: Bay, H: Host>(desk: &mut Desk<B, H>, text: &[u8], group: Name) -> Answer
    requires asked { command_of text.now ≡ Asked (ListAttributes group) }
    requires ready { AreReady desk.old.session.groups (B.state desk.old.bay) }
    ensures answers { IsAnswered text.now result desk.old desk.new }
{
    tell(desk, text, &group, Report::Attributes)
}

/// CHECK. Its refusals in order: NoGroup, Dismounted.
pub fn check<B: Bay, H: Host>(desk: &mut Desk<B, H>, text: &[u8], group: Name) -> Answer
    requires asked { command_of text.now ≡ Said (Alter group Check) }
    requires ready { AreReady desk.old.session.groups (B.state desk.old.bay) }
    ensures answers { IsAnswered text.now result desk.old desk.new }
{
    tell(desk, text, &group, Report::Check)
}
