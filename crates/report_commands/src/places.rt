// Where the session stands: cd and pwd.
ghost use Rattle.std.specs.Prelude.{◌≡◌, ◌⊎◌, ◌++◌, ◌∷◌, [], Err, IfErr, IfOk, OnOk};
ghost use Rattle.refusal_lines.specs.declared.refusal.Refusal.TheVariants.{NoMemory as WantOfMemory};
ghost use Rattle.asm_world.specs.Command.{Asked, Cd, Pwd};
ghost use Rattle.asm_world.specs.Language.{command_of};
ghost use Rattle.asm_world.specs.Paths.{path_text};
ghost use Rattle.session.specs.Desks.{IsAnswered};
ghost use Rattle.group_reports.specs.Places.{directory_at};
ghost use Rattle.report_commands.specs.Going.{IsDirectoryOf, IsGoingCause, IsGoingCauseBy, IsLed, IsLedBy, place_of_directory};
ghost use Rattle.session.specs.Sessions.{AreReady};

use asm_base::{List, Name, NoMemory, Path, Text};
use asmcmd::path_text;
use bay::{Bay, Host};
use group_reports::directory_at;
use refusal_lines::Refusal;
use session::{Answer, Desk, Mounted, Reply, Session, no_memory, refused};
use std::alloc::Global;
use verb_paths::{parts_in_group, resolve};

/// cd. Its refusals in order: NoGroup, Dismounted, NoName, NotDirectory. The place is spelt as the
/// group's names are.
pub fn cd<B: Bay, H: Host>(desk: &mut Desk<B, H>, text: &[u8], path: Text) -> Answer
    requires asked { command_of text.now ≡ Asked (Cd path) }
    requires ready { AreReady desk.old.session.groups (B.state desk.old.bay) }
    ensures answers { IsAnswered text.now result desk.old desk.new }
{
    match led(&desk.session, desk.alloc, path.as_slice()) {
        Ok(place) => {
            desk.session.go(place);
            Answer::plain(desk.alloc, Reply::Done(List::new(desk.alloc)))
        }
        Err(refusal) => refused(desk.alloc, refusal),
    }
}

/// Puts names behind a place.
fn put_names(place: &mut List<Name>, names: &[Name]) -> Result<(), NoMemory>
    ensures { OnOk result (place.new ≡ place.old ++ names.now) }
{
    for name in names {
        place.push(name.copy()?)?;
    }
    Ok(())
}

/// The place of a node: the group's name, and the parts that lead to it as they are spelt there.
/// The root has none.
fn place_of(alloc: Global, m: &Mounted, node: u32) -> Result<List<Name>, NoMemory>
    ensures { IfOk result (λ place. place ≡ place_of_directory m.now node) }
{
    let spelt = m.catalog().path_of(alloc, m.name(), node)?;
    let mut place = List::new(alloc);
    place.push(m.name().copy()?)?;
    if let Some(path) = spelt {
        put_names(&mut place, path.parts.as_slice())?;
    }
    Ok(place)
}

/// The place of a directory in a group.
fn place_at(alloc: Global, m: &Mounted, path: &Path) -> Result<List<Name>, Refusal>
    ensures place { IfOk result (IsDirectoryOf m.now path.now.parts) }
    ensures cause { IfErr result (λ refusal.
        (directory_at m.now.catalog.tables path.now.parts ≡ Err refusal)
        ⊎ (refusal ≡ WantOfMemory)) }
{
    let node = directory_at(m.catalog(), path)?;
    match place_of(alloc, m, node) {
        Ok(place) => Ok(place),
        Err(NoMemory) => Err(Refusal::NoMemory),
    }
}

/// The place to which a path leads.
fn led(session: &Session, alloc: Global, path: &[u8]) -> Result<List<Name>, Refusal>
    ensures led { IfOk result (IsLed session.now path.now) }
    ensures cause { IfErr result (IsGoingCause session.now path.now) }
{
    match resolve(alloc, session.place(), path) {
        Ok(Some(parts)) => led_by(session, alloc, parts),
        Ok(None) => Err(Refusal::NoName),
        Err(NoMemory) => Err(Refusal::NoMemory),
    }
}

/// The same of the parts from the top.
fn led_by(session: &Session, alloc: Global, parts: List<Name>) -> Result<List<Name>, Refusal>
    ensures led { IfOk result (IsLedBy session.now (Some parts)) }
    ensures cause { IfErr result (λ refusal. (refusal ≡ WantOfMemory)
        ⊎ IsGoingCauseBy session.now (Some parts) refusal) }
{
    let Some(path) = parts_in_group(parts) else {
        return Ok(List::new(alloc));
    };
    match session.mounted(alloc, &path.group) {
        Ok(m) => place_at(alloc, m, &path),
        Err(refusal) => Err(refusal),
    }
}

/// pwd: the line of the session's place.
pub fn pwd<B: Bay, H: Host>(desk: &mut Desk<B, H>, text: &[u8]) -> Answer
    requires asked { command_of text.now ≡ Asked Pwd }
    requires ready { AreReady desk.old.session.groups (B.state desk.old.bay) }
    ensures answers { IsAnswered text.now result desk.old desk.new }
{
    match place_lines(desk.alloc, desk.session.place()) {
        Ok(lines) => Answer::plain(desk.alloc, Reply::Done(lines)),
        Err(NoMemory) => no_memory(desk, text),
    }
}

/// The line of a place.
fn place_lines(alloc: Global, place: &[Name]) -> Result<List<Text>, NoMemory>
    ensures { IfOk result (λ lines. lines ≡ path_text place.now ∷ []) }
{
    let mut lines = List::new(alloc);
    lines.push(place_text(alloc, place)?)?;
    Ok(lines)
}

/// The text of a place.
#[tactic(auto, using(crate::proofs::Texts::text_below, crate::proofs::Texts::text_top))]
fn place_text(alloc: Global, place: &[Name]) -> Result<Text, NoMemory>
    ensures { IfOk result (λ text. text ≡ path_text place.now) }
{
    match place.split_first() {
        Some((group, parts)) => path_text(alloc, group, parts),
        None => Text::from_slice(alloc, b"+"),
    }
}
