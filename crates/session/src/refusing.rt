// Commands that are refused before anything is done.
ghost use Rattle.std.specs.Prelude.{◌≡◌, [], false};
ghost use Rattle.refusal_lines.specs.Refusals.{meaning_of};
ghost use Rattle.asm_group.specs.Refusal as r;
ghost use Rattle.session.specs.Views.{found_view, nothing_found};
ghost use Rattle.session.specs.declared.reply.Reply.TheVariants.{Refused};
ghost use Rattle.asm_world.specs.Command.{Unreadable};
ghost use Rattle.asm_world.specs.Language.{command_of};
ghost use Rattle.session.specs.Desks.{IsAnswered};
ghost use Rattle.session.specs.Sessions.{AreReady};
ghost use Rattle.session.specs.Families.{is_proved_on_disks};

use crate::answer::Answer;
use crate::desk::Desk;
use crate::reply::Reply;
use crate::session::MAX_GROUPS;
use bay::{Bay, Host};
use refusal_lines::{Limited, Refusal};
use std::alloc::Global;

/// What is no command is refused where its longest front that begins one ends.
pub fn unreadable<B: Bay, H: Host>(desk: &mut Desk<B, H>, text: &[u8], at: u64) -> Answer
    requires asked { command_of text.now ≡ Unreadable at }
    requires ready { AreReady desk.old.session.groups (B.state desk.old.bay) }
    ensures answers { IsAnswered text.now result desk.old desk.new }
{
    Answer::plain(desk.alloc, Reply::Refused(Refusal::Syntax { at }))
}

/// Want of memory, before anything was done.
pub fn no_memory<B: Bay, H: Host>(desk: &mut Desk<B, H>, text: &[u8]) -> Answer
    requires ready { AreReady desk.old.session.groups (B.state desk.old.bay) }
    ensures answers { IsAnswered text.now result desk.old desk.new }
{
    Answer::plain(desk.alloc, Reply::Refused(Refusal::NoMemory))
}

/// A refusal of a command of which it isn't proved what it does. Nothing was done.
pub fn refuse<B: Bay, H: Host>(desk: &mut Desk<B, H>, text: &[u8], refusal: Refusal) -> Answer
    requires unproved { is_proved_on_disks (command_of text.now) ≡ false }
    requires ready { AreReady desk.old.session.groups (B.state desk.old.bay) }
    ensures answers { IsAnswered text.now result desk.old desk.new }
{
    refused(desk.alloc, refusal)
}

/// A refusal, with nothing found of ids.
pub fn refused(alloc: Global, refusal: Refusal) -> Answer
    ensures reply { result.reply ≡ Refused refusal }
    ensures found { found_view result.found ≡ nothing_found }
{
    Answer::plain(alloc, Reply::Refused(refusal))
}

/// As many groups are mounted as there may be.
pub fn too_many_groups() -> Refusal
    ensures { meaning_of (λ _. []) result ≡ r.TooMany r.Groups 8 }
{
    Refusal::TooMany {
        kind: Limited::Groups,
        limit: MAX_GROUPS as u64,
    }
}
