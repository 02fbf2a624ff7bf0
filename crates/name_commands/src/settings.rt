// Templates and attributes of groups, each edited by one commit.
ghost use Rattle.std.specs.Prelude.{◌≡◌};
ghost use Rattle.asm_world.specs.Command.{Said};
ghost use Rattle.asm_world.specs.Language.{command_of};
ghost use Rattle.asm_world.specs.Settings.{added_by, copies_in, modified_by, stripe_in};
ghost use Rattle.asm_world.specs.Statement.{Alter, AddTemplate, ModifyTemplate, DropTemplate, SetAttribute};
ghost use Rattle.template_directory.specs.Meant.{template_edit_meant};
ghost use Rattle.session.specs.Desks.{IsAnswered};
ghost use Rattle.session.specs.Sessions.{AreReady};

use crate::names::{edit_named, refused_in};
use asm_base::{Name, NoMemory, Redundancy, Stripe};
use bay::{Bay, Host};
use group_sql::{Attribute, TemplateWords};
use refusal_lines::Refusal;
use session::{Answer, Desk, GroupEdit, no_memory};
use template_directory::TemplateEdit;

/// The copies that the words of a template say.
fn copies_in(words: &TemplateWords) -> Option<u8>
    ensures { result ≡ copies_in words.now }
{
    match words.redundancy {
        Some(Redundancy::Unprotected) => Some(1),
        Some(Redundancy::Mirror) => Some(2),
        Some(Redundancy::High) => Some(3),
        None => None,
    }
}

/// The stripe that they say, or else COARSE.
fn stripe_in(words: &TemplateWords) -> Stripe
    ensures { result ≡ stripe_in words.now }
{
    match words.stripe {
        Some(stripe) => stripe,
        None => Stripe::Coarse,
    }
}

fn added_by(name: Name, words: &TemplateWords) -> TemplateEdit
    ensures { template_edit_meant result ≡ added_by name words.now }
{
    TemplateEdit::Add {
        name,
        copies: copies_in(words),
        stripe: stripe_in(words),
    }
}

fn modified_by(name: Name, words: &TemplateWords) -> TemplateEdit
    ensures { template_edit_meant result ≡ modified_by name words.now }
{
    TemplateEdit::Modify {
        name,
        copies: copies_in(words),
        stripe: stripe_in(words),
    }
}

/// ADD TEMPLATE. Its refusals in order: NoGroup, Dismounted, NameTaken, BadRedundancy, TooMany, and
/// Dismounted by its commit.
pub fn add_template<B: Bay, H: Host>(
    desk: &mut Desk<B, H>,
    text: &[u8],
    group: Name,
    name: Name,
    words: TemplateWords,
) -> Answer
    requires asked { command_of text.now ≡ Said (Alter group (AddTemplate name words)) }
    requires ready { AreReady desk.old.session.groups (B.state desk.old.bay) }
    ensures answers { IsAnswered text.now result desk.old desk.new }
{
    let edit = added_by(name, &words);
    edit_named(desk, text, &group, &GroupEdit::Templates(edit))
}

/// MODIFY TEMPLATE. Its refusals in order: NoGroup, Dismounted, NoTemplate, BadRedundancy, and
/// Dismounted by its commit.
pub fn modify_template<B: Bay, H: Host>(
    desk: &mut Desk<B, H>,
    text: &[u8],
    group: Name,
    name: Name,
    words: TemplateWords,
) -> Answer
    requires asked { command_of text.now ≡ Said (Alter group (ModifyTemplate name words)) }
    requires ready { AreReady desk.old.session.groups (B.state desk.old.bay) }
    ensures answers { IsAnswered text.now result desk.old desk.new }
{
    let edit = modified_by(name, &words);
    edit_named(desk, text, &group, &GroupEdit::Templates(edit))
}

/// DROP TEMPLATE. Its refusals in order: NoGroup, Dismounted, NoTemplate, SystemTemplate, and
/// Dismounted by its commit.
pub fn drop_template<B: Bay, H: Host>(
    desk: &mut Desk<B, H>,
    text: &[u8],
    group: Name,
    name: Name,
) -> Answer
    requires asked { command_of text.now ≡ Said (Alter group (DropTemplate name)) }
    requires ready { AreReady desk.old.session.groups (B.state desk.old.bay) }
    ensures answers { IsAnswered text.now result desk.old desk.new }
{
    let edit = TemplateEdit::Drop { name };
    edit_named(desk, text, &group, &GroupEdit::Templates(edit))
}

/// SET ATTRIBUTE. Its refusals in order: NoGroup, Dismounted, BadAttribute, and Dismounted by its
/// commit. No attribute has a name with other bytes than those of names.
pub fn set_attribute<B: Bay, H: Host>(
    desk: &mut Desk<B, H>,
    text: &[u8],
    group: Name,
    attribute: Attribute,
) -> Answer
    requires asked { command_of text.now ≡ Said (Alter group (SetAttribute attribute)) }
    requires ready { AreReady desk.old.session.groups (B.state desk.old.bay) }
    ensures answers { IsAnswered text.now result desk.old desk.new }
{
    let Attribute { name, value } = attribute;
    match Name::read(desk.alloc, name.as_slice(), 255) {
        Ok(Some(name)) => {
            let edit = GroupEdit::SetAttribute { name, value };
            edit_named(desk, text, &group, &edit)
        }
        Ok(None) => refused_in(desk, text, &group, Refusal::BadAttribute { name }),
        Err(NoMemory) => no_memory(desk, text),
    }
}
