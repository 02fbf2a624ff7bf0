//! Edits of a group's templates.

ghost use Rattle.std.specs.Prelude.{◌≡◌, true, nat_le, IfErr, IsTrue, OnErr, OnOk, None, Some, Ok, if◌then◌else◌};
ghost use Rattle.std.specs.Option.{option_map};
ghost use Rattle.asm_formats.specs.Items.{is_item, templates_item};
ghost use Rattle.asm_group.specs.NewGroup.{templates_by_name};
ghost use Rattle.asm_group.specs.Refusal.{TooMany, Templates};
ghost use Rattle.asm_group.specs.TemplateEdits.{Add, Modify, Drop, allows_copies, said_copies, templates_edited, with_template_edit};
ghost use Rattle.template_directory.specs.Meant.{IsTemplateEditRefusal, is_optional_redundancy, template_edit_meant, is_template_edit, listed_cause, refusal_said};

use crate::reading::MOST_TEMPLATES;
use crate::system_templates::usual_copies;
use crate::table::TemplateTable;
use crate::template::Template;
use asm_base::{GroupKind, Name, NoMemory, Stripe};
use refusal_lines::{Limited, Refusal};

/// An edit of a group's templates. Copies that aren't said are those that the group's kind usually
/// has.
#[derive(Debug, Drop)]
pub enum TemplateEdit {
    /// Makes a template of a new name.
    Add {
        name: Name,
        copies: Option<u8>,
        stripe: Stripe,
    },
    /// Gives the template of a name other copies and another stripe.
    Modify {
        name: Name,
        copies: Option<u8>,
        stripe: Stripe,
    },
    /// Takes away the template of a name, which isn't a system template.
    Drop {
        name: Name,
    },
}

impl TemplateEdit {
    /// Whether the name is one of the grammar, and the copies that are said are one, two or three.
    pub fn is_allowed(&self) -> bool
        ensures { result ≡ is_template_edit (template_edit_meant self.now) }
    {
        match self {
            TemplateEdit::Add { name, copies, .. } => name.is_name() && are_copies(*copies),
            TemplateEdit::Modify { name, copies, .. } => name.is_name() && are_copies(*copies),
            TemplateEdit::Drop { .. } => true,
        }
    }
}

impl TemplateTable {
    /// Edits the templates of a group of a kind. The refusals are, in this order, of Add NameTaken,
    /// BadRedundancy and TooMany, of Modify NoTemplate and BadRedundancy, of Drop NoTemplate and
    /// SystemTemplate, and NoMemory. After an `Err` the table is as it was.
    pub fn edit(&mut self, kind: GroupKind, edit: &TemplateEdit) -> Result<(), Refusal>
        requires { IsTrue (is_template_edit (template_edit_meant edit.now)) }
        ensures done { OnOk result (templates_edited kind (templates_by_name self.old.templates)
            (template_edit_meant edit.now) ≡ Ok (templates_by_name self.new.templates)) }
        ensures refused { IfErr result (IsTemplateEditRefusal
            (templates_edited kind (templates_by_name self.old.templates)
            (template_edit_meant edit.now))) }
        ensures unchanged { OnErr result (self.new ≡ self.old) }
        ensures settings { self.new.settings ≡ self.old.settings }
    {
        if let Some(refusal) = self.refusal(kind, edit) {
            return Err(refusal);
        }
        match self.apply(kind, edit) {
            Ok(()) => Ok(()),
            Err(NoMemory) => Err(Refusal::NoMemory),
        }
    }

    /// Why an edit is refused, or None where it isn't.
    #[tactic(auto, unfolding(refusal_lines::specs::Refusals::meaning_of))]
    fn refusal(&self, kind: GroupKind, edit: &TemplateEdit) -> Option<Refusal>
        ensures cause { option_map refusal_said result
            ≡ listed_cause kind self.now.templates (template_edit_meant edit.now) }
        ensures allowed { is_item (templates_item self.now.templates) ≡ true }
    {
        match edit {
            TemplateEdit::Add { name, copies, .. } => {
                if self.get(name).is_some() {
                    return Some(Refusal::NameTaken);
                }
                if !allows(kind, *copies) {
                    return Some(Refusal::BadRedundancy);
                }
                full(self.list().len())
            }
            TemplateEdit::Modify { name, copies, .. } => {
                if self.get(name).is_none() {
                    return Some(Refusal::NoTemplate);
                }
                if !allows(kind, *copies) {
                    return Some(Refusal::BadRedundancy);
                }
                None
            }
            TemplateEdit::Drop { name } => {
                let Some(template) = self.get(name) else {
                    return Some(Refusal::NoTemplate);
                };
                if template.is_system() {
                    return Some(Refusal::SystemTemplate);
                }
                None
            }
        }
    }

    /// Does an edit that isn't refused.
    fn apply(&mut self, kind: GroupKind, edit: &TemplateEdit) -> Result<(), NoMemory>
        requires edit { IsTrue (is_template_edit (template_edit_meant edit.now)) }
        requires free { listed_cause kind self.old.templates (template_edit_meant edit.now) ≡ None }
        ensures ok { OnOk result (templates_by_name self.new.templates
            ≡ with_template_edit kind (templates_by_name self.old.templates)
            (template_edit_meant edit.now)) }
        ensures err { OnErr result (self.new ≡ self.old) }
        ensures settings { self.new.settings ≡ self.old.settings }
    {
        match edit {
            TemplateEdit::Add {
                name,
                copies,
                stripe,
            } => self.add(kind, name, *copies, *stripe),
            TemplateEdit::Modify {
                name,
                copies,
                stripe,
            } => self.modify(kind, name, *copies, *stripe),
            TemplateEdit::Drop { name } => {
                self.take_away(name);
                Ok(())
            }
        }
    }

    #[tactic(auto, using(crate::proofs::EditLaws::add_allowed, crate::proofs::EditLaws::add_room))]
    fn add(
        &mut self,
        kind: GroupKind,
        name: &Name,
        copies: Option<u8>,
        stripe: Stripe,
    ) -> Result<(), NoMemory>
        requires edit { is_template_edit (Add name.now copies stripe) ≡ true }
        requires free { listed_cause kind self.old.templates (Add name.now copies stripe) ≡ None }
        ensures ok { OnOk result (templates_by_name self.new.templates
            ≡ with_template_edit kind (templates_by_name self.old.templates)
            (Add name.now copies stripe)) }
        ensures err { OnErr result (self.new ≡ self.old) }
        ensures settings { self.new.settings ≡ self.old.settings }
    {
        let spelt = name.copy()?;
        let template = made(spelt, said_copies(kind, copies), stripe, false);
        self.put(template)
    }

    #[tactic(auto, using(crate::proofs::EditLaws::modify_allowed, crate::proofs::EditLaws::modify_room))]
    fn modify(
        &mut self,
        kind: GroupKind,
        name: &Name,
        copies: Option<u8>,
        stripe: Stripe,
    ) -> Result<(), NoMemory>
        requires edit { is_template_edit (Modify name.now copies stripe) ≡ true }
        requires free { listed_cause kind self.old.templates (Modify name.now copies stripe)
            ≡ None }
        ensures ok { OnOk result (templates_by_name self.new.templates
            ≡ with_template_edit kind (templates_by_name self.old.templates)
            (Modify name.now copies stripe)) }
        ensures err { OnErr result (self.new ≡ self.old) }
        ensures settings { self.new.settings ≡ self.old.settings }
    {
        let Some(old) = self.get(name) else {
            unreachable!()
        };
        let spelt = old.name().copy()?;
        let template = made(spelt, said_copies(kind, copies), stripe, old.is_system());
        self.put(template)
    }

    #[tactic(auto, using(crate::proofs::EditLaws::dropped_is))]
    fn take_away(&mut self, name: &Name)
        ensures done { (kind : GroupKind) → templates_by_name self.new.templates
            ≡ with_template_edit kind (templates_by_name self.old.templates) (Drop name.now) }
        ensures settings { self.new.settings ≡ self.old.settings }
    {
        let _ = self.remove(name);
    }
}

fn made(name: Name, copies: u8, stripe: Stripe, system: bool) -> Template
    ensures { result ≡ record { name = name; copies = copies; stripe = stripe; system = system } }
{
    Template {
        name,
        copies,
        stripe,
        system,
    }
}

/// The refusal of one template more, where there are as many as there may be.
#[tactic(auto, unfolding(refusal_lines::specs::Refusals::meaning_of))]
fn full(count: usize) -> Option<Refusal>
    ensures { option_map refusal_said result
        ≡ (if nat_le 64 count then Some (TooMany Templates 64) else None) }
{
    if count < MOST_TEMPLATES {
        return None;
    }
    Some(Refusal::TooMany {
        kind: Limited::Templates,
        limit: MOST_TEMPLATES as u64,
    })
}

/// The copies that are said, or those that the group's kind usually has.
fn said_copies(kind: GroupKind, copies: Option<u8>) -> u8
    ensures { result ≡ said_copies kind copies }
{
    match copies {
        Some(copies) => copies,
        None => usual_copies(kind),
    }
}

/// Whether a group's kind allows as many copies: EXTERNAL one alone, HIGH three alone, and NORMAL
/// each number.
fn allows(kind: GroupKind, copies: Option<u8>) -> bool
    ensures { result ≡ allows_copies kind (said_copies kind copies) }
{
    let copies = said_copies(kind, copies);
    match kind {
        GroupKind::External => copies == 1,
        GroupKind::Normal => true,
        GroupKind::High => copies == 3,
    }
}

fn are_copies(copies: Option<u8>) -> bool
    ensures { result ≡ is_optional_redundancy copies }
{
    match copies {
        Some(copies) => 1 <= copies && copies <= 3,
        None => true,
    }
}
