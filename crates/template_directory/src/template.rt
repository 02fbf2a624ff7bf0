//! A template of files.

use asm_base::{Name, NoMemory, Stripe};
use std::marker::Model;

/// What a file that is made by this template is given. Contracts see it as the template of a group.
#[derive(Debug, Drop)]
pub struct Template {
    /// The name as it was spelt.
    pub name: Name,
    /// Copies of each extent: one, two or three.
    pub copies: u8,
    pub stripe: Stripe,
    /// Whether it is one of the system templates, which can't be dropped.
    pub system: bool,
}

impl Model for Template {
    ghost use Rattle.asm_group.specs.Group.{Template as GroupTemplate};

    ghost Value = { GroupTemplate };

    ghost view = { λ t. record { name = t.name; copies = t.copies; stripe = t.stripe; system = t.system } };
}

impl Template {
    ghost use Rattle.std.specs.Prelude.{◌≡◌, IfOk};
    ghost use Rattle.asm_formats.specs.Items.{is_template};

    pub fn copy(&self) -> Result<Template, NoMemory>
        ensures { IfOk result (λ copy. copy ≡ self.now) }
    {
        Ok(Template {
            name: self.name.copy()?,
            copies: self.copies,
            stripe: self.stripe,
            system: self.system,
        })
    }

    pub fn name(&self) -> &Name
        ensures { result.now ≡ self.now.name }
    {
        &self.name
    }

    pub fn is_system(&self) -> bool
        ensures { result ≡ self.now.system }
    {
        self.system
    }

    /// Whether a directory may hold it: its name is one of the grammar, and its copies are one, two
    /// or three.
    pub fn is_allowed(&self) -> bool
        ensures { result ≡ is_template self.now }
    {
        self.name.is_name() && 1 <= self.copies && self.copies <= 3
    }
}
