//! The settings of a group.

ghost use Rattle.std.specs.Prelude.{◌≡◌, ◌&&◌};
ghost use Rattle.asm_formats.specs.Items.{is_item, is_text, settings_item};

use asm_base::{NoMemory, Text};
use std::marker::Model;

/// The next incarnation of a file, and the attributes that may be set at any time. Contracts see it
/// as the settings of the formats.
#[derive(Debug, Drop)]
pub struct Settings {
    /// The incarnation that the next new file gets.
    pub incarnation: u64,
    /// After how many seconds an offline disk is dropped.
    pub repair: u64,
    /// The text of compatible.asm, empty where it wasn't given.
    pub asm: Text,
    /// The text of compatible.rdbms, empty where it wasn't given.
    pub rdbms: Text,
    /// The text of compatible.advm, empty where it wasn't given.
    pub advm: Text,
}

impl Model for Settings {
    ghost use Rattle.asm_formats.specs.Items.{Settings as FormatSettings};

    ghost Value = { FormatSettings };

    ghost view = { λ s. record { incarnation = s.incarnation; attributes = record { repair = s.repair; asm = s.asm; rdbms = s.rdbms; advm = s.advm } } };
}

impl Settings {
    ghost use Rattle.std.specs.Prelude.{◌≡◌, IfOk};
    ghost use Rattle.asm_formats.specs.Items.{is_item, settings_item};
    ghost use Rattle.asm_group.specs.NewGroup.{usual_attributes};

    /// The settings of a new group: the first incarnation, 3.6 hours, and no compatibility.
    pub fn usual(alloc: std::alloc::Global) -> Settings
        ensures { result ≡ record { incarnation = 1; attributes = usual_attributes } }
    {
        Settings {
            incarnation: 1,
            repair: 12_960,
            asm: Text::new(alloc),
            rdbms: Text::new(alloc),
            advm: Text::new(alloc),
        }
    }

    pub fn copy(&self) -> Result<Settings, NoMemory>
        ensures { IfOk result (λ copy. copy ≡ self.now) }
    {
        Ok(Settings {
            incarnation: self.incarnation,
            repair: self.repair,
            asm: self.asm.copy()?,
            rdbms: self.rdbms.copy()?,
            advm: self.advm.copy()?,
        })
    }

    /// Whether a directory may hold them: each text has at most 30 bytes.
    pub fn is_allowed(&self) -> bool
        ensures { result ≡ is_item (settings_item self.now) }
    {
        // Reading a number shows that it is one of its type.
        let _incarnation = self.incarnation;
        let _repair = self.repair;
        have_texts(self)
    }
}

fn have_texts(settings: &Settings) -> bool
    ensures { result ≡ (is_text settings.now.attributes.asm
        && (is_text settings.now.attributes.rdbms && is_text settings.now.attributes.advm)) }
{
    is_text(settings.asm.as_slice())
        && is_text(settings.rdbms.as_slice())
        && is_text(settings.advm.as_slice())
}

#[tactic(auto, using(asm_base::proofs::Tables::bytes_are))]
fn is_text(text: &[u8]) -> bool
    ensures { result ≡ is_text text.now }
{
    text.len() <= 30
}
