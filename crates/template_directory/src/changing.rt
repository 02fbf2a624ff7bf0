//! Changes of the table of templates and settings, record by record.

ghost use Rattle.std.specs.Prelude.{◌≡◌, IfOk, None, OnErr, Some, if◌then◌else◌};
ghost use Rattle.std.specs.Bool.{OnFalse, OnTrue};
ghost use Rattle.asm_formats.specs.Items.{Key as FormatKey, is_same_key};
ghost use Rattle.asm_base.specs.Tables.{entry_of_record};
ghost use Rattle.template_directory.specs.Changing.{template_value_at};
ghost use Rattle.template_directory.specs.Tables.{settings_said, templates_said};

use crate::reading::{settings_in, templates_in};
use crate::table::TemplateTable;
use asm_base::{Key, NoMemory, Value};
use std::alloc::Global;

impl TemplateTable {
    /// Takes up the templates or the settings that a record says. `false` where it says neither.
    /// Where that is so, or there is no memory, the table stays.
    #[tactic(auto, using(crate::proofs::ReadingLaws::said_templates_allowed, crate::proofs::ReadingLaws::said_settings_allowed, crate::proofs::ChangeLaws::templates_put, crate::proofs::ChangeLaws::settings_put))]
    pub fn put_record(&mut self, alloc: Global, key: Key, value: &Value) -> Result<bool, NoMemory>
        ensures put { IfOk result (λ put. OnTrue put
            ((k : FormatKey) → template_value_at self.new k
            ≡ (if is_same_key key k then Some value.now else template_value_at self.old k))) }
        ensures no_templates { IfOk result (λ put. OnFalse put
            (entry_of_record templates_said (key, value.now) ≡ None)) }
        ensures no_settings { IfOk result (λ put. OnFalse put
            (entry_of_record settings_said (key, value.now) ≡ None)) }
        ensures stays { IfOk result (λ put. OnFalse put (self.new ≡ self.old)) }
        ensures err { OnErr result (self.new ≡ self.old) }
    {
        if let Some(templates) = templates_in(alloc, key, value)? {
            self.set_templates(templates);
            return Ok(true);
        }
        let Some(settings) = settings_in(alloc, key, value)? else {
            return Ok(false);
        };
        self.set_settings(settings);
        Ok(true)
    }
}
