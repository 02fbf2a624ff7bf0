//! The values of the records of templates and of settings.

ghost use Rattle.std.specs.Prelude.{◌≡◌, ◌≤◌, ◌+◌, ◌*◌, ◌∷◌, length, flat_map, IfOk, IsTrue, true};
ghost use Rattle.asm_formats.specs.Items.{is_item, is_template, templates_item, settings_item};
ghost use Rattle.asm_formats.specs.Values.{value, template_fields, settings_value};
ghost use Rattle.asm_base.specs.Cursors.{PutsField};
ghost use Rattle.std.specs.List.{list_all};

use crate::settings::Settings;
use crate::template::Template;
use asm_base::{Block, NoMemory, Value, Writer, put_flag, put_name, put_text, put_u8, put_u64};
use byte_codes::put_stripe;
use std::alloc::Global;

/// The value of the record of some templates, of which there are at most 64, by folded name.
#[tactic(auto, unfolding(asm_formats::specs::Values::value, asm_formats::specs::Items::is_item))]
pub fn templates_value(alloc: Global, templates: &[Template]) -> Result<Value, NoMemory>
    requires { IsTrue (is_item (templates_item templates.now)) }
    ensures { IfOk result (λ v. v ≡ value (templates_item templates.now)) }
{
    let mut block = Block::zeros();
    let mut to = Writer {
        block: &mut block,
        at: 0,
    };
    put_templates(&mut to, templates);
    Value::from_writer(alloc, &to)
}

/// The value of the record of the settings.
#[tactic(auto, unfolding(asm_formats::specs::Values::value, asm_formats::specs::Items::is_item))]
pub fn settings_value(alloc: Global, settings: &Settings) -> Result<Value, NoMemory>
    requires { IsTrue (is_item (settings_item settings.now)) }
    ensures { IfOk result (λ v. v ≡ value (settings_item settings.now)) }
{
    let mut block = Block::zeros();
    let mut to = Writer {
        block: &mut block,
        at: 0,
    };
    put_settings(&mut to, settings);
    Value::from_writer(alloc, &to)
}

/// The number of templates, and each template.
fn put_templates(to: &mut Writer, templates: &[Template])
    requires few { length templates.now ≤ 64 }
    requires all { IsTrue (list_all is_template templates.now) }
    requires room { to.old.at + 1 + 34 * length templates.now ≤ 4096 }
    ensures puts { PutsField to.old to.new (length templates.now
        ∷ flat_map template_fields templates.now) }
    ensures at { to.new.at ≡ to.old.at + 1 + 34 * length templates.now }
{
    put_u8(to, templates.len() as u8);
    for template in templates {
        put_template(to, template);
    }
}

fn put_template(to: &mut Writer, template: &Template)
    requires right { IsTrue (is_template template.now) }
    requires room { to.old.at + 34 ≤ 4096 }
    ensures puts { PutsField to.old to.new (template_fields template.now) }
    ensures at { to.new.at ≡ to.old.at + 34 }
{
    put_name(to, &template.name, 30);
    put_u8(to, template.copies);
    put_stripe(to, template.stripe);
    put_flag(to, template.system);
}

fn put_settings(to: &mut Writer, settings: &Settings)
    requires start { to.old.at ≡ 0 }
    requires asm { length settings.now.attributes.asm ≤ 30 }
    requires rdbms { length settings.now.attributes.rdbms ≤ 30 }
    requires advm { length settings.now.attributes.advm ≤ 30 }
    ensures puts { PutsField to.old to.new (settings_value settings.now) }
    ensures at { to.new.at ≡ 109 }
{
    put_u64(to, settings.incarnation);
    put_u64(to, settings.repair);
    put_text(to, settings.asm.as_slice(), 30);
    put_text(to, settings.rdbms.as_slice(), 30);
    put_text(to, settings.advm.as_slice(), 30);
}
