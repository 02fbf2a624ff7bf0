//! The reading of the records of templates and of settings.

ghost use Rattle.std.specs.Prelude.{◌≡◌, ◌≤◌, length, IfOk};
ghost use Rattle.std.specs.List.{list_all};
ghost use Rattle.asm_group.specs.Names.{folded};
ghost use Rattle.asm_formats.specs.Items.{is_item, is_same_key, is_template, names_ascend, precedes, templates_item};
ghost use Rattle.asm_base.specs.Cursors.{Reads};
ghost use Rattle.asm_base.specs.Readings.{repeated};
ghost use Rattle.asm_base.specs.Records.{all_of};
ghost use Rattle.asm_base.specs.Tables.{entry_of_record};
ghost use Rattle.template_directory.specs.Tables.{templates_said, settings_said};
ghost use Rattle.template_directory.specs.Readings.{are_right};
ghost use Rattle.record_values.specs.Values.{template_reading, templates_reading, settings_reading};

use crate::settings::Settings;
use crate::template::Template;
use asm_base::{
    Key, List, NoMemory, Reader, Value, is_at_end, record_kind, take_flag, take_text, take_u8,
    take_u64,
};
use byte_codes::take_stripe;
use record_values::{take_copies, take_named};
use std::alloc::Global;

/// Templates in a group, at most.
pub(crate) const MOST_TEMPLATES: usize = 64;

/// The templates that a record says, or None where it isn't that of templates, or isn't of the
/// format.
#[tactic(auto, using(crate::proofs::ReadingLaws::templates_are_said, crate::proofs::ReadingLaws::no_templates))]
pub(crate) fn templates_in(
    alloc: Global,
    key: Key,
    value: &Value,
) -> Result<Option<List<Template>>, NoMemory>
    ensures { IfOk result (λ read. read ≡ entry_of_record templates_said (key, value.now)) }
{
    if !is_only(key, record_kind::TEMPLATES) {
        return Ok(None);
    }
    let read = read_templates(alloc, value.as_bytes())?;
    Ok(read)
}

/// The settings that a record says, or None where it isn't that of settings, or isn't of the
/// format.
#[tactic(auto, using(crate::proofs::ReadingLaws::settings_are_said, crate::proofs::ReadingLaws::no_settings))]
pub(crate) fn settings_in(
    alloc: Global,
    key: Key,
    value: &Value,
) -> Result<Option<Settings>, NoMemory>
    ensures { IfOk result (λ read. read ≡ entry_of_record settings_said (key, value.now)) }
{
    if !is_only(key, record_kind::SETTINGS) {
        return Ok(None);
    }
    let read = read_settings(alloc, value.as_bytes())?;
    Ok(read)
}

/// Whether a key is that of the one record of a kind.
fn is_only(key: Key, kind: u16) -> bool
    ensures { result ≡ is_same_key key (record { kind = kind; a = 0; b = 0 }) }
{
    key.kind == kind && key.a == 0 && key.b == 0
}

#[tactic(auto, using(asm_base::proofs::Tables::bytes_are), unfolding(asm_base::specs::Records::all_of))]
fn read_templates(alloc: Global, bytes: &[u8]) -> Result<Option<List<Template>>, NoMemory>
    requires { length bytes.now ≤ 4064 }
    ensures { IfOk result (λ read. read ≡ all_of templates_reading bytes.now) }
{
    let mut from = Reader { bytes, at: 0 };
    let Some(templates) = take_templates(alloc, &mut from)? else {
        return Ok(None);
    };
    if is_at_end(&from) {
        Ok(Some(templates))
    } else {
        Ok(None)
    }
}

#[tactic(auto, using(asm_base::proofs::Tables::bytes_are), unfolding(asm_base::specs::Records::all_of))]
fn read_settings(alloc: Global, bytes: &[u8]) -> Result<Option<Settings>, NoMemory>
    requires { length bytes.now ≤ 4064 }
    ensures { IfOk result (λ read. read ≡ all_of settings_reading bytes.now) }
{
    let mut from = Reader { bytes, at: 0 };
    let Some(settings) = take_settings(alloc, &mut from)? else {
        return Ok(None);
    };
    if is_at_end(&from) {
        Ok(Some(settings))
    } else {
        Ok(None)
    }
}

/// Whether a directory may hold these templates: at most 64, each allowed, by folded name.
#[tactic(auto, unfolding(asm_formats::specs::Items::is_item, crate::specs::Readings::are_right))]
pub fn are_allowed(templates: &[Template]) -> bool
    ensures { result ≡ is_item (templates_item templates.now) }
{
    templates.len() <= MOST_TEMPLATES && are_right(templates)
}

/// Whether each is a template, and they stand by folded name.
#[tactic(auto, unfolding(crate::specs::Readings::are_right))]
fn are_right(templates: &[Template]) -> bool
    ensures { result ≡ are_right templates.now }
{
    are_templates(templates) && names_ascend(templates)
}

fn are_templates(templates: &[Template]) -> bool
    ensures { result ≡ list_all is_template templates.now }
{
    templates.iter().all(|template| template.is_allowed())
}

fn names_ascend(templates: &[Template]) -> bool
    ensures { result ≡ names_ascend templates.now }
{
    match templates {
        [] => true,
        [first, others @ ..] => {
            let Some(second) = others.first() else {
                return true;
            };
            is_before(first, second) && names_ascend(others)
        }
    }
}

#[tactic(auto, using(crate::proofs::Orders::before_is_less))]
fn is_before(first: &Template, second: &Template) -> bool
    ensures { result ≡ precedes (folded first.now.name) (folded second.now.name) }
{
    first.name.folded_cmp(&second.name).is_lt()
}

#[tactic(auto, unfolding(record_values::specs::Values::templates_reading))]
fn take_templates(alloc: Global, from: &mut Reader) -> Result<Option<List<Template>>, NoMemory>
    ensures { IfOk result (λ read. Reads from.new read (templates_reading from.old)) }
{
    let Some(count) = take_u8(from) else {
        return Ok(None);
    };
    if count as usize > MOST_TEMPLATES {
        return Ok(None);
    }
    let Some(templates) = take_counted(alloc, from, count)? else {
        return Ok(None);
    };
    if names_ascend(templates.as_slice()) {
        Ok(Some(templates))
    } else {
        Ok(None)
    }
}

#[tactic(auto, using(asm_base::proofs::Loops::goes_on, asm_base::proofs::Loops::fails, asm_base::proofs::Loops::is_done, asm_base::proofs::Loops::starts))]
fn take_counted(
    alloc: Global,
    from: &mut Reader,
    count: u8,
) -> Result<Option<List<Template>>, NoMemory>
    ensures { IfOk result (λ read. Reads from.new read (repeated count template_reading from.old)) }
{
    let mut templates = List::new(alloc);
    for _ in 0..count {
        let Some(template) = take_template(alloc, from)? else {
            return Ok(None);
        };
        templates.push(template)?;
    }
    Ok(Some(templates))
}

#[tactic(auto, unfolding(record_values::specs::Values::template_reading))]
fn take_template(alloc: Global, from: &mut Reader) -> Result<Option<Template>, NoMemory>
    ensures { IfOk result (λ read. Reads from.new read (template_reading from.old)) }
{
    let Some(name) = take_named(alloc, from)? else {
        return Ok(None);
    };
    let Some(copies) = take_copies(from) else {
        return Ok(None);
    };
    let Some(stripe) = take_stripe(from) else {
        return Ok(None);
    };
    let Some(system) = take_flag(from) else {
        return Ok(None);
    };
    Ok(Some(Template {
        name,
        copies,
        stripe,
        system,
    }))
}

#[tactic(auto, unfolding(record_values::specs::Values::settings_reading))]
fn take_settings(alloc: Global, from: &mut Reader) -> Result<Option<Settings>, NoMemory>
    ensures { IfOk result (λ read. Reads from.new read (settings_reading from.old)) }
{
    let Some(incarnation) = take_u64(from) else {
        return Ok(None);
    };
    let Some(repair) = take_u64(from) else {
        return Ok(None);
    };
    let Some(asm) = take_text(alloc, from, 30)? else {
        return Ok(None);
    };
    let Some(rdbms) = take_text(alloc, from, 30)? else {
        return Ok(None);
    };
    let Some(advm) = take_text(alloc, from, 30)? else {
        return Ok(None);
    };
    Ok(Some(Settings {
        incarnation,
        repair,
        asm,
        rdbms,
        advm,
    }))
}
