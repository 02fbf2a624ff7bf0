//! The records of the settings and of the templates.

ghost use Rattle.std.specs.Prelude.{◌≡◌, IfOk, true};
ghost use Rattle.asm_formats.specs.Items.{is_item, settings_item, templates_item};
ghost use Rattle.asm_base.specs.Tables.{item_record};
ghost use Rattle.plan_records.specs.NextSettings.{settings_next};

use asm_base::{Key, NoMemory, SETTINGS_KEY, TEMPLATES_KEY, Value};
use attribute_values::{Settings, Template, settings_value, templates_value};
use std::alloc::Global;

/// The settings with the incarnation after the next.
pub fn settings_next(settings: &Settings) -> Result<Settings, NoMemory>
    ensures { IfOk result (λ next. next ≡ settings_next settings.now) }
{
    let mut next = settings.copy()?;
    next.incarnation = next.incarnation.saturating_add(1);
    Ok(next)
}

/// The record of the settings.
pub fn settings_record(alloc: Global, settings: &Settings) -> Result<(Key, Value), NoMemory>
    requires { is_item (settings_item settings.now) ≡ true }
    ensures { IfOk result (λ made. made ≡ item_record (settings_item settings.now)) }
{
    let value = settings_value(alloc, settings)?;
    Ok((SETTINGS_KEY, value))
}

/// The record of the templates.
pub fn templates_record(alloc: Global, templates: &[Template]) -> Result<(Key, Value), NoMemory>
    requires { is_item (templates_item templates.now) ≡ true }
    ensures { IfOk result (λ made. made ≡ item_record (templates_item templates.now)) }
{
    let value = templates_value(alloc, templates)?;
    Ok((TEMPLATES_KEY, value))
}
