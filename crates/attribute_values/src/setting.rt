//! The settings of a group with another value of an attribute.

ghost use Rattle.std.specs.Prelude.{◌≡◌, IfOk, IfSome, true, if◌then◌else◌, Some, None};
ghost use Rattle.std.specs.Option.{option_map};
ghost use Rattle.asm_group.specs.Names.{is_same_name};
ghost use Rattle.template_directory.specs.asm_formats.Items.{is_item, settings_item};
ghost use Rattle.asm_grammar.specs.Word.{when};
ghost use Rattle.asm_world.specs.Settings.{is_version, repair_seconds};
ghost use Rattle.attribute_values.specs.Edits.{settings_with};

use crate::repair::repair_seconds;
use crate::version::is_version;
use std::alloc::Global;
use template_directory::{NoMemory, Settings, Text, folded_byte};

/// The settings in which an attribute that may be set at any time has this value. None where no
/// such attribute has the name, or it can't have the value.
#[tactic(auto, using(crate::proofs::SettingLaws::is_repair, crate::proofs::SettingLaws::is_asm, crate::proofs::SettingLaws::is_rdbms, crate::proofs::SettingLaws::is_advm, crate::proofs::SettingLaws::is_none))]
pub fn with_attribute(
    alloc: Global,
    settings: &Settings,
    name: &[u8],
    value: &[u8],
) -> Result<Option<Settings>, NoMemory>
    requires { is_item (settings_item settings.now) ≡ true }
    ensures edited { IfOk result (λ new. new ≡ settings_with settings.now name.now value.now) }
    ensures allowed { IfOk result (λ new. IfSome new (λ s. is_item (settings_item s) ≡ true)) }
{
    if is_same(name, b"disk_repair_time") {
        return with_repair(settings, value);
    }
    if is_same(name, b"compatible.asm") {
        return with_asm(alloc, settings, value);
    }
    if is_same(name, b"compatible.rdbms") {
        return with_rdbms(alloc, settings, value);
    }
    if is_same(name, b"compatible.advm") {
        return with_advm(alloc, settings, value);
    }
    Ok(None)
}

/// Whether both are one name, without regard to the case of letters.
#[tactic(auto, using(crate::proofs::SettingLaws::other_length))]
pub(crate) fn is_same(name: &[u8], other: &[u8]) -> bool
    ensures { result ≡ is_same_name name.now other.now }
{
    if name.len() != other.len() {
        return false;
    }
    for (i, b) in name.iter().enumerate() {
        if folded_byte(*b) != folded_byte(other[i]) {
            return false;
        }
    }
    true
}

fn with_repair(settings: &Settings, value: &[u8]) -> Result<Option<Settings>, NoMemory>
    requires { is_item (settings_item settings.now) ≡ true }
    ensures edited { IfOk result (λ new. new ≡ option_map
        (λ n. record settings.now { attributes = record settings.now.attributes { repair = n } })
        (repair_seconds value.now)) }
    ensures allowed { IfOk result (λ new. IfSome new (λ s. is_item (settings_item s) ≡ true)) }
{
    let Some(repair) = repair_seconds(value) else {
        return Ok(None);
    };
    Ok(Some(Settings {
        incarnation: settings.incarnation,
        repair,
        asm: settings.asm.copy()?,
        rdbms: settings.rdbms.copy()?,
        advm: settings.advm.copy()?,
    }))
}

fn with_asm(alloc: Global, settings: &Settings, value: &[u8]) -> Result<Option<Settings>, NoMemory>
    requires { is_item (settings_item settings.now) ≡ true }
    ensures edited { IfOk result (λ new. new ≡ option_map
        (λ v. record settings.now { attributes = record settings.now.attributes { asm = v } })
        (when (is_version value.now) value.now)) }
    ensures allowed { IfOk result (λ new. IfSome new (λ s. is_item (settings_item s) ≡ true)) }
{
    if !is_version(value) {
        return Ok(None);
    }
    Ok(Some(Settings {
        incarnation: settings.incarnation,
        repair: settings.repair,
        asm: Text::from_slice(alloc, value)?,
        rdbms: settings.rdbms.copy()?,
        advm: settings.advm.copy()?,
    }))
}

fn with_rdbms(
    alloc: Global,
    settings: &Settings,
    value: &[u8],
) -> Result<Option<Settings>, NoMemory>
    requires { is_item (settings_item settings.now) ≡ true }
    ensures edited { IfOk result (λ new. new ≡ option_map
        (λ v. record settings.now { attributes = record settings.now.attributes { rdbms = v } })
        (when (is_version value.now) value.now)) }
    ensures allowed { IfOk result (λ new. IfSome new (λ s. is_item (settings_item s) ≡ true)) }
{
    if !is_version(value) {
        return Ok(None);
    }
    Ok(Some(Settings {
        incarnation: settings.incarnation,
        repair: settings.repair,
        asm: settings.asm.copy()?,
        rdbms: Text::from_slice(alloc, value)?,
        advm: settings.advm.copy()?,
    }))
}

fn with_advm(alloc: Global, settings: &Settings, value: &[u8]) -> Result<Option<Settings>, NoMemory>
    requires { is_item (settings_item settings.now) ≡ true }
    ensures edited { IfOk result (λ new. new ≡ option_map
        (λ v. record settings.now { attributes = record settings.now.attributes { advm = v } })
        (when (is_version value.now) value.now)) }
    ensures allowed { IfOk result (λ new. IfSome new (λ s. is_item (settings_item s) ≡ true)) }
{
    if !is_version(value) {
        return Ok(None);
    }
    Ok(Some(Settings {
        incarnation: settings.incarnation,
        repair: settings.repair,
        asm: settings.asm.copy()?,
        rdbms: settings.rdbms.copy()?,
        advm: Text::from_slice(alloc, value)?,
    }))
}
