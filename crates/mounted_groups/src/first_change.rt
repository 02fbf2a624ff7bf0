// The first records of a new group's directory: its disk, the system templates and the settings.
ghost use Rattle.std.specs.Prelude.{◌≡◌, [], IfOk, IsTrue};
ghost use Rattle.asm_group.specs.Names.{is_name};
ghost use Rattle.asm_formats.specs.Items.{disk_item};
ghost use Rattle.asm_formats.specs.Values.{value};
ghost use Rattle.mounted_groups.specs.Planned.{IsGroupPlan, first_entries};
ghost use Rattle.asm_images.specs.Created.{first_templates, first_settings};

use crate::new_group::NewGroup;
use asm_base::{
    Block, Change, GroupKind, Key, List, Name, NoMemory, SETTINGS_KEY, TEMPLATES_KEY, Value,
    Writer, put_name, put_u64, record_kind,
};
use group_recovery::{Settings, settings_value, system, templates_value};
use std::alloc::Global;

/// The record of disk 0.
const DISK: Key = Key {
    kind: record_kind::DISKS,
    a: 0,
    b: 0,
};

/// The first records of a group.
pub fn first_change(alloc: Global, group: &NewGroup) -> Result<Change, NoMemory>
    requires { IsGroupPlan group.now }
    ensures put { IfOk result (λ change. change.put ≡ first_entries group.now) }
    ensures gone { IfOk result (λ change. change.gone ≡ []) }
{
    let disk = disk_value(alloc, &group.disk)?;
    let templates = first_templates(alloc)?;
    let settings = first_settings(alloc)?;
    let mut put = Vec::new(alloc);
    put.push((DISK, disk)).map_err(|_| NoMemory)?;
    put.push((TEMPLATES_KEY, templates)).map_err(|_| NoMemory)?;
    put.push((SETTINGS_KEY, settings)).map_err(|_| NoMemory)?;
    Ok(Change {
        put: List::from_vec(put),
        gone: List::new(alloc),
    })
}

/// The disk has birth 1, and is in a failure group of its own.
#[tactic(auto, unfolding(asm_formats::specs::Values::value))]
fn disk_value(alloc: Global, disk: &Name) -> Result<Value, NoMemory>
    requires { IsTrue (is_name disk.now) }
    ensures { IfOk result (λ v. v ≡ value
        (disk_item 0 (record { birth = 1; name = disk.now; failgroup = disk.now }))) }
{
    let mut block = Block::zeros();
    let mut to = Writer {
        block: &mut block,
        at: 0,
    };
    put_u64(&mut to, 1);
    put_name(&mut to, disk, 30);
    put_name(&mut to, disk, 30);
    Value::from_writer(alloc, &to)
}

fn first_templates(alloc: Global) -> Result<Value, NoMemory>
    ensures { IfOk result (λ v. v ≡ value first_templates) }
{
    let templates = system(alloc, GroupKind::External)?;
    templates_value(alloc, templates.as_slice())
}

fn first_settings(alloc: Global) -> Result<Value, NoMemory>
    ensures { IfOk result (λ v. v ≡ value first_settings) }
{
    let settings = Settings::usual(alloc);
    settings_value(alloc, &settings)
}
