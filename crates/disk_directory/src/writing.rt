//! The record of a disk.

ghost use Rattle.std.specs.Prelude.{◌≡◌, IfOk, IsTrue, true};
ghost use Rattle.asm_formats.specs.asm_group.Names.{is_name};
ghost use Rattle.asm_formats.specs.Items.{disk_item, disks_kind, is_item};
ghost use Rattle.asm_formats.specs.Values.{value};
ghost use Rattle.asm_base.specs.Tables.{item_record};

use crate::disk_info::DiskInfo;
use asm_base::{Block, Key, Name, NoMemory, Value, Writer, put_name, put_u64, record_kind};
use std::alloc::Global;

/// The key of a disk's record.
pub fn disk_key(number: u8) -> Key
    ensures { result ≡ record { kind = disks_kind; a = number; b = 0 } }
{
    Key {
        kind: record_kind::DISKS,
        a: number as u32,
        b: 0,
    }
}

/// The record of a disk: its key and its value. A directory may hold it.
pub fn disk_record(alloc: Global, number: u8, info: &DiskInfo) -> Result<(Key, Value), NoMemory>
    requires { is_item (disk_item number info.now) ≡ true }
    ensures { IfOk result (λ made. made ≡ item_record (disk_item number info.now)) }
{
    let value = disk_value(alloc, number, info.birth, &info.name, &info.failgroup)?;
    Ok((disk_key(number), value))
}

#[tactic(auto, unfolding(asm_formats::specs::Values::value))]
fn disk_value(
    alloc: Global,
    number: u8,
    birth: u64,
    name: &Name,
    failgroup: &Name,
) -> Result<Value, NoMemory>
    requires name { IsTrue (is_name name.now) }
    requires failgroup { IsTrue (is_name failgroup.now) }
    ensures { IfOk result (λ v. v ≡ value
        (disk_item number (record { birth = birth; name = name.now; failgroup = failgroup.now }))) }
{
    let mut block = Block::zeros();
    let mut to = Writer {
        block: &mut block,
        at: 0,
    };
    put_u64(&mut to, birth);
    put_name(&mut to, name, 30);
    put_name(&mut to, failgroup, 30);
    Value::from_writer(alloc, &to)
}
