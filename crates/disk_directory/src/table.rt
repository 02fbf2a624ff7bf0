//! The records of disks, as a table.

ghost use Rattle.std.specs.Prelude.{◌≡◌, ◌≤◌, length, IfOk, IsTrue};
ghost use Rattle.std.specs.Option.{option_map};
ghost use Rattle.std.specs.FinMap.{nat_cmp-IsAntisymmetric};
ghost use Rattle.asm_base.specs.Cursors.{Reads};
ghost use Rattle.asm_base.specs.Records.{all_of};
ghost use Rattle.asm_base.specs.Tables.{entry_of_record};
ghost use Rattle.record_values.specs.Values.{disk_reading};
ghost use Rattle.disk_directory.specs.Disks as disks;
ghost use Rattle.disk_directory.specs.Disks.{disk_of_item, is_key_of_disk};
ghost use Rattle.disk_directory.specs.DiskEntries.{disk_entries};

use crate::disk_info::DiskInfo;
use asm_base::{Key, MOST_DISKS, NoMemory, Reader, Value, is_at_end, record_kind, take_u64};
use item_table::{KeyTable, Listed};
use record_values::take_named;
use std::alloc::Global;

/// What the records say of disks, by number. Contracts see the list of them in the order of the
/// numbers.
pub type DiskTable = KeyTable<u32, DiskInfo>;

impl Listed<u32> for DiskInfo {
    ghost item_of = { disks.item_of_disk };

    ghost entry_of = { disks.disk_of_item };

    ghost is_mine = { disks.is_key_of_disk };

    ghost place_of = { λ key. key.a };

    fn is_mine(key: Key) -> bool {
        is_mine(key)
    }

    fn place_of(key: Key) -> u32 {
        key.a
    }

    fn in_record(alloc: Global, key: Key, value: &Value) -> Result<Option<DiskInfo>, NoMemory> {
        info_in(alloc, key, value)
    }

    fn copied(&self, _alloc: Global) -> Result<DiskInfo, NoMemory> {
        self.copy()
    }

    ghost is_entry = { disk_entries.0 };

    ghost are_entries = { disk_entries.1 };

    ghost exact = { nat_cmp-IsAntisymmetric };
}

pub fn is_mine(key: Key) -> bool
    ensures { result ≡ is_key_of_disk key }
{
    key.kind == record_kind::DISKS && key.b == 0 && key.a < MOST_DISKS as u32
}

/// What the value of a disk's record spells, or None where it is no disk's.
fn info_in(alloc: Global, key: Key, value: &Value) -> Result<Option<DiskInfo>, NoMemory>
    requires { IsTrue (is_key_of_disk key) }
    ensures { IfOk result (λ read. entry_of_record disk_of_item (key, value.now)
        ≡ option_map (λ d. (key.a, d)) read) }
{
    let read = read_bytes(alloc, value.as_bytes())?;
    Ok(read)
}

#[tactic(auto, using(asm_base::proofs::Tables::bytes_are), unfolding(asm_base::specs::Records::all_of))]
fn read_bytes(alloc: Global, bytes: &[u8]) -> Result<Option<DiskInfo>, NoMemory>
    requires { length bytes.now ≤ 4064 }
    ensures { IfOk result (λ read. read ≡ all_of disk_reading bytes.now) }
{
    let mut from = Reader { bytes, at: 0 };
    let Some(info) = take_info(alloc, &mut from)? else {
        return Ok(None);
    };
    if is_at_end(&from) {
        Ok(Some(info))
    } else {
        Ok(None)
    }
}

#[tactic(auto, unfolding(record_values::specs::Values::disk_reading))]
fn take_info(alloc: Global, from: &mut Reader) -> Result<Option<DiskInfo>, NoMemory>
    ensures { IfOk result (λ read. Reads from.new read (disk_reading from.old)) }
{
    let Some(birth) = take_u64(from) else {
        return Ok(None);
    };
    let Some(name) = take_named(alloc, from)? else {
        return Ok(None);
    };
    let Some(failgroup) = take_named(alloc, from)? else {
        return Ok(None);
    };
    Ok(Some(DiskInfo {
        birth,
        name,
        failgroup,
    }))
}
