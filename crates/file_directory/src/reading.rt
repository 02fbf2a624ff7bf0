//! The reading of a file's record.

ghost use Rattle.std.specs.Prelude.{◌≡◌, ◌≤◌, length, IfOk, IsTrue};
ghost use Rattle.std.specs.Option.{option_map};
ghost use Rattle.asm_base.specs.Cursors.{Reads};
ghost use Rattle.asm_base.specs.Records.{all_of};
ghost use Rattle.asm_base.specs.Tables.{entry_of_record};
ghost use Rattle.record_values.specs.Values.{file_reading};
ghost use Rattle.file_directory.specs.Files.{file_of_item, is_key_of_file};

use crate::head::FileHead;
use asm_base::{Key, NoMemory, Reader, Value, is_at_end, take_name, take_u32, take_u64};
use byte_codes::take_stripe;
use record_values::{take_copies, take_system};
use std::alloc::Global;

/// The head that the value of a file's record is the spelling of, or None where it isn't that of
/// any.
pub(crate) fn head_in(alloc: Global, key: Key, value: &Value) -> Result<Option<FileHead>, NoMemory>
    requires { IsTrue (is_key_of_file key) }
    ensures { IfOk result (λ read. entry_of_record file_of_item (key, value.now)
        ≡ option_map (λ h. (key.a, h)) read) }
{
    let read = read_bytes(alloc, value.as_bytes())?;
    Ok(read)
}

#[tactic(auto, using(asm_base::proofs::Tables::bytes_are), unfolding(asm_base::specs::Records::all_of))]
fn read_bytes(alloc: Global, bytes: &[u8]) -> Result<Option<FileHead>, NoMemory>
    requires { length bytes.now ≤ 4064 }
    ensures { IfOk result (λ read. read ≡ all_of file_reading bytes.now) }
{
    let mut from = Reader { bytes, at: 0 };
    let Some(head) = take_head(alloc, &mut from)? else {
        return Ok(None);
    };
    if is_at_end(&from) {
        Ok(Some(head))
    } else {
        Ok(None)
    }
}

#[tactic(auto, unfolding(record_values::specs::Values::file_reading))]
fn take_head(alloc: Global, from: &mut Reader) -> Result<Option<FileHead>, NoMemory>
    ensures { IfOk result (λ read. Reads from.new read (file_reading from.old)) }
{
    let Some(copies) = take_copies(from) else {
        return Ok(None);
    };
    let Some(stripe) = take_stripe(from) else {
        return Ok(None);
    };
    let Some(kind) = take_name(alloc, from, 30)? else {
        return Ok(None);
    };
    let Some(size) = take_u64(from) else {
        return Ok(None);
    };
    let Some(incarnation) = take_u64(from) else {
        return Ok(None);
    };
    let Some(system) = take_system(from) else {
        return Ok(None);
    };
    let Some(alias) = take_u32(from) else {
        return Ok(None);
    };
    Ok(Some(FileHead {
        copies,
        stripe,
        kind,
        size,
        incarnation,
        system,
        alias,
    }))
}
