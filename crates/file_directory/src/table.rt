//! The table of files.

ghost use Rattle.std.specs.FinMap.{nat_cmp-IsAntisymmetric};
ghost use Rattle.file_directory.specs.Files as files;
ghost use Rattle.file_directory.specs.Entries.{file_entries};

use crate::head::FileHead;
use crate::reading::head_in;
use crate::writing::record_of;
use asm_base::{Key, NoMemory, Value, record_kind};
use item_table::{KeyTable, Listed, Recorded};
use std::alloc::Global;

/// The heads of files by number. Contracts see the list of the files in the order of their numbers.
pub type FileTable = KeyTable<u32, FileHead>;

impl Listed<u32> for FileHead {
    ghost item_of = { files.item_of_file_head };

    ghost entry_of = { files.file_of_item };

    ghost is_mine = { files.is_key_of_file };

    ghost place_of = { λ key. key.a };

    fn is_mine(key: Key) -> bool {
        key.kind == record_kind::FILES && key.b == 0
    }

    fn place_of(key: Key) -> u32 {
        key.a
    }

    fn in_record(alloc: Global, key: Key, value: &Value) -> Result<Option<FileHead>, NoMemory> {
        head_in(alloc, key, value)
    }

    fn copied(&self, _alloc: Global) -> Result<FileHead, NoMemory> {
        self.copy()
    }

    ghost is_entry = { file_entries.0 };

    ghost are_entries = { file_entries.1 };

    ghost exact = { nat_cmp-IsAntisymmetric };
}

impl Recorded<u32> for FileHead {
    fn to_record(&self, alloc: Global, key: u32) -> Result<(Key, Value), NoMemory> {
        record_of(alloc, key, self)
    }
}
