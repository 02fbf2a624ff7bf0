//! The table of stale marks.

ghost use Rattle.asm_base.proofs.Chunks.{same_chunk};
ghost use Rattle.staleness_directory.specs.Marks as marks;
ghost use Rattle.staleness_directory.specs.MarkEntries.{marks_entries};

use crate::marks::Marks;
use crate::reading::marks_in;
use crate::writing::marks_record;
use asm_base::{Key, NoMemory, Value, record_kind};
use item_table::{KeyTable, Listed, Recorded};
use std::alloc::Global;

/// The stale marks of each chunk, by file and chunk. Contracts see the list of them in this order.
pub type StaleTable = KeyTable<(u32, u32), Marks>;

impl Listed<(u32, u32)> for Marks {
    ghost item_of = { marks.item_of_marks };

    ghost entry_of = { marks.marks_of_item };

    ghost is_mine = { marks.is_marks };

    ghost place_of = { λ key. (key.a, key.b) };

    fn is_mine(key: Key) -> bool {
        key.kind == record_kind::MARKS
    }

    fn place_of(key: Key) -> (u32, u32) {
        (key.a, key.b)
    }

    fn in_record(_alloc: Global, key: Key, value: &Value) -> Result<Option<Marks>, NoMemory> {
        Ok(marks_in(key, value))
    }

    fn copied(&self, _alloc: Global) -> Result<Marks, NoMemory> {
        Ok(*self)
    }

    ghost is_entry = { marks_entries.0 };

    ghost are_entries = { marks_entries.1 };

    ghost exact = { same_chunk };
}

impl Recorded<(u32, u32)> for Marks {
    fn to_record(&self, alloc: Global, key: (u32, u32)) -> Result<(Key, Value), NoMemory> {
        marks_record(alloc, key, self)
    }
}
