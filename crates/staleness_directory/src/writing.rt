//! The record of a chunk's marks.

ghost use Rattle.std.specs.Prelude.{◌≡◌, IfOk};
ghost use Rattle.staleness_directory.specs.Marks.{record_of_marks};

use crate::marks::Marks;
use asm_base::{Key, NoMemory, Value, record_kind};
use std::alloc::Global;

/// The record of a chunk's marks, by file and chunk.
#[tactic(auto, unfolding(asm_formats::specs::Values::value))]
pub fn marks_record(alloc: Global, at: (u32, u32), marks: &Marks) -> Result<(Key, Value), NoMemory>
    ensures { IfOk result (λ made. made ≡ record_of_marks (at, marks.now)) }
{
    let value = Value::from_slice(alloc, &marks.bits)?;
    Ok((
        Key {
            kind: record_kind::MARKS,
            a: at.0,
            b: at.1,
        },
        value,
    ))
}
