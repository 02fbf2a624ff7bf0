//! The marks that a record says.

ghost use Rattle.std.specs.Prelude.{◌≡◌, IsTrue};
ghost use Rattle.std.specs.Option.{option_map};
ghost use Rattle.asm_base.specs.Tables.{entry_of_record};
ghost use Rattle.staleness_directory.specs.Marks.{is_marks, marks_of_item, read_marks};

use crate::marks::{Marks, are_marks};
use asm_base::{Key, Value};

/// The marks that the value of a record spells, or None where it spells none.
pub(crate) fn marks_in(key: Key, value: &Value) -> Option<Marks>
    requires { IsTrue (is_marks key) }
    ensures { entry_of_record marks_of_item (key, value.now)
        ≡ option_map (λ marks. ((key.a, key.b), marks)) result }
{
    read_marks(key.b, value.as_bytes())
}

#[tactic(auto, unfolding(crate::specs::Marks::read_marks))]
fn read_marks(chunk: u32, bytes: &[u8]) -> Option<Marks>
    ensures { result ≡ read_marks chunk bytes.now }
{
    if chunk == u32::MAX || bytes.len() != 256 || !are_marks(bytes) {
        return None;
    }
    let mut bits = [0; 256];
    bits.copy_from_slice(bytes);
    Some(Marks { bits })
}
