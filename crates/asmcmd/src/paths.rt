//! The texts of paths in groups.

ghost use Rattle.std.specs.List.{flat_map};
ghost use Rattle.std.specs.Prelude.{◌≡◌, ◌++◌, ◌∷◌, IfOk};
ghost use Rattle.asm_base.specs.Names.{path_text_in_group};

use crate::text::{with_byte, with_bytes};
use asm_base::{List, Name, NoMemory, Text};
use std::alloc::Global;

/// The text with the parts of a path behind it, each after a slash.
fn with_parts(mut text: Vec<u8>, parts: &[Name]) -> Result<Vec<u8>, NoMemory>
    ensures { IfOk result (λ longer. longer.items
        ≡ text.items ++ flat_map (λ part. 47 ∷ part) parts.now) }
{
    for part in parts {
        text = with_bytes(with_byte(text, b'/')?, part.as_bytes())?;
    }
    Ok(text)
}

/// The text with that of a path behind it.
fn with_path(text: Vec<u8>, group: &Name, parts: &[Name]) -> Result<Vec<u8>, NoMemory>
    ensures { IfOk result (λ longer. longer.items
        ≡ text.items ++ path_text_in_group group.now parts.now) }
{
    let text = with_bytes(with_byte(text, b'+')?, group.as_bytes())?;
    with_parts(text, parts)
}

/// The text of the path with these parts in a group: `+`, the group's name, and each part after a
/// slash.
pub fn path_text(alloc: Global, group: &Name, parts: &[Name]) -> Result<Text, NoMemory>
    ensures { IfOk result (λ text. text ≡ path_text_in_group group.now parts.now) }
{
    let text = with_path(Vec::new(alloc), group, parts)?;
    Ok(List::from_vec(text))
}
