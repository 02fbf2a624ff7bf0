//! The statements that create the disks and the group.

ghost use Rattle.std.specs.List.{flat_map};
ghost use Rattle.std.specs.Prelude.{◌≡◌, ◌++◌, ◌∷◌, [], map, IfOk};
ghost use Rattle.asm_world.specs.Generator.{create_group, create_image, quoted, with_commas};
ghost use Rattle.generated_script.specs.Statements.{create_group_line, image_line};
ghost use Rattle.asm_world.specs.Text.{ended};

use asm_base::{NoMemory, Text};
use std::alloc::Global;

fn with(mut text: Vec<u8>, bytes: &[u8]) -> Result<Vec<u8>, NoMemory>
    ensures { IfOk result (λ longer. longer.items ≡ text.items ++ bytes.now) }
{
    text.extend_from_slice(bytes).map_err(|_| NoMemory)?;
    Ok(text)
}

fn with_quoted(text: Vec<u8>, path: &[u8]) -> Result<Vec<u8>, NoMemory>
    ensures { IfOk result (λ longer. longer.items ≡ text.items ++ quoted path.now) }
{
    with(with(with(text, b"'")?, path)?, b"'")
}

fn with_image(text: Vec<u8>, path: &[u8]) -> Result<Vec<u8>, NoMemory>
    ensures { IfOk result (λ longer. longer.items ≡ text.items ++ image_line path.now) }
{
    let text = with(text, b"CREATE DISK ")?;
    with(with_quoted(text, path)?, b" SIZE 64M;\n")
}

fn with_images(mut text: Vec<u8>, paths: &[Text]) -> Result<Vec<u8>, NoMemory>
    ensures { IfOk result (λ longer. longer.items ≡ text.items ++ flat_map image_line paths.now) }
{
    for path in paths {
        text = with_image(text, path.as_slice())?;
    }
    Ok(text)
}

fn with_later_path(text: Vec<u8>, path: &[u8]) -> Result<Vec<u8>, NoMemory>
    ensures { IfOk result (λ longer. longer.items ≡ text.items ++ 44 ∷ 32 ∷ quoted path.now) }
{
    with_quoted(with(text, b", ")?, path)
}

fn with_later_paths(mut text: Vec<u8>, paths: &[Text]) -> Result<Vec<u8>, NoMemory>
    ensures { IfOk result (λ longer. longer.items
        ≡ text.items ++ flat_map (λ path. 44 ∷ 32 ∷ quoted path) paths.now) }
{
    for path in paths {
        text = with_later_path(text, path.as_slice())?;
    }
    Ok(text)
}

/// The paths in quotes, with commas between.
fn with_paths(text: Vec<u8>, paths: &[Text]) -> Result<Vec<u8>, NoMemory>
    ensures { IfOk result (λ longer. longer.items
        ≡ text.items ++ with_commas (map quoted paths.now)) }
{
    match paths {
        [] => Ok(text),
        [first, others @ ..] => with_later_paths(with_quoted(text, first.as_slice())?, others),
    }
}

fn with_group(text: Vec<u8>, paths: &[Text]) -> Result<Vec<u8>, NoMemory>
    ensures { IfOk result (λ longer. longer.items ≡ text.items ++ create_group_line paths.now) }
{
    let text = with(text, b"CREATE DISKGROUP DATA DISK ")?;
    with(with_paths(text, paths)?, b";\n")
}

/// A statement for each path that creates its image, and one that creates the group of all of them.
#[tactic(auto, using(crate::proofs::Statements::creations_are))]
pub fn creations(alloc: Global, paths: &[Text]) -> Result<Vec<u8>, NoMemory>
    ensures { IfOk result (λ text. text.items
        ≡ ended (map create_image paths.now ++ create_group paths.now ∷ [])) }
{
    with_group(with_images(Vec::new(alloc), paths)?, paths)
}
