//! The name of a new file at a path, and the path of its system name.

ghost use Rattle.std.specs.Prelude.{◌≡◌, ◌<◌, ◌^◌, ◌++◌, ◌∷◌, IfNone, IfOk, IfSome, None, OnOk, Some, codes, true};
ghost use Rattle.std.specs.Fmt.{decimal};
ghost use Rattle.asm_group.specs.Names.{is_part, is_same_name};
ghost use Rattle.attribute_values.specs.asm_world.Files.{file_name, new_path};
ghost use Rattle.plan_records.specs.NewNames.{HasParts, name_at, name_meant};

use asm_base::{List, Name, NoMemory, Path};
use itoa::Buffer;
use std::alloc::Global;

/// What a path says of the name of a new file.
#[derive(Clone, Copy)]
pub struct NameParts<'a> {
    pub db: &'a Name,
    /// The file's type.
    pub kind: &'a Name,
    pub tag: &'a Name,
}

/// The name of a new file at a path. None where no file may have the path: where it hasn't three
/// parts, or one of them is too long, or the type is the one of volumes.
#[tactic(auto, using(crate::proofs::NewNames::name_is, crate::proofs::NewNames::long_db, crate::proofs::NewNames::long_kind, crate::proofs::NewNames::long_tag, crate::proofs::NewNames::of_volumes, crate::proofs::NewNames::other_path))]
pub fn new_name(path: &Path) -> Option<NameParts<'_>>
    ensures name { IfSome result (λ name. name_at path.now.parts ≡ Some (name_meant name)) }
    ensures none { IfNone result (name_at path.now.parts ≡ None) }
{
    let [db, kind, tag] = path.parts.as_slice() else {
        return None;
    };
    if is_within(db, 80) && is_within(kind, 30) && is_within(tag, 48) && !is_of_volumes(kind) {
        Some(NameParts { db, kind, tag })
    } else {
        None
    }
}

/// Whether a name has at most so many bytes.
#[tactic(auto, using(crate::proofs::NewNames::part_is_short))]
fn is_within(name: &Name, longest: usize) -> bool
    ensures short { result ≡ is_part longest name.now }
    ensures part { is_part 255 name.now ≡ true }
{
    name.as_bytes().len() <= longest
}

/// Whether a type is the one that is kept for volumes.
#[tactic(auto, using(crate::proofs::NewNames::same_name_is))]
fn is_of_volumes(kind: &Name) -> bool
    ensures { result ≡ is_same_name kind.now (codes "ASMVOL") }
{
    kind.as_bytes().eq_ignore_ascii_case(b"ASMVOL")
}

/// The path of the system name: the tag has the file's number and its incarnation behind it, each
/// after a dot.
pub fn system_path(
    alloc: Global,
    group: &Name,
    name: NameParts<'_>,
    file: u32,
    incarnation: u64,
) -> Result<Path, NoMemory>
    requires { HasParts (name_meant name) }
    ensures path { IfOk result (λ path. path.parts
        ≡ new_path (name_meant name.entry) file incarnation) }
    ensures file { file < 2 ^ 32 }
    ensures incarnation { incarnation < 2 ^ 64 }
{
    let mut parts = List::new(alloc);
    parts.push(name.db.copy()?)?;
    parts.push(name.kind.copy()?)?;
    parts.push(file_name(alloc, name.tag, file, incarnation)?)?;
    Ok(Path {
        group: group.copy()?,
        parts,
    })
}

/// The last part of that path, which has at most 80 bytes.
#[tactic(auto, using(crate::proofs::NewNames::file_name_is_part))]
fn file_name(alloc: Global, tag: &Name, file: u32, incarnation: u64) -> Result<Name, NoMemory>
    requires { is_part 48 tag.now ≡ true }
    ensures { IfOk result (λ name. name ≡ file_name tag.now file incarnation) }
{
    let mut bytes = Vec::from_slice(alloc, tag.as_bytes()).map_err(|_| NoMemory)?;
    put_number(&mut bytes, file as u64)?;
    put_number(&mut bytes, incarnation)?;
    let Some(name) = Name::read(alloc, &bytes, 80)? else {
        unreachable!()
    };
    Ok(name)
}

/// Puts a dot behind bytes, and a number in decimal digits.
fn put_number(bytes: &mut Vec<u8>, number: u64) -> Result<(), NoMemory>
    ensures { OnOk result (bytes.new.items ≡ bytes.old.items ++ 46 ∷ decimal number) }
{
    bytes.push(b'.').map_err(|_| NoMemory)?;
    bytes
        .extend_from_slice(Buffer::new().format(number).as_bytes())
        .map_err(|_| NoMemory)?;
    Ok(())
}
