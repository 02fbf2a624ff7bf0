//! The heads of files with another size or alias, and the keys that go with one.

ghost use Rattle.std.specs.Prelude.{◌≡◌, ◌<◌, ◌^◌, ◌∷◌, [], IfOk, if◌then◌else◌, ◌==◌};
ghost use Rattle.catalog_units.specs.catalog_tables.Faults.{file_key, node_key};
ghost use Rattle.plan_records.specs.Heads.{head_with_alias, with_size};

use asm_base::{Key, List, NoMemory};
use catalog_units::{FileHead, file_key, node_key};
use std::alloc::Global;

/// The head with another size, in bytes.
pub fn with_size(head: &FileHead, size: u64) -> Result<FileHead, NoMemory>
    ensures { IfOk result (λ new. new ≡ with_size head.now size) }
{
    Ok(FileHead {
        copies: head.copies,
        stripe: head.stripe,
        kind: head.kind.copy()?,
        size,
        incarnation: head.incarnation,
        system: head.system,
        alias: head.alias,
    })
}

/// The head with this alias node, or with none by 0.
pub fn with_alias(head: &FileHead, alias: u32) -> Result<FileHead, NoMemory>
    ensures head { IfOk result (λ h. h ≡ head_with_alias head.now alias) }
    ensures small { alias < 2 ^ 32 }
{
    Ok(FileHead {
        copies: head.copies,
        stripe: head.stripe,
        kind: head.kind.copy()?,
        size: head.size,
        incarnation: head.incarnation,
        system: head.system,
        alias,
    })
}

/// The keys of a file's head and of the nodes of its names.
pub fn keys_of_file(alloc: Global, file: u32, head: &FileHead) -> Result<List<Key>, NoMemory>
    ensures { IfOk result (λ keys. keys ≡ file_key file ∷ node_key head.now.system
        ∷ (if head.now.alias == 0 then [] else node_key head.now.alias ∷ [])) }
{
    let mut keys = List::new(alloc);
    keys.push(file_key(file))?;
    keys.push(node_key(head.system))?;
    if head.alias != 0 {
        keys.push(node_key(head.alias))?;
    }
    Ok(keys)
}
