//! Names and paths that bytes are.

use asm_base::{Name, Path};
use std::alloc::Global;

/// The path that the bytes are.
pub fn read_path(alloc: Global, bytes: &[u8]) -> Option<Path> {
    match Path::read(alloc, bytes) {
        Ok(path) => path,
        Err(_) => None,
    }
}

/// The name that the bytes are.
pub fn read_name(alloc: Global, bytes: &[u8]) -> Option<Name> {
    match Name::read(alloc, bytes, 30) {
        Ok(name) => name,
        Err(_) => None,
    }
}
