// What several rooms use: how a row fails, and names, paths and extents. None stands for bytes that
// aren't one, or for want of memory.
use asm_base::{ExtentId, Name, Path};
use std::alloc::Global;
use std::test::Fail;

/// The name of a row that isn't right, and the place of its first step that isn't, or 0.
pub type Wrong = (&'static str, usize);

/// Fails by the name of a row that isn't right.
pub fn row(name: &'static str, is_right: bool) -> Result<(), Wrong> {
    if is_right { Ok(()) } else { Err((name, 0)) }
}

/// Fails by the name of a row, of whose steps so many are right and the next isn't.
pub fn all_right(name: &'static str, right: usize, steps: usize) -> Result<(), Wrong> {
    if right == steps {
        Ok(())
    } else {
        Err((name, right))
    }
}

/// Fails by the name of a row where a step of it isn't right, and tells its place.
pub fn judged(name: &'static str, wrong: Option<usize>) -> Result<(), Fail> {
    match wrong {
        Some(place) => Err(Fail::from((name, place))),
        None => Ok(()),
    }
}

pub fn name(alloc: Global, bytes: &[u8]) -> Option<Name> {
    Name::read(alloc, bytes, 30).ok().flatten()
}

pub fn path(alloc: Global, bytes: &[u8]) -> Option<Path> {
    Path::read(alloc, bytes).ok().flatten()
}

/// An extent of file 256.
pub fn extent(index: u32) -> ExtentId {
    ExtentId { file: 256, index }
}
