// All rows. What isn't right fails by the name of its row, or by its line.
use crate::{memory, words};
use std::test::Fail;

/// The name of a row that isn't right.
pub type Wrong = &'static str;

/// Fails by the name of a row that isn't right.
pub fn row(name: &'static str, is_right: bool) -> Result<(), Wrong> {
    if is_right { Ok(()) } else { Err(name) }
}

#[test]
fn outside(rt: HostRuntime) -> Result<(), Fail> {
    memory::play_memory(rt.alloc())?;
    words::play_words(rt.alloc())?;
    Ok(())
}
