// Plays the rows of all tables. What isn't right fails by the name of its row.
use crate::helpers::Wrong;
use crate::tables::{
    extents, files, name_edits, names, new_names, operations, stale_marks, template_edits,
    templates,
};
use std::alloc::Global;
use std::test::*;

fn play(alloc: Global) -> Result<(), Wrong> {
    extents::play_rows(alloc)?;
    files::play_rows(alloc)?;
    names::play_rows(alloc)?;
    name_edits::play_rows(alloc)?;
    new_names::play_rows(alloc)?;
    operations::play_rows(alloc)?;
    stale_marks::play_rows(alloc)?;
    template_edits::play_rows(alloc)?;
    templates::play_rows(alloc)
}

#[test]
fn tables(rt: HostRuntime) -> Result<(), Fail> {
    play(rt.alloc())?;
    Ok(())
}
