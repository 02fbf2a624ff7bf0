// Plays the rows of the store and of the map of its pages. What isn't right fails by the name of
// its row.
use crate::helpers::Wrong;
use crate::stores::{commits, copies, costs, loads, many, page_maps, stops};
use std::alloc::Global;
use std::test::*;

fn play(alloc: Global) -> Result<(), Wrong> {
    commits::play_rows(alloc)?;
    copies::play_rows(alloc)?;
    costs::play_rows(alloc)?;
    loads::play_rows(alloc)?;
    page_maps::play_rows(alloc)?;
    stops::play_rows(alloc)
}

#[test]
fn stores(rt: HostRuntime) -> Result<(), Fail> {
    play(rt.alloc())?;
    Ok(())
}

#[test]
fn many_records(rt: HostRuntime) -> Result<(), Fail> {
    many::play_rows(rt.alloc())?;
    Ok(())
}
