//! A row of steps, played over the catalog of a small group.

ghost use Rattle.table_tests.specs.Planned.{IsPlanned};

use crate::catalogs::disk_units::{resized, with_units};
use crate::catalogs::facts::is_told;
use crate::catalogs::plans::planned;
use crate::catalogs::steps::{Answer, Plan, Step};
use crate::helpers::judged;
use asm_base::{Change, ExtentId, Home};
use catalog::Catalog;
use sample_group::{Edit, catalog, edited, make_move};
use std::alloc::Global;
use std::test::Fail;

/// Takes the memory for a change, and applies it.
fn make(alloc: Global, catalog: &mut Catalog, change: &Change) -> Answer
    requires { IsPlanned catalog.old change.now.put change.now.gone }
{
    match catalog.ready(alloc, change) {
        Ok(()) => {
            catalog.apply(change);
            Answer::Done
        }
        Err(_) => Answer::Another,
    }
}

/// Makes the change of a plan. What comes of it.
fn made(alloc: Global, group: &mut Catalog, plan: Plan<'_>) -> Answer {
    match planned(alloc, group, plan) {
        Ok(change) => {
            let answer = make(alloc, group, &change);
            drop(change);
            answer
        }
        Err(answer) => answer,
    }
}

/// Does a step. Whether this comes of it.
fn is_right(alloc: Global, group: &mut Catalog, step: Step<'_>) -> bool {
    match step {
        Step::Make(plan, answer) => made(alloc, group, plan) == answer,
        Step::Move(file, index, copy, disk, unit) => {
            let x = ExtentId { file, index };
            matches!(
                make_move(alloc, group, x, copy, Home { disk, unit }),
                Ok(true)
            )
        }
        Step::Resize(units, covered) => resized(alloc, group, &with_units(units)) == Some(covered),
        Step::Tells(fact) => is_told(alloc, group, fact),
    }
}

/// Does steps one after the other, up to the first that isn't right. Which one that is.
pub fn wrong_in(alloc: Global, group: &mut Catalog, steps: &[Step<'_>]) -> Option<usize> {
    for (place, step) in steps.iter().enumerate() {
        if !is_right(alloc, group, *step) {
            return Some(place);
        }
    }
    None
}

/// The catalog of the usual records after edits, with so many directories more in the root.
fn group_with(alloc: Global, edits: &[Edit<'_>], directories: u8) -> Result<Catalog, Fail> {
    match edited(alloc, edits, directories) {
        Ok(records) => {
            let group = catalog(alloc, &records);
            drop(records);
            group
        }
        Err(fail) => Err(fail),
    }
}

/// Does steps one after the other, and lets the group go.
fn judged_in(
    alloc: Global,
    name: &'static str,
    mut group: Catalog,
    steps: &[Step<'_>],
) -> Result<(), Fail> {
    let wrong = wrong_in(alloc, &mut group, steps);
    drop(group);
    judged(name, wrong)
}

/// Plays a row: steps in the group of the usual records after edits, with so many directories more
/// in the root. Fails by its name where a step isn't right.
pub fn play(
    alloc: Global,
    name: &'static str,
    edits: &[Edit<'_>],
    directories: u8,
    steps: &[Step<'_>],
) -> Result<(), Fail> {
    match group_with(alloc, edits, directories) {
        Ok(group) => judged_in(alloc, name, group, steps),
        Err(fail) => Err(fail),
    }
}
