// The homes of new extents are chosen.
ghost use Rattle.std.specs.Prelude.{◌≡◌, ◌+◌, ◌<◌, ◌^◌, IfErr, length};
ghost use Rattle.group_pieces.specs.group_engine.Mounts.{IsWhole};
ghost use Rattle.file_extents.specs.Rows.{ChoiceCause, SpaceCause};

use crate::placing::copy_units;
use asm_base::{ExtentId, Homes};
use catalog_tables::{Units, choose_row};
use group_pieces::Mounted;
use refusal_lines::Refusal;
use std::alloc::Global;

/// Extents of a chunk.
pub const CHUNK: u64 = 256;

/// The most extents that a file may have.
pub(crate) const MOST_EXTENTS: u64 = 2_147_483_648;

/// No homes.
pub(crate) const ABSENT: Homes = Homes {
    first: None,
    second: None,
    third: None,
};

/// Extents of a file that are to be made: those from one on, so many, each with so many copies.
#[derive(Clone, Copy)]
pub struct NewExtents {
    pub file: u32,
    pub copies: u8,
    pub first: u64,
    pub count: u64,
}

/// Chooses homes for as many extents as the row has places, by these maps, which have their units
/// used then. NoSpace: the first of them for which there is no choice once those before it have
/// theirs.
#[tactic(auto, using(crate::proofs::Extents::entries_ascend, crate::proofs::Choices::not_all))]
fn choose_in(
    m: &Mounted,
    units: &mut [Units],
    new: NewExtents,
    row: &mut [Homes],
) -> Result<(), Refusal>
    requires whole { IsWhole m.now }
    requires few { new.first + length row.old < 2 ^ 32 }
    requires all { length row.old ≡ new.count }
    ensures places { length row.new ≡ length row.old }
    ensures cause { IfErr result (ChoiceCause m.now new units.old) }
{
    let step = m.catalog().shape().step;
    let chosen = choose_row(
        m.status().entries(),
        units,
        new.copies,
        step,
        new.first,
        row,
    );
    if chosen < row.len() {
        let extent = ExtentId {
            file: new.file,
            index: (new.first + chosen as u64) as u32,
        };
        return Err(Refusal::NoSpace { extent });
    }
    Ok(())
}

/// Chooses homes for all the extents, for which the row has places, by the modes and the units of
/// the group as they are. NoSpace: the first for which there is no choice once those before it have
/// theirs.
pub(crate) fn choose_row_of(
    m: &Mounted,
    alloc: Global,
    new: NewExtents,
    row: &mut [Homes],
) -> Result<(), Refusal>
    requires whole { IsWhole m.now }
    requires few { new.first + length row.old < 2 ^ 32 }
    requires all { length row.old ≡ new.count }
    ensures places { length row.new ≡ length row.old }
    ensures cause { IfErr result (SpaceCause m.now new) }
{
    match copy_units(alloc, m.catalog().units()) {
        Ok(mut units) => choose_in(m, &mut units, new, row),
        Err(_) => Err(Refusal::NoMemory),
    }
}
