//! The homes of new extents.

ghost use Rattle.asm_placement.specs.HomeLaws.{ChosenHomesAreApart};

/// The homes that are chosen lie on different disks of different failure groups, each Online,
/// regular and with room.
pub fn homes_are_apart()
    ensures { ChosenHomesAreApart }
{}
