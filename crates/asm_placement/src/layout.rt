//! The layout of files over extents.

ghost use Rattle.asm_placement.specs.LayoutRows.{ExtentsRow, FineRow, StartsRow, UnitsRow};
ghost use Rattle.asm_placement.specs.LayoutLaws.{ExtentsHoldTheFile, LayoutFillsSets, LayoutIsOneToOne, LayoutReachesAll};

/// A byte of a file lies at one place only.
pub fn layout_is_one_to_one()
    ensures { LayoutIsOneToOne }
{}

/// Each byte lies somewhere.
pub fn layout_reaches_all()
    ensures { LayoutReachesAll }
{}

/// Whole sets of extents have the bytes before their end, and no others.
pub fn layout_fills_sets()
    ensures { LayoutFillsSets }
{}

/// The extents that a file has by its size are whole sets with room for its bytes.
pub fn extents_hold_the_file()
    ensures { ExtentsHoldTheFile }
{}

/// Units of extents.
pub fn units_row()
    ensures { UnitsRow }
{}

/// First bytes of extents.
pub fn starts_row()
    ensures { StartsRow }
{}

/// Chunks of a fine file.
pub fn fine_row()
    ensures { FineRow }
{}

/// Extents for a size.
pub fn extents_row()
    ensures { ExtentsRow }
{}
