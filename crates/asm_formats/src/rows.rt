//! Worked examples, computed from the definitions.

ghost use Rattle.asm_formats.specs.Rows.{ClaimRow, HeaderRow, ItemsRow, OneSetRow, PlacesRow, RefusedItemsRow, RefusedSetsRow, ReservedRow, SetsRow, StatusRow, TwoSetsRow};

/// Reserved units of three groups.
#[tactic(auto, unfolding(crate::specs::Regions::reserved_units))]
pub fn reserved_row()
    ensures { ReservedRow }
{}

/// Blocks of pages and of log slots.
pub fn places_row()
    ensures { PlacesRow }
{}

/// Disk 63 is the last, and the form is 2.
pub fn header_row()
    ensures { HeaderRow }
{}

/// Numbers stand with their highest byte first.
pub fn claim_row()
    ensures { ClaimRow }
{}

/// Each disk of either set has an entry.
pub fn status_row()
    ensures { StatusRow }
{}

/// Sets are the holders and the next holders, by number and birth.
pub fn sets_row()
    ensures { SetsRow }
{}

/// After one set it stays, and next holders may come.
pub fn one_set_row()
    ensures { OneSetRow }
{}

/// After two sets both stay, or the next holders alone.
pub fn two_sets_row()
    ensures { TwoSetsRow }
{}

/// The old holders alone don't follow, nor others.
pub fn refused_sets_row()
    ensures { RefusedSetsRow }
{}

/// A directory record of each kind.
pub fn items_row()
    ensures { ItemsRow }
{}

/// Records that break a rule of their kind.
pub fn refused_items_row()
    ensures { RefusedItemsRow }
{}
