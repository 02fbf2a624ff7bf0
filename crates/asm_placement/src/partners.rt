//! The partner table.

ghost use Rattle.asm_placement.specs.PartnerLaws.{PartnerSetsAreTheTable, PartnersAreFew, PartnersAreSpread, PartnersAreSymmetric, PartnersCross};

/// A disk is a partner of its partners.
pub fn partners_are_symmetric()
    ensures { PartnersAreSymmetric }
{}

/// Partners are regular disks that stay, of different failure groups.
pub fn partners_cross()
    ensures { PartnersCross }
{}

/// Each disk has eight partners at most.
pub fn partners_are_few()
    ensures { PartnersAreFew }
{}

/// A disk with fewer than eight partners has all those of other failure groups that have room.
pub fn partners_are_spread()
    ensures { PartnersAreSpread }
{}

/// An entry's set of partners is that of the table.
pub fn partner_sets_are_the_table()
    ensures { PartnerSetsAreTheTable }
{}
