//! What the end of a rebalance says.

ghost use Rattle.asm_placement.specs.EndLaws.{DoneMeans, FullBears, LostMeans, NoSpaceMeans};

/// Where the rebalance is done, each copy is where it should be, the disks are balanced and no
/// table is to move.
pub fn done_means()
    ensures { DoneMeans }
{}

/// Where there is no space, no disk can take the copy of that extent, nor any other that is due.
pub fn no_space_means()
    ensures { NoSpaceMeans }
{}

/// Where an extent is lost, it has no usable copy.
pub fn lost_means()
    ensures { LostMeans }
{}

/// A full extent bears the loss of fewer failure groups than it has copies.
pub fn full_bears()
    ensures { FullBears }
{}
