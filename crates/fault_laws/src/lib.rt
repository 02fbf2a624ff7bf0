//! Records that describe a group are never at fault. Each function does nothing; its contract is
//! the law.
#![tactic(auto)]

ghost use Rattle.fault_laws.specs.Damage.{SoundIsNotDamaged, StandingHasNoStranger, StandingHasWholeBodies, StandingHasWholeCopies};
ghost use Rattle.fault_laws.specs.Faults.{DescribedHaveCatalog, DescribedIsNoFault, DescribedStandUnder};

use bay::Bay;

/// Tables whose items describe a group under a status record may stand under it: they keep the
/// rules, their homes have units, each entry has its disk record, and no home lies on a disk of a
/// quorum failure group.
pub fn described_tables_stand()
    ensures { DescribedStandUnder }
{}

/// Where the items of a content's records describe a group under a status record, the content has a
/// catalog.
pub fn described_records_have_a_catalog()
    ensures { DescribedHaveCatalog }
{}

/// Where the items of a content's records describe a group under a status record, no record of the
/// content is at fault, and none that must be there is wanting.
pub fn described_is_no_fault()
    ensures { DescribedIsNoFault }
{}

/// Where an image that a stop may leave may stand for groups, and for no others, the directories
/// that were loaded of its disks have no record at fault: a mount isn't refused as Damaged by one.
pub fn loaded_groups_are_not_damaged<B: Bay>(bay: &B)
    ensures { SoundIsNotDamaged (B.state bay.now) }
{}

/// Where with all disks an image stands for a group, and the bay tells what its disks hold, no open
/// body of a member is damaged and no directory copy that the record names; and where an image that
/// a stop may leave does, each member is a disk of the group.
pub fn standing_groups_are_not_damaged<B: Bay>(start: &B, end: &B)
    ensures bodies { StandingHasWholeBodies (B.state start.now) (B.state end.now) }
    ensures copies { StandingHasWholeCopies (B.state start.now) (B.state end.now) }
    ensures strangers { StandingHasNoStranger (B.state end.now) }
{}
