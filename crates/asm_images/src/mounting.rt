//! What a mount rests on.

ghost use Rattle.asm_images.specs.MountLaws.{ClaimIsSeen, MajorityIsClaimed, OneContentIsOneGroup, RenumberedIsCovered, SurveyedCounts, SurveyedEpochIsAbove};

/// A claim on members that are enough for a record is seen by every set that is enough for a record
/// that shares a set with it.
pub fn majority_is_claimed()
    ensures { MajorityIsClaimed }
{}

/// Once members that are enough for a record that counts are claimed, a record of that epoch may be
/// begun.
pub fn claim_is_seen()
    ensures { ClaimIsSeen }
{}

/// An epoch above all that a survey reads is above that of every record that counts.
pub fn surveyed_epoch_is_above()
    ensures { SurveyedEpochIsAbove }
{}

/// The greatest record of members that are enough for it counts.
pub fn surveyed_counts()
    ensures { SurveyedCounts }
{}

/// A record under another number, and with other holders, may be taken for Status as the record
/// may.
pub fn renumbered_is_covered()
    ensures { RenumberedIsCovered }
{}

/// One content, found whichever disks are left, leaves one group.
pub fn one_content_is_one_group()
    ensures { OneContentIsOneGroup }
{}
