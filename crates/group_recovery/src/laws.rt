//! What a mount rests on, image by image. Each function does nothing; its contract is the law.

ghost use Rattle.group_recovery.specs.Bringing.{BringingKeeps};
ghost use Rattle.group_recovery.specs.Founds.{NoneAreTaken, TwoAreTaken};
ghost use Rattle.group_recovery.specs.Histories.{SurveyedIsBelow};
ghost use Rattle.group_recovery.specs.Renewing.{RenewedFollows, RenewedIsCovered, RenewedBirthsAreCovered, RenewedBegins};
ghost use Rattle.group_recovery.specs.Surveying.{SurveyedIsRead};
ghost use Rattle.group_recovery.specs.Taking.{TakenIsDescribed, TakenIsOne};
ghost use Rattle.group_recovery.specs.Leaving.{LeftUsersAreKept};
ghost use Rattle.group_recovery.specs.Modes.{ChangedIsRenewed, MountedIsRenewed};
ghost use Rattle.group_recovery.specs.Mounting.{MountedIsHeld, MountingKeeps, OneGroupIsMeant, ReadMeansOne, RecordedHasHistory, RecordedIsMounted};
ghost use Rattle.group_recovery.specs.Narrowing.{MountNarrows};

/// The record that a mount writes anew has the sets of the record that it read.
pub fn renewed_follows()
    ensures { RenewedFollows }
{}

/// It may be taken for Status as that record may.
pub fn renewed_is_covered()
    ensures { RenewedIsCovered }
{}

/// The births of its entries are covered by each record that counts.
pub fn renewed_births_are_covered()
    ensures { RenewedBirthsAreCovered }
{}

/// Once its epoch is claimed on members that are enough, it may be begun.
pub fn renewed_begins()
    ensures { RenewedBegins }
{}

/// The content that was read on a named copy describes a listed group.
pub fn taken_is_described()
    ensures { TakenIsDescribed }
{}

/// Two named copies of its commit number have it.
pub fn taken_is_one()
    ensures { TakenIsOne }
{}

/// Once the record is complete, and each copy that it names has the content, that group is left.
pub fn mount_narrows()
    ensures { MountNarrows }
{}

/// A sound image that is surveyed is sound by a history whose records have numbers below those of
/// the next epoch.
pub fn surveyed_is_below()
    ensures { SurveyedIsBelow }
{}

/// Where headers and the bytes behind the directory regions stay, members and their user bytes are
/// kept.
pub fn left_users_are_kept()
    ensures { LeftUsersAreKept }
{}

/// A named copy that lags behind may be brought up once the record alone counts: at each moment the
/// image is sound.
pub fn bringing_keeps()
    ensures { BringingKeeps }
{}

/// At each moment of a mount an image may stand for the groups that it might stand for before.
pub fn mounting_keeps()
    ensures { MountingKeeps }
{}

/// The content that is taken stands for one of them.
pub fn read_means_one()
    ensures { ReadMeansOne }
{}

/// Once the mount is done, that group is held, and it alone.
pub fn mounted_is_held()
    ensures { MountedIsHeld }
{}

/// Where an image may stand for one group alone, it stands for that one.
pub fn one_group_is_meant()
    ensures { OneGroupIsMeant }
{}

/// Once the record is complete, the register keeps a history that begins with it.
pub fn recorded_has_history()
    ensures { RecordedHasHistory }
{}

/// No id of a name is taken exactly where each is gone.
pub fn none_are_taken()
    ensures { NoneAreTaken }
{}

/// Two are exactly where two ids have a majority each.
pub fn two_are_taken()
    ensures { TwoAreTaken }
{}

/// Where no copy lags behind, a group is mounted once its record is complete.
pub fn recorded_is_mounted()
    ensures { RecordedIsMounted }
{}

/// A mount has read what it needs of each image that a stop may leave after the survey.
pub fn surveyed_is_read()
    ensures { SurveyedIsRead }
{}

/// A record whose modes change and that names fewer copies is the record anew.
pub fn changed_is_renewed()
    ensures { ChangedIsRenewed }
{}

/// So is the record of a mount: missing disks are Offline, and marked ones Syncing.
pub fn mounted_is_renewed()
    ensures { MountedIsRenewed }
{}
