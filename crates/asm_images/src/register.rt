//! The status register: whichever members are read, they give the completed record or one that was
//! begun after it.

ghost use Rattle.asm_images.specs.Laws.{CurrentShareASet, EnoughMeet, FollowersShareASet, MoveFollows, StatusCounts};
ghost use Rattle.asm_images.specs.ContentLaws.{BegunIsLast, CompleteIsLast};

/// What any set of members takes for Status is the completed record, or one that was begun after
/// it.
pub fn status_counts()
    ensures { StatusCounts }
{}

/// The holders move in two steps: next holders come beside them, and then alone.
pub fn move_follows()
    ensures { MoveFollows }
{}

/// A record and one that follows it share a set, and so do two that follow one.
pub fn followers_share_a_set()
    ensures { FollowersShareASet }
{}

/// Any two of the records that count share a set.
pub fn current_share_a_set()
    ensures { CurrentShareASet }
{}

/// Where two records share a set, members that are enough for the one and members that are enough
/// for the other have a disk in common.
pub fn enough_meet()
    ensures { EnoughMeet }
{}

/// A record that is begun is the last.
pub fn begun_is_last()
    ensures { BegunIsLast }
{}

/// Once it is complete, it is the last still.
pub fn complete_is_last()
    ensures { CompleteIsLast }
{}
