// What a survey finds, in the words of the members of an image. Each function has an empty body:
// its contract is the law.
ghost use Rattle.status_register.specs.OrderLaws.{AttachedDisksDescend, GreaterNumbersFirst, OrderedPutsAreARow};
ghost use Rattle.status_register.specs.SurveyLaws.{ClaimedRecordBegins, ClaimsKeepMembers, RecordsKeepMembers, ShownClaimIsSeen, StoredClaimsFit, StoredRecordCompletes, StoredRecordsFit, EpochPassesCurrentRecords, SurveyedRecordCounts};

/// The record that a survey gives is the one that was last completed, or one begun after it.
pub fn surveyed_record_counts()
    ensures { SurveyedRecordCounts }
{}

/// The epoch after a survey is above those of all records that count.
pub fn surveyed_epoch_is_above()
    ensures { EpochPassesCurrentRecords }
{}

/// A claim that a majority of each set shows is seen by every set that is enough, so that a record
/// of its epoch may be begun.
pub fn shown_claim_is_seen()
    ensures { ShownClaimIsSeen }
{}

/// While the last record that was begun is put on members, in whole or in part, the image fits the
/// history.
pub fn stored_records_fit()
    ensures { StoredRecordsFit }
{}

/// While a claim is put on members, in whole or in part, the image fits the history.
pub fn stored_claims_fit()
    ensures { StoredClaimsFit }
{}

/// Disks that are members stay so while a claim is put on some.
pub fn claims_keep_members()
    ensures { ClaimsKeepMembers }
{}

/// Disks that are members stay so while a record is put on some.
pub fn records_keep_members()
    ensures { RecordsKeepMembers }
{}

/// A record of a claimed epoch that follows, with a number above all that count, is begun.
pub fn claimed_record_begins()
    ensures { ClaimedRecordBegins }
{}

/// Once the last record stands on members that are enough for it, it is the one that was last
/// completed, and no other counts.
pub fn stored_record_completes()
    ensures { StoredRecordCompletes }
{}

/// The attached disks of a record's sets are in the order of their numbers, from the greatest down.
pub fn attached_disks_descend()
    ensures { AttachedDisksDescend }
{}

/// While a record is put on them in this order, a disk is as it was, or each one of a greater
/// number shows the record or failed.
pub fn greater_numbers_first()
    ensures { GreaterNumbersFirst }
{}

/// Puts in the order of the members are a row of puts, of which the other laws speak.
pub fn ordered_puts_are_a_row()
    ensures { OrderedPutsAreARow }
{}
