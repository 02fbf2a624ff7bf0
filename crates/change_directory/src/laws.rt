//! What a commit does in the words of the format, what it and its checkpoint leave, and what a
//! store of several copies needs to know of one. Each law is the contract of a function that does
//! nothing.

ghost use Rattle.change_directory.specs.Laws.{HomedAreAtHome, LoggedAreDue, LoggedIsPut, LoggingIsPut};
ghost use Rattle.change_directory.specs.StoreLaws.{DuesStand, FormattedIsEmpty, FormattingLoses, HomedSettles, HomingKeeps, LoadedIsContent, LoadedIsDue, LoggedHas, LoggingKeepsOrHas, OpeningHasNoneOrAll, OtherCopyIsSame, RegionIsSame, StepsStayInside, UnopenedHomed, UnopenedOpens, UnopenedStays};

/// While a log is put, the disk is as it was, or it is a moment of putting the log into the spare
/// slot.
pub fn logging_is_put()
    ensures { LoggingIsPut }
{}

/// Once it is put, the slot holds it.
pub fn logged_is_put()
    ensures { LoggedIsPut }
{}

/// The pages of a commit are due at its checkpoint.
pub fn logged_are_due()
    ensures { LoggedAreDue }
{}

/// After a commit and its checkpoint each page counts as it stands at home, as the next commit
/// demands.
pub fn homed_are_at_home()
    ensures { HomedAreAtHome }
{}

/// While due pages are written home, the content stays, and they stay due.
pub fn homing_keeps()
    ensures { HomingKeeps }
{}

/// Once they are written, each page counts as it stands at home.
pub fn homed_settles()
    ensures { HomedSettles }
{}

/// While a log is put, the content stays, or is that with its pages.
pub fn logging_keeps_or_has()
    ensures { LoggingKeepsOrHas }
{}

/// Once it is put, the copy has its pages, and they are due.
pub fn logged_has()
    ensures { LoggedHas }
{}

/// While a copy whose pages count as they stand at home is formatted, its content stays, or is
/// gone.
pub fn formatting_loses()
    ensures { FormattingLoses }
{}

/// After a format all pages are zeros.
pub fn formatted_is_empty()
    ensures { FormattedIsEmpty }
{}

/// While pages of a copy without an open log slot are written, it has no content.
pub fn unopened_stays()
    ensures { UnopenedStays }
{}

/// Once they are written, they stand in the place of those before.
pub fn unopened_homed()
    ensures { UnopenedHomed }
{}

/// A commit without pages opens such a copy, with the pages that it has.
pub fn unopened_opens()
    ensures { UnopenedOpens }
{}

/// While that commit is put, there is no content, or that of the pages.
pub fn opening_has_none_or_all()
    ensures { OpeningHasNoneOrAll }
{}

/// The calls on a copy change nothing outside its directory region.
pub fn steps_stay_inside()
    ensures { StepsStayInside }
{}

/// A change outside the directory region, on this disk or another, leaves what the copy says.
pub fn region_is_same()
    ensures { RegionIsSame }
{}

/// So does a change of a copy on another disk.
pub fn other_copy_is_same()
    ensures { OtherCopyIsSame }
{}

/// What is loaded of a copy without damage is its content.
pub fn loaded_is_content()
    ensures { LoadedIsContent }
{}

/// The due pages that are loaded stand in the blocks beside them, and are all.
pub fn dues_stand()
    ensures { DuesStand }
{}

/// They are what a checkpoint is asked for.
pub fn loaded_is_due()
    ensures { LoadedIsDue }
{}
