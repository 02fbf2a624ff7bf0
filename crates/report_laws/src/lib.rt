//! What the tables of a group tell, as the world's reports. Each function does nothing; its
//! contract is the law.
#![tactic(auto)]

ghost use Rattle.report_laws.specs.Finds.{FoundAreWorlds};
ghost use Rattle.report_laws.specs.Lists.{AllMatchStar, GroupsAreWorlds, ListsAreRefused, ListsAreUncaused, MatchesAreInOrder, NamesAreInserted, RowsAreWorlds};
ghost use Rattle.report_laws.specs.Paths.{PathsLead};
ghost use Rattle.report_laws.specs.Places.{DirectoriesAreWorlds, NoDirectoriesAreWorlds};
ghost use Rattle.report_laws.specs.Rows.{AttributesAreWorlds, TemplatesAreWorlds};
ghost use Rattle.report_laws.specs.Usage.{UsageIsWorlds};

pub use group_of::{FileBy, NewFile};
pub use group_reports::path_to;

/// The path of `cd`, `find`, `du` or `ls` leads somewhere, from whatever place.
pub fn paths_lead()
    ensures { PathsLead }
{}

/// A directory by the tables is one of the world's group, which spells it as its nodes do, and what
/// is none is none there.
pub fn directories_are_the_worlds()
    ensures directory { DirectoriesAreWorlds }
    ensures none { NoDirectoriesAreWorlds }
{}

/// The rows of lsattr and lstmpl have the lines of the world's group.
pub fn settings_are_the_worlds()
    ensures attributes { AttributesAreWorlds }
    ensures templates { TemplatesAreWorlds }
{}

/// What find tells of the files' names is what the world's tree tells.
pub fn found_paths_are_the_worlds()
    ensures { FoundAreWorlds }
{}

/// The rows of ls at a path in a group are the world's, and what has rows isn't refused there.
pub fn rows_are_the_worlds()
    ensures rows { RowsAreWorlds }
    ensures uncaused { ListsAreUncaused }
{}

/// What ls is refused by the tables is refused by the world's group.
pub fn lists_are_refused_as_the_worlds()
    ensures { ListsAreRefused }
{}

/// Names that are put among others one by one stand in folded order, and those of the mounted
/// groups that match are the world's, of which all match `*`.
pub fn names_are_in_order()
    ensures inserted { NamesAreInserted }
    ensures matching { MatchesAreInOrder }
    ensures groups { GroupsAreWorlds }
    ensures star { AllMatchStar }
{}

/// What du tells by the tables is what the world's group tells, whose files have their cells.
pub fn usage_is_the_worlds()
    ensures { UsageIsWorlds }
{}
