//! Edits of a mounted group as the world's. Each function does nothing; its contract is the law.
#![tactic(auto)]

ghost use Rattle.edit_laws.specs.Edits.{EditIsHeld, EditIsOfTables, EditIsRefused, EditLeadsTo, OthersAreSpared, OthersStayMounted, RefusalIsOfTables, SparedIsSound, StandsWithAll};

use bay::Bay;
pub use group_files::{GroupEdit, edit_group};

/// A change that is an edit leads a mounted group to the world's group after the edit, and what
/// refuses the edit is what the world refuses it by, or want of memory or of a block.
pub fn edits_are_the_worlds<B: Bay>(bay: &B)
    ensures leads { EditLeadsTo (B.state bay.now) }
    ensures refused { EditIsRefused (B.state bay.now) }
{}

/// While an edit is committed each image of each moment is held for the group before or for the
/// world's group after it, which is mounted once the edit is done.
pub fn edits_are_held<B: Bay>(start: &B, end: &B)
    ensures { EditIsHeld (B.state start.now) (B.state end.now) }
{}

/// While an edit is committed the disks of every other id's members stay, so that an image that was
/// sound under it is so still, and a group that is mounted beside stays so.
pub fn others_stay<B: Bay>(start: &B, end: &B)
    ensures spared { OthersAreSpared (B.state start.now) (B.state end.now) }
    ensures sound { SparedIsSound }
    ensures mounted { OthersStayMounted (B.state start.now) (B.state end.now) }
{}

/// On every bay, the tables after an edit are those of the world's group after it, and what refuses
/// an edit of the tables is so in the world.
pub fn edits_of_tables_are_the_worlds()
    ensures done { EditIsOfTables }
    ensures refused { RefusalIsOfTables }
{}

/// While an edit is committed Status and directories are there with all disks, also where others
/// than the attached ones are members.
pub fn edits_stand_with_all_disks<B: Bay>(start: &B, end: &B)
    ensures stands { StandsWithAll (B.state start.now) (B.state end.now) }
{}
