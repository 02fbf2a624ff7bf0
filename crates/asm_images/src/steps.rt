//! The steps of which every command, slice and mount is made keep an image sound.

ghost use Rattle.asm_images.specs.Laws.{BeginKeeps, ClaimKeeps, CommitKeeps, CompleteKeeps, JoinKeeps, LeaveKeeps, NarrowKeeps, OutsideKeeps, PieceKeeps, SettleKeeps, SpareKeeps, StoreKeeps, WidenKeeps};
ghost use Rattle.asm_images.specs.Moves.{RowsKeep, StepKeeps};

/// Bytes change on which no metadata rests and which no current copy has.
pub fn spare_keeps()
    ensures { SpareKeeps }
{}

/// A disk that is no member, before and after, changes in any way.
pub fn outside_keeps()
    ensures { OutsideKeeps }
{}

/// A claim slot of one disk is closed, or put with a greater epoch.
pub fn claim_keeps()
    ensures { ClaimKeeps }
{}

/// A record is begun.
pub fn begin_keeps()
    ensures { BeginKeeps }
{}

/// The last record is stored in one slot.
pub fn store_keeps()
    ensures { StoreKeeps }
{}

/// A record is complete, once it stands on a majority of each of its sets.
pub fn complete_keeps()
    ensures { CompleteKeeps }
{}

/// The directory copy of one disk keeps its content, loses it, or gets one that is known.
pub fn commit_keeps()
    ensures { CommitKeeps }
{}

/// A span of one extent is written: its cells are free.
pub fn piece_keeps()
    ensures { PieceKeeps }
{}

/// All current copies have the same bytes in a span: its cells are known.
pub fn settle_keeps()
    ensures { SettleKeeps }
{}

/// A group that no open content needs goes.
pub fn narrow_keeps()
    ensures { NarrowKeeps }
{}

/// Further groups come.
pub fn widen_keeps()
    ensures { WidenKeeps }
{}

/// A disk loses its open header.
pub fn leave_keeps()
    ensures { LeaveKeeps }
{}

/// A disk gets a header of the group, with its other gates closed.
pub fn join_keeps()
    ensures { JoinKeeps }
{}

/// Each kind of step keeps an image sound.
pub fn step_keeps()
    ensures { StepKeeps }
{}

/// Each image of a row of steps from a sound one is sound.
pub fn rows_keep()
    ensures { RowsKeep }
{}
