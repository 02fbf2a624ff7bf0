//! A piece of an extent on its copies. Each function does nothing; its contract is the law.
ghost use Rattle.piece_laws.specs.PieceLaws.{FewerCurrentHold, FreedIsHeld, ReadingAgrees, SettlingKnows, WritingFrees};
ghost use Rattle.piece_laws.specs.SpareLaws.{SpareWriteKeeps};

/// While a piece is written to some copies, however torn, the group is held with the piece's cells
/// Free.
pub fn writing_frees()
    ensures { WritingFrees }
{}

/// Once every copy without a stale mark has the bytes, the piece's cells are Known.
pub fn settling_knows()
    ensures { SettlingKnows }
{}

/// A usable copy agrees with every Known cell of the piece.
pub fn reading_agrees()
    ensures { ReadingAgrees }
{}

/// A group that is held is held with a piece's cells Free.
pub fn freed_is_held()
    ensures { FreedIsHeld }
{}

/// While bytes of free units, or of a copy that is marked stale, are written, the group is held.
pub fn spare_write_keeps()
    ensures { SpareWriteKeeps }
{}

/// Where the same homes have more stale marks, the disks hold the group still.
pub fn fewer_current_hold()
    ensures { FewerCurrentHold }
{}
