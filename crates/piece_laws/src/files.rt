//! A span of a file, piece by piece. Each function does nothing; its contract is the law.
ghost use Rattle.piece_laws.specs.FileSpans.{PiecesAgree, SpanIsFree, WalksExist};
ghost use Rattle.piece_laws.specs.Rewriting.{RewrittenIsDescribed};
ghost use Rattle.piece_laws.specs.Walks.{FreedForgets, FreedIsFree, SettledIsWritten};

/// Every span has pieces.
pub fn walks_exist()
    ensures { WalksExist }
{}

/// The pieces of a span, each settled, are the span as it is written in the world.
pub fn settled_is_written()
    ensures { SettledIsWritten }
{}

/// Each freed, they are the span under a write that wasn't acknowledged.
pub fn freed_is_free()
    ensures { FreedIsFree }
{}

/// With its pieces freed, a group that differs in the span alone is the same.
pub fn freed_forgets()
    ensures { FreedForgets }
{}

/// A group that is held, and differs from another one in a span alone, is held as that one with the
/// span's cells Free.
pub fn span_is_free()
    ensures { SpanIsFree }
{}

/// Where all pieces agree with their known cells, the span's bytes agree with its cells.
pub fn pieces_agree()
    ensures { PiecesAgree }
{}

/// With other bytes in a file, records describe the group that they did.
pub fn rewritten_is_described()
    ensures { RewrittenIsDescribed }
{}
