// What is done where a call ends behind a commit.
ghost use Rattle.std.specs.Bool.{OnTrue};
ghost use Rattle.std.specs.Prelude.{◌≡◌, ◌⊎◌, None};
ghost use Rattle.group_pieces.specs.group_engine.Commits.{KeepsRecord, StatusCause};
ghost use Rattle.group_pieces.specs.group_engine.Making.{access_after_closing};
ghost use Rattle.group_pieces.specs.group_engine.Mounts.{IsMounted, Takes};
ghost use Rattle.group_pieces.specs.group_engine.Own.{KeepsGroup};
ghost use Rattle.refusal_lines.specs.declared.refusal.Refusal.TheVariants as cause;
ghost use Rattle.file_extents.specs.Closing.{IsOrShut};

use bay::Bay;
use group_pieces::Mounted;
use refusal_lines::Refusal;
use std::alloc::Global;

/// Memory was wanted behind a commit: the group takes no more calls.
pub(crate) fn shut(m: &mut Mounted) -> Refusal
    ensures group { m.new ≡ record m.old { access = access_after_closing m.old.access } }
    ensures refusal { result ≡ cause.NoMemory }
{
    m.close();
    Refusal::NoMemory
}

/// The answer of a step behind a commit. After want of memory the group takes no more calls.
pub fn or_shut(m: &mut Mounted, answer: Result<(), Refusal>) -> Result<(), Refusal>
    ensures { IsOrShut answer m.old result m.new }
{
    match answer {
        Ok(()) => Ok(()),
        Err(Refusal::NoMemory) => Err(shut(m)),
        Err(refusal) => Err(refusal),
    }
}

/// Ends the pending operation, for this refusal. Gives that, or the one by which the operation
/// couldn't be ended: after want of memory the group takes no more calls.
pub fn give_back<B: Bay>(m: &mut Mounted, alloc: Global, bay: &mut B, refusal: Refusal) -> Refusal
    requires takes { Takes m.old (B.state bay.old) }
    ensures keeps { KeepsGroup m.old m.new (B.state bay.old) (B.state bay.new) }
    ensures cause { (result ≡ refusal) ⊎ StatusCause m.old m.new (B.state bay.old) (B.state bay.new)
        result }
    // The record that holds has the entries and the sets of the one before, and no directory copy
    // more.
    ensures status { KeepsRecord m.old.register.value m.new.register.value }
    // While the group takes calls still, nothing is pending, and the files have their heads.
    ensures ended { IsMounted m.new → m.new.catalog.tables.operations.pending ≡ None }
    ensures files { IsMounted m.new → m.new.catalog.tables.files ≡ m.old.catalog.tables.files }
{
    match m.end_pending(alloc, bay) {
        Ok(()) => refusal,
        Err(refusal) => refusal,
    }
}

/// Whether no operation is pending. Between two calls one is pending only after want of memory.
pub fn is_at_rest(m: &Mounted) -> bool
    ensures { OnTrue result (m.now.catalog.tables.operations.pending ≡ None) }
{
    m.catalog().pending().is_none()
}
