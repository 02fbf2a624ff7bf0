// A commit on the copies: on each its due pages go home, the changed pages go into its log, and
// from there home.
ghost use Rattle.std.specs.Prelude.{◌≡◌, ◌<◌, ◌^◌, ◌-◌, IsTrue, ℕ, true};
ghost use Rattle.asm_group.specs.Names.{Bytes};
ghost use Rattle.bay.specs.Moments.{NowOnly};
ghost use Rattle.change_directory.specs.Places.{IsCopy};
ghost use Rattle.change_directory.specs.Logs.{AreLogsSettled, are_pages};
ghost use Rattle.change_directory.specs.Laws.{ArePut};
ghost use Rattle.directory_store.specs.Commits.{CommitsPages, CommitsOne, LogsAndHomes, SettlesCopy};
ghost use Rattle.directory_store.specs.Copies.{AllLogsSettled, AreCopiesApart, AreKept, AreNamedCopies, Earlier, IsKept, IsSettled, MayPutOn};

use crate::due::{Due, due_of};
use asm_base::{Block, DiskSet};
use bay::{Bay, Fault};
use change_directory::{DirCopy, checkpoint, commit};

/// Writes the due pages of a copy home, where there are some, and settles its log slots, where they
/// aren't. The content stays at every moment.
fn settle<B: Bay>(
    bay: &mut B,
    copy: DirCopy,
    due: &[(u32, Block)],
    is_settled: bool,
) -> Result<(), Fault>
    requires copy { IsCopy (B.state bay.old) copy }
    requires pages { IsTrue (are_pages copy.dir_blocks due.now) }
    requires kept { (number : ℕ) × (page : ℕ → Bytes)
        × NowOnly (B.state bay.old) (IsKept copy due.now number page) }
    requires logs { is_settled ≡ true → AreLogsSettled copy (B.state bay.old) }
    ensures { SettlesCopy result copy due.now (B.state bay.old) (B.state bay.new) }
{
    if !due.is_empty() {
        return checkpoint(bay, copy, due);
    }
    if is_settled {
        return Ok(());
    }
    bay.sync(copy.slot)
}

/// Puts pages into the log of a copy without due pages, and then home.
fn log_and_home<B: Bay>(
    bay: &mut B,
    copy: DirCopy,
    number: u64,
    pages: &[(u32, Block)],
) -> Result<(), Fault>
    requires copy { IsCopy (B.state bay.old) copy }
    requires small { number < 2 ^ 64 - 1 }
    requires put { ArePut copy number pages.now }
    requires settled { Earlier number (λ before page. NowOnly (B.state bay.old)
        (IsSettled copy before page)) }
    requires logs { AreLogsSettled copy (B.state bay.old) }
    ensures { LogsAndHomes result copy number pages.now (B.state bay.old) (B.state bay.new) }
{
    commit(bay, copy, number, pages)?;
    checkpoint(bay, copy, pages)
}

/// Commits pages on one copy. At each moment it has the content before or the one after.
fn commit_one<B: Bay>(
    bay: &mut B,
    copy: DirCopy,
    due: &[(u32, Block)],
    is_settled: bool,
    number: u64,
    pages: &[(u32, Block)],
) -> Result<(), Fault>
    requires copy { IsCopy (B.state bay.old) copy }
    requires due { IsTrue (are_pages copy.dir_blocks due.now) }
    requires small { number < 2 ^ 64 - 1 }
    requires put { ArePut copy number pages.now }
    requires kept { Earlier number (λ before page. NowOnly (B.state bay.old)
        (IsKept copy due.now before page)) }
    requires logs { is_settled ≡ true → AreLogsSettled copy (B.state bay.old) }
    ensures { CommitsOne result copy due.now number pages.now (B.state bay.old) (B.state bay.new) }
{
    settle(bay, copy, due, is_settled)?;
    log_and_home(bay, copy, number, pages)
}

/// Commits pages on each of the copies, past faults. Gives the set of the disks that failed. On
/// each of the others the log slots are settled.
pub(crate) fn commit_all<B: Bay>(
    bay: &mut B,
    copies: &[DirCopy],
    dues: &[Due],
    is_settled: bool,
    number: u64,
    pages: &[(u32, Block)],
) -> DiskSet
    requires named { AreNamedCopies copies.now dues.now (B.state bay.old) }
    requires apart { AreCopiesApart copies.now }
    requires small { number < 2 ^ 64 - 1 }
    requires put { MayPutOn copies.now number pages.now }
    requires kept { Earlier number (λ before page. NowOnly (B.state bay.old)
        (AreKept copies.now dues.now before page)) }
    requires logs { is_settled ≡ true → AllLogsSettled copies.now (B.state bay.old) }
    ensures { CommitsPages copies.now dues.now number pages.now result
        (B.state bay.old) (B.state bay.new) }
{
    let [first, rest @ ..] = copies else {
        return DiskSet::empty();
    };
    let due = due_of(dues, first.slot);
    let taken = commit_one(bay, *first, due, is_settled, number, pages);
    let failed = commit_all(bay, rest, dues, is_settled, number, pages);
    match taken {
        Ok(()) => failed,
        Err(Fault) => failed.with(first.number),
    }
}
