// A commit: the changed pages are put into the spare log slot.
ghost use Rattle.std.specs.Prelude.{◌≤◌, ◌<◌, ◌+◌, ◌-◌, ◌*◌, ◌^◌, IsTrue, length};
ghost use Rattle.bay.specs.Moments.{NowOnly};
ghost use Rattle.bay.specs.Calls.{Call, ChangesEachImage, cost};
ghost use Rattle.asm_formats.specs.Logs.{head_of_log, is_log_head};
ghost use Rattle.change_directory.specs.Places.{IsCopy};
ghost use Rattle.change_directory.specs.CopyCalls.{LogsCommit};
ghost use Rattle.change_directory.specs.Logs.{AreLogsSettled, log_of};
ghost use Rattle.change_directory.specs.Changes.{IsAtHome, IsAbove, MayLog, HasLogged};

use crate::copy::{DirCopy, log_place};
use crate::head::{LOG_BODY, fill_body};
use crate::spare::spare_slot;
use asm_base::Block;
use bay::{Bay, Fault};
use body_slot::put_settled;

/// Puts changed pages, by their numbers, into the log slot that doesn't hold the content, under a
/// commit number. With its gate the copy has the content with them. A fault leaves the content
/// before or after.
pub fn commit<B: Bay>(
    bay: &mut B,
    copy: DirCopy,
    number: u64,
    pages: &[(u32, Block)],
) -> Result<(), Fault>
    requires copy { IsCopy (B.state bay.old) copy }
    // At most 64 pages, ascending and below the copy's number of them.
    requires pages { IsTrue (is_log_head copy.dir_blocks (head_of_log (log_of number pages.now))) }
    requires above { number < 2 ^ 64 - 1 → NowOnly (B.state bay.old) (IsAbove copy number) }
    // The checkpoint of the open log slots is done, and synced.
    requires home { NowOnly (B.state bay.old) (IsAtHome copy) }
    // So are both log slots.
    requires logs { AreLogsSettled copy (B.state bay.old) }
    ensures { LogsCommit result copy number pages.now (B.state bay.old) (B.state bay.new) }
{
    put_log(bay, copy, number, pages)
}

/// Puts the log of these pages into the spare log slot.
fn put_log<B: Bay>(
    bay: &mut B,
    copy: DirCopy,
    number: u64,
    pages: &[(u32, Block)],
) -> Result<(), Fault>
    requires copy { IsCopy (B.state bay.old) copy }
    requires pages { length pages.now ≤ 64 }
    requires logs { AreLogsSettled copy (B.state bay.old) }
    ensures { Call result copy.slot (MayLog copy number pages.now)
        (ChangesEachImage (HasLogged copy number pages.now))
        (cost 11 (2 * copy.sector + (length pages.now + 1) * 4096))
        (B.state bay.old) (B.state bay.new) }
{
    let log = spare_slot(bay, copy)?;
    let mut body = [0; LOG_BODY];
    fill_body(number, pages, &mut body);
    let blocks = pages.len() + 1;
    let place = log_place(copy, log, blocks as u32);
    put_settled(bay, copy.slot, place, &body[..blocks * 4096])
}
