// Which log slot the next commit writes.
ghost use Rattle.std.specs.Prelude.{◌≡◌};
ghost use Rattle.change_directory.specs.Places.{IsCopy};
ghost use Rattle.change_directory.specs.Logs.{open_number, spare_of, spare_in};
ghost use Rattle.change_directory.specs.Works.{ReadCall, TellsNow};

use crate::copy::{DirCopy, LogSlot};
use crate::numbers::head_number;
use crate::slots::read_head;
use bay::{Bay, Fault};

/// The log slot that doesn't hold the content.
pub(crate) fn spare_slot<B: Bay>(bay: &mut B, copy: DirCopy) -> Result<LogSlot, Fault>
    requires { IsCopy (B.state bay.old) copy }
    ensures { ReadCall result copy.slot (λ log. TellsNow (λ image. log ≡ spare_in copy image)) 4
        (B.state bay.old) (B.state bay.new) }
{
    let first = open_number(bay, copy, LogSlot::First)?;
    let second = open_number(bay, copy, LogSlot::Second)?;
    Ok(spare_of(first, second))
}

/// The log slot that doesn't hold the content, by the commit numbers of those that are open.
fn spare_of(first: Option<u64>, second: Option<u64>) -> LogSlot
    ensures { result ≡ spare_of first second }
{
    match (first, second) {
        (None, _) => LogSlot::First,
        (Some(_), None) => LogSlot::Second,
        (Some(first), Some(second)) => {
            if first < second {
                LogSlot::First
            } else {
                LogSlot::Second
            }
        }
    }
}

/// The commit number of a log slot that is open.
fn open_number<B: Bay>(bay: &mut B, copy: DirCopy, log: LogSlot) -> Result<Option<u64>, Fault>
    requires { IsCopy (B.state bay.old) copy }
    ensures { ReadCall result copy.slot
        (λ number. TellsNow (λ image. number ≡ open_number copy log image)) 2
        (B.state bay.old) (B.state bay.new) }
{
    match read_head(bay, copy, log)? {
        None => Ok(None),
        Some(head) => Ok(Some(head_number(&head.bytes))),
    }
}
