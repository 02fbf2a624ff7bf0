// A format: both log slots are closed, and the pages are zeroed.
ghost use Rattle.std.specs.Prelude.{◌≡◌, ◌<◌, ◌+◌, ◌*◌, ◌/◌, length, get_or, ℕ};
ghost use Rattle.bay.specs.Image.{ChangesOnly};
ghost use Rattle.bay.specs.Moments.{Ends};
ghost use Rattle.bay.specs.Calls.{Call, ChangesEachImage, Held, cost};
ghost use Rattle.change_directory.specs.Places.{IsCopy, HomesAt};
ghost use Rattle.change_directory.specs.Formatting.{HasShutSpare, HasShut, HasFormatted, Zeroes, ShutsSafely, FormatsSafely};
ghost use Rattle.change_directory.specs.Works.{DoneSynced};
ghost use Rattle.change_directory.specs.CopyCalls.{FormatsCopy};

use crate::copy::{DirCopy, LogSlot, log_place, other_slot};
use crate::spare::spare_slot;
use bay::{Bay, Fault};
use body_slot::close_gate;
use disk_blocks::{BLOCK, LEAST_SIZE, LOG_BLOCKS};

/// The most bytes that one write of zeros takes.
const PIECE: usize = 262_144;

/// The blocks behind the gate of a log slot.
const LOG_BODY: u32 = LOG_BLOCKS - 1;

/// Takes a copy's content away: closes the log slot of the smaller commit number and then the other
/// one, and zeroes all pages. The content stays until it is gone.
pub fn format<B: Bay>(bay: &mut B, copy: DirCopy) -> Result<(), Fault>
    requires { IsCopy (B.state bay.old) copy }
    ensures { FormatsCopy result copy (B.state bay.old) (B.state bay.new) }
{
    erase(bay, copy)
}

/// Closes both log slots, and zeroes all pages.
fn erase<B: Bay>(bay: &mut B, copy: DirCopy) -> Result<(), Fault>
    requires { IsCopy (B.state bay.old) copy }
    ensures { Call result copy.slot (FormatsSafely copy)
        (DoneSynced copy.slot (HasFormatted copy))
        (cost ((copy.dir_blocks * 4096) / 262144 + 14) (2 * copy.sector + copy.dir_blocks * 4096))
        (B.state bay.old) (B.state bay.new) }
{
    close_logs(bay, copy)?;
    zero_pages(bay, copy)
}

/// Closes the log slot that doesn't hold the content, and then the other one.
fn close_logs<B: Bay>(bay: &mut B, copy: DirCopy) -> Result<(), Fault>
    requires { IsCopy (B.state bay.old) copy }
    ensures { Call result copy.slot (ShutsSafely copy) (ChangesEachImage (HasShut copy))
        (cost 12 (2 * copy.sector)) (B.state bay.old) (B.state bay.new) }
{
    let spare = close_spare(bay, copy)?;
    let other = other_slot(spare);
    close_gate(bay, copy.slot, log_place(copy, other, LOG_BODY))
}

/// Closes the log slot that doesn't hold the content, and tells which it is.
fn close_spare<B: Bay>(bay: &mut B, copy: DirCopy) -> Result<LogSlot, Fault>
    requires { IsCopy (B.state bay.old) copy }
    ensures { Call result copy.slot (ShutsSafely copy) (λ log. Ends (HasShutSpare copy log))
        (cost 8 copy.sector) (B.state bay.old) (B.state bay.new) }
{
    let spare = spare_slot(bay, copy)?;
    close_gate(bay, copy.slot, log_place(copy, spare, LOG_BODY))?;
    Ok(spare)
}

/// Zeroes all pages, and syncs.
fn zero_pages<B: Bay>(bay: &mut B, copy: DirCopy) -> Result<(), Fault>
    requires { IsCopy (B.state bay.old) copy }
    ensures { Call result copy.slot (ChangesOnly (HomesAt copy))
        (DoneSynced copy.slot (Zeroes copy (copy.dir_blocks * 4096)))
        (cost ((copy.dir_blocks * 4096) / 262144 + 2) (copy.dir_blocks * 4096))
        (B.state bay.old) (B.state bay.new) }
{
    let zeros = [0; PIECE];
    zero_with(bay, copy, &zeros)?;
    bay.sync(copy.slot)
}

/// Writes zeros over all pages, so many at a time.
fn zero_with<B: Bay>(bay: &mut B, copy: DirCopy, zeros: &[u8]) -> Result<(), Fault>
    requires copy { IsCopy (B.state bay.old) copy }
    requires piece { length zeros.now ≡ 262144 }
    requires zeros { (k : ℕ) → k < length zeros.now → get_or zeros.now k 0 ≡ 0 }
    ensures { Call result copy.slot (ChangesOnly (HomesAt copy))
        (Held (Zeroes copy (copy.dir_blocks * 4096)))
        (cost ((copy.dir_blocks * 4096) / 262144 + 1) (copy.dir_blocks * 4096))
        (B.state bay.old) (B.state bay.new) }
{
    let len = copy.dir_blocks as usize * BLOCK as usize;
    let pieces = len.div_ceil(PIECE);
    for piece in 0..pieces {
        let done = piece * PIECE;
        let count = PIECE.min(len - done);
        bay.write(copy.slot, LEAST_SIZE + done as u64, &zeros[..count])?;
    }
    Ok(())
}
