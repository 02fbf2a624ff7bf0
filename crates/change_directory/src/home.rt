// A checkpoint: pages are written home.
ghost use Rattle.std.specs.Prelude.{◌≡◌, ◌≤◌, ◌<◌, ◌+◌, ◌*◌, IsTrue, length, take};
ghost use Rattle.bay.specs.Image.{ChangesOnly};
ghost use Rattle.bay.specs.Moments.{NowOnly};
ghost use Rattle.bay.specs.Calls.{Call, Held, cost};
ghost use Rattle.change_directory.specs.Places.{IsCopy};
ghost use Rattle.change_directory.specs.Logs.{are_pages};
ghost use Rattle.change_directory.specs.Homes.{HomesOf, HasHomed, AreDue, is_row, first_number};
ghost use Rattle.change_directory.specs.Works.{DoneSynced};
ghost use Rattle.change_directory.specs.CopyCalls.{BringsHome};

use crate::copy::DirCopy;
use crate::pages::gather;
use asm_base::Block;
use bay::{Bay, Fault};
use disk_blocks::{BLOCK, REGION_START};

/// The most pages in one write.
const RUN_PAGES: usize = 64;

/// The bytes of so many pages.
const RUN_BYTES: usize = 262_144;

/// Writes pages home, and syncs. The content stays at every moment.
pub fn checkpoint<B: Bay>(bay: &mut B, copy: DirCopy, pages: &[(u32, Block)]) -> Result<(), Fault>
    requires copy { IsCopy (B.state bay.old) copy }
    // Ascending, and below the copy's number of pages.
    requires pages { IsTrue (are_pages copy.dir_blocks pages.now) }
    requires due { NowOnly (B.state bay.old) (AreDue copy pages.now) }
    ensures { BringsHome result copy pages.now (B.state bay.old) (B.state bay.new) }
{
    write_synced(bay, copy, pages)
}

/// Writes pages home, and syncs.
fn write_synced<B: Bay>(bay: &mut B, copy: DirCopy, pages: &[(u32, Block)]) -> Result<(), Fault>
    requires copy { IsCopy (B.state bay.old) copy }
    requires pages { IsTrue (are_pages copy.dir_blocks pages.now) }
    ensures { Call result copy.slot (ChangesOnly (HomesOf copy pages.now))
        (DoneSynced copy.slot (HasHomed copy pages.now))
        (cost (length pages.now + 1) (length pages.now * 4096))
        (B.state bay.old) (B.state bay.new) }
{
    write_home(bay, copy, pages)?;
    bay.sync(copy.slot)
}

/// Writes pages home, run by run, and doesn't sync.
fn write_home<B: Bay>(bay: &mut B, copy: DirCopy, pages: &[(u32, Block)]) -> Result<(), Fault>
    requires copy { IsCopy (B.state bay.old) copy }
    requires pages { IsTrue (are_pages copy.dir_blocks pages.now) }
    ensures { Call result copy.slot (ChangesOnly (HomesOf copy pages.now))
        (Held (HasHomed copy pages.now)) (cost (length pages.now) (length pages.now * 4096))
        (B.state bay.old) (B.state bay.new) }
{
    let mut at = 0;
    while at < pages.len() {
        let count = run_len(&pages[at..]);
        write_run(bay, copy, &pages[at..at + count])?;
        at += count;
    }
    Ok(())
}

/// How many pages from the first on stand behind one another at home, at most 64.
fn run_len(pages: &[(u32, Block)]) -> usize
    ensures some { 0 < length pages.now → 0 < result }
    ensures most { result ≤ 64 }
    ensures inside { result ≤ length pages.now }
    ensures row { IsTrue (is_row (first_number pages.now) (take result pages.now)) }
{
    let [first, others @ ..] = pages else {
        return 0;
    };
    1 + row_len(first.0, others)
}

/// How many pages follow a number, at most 63.
fn row_len(before: u32, pages: &[(u32, Block)]) -> usize
    ensures most { result ≤ 63 }
    ensures inside { result ≤ length pages.now }
    ensures row { IsTrue (is_row (before + 1) (take result pages.now)) }
{
    let mut count = 0;
    for page in pages {
        if count + 1 == RUN_PAGES || page.0 as u64 != before as u64 + 1 + count as u64 {
            break;
        }
        count += 1;
    }
    count
}

/// Writes pages that stand behind one another at home.
fn write_run<B: Bay>(bay: &mut B, copy: DirCopy, run: &[(u32, Block)]) -> Result<(), Fault>
    requires copy { IsCopy (B.state bay.old) copy }
    requires few { length run.now ≤ 64 }
    requires row { IsTrue (is_row (first_number run.now) run.now) }
    requires inside { first_number run.now + length run.now ≤ copy.dir_blocks }
    ensures { Call result copy.slot (ChangesOnly (HomesOf copy run.now))
        (Held (HasHomed copy run.now)) (cost 1 (length run.now * 4096))
        (B.state bay.old) (B.state bay.new) }
{
    let mut bytes = [0; RUN_BYTES];
    gather(run, &mut bytes);
    let at = (REGION_START as u64 + first_page(run) as u64) * BLOCK;
    bay.write(copy.slot, at, &bytes[..run.len() * BLOCK as usize])
}

/// The number of the first page, and 0 where there is none.
fn first_page(pages: &[(u32, Block)]) -> u32
    ensures { result ≡ first_number pages.now }
{
    match pages {
        [] => 0,
        [first, ..] => first.0,
    }
}
