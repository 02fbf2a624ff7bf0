// A load: a directory copy is read whole.
ghost use Rattle.std.specs.Prelude.{◌≡◌, ◌≤◌, ◌<◌, ◌+◌, ◌*◌, ◌/◌, ◌∷◌, [], true, false, length, OnOk, IfErr, IfSome, IsErrOf};
ghost use Rattle.std.specs.Option.{option_or};
ghost use Rattle.asm_formats.specs.Regions.{page_home};
ghost use Rattle.asm_formats.specs.Content.{is_empty_page, is_page};
ghost use Rattle.change_directory.specs.Places.{IsCopy};
ghost use Rattle.change_directory.specs.CopyCalls.{LoadsCopy};
ghost use Rattle.change_directory.specs.Loads.{damaged_block};
ghost use Rattle.change_directory.specs.Slots.{AreTaken, GoesUpTo, IsPageDamage, TakesUpPages, all_slots, blocks_of, damage_of, damaged_page, page_unless_empty, open_log_number};
ghost use Rattle.change_directory.specs.LoadCalls.{Damages, IsPieceDamage, LoadCall, PagesAreRead, TakesPiece, piece_of_pages};
ghost use Rattle.change_directory.specs.declared.loading.LoadFault.TheVariants.{Fault as DiskFault, NoMemory as OutOfMemory};

use crate::copy::{DirCopy, LogSlot};
use crate::open_log::{OpenLog, OpenLogs};
use crate::slots::{block_at, counted_image, in_order, read_log};
use asm_base::{Block, NoMemory};
use bay::{Bay, Fault};
use directory_page::is_page;
use disk_blocks::{BLOCK, REGION_START};
use std::alloc::Global;

/// The most pages that one read takes.
const PIECE_PAGES: u32 = 64;

/// The bytes of so many pages.
const PIECE: usize = 262_144;

/// What was loaded of a copy.
#[derive(Drop)]
pub struct Pages {
    /// The commit number. None where no log slot is open: then there is no content.
    pub number: Option<u64>,
    /// The pages that aren't zeros, by their numbers, ascending.
    pub blocks: Vec<(u32, Block)>,
    /// The pages of the open log slots, ascending, each with the block of its image that counts.
    /// Their checkpoint may have been left out.
    pub due: Vec<(u32, u64)>,
}

/// Why a load is refused.
#[derive(Clone, Copy, Debug, PartialEq, Eq)]
pub enum LoadFault {
    /// A call on the disk failed.
    Fault,
    /// The first block where a page, a log head or a page image must stand and doesn't.
    Damaged { block: u64 },
    NoMemory,
}

impl From<Fault> for LoadFault {
    ghost from_gives = { λ _ e. e ≡ DiskFault };

    fn from(_fault: Fault) -> LoadFault {
        LoadFault::Fault
    }
}

impl From<NoMemory> for LoadFault {
    ghost from_gives = { λ _ e. e ≡ OutOfMemory };

    fn from(_want: NoMemory) -> LoadFault {
        LoadFault::NoMemory
    }
}

/// Reads a copy: its commit number, and its pages with the images of the open log slots in their
/// place. It writes nothing.
pub fn load<B: Bay>(alloc: Global, bay: &mut B, copy: DirCopy) -> Result<Pages, LoadFault>
    requires { IsCopy (B.state bay.old) copy }
    ensures { LoadsCopy result copy (B.state bay.old) (B.state bay.new) }
{
    let first = read_log(alloc, bay, copy, LogSlot::First)?;
    let second = read_log(alloc, bay, copy, LogSlot::Second)?;
    let damage = first_damage(&first, &second);
    let logs = in_order(first, second);
    let pages = load_pages(alloc, bay, copy, &logs)?;
    match damage {
        Some(block) => Err(LoadFault::Damaged { block }),
        None => Ok(pages),
    }
}

/// The first damaged block of two log slots.
fn first_damage(first: &Option<OpenLog>, second: &Option<OpenLog>) -> Option<u64>
    ensures { result ≡ option_or (damage_of first.now) (damage_of second.now) }
{
    damage_in(first).or(damage_in(second))
}

fn damage_in(log: &Option<OpenLog>) -> Option<u64>
    ensures { result ≡ damage_of log.now }
{
    match log {
        None => None,
        Some(log) => log.damage,
    }
}

/// The commit number of the content. None where no log slot is open.
fn number_of(logs: &OpenLogs) -> Option<u64>
    ensures { result ≡ open_log_number logs.now.newest }
{
    match &logs.newest {
        None => None,
        Some(log) => Some(log.number),
    }
}

/// Reads the pages where a log slot is open, with the images of the log slots in their place.
fn load_pages<B: Bay>(
    alloc: Global,
    bay: &mut B,
    copy: DirCopy,
    logs: &OpenLogs,
) -> Result<Pages, LoadFault>
    requires { IsCopy (B.state bay.old) copy }
    ensures { LoadCall result copy.slot (PagesAreRead copy logs.now)
        (Damages (IsPageDamage copy logs.now)) (copy.dir_blocks / 64 + 1)
        (B.state bay.old) (B.state bay.new) }
{
    let mut pages = Pages {
        number: number_of(logs),
        blocks: Vec::new(alloc),
        due: Vec::new(alloc),
    };
    if logs.newest.is_none() {
        return Ok(pages);
    }
    read_pages(bay, copy, logs, &mut pages)?;
    Ok(pages)
}

/// Reads all pages, so many at a time, and takes them up.
fn read_pages<B: Bay>(
    bay: &mut B,
    copy: DirCopy,
    logs: &OpenLogs,
    pages: &mut Pages,
) -> Result<(), LoadFault>
    requires { IsCopy (B.state bay.old) copy }
    ensures { LoadCall result copy.slot
        (λ done. TakesPiece (piece_of_pages copy logs.now 0 copy.dir_blocks) pages.old pages.new)
        (Damages (IsPieceDamage (piece_of_pages copy logs.now 0 copy.dir_blocks)))
        (copy.dir_blocks / 64 + 1) (B.state bay.old) (B.state bay.new) }
{
    let pieces = copy.dir_blocks.div_ceil(PIECE_PAGES);
    for piece in 0..pieces {
        let first = piece * PIECE_PAGES;
        let count = PIECE_PAGES.min(copy.dir_blocks - first);
        read_piece(bay, copy, logs, first, count, pages)?;
    }
    Ok(())
}

/// Reads so many pages from one on, and takes them up.
fn read_piece<B: Bay>(
    bay: &mut B,
    copy: DirCopy,
    logs: &OpenLogs,
    first: u32,
    count: u32,
    pages: &mut Pages,
) -> Result<(), LoadFault>
    requires copy { IsCopy (B.state bay.old) copy }
    requires few { count ≤ 64 }
    requires inside { first + count ≤ copy.dir_blocks }
    ensures { LoadCall result copy.slot
        (λ done. TakesPiece (piece_of_pages copy logs.now first count) pages.old pages.new)
        (Damages (IsPieceDamage (piece_of_pages copy logs.now first count))) 1
        (B.state bay.old) (B.state bay.new) }
{
    let mut all = [0; PIECE];
    fill_piece(bay, copy, logs, first, count, &mut all, pages)
}

/// The same with a buffer for the pages.
fn fill_piece<B: Bay>(
    bay: &mut B,
    copy: DirCopy,
    logs: &OpenLogs,
    first: u32,
    count: u32,
    all: &mut [u8],
    pages: &mut Pages,
) -> Result<(), LoadFault>
    requires copy { IsCopy (B.state bay.old) copy }
    requires few { count ≤ 64 }
    requires inside { first + count ≤ copy.dir_blocks }
    requires room { length all.old ≡ 262144 }
    ensures { LoadCall result copy.slot
        (λ done. TakesPiece (piece_of_pages copy logs.now first count) pages.old pages.new)
        (Damages (IsPieceDamage (piece_of_pages copy logs.now first count))) 1
        (B.state bay.old) (B.state bay.new) }
{
    let bytes = &mut all[..count as usize * 4096];
    let at = (REGION_START as u64 + first as u64) * BLOCK;
    bay.read(copy.slot, at, bytes)?;
    take_pages(first, count, bytes, logs, pages)
}

/// Takes up pages that stand one behind the other, from one on.
fn take_pages(
    first: u32,
    count: u32,
    bytes: &[u8],
    logs: &OpenLogs,
    pages: &mut Pages,
) -> Result<(), LoadFault>
    requires small { first + count ≤ 16384 }
    requires bytes { length bytes.now ≡ count * 4096 }
    ensures taken { OnOk result (AreTaken (all_slots logs.now) first (blocks_of count bytes.now)
        pages.old pages.new) }
    ensures up_to { OnOk result (GoesUpTo (all_slots logs.now) first (first + count) pages.old
        pages.new) }
    ensures damage { IfErr result (λ e. IfSome (damaged_block e)
        (λ block. damaged_page (all_slots logs.now) first (blocks_of count bytes.now)
        ≡ Some block)) }
    ensures no_fault { IsErrOf result LoadFault.Fault → ⊥ }
{
    for i in 0..count {
        let home = block_at(bytes, i as usize);
        take_page(first + i, home, logs, pages)?;
    }
    Ok(())
}

/// Takes up a page by its home, or by its image where a log slot has one.
fn take_page(page: u32, home: Block, logs: &OpenLogs, pages: &mut Pages) -> Result<(), LoadFault>
    requires { page < 16384 }
    ensures taken { OnOk result (AreTaken (all_slots logs.now) page (home.bytes ∷ []) pages.old
        pages.new) }
    ensures damage { IfErr result (λ e. IfSome (damaged_block e)
        (λ block. damaged_page (all_slots logs.now) page (home.bytes ∷ []) ≡ Some block)) }
    ensures no_fault { IsErrOf result LoadFault.Fault → ⊥ }
{
    match counted_image(logs, page) {
        Some((block, image)) => put_image(page, block, image, pages),
        None => put_home(page, home, pages),
    }
}

/// Takes up a page by its image.
fn put_image(page: u32, block: u64, image: &Block, pages: &mut Pages) -> Result<(), LoadFault>
    ensures put { OnOk result (TakesUpPages (page_unless_empty page image.now.bytes)
        ((page, block) ∷ []) pages.old pages.new) }
    ensures no_damage { IfErr result (λ e. e ≡ LoadFault.NoMemory) }
{
    pages.due.push((page, block)).map_err(|_| NoMemory)?;
    let image = Block { bytes: image.bytes };
    put_filled(page, image, pages)
}

/// Takes up a page by its home.
fn put_home(page: u32, home: Block, pages: &mut Pages) -> Result<(), LoadFault>
    requires { page < 16384 }
    ensures put { OnOk result (TakesUpPages (page_unless_empty page home.bytes) [] pages.old
        pages.new) }
    ensures page { OnOk result (is_page home.bytes ≡ true) }
    ensures damage { IfErr result (λ e. IfSome (damaged_block e)
        (λ block. (block ≡ page_home page) × (is_page home.bytes ≡ false))) }
    ensures no_fault { IsErrOf result LoadFault.Fault → ⊥ }
{
    if !is_page(&home) {
        return Err(LoadFault::Damaged {
            block: REGION_START as u64 + page as u64,
        });
    }
    put_filled(page, home, pages)
}

/// Keeps a page that isn't zeros.
fn put_filled(page: u32, block: Block, pages: &mut Pages) -> Result<(), LoadFault>
    ensures put { OnOk result (TakesUpPages (page_unless_empty page block.bytes) [] pages.old
        pages.new) }
    ensures no_damage { IfErr result (λ e. e ≡ LoadFault.NoMemory) }
{
    if is_empty(&block) {
        return Ok(());
    }
    pages.blocks.push((page, block)).map_err(|_| NoMemory)?;
    Ok(())
}

fn is_empty(block: &Block) -> bool
    ensures { result ≡ is_empty_page block.now.bytes }
{
    block.bytes.as_slice() == [0; 4096].as_slice()
}
