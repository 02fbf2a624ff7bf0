// Steps over a disk in memory, which one function plays. One small function owns the disk, so it is
// dropped at one place.
use crate::helpers::{Wrong, power_page};
use bay::Bay;
use bay_mem::MemBay;
use change_directory::{DirCopy, LoadFault, Pages, format, load};
use std::alloc::Global;

/// The copy of 128 pages on the disk of slot 0: its pages begin with block 10, and its log slots
/// with blocks 138 and 204.
const COPY: DirCopy = DirCopy {
    number: 0,
    slot: 0,
    dir_blocks: 128,
    sector: 512,
};

/// What is done to the disk, or what must be found there.
#[derive(Clone, Copy)]
pub enum Step {
    /// Writes a sector of one byte at the beginning of a block.
    Mark(u64, u8),
    /// Writes a block of one byte.
    Fill(u64, u8),
    /// Writes the page of the record of the active rebalance, of a power, at a block.
    Power(u64, u8),
    /// Writes the head of a log slot at a block: a commit number and two pages.
    Head(u64, u8, [u8; 2]),
    /// Puts a log slot of two pages behind a gate, as a commit leaves it: an image of the record of
    /// a power, and zeros.
    Log(u64, u8, [u8; 2], u8),
    Format,
    /// Of the calls that follow, the one with this number fails.
    FailAt(u64),
    /// The first byte of a block is this one.
    Byte(u64, u8),
    /// So many bytes were written.
    Written(u64),
    Loads(Loaded),
}

/// What comes of a load.
#[derive(Clone, Copy, PartialEq)]
pub enum Loaded {
    /// No commit number, no page, and nothing is due.
    Nothing,
    /// The commit number, the number and the power of the only page, and the first of the two that
    /// are due.
    One(u64, u32, u8, u32, u64),
    /// The block that is damaged.
    Damaged(u64),
    Fault,
    Another,
}

fn mark(bay: &mut MemBay, block: u64, byte: u8) -> bool {
    match bay.attach(0, "d0") {
        Ok(size) => {
            size >= 1_105_920 && block < 270 && bay.write(0, block * 4096, &[byte; 512]).is_ok()
        }
        Err(_) => false,
    }
}

fn put(bay: &mut MemBay, block: u64, bytes: &[u8; 4096]) -> bool {
    match bay.attach(0, "d0") {
        Ok(size) => size >= 1_105_920 && block < 270 && bay.write(0, block * 4096, bytes).is_ok(),
        Err(_) => false,
    }
}

fn has_first(bay: &mut MemBay, block: u64, byte: u8) -> bool {
    let mut sector = [0; 512];
    match bay.attach(0, "d0") {
        Ok(size) => {
            size >= 1_105_920
                && block < 270
                && bay.read(0, block * 4096, &mut sector).is_ok()
                && sector[0] == byte
        }
        Err(_) => false,
    }
}

fn format_disk(bay: &mut MemBay) -> bool {
    match bay.attach(0, "d0") {
        Ok(size) => size >= 1_105_920 && format(bay, COPY).is_ok(),
        Err(_) => false,
    }
}

fn log_head(number: u8, pages: [u8; 2]) -> [u8; 4096] {
    let mut head = [0; 4096];
    head[..4].copy_from_slice(b"ASML");
    head[11] = number;
    head[15] = 2;
    head[19] = pages[0];
    head[23] = pages[1];
    head
}

fn put_log(bay: &mut MemBay, gate: u64, number: u8, pages: [u8; 2], power: u8) -> bool {
    put(bay, gate.saturating_add(1), &log_head(number, pages))
        && put(bay, gate.saturating_add(2), &power_page(power))
        && put(bay, gate.saturating_add(3), &[0; 4096])
        && mark(bay, gate, 0xa5)
}

/// What pages tell that hold one and two that are due, if they do.
fn one_of(pages: &Pages) -> Option<Loaded> {
    if pages.blocks.len() != 1 || pages.due.len() != 2 {
        return None;
    }
    let page = &pages.blocks[0];
    let due = pages.due[0];
    let number = pages.number?;
    Some(Loaded::One(number, page.0, page.1.bytes[33], due.0, due.1))
}

fn told_of(pages: &Pages) -> Loaded {
    if pages.number.is_none() && pages.blocks.len() == 0 && pages.due.len() == 0 {
        return Loaded::Nothing;
    }
    match one_of(pages) {
        Some(one) => one,
        None => Loaded::Another,
    }
}

fn told(read: Result<Pages, LoadFault>) -> Loaded {
    match read {
        Ok(pages) => {
            let told = told_of(&pages);
            drop(pages);
            told
        }
        Err(LoadFault::Damaged { block }) => Loaded::Damaged(block),
        Err(LoadFault::Fault) => Loaded::Fault,
        Err(_) => Loaded::Another,
    }
}

fn read_copy(alloc: Global, bay: &mut MemBay) -> Loaded {
    match bay.attach(0, "d0") {
        Ok(size) => {
            if size < 1_105_920 {
                return Loaded::Another;
            }
            told(load(alloc, bay, COPY))
        }
        Err(_) => Loaded::Another,
    }
}

fn fail_at(bay: &mut MemBay, number: u64) -> bool {
    let call = bay.calls().saturating_add(number);
    bay.fail_at(call).is_ok()
}

/// Does a step. Whether it can be done, or this is found.
fn is_right(alloc: Global, bay: &mut MemBay, step: Step) -> bool {
    match step {
        Step::Mark(block, byte) => mark(bay, block, byte),
        Step::Fill(block, byte) => put(bay, block, &[byte; 4096]),
        Step::Power(block, power) => put(bay, block, &power_page(power)),
        Step::Head(block, number, pages) => put(bay, block, &log_head(number, pages)),
        Step::Log(gate, number, pages, power) => put_log(bay, gate, number, pages, power),
        Step::Format => format_disk(bay),
        Step::FailAt(number) => fail_at(bay, number),
        Step::Byte(block, byte) => has_first(bay, block, byte),
        Step::Written(bytes) => bay.written(0) == bytes,
        Step::Loads(wanted) => read_copy(alloc, bay) == wanted,
    }
}

/// Does steps one after the other, up to the first that isn't right. Which one that is.
fn wrong_in(alloc: Global, bay: &mut MemBay, steps: &[Step]) -> Option<usize> {
    for (place, step) in steps.iter().enumerate() {
        if !is_right(alloc, bay, *step) {
            return Some(place);
        }
    }
    None
}

/// Plays a row on a disk of zeros. Fails by its name where a step isn't right.
pub fn play(alloc: Global, name: &'static str, steps: &[Step]) -> Result<(), Wrong> {
    match MemBay::new(alloc, &[Some(1_105_920)]) {
        Ok(mut bay) => {
            let wrong = wrong_in(alloc, &mut bay, steps);
            drop(bay);
            match wrong {
                Some(place) => Err((name, place)),
                None => Ok(()),
            }
        }
        Err(_) => Err(("memory", 0)),
    }
}
