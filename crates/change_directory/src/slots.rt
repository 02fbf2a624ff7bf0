// The log slots, read.
ghost use Rattle.std.specs.Prelude.{◌≡◌, ◌≤◌, ◌<◌, ◌+◌, ◌*◌, ◌^◌, ◌++◌, ◌∷◌, [], length, map, zip, take, drop, vec_len, IfOk, OnOk};
ghost use Rattle.std.specs.Option.{is_some, option_map};
ghost use Rattle.asm_formats.specs.Logs.{image_in, logged_image};
ghost use Rattle.change_directory.specs.Places.{IsCopy};
ghost use Rattle.asm_base.specs.Blocks.{image_of_page};
ghost use Rattle.change_directory.specs.Loads.{counted_block, newest_slots};
ghost use Rattle.change_directory.specs.Slots.{all_slots, bad_image, blocks_of, has_slots, head_in, logs_of, place_in, slots_of_log};
ghost use Rattle.change_directory.specs.Works.{ReadCall, ToldOver};
ghost use Rattle.change_directory.specs.LoadCalls.{ImagesAreRead, LoadCall, LogIsRead, NoDamage, RestIsRead};

use crate::copy::{DirCopy, LogSlot, gate_block, log_place};
use crate::loading::LoadFault;
use crate::numbers::{head_number, head_pages};
use crate::open_log::{OpenLog, OpenLogs};
use asm_base::{Block, NoMemory};
use bay::{Bay, Fault};
use body_slot::is_open;
use directory_page::is_page;
use disk_blocks::BLOCK;
use std::alloc::Global;

/// The most bytes of the images in a log slot.
const IMAGES: usize = 262_144;

/// Reads a log slot, where its gate is open.
pub(crate) fn read_log<B: Bay>(
    alloc: Global,
    bay: &mut B,
    copy: DirCopy,
    log: LogSlot,
) -> Result<Option<OpenLog>, LoadFault>
    requires { IsCopy (B.state bay.old) copy }
    ensures { LoadCall result copy.slot (LogIsRead copy log) NoDamage 3
        (B.state bay.old) (B.state bay.new) }
{
    match read_head(bay, copy, log)? {
        None => Ok(None),
        Some(head) => {
            let read = read_rest(alloc, bay, copy, log, &head.bytes)?;
            Ok(Some(read))
        }
    }
}

/// Reads the head of a log slot, where its gate is open.
pub(crate) fn read_head<B: Bay>(
    bay: &mut B,
    copy: DirCopy,
    log: LogSlot,
) -> Result<Option<Block>, Fault>
    requires { IsCopy (B.state bay.old) copy }
    ensures { ReadCall result copy.slot
        (λ head. ToldOver (λ image. option_map (λ b. b.bytes) head ≡ head_in copy log image)) 2
        (B.state bay.old) (B.state bay.new) }
{
    if !is_open(bay, copy.slot, log_place(copy, log, 65))? {
        return Ok(None);
    }
    let mut head = [0; 4096];
    let at = (gate_block(copy, log) as u64 + 1) * BLOCK;
    bay.read(copy.slot, at, &mut head)?;
    Ok(Some(Block { bytes: head }))
}

/// Reads what stands behind a head.
fn read_rest<B: Bay>(
    alloc: Global,
    bay: &mut B,
    copy: DirCopy,
    log: LogSlot,
    head: &[u8],
) -> Result<OpenLog, LoadFault>
    requires copy { IsCopy (B.state bay.old) copy }
    requires head { length head.now ≡ 4096 }
    ensures { LoadCall result copy.slot (RestIsRead copy log head.now) NoDamage 1
        (B.state bay.old) (B.state bay.new) }
{
    let gate = gate_block(copy, log) as u64;
    let number = head_number(head);
    let Some(pages) = head_pages(alloc, copy.dir_blocks, head)? else {
        return Ok(OpenLog {
            gate,
            number,
            images: Vec::new(alloc),
            damage: Some(gate + 1),
        });
    };
    let images = read_images(alloc, bay, copy, log, &pages)?;
    let damage = first_bad(gate + 2, &images);
    Ok(OpenLog {
        gate,
        number,
        images,
        damage,
    })
}

/// Reads the images of these pages.
fn read_images<B: Bay>(
    alloc: Global,
    bay: &mut B,
    copy: DirCopy,
    log: LogSlot,
    pages: &[u32],
) -> Result<Vec<(u32, Block)>, LoadFault>
    requires copy { IsCopy (B.state bay.old) copy }
    requires few { length pages.now ≤ 64 }
    ensures { LoadCall result copy.slot (ImagesAreRead copy log pages.now) NoDamage 1
        (B.state bay.old) (B.state bay.new) }
{
    let mut all = [0; IMAGES];
    fill_images(alloc, bay, copy, log, pages, &mut all)
}

/// The same with a buffer for the images.
fn fill_images<B: Bay>(
    alloc: Global,
    bay: &mut B,
    copy: DirCopy,
    log: LogSlot,
    pages: &[u32],
    all: &mut [u8],
) -> Result<Vec<(u32, Block)>, LoadFault>
    requires copy { IsCopy (B.state bay.old) copy }
    requires few { length pages.now ≤ 64 }
    requires room { length all.old ≡ 262144 }
    ensures { LoadCall result copy.slot (ImagesAreRead copy log pages.now) NoDamage 1
        (B.state bay.old) (B.state bay.new) }
{
    let bytes = &mut all[..pages.len() * 4096];
    let at = (gate_block(copy, log) as u64 + 2) * BLOCK;
    bay.read(copy.slot, at, bytes)?;
    let images = images_of(alloc, pages, bytes)?;
    Ok(images)
}

/// Each page with its image, of images that stand one behind the other.
fn images_of(alloc: Global, pages: &[u32], bytes: &[u8]) -> Result<Vec<(u32, Block)>, NoMemory>
    requires { length bytes.now ≡ length pages.now * 4096 }
    ensures images { IfOk result (λ images. map image_of_page images.items
        ≡ zip pages.now (blocks_of (length pages.now) bytes.now)) }
    ensures len { IfOk result (λ images. vec_len images ≡ length pages.now) }
{
    let mut images = Vec::new(alloc);
    for (i, page) in pages.iter().enumerate() {
        let image = block_at(bytes, i);
        push_image(&mut images, *page, image)?;
    }
    Ok(images)
}

fn push_image(images: &mut Vec<(u32, Block)>, page: u32, image: Block) -> Result<(), NoMemory>
    ensures images { OnOk result (map image_of_page images.new.items
        ≡ map image_of_page images.old.items ++ (page, image.bytes) ∷ []) }
    ensures len { OnOk result (vec_len images.new ≡ vec_len images.old + 1) }
{
    images.push((page, image)).map_err(|_| NoMemory)?;
    Ok(())
}

/// A block of several that stand one behind the other.
pub(crate) fn block_at(bytes: &[u8], i: usize) -> Block
    requires { (i + 1) * 4096 ≤ length bytes.now }
    ensures { result.bytes ≡ take 4096 (drop (i * 4096) bytes.now) }
{
    let at = i * 4096;
    let mut block = [0; 4096];
    block.copy_from_slice(&bytes[at..at + 4096]);
    Block { bytes: block }
}

/// The block of the first image that is no page, where the first stands in a block.
#[tactic(auto, unfolding(crate::specs::Slots::bad_image))]
fn first_bad(at: u64, images: &[(u32, Block)]) -> Option<u64>
    requires { at + length images.now < 2 ^ 64 }
    ensures { result ≡ bad_image at (map image_of_page images.now) }
{
    match images {
        [] => None,
        [first, others @ ..] => {
            if is_page(&first.1) {
                first_bad(at + 1, others)
            } else {
                Some(at)
            }
        }
    }
}

/// The image of a page in a log slot, and its block.
#[tactic(auto, using(crate::proofs::SlotLaws::block_is_place, crate::proofs::SlotLaws::image_is_only))]
fn image_in_slot(log: &Option<OpenLog>, page: u32) -> Option<(u64, &Block)>
    ensures block { option_map (λ c. c.0) result ≡ counted_block (slots_of_log log.now) page }
    ensures image { option_map (λ c. c.1.now.bytes) result
        ≡ image_in (logs_of (slots_of_log log.now)) page }
{
    match log {
        None => None,
        Some(log) => image_from(log.gate + 2, &log.images, page),
    }
}

/// The first image of a page, and its block, where the images begin with a block.
fn image_from(at: u64, images: &[(u32, Block)], page: u32) -> Option<(u64, &Block)>
    requires { at + length images.now < 2 ^ 64 }
    ensures block { option_map (λ c. c.0) result ≡ place_in at (map image_of_page images.now) page }
    ensures image { option_map (λ c. c.1.now.bytes) result
        ≡ logged_image (map image_of_page images.now) page }
{
    match images {
        [] => None,
        [first, others @ ..] => {
            if first.0 == page {
                Some((at, &first.1))
            } else {
                image_from(at + 1, others, page)
            }
        }
    }
}

/// The image that counts of a page, and its block.
pub(crate) fn counted_image(logs: &OpenLogs, page: u32) -> Option<(u64, &Block)>
    ensures block { option_map (λ c. c.0) result ≡ counted_block (all_slots logs.now) page }
    ensures image { option_map (λ c. c.1.now.bytes) result
        ≡ image_in (logs_of (all_slots logs.now)) page }
{
    match image_in_slot(&logs.newest, page) {
        Some(image) => Some(image),
        None => image_in_slot(&logs.older, page),
    }
}

/// Two log slots, the greater commit number first, the first where they are equal.
pub(crate) fn in_order(first: Option<OpenLog>, second: Option<OpenLog>) -> OpenLogs
    ensures slots { all_slots result ≡ newest_slots (slots_of_log first ++ slots_of_log second) }
    ensures newest { is_some result.newest ≡ has_slots (all_slots result) }
{
    match (first, second) {
        (None, second) => OpenLogs {
            newest: second,
            older: None,
        },
        (Some(first), None) => OpenLogs {
            newest: Some(first),
            older: None,
        },
        (Some(first), Some(second)) => {
            if first.number < second.number {
                OpenLogs {
                    newest: Some(second),
                    older: Some(first),
                }
            } else {
                OpenLogs {
                    newest: Some(first),
                    older: Some(second),
                }
            }
        }
    }
}
