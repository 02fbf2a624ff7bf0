// The head of a log slot, read.
ghost use Rattle.std.specs.Prelude.{◌≡◌, ◌≤◌, ◌<◌, ◌+◌, ◌*◌, ◌^◌, ◌++◌, length, drop, flat_map, nat_lt, vec_len, IfOk, IfSome};
ghost use Rattle.std.specs.Int.{w32};
ghost use Rattle.std.specs.List.{list_all};
ghost use Rattle.std.specs.Option.{option_map};
ghost use Rattle.std.specs.Str.{bytes_eq};
ghost use Rattle.asm_formats.specs.Bytes.{number_bytes, number_at, values_at};
ghost use Rattle.asm_formats.specs.Logs.{decoded_log_head, log_head_at, log_head_spelling};
ghost use Rattle.asm_formats.specs.Status.{ascends_from};
ghost use Rattle.asm_base.specs.Cursors.{PutsField};
ghost use Rattle.change_directory.specs.Loads.{are_numbers};
ghost use Rattle.change_directory.specs.Slots.{head_with, is_head_of};

use asm_base::{Block, NoMemory, Writer, finish, put_bytes, put_u32, put_u64};
use std::alloc::Global;

/// The most pages in a head.
const MOST_PAGES: u32 = 64;

/// The numbers of the pages in a head, or None where it isn't one of a copy of so many pages.
pub(crate) fn head_pages(
    alloc: Global,
    dir_blocks: u32,
    head: &[u8],
) -> Result<Option<Vec<u32>>, NoMemory>
    requires { length head.now ≡ 4096 }
    ensures pages { IfOk result (λ read. option_map (λ p. p.items) read
        ≡ option_map (λ h. h.pages) (decoded_log_head dir_blocks head.now)) }
    ensures few { IfOk result (λ read. IfSome read (λ p. vec_len p ≤ 64)) }
{
    let count = head_count(head);
    if count > MOST_PAGES {
        return Ok(None);
    }
    let pages = numbers_at(alloc, count, &head[16..])?;
    if is_head(dir_blocks, head, pages.as_slice()) {
        Ok(Some(pages))
    } else {
        Ok(None)
    }
}

/// Whether a head is the one spelling of its number and these pages, of a copy of so many.
fn is_head(dir_blocks: u32, head: &[u8], pages: &[u32]) -> bool
    requires head { length head.now ≡ 4096 }
    requires few { length pages.now ≤ 64 }
    ensures test { result ≡ is_head_of dir_blocks head.now pages.now }
    ensures fits { (log_head_at head.now).commit < 2 ^ 64 }
{
    let number = head_number(head);
    are_numbers(dir_blocks, pages) && is_spelt(head, number, pages)
}

/// The commit number in a head.
#[tactic(auto, unfolding(asm_formats::specs::Logs::log_head_at, asm_formats::specs::Bytes::number_at))]
pub(crate) fn head_number(head: &[u8]) -> u64
    requires { length head.now ≡ 4096 }
    ensures { result ≡ (log_head_at head.now).commit }
{
    let mut field = [0; 8];
    field.copy_from_slice(&head[4..12]);
    u64::from_be_bytes(field)
}

/// The count of pages in a head.
#[tactic(auto, unfolding(asm_formats::specs::Bytes::number_at))]
fn head_count(head: &[u8]) -> u32
    requires { length head.now ≡ 4096 }
    ensures { result ≡ (number_at w32 (drop 12 head.now)).0 }
{
    let mut field = [0; 4];
    field.copy_from_slice(&head[12..16]);
    u32::from_be_bytes(field)
}

/// So many numbers, one behind the other.
#[tactic(auto, using(crate::proofs::HeadLaws::numbers_more, crate::proofs::HeadLaws::numbers_done))]
fn numbers_at(alloc: Global, count: u32, bytes: &[u8]) -> Result<Vec<u32>, NoMemory>
    requires { 4 * count ≤ length bytes.now }
    ensures value { IfOk result (λ v. v.items ≡ (values_at (number_at w32) count bytes.now).0) }
    ensures len { IfOk result (λ v. vec_len v ≡ count) }
{
    let mut numbers = Vec::new(alloc);
    for i in 0..count {
        let n = number_in(bytes, i);
        numbers.push(n).map_err(|_| NoMemory)?;
    }
    Ok(numbers)
}

#[tactic(auto, unfolding(asm_formats::specs::Bytes::number_at))]
fn number_in(bytes: &[u8], i: u32) -> u32
    requires { 4 * i + 4 ≤ length bytes.now }
    ensures { result ≡ (number_at w32 (drop (4 * i) bytes.now)).0 }
{
    let at = 4 * i as usize;
    let mut field = [0; 4];
    field.copy_from_slice(&bytes[at..at + 4]);
    u32::from_be_bytes(field)
}

/// Whether these are numbers of pages, ascending.
fn are_numbers(dir_blocks: u32, pages: &[u32]) -> bool
    ensures { result ≡ are_numbers dir_blocks pages.now }
{
    ascend_from(0, pages) && are_below(dir_blocks, pages)
}

fn are_below(dir_blocks: u32, pages: &[u32]) -> bool
    ensures { result ≡ list_all (λ p. nat_lt p dir_blocks) pages.now }
{
    pages.iter().all(|page| *page < dir_blocks)
}

fn ascend_from(least: u64, pages: &[u32]) -> bool
    requires { least ≤ 4294967296 }
    ensures { result ≡ ascends_from least pages.now }
{
    match pages {
        [] => true,
        [first, others @ ..] => { least <= *first as u64 && ascend_from(*first as u64 + 1, others) }
    }
}

/// Whether a head is the spelling of a commit number and these pages.
fn is_spelt(head: &[u8], number: u64, pages: &[u32]) -> bool
    requires { length pages.now ≤ 64 }
    ensures { result ≡ bytes_eq head.now (log_head_spelling (head_with number pages.now)) }
{
    let mut block = Block::zeros();
    spell_head(number, pages, &mut block);
    head == block.bytes.as_slice()
}

/// Fills the block with a head.
#[tactic(auto, unfolding(asm_formats::specs::Logs::log_head_spelling))]
fn spell_head(number: u64, pages: &[u32], block: &mut Block)
    requires { length pages.now ≤ 64 }
    ensures { block.new.bytes ≡ log_head_spelling (head_with number pages.now) }
{
    let mut to = Writer { block, at: 0 };
    put_bytes(&mut to, b"ASML");
    put_u64(&mut to, number);
    put_counted(&mut to, pages);
    finish(&mut to);
}

/// Puts a count and as many numbers.
fn put_counted(to: &mut Writer, pages: &[u32])
    requires few { length pages.now ≤ 64 }
    requires room { to.old.at + 4 + 4 * length pages.now ≤ 4096 }
    ensures puts { PutsField to.old to.new (number_bytes w32 (length pages.now)
        ++ flat_map (number_bytes w32) pages.now) }
    ensures at { to.new.at ≡ to.old.at + 4 + 4 * length pages.now }
{
    put_u32(to, pages.len() as u32);
    for page in pages {
        put_u32(to, *page);
    }
}
