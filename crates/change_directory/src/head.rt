// The body of a log slot: its head and its images, one behind the other.
ghost use Rattle.std.specs.Prelude.{◌≡◌, ◌≤◌, ◌+◌, ◌*◌, ◌++◌, length, take, flat_map};
ghost use Rattle.std.specs.Int.{w32};
ghost use Rattle.asm_formats.specs.Bytes.{number_bytes};
ghost use Rattle.asm_formats.specs.Logs.{head_of_log, log_head_spelling};
ghost use Rattle.asm_base.specs.Cursors.{PutsField};
ghost use Rattle.change_directory.specs.Logs.{bytes_of_page, log_of, log_body, number_field};

use crate::pages::gather;
use asm_base::{Block, Writer, finish, put_bytes, put_u32, put_u64};

/// The most bytes in the body of a log slot: its head and 64 images.
pub(crate) const LOG_BODY: usize = 266_240;

/// Puts the body of the log of these pages.
pub(crate) fn fill_body(number: u64, pages: &[(u32, Block)], to: &mut [u8])
    requires few { length pages.now ≤ 64 }
    requires room { length to.old ≡ 266240 }
    ensures { take ((length pages.now + 1) * 4096) to.new ≡ log_body (log_of number pages.now) }
{
    let mut head = Block::zeros();
    encode_head(number, pages, &mut head);
    put_body(&head.bytes, pages, to);
}

/// Puts a head, and pages behind it.
fn put_body(head: &[u8], pages: &[(u32, Block)], to: &mut [u8])
    requires head { length head.now ≡ 4096 }
    requires room { (length pages.now + 1) * 4096 ≤ length to.old }
    ensures { take ((length pages.now + 1) * 4096) to.new
        ≡ head.now ++ flat_map bytes_of_page pages.now }
{
    let (front, rest) = to.split_at_mut(4096);
    front.copy_from_slice(head);
    gather(pages, rest);
}

/// Fills the block with the head of the log of these pages.
#[tactic(auto, using(crate::proofs::Gathering::head_is_fields))]
fn encode_head(number: u64, pages: &[(u32, Block)], block: &mut Block)
    requires { length pages.now ≤ 64 }
    ensures { block.new.bytes ≡ log_head_spelling (head_of_log (log_of number pages.now)) }
{
    let mut to = Writer { block, at: 0 };
    put_bytes(&mut to, b"ASML");
    put_u64(&mut to, number);
    put_numbers(&mut to, pages);
    finish(&mut to);
}

/// Puts the count and the numbers of pages.
fn put_numbers(to: &mut Writer, pages: &[(u32, Block)])
    requires few { length pages.now ≤ 64 }
    requires room { to.old.at + 4 + 4 * length pages.now ≤ 4096 }
    ensures puts { PutsField to.old to.new (number_bytes w32 (length pages.now)
        ++ flat_map number_field pages.now) }
    ensures at { to.new.at ≡ to.old.at + 4 + 4 * length pages.now }
{
    put_u32(to, pages.len() as u32);
    for page in pages {
        put_u32(to, page.0);
    }
}
