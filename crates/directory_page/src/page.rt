// Whether a block is a page.
ghost use Rattle.std.specs.Prelude.{◌≡◌, ◌≤◌, length};
ghost use Rattle.std.specs.Option.{is_some, option_copied};
ghost use Rattle.asm_base.specs.asm_formats.Content.{is_empty_page, is_page};
ghost use Rattle.asm_base.specs.asm_formats.Records.{decoded_record};
ghost use Rattle.asm_base.specs.Frames.{head_reading};
ghost use Rattle.directory_page.specs.Frames.{is_framed, value_in};

use crate::values::is_value;
use asm_base::{Block, MOST_VALUE, Reader, are_zeros, take_record_head};

/// Whether a block is a page of a directory copy: zeros, or the one spelling of a record.
pub fn is_page(block: &Block) -> bool
    ensures { result ≡ is_page block.now.bytes }
{
    are_page(&block.bytes)
}

#[tactic(auto, using(crate::proofs::PageLaws::filled_page, crate::proofs::PageLaws::empty_page))]
fn are_page(bytes: &[u8]) -> bool
    requires { length bytes.now ≡ 4096 }
    ensures { result ≡ is_page bytes.now }
{
    is_empty(bytes) || is_record(bytes)
}

/// Whether a page holds no record.
fn is_empty(bytes: &[u8]) -> bool
    ensures { result ≡ is_empty_page bytes.now }
{
    bytes == [0; 4096].as_slice()
}

#[tactic(auto, using(crate::proofs::PageLaws::record_is_framed))]
fn is_record(bytes: &[u8]) -> bool
    requires { length bytes.now ≡ 4096 }
    ensures { result ≡ is_some (decoded_record bytes.now) }
{
    passes_record(bytes)
}

fn passes_record(bytes: &[u8]) -> bool
    requires { length bytes.now ≡ 4096 }
    ensures { result ≡ is_framed (head_reading bytes.now) }
{
    let mut from = Reader { bytes, at: 0 };
    let Some((key, len)) = take_record_head(&mut from) else {
        return false;
    };
    let Some(value) = value_in(&from.bytes[from.at as usize..], len) else {
        return false;
    };
    is_value(key.kind, key.a, key.b, value)
}

/// The value of a length, where only zeros stand behind it.
fn value_in(rest: &[u8], len: u16) -> Option<&[u8]>
    ensures { option_copied result ≡ value_in len rest.now }
{
    let len = len as usize;
    if len > MOST_VALUE || rest.len() < len || !are_zeros(&rest[len..]) {
        return None;
    }
    Some(&rest[..len])
}
