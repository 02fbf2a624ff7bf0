// Whether the value of a record is one of the format, kind by kind.
ghost use Rattle.std.specs.Prelude.{◌≡◌, ◌≤◌, length, nat_lt};
ghost use Rattle.std.specs.List.{list_all};
ghost use Rattle.std.specs.Int.{w16};
ghost use Rattle.std.specs.Option.{is_some};
ghost use Rattle.asm_base.specs.Readings.{number_reading};
ghost use Rattle.asm_base.specs.asm_formats.Values.{decoded_item};
ghost use Rattle.directory_page.specs.Checks.{Passes, is_all, check_of};
ghost use Rattle.directory_page.specs.Values.{file_check, file_numbers_check, chunk_check, extent_check, disk_check, pending_check, node_check, settings_check, is_marks_value, operation_passes, single_passes, value_passes};

use crate::fields::{
    pass_copies, pass_home, pass_node_kind, pass_pending_kind, pass_stripe, pass_system,
};
use crate::templates::are_templates;
use crate::text::{pass_name, pass_named, pass_text};
use asm_base::{
    CHUNK_LEN, MOST_DISKS, Reader, is_at_end, record_kind, take_u16, take_u32, take_u64,
};

/// Whether the value of a record of these three numbers is one of the format.
#[tactic(auto, using(crate::proofs::DecodingLaws::value_is_decoded))]
pub fn is_value(kind: u16, a: u32, b: u32, bytes: &[u8]) -> bool
    requires { length bytes.now ≤ 4064 }
    ensures { result ≡ is_some (decoded_item (record { kind = kind; a = a; b = b }) bytes.now) }
{
    passes_value(kind, a, b, bytes)
}

fn passes_value(kind: u16, a: u32, b: u32, bytes: &[u8]) -> bool
    requires { length bytes.now ≤ 4064 }
    ensures { result ≡ value_passes kind a b bytes.now }
{
    match kind {
        record_kind::FILES => {
            if b == 0 {
                is_file(bytes)
            } else {
                is_chunk(bytes)
            }
        }
        record_kind::MARKS => b < u32::MAX && are_marks(bytes),
        _ => b == 0 && passes_single(kind, a, bytes),
    }
}

/// The same for the kinds that have one number at most.
fn passes_single(kind: u16, a: u32, bytes: &[u8]) -> bool
    requires { length bytes.now ≤ 4064 }
    ensures { result ≡ single_passes kind a bytes.now }
{
    match kind {
        record_kind::DISKS => a < MOST_DISKS as u32 && is_disk(bytes),
        record_kind::OPERATIONS => is_operation(a, bytes),
        record_kind::TEMPLATES => a == 0 && are_templates(bytes),
        record_kind::NODES => 0 < a && is_node(bytes),
        record_kind::SETTINGS => a == 0 && is_settings(bytes),
        _ => false,
    }
}

/// The active rebalance, or the pending operation.
fn is_operation(a: u32, bytes: &[u8]) -> bool
    requires { length bytes.now ≤ 4064 }
    ensures { result ≡ operation_passes a bytes.now }
{
    match a {
        0 => is_power(bytes),
        1 => is_pending(bytes),
        _ => false,
    }
}

// ---- files

fn is_file(bytes: &[u8]) -> bool
    requires { length bytes.now ≤ 4064 }
    ensures { result ≡ is_all (file_check bytes.now) }
{
    let mut from = Reader { bytes, at: 0 };
    match pass_file(&mut from) {
        Some(()) => is_at_end(&from),
        None => false,
    }
}

#[tactic(auto, unfolding(crate::specs::Values::file_check))]
fn pass_file(from: &mut Reader) -> Option<()>
    ensures { Passes from.new result (file_check from.old) }
{
    pass_copies(from)?;
    pass_stripe(from)?;
    pass_name(from, 30)?;
    pass_file_numbers(from)
}

/// Passes over size, incarnation, system node and alias node.
#[tactic(auto, unfolding(crate::specs::Values::file_numbers_check))]
fn pass_file_numbers(from: &mut Reader) -> Option<()>
    ensures { Passes from.new result (file_numbers_check from.old) }
{
    take_u64(from)?;
    take_u64(from)?;
    pass_system(from)?;
    take_u32(from)?;
    Some(())
}

// ---- chunks

fn is_chunk(bytes: &[u8]) -> bool
    requires { length bytes.now ≤ 4064 }
    ensures { result ≡ is_all (chunk_check bytes.now) }
{
    let mut from = Reader { bytes, at: 0 };
    match pass_extents(&mut from) {
        Some(()) => is_at_end(&from),
        None => false,
    }
}

#[tactic(auto, using(crate::proofs::Passing::times_more, crate::proofs::Passing::times_fails, crate::proofs::Passing::times_done, crate::proofs::Passing::times_start))]
fn pass_extents(from: &mut Reader) -> Option<()>
    ensures { Passes from.new result (chunk_check from.old) }
{
    for i in 0..CHUNK_LEN {
        pass_extent(from)?;
    }
    Some(())
}

#[tactic(auto, unfolding(crate::specs::Values::extent_check, crate::specs::Checks::times))]
fn pass_extent(from: &mut Reader) -> Option<()>
    ensures { Passes from.new result (extent_check from.old) }
{
    pass_home(from)?;
    pass_home(from)?;
    pass_home(from)
}

// ---- disks

fn is_disk(bytes: &[u8]) -> bool
    requires { length bytes.now ≤ 4064 }
    ensures { result ≡ is_all (disk_check bytes.now) }
{
    let mut from = Reader { bytes, at: 0 };
    match pass_disk(&mut from) {
        Some(()) => is_at_end(&from),
        None => false,
    }
}

#[tactic(auto, unfolding(crate::specs::Values::disk_check))]
fn pass_disk(from: &mut Reader) -> Option<()>
    ensures { Passes from.new result (disk_check from.old) }
{
    take_u64(from)?;
    pass_named(from)?;
    pass_named(from)
}

// ---- operations

fn is_power(bytes: &[u8]) -> bool
    requires { length bytes.now ≤ 4064 }
    ensures { result ≡ is_all (check_of (number_reading w16) bytes.now) }
{
    let mut from = Reader { bytes, at: 0 };
    match take_u16(&mut from) {
        Some(_) => is_at_end(&from),
        None => false,
    }
}

fn is_pending(bytes: &[u8]) -> bool
    requires { length bytes.now ≤ 4064 }
    ensures { result ≡ is_all (pending_check bytes.now) }
{
    let mut from = Reader { bytes, at: 0 };
    match pass_pending(&mut from) {
        Some(()) => is_at_end(&from),
        None => false,
    }
}

#[tactic(auto, unfolding(crate::specs::Values::pending_check))]
fn pass_pending(from: &mut Reader) -> Option<()>
    ensures { Passes from.new result (pending_check from.old) }
{
    pass_pending_kind(from)?;
    take_u32(from)?;
    take_u64(from)?;
    Some(())
}

// ---- nodes

fn is_node(bytes: &[u8]) -> bool
    requires { length bytes.now ≤ 4064 }
    ensures { result ≡ is_all (node_check bytes.now) }
{
    let mut from = Reader { bytes, at: 0 };
    match pass_node(&mut from) {
        Some(()) => is_at_end(&from),
        None => false,
    }
}

#[tactic(auto, unfolding(crate::specs::Values::node_check))]
fn pass_node(from: &mut Reader) -> Option<()>
    ensures { Passes from.new result (node_check from.old) }
{
    take_u32(from)?;
    pass_node_kind(from)?;
    take_u32(from)?;
    pass_name(from, 80)
}

// ---- settings

fn is_settings(bytes: &[u8]) -> bool
    requires { length bytes.now ≤ 4064 }
    ensures { result ≡ is_all (settings_check bytes.now) }
{
    let mut from = Reader { bytes, at: 0 };
    match pass_settings(&mut from) {
        Some(()) => is_at_end(&from),
        None => false,
    }
}

#[tactic(auto, unfolding(crate::specs::Values::settings_check))]
fn pass_settings(from: &mut Reader) -> Option<()>
    ensures { Passes from.new result (settings_check from.old) }
{
    take_u64(from)?;
    take_u64(from)?;
    pass_text(from, 30)?;
    pass_text(from, 30)?;
    pass_text(from, 30)
}

// ---- marks

#[tactic(auto, unfolding(crate::specs::Values::is_marks_value))]
fn are_marks(bytes: &[u8]) -> bool
    ensures { result ≡ is_marks_value bytes.now }
{
    bytes.len() == CHUNK_LEN && are_small(bytes)
}

/// At most three copies of an extent are stale.
fn are_small(marks: &[u8]) -> bool
    ensures { result ≡ list_all (λ m. nat_lt m 8) marks.now }
{
    marks.iter().all(|mark| *mark < 8)
}
