//! The small types that the crates of a disk group share, and the fields of its bodies and records.
#![tactic(auto)]

mod block;
mod cursor;
mod disk_set;
mod frame;
mod kinds;
mod list;
mod name;
mod path;
pub mod record_kind;
mod records;

pub use block::Block;
pub use cursor::{
    Reader, Writer, are_zeros, finish, has_only_zeros, is_at_end, put_bytes, put_flag, put_set,
    put_u8, put_u16, put_u32, put_u64, put_zeros, take_fixed, take_flag, take_set, take_u8,
    take_u16, take_u32, take_u64,
};
pub use disk_set::DiskSet;
pub use frame::{MOST_VALUE, decode_record, encode_record, take_record_head};
pub use kinds::{
    CHUNK_LEN, ExtentId, FileNo, GroupKind, Home, Homes, LEAST_USER_UNITS, MOST_DISKS, MOST_UNITS,
    Mode, NoMemory, NodeKind, PendingKind, Redundancy, Shape, Span, Stripe, is_dir_blocks, is_step,
    is_unit_size,
};
pub use list::{List, Text};
pub use name::{
    Name, folded_byte, is_name, is_part, put_name, put_text, take_name, take_text, text_in,
};
pub use path::Path;
pub use records::{
    Change, Key, PENDING_KEY, REBALANCE_KEY, Records, SETTINGS_KEY, TEMPLATES_KEY, Value,
};
