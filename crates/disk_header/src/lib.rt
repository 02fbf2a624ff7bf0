//! The header of a disk, which makes it a member of a group, and its one spelling in a block.
#![tactic(auto)]

pub use asm_base::{Block, NoMemory, Shape};
pub use disk_blocks::{BLOCK, LEAST_SIZE};

mod header;
mod reading;
mod writing;

pub use header::Header;
pub use reading::{decode, is_header};
pub use writing::encode;
