//! The commands on files: how they come and go, their bytes, and copies.
#![tactic(auto)]

mod copying;
mod files;
mod works;

pub use copying::copy_file;
pub use files::{create_file, drop_file, fill_file, read_file, remove, resize_file, write_file};
