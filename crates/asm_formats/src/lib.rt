//! The disks of a group on their media: what the bytes of a disk say, from blocks and fields up to
//! its metadata, and the laws of it. All crates that read or write a disk stand on these
//! definitions.
#![tactic(auto)]

pub mod codecs;
pub mod damage;
pub mod follows;
pub mod frames;
pub mod logs;
pub mod pages;
pub mod puts;
pub mod rows;
pub mod writes;
