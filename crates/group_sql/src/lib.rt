//! The statements of the DISKGROUP language, read.
#![tactic(auto)]

pub use asm_base::{GroupKind, Mode, Name, Text};

mod clauses;
mod creation;
mod disks;
mod options;
mod reading;
mod statement;
mod templates;
mod words;

pub use reading::{ReadError, read_statement};
pub use statement::{
    Attribute, Clause, Disks, DroppedDisk, FailgroupKind, NewDisk, NewFailgroup, Rebalance,
    Statement, TemplateWords,
};
