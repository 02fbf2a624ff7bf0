//! A file that is to be made.

use asm_base::{Name, Path, Stripe};

/// What is asked of a new file.
#[derive(Debug, Drop)]
pub struct NewFile {
    /// A database, a type and a tag. The file's system name has its number and its incarnation
    /// behind the tag.
    pub path: Path,
    /// Bytes in the file.
    pub size: u64,
    /// What says how many copies it has, and how it is striped.
    pub by: FileBy,
}

/// What says how many copies a new file has, and how it is striped.
#[derive(Debug, Drop)]
pub enum FileBy {
    /// The system template of the file's type.
    System,
    /// The template of this name.
    Template(Name),
    /// The caller: one, two or three copies of each extent, and the stripe.
    Given { copies: u8, stripe: Stripe },
}
