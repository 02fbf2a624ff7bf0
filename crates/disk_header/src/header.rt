//! What a header says.

use asm_base::{GroupKind, Name};
use std::marker::Model;

/// What makes a disk a member of a group. Contracts see it as the header of the formats.
#[derive(Debug, Drop)]
pub struct Header {
    /// The group's name, as it was spelt at its creation.
    pub group: Name,
    /// The group's id.
    pub id: u64,
    /// The disk's number in the group, below 64.
    pub number: u8,
    /// The disk's birth number, never used again in the group.
    pub birth: u64,
    pub kind: GroupKind,
    /// The disk's name.
    pub disk: Name,
    /// The name of the disk's failure group.
    pub failgroup: Name,
    /// Whether its failure group is a quorum group.
    pub quorum: bool,
    /// Bytes in an allocation unit.
    pub au_size: u32,
    /// Bytes in a sector.
    pub sector: u32,
    /// Extents of each size.
    pub step: u32,
    /// Record blocks of a directory copy.
    pub dir_blocks: u32,
}

impl Model for Header {
    ghost use Rattle.asm_formats.specs.Header.{Header as FormatHeader};

    ghost Value = { FormatHeader };

    ghost view = { λ h. record { group = h.group; id = h.id; number = h.number; birth = h.birth; disk = h.disk; failgroup = h.failgroup; quorum = h.quorum; shape = record { kind = h.kind; au = h.au_size; sector = h.sector; step = h.step; dir_blocks = h.dir_blocks } } };
}
