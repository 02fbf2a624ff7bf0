//! What a creation is asked for, and what is known of the groups of the session.

use asm_base::{GroupKind, List, Name};
use new_disks::{Attribute, NewFailgroup};

/// What CREATE DISKGROUP says.
#[derive(Debug, Drop)]
pub struct GroupAsked {
    pub name: Name,
    pub kind: GroupKind,
    /// At least one, each of one disk at least.
    pub groups: List<NewFailgroup>,
    pub attributes: List<Attribute>,
}

/// A disk of a group: the group's id, the disk's number and its birth.
#[derive(Clone, Copy, Debug, PartialEq, Eq)]
pub struct Taken {
    pub id: u64,
    pub number: u8,
    pub birth: u64,
}

/// What is known of the groups of the session.
#[derive(Debug, Drop)]
pub struct Known {
    /// The least id that a new group may have.
    pub floor: u64,
    /// The slots of images that are attached to groups.
    pub held: Vec<u32>,
    /// The disks of the groups' entries, also of groups that are dismounted.
    pub taken: Vec<Taken>,
}
