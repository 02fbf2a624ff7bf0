//! Disks of a group, and disks that are to join one.

use group_sql::{Mode, Name, Text};
use std::marker::Model;

/// A disk of a group as reports have it. Contracts see it as the world's row.
#[derive(Debug, Drop)]
pub struct DiskRow {
    pub number: u8,
    pub mode: Mode,
    /// The name of its failure group.
    pub failgroup: Name,
    /// Whether that is a quorum failure group.
    pub quorum: bool,
    /// In units.
    pub total: u64,
    /// In units.
    pub free: u64,
    pub name: Name,
}

impl Model for DiskRow {
    ghost use Rattle.asm_world.specs.Reports.{DiskRow as WorldRow};

    ghost Value = { WorldRow };

    ghost view = { λ d. record { number = d.number; mode = d.mode; failgroup = d.failgroup; quorum = d.quorum; total = d.total; free = d.free; name = d.name } };
}

/// A disk that is to join a group. Contracts see it as the world's.
#[derive(Debug, Drop)]
pub struct PlannedDisk {
    pub path: Text,
    pub name: Name,
    /// The name of its failure group.
    pub failgroup: Name,
    /// Whether that is a quorum failure group.
    pub quorum: bool,
}

impl Model for PlannedDisk {
    ghost use Rattle.asm_world.specs.NewDisks.{PlannedDisk as WorldDisk};

    ghost Value = { WorldDisk };

    ghost view = { λ d. record { path = d.path; name = d.name; failgroup = d.failgroup; quorum = d.quorum } };
}
