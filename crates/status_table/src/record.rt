//! The status record.

ghost use Rattle.std.specs.Prelude.{◌≡◌, ◌≤◌, length};

use asm_base::{DiskSet, Mode};
use std::marker::Model;

/// One disk of the group. Contracts see it as the entry of the formats.
#[derive(Clone, Copy, Debug)]
pub struct PstEntry {
    /// The disk's number, below 64.
    pub number: u8,
    /// The disk's birth number.
    pub birth: u64,
    pub mode: Mode,
    /// Disks of one failure group have one number here.
    pub failgroup: u8,
    pub quorum: bool,
    /// Units of the disk, reserved ones included.
    pub units: u32,
    /// The second since which the disk is offline.
    pub since: u64,
    /// After how many seconds offline the disk is dropped.
    pub repair: u64,
    pub partners: DiskSet,
}

impl Model for PstEntry {
    ghost use Rattle.asm_formats.specs.Status.{Entry};

    ghost Value = { Entry };

    ghost view = { λ e. record { number = e.number; birth = e.birth; mode = e.mode; failgroup = e.failgroup; quorum = e.quorum; units = e.units; since = e.since; repair = e.repair; partners = e.partners } };

    ghost inverse = { λ e. record { number = e.number; birth = e.birth; mode = e.mode; failgroup = e.failgroup; quorum = e.quorum; units = e.units; since = e.since; repair = e.repair; partners = e.partners } };
}

impl PstEntry {
    ghost use Rattle.status_table.specs.Changes.{blank_entry};

    /// What stands in an array past the entries.
    pub fn blank() -> PstEntry
        ensures { result ≡ blank_entry }
    {
        PstEntry {
            number: 0,
            birth: 0,
            mode: Mode::Offline,
            failgroup: 0,
            quorum: false,
            units: 0,
            since: 0,
            repair: 0,
            partners: DiskSet::empty(),
        }
    }
}

/// What a group's disks are for. Contracts see it as the record of the formats, whose entries are
/// the first `count`.
#[derive(Debug, Drop)]
pub struct PstRecord {
    /// The group's id.
    pub id: u64,
    pub epoch: u64,
    pub turn: u64,
    /// Whether the group was dropped.
    pub gone: bool,
    /// The greatest birth that a disk of the group was given so far.
    pub births: u64,
    /// The disks that hold status records.
    pub holders: DiskSet,
    /// The disks that will hold them, or none.
    pub next_holders: DiskSet,
    /// The disks that hold copies of the directories.
    pub dirs: DiskSet,
    pub count: u8,
    pub entries: [PstEntry; 64],
}

impl Model for PstRecord {
    ghost use Rattle.std.specs.Prelude.{◌≤◌, take};
    ghost use Rattle.asm_formats.specs.Status.{Status};

    ghost Value = { Status };

    ghost view = { λ r. record { id = r.id; epoch = r.epoch; turn = r.turn; gone = r.gone; births = r.births; holders = r.holders; next_holders = r.next_holders; directories = r.dirs; entries = take r.count r.entries } };

    ghost invariant = { λ r. r.count ≤ 64 };
}

impl PstRecord {
    pub fn copy(&self) -> PstRecord
        ensures { result ≡ self.now }
    {
        PstRecord {
            id: self.id,
            epoch: self.epoch,
            turn: self.turn,
            gone: self.gone,
            births: self.births,
            holders: self.holders,
            next_holders: self.next_holders,
            dirs: self.dirs,
            count: self.count,
            entries: self.entries,
        }
    }

    /// The entries by ascending number.
    pub fn entries(&self) -> &[PstEntry]
        ensures entries { result.now ≡ self.now.entries }
        ensures few { length self.now.entries ≤ 64 }
    {
        &self.entries[..self.count as usize]
    }
}
