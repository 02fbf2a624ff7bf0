// What four disks stand for, read by the formats alone, not by the program's own way.
use crate::trials::deeds::File;
use crate::trials::disks::Disks;
use crate::trials::world::World;

/// Which of the four disks can be read.
pub type Present = [bool; 4];

const DIR_BLOCKS: usize = 128;

/// The first block of the pages.
const FIRST_PAGE: usize = 10;

/// The gates of the two log slots.
const LOGS: [usize; 2] = [138, 204];

/// A number of `len` bytes at a place, 0 where they aren't there.
pub fn number(bytes: &[u8], at: usize, len: usize) -> u64 {
    let mut value = 0u64;
    for byte in bytes.iter().skip(at).take(len) {
        value = value.wrapping_mul(256).wrapping_add(*byte as u64);
    }
    value
}

/// Whether a set has a number.
pub fn has(set: u64, number: usize) -> bool {
    number < 64 && set >> number & 1 == 1
}

// The body behind a gate, where it is open.
fn body(disks: &Disks, slot: usize, gate: usize) -> Option<&[u8]> {
    if disks.page(slot, gate)?.first() == Some(&0xA5) {
        disks.page(slot, gate.saturating_add(1))
    } else {
        None
    }
}

/// Whether the disk of a slot is a member of the group. In the script the disk of a slot has its
/// number.
pub fn is_member(disks: &Disks, slot: usize) -> bool {
    match body(disks, slot, 0) {
        Some(header) => header.starts_with(b"ASMH\x02\x04DATA")
            && number(header, 44, 1) == slot as u64,
        None => false,
    }
}

/// A status record, by its body.
#[derive(Clone, Copy)]
pub struct Status<'a> {
    body: &'a [u8],
}

impl<'a> Status<'a> {
    fn order(&self) -> (u64, u64) {
        (number(self.body, 14, 8), number(self.body, 22, 8))
    }

    pub fn holders(&self) -> u64 {
        number(self.body, 39, 8)
    }

    pub fn next_holders(&self) -> u64 {
        number(self.body, 47, 8)
    }

    /// The disks that have a directory copy which counts.
    pub fn copies(&self) -> u64 {
        number(self.body, 55, 8)
    }

    /// The mode of a disk, from 1 on: Online, Offline, Syncing, Dropping, Forced. 0 where the disk
    /// has no entry.
    pub fn mode(&self, disk: usize) -> u64 {
        for place in 0..4usize {
            let at = 64 + place * 40;
            let is_there = (place as u64) < number(self.body, 63, 1);
            if is_there && number(self.body, at, 1) == disk as u64 {
                return number(self.body, at + 9, 1);
            }
        }
        0
    }
}

// The greater of two records.
fn greater<'a>(first: Option<Status<'a>>, second: Option<Status<'a>>) -> Option<Status<'a>> {
    match (first, second) {
        (Some(a), Some(b)) if a.order() < b.order() => Some(b),
        (Some(a), _) => Some(a),
        (None, other) => other,
    }
}

// The record of a status slot.
fn record_in(disks: &Disks, slot: usize, gate: usize) -> Option<Status<'_>> {
    let body = body(disks, slot, gate)?;
    if body.starts_with(b"ASMP") {
        Some(Status { body })
    } else {
        None
    }
}

/// The greatest record on the members that can be read.
pub fn read_status(disks: &Disks, present: Present) -> Option<Status<'_>> {
    let mut found = None;
    for (slot, is_there) in present.iter().enumerate() {
        if *is_there && is_member(disks, slot) {
            found = greater(found, record_in(disks, slot, 6));
            found = greater(found, record_in(disks, slot, 8));
        }
    }
    found
}

/// How many members of a set can be read, and how many are a majority of it.
fn majority(disks: &Disks, present: Present, set: u64) -> (u64, u64) {
    let mut seen = 0u64;
    let mut all = 0u64;
    for (slot, is_there) in present.iter().enumerate() {
        if has(set, slot) {
            all = all.saturating_add(1);
            if *is_there && is_member(disks, slot) {
                seen = seen.saturating_add(1);
            }
        }
    }
    (seen, all / 2 + 1)
}

/// What a forced mount of the disks that can be read must answer.
#[derive(Clone, Copy, Debug, PartialEq, Eq)]
pub enum Answer {
    Ok,
    NoGroup,
    NoMajority(u64, u64),
    DirectoriesLost,
}

// The commit number of a log slot that is open, and its head.
fn log(disks: &Disks, slot: usize, gate: usize) -> Option<(u64, &[u8])> {
    let head = body(disks, slot, gate)?;
    Some((number(head, 4, 8), head))
}

/// The commit number of a directory copy, where it has a content.
pub fn commit(disks: &Disks, slot: usize) -> Option<u64> {
    let first = log(disks, slot, LOGS[0]);
    let second = log(disks, slot, LOGS[1]);
    match (first, second) {
        (Some((a, _)), Some((b, _))) => Some(a.max(b)),
        (Some((a, _)), None) => Some(a),
        (None, Some((b, _))) => Some(b),
        (None, None) => None,
    }
}

/// The disk whose directories count: of the copies that can be read and that the record names, that
/// of the greatest commit.
pub fn directories(disks: &Disks, present: Present, status: Status<'_>) -> Option<usize> {
    let mut best: Option<(usize, u64)> = None;
    for (slot, is_there) in present.iter().enumerate() {
        if *is_there && is_member(disks, slot) && has(status.copies(), slot) {
            best = match (best, commit(disks, slot)) {
                (Some((_, most)), Some(found)) if found > most => Some((slot, found)),
                (None, Some(found)) => Some((slot, found)),
                (kept, _) => kept,
            };
        }
    }
    best.map(|(slot, _)| slot)
}

/// What a forced mount must answer.
pub fn due_answer(disks: &Disks, present: Present) -> Answer {
    let mut is_there = false;
    for (slot, can_be_read) in present.iter().enumerate() {
        is_there = is_there || (*can_be_read && is_member(disks, slot));
    }
    if !is_there {
        return Answer::NoGroup;
    }
    let Some(status) = read_status(disks, present) else {
        return Answer::NoMajority(0, 1);
    };
    let (seen, need) = majority(disks, present, status.holders());
    if seen < need {
        return Answer::NoMajority(seen, need);
    }
    let (seen, need) = majority(disks, present, status.next_holders());
    if status.next_holders() != 0 && seen < need {
        return Answer::NoMajority(seen, need);
    }
    match directories(disks, present, status) {
        Some(_) => Answer::Ok,
        None => Answer::DirectoriesLost,
    }
}

// The image of a page in a log slot, where it has one.
fn image_in(disks: &Disks, slot: usize, gate: usize, page: usize) -> Option<&[u8]> {
    let (_, head) = log(disks, slot, gate)?;
    let count = number(head, 12, 4).min(64) as usize;
    for place in 0..count {
        if number(head, 16 + place * 4, 4) == page as u64 {
            return disks.page(slot, gate.saturating_add(2).saturating_add(place));
        }
    }
    None
}

fn log_number(disks: &Disks, slot: usize, gate: usize) -> u64 {
    match log(disks, slot, gate) {
        Some((number, _)) => number,
        None => 0,
    }
}

// A page of a copy: its image in the log slot of the greater commit, or in the other, or as it
// stands at home.
fn page(disks: &Disks, slot: usize, page: usize) -> Option<&[u8]> {
    let is_swapped = log_number(disks, slot, LOGS[1]) > log_number(disks, slot, LOGS[0]);
    let (later, earlier) = if is_swapped {
        (LOGS[1], LOGS[0])
    } else {
        (LOGS[0], LOGS[1])
    };
    if let Some(image) = image_in(disks, slot, later, page) {
        return Some(image);
    }
    if let Some(image) = image_in(disks, slot, earlier, page) {
        return Some(image);
    }
    disks.page(slot, FIRST_PAGE + page.min(DIR_BLOCKS))
}

/// The key of a record of directories.
#[derive(Clone, Copy, Debug, PartialEq, Eq)]
pub struct Record {
    pub kind: u64,
    pub a: u64,
    pub b: u64,
}

/// The value of a record in the directories of a disk.
pub fn value(disks: &Disks, slot: usize, record: Record) -> Option<&[u8]> {
    for place in 0..DIR_BLOCKS {
        if let Some(bytes) = page(disks, slot, place) {
            let is_it = bytes.starts_with(b"ASMR")
                && number(bytes, 4, 2) == record.kind
                && number(bytes, 6, 4) == record.a
                && number(bytes, 10, 4) == record.b;
            if is_it {
                return bytes.get(32..);
            }
        }
    }
    None
}

/// A file's number.
pub fn file_number(file: File) -> u64 {
    match file {
        File::U => 256,
        File::V => 257,
    }
}

/// The directories of a group and its record, as they can be read.
#[derive(Clone, Copy)]
pub struct Group<'a> {
    pub disks: &'a Disks,
    pub present: Present,
    pub status: Status<'a>,
    pub copy: usize,
}

/// A copy of an extent.
#[derive(Clone, Copy, Debug, PartialEq, Eq)]
pub struct Copy {
    pub disk: usize,
    pub unit: usize,
    pub number: usize,
}

impl<'a> Group<'a> {
    /// The group on the disks that can be read, where they are enough.
    pub fn on(disks: &'a Disks, present: Present) -> Option<Group<'a>> {
        if due_answer(disks, present) != Answer::Ok {
            return None;
        }
        let status = read_status(disks, present)?;
        let copy = directories(disks, present, status)?;
        Some(Group {
            disks,
            present,
            status,
            copy,
        })
    }

    fn head(&self, file: File) -> Option<&'a [u8]> {
        value(
            self.disks,
            self.copy,
            Record {
                kind: 1,
                a: file_number(file),
                b: 0,
            },
        )
    }

    /// The homes of a file's first extents.
    pub fn chunk(&self, file: File) -> Option<&'a [u8]> {
        value(
            self.disks,
            self.copy,
            Record {
                kind: 1,
                a: file_number(file),
                b: 1,
            },
        )
    }

    /// The stale marks of a file's first extents.
    pub fn marks(&self, file: File) -> Option<&'a [u8]> {
        value(
            self.disks,
            self.copy,
            Record {
                kind: 12,
                a: file_number(file),
                b: 0,
            },
        )
    }

    /// Whether the directories have the file as a world has it: with its size, its incarnation and
    /// its names.
    fn agrees_on(&self, world: &World<'_>, file: File) -> bool {
        match self.head(file) {
            Some(head) => {
                let is_named = number(head, 49, 4) != 0;
                let has_alias = number(head, 53, 4) != 0;
                world.has(file)
                    && number(head, 33, 8) == 40_960
                    && number(head, 41, 8) == file_number(file).saturating_sub(255)
                    && is_named
                    && has_alias == (file == File::U && world.has_alias())
            }
            None => !world.has(file),
        }
    }

    /// Whether a copy is current: its disk is a member that wasn't dropped by force, and it bears
    /// no mark.
    pub fn is_current(&self, marks: &[u8], index: usize, copy: Copy) -> bool {
        let mode = self.status.mode(copy.disk);
        let marked = number(marks, index, 1);
        mode != 0 && mode != 5 && is_member(self.disks, copy.disk) && !has(marked, copy.number)
    }

    /// Whether a copy is usable: it is current, and its disk can be read and serves.
    pub fn is_usable(&self, marks: &[u8], index: usize, copy: Copy) -> bool {
        let mode = self.status.mode(copy.disk);
        self.is_current(marks, index, copy)
            && self.present.get(copy.disk) == Some(&true)
            && (mode == 1 || mode == 3 || mode == 4)
    }

    // The disks that have a usable copy of an extent, as a set.
    fn usable_among(&self, chunk: &[u8], marks: &[u8], index: usize) -> u64 {
        let mut found = 0u64;
        for place in 0..3usize {
            if let Some(copy) = copy_in(chunk, index, place) {
                if copy.disk < 4 && self.is_usable(marks, index, copy) {
                    found |= 1u64 << copy.disk;
                }
            }
        }
        found
    }

    /// The disks that have a usable copy of an extent, as a set.
    pub fn usable(&self, file: File, index: usize) -> u64 {
        match (self.chunk(file), self.marks(file)) {
            (Some(chunk), Some(marks)) => self.usable_among(chunk, marks, index),
            _ => 0,
        }
    }

    // Whether a current copy of an extent has the bytes that a world asks for.
    fn copy_holds(&self, world: &World<'_>, file: File, index: usize, copy: Copy) -> bool {
        for sector in 0..8usize {
            let byte = match self.disks.page(copy.disk, copy.unit) {
                Some(page) => same_byte(page, sector * 512, 512),
                None => Some(0),
            };
            if !holds(
                world,
                file,
                index.saturating_mul(8).saturating_add(sector),
                byte,
            ) {
                return false;
            }
        }
        true
    }

    // Whether all current copies of a file hold the bytes that a world asks for.
    fn file_holds(&self, world: &World<'_>, file: File) -> bool {
        let (Some(chunk), Some(marks)) = (self.chunk(file), self.marks(file)) else {
            return false;
        };
        for index in 0..10usize {
            for place in 0..3usize {
                if let Some(copy) = copy_in(chunk, index, place) {
                    let is_right = !self.is_current(marks, index, copy)
                        || self.copy_holds(world, file, index, copy);
                    if !is_right {
                        return false;
                    }
                }
            }
        }
        true
    }

    // Whether a disk that can be read has its header, where the record has an entry of it and it
    // wasn't dropped by force.
    fn is_joined(&self, disk: usize) -> bool {
        let mode = self.status.mode(disk);
        let is_owed = mode != 0 && mode != 5 && self.present.get(disk) == Some(&true);
        !is_owed || is_member(self.disks, disk)
    }

    /// Whether the disks stand for a world: its files with their sizes and names, the next
    /// incarnation, and the known bytes in each current copy; and each disk of the record is a
    /// member.
    pub fn stands_for(&self, world: &World<'_>) -> bool {
        let settings = Record {
            kind: 9,
            a: 0,
            b: 0,
        };
        let next = match value(self.disks, self.copy, settings) {
            Some(value) => number(value, 0, 8),
            None => 0,
        };
        let counts = next == world.made().saturating_add(1);
        let agrees = self.agrees_on(world, File::U) && self.agrees_on(world, File::V);
        let are_joined = (0..4usize).all(|disk| self.is_joined(disk));
        world.has_group()
            && are_joined
            && counts
            && agrees
            && (!world.has(File::U) || self.file_holds(world, File::U))
            && (!world.has(File::V) || self.file_holds(world, File::V))
    }
}

/// The copy of a number of an extent in its chunk, where there is one.
pub fn copy_in(chunk: &[u8], index: usize, number_of_copy: usize) -> Option<Copy> {
    let at = index
        .saturating_mul(15)
        .saturating_add(number_of_copy.saturating_mul(5));
    let home = chunk.get(at..at.saturating_add(5))?;
    let disk = number(home, 0, 1) as usize;
    if disk == 255 {
        return None;
    }
    Some(Copy {
        disk,
        unit: number(home, 1, 4) as usize,
        number: number_of_copy,
    })
}

// The byte that stands everywhere in a span, if one does.
fn same_byte(bytes: &[u8], at: usize, len: usize) -> Option<u8> {
    let first = *bytes.get(at)?;
    if bytes.iter().skip(at).take(len).all(|byte| *byte == first) {
        Some(first)
    } else {
        None
    }
}

// Whether a world allows a sector all of whose bytes are this one, or bytes of several kinds.
fn holds(world: &World<'_>, file: File, sector: usize, byte: Option<u8>) -> bool {
    match byte {
        Some(byte) => world.allows(file, sector, byte),
        None => matches!(world.cell(file, sector), crate::trials::world::Cell::Free),
    }
}
