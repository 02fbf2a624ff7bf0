// A second run, which mounts the group by force: what it must answer, and the world that it finds.
use crate::trials::deeds::File;
use crate::trials::disks::{Disks, PAGE, PAGES};
use crate::trials::formats::{Answer, Group, Present, due_answer, file_number};
use crate::trials::playing::{Played, four_disks, play};
use crate::trials::replies::{Replies, Reply, decimal, read, read_run};
use crate::trials::world::World;
use bay::Bay;
use bay_mem::MemBay;
use std::alloc::{AllocError, Global};

/// The places of the second script's commands.
const FIND: usize = 1;

const USED: usize = 2;

const ROOT: usize = 3;

const READ_U: usize = 4;

const READ_V: usize = 14;

const END_U: usize = 24;

const CHECK: usize = 25;

const MODES: usize = 26;

const NEXT: usize = 27;

/// How many commands the second script has.
const COMMANDS: usize = 28;

const MOUNT: &str = "ALTER DISKGROUP DATA MOUNT FORCE;\n";

/// The second script.
pub fn second_script(alloc: Global) -> Result<String, AllocError> {
    let mut text = String::from_str(alloc, MOUNT)?;
    text.push_str("find +DATA *\ndu +DATA\nls +DATA\n")?;
    for name in ["u.256.1", "v.257.2"] {
        for at in [
            "0", "4K", "8K", "12K", "16K", "20K", "24K", "28K", "32K", "36K",
        ] {
            let line = format!(in alloc; "dbread +DATA/o/DATAFILE/{name} {at} 4K\n")?;
            text.push_str(&line)?;
        }
    }
    text.push_str("dbread +DATA/o/DATAFILE/u.256.1 40K 512\n")?;
    text.push_str("ALTER DISKGROUP DATA CHECK;\nlsdsk DATA\n")?;
    text.push_str("dbcreate +DATA/o/DATAFILE/w 4K\n")?;
    Ok(text)
}

// Writes a page of a disk.
fn put_page(bay: &mut MemBay, slot: u32, page: usize, bytes: &[u8]) -> bool {
    let Ok(size) = bay.attach(slot, "d") else {
        return false;
    };
    if page >= PAGES || bytes.len() != PAGE {
        return false;
    }
    let at = page as u64 * PAGE as u64;
    at + PAGE as u64 <= size && bay.write(slot, at, bytes).is_ok()
}

// Writes what is there of a disk.
fn put_disk(bay: &mut MemBay, disks: &Disks, slot: u32) -> bool {
    for page in 0..PAGES {
        if let Some(bytes) = disks.page(slot as usize, page) {
            if !put_page(bay, slot, page, bytes) {
                return false;
            }
        }
    }
    true
}

/// A bay of these disks, of which those that can't be read are absent.
pub fn bay_of(alloc: Global, disks: &Disks, present: Present) -> Option<MemBay> {
    let mut bay = four_disks(alloc)?;
    for (slot, is_there) in present.iter().enumerate() {
        if *is_there {
            if !put_disk(&mut bay, disks, slot as u32) {
                return None;
            }
        } else {
            bay.set_absent(slot as u32, true);
        }
    }
    bay.restart();
    Some(bay)
}

/// Why a second run isn't right: the place of the command, or of a check by the formats.
#[derive(Clone, Copy, Debug, PartialEq, Eq)]
pub enum Wrong {
    /// The disks by their formats stand for none of the worlds.
    Formats,
    /// The mount isn't answered as it must be.
    Mount,
    /// Not each command has a reply, or a device failed that didn't.
    Replies,
    /// The command of this place is answered otherwise than the world says.
    Command(usize),
}

/// What a mount must answer, as a line.
fn line_of(alloc: Global, answer: Answer) -> Result<String, AllocError> {
    match answer {
        Answer::Ok => String::from_str(alloc, "ok"),
        Answer::NoGroup => String::from_str(alloc, "error 2 NoGroup"),
        Answer::NoMajority(seen, need) => format!(in alloc; "error 9 NoMajority {seen} {need}"),
        Answer::DirectoriesLost => String::from_str(alloc, "error 10 DirectoriesLost"),
    }
}

// Whether the lines of a report are these.
fn are_lines(found: &[&[u8]], wanted: &[&str]) -> bool {
    found.len() == wanted.len()
        && found
            .iter()
            .zip(wanted.iter())
            .all(|(a, b)| *a == b.as_bytes())
}

// The paths of a world.
fn has_paths(reply: &Reply<'_>, world: &World<'_>) -> bool {
    let u = "+DATA/o/DATAFILE/u.256.1";
    let v = "+DATA/o/DATAFILE/v.257.2";
    let x = "+DATA/x";
    let is_right = match (world.has(File::U), world.has(File::V), world.has_alias()) {
        (false, false, _) => are_lines(&reply.report, &[]),
        (true, false, false) => are_lines(&reply.report, &[u]),
        (true, false, true) => are_lines(&reply.report, &[u, x]),
        (false, true, _) => are_lines(&reply.report, &[v]),
        (true, true, false) => are_lines(&reply.report, &[u, v]),
        (true, true, true) => are_lines(&reply.report, &[u, v, x]),
    };
    reply.is_ok() && is_right
}

// The names in the group's root.
fn has_root(reply: &Reply<'_>, world: &World<'_>) -> bool {
    let is_right = match (world.made() > 0, world.has_alias()) {
        (false, _) => are_lines(&reply.report, &[]),
        (true, false) => are_lines(&reply.report, &["o/"]),
        (true, true) => are_lines(&reply.report, &["o/", "x"]),
    };
    reply.is_ok() && is_right
}

fn files(world: &World<'_>) -> usize {
    world.has(File::U) as usize + world.has(File::V) as usize
}

// The sum of the sizes.
fn has_sizes(reply: &Reply<'_>, world: &World<'_>) -> bool {
    match reply.report.get(1) {
        Some(line) => match decimal(line) {
            Some((used, _)) => reply.is_ok() && used == files(world).saturating_mul(40_960),
            None => false,
        },
        None => false,
    }
}

// Whether a run of bytes is one that a world allows.
fn allows_run(world: &World<'_>, file: File, at: usize, count: usize, byte: u8) -> bool {
    for sector in 0..80usize {
        let first = sector * 512;
        let meets = first < at.saturating_add(count) && at < first + 512;
        if meets && !world.allows(file, sector, byte) {
            return false;
        }
    }
    true
}

/// Whether the lines of dbread tell a span, and bytes in it that a world allows.
pub fn tells_span(report: &[&[u8]], world: &World<'_>, file: File, at: usize, end: usize) -> bool {
    let mut place = at;
    for line in report {
        let Some(found) = read_run(line) else {
            return false;
        };
        if found.at != place || !allows_run(world, file, found.at, found.count, found.byte) {
            return false;
        }
        place = place.saturating_add(found.count);
    }
    place == end
}

// Whether an extent is read as a world says: its bytes, or that it is lost where no copy of it is
// usable.
fn reads_extent(
    alloc: Global,
    group: &Group<'_>,
    reply: &Reply<'_>,
    world: &World<'_>,
    file: File,
    index: usize,
) -> Result<bool, AllocError> {
    if !world.has(file) {
        return Ok(reply.last == b"error 14 NoName".as_slice());
    }
    if group.usable(file, index) == 0 {
        let number = file_number(file);
        let line = format!(in alloc; "error 29 Lost {number} {index}")?;
        return Ok(reply.last == line.as_bytes());
    }
    let at = index.saturating_mul(PAGE);
    Ok(reply.is_ok() && tells_span(&reply.report, world, file, at, at.saturating_add(PAGE)))
}

// Whether all extents of a file are read as a world says. The place of the first that isn't.
fn reads_file(
    alloc: Global,
    group: &Group<'_>,
    replies: &[Reply<'_>],
    world: &World<'_>,
    file: File,
    first: usize,
) -> Result<Option<usize>, AllocError> {
    for index in 0..10usize {
        let place = first.saturating_add(index);
        let is_right = match replies.get(place) {
            Some(reply) => reads_extent(alloc, group, reply, world, file, index)?,
            None => false,
        };
        if !is_right {
            return Ok(Some(place));
        }
    }
    Ok(None)
}

// The read behind the end of the file.
fn ends_right(reply: &Reply<'_>, world: &World<'_>) -> bool {
    if world.has(File::U) {
        reply.last == b"error 27 OutOfFile".as_slice()
    } else {
        reply.last == b"error 14 NoName".as_slice()
    }
}

// CHECK counts the extents.
fn counts_extents(reply: &Reply<'_>, world: &World<'_>) -> bool {
    match reply.report.first() {
        Some(line) => match line.strip_prefix(b"check ".as_slice()) {
            Some(rest) => match decimal(rest) {
                Some((extents, _)) => reply.is_ok() && extents == files(world).saturating_mul(10),
                None => false,
            },
            None => false,
        },
        None => false,
    }
}

/// Whether a line has a word.
pub fn contains(line: &[u8], word: &[u8]) -> bool {
    for at in 0..line.len() {
        if line[at..].starts_with(word) {
            return true;
        }
    }
    false
}

// The Online disks of a report on the disks.
fn online(reply: &Reply<'_>) -> usize {
    reply
        .report
        .iter()
        .filter(|line| contains(line, b" Online "))
        .count()
}

// The next file has the next number and the next incarnation. It is refused where fewer than two
// disks are Online.
fn makes_next(
    alloc: Global,
    reply: &Reply<'_>,
    modes: &Reply<'_>,
    world: &World<'_>,
) -> Result<bool, AllocError> {
    let number = match (world.has(File::U), world.has(File::V)) {
        (false, _) => 256,
        (true, false) => 257,
        (true, true) => 258,
    };
    if online(modes) < 2 {
        let line = format!(in alloc; "error 25 NoSpace {number} 0")?;
        return Ok(reply.last == line.as_bytes());
    }
    let incarnation = world.made().saturating_add(1);
    let line = format!(in alloc; "+DATA/o/DATAFILE/w.{number}.{incarnation}")?;
    let is_named = are_lines(&reply.report, &[line.as_str()]);
    Ok(reply.is_ok() && is_named)
}

// The place of the first command whose reply isn't what a world says, if there is one.
fn other_place(
    alloc: Global,
    group: &Group<'_>,
    replies: &[Reply<'_>],
    world: &World<'_>,
) -> Result<Option<usize>, AllocError> {
    let (Some(find), Some(used), Some(root), Some(end), Some(check), Some(modes), Some(next)) = (
        replies.get(FIND),
        replies.get(USED),
        replies.get(ROOT),
        replies.get(END_U),
        replies.get(CHECK),
        replies.get(MODES),
        replies.get(NEXT),
    ) else {
        return Ok(Some(0));
    };
    if !has_paths(find, world) {
        return Ok(Some(FIND));
    }
    if !has_sizes(used, world) {
        return Ok(Some(USED));
    }
    if !has_root(root, world) {
        return Ok(Some(ROOT));
    }
    if let Some(place) = reads_file(alloc, group, replies, world, File::U, READ_U)? {
        return Ok(Some(place));
    }
    if let Some(place) = reads_file(alloc, group, replies, world, File::V, READ_V)? {
        return Ok(Some(place));
    }
    if !ends_right(end, world) {
        return Ok(Some(END_U));
    }
    if !counts_extents(check, world) {
        return Ok(Some(CHECK));
    }
    if !makes_next(alloc, next, modes, world)? {
        return Ok(Some(NEXT));
    }
    Ok(None)
}

/// What comes of a second run.
#[derive(Clone, Copy, Debug, PartialEq, Eq)]
pub enum Judgement {
    /// The mount is refused, as it must be.
    Refused,
    /// The world of this place in the list is found.
    World(usize),
    Wrong(Wrong),
}

// Whether no event line tells of a device that failed.
fn is_quiet(events: &[&[u8]]) -> bool {
    events.iter().all(|line| !contains(line, b" fault ") && !contains(line, b" dismounted "))
}

fn are_quiet(replies: &Replies<'_>) -> bool {
    is_quiet(&replies.events) && replies.list.iter().all(|reply| is_quiet(&reply.events))
}

// What comes of a mount that is refused: each later command finds no group.
fn refused(replies: &[Reply<'_>]) -> Judgement {
    for (place, reply) in replies.iter().enumerate().skip(1) {
        if reply.last != b"error 2 NoGroup".as_slice() {
            return Judgement::Wrong(Wrong::Command(place));
        }
    }
    Judgement::Refused
}

// Which of some worlds is found.
fn found_world(
    alloc: Global,
    group: &Group<'_>,
    replies: &[Reply<'_>],
    worlds: &[World<'_>],
) -> Result<Judgement, AllocError> {
    let mut wrong = Wrong::Formats;
    for (place, world) in worlds.iter().enumerate() {
        if group.stands_for(world) {
            match other_place(alloc, group, replies, world)? {
                None => return Ok(Judgement::World(place)),
                Some(command) => wrong = Wrong::Command(command),
            }
        }
    }
    Ok(Judgement::Wrong(wrong))
}

/// Judges what a second run printed, which had the disks that can be read as they were.
pub fn judge(
    alloc: Global,
    disks: &Disks,
    present: Present,
    worlds: &[World<'_>],
    text: &[u8],
) -> Result<Judgement, AllocError> {
    let replies = read(alloc, text)?;
    if replies.list.len() != COMMANDS || !are_quiet(&replies) {
        return Ok(Judgement::Wrong(Wrong::Replies));
    }
    let line = line_of(alloc, due_answer(disks, present))?;
    match replies.list.first() {
        Some(first) if first.last == line.as_bytes() => {}
        _ => return Ok(Judgement::Wrong(Wrong::Mount)),
    }
    match Group::on(disks, present) {
        Some(group) => found_world(alloc, &group, &replies.list, worlds),
        None => Ok(refused(&replies.list)),
    }
}

/// Mounts these disks in a second run.
pub fn mount(alloc: Global, script: &[u8], disks: &Disks, present: Present) -> Option<Played> {
    let bay = bay_of(alloc, disks, present)?;
    play(alloc, script, bay)
}
