// The script, with one of its calls failing.
use crate::calls::Kind;
use crate::trace::TracedCall;
use crate::trials::deeds::{DEEDS, Effect, SCRIPT};
use crate::trials::disks::Disks;
use crate::trials::dues::{due_refusal, is_alone, mode_name, span_of};
use crate::trials::formats::{Group, has};
use crate::trials::mounts::{Wrong, contains, tells_span};
use crate::trials::playing::{Played, four_disks, play};
use crate::trials::replies::{Replies, Reply, decimal, read};
use crate::trials::stops::{Asked, Cut, set_of, try_set};
use crate::trials::tally::{Place, Shown, Tally};
use crate::trials::world::World;
use std::alloc::{AllocError, Global};

/// The first byte behind the reserved units.
const USER: u64 = 1_105_920;

/// How the session has the group.
#[derive(Clone, Copy, Debug, PartialEq, Eq)]
enum Session {
    Absent,
    Mounted,
    Dismounted,
}

/// What is known when a command begins.
#[derive(Drop)]
struct Story {
    alloc: Global,
    /// The disks, as far as the calls were followed.
    disks: Disks,
    followed: usize,
    session: Session,
    world: Vec<Effect>,
    /// What a command may also have done that was answered with Dismounted.
    doubt: Option<Effect>,
}

/// The call that failed, and whether it did so between the reply before and that of the command
/// that is judged.
#[derive(Clone, Copy)]
struct Failed<'a> {
    call: &'a TracedCall,
    is_now: bool,
}

fn line_is(alloc: Global, line: &[u8], start: &str, disk: usize) -> Result<bool, AllocError> {
    let wanted = format!(in alloc; "{start}{disk}")?;
    Ok(line == wanted.as_bytes())
}

impl Failed<'_> {
    fn disk(&self) -> usize {
        self.call.slot
    }

    // Whether the disk failed in a write.
    fn is_write(&self) -> bool {
        self.call.kind == Kind::Write || self.call.kind == Kind::Sync
    }
}

impl Story {
    fn new(alloc: Global) -> Result<Story, AllocError> {
        Ok(Story {
            alloc,
            disks: Disks::zeros(alloc)?,
            followed: 0,
            session: Session::Absent,
            world: Vec::new(alloc),
            doubt: None,
        })
    }

    // Follows the calls up to a number of them.
    fn follow(&mut self, calls: &[TracedCall], count: usize) -> Result<(), AllocError> {
        let from = self.followed;
        for call in calls.iter().take(count).skip(from) {
            self.disks.follow(call)?;
        }
        self.followed = count.max(from);
        Ok(())
    }

    // Whether a disk has a directory copy that counts. One that hasn't may be the target of a new
    // one.
    fn has_copy(&self, disk: usize) -> bool {
        match Group::on(&self.disks, set_of(15)) {
            Some(group) => has(group.status.copies(), disk),
            None => false,
        }
    }

    // Whether the failed disk has the only directory copy.
    fn has_last_copy(&self, disk: usize) -> bool {
        match Group::on(&self.disks, set_of(15)) {
            Some(group) => disk < 64 && group.status.copies() == 1u64 << disk,
            None => false,
        }
    }

    // Whether the failed disk has the only usable copy of an extent that a command reads or writes.
    fn has_last_extent(&self, effect: Effect, disk: usize) -> bool {
        match (Group::on(&self.disks, set_of(15)), span_of(effect)) {
            (Some(group), Some(span)) => is_alone(&group, span, disk),
            _ => false,
        }
    }

    fn due(&self, effect: Effect) -> Result<Option<String>, AllocError> {
        match Group::on(&self.disks, set_of(15)) {
            Some(group) => due_refusal(self.alloc, &group, effect),
            None => Ok(None),
        }
    }

    // Whether a report on the disks has the modes of the status record.
    fn has_modes(&self, report: &[&[u8]]) -> bool {
        let Some(group) = Group::on(&self.disks, set_of(15)) else {
            return false;
        };
        let mut rows = 0usize;
        for disk in 0..4usize {
            if group.status.mode(disk) != 0 {
                rows = rows.saturating_add(1);
            }
        }
        report.len() == rows.saturating_add(1)
            && report.iter().skip(1).all(|row| has_mode(&group, row))
    }

    // Whether no disk is Offline but the one that the script takes, and the one that failed in a
    // write.
    fn keeps_modes(&self, failed: Failed<'_>) -> bool {
        let Some(group) = Group::on(&self.disks, set_of(15)) else {
            return false;
        };
        (0..4usize).all(|disk| {
            let mode = group.status.mode(disk);
            let may = disk == 1 || (disk == failed.disk() && failed.is_write());
            mode != 2 || may
        })
    }

    // Whether a report is what the world says.
    fn is_report(&self, effect: Effect, reply: &Reply<'_>, failed: Failed<'_>) -> bool {
        match effect {
            Effect::Read(file) => tells_span(
                &reply.report,
                &World::after(&self.world),
                file,
                0,
                40_960,
            ),
            Effect::Report => self.has_modes(&reply.report) && self.keeps_modes(failed),
            _ => true,
        }
    }

    // The world after a command that was answered `ok`.
    fn put(&mut self, effect: Effect) -> Result<(), AllocError> {
        if effect == Effect::Group {
            self.session = Session::Mounted;
        }
        self.world.push(effect)?;
        Ok(())
    }

    // The world after a command that was answered with Dismounted.
    fn dismount(&mut self, effect: Effect) -> Result<(), AllocError> {
        self.session = Session::Dismounted;
        match effect {
            Effect::Filled(fill) => self.world.push(Effect::Freed(fill))?,
            other => self.doubt = Some(other),
        }
        Ok(())
    }

    // Whether event lines tell of no failure but of this one. A slice that loses the group
    // dismounts it.
    fn are_events(&mut self, events: &[&[u8]], failed: Failed<'_>) -> bool {
        for line in events {
            let is_fault = contains(line, b" fault ");
            let is_end = contains(line, b" dismounted ");
            let is_named = failed.is_now
                && line.last() == Some(&(b'0' + (failed.disk() % 4) as u8));
            if (is_fault || is_end) && !is_named {
                return false;
            }
            if is_end && !self.has_last_copy(failed.disk()) {
                return false;
            }
            if is_end {
                self.session = Session::Dismounted;
            }
        }
        true
    }

    // A refusal that comes of the failure in this very command.
    fn is_failure(
        &mut self,
        effect: Effect,
        reply: &Reply<'_>,
        failed: Failed<'_>,
    ) -> Result<bool, AllocError> {
        let alloc = self.alloc;
        let disk = failed.disk();
        let last = reply.last;
        if !failed.is_now {
            return Ok(false);
        }
        if self.session == Session::Absent {
            let no_disk = line_is(alloc, last, "error 5 NoDisk d", disk)?;
            let fault = line_is(alloc, last, "error 31 WriteFault DATA_000", disk)?;
            return Ok(if failed.call.kind == Kind::Attach {
                no_disk
            } else {
                fault
            });
        }
        if line_is(alloc, last, "error 32 Dismounted DATA_000", disk)? {
            let may = self.has_last_copy(disk);
            self.dismount(effect)?;
            return Ok(may);
        }
        let is_read = line_is(alloc, last, "error 30 ReadFault DATA_000", disk)?;
        let is_write = line_is(alloc, last, "error 31 WriteFault DATA_000", disk)?;
        match effect {
            Effect::Filled(fill) if is_write => {
                let may = self.has_last_extent(effect, disk);
                self.world.push(Effect::Freed(fill))?;
                Ok(may)
            }
            Effect::Read(_) => Ok(is_read && self.has_last_extent(effect, disk)),
            Effect::Online => Ok(disk == 1 && last == b"error 5 NoDisk DATA_0001".as_slice()),
            Effect::Forced => {
                let is_target = failed.is_write() || !self.has_copy(disk);
                Ok((is_read && !failed.is_write()) || (is_write && is_target))
            }
            _ => Ok(false),
        }
    }

    // Whether a reply of a group that is mounted is right: what must come, or what comes of the
    // failure.
    fn is_right(
        &mut self,
        effect: Effect,
        reply: &Reply<'_>,
        due: Option<&str>,
        failed: Failed<'_>,
    ) -> Result<bool, AllocError> {
        match due {
            Some(line) => Ok(reply.last == line.as_bytes()),
            None if reply.is_ok() => {
                let is_right = self.is_report(effect, reply, failed);
                self.put(effect)?;
                Ok(is_right)
            }
            None => self.is_failure(effect, reply, failed),
        }
    }

    // Judges the reply to a command.
    fn judge(
        &mut self,
        effect: Effect,
        reply: &Reply<'_>,
        due: Option<&str>,
        failed: Failed<'_>,
    ) -> Result<bool, AllocError> {
        if !self.are_events(&reply.events, failed) {
            return Ok(false);
        }
        match self.session {
            Session::Mounted => self.is_right(effect, reply, due, failed),
            Session::Absent if effect == Effect::Group => {
                self.is_right(effect, reply, None, failed)
            }
            Session::Absent => Ok(reply.last == b"error 2 NoGroup".as_slice()),
            Session::Dismounted => line_is(
                self.alloc,
                reply.last,
                "error 32 Dismounted DATA_000",
                failed.disk(),
            ),
        }
    }
}

// Whether a row of a report on the disks has the disk's mode.
fn has_mode(group: &Group<'_>, row: &[u8]) -> bool {
    match decimal(row) {
        Some((disk, rest)) => rest.starts_with(mode_name(group.status.mode(disk)).as_bytes()),
        None => false,
    }
}

// The place of the first reply that isn't right, if there is one.
fn first_wrong(
    story: &mut Story,
    played: &Played,
    replies: &[Reply<'_>],
    call: usize,
) -> Result<Option<usize>, AllocError> {
    let Some(failing) = call
        .checked_sub(1)
        .and_then(|place| played.calls.get(place))
    else {
        return Ok(Some(DEEDS));
    };
    let mut before = 0usize;
    for (place, deed) in SCRIPT.iter().enumerate() {
        let (Some(reply), Some(end)) = (replies.get(place), played.marks.get(place)) else {
            return Ok(Some(place));
        };
        let failed = Failed {
            call: failing,
            is_now: before < call && call <= *end,
        };
        story.follow(&played.calls, before)?;
        let due = story.due(deed.effect)?;
        if deed.effect == Effect::Report {
            story.follow(&played.calls, *end)?;
        } else if failed.is_now {
            story.follow(&played.calls, call - 1)?;
        }
        let due = due.as_ref().map(|line| line.as_str());
        if !story.judge(deed.effect, reply, due, failed)? {
            return Ok(Some(place));
        }
        before = *end;
    }
    story.follow(&played.calls, played.calls.len())?;
    Ok(None)
}

// Whether nothing may change: a report's read of a file's bytes failed, and another copy was read.
fn is_unseen(played: &Played, replies: &Replies<'_>, call: usize) -> bool {
    let Some(failing) = call
        .checked_sub(1)
        .and_then(|place| played.calls.get(place))
    else {
        return false;
    };
    let place = played.marks.iter().filter(|mark| **mark < call).count();
    let is_read = match (SCRIPT.get(place), replies.list.get(place)) {
        (Some(deed), Some(reply)) => matches!(deed.effect, Effect::Read(_)) && reply.is_ok(),
        _ => false,
    };
    failing.kind == Kind::Read && failing.at >= USER && is_read
}

// The sets of disks on which the group is mounted once the failure is over: all, and each without
// one.
const SETS: [usize; 5] = [15, 14, 13, 11, 7];

// Mounts what a run left.
fn mount_left(
    story: &Story,
    script: &[u8],
    call: usize,
    tally: &mut Tally,
) -> Result<(), AllocError> {
    let mut other = Vec::new(story.alloc);
    for effect in story.world.iter() {
        other.push(*effect)?;
    }
    if let Some(doubt) = story.doubt {
        other.push(doubt)?;
    }
    let is_absent = story.session == Session::Absent;
    if is_absent {
        other.push(Effect::Group)?;
    }
    let worlds = [World::after(&story.world), World::after(&other)];
    let asked = Asked {
        alloc: story.alloc,
        script,
        worlds: &worlds,
        must: !is_absent,
    };
    for set in SETS {
        let _ = try_set(&asked, &story.disks, set, Place::Fault { call }, tally)?;
    }
    Ok(())
}

// Judges a run of which one call failed.
fn judge_run(
    alloc: Global,
    base: &Played,
    played: &Played,
    call: usize,
    story: &mut Story,
) -> Result<Option<usize>, AllocError> {
    let replies = read(alloc, &played.text)?;
    let wrong = first_wrong(story, played, &replies.list, call)?;
    if wrong.is_none() && is_unseen(played, &replies, call) && played.text != base.text {
        return Ok(Some(DEEDS));
    }
    Ok(wrong)
}

// Plays the script with one call failing.
fn try_fault(
    alloc: Global,
    scripts: (&[u8], &[u8]),
    base: &Played,
    call: usize,
    tally: &mut Tally,
) -> Result<(), AllocError> {
    let (first, second) = scripts;
    let Some(mut disks) = four_disks(alloc) else {
        return Err(AllocError);
    };
    if disks.fail_at(call as u64).is_err() {
        return Err(AllocError);
    }
    let Some(played) = play(alloc, first, disks) else {
        return Err(AllocError);
    };
    let mut story = Story::new(alloc)?;
    if let Some(place) = judge_run(alloc, base, &played, call, &mut story)? {
        tally.tell(Shown {
            alloc,
            place: Place::Fault { call },
            set: 15,
            wrong: Wrong::Command(place),
            text: &played.text,
        })?;
        return Ok(());
    }
    mount_left(&story, second, call, tally)
}

/// Lets some of the script's calls fail, one in each run.
pub fn try_faults(
    alloc: Global,
    scripts: (&[u8], &[u8]),
    base: &Played,
    cut: Cut,
    tally: &mut Tally,
) -> Result<(), AllocError> {
    for call in 1..=base.calls.len() {
        if cut.has(call) {
            try_fault(alloc, scripts, base, call, tally)?;
            tally.failing = tally.failing.saturating_add(1);
        }
    }
    Ok(())
}
