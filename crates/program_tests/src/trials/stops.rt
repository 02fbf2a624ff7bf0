// The script, stopped before and within each of its calls.
use crate::calls::Kind;
use crate::trace::TracedCall;
use crate::trials::deeds::{Effect, SCRIPT};
use crate::trials::disks::{Disks, Patch};
use crate::trials::formats::{Answer, Present, due_answer};
use crate::trials::mounts::{Judgement, Wrong, judge, mount};
use crate::trials::playing::Played;
use crate::trials::tally::{Place, Shown, Tally};
use crate::trials::world::World;
use std::alloc::{AllocError, Global};

/// What stands of the writes that no sync had settled when the run stopped.
#[derive(Clone, Copy, Debug, PartialEq, Eq)]
pub enum Torn {
    /// All, and nothing of the write that was under way.
    All,
    /// All, and the first half of the write that was under way.
    Half,
    /// Nothing.
    Nothing,
    /// Other bytes, also in the range of the write that was under way.
    Junk,
}

pub const TORN: [Torn; 4] = [Torn::All, Torn::Half, Torn::Nothing, Torn::Junk];

/// The effects of the script's commands.
pub fn effect_list(alloc: Global) -> Result<Vec<Effect>, AllocError> {
    let mut list = Vec::new(alloc);
    for deed in SCRIPT {
        list.push(deed.effect)?;
    }
    Ok(list)
}

/// The commands that are acknowledged once so many calls are over.
pub fn acknowledged(marks: &[usize], calls: usize) -> usize {
    marks.iter().filter(|mark| **mark <= calls).count()
}

/// The worlds between the last acknowledged command and the next.
pub fn between<'a>(
    alloc: Global,
    effects: &'a [Effect],
    count: usize,
) -> Result<Vec<World<'a>>, AllocError> {
    let mut worlds = Vec::new(alloc);
    let count = count.min(effects.len());
    let done = World::after(&effects[..count]);
    match effects.get(count) {
        Some(Effect::Filled(fill)) => worlds.push(World {
            free: Some(*fill),
            ..done
        })?,
        Some(_) => {
            worlds.push(done)?;
            worlds.push(World::after(&effects[..count + 1]))?;
        }
        None => worlds.push(done)?,
    }
    Ok(worlds)
}

/// A run's calls as far as they are done, the disks as these left them, and what takes the writes
/// back that no sync has settled.
#[derive(Drop)]
pub struct Moment {
    alloc: Global,
    pub disks: Disks,
    back: Vec<Patch>,
}

fn junk(alloc: Global, slot: usize, at: u64, len: usize) -> Result<Patch, AllocError> {
    Ok(Patch {
        slot,
        at,
        bytes: vec![in alloc; 0xA5; len]?,
    })
}

fn copied(alloc: Global, patch: &Patch) -> Result<Patch, AllocError> {
    Ok(Patch {
        slot: patch.slot,
        at: patch.at,
        bytes: patch.bytes.to_vec(alloc)?,
    })
}

impl Moment {
    pub fn first(alloc: Global, disks: Disks) -> Moment {
        Moment {
            alloc,
            disks,
            back: Vec::new(alloc),
        }
    }

    /// Goes on over a call.
    pub fn go_on(&mut self, call: &TracedCall) -> Result<(), AllocError> {
        if call.kind == Kind::Sync && call.done {
            let slot = call.slot;
            self.back.retain(|patch| patch.slot != slot);
        }
        if call.kind == Kind::Write && call.done {
            let bytes = self.disks.bytes(call.slot, call.at, call.bytes.len())?;
            self.back.push(Patch {
                slot: call.slot,
                at: call.at,
                bytes,
            })?;
        }
        self.disks.follow(call)
    }

    /// The changes by which a stop within this call leaves other bytes than those that stand; None
    /// where it leaves no other.
    pub fn torn(
        &self,
        torn: Torn,
        next: Option<&TracedCall>,
    ) -> Result<Option<Vec<Patch>>, AllocError> {
        let mut patches = Vec::new(self.alloc);
        let next = next.filter(|call| call.kind == Kind::Write);
        match (torn, next) {
            (Torn::All, _) => return Ok(Some(patches)),
            (Torn::Half, Some(call)) => {
                let half = call.bytes.len() / 2;
                patches.push(Patch {
                    slot: call.slot,
                    at: call.at,
                    bytes: call.bytes[..half].to_vec(self.alloc)?,
                })?;
            }
            (Torn::Half, None) => {}
            (Torn::Nothing, _) => {
                for patch in self.back.iter().rev() {
                    patches.push(copied(self.alloc, patch)?)?;
                }
            }
            (Torn::Junk, next) => {
                for patch in self.back.iter() {
                    patches.push(junk(self.alloc, patch.slot, patch.at, patch.bytes.len())?)?;
                }
                if let Some(call) = next {
                    patches.push(junk(self.alloc, call.slot, call.at, call.bytes.len())?)?;
                }
            }
        }
        if patches.is_empty() {
            Ok(None)
        } else {
            Ok(Some(patches))
        }
    }
}

/// The set of disks of a number from 0 to 15.
pub fn set_of(number: usize) -> Present {
    [
        number % 2 == 1,
        number / 2 % 2 == 1,
        number / 4 % 2 == 1,
        number / 8 % 2 == 1,
    ]
}

/// What a second run is asked: its script, the worlds that it may find, and whether the group must
/// be found on all disks.
#[derive(Clone, Copy)]
pub struct Asked<'a> {
    pub alloc: Global,
    pub script: &'a [u8],
    pub worlds: &'a [World<'a>],
    pub must: bool,
}

/// Mounts a set of disks in a second run, counts it, and says what comes of it.
pub fn try_set(
    asked: &Asked<'_>,
    disks: &Disks,
    set: usize,
    place: Place,
    tally: &mut Tally,
) -> Result<Judgement, AllocError> {
    let present = set_of(set);
    let Some(played) = mount(asked.alloc, asked.script, disks, present) else {
        return Err(AllocError);
    };
    tally.mounts = tally.mounts.saturating_add(1);
    let mut judged = judge(asked.alloc, disks, present, asked.worlds, &played.text)?;
    if asked.must && set == 15 && judged == Judgement::Refused {
        judged = Judgement::Wrong(Wrong::Mount);
    }
    if let Judgement::Wrong(wrong) = judged {
        tally.tell(Shown {
            alloc: asked.alloc,
            place,
            set,
            wrong,
            text: &played.text,
        })?;
    }
    Ok(judged)
}

/// Mounts each set of disks in a second run.
pub fn try_sets(
    asked: &Asked<'_>,
    disks: &Disks,
    place: Place,
    tally: &mut Tally,
) -> Result<(), AllocError> {
    for set in 0..16usize {
        let _ = try_set(asked, disks, set, place, tally)?;
    }
    Ok(())
}

/// Which ways of a stop leave other disks than the stop before it did.
#[derive(Clone, Copy, Debug, PartialEq, Eq)]
pub enum News {
    /// All.
    All,
    /// Those in which the write under way shows.
    Write,
    /// None.
    None,
}

/// What is new of a stop behind a call, where the stop before that call was tried as well.
pub fn what_is_new(last: Option<&TracedCall>, next: Option<&TracedCall>) -> News {
    let is_same = match last {
        Some(call) => call.kind == Kind::Read || call.kind == Kind::Attach,
        None => false,
    };
    let is_write = match next {
        Some(call) => call.kind == Kind::Write,
        None => false,
    };
    match (is_same, is_write) {
        (false, _) => News::All,
        (true, true) => News::Write,
        (true, false) => News::None,
    }
}

fn is_tried(torn: Torn, news: News) -> bool {
    match news {
        News::All => true,
        News::Write => torn == Torn::Half || torn == Torn::Junk,
        News::None => false,
    }
}

/// A stop: behind the calls of a moment, within the next one.
#[derive(Clone, Copy)]
pub struct Stop<'a> {
    pub next: Option<&'a TracedCall>,
    pub news: News,
    /// The script's calls that are over, or of a second run's mount: those of the script before it,
    /// and the set of its disks.
    pub mounted: Option<(usize, usize)>,
    pub calls: usize,
}

fn place_of(stop: Stop<'_>, torn: Torn) -> Place {
    match stop.mounted {
        None => Place::Stop {
            calls: stop.calls,
            torn,
        },
        Some((calls, mounted)) => Place::Again {
            calls,
            mounted,
            after: stop.calls,
            torn,
        },
    }
}

/// Tries each way in which a stop may leave the disks.
pub fn try_stop(
    asked: &Asked<'_>,
    moment: &mut Moment,
    stop: Stop<'_>,
    tally: &mut Tally,
) -> Result<(), AllocError> {
    for torn in TORN {
        if is_tried(torn, stop.news) {
            if let Some(patches) = moment.torn(torn, stop.next)? {
                let back = moment.disks.change(&patches)?;
                try_sets(asked, &moment.disks, place_of(stop, torn), tally)?;
                let _ = moment.disks.change(&back)?;
            }
        }
    }
    Ok(())
}

/// Which of the places from 0 on are tried: every so manieth, from one on.
#[derive(Clone, Copy)]
pub struct Cut {
    pub step: usize,
    pub first: usize,
}

impl Cut {
    pub fn has(&self, place: usize) -> bool {
        place >= self.first && (place - self.first) % self.step.max(1) == 0
    }
}

/// Stops the script within its calls.
pub fn try_stops(
    alloc: Global,
    script: &[u8],
    base: &Played,
    cut: Cut,
    tally: &mut Tally,
) -> Result<(), AllocError> {
    let effects = effect_list(alloc)?;
    let mut moment = Moment::first(alloc, Disks::zeros(alloc)?);
    let mut last_count = 0;
    for calls in 0..=base.calls.len() {
        let next = base.calls.get(calls);
        let count = acknowledged(&base.marks, calls);
        if cut.has(calls) {
            let worlds = between(alloc, &effects, count)?;
            let asked = Asked {
                alloc,
                script,
                worlds: &worlds,
                must: count > 0,
            };
            let last = calls.checked_sub(1).and_then(|place| base.calls.get(place));
            let is_next = cut.step <= 1 && calls > cut.first && count == last_count;
            let stop = Stop {
                next,
                news: if is_next {
                    what_is_new(last, next)
                } else {
                    News::All
                },
                mounted: None,
                calls,
            };
            try_stop(&asked, &mut moment, stop, tally)?;
            tally.stops = tally.stops.saturating_add(1);
        }
        last_count = count;
        if let Some(call) = next {
            moment.go_on(call)?;
        }
    }
    Ok(())
}

/// The script of the mounts that are stopped.
const MOUNT: &[u8] = b"ALTER DISKGROUP DATA MOUNT FORCE;\nlsdsk DATA\n";

/// Stops a second run's mount of a set of disks, within its calls and those of the slices after it.
fn try_mount_stops(
    asked: &Asked<'_>,
    disks: &Disks,
    mounted: (usize, usize),
    cut: Cut,
    tally: &mut Tally,
) -> Result<(), AllocError> {
    let (_, set) = mounted;
    let Some(played) = mount(asked.alloc, MOUNT, disks, set_of(set)) else {
        return Err(AllocError);
    };
    let mut moment = Moment::first(asked.alloc, disks.copied()?);
    for calls in 0..=played.calls.len() {
        let next = played.calls.get(calls);
        if cut.has(calls) {
            let last = calls
                .checked_sub(1)
                .and_then(|place| played.calls.get(place));
            let is_next = cut.step <= 1 && calls > cut.first;
            let stop = Stop {
                next,
                news: if is_next {
                    what_is_new(last, next)
                } else {
                    News::All
                },
                mounted: Some(mounted),
                calls,
            };
            try_stop(asked, &mut moment, stop, tally)?;
            tally.again = tally.again.saturating_add(1);
        }
        if let Some(call) = next {
            moment.go_on(call)?;
        }
    }
    Ok(())
}

/// Stops the mounts of each set of disks that can be mounted, and lets the world stand that a whole
/// mount found.
fn try_mounts_of(
    asked: &Asked<'_>,
    disks: &Disks,
    calls: usize,
    cut: Cut,
    tally: &mut Tally,
) -> Result<(), AllocError> {
    for set in 0..16usize {
        if due_answer(disks, set_of(set)) == Answer::Ok {
            try_mount_stops(asked, disks, (calls, set), cut, tally)?;
        }
    }
    Ok(())
}

/// Stops the script behind some of its calls, and then the mount that follows within the calls of
/// its own.
pub fn try_mounts(
    alloc: Global,
    script: &[u8],
    base: &Played,
    cut: Cut,
    inner: Cut,
    tally: &mut Tally,
) -> Result<(), AllocError> {
    let effects = effect_list(alloc)?;
    let mut moment = Moment::first(alloc, Disks::zeros(alloc)?);
    for calls in 0..=base.calls.len() {
        if cut.has(calls) {
            let count = acknowledged(&base.marks, calls);
            let worlds = between(alloc, &effects, count)?;
            let asked = Asked {
                alloc,
                script,
                worlds: &worlds,
                must: count > 0,
            };
            try_mounts_of(&asked, &moment.disks, calls, inner, tally)?;
        }
        if let Some(call) = base.calls.get(calls) {
            moment.go_on(call)?;
        }
    }
    Ok(())
}
