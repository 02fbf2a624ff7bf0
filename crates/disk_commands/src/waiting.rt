// Statements on disks, and what they wait for: rebalances and resyncs to their ends, with their
// lines.
ghost use Rattle.std.specs.Prelude.{◌≡◌, ◌⊎◌, ⊤, ◌≤◌, [], length, IfErr, IfOk, IfSome, Some};
ghost use Rattle.refusal_lines.specs.Refusals.{meaning_of};
ghost use Rattle.refusal_lines.specs.declared.refusal.Refusal.TheVariants as cause;
ghost use Rattle.disk_commands.specs.Waits.{HasShortCause, HasWaited, IsNoShortfall, ReplyWaited, WaitCause, WaitsForRebalance, refusal_in, refused_after, refusal_of_rebalance};
ghost use Rattle.session.specs.group_engine.Mounts.{Takes};
ghost use Rattle.session.specs.group_engine.Own.{KeepsGroup};
ghost use Rattle.session.specs.relocation.Shortfalls.{EndCause};
ghost use Rattle.session.specs.Naming.{CarriesOn};
ghost use Rattle.session.specs.Sessions.{AreReady};

use crate::disk_works::{ChangeDisks, Chosen, DiskChange, Joining, checked_power};
use asm_base::{DiskSet, List, MOST_DISKS, Name, NoMemory, Text};
use bay::Bay;
use event_lines::Event;
use group_sql::NewFailgroup;
use line_buffer::LineBuffer;
use refusal_lines::Refusal;
use session::{
    GroupWork, Mounted, Reply, Session, Slice, SyncedSlice as Resynced, group_resynced as resynced,
    rebalanced, run_to_end, shown_name, spelt, sync_slice,
};
use std::alloc::Global;

// ---- lines

/// The line of what ended, and the refusal that it ended with.
#[derive(Drop)]
pub struct Waited {
    line: Text,
    refusal: Option<Refusal>,
}

/// The line of an event, without its line feed.
fn line_of(alloc: Global, event: &Event<'_>) -> Result<Text, NoMemory> {
    let mut buffer = LineBuffer::new();
    event.write(&mut buffer);
    match buffer.as_bytes().split_last() {
        Some((_, line)) => Text::from_slice(alloc, line),
        None => Ok(Text::new(alloc)),
    }
}

/// The line with its refusal, in which each disk is spelt.
fn told(alloc: Global, m: &Mounted, line: Text, refusal: Option<Refusal>) -> Waited
    ensures { IfSome refusal (HasShortCause m.now) → HasWaited m.now result }
{
    match refusal {
        Some(refusal) => Waited {
            line,
            refusal: Some(spelt(alloc, m, refusal)),
        },
        None => Waited {
            line,
            refusal: None,
        },
    }
}

// ---- a rebalance to its end

/// The line of a rebalance that ended so. There is none for want of memory.
fn rebalance_line(
    alloc: Global,
    m: &Mounted,
    end: &Result<Slice, Refusal>,
    steps: u64,
) -> Result<Text, NoMemory> {
    match rebalanced(m, end, steps) {
        Some(how) => {
            let event = Event::Moved {
                group: m.name(),
                how,
            };
            line_of(alloc, &event)
        }
        None => Err(NoMemory),
    }
}

/// The refusal of a rebalance that ended so.
fn rebalance_refusal(end: Result<Slice, Refusal>) -> Option<Refusal>
    ensures { result ≡ refusal_of_rebalance end }
{
    match end {
        Ok(Slice::NoSpace(extent)) => Some(Refusal::NoSpace { extent }),
        Ok(Slice::Lost(extent)) => Some(Refusal::Lost { extent }),
        Ok(_) => None,
        Err(refusal) => Some(refusal),
    }
}

fn rebalance_told(
    alloc: Global,
    m: &Mounted,
    end: Result<Slice, Refusal>,
    steps: u64,
) -> Result<Waited, Refusal>
    requires why { IfOk end (EndCause m.now) }
    requires fault { IfErr end IsNoShortfall }
    ensures { WaitsForRebalance result m.now }
{
    match rebalance_line(alloc, m, &end, steps) {
        Ok(line) => Ok(told(alloc, m, line, rebalance_refusal(end))),
        Err(NoMemory) => {
            drop(end);
            Err(Refusal::NoMemory)
        }
    }
}

/// A rebalance goes to its end, slice by slice of this power.
#[derive(Clone, Copy)]
pub struct RebalanceAll {
    pub power: u16,
}

impl GroupWork for RebalanceAll {
    type Given = Waited;

    ghost does = { λ work old result new s t. WaitsForRebalance result new };

    #[tactic(auto, using(crate::proofs::Waits::faults_short))]
    fn run<B: Bay>(self, m: &mut Mounted, alloc: Global, bay: &mut B) -> Result<Waited, Refusal> {
        let (end, steps) = run_to_end(m, alloc, bay, self.power);
        rebalance_told(alloc, m, end, steps)
    }
}

// ---- a resync to its end

/// Resyncs a disk, slice by slice, to its end. The second part of the answer, also of a refusal, is
/// the number of steps.
fn sync_to_end<B: Bay>(
    m: &mut Mounted,
    alloc: Global,
    bay: &mut B,
    disk: u8,
) -> (Result<Resynced, Refusal>, u64)
    requires takes { Takes m.old (B.state bay.old) }
    ensures keeps { KeepsGroup m.old m.new (B.state bay.old) (B.state bay.new) }
{
    let mut steps = 0u64;
    for _ in 0..u64::MAX {
        let (end, more) = sync_slice(m, alloc, bay, disk);
        steps = steps.saturating_add(more);
        match end {
            Ok(Resynced::More) => {}
            other => return (other, steps),
        }
    }
    (Ok(Resynced::More), steps)
}

/// The line of the resync of a disk that ended so. There is none for want of memory.
fn resync_line(
    alloc: Global,
    m: &Mounted,
    disk: u8,
    end: &Result<Resynced, Refusal>,
    steps: u64,
) -> Result<Text, NoMemory> {
    match resynced(m, end, steps) {
        Some(how) => {
            let event = Event::Synced {
                group: m.name(),
                disk: shown_name(m, disk),
                how,
            };
            line_of(alloc, &event)
        }
        None => Err(NoMemory),
    }
}

fn resync_told(
    alloc: Global,
    m: &Mounted,
    disk: u8,
    end: Result<Resynced, Refusal>,
    steps: u64,
) -> Result<Waited, Refusal> {
    match resync_line(alloc, m, disk, &end, steps) {
        Ok(line) => Ok(told(alloc, m, line, end.err())),
        Err(NoMemory) => {
            drop(end);
            Err(Refusal::NoMemory)
        }
    }
}

/// A disk is resynced to the end.
#[derive(Clone, Copy)]
pub struct ResyncDisk {
    pub disk: u8,
}

impl GroupWork for ResyncDisk {
    type Given = Waited;

    ghost does = { λ work old result new s t. ⊤ };

    #[tactic(auto, using(session::proofs::Keeping::lets_go))]
    fn run<B: Bay>(self, m: &mut Mounted, alloc: Global, bay: &mut B) -> Result<Waited, Refusal> {
        let (end, steps) = sync_to_end(m, alloc, bay, self.disk);
        resync_told(alloc, m, self.disk, end, steps)
    }
}

// ---- statements

/// Puts the line of what waited behind others, and answers the refusal that it ended with.
fn put_waited(lines: &mut List<Text>, waited: Waited) -> Result<(), Refusal>
    ensures { IfErr result (λ refusal. (waited.refusal ≡ Some refusal)
        ⊎ (refusal ≡ cause.NoMemory)) }
{
    let Waited { line, refusal } = waited;
    match (lines.push(line), refusal) {
        (Ok(()), None) => Ok(()),
        (Ok(()), Some(refusal)) => Err(refusal),
        (Err(NoMemory), refusal) => {
            drop(refusal);
            Err(Refusal::NoMemory)
        }
    }
}

/// The reply with the lines of what waited, and how that ended.
fn reply_of(lines: List<Text>, ended: Result<(), Refusal>) -> Reply
    ensures { refused_after result ≡ refusal_in ended }
{
    match ended {
        Ok(()) => Reply::Done(lines),
        Err(refusal) => Reply::RefusedAfter(lines, refusal),
    }
}

/// The power of the rebalance that a statement waits for. With power 0 WAIT is as NOWAIT.
fn waits(power: u64, wait: bool) -> Option<u16> {
    if !wait {
        return None;
    }
    match checked_power(power) {
        Ok(0) => None,
        Ok(power) => Some(power),
        Err(_) => None,
    }
}

/// Rebalances a group to the end, and puts its line behind others.
fn rebalance_all<B: Bay>(
    session: &mut Session,
    alloc: Global,
    bay: &mut B,
    name: &Name,
    power: u16,
    lines: &mut List<Text>,
) -> Result<(), Refusal>
    requires ready { AreReady session.old.groups (B.state bay.old) }
    ensures carries { CarriesOn session.old session.new (B.state bay.old) (B.state bay.new) }
    ensures why { IfErr result (λ refusal. WaitCause session.new name.now
        (meaning_of (λ _. []) refusal)) }
{
    match session.work(alloc, bay, name, RebalanceAll { power }) {
        Ok(waited) => put_waited(lines, waited),
        Err(refusal) => Err(refusal),
    }
}

/// Resyncs a disk, where it is one of these, and puts its line behind others.
#[tactic(auto, using(session::proofs::Carrying::carries_none))]
fn resync_one<B: Bay>(
    session: &mut Session,
    alloc: Global,
    bay: &mut B,
    name: &Name,
    disks: DiskSet,
    disk: u8,
    lines: &mut List<Text>,
) -> Result<(), Refusal>
    requires ready { AreReady session.old.groups (B.state bay.old) }
    ensures carries { CarriesOn session.old session.new (B.state bay.old) (B.state bay.new) }
{
    if !disks.has(disk) {
        return Ok(());
    }
    match session.work(alloc, bay, name, ResyncDisk { disk }) {
        Ok(waited) => put_waited(lines, waited),
        Err(refusal) => Err(refusal),
    }
}

/// Resyncs these disks by number, and puts a line of each behind others. The first that fails ends
/// it.
fn resync_all<B: Bay>(
    session: &mut Session,
    alloc: Global,
    bay: &mut B,
    name: &Name,
    disks: DiskSet,
    lines: &mut List<Text>,
) -> Result<(), Refusal>
    requires ready { AreReady session.old.groups (B.state bay.old) }
    ensures carries { CarriesOn session.old session.new (B.state bay.old) (B.state bay.new) }
{
    for disk in 0..MOST_DISKS {
        resync_one(session, alloc, bay, name, disks, disk, lines)?;
    }
    Ok(())
}

/// The reply to a statement that made a rebalance active, which waits for its end where the
/// statement says so.
#[tactic(auto, using(session::proofs::Carrying::carries_none))]
fn reply_after<B: Bay>(
    session: &mut Session,
    alloc: Global,
    bay: &mut B,
    name: &Name,
    power: u64,
    wait: bool,
) -> Reply
    requires ready { AreReady session.old.groups (B.state bay.old) }
    ensures carries { CarriesOn session.old session.new (B.state bay.old) (B.state bay.new) }
    ensures waited { ReplyWaited session.new name.now result }
{
    let mut lines = List::new(alloc);
    match waits(power, wait) {
        Some(power) => {
            let ended = rebalance_all(session, alloc, bay, name, power, &mut lines);
            reply_of(lines, ended)
        }
        None => Reply::Done(lines),
    }
}

/// The reply to a statement that brought these disks back, which waits for their resync where it
/// says so.
#[tactic(auto, using(session::proofs::Carrying::carries_none))]
fn reply_online<B: Bay>(
    session: &mut Session,
    alloc: Global,
    bay: &mut B,
    name: &Name,
    disks: DiskSet,
    wait: bool,
) -> Reply
    requires ready { AreReady session.old.groups (B.state bay.old) }
    ensures carries { CarriesOn session.old session.new (B.state bay.old) (B.state bay.new) }
{
    let mut lines = List::new(alloc);
    if !wait {
        return Reply::Done(lines);
    }
    let ended = resync_all(session, alloc, bay, name, disks, &mut lines);
    reply_of(lines, ended)
}

/// Changes the disks of the mounted group of a name. Its refusals in order: NoGroup, Dismounted,
/// BadPower, those of the change, and under WAIT that by which the rebalance ends.
pub fn change_and_wait<B: Bay>(
    session: &mut Session,
    alloc: Global,
    bay: &mut B,
    name: &Name,
    change: DiskChange<'_>,
    power: u64,
    wait: bool,
) -> Reply
    requires ready { AreReady session.old.groups (B.state bay.old) }
    ensures carries { CarriesOn session.old session.new (B.state bay.old) (B.state bay.new) }
    ensures waited { ReplyWaited session.new name.now result }
{
    match session.work(alloc, bay, name, ChangeDisks { change, power }) {
        Ok(()) => reply_after(session, alloc, bay, name, power, wait),
        Err(refusal) => Reply::Refused(refusal),
    }
}

/// Adds disks to the mounted group of a name. Its refusals in order: NoGroup, Dismounted, BadPower,
/// those of the disks, and under WAIT that by which the rebalance ends.
pub fn add_and_wait<B: Bay>(
    session: &mut Session,
    alloc: Global,
    bay: &mut B,
    paths: &[String],
    name: &Name,
    groups: &[NewFailgroup],
    power: u64,
    wait: bool,
) -> Reply
    requires few { length paths.now ≤ 512 }
    requires ready { AreReady session.old.groups (B.state bay.old) }
    ensures carries { CarriesOn session.old session.new (B.state bay.old) (B.state bay.new) }
    ensures waited { ReplyWaited session.new name.now result }
{
    match session.join(alloc, bay, paths, name, Joining::Add { groups, power }) {
        Ok(_) => reply_after(session, alloc, bay, name, power, wait),
        Err(refusal) => Reply::Refused(refusal),
    }
}

/// Brings disks of the mounted group of a name back. Its refusals in order: NoGroup, Dismounted,
/// those of the disks, and where it waits for their resync that by which one ends.
pub fn bring_back_and_wait<B: Bay>(
    session: &mut Session,
    alloc: Global,
    bay: &mut B,
    paths: &[String],
    name: &Name,
    chosen: Chosen<'_>,
    wait: bool,
) -> Reply
    requires few { length paths.now ≤ 512 }
    requires ready { AreReady session.old.groups (B.state bay.old) }
    ensures carries { CarriesOn session.old session.new (B.state bay.old) (B.state bay.new) }
{
    match session.join(alloc, bay, paths, name, Joining::Online(chosen)) {
        Ok(disks) => reply_online(session, alloc, bay, name, disks, wait),
        Err(refusal) => Reply::Refused(refusal),
    }
}
