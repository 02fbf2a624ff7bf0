// Files: how they come and go, and their bytes.
ghost use Rattle.std.specs.Prelude.{◌≡◌, ◌+◌, ◌<◌, ◌^◌, ◌∷◌, [], false, length, IfErr, IfOk, OnOk};
ghost use Rattle.asm_world.specs.Command.{Said, Asked, DbCreate, DbWrite, DbFill, DbRead, DbResize, Remove};
ghost use Rattle.asm_world.specs.Language.{command_of};
ghost use Rattle.asm_world.specs.Statement.{Alter, DropFile};
ghost use Rattle.session.specs.Desks.{IsAnswered};
ghost use Rattle.session.specs.Families.{is_proved_on_disks};
ghost use Rattle.session.specs.FileLines.{IsNewLine, system_lines};
ghost use Rattle.session.specs.Listing.{IsInGroup};
ghost use Rattle.session.specs.Naming.{CarriesOn, IsOutCause};
ghost use Rattle.session.specs.Sessions.{AreReady};
ghost use Rattle.file_commands.specs.Writing.{AsksWrite};
ghost use Rattle.file_commands.specs.Reading.{AsksRead, HasRead, IsLinesCause, IsNoSpan, IsFileReadCause, OpensSpan, PutsRead, ReadsLines, ReadsOnly, ShowsBytes};

use crate::works::{Create, OnFile};
use asm_base::{List, Name, NoMemory, Path, Text};
use asmcmd::Runs;
use bay::{Bay, Host};
use refusal_lines::Refusal;
use report_laws::{FileBy, NewFile, path_to};
use session::{
    Answer, Desk, FileWork, Mounted, OpenFile, Session, answer_lines, answer_of, buffer,
    check_span, no_memory, open, path_in, path_of_verb, read_next, refuse, refused, spelt,
};
use std::alloc::Global;

// ---- what is asked, and how it is answered

/// What a verb asks of what is at its path.
#[derive(Drop)]
enum AtFile {
    Resize { size: u64 },
    /// A file goes, or an empty directory.
    Remove,
}

fn work_at(work: AtFile, path: Path) -> FileWork {
    match work {
        AtFile::Resize { size } => FileWork::Resize { path, size },
        AtFile::Remove => FileWork::Remove { path },
    }
}

// ---- work on one file

/// Works on a file of the group of a name. Its refusals in order: NoGroup, Dismounted, and then
/// those of the work.
fn work_on_file<B: Bay, H: Host>(
    desk: &mut Desk<B, H>,
    text: &[u8],
    group: &Name,
    work: &FileWork,
) -> Answer
    requires unproved { is_proved_on_disks (command_of text.now) ≡ false }
    requires ready { AreReady desk.old.session.groups (B.state desk.old.bay) }
    ensures answers { IsAnswered text.now result desk.old desk.new }
{
    let now = desk.session.time();
    let done = desk
        .session
        .work(desk.alloc, &mut desk.bay, group, OnFile { work, now });
    answer_of(desk.alloc, done)
}

/// The same of a verb, at the path to which it leads.
fn work_by_verb<B: Bay, H: Host>(
    desk: &mut Desk<B, H>,
    text: &[u8],
    path: &[u8],
    work: AtFile,
) -> Answer
    requires unproved { is_proved_on_disks (command_of text.now) ≡ false }
    requires ready { AreReady desk.old.session.groups (B.state desk.old.bay) }
    ensures answers { IsAnswered text.now result desk.old desk.new }
{
    match path_of_verb(desk.alloc, desk.session.place(), path) {
        Ok(path) => work_at_path(desk, text, path, work),
        Err(refusal) => refuse(desk, text, refusal),
    }
}

fn work_at_path<B: Bay, H: Host>(
    desk: &mut Desk<B, H>,
    text: &[u8],
    path: Path,
    work: AtFile,
) -> Answer
    requires unproved { is_proved_on_disks (command_of text.now) ≡ false }
    requires ready { AreReady desk.old.session.groups (B.state desk.old.bay) }
    ensures answers { IsAnswered text.now result desk.old desk.new }
{
    match path.group.copy() {
        Ok(group) => work_on_file(desk, text, &group, &work_at(work, path)),
        Err(NoMemory) => no_memory(desk, text),
    }
}

// ---- dbwrite and dbfill

/// Writes bytes of a file of the group of a name. Its refusals in order: NoGroup, Dismounted, and
/// then those of the write.
fn write_in<B: Bay, H: Host>(
    desk: &mut Desk<B, H>,
    text: &[u8],
    group: &Name,
    work: &FileWork,
) -> Answer
    requires asks { AsksWrite text.now desk.old.session.place group.now work.now }
    requires ready { AreReady desk.old.session.groups (B.state desk.old.bay) }
    ensures answers { IsAnswered text.now result desk.old desk.new }
{
    let m = match desk.session.mounted(desk.alloc, group) {
        Ok(m) => m,
        Err(refusal) => return refused(desk.alloc, refusal),
    };
    // Its clause shows that the rules hold.
    let _group = m.catalog().shape();
    let now = desk.session.time();
    let done = desk
        .session
        .work(desk.alloc, &mut desk.bay, group, OnFile { work, now });
    answer_of(desk.alloc, done)
}

/// dbwrite.
pub fn write_file<B: Bay, H: Host>(
    desk: &mut Desk<B, H>,
    text: &[u8],
    path: Text,
    at: u64,
    bytes: Text,
) -> Answer
    requires asked { command_of text.now ≡ Asked (DbWrite path at bytes) }
    requires ready { AreReady desk.old.session.groups (B.state desk.old.bay) }
    ensures answers { IsAnswered text.now result desk.old desk.new }
{
    let path = match path_of_verb(desk.alloc, desk.session.place(), path.as_slice()) {
        Ok(path) => path,
        Err(refusal) => return refused(desk.alloc, refusal),
    };
    let Ok(group) = path.group.copy() else {
        return no_memory(desk, text);
    };
    write_in(desk, text, &group, &FileWork::Write { path, at, bytes })
}

/// dbfill.
pub fn fill_file<B: Bay, H: Host>(
    desk: &mut Desk<B, H>,
    text: &[u8],
    path: Text,
    at: u64,
    size: u64,
    byte: u8,
) -> Answer
    requires asked { command_of text.now ≡ Asked (DbFill path at size byte) }
    requires ready { AreReady desk.old.session.groups (B.state desk.old.bay) }
    ensures answers { IsAnswered text.now result desk.old desk.new }
{
    let path = match path_of_verb(desk.alloc, desk.session.place(), path.as_slice()) {
        Ok(path) => path,
        Err(refusal) => return refused(desk.alloc, refusal),
    };
    let Ok(group) = path.group.copy() else {
        return no_memory(desk, text);
    };
    let work = FileWork::Fill {
        path,
        at,
        len: size,
        byte,
    };
    write_in(desk, text, &group, &work)
}

// ---- dbresize and DROP FILE

/// dbresize.
pub fn resize_file<B: Bay, H: Host>(
    desk: &mut Desk<B, H>,
    text: &[u8],
    path: Text,
    size: u64,
) -> Answer
    requires asked { command_of text.now ≡ Asked (DbResize path size) }
    requires ready { AreReady desk.old.session.groups (B.state desk.old.bay) }
    ensures answers { IsAnswered text.now result desk.old desk.new }
{
    work_by_verb(desk, text, path.as_slice(), AtFile::Resize { size })
}

/// A refusal behind NoGroup and Dismounted of a file's group. Nothing is done.
fn refuse_in<B: Bay, H: Host>(
    desk: &mut Desk<B, H>,
    text: &[u8],
    group: &Name,
    refusal: Refusal,
) -> Answer
    requires unproved { is_proved_on_disks (command_of text.now) ≡ false }
    requires ready { AreReady desk.old.session.groups (B.state desk.old.bay) }
    ensures answers { IsAnswered text.now result desk.old desk.new }
{
    match desk.session.mounted(desk.alloc, group) {
        Ok(_) => refuse(desk, text, refusal),
        Err(earlier) => refuse(desk, text, earlier),
    }
}

/// DROP FILE. Its refusals in order: NoGroup, Dismounted, and NoName where the path isn't one of
/// the group, or no file is there.
pub fn drop_file<B: Bay, H: Host>(
    desk: &mut Desk<B, H>,
    text: &[u8],
    group: Name,
    path: Text,
) -> Answer
    requires asked { command_of text.now ≡ Said (Alter group (DropFile path)) }
    requires ready { AreReady desk.old.session.groups (B.state desk.old.bay) }
    ensures answers { IsAnswered text.now result desk.old desk.new }
{
    match path_in(desk.alloc, &group, path.as_slice()) {
        Ok(Some(path)) => work_on_file(desk, text, &group, &FileWork::RemoveFile { path }),
        Ok(None) => refuse_in(desk, text, &group, Refusal::NoName),
        Err(NoMemory) => no_memory(desk, text),
    }
}

// ---- dbcreate

/// One line.
fn one_line(alloc: Global, line: Text) -> Result<List<Text>, NoMemory>
    ensures { IfOk result (λ lines. lines ≡ line ∷ []) }
{
    let mut lines = List::new(alloc);
    lines.push(line)?;
    Ok(lines)
}

/// The line of a file's system path, as the group's names are spelt. None where there is no such
/// file.
fn system_lines(alloc: Global, m: &Mounted, file: u32) -> Result<List<Text>, NoMemory>
    ensures { IfOk result (λ lines. lines ≡ system_lines m.now file) }
{
    match m.catalog().file(file) {
        Some(head) => {
            let line = path_to(alloc, m.name(), m.catalog(), head.system)?;
            one_line(alloc, line)
        }
        None => Ok(List::new(alloc)),
    }
}

/// The line of the system path of a file of the mounted group of a name.
pub fn system_line(
    session: &Session,
    alloc: Global,
    name: &Name,
    file: u32,
) -> Result<List<Text>, Refusal>
    ensures lines { IfOk result (λ lines. IsInGroup session.now name.now
        (λ m. lines ≡ system_lines m file)) }
    ensures cause { IfErr result (IsOutCause session.now.entries name.now) }
{
    let m = session.mounted(alloc, name)?;
    match system_lines(alloc, m, file) {
        Ok(lines) => Ok(lines),
        Err(NoMemory) => Err(Refusal::NoMemory),
    }
}

/// Makes a file of zeros, and gives the line of its system path. Its refusals in order: NoGroup,
/// Dismounted, and then those of the new file.
fn make_file<B: Bay>(
    alloc: Global,
    session: &mut Session,
    bay: &mut B,
    new: &NewFile,
) -> Result<List<Text>, Refusal>
    requires ready { AreReady session.old.groups (B.state bay.old) }
    ensures carries { CarriesOn session.old session.new (B.state bay.old) (B.state bay.new) }
    ensures line { IfOk result (IsNewLine new.now session.new) }
{
    match session.work(alloc, bay, &new.path.group, Create { new }) {
        Ok(file) => system_line(session, alloc, &new.path.group, file),
        Err(refusal) => Err(refusal),
    }
}

/// Makes a file of zeros at a path in a group.
fn create_at<B: Bay, H: Host>(desk: &mut Desk<B, H>, text: &[u8], new: &NewFile) -> Answer
    requires unproved { is_proved_on_disks (command_of text.now) ≡ false }
    requires ready { AreReady desk.old.session.groups (B.state desk.old.bay) }
    ensures answers { IsAnswered text.now result desk.old desk.new }
{
    let done = make_file(desk.alloc, &mut desk.session, &mut desk.bay, new);
    answer_lines(desk.alloc, done)
}

/// dbcreate: the line of the new file's system path. Its refusals in order: NoGroup, also where the
/// path comes to `+`, Dismounted, and then those of the new file.
pub fn create_file<B: Bay, H: Host>(
    desk: &mut Desk<B, H>,
    text: &[u8],
    path: Text,
    size: u64,
    template: Option<Name>,
) -> Answer
    requires asked { command_of text.now ≡ Asked (DbCreate path size template) }
    requires ready { AreReady desk.old.session.groups (B.state desk.old.bay) }
    ensures answers { IsAnswered text.now result desk.old desk.new }
{
    let by = match template {
        Some(name) => FileBy::Template(name),
        None => FileBy::System,
    };
    match path_of_verb(desk.alloc, desk.session.place(), path.as_slice()) {
        Ok(path) => create_at(desk, text, &NewFile { path, size, by }),
        Err(refusal) => refuse(desk, text, refusal),
    }
}

// ---- dbread

/// Opens a file of the mounted group of a name, of which a span may be read.
fn open_span(
    session: &Session,
    alloc: Global,
    path: &Path,
    at: u64,
    len: u64,
) -> Result<OpenFile, Refusal>
    ensures within { OnOk result (at + len < 2 ^ 64) }
    ensures opened { IfOk result (λ file. IsInGroup session.now path.now.group
        (λ m. OpensSpan m path.now.parts at len file)) }
    ensures cause { IfErr result (IsLinesCause session.now path.now.group path.now.parts at len) }
{
    let m = match session.mounted(alloc, &path.group) {
        Ok(m) => m,
        Err(refusal) => return Err(refusal),
    };
    span_of(m, path, at, len)
}

/// Opens a file of a group, of which a span may be read.
fn span_of(m: &Mounted, path: &Path, at: u64, len: u64) -> Result<OpenFile, Refusal>
    ensures within { OnOk result (at + len < 2 ^ 64) }
    ensures opened { IfOk result (OpensSpan m.now path.now.parts at len) }
    ensures cause { IfErr result (IsNoSpan m.now path.now.parts at len) }
{
    // Its clause shows that the rules hold.
    let _group = m.catalog().shape();
    let file = match open(m, path) {
        Ok(file) => file,
        Err(refusal) => return Err(refusal),
    };
    // The proof takes from here that the file's size, behind which the span doesn't end, is a
    // number of 64 bits.
    let _size = file.size();
    match check_span(m, &file, at, len) {
        Ok(()) => Ok(file),
        Err(refusal) => Err(refusal),
    }
}

/// Fills the buffer with bytes of a file of the mounted group of a name.
#[tactic(auto, using(session::proofs::Carrying::carries_none))]
pub fn read_from<B: Bay>(
    session: &Session,
    alloc: Global,
    bay: &mut B,
    name: &Name,
    file: &OpenFile,
    at: u64,
    buf: &mut [u8],
) -> Result<(), Refusal>
    requires ready { AreReady session.now.groups (B.state bay.old) }
    ensures carries { CarriesOn session.now session.now (B.state bay.old) (B.state bay.new) }
    ensures reads { ReadsOnly (B.state bay.old) (B.state bay.new) }
    ensures shows { OnOk result (ShowsBytes session.now name.now file.now at (B.state bay.old)
        (B.state bay.new) buf.new) }
    ensures cause { IfErr result (IsFileReadCause session.now name.now) }
{
    let m = match session.mounted(alloc, name) {
        Ok(m) => m,
        Err(refusal) => return Err(refusal),
    };
    match read_next(m, bay, file, at, buf) {
        Ok(()) => Ok(()),
        Err(refusal) => Err(spelt(alloc, m, refusal)),
    }
}

/// Reads the next bytes of a file, and puts their runs behind the others.
fn read_piece<B: Bay>(
    alloc: Global,
    session: &Session,
    bay: &mut B,
    group: &Name,
    file: &OpenFile,
    at: u64,
    buf: &mut [u8],
    runs: &mut Runs,
) -> Result<(), Refusal>
    requires ready { AreReady session.now.groups (B.state bay.old) }
    requires room { runs.old.end + length buf.old < 2 ^ 64 }
    ensures carries { CarriesOn session.now session.now (B.state bay.old) (B.state bay.new) }
    ensures reads { ReadsOnly (B.state bay.old) (B.state bay.new) }
    ensures runs { OnOk result (PutsRead session.now group.now file.now at (length buf.old)
        (B.state bay.old) (B.state bay.new) runs.old runs.new) }
    ensures end { OnOk result (runs.new.end ≡ runs.old.end + length buf.old) }
    ensures cause { IfErr result (IsFileReadCause session.now group.now) }
{
    match read_from(session, alloc, bay, group, file, at, buf) {
        Ok(()) => {}
        Err(refusal) => return Err(refusal),
    }
    match runs.put(buf) {
        Ok(()) => Ok(()),
        Err(NoMemory) => Err(Refusal::NoMemory),
    }
}

/// Reads a span in pieces as long as the buffer, and puts their runs behind the others.
fn read_span<B: Bay>(
    alloc: Global,
    session: &Session,
    bay: &mut B,
    group: &Name,
    file: &OpenFile,
    at: u64,
    len: u64,
    buf: &mut [u8],
    runs: &mut Runs,
) -> Result<(), Refusal>
    requires ready { AreReady session.now.groups (B.state bay.old) }
    requires within { at + len < 2 ^ 64 }
    requires end { runs.old.end ≡ at }
    ensures carries { CarriesOn session.now session.now (B.state bay.old) (B.state bay.new) }
    ensures reads { ReadsOnly (B.state bay.old) (B.state bay.new) }
    ensures runs { OnOk result (PutsRead session.now group.now file.now at len (B.state bay.old)
        (B.state bay.new) runs.old runs.new) }
    ensures cause { IfErr result (IsFileReadCause session.now group.now) }
{
    let mut left = len;
    while left > 0 {
        let n = left.min(buf.len() as u64) as usize;
        if n == 0 {
            return Err(Refusal::NoMemory);
        }
        let from = at + (len - left);
        let piece = &mut buf[..n];
        match read_piece(alloc, session, bay, group, file, from, piece, runs) {
            Ok(()) => {}
            Err(refusal) => return Err(refusal),
        }
        left -= n as u64;
    }
    Ok(())
}

/// Reads a span in pieces of at most 1 MiB, and gives its runs.
fn read_runs<B: Bay>(
    alloc: Global,
    session: &Session,
    bay: &mut B,
    group: &Name,
    file: &OpenFile,
    at: u64,
    len: u64,
) -> Result<Runs, Refusal>
    requires ready { AreReady session.now.groups (B.state bay.old) }
    requires within { at + len < 2 ^ 64 }
    ensures carries { CarriesOn session.now session.now (B.state bay.old) (B.state bay.new) }
    ensures reads { ReadsOnly (B.state bay.old) (B.state bay.new) }
    ensures runs { IfOk result (HasRead session.now group.now file.now at len (B.state bay.old)
        (B.state bay.new)) }
    ensures cause { IfErr result (IsFileReadCause session.now group.now) }
{
    let Ok(mut buf) = buffer(alloc, len, 0) else {
        return Err(Refusal::NoMemory);
    };
    let mut runs = Runs::new(alloc, at);
    match read_span(
        alloc, session, bay, group, file, at, len, &mut buf, &mut runs,
    ) {
        Ok(()) => {
            drop(buf);
            Ok(runs)
        }
        Err(refusal) => {
            drop(buf);
            drop(runs);
            Err(refusal)
        }
    }
}

/// The lines of dbread. The refusals in order: NoGroup, Dismounted, NoName, NotSectors, OutOfFile,
/// Lost and ReadFault.
#[tactic(auto, using(session::proofs::Carrying::carries_none))]
fn read_lines<B: Bay>(
    alloc: Global,
    session: &Session,
    bay: &mut B,
    path: &Path,
    at: u64,
    len: u64,
) -> Result<List<Text>, Refusal>
    requires ready { AreReady session.now.groups (B.state bay.old) }
    ensures carries { CarriesOn session.now session.now (B.state bay.old) (B.state bay.new) }
    ensures reads { ReadsOnly (B.state bay.old) (B.state bay.new) }
    ensures lines { IfOk result (ReadsLines session.now path.now.group path.now.parts at len
        (B.state bay.old) (B.state bay.new)) }
    ensures cause { IfErr result (IsLinesCause session.now path.now.group path.now.parts at len) }
{
    let file = match open_span(session, alloc, path, at, len) {
        Ok(file) => file,
        Err(refusal) => return Err(refusal),
    };
    match read_runs(alloc, session, bay, &path.group, &file, at, len) {
        Ok(runs) => match runs.into_lines() {
            Ok(lines) => Ok(lines),
            Err(NoMemory) => Err(Refusal::NoMemory),
        },
        Err(refusal) => Err(refusal),
    }
}

/// dbread: a line for each longest run of equal bytes.
pub fn read_file<B: Bay, H: Host>(
    desk: &mut Desk<B, H>,
    text: &[u8],
    path: Text,
    at: u64,
    size: u64,
) -> Answer
    requires asked { command_of text.now ≡ Asked (DbRead path at size) }
    requires ready { AreReady desk.old.session.groups (B.state desk.old.bay) }
    ensures answers { IsAnswered text.now result desk.old desk.new }
{
    match path_of_verb(desk.alloc, desk.session.place(), path.as_slice()) {
        Ok(path) => read_at(desk, text, &path, at, size),
        Err(refusal) => refused(desk.alloc, refusal),
    }
}

fn read_at<B: Bay, H: Host>(
    desk: &mut Desk<B, H>,
    text: &[u8],
    path: &Path,
    at: u64,
    size: u64,
) -> Answer
    requires asked { AsksRead text.now desk.old.session.place path.now at size }
    requires ready { AreReady desk.old.session.groups (B.state desk.old.bay) }
    ensures answers { IsAnswered text.now result desk.old desk.new }
{
    let done = read_lines(desk.alloc, &desk.session, &mut desk.bay, path, at, size);
    answer_lines(desk.alloc, done)
}

/// rm: a file goes with all its names, or an empty directory. Its refusals in order: NoGroup, also
/// where the path comes to `+`, Dismounted, and those of the edit that drops a directory; NoName
/// where nothing is there.
pub fn remove<B: Bay, H: Host>(desk: &mut Desk<B, H>, text: &[u8], path: Text) -> Answer
    requires asked { command_of text.now ≡ Asked (Remove path) }
    requires ready { AreReady desk.old.session.groups (B.state desk.old.bay) }
    ensures answers { IsAnswered text.now result desk.old desk.new }
{
    work_by_verb(desk, text, path.as_slice(), AtFile::Remove)
}
