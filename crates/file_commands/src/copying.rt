// cp: into a group, from the host or from a group, and out to the host.
ghost use Rattle.std.specs.Prelude.{◌≡◌, ◌⊎◌, ◌+◌, IfErr, IfOk, length};
ghost use Rattle.asm_world.specs.Command.{Asked, CopyFile};
ghost use Rattle.asm_world.specs.Language.{command_of};
ghost use Rattle.bay.specs.Counts.{Rose};
ghost use Rattle.bay.specs.Hosts.{AllStay};
ghost use Rattle.bay.specs.declared.fault.HostError.TheVariants.{Fault};
ghost use Rattle.file_commands.specs.Copying.{HasBytes, HasSize};
ghost use Rattle.file_commands.specs.HostCauses.{FailsAt, HostFaultCause, Faults, HostCause, HostReply, IsAt, IsCopied, IsHostAt, IsNoHostFault, IsOfSource, NoneFalls, WhereOfHost};
ghost use Rattle.session.specs.Desks.{IsAnswered};
ghost use Rattle.session.specs.FileLines.{IsNewLine};
ghost use Rattle.session.specs.Naming.{CarriesOn};
ghost use Rattle.session.specs.Sessions.{AreReady};

use crate::files::{read_from, system_line};
use crate::works::{Begin, Finish, GiveUp, Put};
use asm_base::{List, Name, NoMemory, Path, Text};
use bay::{Bay, Host, HostError};
use refusal_lines::Refusal;
use report_laws::{FileBy, NewFile};
use session::{
    Answer, Desk, Filling, OpenFile, Session, answer_lines, buffer, check_source, path_of_verb,
};
use std::alloc::Global;
use std::str::from_utf8;
use verb_paths::is_host_path;

// ---- the host

/// A path of the host. HostFault where it is no text.
fn host_path<'a>(alloc: Global, path: &'a [u8]) -> Result<&'a str, Refusal>
    ensures text { IfOk result (λ text. text.now ≡ path.now) }
    ensures cause { (s t : Faults) → IfErr result (HostFaultCause (IsAt path.now) s t) }
{
    match from_utf8(path) {
        Ok(path) => Ok(path),
        Err(_) => Err(host_fault(alloc, path)),
    }
}

fn host_fault(alloc: Global, path: &[u8]) -> Refusal
    ensures cause { (s t : Faults) → FailsAt s t path.now
        → HostFaultCause (IsAt path.now) s t result }
{
    match Text::from_slice(alloc, path) {
        Ok(path) => Refusal::HostFault { path },
        Err(NoMemory) => Refusal::NoMemory,
    }
}

/// A refusal by the host.
fn host_refusal(alloc: Global, path: &str, error: HostError) -> Refusal
    ensures cause { (s t : Faults) → (error ≡ Fault → Rose (s path.now) (t path.now))
        → HostFaultCause (IsAt path.now) s t result }
{
    match error {
        HostError::Fault => host_fault(alloc, path.as_bytes()),
        HostError::NoMemory => Refusal::NoMemory,
    }
}

// ---- the source

/// What is copied.
#[derive(Drop)]
enum Source<'a> {
    Host(&'a str),
    File { group: Name, file: OpenFile },
}

/// Opens a file of the host, and tells its size.
fn open_host<'a, H: Host>(
    alloc: Global,
    host: &mut H,
    path: &'a [u8],
) -> Result<(Source<'a>, u64), Refusal>
    ensures size { IfOk result (λ opened. HasSize (H.file host.new) opened.0 opened.1) }
    ensures counts { NoneFalls (H.faults host.old) (H.faults host.new) }
    ensures source { IfOk result (λ opened. WhereOfHost (IsAt path.now) opened.0) }
    ensures cause { IfErr result (HostFaultCause (IsAt path.now) (H.faults host.old)
        (H.faults host.new)) }
{
    let path = host_path(alloc, path)?;
    match host.size(path) {
        Ok(size) => Ok((Source::Host(path), size)),
        Err(error) => Err(host_refusal(alloc, path, error)),
    }
}

/// Opens a file of the mounted group of a name, to be copied.
fn open_file(session: &Session, alloc: Global, path: &Path) -> Result<OpenFile, Refusal>
    ensures cause { IfErr result IsNoHostFault }
{
    let m = session.mounted(alloc, &path.group)?;
    check_source(m, path)
}

/// Opens the source of cp, and tells its size. Its refusals come first: HostFault; or NoGroup,
/// Dismounted, NoName and Lost.
fn open_source<'a, H: Host>(
    alloc: Global,
    session: &Session,
    host: &mut H,
    path: &'a [u8],
) -> Result<(Source<'a>, u64), Refusal>
    ensures size { IfOk result (λ opened. HasSize (H.file host.new) opened.0 opened.1) }
    ensures counts { NoneFalls (H.faults host.old) (H.faults host.new) }
    ensures source { IfOk result (λ opened. WhereOfHost (IsHostAt path.now) opened.0) }
    ensures cause { IfErr result (HostFaultCause (IsHostAt path.now) (H.faults host.old)
        (H.faults host.new)) }
{
    if is_host_path(path) {
        return open_host(alloc, host, path);
    }
    let path = path_of_verb(alloc, session.place(), path)?;
    match open_file(session, alloc, &path) {
        Ok(file) => {
            let Path { group, parts } = path;
            drop(parts);
            Ok((Source::File { group, file }, file.size()))
        }
        Err(refusal) => {
            drop(path);
            Err(refusal)
        }
    }
}

/// Fills the buffer with bytes of the source, which lie inside its size.
#[tactic(auto, using(session::proofs::Carrying::carries_none))]
fn read_source<B: Bay, H: Host>(
    alloc: Global,
    session: &Session,
    bay: &mut B,
    host: &mut H,
    source: &Source<'_>,
    at: u64,
    buf: &mut [u8],
) -> Result<(), Refusal>
    requires ready { AreReady session.now.groups (B.state bay.old) }
    requires inside { HasBytes (H.file host.old) source.now (at + length buf.old) }
    ensures carries { CarriesOn session.now session.now (B.state bay.old) (B.state bay.new) }
    ensures files { AllStay (H.file host.old) (H.file host.new) }
    ensures counts { NoneFalls (H.faults host.old) (H.faults host.new) }
    ensures cause { IfErr result (HostFaultCause (IsOfSource source.now) (H.faults host.old)
        (H.faults host.new)) }
{
    match source {
        Source::Host(path) => match host.read(path, at, buf) {
            Ok(()) => Ok(()),
            Err(error) => Err(host_refusal(alloc, path, error)),
        },
        Source::File { group, file } => read_from(session, alloc, bay, group, file, at, buf),
    }
}

// ---- into a group

/// Gives a file that was begun in the mounted group of a name back, for this refusal, or for the
/// one by which that can't be done.
fn give_up<B: Bay>(
    session: &mut Session,
    alloc: Global,
    bay: &mut B,
    name: &Name,
    refusal: Refusal,
) -> Refusal
    requires ready { AreReady session.old.groups (B.state bay.old) }
    ensures carries { CarriesOn session.old session.new (B.state bay.old) (B.state bay.new) }
    ensures cause { (result ≡ refusal) ⊎ IsNoHostFault result }
{
    match session.work(alloc, bay, name, GiveUp { refusal }) {
        Ok(()) => Refusal::NoMemory,
        Err(refusal) => refusal,
    }
}

/// Fills the buffer with the next bytes of the source, and puts them into a file that was begun.
fn put_piece<B: Bay, H: Host>(
    alloc: Global,
    session: &mut Session,
    bay: &mut B,
    host: &mut H,
    source: &Source<'_>,
    group: &Name,
    filling: Filling,
    buf: &mut [u8],
) -> Result<Filling, Refusal>
    requires ready { AreReady session.old.groups (B.state bay.old) }
    requires inside { HasBytes (H.file host.old) source.now (filling.at + length buf.old) }
    ensures carries { CarriesOn session.old session.new (B.state bay.old) (B.state bay.new) }
    ensures files { AllStay (H.file host.old) (H.file host.new) }
    ensures end { IfOk result (λ more. more.end ≡ filling.end) }
    ensures counts { NoneFalls (H.faults host.old) (H.faults host.new) }
    ensures cause { IfErr result (HostFaultCause (IsOfSource source.now) (H.faults host.old)
        (H.faults host.new)) }
{
    match read_source(alloc, session, bay, host, source, filling.at, buf) {
        Ok(()) => {
            let put = Put {
                filling,
                bytes: buf,
            };
            session.work(alloc, bay, group, put)
        }
        Err(refusal) => {
            drop(filling);
            Err(give_up(session, alloc, bay, group, refusal))
        }
    }
}

/// Copies what a file that was begun wants, piece by piece.
fn put_all<B: Bay, H: Host>(
    alloc: Global,
    session: &mut Session,
    bay: &mut B,
    host: &mut H,
    source: &Source<'_>,
    group: &Name,
    filling: Filling,
    buf: &mut [u8],
) -> Result<Filling, Refusal>
    requires ready { AreReady session.old.groups (B.state bay.old) }
    requires inside { HasBytes (H.file host.old) source.now filling.end }
    ensures carries { CarriesOn session.old session.new (B.state bay.old) (B.state bay.new) }
    ensures cause { IfErr result (HostFaultCause (IsOfSource source.now) (H.faults host.old)
        (H.faults host.new)) }
{
    let mut filling = filling;
    for _ in 0..u64::MAX {
        let n = filling.wanted().min(buf.len() as u64) as usize;
        if n == 0 {
            return Ok(filling);
        }
        let piece = &mut buf[..n];
        filling = put_piece(alloc, session, bay, host, source, group, filling, piece)?;
    }
    Ok(filling)
}

/// Gives a file, all of whose bytes were put, its name, and tells the line of its system path.
fn finish<B: Bay>(
    alloc: Global,
    session: &mut Session,
    bay: &mut B,
    new: &NewFile,
    filling: &Filling,
) -> Result<List<Text>, Refusal>
    requires ready { AreReady session.old.groups (B.state bay.old) }
    ensures carries { CarriesOn session.old session.new (B.state bay.old) (B.state bay.new) }
    ensures line { IfOk result (IsNewLine new.now session.new) }
    ensures cause { IfErr result IsNoHostFault }
{
    let group = &new.path.group;
    match session.work(alloc, bay, group, Finish { filling, new }) {
        Ok(file) => system_line(session, alloc, group, file),
        Err(refusal) => Err(refusal),
    }
}

/// Copies the source into a new file of a group, and tells the line of its system path.
fn copy_to_new<B: Bay, H: Host>(
    alloc: Global,
    session: &mut Session,
    bay: &mut B,
    host: &mut H,
    source: &Source<'_>,
    new: &NewFile,
    buf: &mut [u8],
) -> Result<List<Text>, Refusal>
    requires ready { AreReady session.old.groups (B.state bay.old) }
    requires inside { HasBytes (H.file host.old) source.now new.now.size }
    ensures carries { CarriesOn session.old session.new (B.state bay.old) (B.state bay.new) }
    ensures line { IfOk result (IsNewLine new.now session.new) }
    ensures cause { IfErr result (HostFaultCause (IsOfSource source.now) (H.faults host.old)
        (H.faults host.new)) }
{
    let group = &new.path.group;
    let begun = session.work(alloc, bay, group, Begin { new })?;
    match put_all(alloc, session, bay, host, source, group, begun, buf) {
        Ok(filling) => {
            let told = finish(alloc, session, bay, new, &filling);
            drop(filling);
            told
        }
        Err(refusal) => Err(refusal),
    }
}

/// Copies the source, which has this size, into a group, and tells the system path. Its refusals in
/// order: NoGroup, Dismounted, and then those of the new file.
#[tactic(auto, using(session::proofs::Carrying::carries_none))]
fn copy_to_group<B: Bay, H: Host>(
    alloc: Global,
    session: &mut Session,
    bay: &mut B,
    host: &mut H,
    source: &Source<'_>,
    size: u64,
    path: &[u8],
) -> Result<List<Text>, Refusal>
    requires ready { AreReady session.old.groups (B.state bay.old) }
    requires inside { HasBytes (H.file host.old) source.now size }
    ensures carries { CarriesOn session.old session.new (B.state bay.old) (B.state bay.new) }
    ensures cause { IfErr result (HostFaultCause (IsOfSource source.now) (H.faults host.old)
        (H.faults host.new)) }
{
    let path = path_of_verb(alloc, session.place(), path)?;
    let by = FileBy::System;
    let new = NewFile { path, size, by };
    match buffer(alloc, size, 0) {
        Ok(mut buf) => {
            let told = copy_to_new(alloc, session, bay, host, source, &new, &mut buf);
            drop(buf);
            drop(new);
            told
        }
        Err(NoMemory) => {
            drop(new);
            Err(Refusal::NoMemory)
        }
    }
}

// ---- to the host

/// Appends the next bytes of a file of a group to one of the host.
#[tactic(auto, using(session::proofs::Carrying::carries_none))]
fn append_piece<B: Bay, H: Host>(
    alloc: Global,
    session: &Session,
    bay: &mut B,
    host: &mut H,
    group: &Name,
    file: &OpenFile,
    at: u64,
    to: &str,
    buf: &mut [u8],
) -> Result<(), Refusal>
    requires ready { AreReady session.now.groups (B.state bay.old) }
    ensures carries { CarriesOn session.now session.now (B.state bay.old) (B.state bay.new) }
    ensures counts { NoneFalls (H.faults host.old) (H.faults host.new) }
    ensures cause { IfErr result (HostFaultCause (IsAt to.now) (H.faults host.old)
        (H.faults host.new)) }
{
    read_from(session, alloc, bay, group, file, at, buf)?;
    match host.append(to, buf) {
        Ok(()) => Ok(()),
        Err(error) => Err(host_refusal(alloc, to, error)),
    }
}

/// Appends the bytes of a file of a group to one of the host.
fn append_all<B: Bay, H: Host>(
    alloc: Global,
    session: &Session,
    bay: &mut B,
    host: &mut H,
    group: &Name,
    file: &OpenFile,
    to: &str,
    buf: &mut [u8],
) -> Result<(), Refusal>
    requires ready { AreReady session.now.groups (B.state bay.old) }
    ensures carries { CarriesOn session.now session.now (B.state bay.old) (B.state bay.new) }
    ensures cause { IfErr result (HostFaultCause (IsAt to.now) (H.faults host.old)
        (H.faults host.new)) }
{
    let size = file.size();
    let mut left = size;
    while left > 0 {
        let n = left.min(buf.len() as u64) as usize;
        if n == 0 {
            return Err(Refusal::NoMemory);
        }
        let at = size - left;
        let piece = &mut buf[..n];
        append_piece(alloc, session, bay, host, group, file, at, to, piece)?;
        left -= n as u64;
    }
    Ok(())
}

/// Writes the bytes of a file of a group to one of the host, in place of one that is there.
#[tactic(auto, using(session::proofs::Carrying::carries_none))]
fn write_host<B: Bay, H: Host>(
    alloc: Global,
    session: &Session,
    bay: &mut B,
    host: &mut H,
    group: &Name,
    file: &OpenFile,
    to: &str,
    buf: &mut [u8],
) -> Result<(), Refusal>
    requires ready { AreReady session.now.groups (B.state bay.old) }
    ensures carries { CarriesOn session.now session.now (B.state bay.old) (B.state bay.new) }
    ensures cause { IfErr result (HostFaultCause (IsAt to.now) (H.faults host.old)
        (H.faults host.new)) }
{
    match host.create(to) {
        Ok(()) => append_all(alloc, session, bay, host, group, file, to, buf),
        Err(error) => Err(host_refusal(alloc, to, error)),
    }
}

/// Copies a file of a group to one of the host, in place of one that is there.
#[tactic(auto, using(session::proofs::Carrying::carries_none))]
fn copy_to_host<B: Bay, H: Host>(
    alloc: Global,
    session: &Session,
    bay: &mut B,
    host: &mut H,
    source: &Source<'_>,
    path: &[u8],
) -> Result<List<Text>, Refusal>
    requires ready { AreReady session.now.groups (B.state bay.old) }
    ensures carries { CarriesOn session.now session.now (B.state bay.old) (B.state bay.new) }
    ensures cause { IfErr result (HostFaultCause (IsAt path.now) (H.faults host.old)
        (H.faults host.new)) }
{
    let to = host_path(alloc, path)?;
    let Source::File { group, file } = source else {
        return Err(Refusal::NoGroup);
    };
    let Ok(mut buf) = buffer(alloc, file.size(), 0) else {
        return Err(Refusal::NoMemory);
    };
    let done = write_host(alloc, session, bay, host, group, file, to, &mut buf);
    drop(buf);
    match done {
        Ok(()) => Ok(List::new(alloc)),
        Err(refusal) => Err(refusal),
    }
}

// ---- cp

/// Copies a source, which has this size, to another place.
fn copy_to<B: Bay, H: Host>(
    alloc: Global,
    session: &mut Session,
    bay: &mut B,
    host: &mut H,
    source: &Source<'_>,
    size: u64,
    to: &[u8],
) -> Result<List<Text>, Refusal>
    requires ready { AreReady session.old.groups (B.state bay.old) }
    requires inside { HasBytes (H.file host.old) source.now size }
    ensures carries { CarriesOn session.old session.new (B.state bay.old) (B.state bay.new) }
    ensures cause { IfErr result (HostFaultCause (IsCopied source.now to.now) (H.faults host.old)
        (H.faults host.new)) }
{
    if is_host_path(to) {
        copy_to_host(alloc, session, bay, host, source, to)
    } else {
        copy_to_group(alloc, session, bay, host, source, size, to)
    }
}

/// Copies a file. The refusals of the source come first, then those of the target, and then
/// ReadFault and the faults of the target.
#[tactic(auto, using(session::proofs::Carrying::carries_none))]
fn copy<B: Bay, H: Host>(
    alloc: Global,
    session: &mut Session,
    bay: &mut B,
    host: &mut H,
    from: &[u8],
    to: &[u8],
) -> Result<List<Text>, Refusal>
    requires ready { AreReady session.old.groups (B.state bay.old) }
    ensures carries { CarriesOn session.old session.new (B.state bay.old) (B.state bay.new) }
    ensures cause { IfErr result (HostCause from.now to.now (H.faults host.old)
        (H.faults host.new)) }
{
    match open_source(alloc, session, host, from) {
        Ok((source, size)) => {
            let told = copy_to(alloc, session, bay, host, &source, size, to);
            drop(source);
            told
        }
        Err(refusal) => Err(refusal),
    }
}

/// cp.
pub fn copy_file<B: Bay, H: Host>(
    desk: &mut Desk<B, H>,
    text: &[u8],
    source: Text,
    target: Text,
) -> Answer
    requires asked { command_of text.now ≡ Asked (CopyFile source target) }
    requires ready { AreReady desk.old.session.groups (B.state desk.old.bay) }
    ensures answers { IsAnswered text.now result desk.old desk.new }
    ensures cause { HostReply source target (H.faults desk.old.host) (H.faults desk.new.host)
        result.reply }
{
    let done = copy(
        desk.alloc,
        &mut desk.session,
        &mut desk.bay,
        &mut desk.host,
        source.as_slice(),
        target.as_slice(),
    );
    answer_lines(desk.alloc, done)
}
