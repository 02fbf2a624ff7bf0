//! New files.
ghost use Rattle.std.specs.Bool.{OnTrue};
ghost use Rattle.std.specs.Option.{option_copied};
ghost use Rattle.std.specs.Prelude.{◌≡◌, ◌⊎◌, IfErr, IfOk, None, OnOk};
ghost use Rattle.refusal_lines.specs.declared.refusal.Refusal.TheVariants.{NoTemplate};
ghost use Rattle.file_extents.specs.catalog.NamePlans.{IsFileBeingMade, made_file};
ghost use Rattle.file_extents.specs.group_engine.Commits.{StatusCause};
ghost use Rattle.file_extents.specs.group_engine.Mounts.{IsMounted, MountedGroup, Takes};
ghost use Rattle.file_extents.specs.group_engine.Own.{KeepsGroup};
ghost use Rattle.file_extents.specs.group_engine.Pending.{GoesOn};
ghost use Rattle.file_extents.specs.Filling.{end_by};
ghost use Rattle.group_contents.specs.Creating.{AreNext, AreOfNew, BeginCause, BegunCause, CreateCause, HasAskedExtents, IsCreationPending, IsBy, IsChosen, IsTemplateCause, NamesFile, NewCause, RoomCause, template_in};
ghost use Rattle.group_contents.specs.Files.{WriteCause};

use crate::buffers::buffer;
use crate::chunks::chunks_of;
use asm_base::{Name, NoMemory, Path, Stripe};
use bay::Bay;
use file_extents::{
    Catalog, Contents, FileBy, Filling, LONGEST_PIECE, Mounted, NewExtents, NewFile, PendingKind,
    begin_operation, copies_for, give_back, give_homes, has_all, is_within_file, layout_of,
    or_shut, prepare, put_zeros, serving_groups, template_for,
};
use refusal_lines::Refusal;
use std::alloc::Global;
use striping::extents_for;

// ---- before anything is changed

/// How many copies a new file has, and how it is striped. NoTemplate: there is no such template.
fn chosen_by(m: &Mounted, new: &NewFile) -> Result<(u8, Stripe), Refusal>
    ensures cause { IfErr result (IsTemplateCause m.now.catalog.tables new.now) }
    ensures chosen { IfOk result (λ chosen. IsChosen m.now new.now new.now.by chosen.0 chosen.1) }
{
    match &new.by {
        FileBy::Given { copies, stripe } => Ok((*copies, *stripe)),
        FileBy::System => by_template(m, &new.path, None),
        FileBy::Template(name) => by_template(m, &new.path, Some(name)),
    }
}

/// The same by the template of a name, or else by the system template of the file's type.
fn by_template(m: &Mounted, path: &Path, name: Option<&Name>) -> Result<(u8, Stripe), Refusal>
    ensures cause { IfErr result (λ e. (e ≡ NoTemplate)
        × (template_in m.now.catalog.tables (option_copied name.entry) path.now.parts ≡ None)) }
    ensures chosen { IfOk result (λ chosen. IsBy m.now
        (template_in m.now.catalog.tables (option_copied name.entry) path.now.parts) chosen.0
        chosen.1) }
{
    let kind = m.catalog().shape().kind;
    let [_, type_name, _] = path.parts.as_slice() else {
        return Err(Refusal::NoTemplate);
    };
    match template_for(m.catalog().templates(), type_name, name) {
        Some(found) => {
            let copies = copies_for(kind, found.copies, serving_groups(m.status()));
            Ok((copies, found.stripe))
        }
        None => Err(Refusal::NoTemplate),
    }
}

/// The extents of a new file, for which there are blocks beside those of its name. DirectoryFull:
/// more are needed than are free.
fn extents_of(
    m: &Mounted,
    copies: u8,
    stripe: Stripe,
    size: u64,
    nodes: u64,
) -> Result<NewExtents, Refusal>
    ensures cause { IfErr result (RoomCause m.now.catalog) }
    ensures extents { IfOk result (AreNext m.now.catalog copies stripe size) }
{
    let Some(layout) = layout_of(m.catalog().shape(), stripe) else {
        return Err(Refusal::NoMemory);
    };
    let count = extents_for(layout, size);
    let need = chunks_of(count)
        .saturating_mul(2)
        .saturating_add(nodes)
        .saturating_add(1);
    let free = m.catalog().free_blocks();
    if free < need {
        return Err(Refusal::DirectoryFull { need, free });
    }
    Ok(NewExtents {
        file: m.catalog().next_file(),
        copies,
        first: 0,
        count,
    })
}

/// Looks whether a file may be made, and has the memory for its extents; nothing is changed.
/// Refusals in their order: NoTemplate, NotSectors, NotDirectory, NameTaken, DirectoryFull.
fn prepare_new(
    m: &Mounted,
    alloc: Global,
    new: &NewFile,
    contents: Contents,
) -> Result<Filling, Refusal>
    ensures cause { IfErr result (NewCause m.now new.now) }
    ensures extents { IfOk result (λ filling. AreOfNew m.now new.now filling.extents) }
    ensures end { IfOk result (λ filling. end_by contents new.now.size filling.end) }
    ensures failed { IfOk result (λ filling. filling.failed ≡ 0) }
{
    let (copies, stripe) = chosen_by(m, new)?;
    let nodes = m.catalog().check_name(alloc, new)?;
    let extents = extents_of(m, copies, stripe, new.size, nodes)?;
    match prepare(m, alloc, extents, stripe, contents, new.size) {
        Ok(filling) => Ok(filling),
        Err(NoMemory) => Err(Refusal::NoMemory),
    }
}

// ---- its begin

/// Begins a file that was looked at: its creation is the pending operation, and then its extents
/// get homes.
fn begin_prepared<B: Bay>(
    m: &mut Mounted,
    alloc: Global,
    bay: &mut B,
    filling: &mut Filling,
) -> Result<(), Refusal>
    requires mounted { IsMounted m.old }
    requires takes { Takes m.old (B.state bay.old) }
    ensures keeps { KeepsGroup m.old m.new (B.state bay.old) (B.state bay.new) }
    ensures mounted { OnOk result (IsMounted m.new) }
    ensures cause { IfErr result (BegunCause m.old filling.old.extents m.new (B.state bay.old)
        (B.state bay.new)) }
    ensures end { filling.new.end ≡ filling.old.end }
    ensures failed { filling.new.failed ≡ filling.old.failed }
{
    match begin_operation(m, alloc, bay, PendingKind::Create, filling.extents) {
        Ok(()) => give_homes(m, alloc, bay, filling),
        Err(refusal) => Err(refusal),
    }
}

/// Begins a file: its creation is the pending operation, and its extents have homes. It isn't there
/// before `finish_new`. Where the one who fills it has no more bytes, `give_up` gives it back.
/// Refusals in their order: NoTemplate, NotSectors, NotDirectory, NameTaken, DirectoryFull, before
/// which nothing is changed, and the move in flight goes on; then Dismounted, by the commit of the
/// operation, and NoSpace, after which it is given back. The move in flight is given up before the
/// last two.
pub fn begin_new<B: Bay>(
    m: &mut Mounted,
    alloc: Global,
    bay: &mut B,
    new: &NewFile,
    contents: Contents,
) -> Result<Filling, Refusal>
    requires takes { Takes m.old (B.state bay.old) }
    ensures keeps { KeepsGroup m.old m.new (B.state bay.old) (B.state bay.new) }
    ensures mounted { OnOk result (IsMounted m.new) }
    ensures cause { IfErr result (BeginCause m.old new.now m.new (B.state bay.old)
        (B.state bay.new)) }
    ensures end { IfOk result (λ filling. end_by contents new.now.size filling.end) }
    ensures failed { IfOk result (λ filling. filling.failed ≡ 0) }
{
    m.takes_calls()?;
    let mut filling = prepare_new(m, alloc, new, contents)?;
    match begin_prepared(m, alloc, bay, &mut filling) {
        Ok(()) => Ok(filling),
        Err(refusal) => {
            drop(filling);
            Err(refusal)
        }
    }
}

// ---- its end

/// Whether the creation of this file is pending, and it has no head yet.
fn is_begun(catalog: &Catalog, file: u32) -> bool
    ensures { OnTrue result (IsCreationPending catalog.now.tables file) }
{
    match catalog.pending() {
        Some(op) => {
            matches!(op.kind, PendingKind::Create)
                && op.file == file
                && catalog.file(file).is_none()
        }
        None => false,
    }
}

/// Whether a file has each extent that a size asks for, with all its copies.
fn has_extents(catalog: &Catalog, new: NewExtents, stripe: Stripe, size: u64) -> bool
    ensures { OnTrue result (HasAskedExtents catalog.now stripe size new.file new.copies) }
{
    match layout_of(catalog.shape(), stripe) {
        Some(layout) => has_all(catalog, new.file, new.copies, extents_for(layout, size)),
        None => false,
    }
}

/// Whether the file that is being made has the extents of its size, each with its copies, and no
/// head yet.
fn is_created(catalog: &Catalog, new: NewExtents, stripe: Stripe, size: u64) -> bool
    ensures created { OnTrue result (IsFileBeingMade catalog.now size new.copies stripe) }
    ensures file { OnTrue result (made_file catalog.now.tables ≡ new.file) }
{
    is_begun(catalog, new.file)
        && new.copies >= 1
        && new.copies <= 3
        && has_extents(catalog, new, stripe, size)
        && is_within_file(catalog, new.file, new.copies)
}

/// Commits the name of a file, all of whose bytes are written, and the directories above it that
/// are missing.
fn name_new<B: Bay>(
    m: &mut Mounted,
    alloc: Global,
    bay: &mut B,
    filling: &Filling,
    new: &NewFile,
) -> Result<(), Refusal>
    requires mounted { IsMounted m.old }
    requires takes { Takes m.old (B.state bay.old) }
    ensures goes { GoesOn m.old result m.new (B.state bay.old) (B.state bay.new) }
    ensures named { OnOk result (NamesFile m.old new.now filling.now.extents.file m.new) }
{
    if !is_created(m.catalog(), filling.extents, filling.stripe, new.size) {
        return Err(Refusal::NoMemory);
    }
    match m
        .catalog()
        .plan_name(alloc, new, filling.extents.copies, filling.stripe)
    {
        Ok(change) => m.commit_plan(alloc, bay, &change),
        Err(_) => Err(Refusal::NoMemory),
    }
}

/// The same. After want of memory the group takes no more calls.
fn end_new<B: Bay>(
    m: &mut Mounted,
    alloc: Global,
    bay: &mut B,
    filling: &Filling,
    new: &NewFile,
) -> Result<(), Refusal>
    requires mounted { IsMounted m.old }
    requires takes { Takes m.old (B.state bay.old) }
    ensures goes { GoesOn m.old result m.new (B.state bay.old) (B.state bay.new) }
    ensures named { OnOk result (NamesFile m.old new.now filling.now.extents.file m.new) }
{
    let answer = name_new(m, alloc, bay, filling, new);
    or_shut(m, answer)
}

/// Ends a creation: the file has its name, and nothing is pending. Gives the file's number.
/// Refusals: Dismounted, after which the file is there or not, and NoMemory.
pub fn finish_new<B: Bay>(
    m: &mut Mounted,
    alloc: Global,
    bay: &mut B,
    filling: &Filling,
    new: &NewFile,
) -> Result<u32, Refusal>
    requires takes { Takes m.old (B.state bay.old) }
    ensures keeps { KeepsGroup m.old m.new (B.state bay.old) (B.state bay.new) }
    ensures mounted { OnOk result (IsMounted m.new) }
    ensures cause { IfErr result (StatusCause m.old m.new (B.state bay.old) (B.state bay.new)) }
    // The last commit was that of the file's head and its names, and took away the pending
    // operation.
    ensures named { IfOk result (λ file. NamesFile m.old new.now file m.new) }
{
    m.takes_calls()?;
    match end_new(m, alloc, bay, filling, new) {
        Ok(()) => Ok(filling.extents.file),
        Err(refusal) => Err(refusal),
    }
}

/// Gives a begun file back, for this refusal. After Dismounted, and after want of memory, nothing
/// more is written, and that is the answer.
pub fn give_up<B: Bay>(m: &mut Mounted, alloc: Global, bay: &mut B, refusal: Refusal) -> Refusal
    requires takes { Takes m.old (B.state bay.old) }
    ensures keeps { KeepsGroup m.old m.new (B.state bay.old) (B.state bay.new) }
    ensures cause { (result ≡ refusal) ⊎ StatusCause m.old m.new (B.state bay.old) (B.state bay.new)
        result }
{
    give_back(m, alloc, bay, refusal)
}

// ---- a file of zeros

/// Fills a begun file with zeros, and ends its creation.
fn fill_new<B: Bay>(
    m: &mut Mounted,
    alloc: Global,
    bay: &mut B,
    filling: &mut Filling,
    new: &NewFile,
    zeros: &[u8],
) -> Result<u32, Refusal>
    requires mounted { IsMounted m.old }
    requires takes { Takes m.old (B.state bay.old) }
    requires fresh { filling.old.failed ≡ 0 }
    ensures keeps { KeepsGroup m.old m.new (B.state bay.old) (B.state bay.new) }
    ensures cause { IfErr result (WriteCause m.old m.new (B.state bay.old) (B.state bay.new)) }
    ensures named { IfOk result (λ file. (before : MountedGroup)
        × NamesFile before new.now file m.new) }
{
    match put_zeros(m, alloc, bay, filling, zeros) {
        Ok(()) => finish_new(m, alloc, bay, filling, new),
        Err(refusal) => Err(refusal),
    }
}

/// Makes a file of the zeros of a buffer.
fn create_by<B: Bay>(
    m: &mut Mounted,
    alloc: Global,
    bay: &mut B,
    new: &NewFile,
    zeros: &[u8],
) -> Result<u32, Refusal>
    requires takes { Takes m.old (B.state bay.old) }
    ensures keeps { KeepsGroup m.old m.new (B.state bay.old) (B.state bay.new) }
    ensures cause { IfErr result (CreateCause m.old new.now m.new (B.state bay.old)
        (B.state bay.new)) }
    ensures named { IfOk result (λ file. (before : MountedGroup)
        × NamesFile before new.now file m.new) }
{
    match begin_new(m, alloc, bay, new, Contents::Zeros) {
        Ok(mut filling) => {
            let answer = fill_new(m, alloc, bay, &mut filling, new, zeros);
            drop(filling);
            answer
        }
        Err(refusal) => Err(refusal),
    }
}

/// Makes a file of zeros, chunk by chunk under a pending operation, and its name in the last
/// commit. Gives its number. Refusals in their order: NoTemplate, NotSectors, NotDirectory,
/// NameTaken, DirectoryFull; Dismounted by the commit of the operation, NoSpace; WriteFault, where
/// all copies of an extent failed, and Dismounted. A refusal gives all back.
pub fn create<B: Bay>(
    m: &mut Mounted,
    alloc: Global,
    bay: &mut B,
    new: &NewFile,
) -> Result<u32, Refusal>
    requires takes { Takes m.old (B.state bay.old) }
    ensures keeps { KeepsGroup m.old m.new (B.state bay.old) (B.state bay.new) }
    ensures cause { IfErr result (CreateCause m.old new.now m.new (B.state bay.old)
        (B.state bay.new)) }
    ensures named { IfOk result (λ file. (before : MountedGroup)
        × NamesFile before new.now file m.new) }
{
    let Ok(zeros) = buffer(alloc, LONGEST_PIECE, 0) else {
        return Err(Refusal::NoMemory);
    };
    let answer = create_by(m, alloc, bay, new, &zeros);
    drop(zeros);
    answer
}
