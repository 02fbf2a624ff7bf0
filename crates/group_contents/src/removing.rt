//! Files that go.
ghost use Rattle.std.specs.Bool.{OnTrue};
ghost use Rattle.std.specs.Prelude.{◌≡◌, ◌⊎◌, IfErr, IfOk, IsTrue, None, OnOk};
ghost use Rattle.file_extents.specs.file_directory.Files.{is_file_number};
ghost use Rattle.asm_group.specs.TreeEdits as e;
ghost use Rattle.file_extents.specs.catalog.TreePlans.{IsTreePlan, IsTreeRefusal};
ghost use Rattle.file_extents.specs.group_engine.Commits.{StatusCause};
ghost use Rattle.file_extents.specs.group_engine.Mounts.{IsMounted, MountedGroup, Takes};
ghost use Rattle.file_extents.specs.group_engine.Own.{KeepsGroup};
ghost use Rattle.file_extents.specs.group_engine.Pending.{GoesOn};
ghost use Rattle.group_contents.specs.Files.{OpenCause};
ghost use Rattle.group_contents.specs.Removing.{DropsDirectory, IsRemoved, RemoveCause, RemovesPath, RemovesFile, leads_to_directory};

use crate::opening::open;
use asm_base::{Change, NoMemory, NodeKind, Path};
use bay::Bay;
use file_extents::{Catalog, Mounted, TreeEdit, is_at_rest};
use refusal_lines::Refusal;
use std::alloc::Global;

/// Whether no operation is pending, and the file has a head.
fn may_unname(m: &Mounted, file: u32) -> bool
    ensures rest { OnTrue result (m.now.catalog.tables.operations.pending ≡ None) }
    ensures file { OnTrue result (IsTrue (is_file_number m.now.catalog.tables.files file)) }
{
    is_at_rest(m) && m.catalog().file(file).is_some()
}

/// Takes away a file's head and its names, and begins its removal.
fn unname<B: Bay>(m: &mut Mounted, alloc: Global, bay: &mut B, file: u32) -> Result<(), Refusal>
    requires mounted { IsMounted m.old }
    requires takes { Takes m.old (B.state bay.old) }
    ensures goes { GoesOn m.old result m.new (B.state bay.old) (B.state bay.new) }
    ensures removed { OnOk result (RemovesFile m.old file m.new) }
{
    m.set_flight(None);
    if !may_unname(m, file) {
        return Err(Refusal::NoMemory);
    }
    match m.catalog().plan_unname(alloc, file) {
        Ok(change) => m.commit_plan(alloc, bay, &change),
        Err(_) => Err(Refusal::NoMemory),
    }
}

/// Takes away a file and its names, and then its extents, chunk by chunk from the last. Refusals:
/// Dismounted and NoMemory; once the names are gone the file is, also after these.
fn remove_number<B: Bay>(
    m: &mut Mounted,
    alloc: Global,
    bay: &mut B,
    file: u32,
) -> Result<(), Refusal>
    requires mounted { IsMounted m.old }
    requires takes { Takes m.old (B.state bay.old) }
    ensures keeps { KeepsGroup m.old m.new (B.state bay.old) (B.state bay.new) }
    ensures cause { IfErr result (StatusCause m.old m.new (B.state bay.old) (B.state bay.new)) }
    ensures removed { OnOk result ((after : MountedGroup) × RemovesFile m.old file after) }
    ensures ended { OnOk result (m.new.catalog.tables.operations.pending ≡ None) }
{
    match unname(m, alloc, bay, file) {
        Ok(()) => m.end_pending(alloc, bay),
        Err(refusal) => Err(refusal),
    }
}

/// Takes away the file at a path, its system name or its alias, with both names. Refusals in their
/// order: NoName, where no file is there; Dismounted.
pub fn remove_file<B: Bay>(
    m: &mut Mounted,
    alloc: Global,
    bay: &mut B,
    path: &Path,
) -> Result<(), Refusal>
    requires takes { Takes m.old (B.state bay.old) }
    ensures keeps { KeepsGroup m.old m.new (B.state bay.old) (B.state bay.new) }
    ensures cause { IfErr result (λ refusal. OpenCause m.old path.now.parts refusal
        ⊎ StatusCause m.old m.new (B.state bay.old) (B.state bay.new) refusal) }
    // The head and the names of the file at the path were taken away, and then its extents, and
    // nothing is pending.
    ensures removed { OnOk result (IsRemoved m.old path.now.parts m.new) }
{
    m.takes_calls()?;
    match open(m, path) {
        Ok(file) => remove_number(m, alloc, bay, file.file),
        Err(refusal) => Err(refusal),
    }
}

/// Whether a path leads to a directory, or to the root.
fn is_directory(m: &Mounted, path: &Path) -> bool
    ensures { result ≡ leads_to_directory m.now.catalog.tables path.now.parts }
{
    match m.catalog().find(path) {
        Some(number) => match m.catalog().node(number) {
            Some(node) => matches!(node.kind, NodeKind::Directory),
            None => true,
        },
        None => false,
    }
}

/// The change that takes away an empty directory.
fn plan_drop(catalog: &Catalog, alloc: Global, path: &Path) -> Result<Change, Refusal>
    ensures planned { IfOk result (λ change. IsTreePlan catalog.now (e.DropDir path.now.parts)
        change.put change.gone) }
    ensures refused { IfErr result (IsTreeRefusal catalog.now (e.DropDir path.now.parts)) }
{
    match path.copy() {
        Ok(path) => {
            let edit = TreeEdit::DropDir { path };
            let plan = catalog.plan_tree(alloc, &edit);
            drop(edit);
            plan
        }
        Err(NoMemory) => Err(Refusal::NoMemory),
    }
}

/// Takes away an empty directory.
fn remove_directory<B: Bay>(
    m: &mut Mounted,
    alloc: Global,
    bay: &mut B,
    path: &Path,
) -> Result<(), Refusal>
    requires mounted { IsMounted m.old }
    requires takes { Takes m.old (B.state bay.old) }
    ensures keeps { KeepsGroup m.old m.new (B.state bay.old) (B.state bay.new) }
    ensures cause { IfErr result (λ refusal. IsTreeRefusal m.old.catalog (e.DropDir path.now.parts)
        refusal ⊎ StatusCause m.old m.new (B.state bay.old) (B.state bay.new) refusal) }
    ensures dropped { OnOk result (DropsDirectory m.old path.now.parts m.new) }
{
    match plan_drop(m.catalog(), alloc, path) {
        Ok(change) => m.commit_plan(alloc, bay, &change),
        Err(refusal) => Err(refusal),
    }
}

/// Takes away the file at a path, as `remove_file`, or the directory, as the edit of the tree does.
/// Refusals in their order: NoName; those of the edit; Dismounted.
pub fn remove<B: Bay>(
    m: &mut Mounted,
    alloc: Global,
    bay: &mut B,
    path: &Path,
) -> Result<(), Refusal>
    requires takes { Takes m.old (B.state bay.old) }
    ensures keeps { KeepsGroup m.old m.new (B.state bay.old) (B.state bay.new) }
    ensures cause { IfErr result (RemoveCause m.old path.now.parts m.new (B.state bay.old)
        (B.state bay.new)) }
    ensures removed { OnOk result (RemovesPath m.old path.now.parts m.new) }
{
    m.takes_calls()?;
    if is_directory(m, path) {
        remove_directory(m, alloc, bay, path)
    } else {
        remove_file(m, alloc, bay, path)
    }
}
