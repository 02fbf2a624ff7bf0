//! Commits of a group's tables.

ghost use Rattle.std.specs.Prelude.{◌≡◌, ◌+◌, ◌++◌, ◌∷◌, [], IfOk, IfSome, None, OnOk, length};
ghost use Rattle.std.specs.Bool.{OnTrue};
ghost use Rattle.file_directory.specs.Files.{head_at};
ghost use Rattle.group_engine.specs.Mounts.{Takes};
ghost use Rattle.group_tests.specs.Commits.{MayCommitChange, PutsNone};

use crate::answers::{Answer, answer_of, refused};
use crate::spelt::read_path;
use alias_edits::TreeEdit;
use asm_base::{Change, Key, List, Name, NoMemory, PendingKind, Stripe, Value};
use bay::Bay;
use catalog::Catalog;
use file_directory::{FileHead, record_of};
use group_engine::Mounted;
use operations_directory::Pending;
use std::alloc::Global;

/// Commits a change, which goes then.
#[tactic(auto, using(crate::proofs::Taking::kept_takes))]
fn commit<B: Bay>(m: &mut Mounted, alloc: Global, bay: &mut B, change: Change) -> Answer
    requires takes { Takes m.old (B.state bay.old) }
    requires may { MayCommitChange m.old.catalog change.put change.gone }
    ensures takes { Takes m.new (B.state bay.new) }
{
    let answer = answer_of(m.commit(alloc, bay, &change));
    drop(change);
    answer
}

/// The change that makes a directory, or why there is none.
#[tactic(auto, using(crate::proofs::Commits::tree_planned))]
fn dir_change(alloc: Global, catalog: &Catalog, at: &[u8]) -> Result<Change, Answer>
    ensures { IfOk result (λ change. MayCommitChange catalog.now change.put change.gone) }
{
    let Some(path) = read_path(alloc, at) else {
        return Err(Answer::Another);
    };
    let edit = TreeEdit::MakeDir { path };
    if !edit.is_allowed() {
        drop(edit);
        return Err(Answer::Another);
    }
    let planned = catalog.plan_tree(alloc, &edit);
    drop(edit);
    match planned {
        Ok(change) => Ok(change),
        Err(refusal) => Err(refused(refusal)),
    }
}

/// Makes a directory.
pub fn commit_dir<B: Bay>(m: &mut Mounted, alloc: Global, bay: &mut B, at: &[u8]) -> Answer
    requires takes { Takes m.old (B.state bay.old) }
    ensures takes { Takes m.new (B.state bay.new) }
{
    match dir_change(alloc, m.catalog(), at) {
        Ok(change) => commit(m, alloc, bay, change),
        Err(answer) => answer,
    }
}

/// Makes so many directories in the root, at most 250. Whether all are made.
pub fn commit_dirs<B: Bay>(m: &mut Mounted, alloc: Global, bay: &mut B, count: u8) -> bool
    requires takes { Takes m.old (B.state bay.old) }
    ensures takes { Takes m.new (B.state bay.new) }
{
    for i in 0..count {
        let at = [b'+', b'D', b'/', b'a' + i / 10 % 26, b'0' + i % 10];
        if commit_dir(m, alloc, bay, &at) != Answer::Done {
            return false;
        }
    }
    true
}

/// A head of no bytes.
fn head(alloc: Global) -> Option<FileHead> {
    match Name::read(alloc, b"T", 30) {
        Ok(Some(kind)) => Some(FileHead {
            copies: 2,
            stripe: Stripe::Coarse,
            kind,
            size: 0,
            incarnation: 1,
            system: 1,
            alias: 0,
        }),
        _ => None,
    }
}

/// Whether the group hasn't a file.
fn is_new(catalog: &Catalog, file: u32) -> bool
    ensures { OnTrue result (head_at catalog.now.tables.files file ≡ None) }
{
    catalog.file(file).is_none()
}

/// Puts a record, and takes it away again.
fn put_none(change: &mut Change, entry: (Key, Value)) -> Result<(), NoMemory>
    ensures put { OnOk result (change.new.put ≡ change.old.put ++ entry ∷ []) }
    ensures gone { OnOk result (change.new.gone ≡ change.old.gone ++ entry.0 ∷ []) }
{
    let key = entry.0;
    change.put.push(entry)?;
    change.gone.push(key)
}

/// Puts a head of a file, and takes it away again.
fn put_head(
    alloc: Global,
    catalog: &Catalog,
    change: &mut Change,
    file: u32,
    head: &FileHead,
) -> bool
    requires none { PutsNone catalog.now.tables change.old.put change.old.gone }
    ensures none { OnTrue result (PutsNone catalog.now.tables change.new.put change.new.gone) }
    ensures put { OnTrue result (length change.new.put ≡ length change.old.put + 1) }
    ensures gone { OnTrue result (length change.new.gone ≡ length change.old.gone + 1) }
{
    if !is_new(catalog, file) {
        return false;
    }
    if !head.is_allowed(file) {
        return false;
    }
    let Ok(entry) = record_of(alloc, file, head) else {
        return false;
    };
    match put_none(change, entry) {
        Ok(()) => true,
        Err(_) => false,
    }
}

/// The change that puts heads of so many files from 1,000 on, which the group hasn't, and takes
/// them away again.
#[tactic(auto, using(crate::proofs::Commits::nothing_put, crate::proofs::Commits::none_commits))]
fn heads_change(alloc: Global, catalog: &Catalog, count: u8) -> Option<Change>
    ensures { IfSome result (λ change. MayCommitChange catalog.now change.put change.gone) }
{
    let head = head(alloc)?;
    // The tables keep their rules: the proof takes this from here.
    let _shape = catalog.shape();
    let mut change = Change {
        put: List::new(alloc),
        gone: List::new(alloc),
    };
    for i in 0..count.min(32) {
        if !put_head(alloc, catalog, &mut change, 1_000 + i as u32, &head) {
            return None;
        }
    }
    Some(change)
}

/// Puts heads of so many files and takes them away again, by one commit.
pub fn put_heads<B: Bay>(m: &mut Mounted, alloc: Global, bay: &mut B, count: u8) -> Answer
    requires takes { Takes m.old (B.state bay.old) }
    ensures takes { Takes m.new (B.state bay.new) }
{
    match heads_change(alloc, m.catalog(), count) {
        Some(change) => commit(m, alloc, bay, change),
        None => Answer::Another,
    }
}

/// Whether the tables have no chunk of extents.
fn has_no_chunk(catalog: &Catalog) -> bool
    ensures { OnTrue result (catalog.now.tables.extents ≡ []) }
{
    catalog.chunks().next().is_none()
}

/// The change by which the operation that makes file 256 is pending.
#[tactic(auto, using(crate::proofs::Commits::owned_planned))]
fn begin_change(alloc: Global, catalog: &Catalog) -> Result<Change, Answer>
    ensures { IfOk result (λ change. MayCommitChange catalog.now change.put change.gone) }
{
    if !has_no_chunk(catalog) {
        return Err(Answer::Another);
    }
    let op = Pending {
        kind: PendingKind::Create,
        file: 256,
        kept: 0,
    };
    match catalog.plan_begin(alloc, op) {
        Ok(change) => Ok(change),
        Err(refusal) => Err(refused(refusal)),
    }
}

/// Begins the operation that makes file 256.
pub fn begin<B: Bay>(m: &mut Mounted, alloc: Global, bay: &mut B) -> Answer
    requires takes { Takes m.old (B.state bay.old) }
    ensures takes { Takes m.new (B.state bay.new) }
{
    match begin_change(alloc, m.catalog()) {
        Ok(change) => commit(m, alloc, bay, change),
        Err(answer) => answer,
    }
}
