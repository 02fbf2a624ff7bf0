//! What a step calls, and whether the answer is the step's.

ghost use Rattle.group_engine.specs.Mounts.{Takes};

mod changes;
mod files;
mod names;
mod pieces;
mod records;
mod slices;
mod statements;

use crate::answers::{Answer, answer_of, is_answer};
use crate::disks::{attach, sector};
use crate::steps::{Step, home_at};
use bay::Bay;
use changes::{begin, commit_dir, commit_dirs, put_heads};
use files::{fill_file, make_file, remove_file_at};
use group_engine::Mounted;
use names::{make_alias, make_dir};
use pieces::{copy, read, spare, usable, write};
use records::record;
use slices::{end, slice_of, sync};
use statements::state;
use std::alloc::Global;

/// Does a step that calls the group: one on names, files and disks, or another. Whether this comes
/// of it.
pub fn is_done<B: Bay>(alloc: Global, m: &mut Mounted, bay: &mut B, step: Step) -> bool
    requires takes { Takes m.old (B.state bay.old) }
    ensures takes { Takes m.new (B.state bay.new) }
{
    match step {
        Step::MakeDir(at, answer) => is_answer(make_dir(m, alloc, bay, at), answer),
        Step::MakeAlias(alias, at, answer) => {
            is_answer(make_alias(m, alloc, bay, alias, at), answer)
        }
        Step::MakeFile(units, answer) => is_answer(make_file(m, alloc, bay, units), answer),
        Step::FillFile(at, units, byte, answer) => {
            is_answer(fill_file(m, alloc, bay, at, units, byte), answer)
        }
        Step::RemoveFile(at, answer) => is_answer(remove_file_at(m, alloc, bay, at), answer),
        Step::State(statement, answer) => is_answer(state(m, alloc, bay, statement), answer),
        _ => is_of_engine(alloc, m, bay, step),
    }
}

/// Does a step that is one call of the group itself. Whether this comes of it.
#[tactic(auto, using(crate::proofs::Taking::kept_takes, crate::proofs::Taking::let_takes))]
fn is_of_engine<B: Bay>(alloc: Global, m: &mut Mounted, bay: &mut B, step: Step) -> bool
    requires takes { Takes m.old (B.state bay.old) }
    ensures takes { Takes m.new (B.state bay.new) }
{
    match step {
        Step::CommitDir(at, answer) => is_answer(commit_dir(m, alloc, bay, at), answer),
        Step::CommitDirs(count) => commit_dirs(m, alloc, bay, count),
        Step::PutHeads(count, answer) => is_answer(put_heads(m, alloc, bay, count), answer),
        Step::Begin(answer) => is_answer(begin(m, alloc, bay), answer),
        Step::EndPending(answer) => is_answer(answer_of(m.end_pending(alloc, bay)), answer),
        Step::Record(next, answer) => is_answer(record(m, alloc, bay, next), answer),
        Step::Copy(disk, answer) => is_answer(
            answer_of(m.copy_directory(alloc, bay, disk)),
            answer,
        ),
        Step::Leave(disk, answer) => is_answer(answer_of(m.leave(alloc, bay, disk)), answer),
        Step::Attach(slot, number, birth, answer) => {
            attach(m, bay, slot, number, birth) == answer
        }
        Step::End(answer) => is_answer(answer_of(m.end_group(bay)), answer),
        _ => is_of_bytes(alloc, m, bay, step),
    }
}

/// Does a step that reads, writes and copies bytes. Whether this comes of it.
fn is_of_bytes<B: Bay>(alloc: Global, m: &mut Mounted, bay: &mut B, step: Step) -> bool
    requires takes { Takes m.old (B.state bay.old) }
    ensures takes { Takes m.new (B.state bay.new) }
{
    match step {
        Step::Read(piece, answer) => is_answer(read(m, bay, piece), answer),
        Step::Write(piece, byte, answer) => { is_answer(write(m, alloc, bay, piece, byte), answer) }
        Step::WriteUsable(piece, byte, answer) => is_answer(usable(m, bay, piece, byte), answer),
        Step::WriteSpare(home, inner, len, byte, answer) => {
            is_answer(spare(m, bay, home_at(home), inner, len, byte), answer)
        }
        Step::CopyPiece(piece, home, answer) => is_answer(
            copy(m, bay, piece, home_at(home)),
            answer,
        ),
        Step::Sector(slot, unit, inner, answer) => {
            is_answer(sector(m, bay, slot, unit, inner), answer)
        }
        _ => is_of_slices(alloc, m, bay, step),
    }
}

/// Does a slice. Whether it ends so, in so many steps.
fn is_of_slices<B: Bay>(alloc: Global, m: &mut Mounted, bay: &mut B, step: Step) -> bool
    requires takes { Takes m.old (B.state bay.old) }
    ensures takes { Takes m.new (B.state bay.new) }
{
    match step {
        Step::Sync(disk, steps, answer) => { is_ended(sync(m, alloc, bay, disk), answer, steps) }
        Step::Slice(power, steps, answer) => {
            is_ended(slice_of(m, alloc, bay, power), answer, steps)
        }
        Step::ToEnd(power, steps, answer) => { is_ended(end(m, alloc, bay, power), answer, steps) }
        _ => false,
    }
}

/// Whether a slice ended so, in so many steps.
fn is_ended(ended: (Answer, u64), answer: Answer, steps: u64) -> bool {
    ended.1 == steps && is_answer(ended.0, answer)
}
