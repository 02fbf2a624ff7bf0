//! Files that come, are filled and go.

ghost use Rattle.group_engine.specs.Mounts.{Takes};

use crate::answers::{Answer, answer_of, refused};
use crate::spelt::read_path;
use asm_base::Path;
use bay::Bay;
use catalog::{FileBy, NewFile};
use group_contents::{create, fill, remove_file};
use group_engine::Mounted;
use std::alloc::Global;

/// The bytes of so many units.
fn bytes_of(units: u64) -> u64 {
    units.min(10_000) * 4096
}

/// Makes a file by the system template of its type.
#[tactic(auto, using(crate::proofs::Taking::kept_takes))]
fn make<B: Bay>(m: &mut Mounted, alloc: Global, bay: &mut B, path: Path, size: u64) -> Answer
    requires takes { Takes m.old (B.state bay.old) }
    ensures takes { Takes m.new (B.state bay.new) }
{
    let new = NewFile {
        path,
        size,
        by: FileBy::System,
    };
    let made = create(m, alloc, bay, &new);
    drop(new);
    match made {
        Ok(_) => Answer::Done,
        Err(refusal) => refused(refusal),
    }
}

/// Makes a file of so many units.
pub fn make_file<B: Bay>(m: &mut Mounted, alloc: Global, bay: &mut B, units: u64) -> Answer
    requires takes { Takes m.old (B.state bay.old) }
    ensures takes { Takes m.new (B.state bay.new) }
{
    match read_path(alloc, b"+D/o/DATAFILE/t") {
        Some(path) => make(m, alloc, bay, path, bytes_of(units)),
        None => Answer::Another,
    }
}

/// Fills so many units of a file at second 7.
#[tactic(auto, using(crate::proofs::Taking::kept_takes))]
pub fn fill_file<B: Bay>(
    m: &mut Mounted,
    alloc: Global,
    bay: &mut B,
    at: &[u8],
    units: u64,
    byte: u8,
) -> Answer
    requires takes { Takes m.old (B.state bay.old) }
    ensures takes { Takes m.new (B.state bay.new) }
{
    let Some(path) = read_path(alloc, at) else {
        return Answer::Another;
    };
    let answer = answer_of(fill(m, alloc, bay, &path, 0, bytes_of(units), byte, 7));
    drop(path);
    answer
}

/// Removes a file.
#[tactic(auto, using(crate::proofs::Taking::kept_takes))]
pub fn remove_file_at<B: Bay>(m: &mut Mounted, alloc: Global, bay: &mut B, at: &[u8]) -> Answer
    requires takes { Takes m.old (B.state bay.old) }
    ensures takes { Takes m.new (B.state bay.new) }
{
    let Some(path) = read_path(alloc, at) else {
        return Answer::Another;
    };
    let answer = answer_of(remove_file(m, alloc, bay, &path));
    drop(path);
    answer
}
