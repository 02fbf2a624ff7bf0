//! A group is created.

ghost use Rattle.std.specs.Prelude.{◌≤◌, ◌<◌, [], All, IfErr, IfOk, IfSome, IsSome, OnOk, Some, length, map};
ghost use Rattle.std.specs.String.{string_bytes};
ghost use Rattle.refusal_lines.specs.Refusals.{meaning_of};
ghost use Rattle.bay.specs.Counts.{last_count};
ghost use Rattle.mounted_groups.specs.FirstParts.{IsNewlyMounted};
ghost use Rattle.mounted_groups.specs.Holding.{SparesHeld};
ghost use Rattle.mounted_groups.specs.group_engine.Frames.{StaysAttached};
ghost use Rattle.new_groups.specs.Drafts.{HasAgreeingParts, AreFreeDisks, AreLists};
ghost use Rattle.new_groups.specs.Forming.{IsFormRefusal, Works};
ghost use Rattle.new_groups.specs.Preparing.{IsCreationRefusal};

use crate::asked::{GroupAsked, Known};
use crate::forming::form;
use crate::mounting::mount_formed;
use crate::preparing::{Ready, prepare};
use asm_base::NoMemory;
use bay::Bay;
use mounted_groups::Mounted;
use refusal_lines::Refusal;
use std::alloc::Global;

/// Forms and mounts a group that is ready.
fn form_ready<B: Bay>(
    alloc: Global,
    bay: &mut B,
    ready: Ready,
    slots: usize,
    held: &[u32],
) -> Result<Mounted, Refusal>
    requires agrees { HasAgreeingParts ready.draft }
    requires lists { AreLists ready.draft ready.lists }
    requires free { AreFreeDisks slots held.now ready.draft.disks.items (B.state bay.old) }
    ensures works { Works ready.draft.disks.items (B.state bay.old) (B.state bay.new) }
    ensures cause { IfErr result (λ refusal. IsFormRefusal ready.draft.disks.items
        (meaning_of (λ _. []) refusal) (B.state bay.old) (B.state bay.new)) }
    ensures mounted { IfOk result (λ m. IsNewlyMounted held.now ready.draft.name
        (Some ready.draft.status.id) m (B.state bay.new)) }
{
    match form(alloc, bay, &ready) {
        Ok(formed) => match mount_formed(alloc, bay, ready.draft, formed) {
            Ok(group) => Ok(group),
            Err(NoMemory) => Err(Refusal::NoMemory),
        },
        Err(refusal) => Err(refusal),
    }
}

/// Creates a group on images of the program. The ids in the headers that were read are put into
/// `ids`. The first part of the answer is the group's id where the creation came to write: at least
/// the floor, and above each of these ids. The second is the new group, mounted. Refusals in their
/// order: BadAttribute, TooMany, NoDisk, DiskTaken or WriteFault, NameTaken, TooSmall,
/// TooFewGroups; then WriteFault by a disk that failed. NoMemory at any point, also where a part of
/// the group doesn't agree with another, which no call leaves so.
pub fn create_group<B: Bay>(
    alloc: Global,
    bay: &mut B,
    paths: &[String],
    asked: &GroupAsked,
    known: &Known,
    ids: &mut Vec<u64>,
) -> (Option<u64>, Result<Mounted, Refusal>)
    requires few { length paths.now ≤ 512 }
    ensures given { OnOk result.1 (IsSome result.0) }
    ensures floor { IfSome result.0 (λ id. known.now.floor ≤ id) }
    ensures above_read { IfSome result.0 (λ id. id < last_count
        → All (λ other. other < id) ids.new.items) }
    // Why it is refused.
    ensures cause { IfErr result.1 (λ refusal. IsCreationRefusal (map string_bytes paths.now)
        asked.now known.now result.0 (meaning_of (λ _. []) refusal) (B.state bay.old)
        (B.state bay.new)) }
    // The new group takes calls, on disks that no other group holds.
    ensures mounted { IfOk result.1 (λ m. IsNewlyMounted known.now.held.items asked.now.name
        result.0 m (B.state bay.new)) }
    // Of other groups nothing changes: what was attached stays so, and the disks in these slots do.
    ensures attached { StaysAttached (B.state bay.old) (B.state bay.new) }
    ensures spares { SparesHeld known.now.held.items (length paths.now) (B.state bay.old)
        (B.state bay.new) }
{
    match prepare(alloc, bay, paths, asked, known, ids) {
        Ok(ready) => {
            let id = ready.draft.status.id;
            let slots = paths.len();
            let made = form_ready(alloc, bay, ready, slots, &known.held);
            (Some(id), made)
        }
        Err(refusal) => (None, Err(refusal)),
    }
}
