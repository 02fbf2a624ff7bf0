// What the images hold: the headers of all that can be had.
ghost use Rattle.std.specs.Prelude.{◌≡◌, ◌≤◌, ◌<◌, [], ℕ, length, map, IfOk, MatchOption};
ghost use Rattle.std.specs.String.{string_bytes};
ghost use Rattle.mounted_groups.specs.Found.{counts_of, IsSlotOfPath};
ghost use Rattle.mounted_groups.specs.Looks.{LooksAt, LooksAtAll, Notes};
ghost use Rattle.mounted_groups.specs.Probes.{IsShown};

use asm_base::NoMemory;
use bay::{Bay, BayError};
use group_recovery::read_header;
use std::alloc::Global;

/// What a look at an image has shown. Sizes are in bytes.
#[derive(Clone, Copy, Debug)]
pub enum Probe {
    /// The image couldn't be attached.
    Absent,
    /// It was attached, and its header couldn't be read.
    Unread { size: u64 },
    /// It was attached, and has this group's id in its open header, or no such header.
    Read { size: u64, id: Option<u64> },
}

/// The slot of the image at a path.
pub fn slot_of(paths: &[String], path: &[u8]) -> Option<u32>
    requires few { length paths.now ≤ 512 }
    ensures { MatchOption result
        ((slot : ℕ) → IsSlotOfPath (map string_bytes paths.now) path.now slot → ⊥)
        (λ slot. IsSlotOfPath (map string_bytes paths.now) path.now slot) }
{
    for (slot, other) in paths.iter().enumerate() {
        if other.as_bytes() == path {
            return Some(slot as u32);
        }
    }
    None
}

/// Looks at every image, puts the ids in the headers that were read into `ids`, and gives what the
/// look at one slot showed.
pub fn look_at_all<B: Bay>(
    alloc: Global,
    bay: &mut B,
    paths: &[String],
    wanted: u32,
    ids: &mut Vec<u64>,
) -> Result<Probe, NoMemory>
    requires few { length paths.now ≤ 512 }
    requires wanted { wanted < length paths.now }
    requires none { ids.old.items ≡ [] }
    ensures looks { LooksAtAll (length paths.now) result ids.new.items (B.state bay.old)
        (B.state bay.new) }
    ensures shown { IfOk result (λ probe. IsShown wanted probe (counts_of (B.state bay.old))
        (counts_of (B.state bay.new))) }
{
    let mut found = Probe::Absent;
    for (slot, path) in paths.iter().enumerate() {
        let probe = look_and_note(alloc, bay, slot as u32, path.as_str(), ids)?;
        if slot == wanted as usize {
            found = probe;
        }
    }
    Ok(found)
}

/// Looks at an image, and puts the id in its header behind the others.
fn look_and_note<B: Bay>(
    alloc: Global,
    bay: &mut B,
    slot: u32,
    path: &str,
    ids: &mut Vec<u64>,
) -> Result<Probe, NoMemory>
    ensures look { LooksAt slot result (B.state bay.old) (B.state bay.new) }
    ensures notes { Notes result ids.old.items ids.new.items }
{
    let probe = look(alloc, bay, slot, path)?;
    if let Probe::Read { id: Some(id), .. } = probe {
        ids.push(id).map_err(|_| NoMemory)?;
    }
    Ok(probe)
}

/// Attaches an image, and reads its header.
fn look<B: Bay>(alloc: Global, bay: &mut B, slot: u32, path: &str) -> Result<Probe, NoMemory>
    ensures { LooksAt slot result (B.state bay.old) (B.state bay.new) }
{
    let size = match bay.attach(slot, path) {
        Ok(size) => size,
        Err(BayError::Fault) => return Ok(Probe::Absent),
        Err(BayError::NoMemory) => return Err(NoMemory),
    };
    match read_header(alloc, bay, slot, size) {
        Ok(Some(header)) => Ok(Probe::Read {
            size,
            id: Some(header.id),
        }),
        Ok(None) => Ok(Probe::Read { size, id: None }),
        Err(BayError::Fault) => Ok(Probe::Unread { size }),
        Err(BayError::NoMemory) => Err(NoMemory),
    }
}
