// Looks at images: each is attached, synced, and its header is read.
ghost use Rattle.std.specs.Prelude.{◌≡◌, ◌≤◌, ◌<◌, ◌*◌, ◌∷◌, ◌++◌, [], Some, length, IfOk, OnOk, IsSome, IsTrue};
ghost use Rattle.bay.specs.State.{IsSlot, size_of};
ghost use Rattle.asm_formats.specs.Header.{is_header};
ghost use Rattle.disk_images.specs.Looks.{Looks, IsAllowed, IsDecoded, IsHeaderHeld, IsHeaderLeft, IsLooked, AreLooked, ReadsHeader};

use bay::{Bay, BayError, Fault};
use body_slot::is_open;
use disk_forming::header_slot;
use disk_header::{BLOCK, Block, Header, LEAST_SIZE, NoMemory, decode};
use std::alloc::Global;

/// What a look at an image has shown. Sizes are in bytes.
#[derive(Debug, Drop)]
pub enum Looked {
    /// The image couldn't be attached.
    Absent,
    /// It was attached, and couldn't be synced or read.
    Unread { size: u64 },
    /// It was attached, and this is its open header, where it has one of the program's form. A
    /// shorter image than 40,960 bytes has none.
    Read { size: u64, header: Option<Header> },
}

/// Looks at each of the program's images, whose places in the list are their slots.
pub fn look_at_images<B: Bay>(
    alloc: Global,
    bay: &mut B,
    paths: &[String],
) -> Result<Vec<Looked>, NoMemory>
    requires few { length paths.now ≤ 512 }
    ensures looks { Looks (λ slot. slot < length paths.now) (4 * length paths.now) (B.state bay.old)
        (B.state bay.new) }
    ensures count { IfOk result (λ found. length found.items ≡ length paths.now) }
    ensures each { IfOk result (λ found. AreLooked found.items (B.state bay.old)
        (B.state bay.new)) }
{
    let mut found = Vec::new(alloc);
    for (slot, path) in paths.iter().enumerate() {
        let looked = look_at(alloc, bay, slot as u32, path.as_str())?;
        keep(&mut found, looked)?;
    }
    Ok(found)
}

/// Puts what was shown behind the others.
fn keep(found: &mut Vec<Looked>, looked: Looked) -> Result<(), NoMemory>
    ensures { OnOk result (found.new.items ≡ found.old.items ++ looked ∷ []) }
{
    found.push(looked).map_err(|_| NoMemory)
}

/// Looks at one image: attaches and syncs it, and reads its open header.
pub fn look_at<B: Bay>(
    alloc: Global,
    bay: &mut B,
    slot: u32,
    path: &str,
) -> Result<Looked, NoMemory>
    ensures looks { Looks (IsSlot slot) 4 (B.state bay.old) (B.state bay.new) }
    ensures looked { IfOk result (λ looked. IsLooked slot looked (B.state bay.old)
        (B.state bay.new)) }
{
    let size = match bay.attach(slot, path) {
        Ok(size) => size,
        Err(BayError::Fault) => return Ok(Looked::Absent),
        Err(BayError::NoMemory) => return Err(NoMemory),
    };
    match settled_header(alloc, bay, slot, size) {
        Ok(header) => Ok(Looked::Read { size, header }),
        Err(BayError::Fault) => Ok(Looked::Unread { size }),
        Err(BayError::NoMemory) => Err(NoMemory),
    }
}

/// The open header of an attached disk of so many bytes, in each image that a stop may leave from
/// then on.
fn settled_header<B: Bay>(
    alloc: Global,
    bay: &mut B,
    slot: u32,
    size: u64,
) -> Result<Option<Header>, BayError>
    requires attached { (B.state bay.old).attached slot ≡ Some size }
    ensures { ReadsHeader slot 3 (IsAllowed size) (IsHeaderLeft slot) result (B.state bay.old)
        (B.state bay.new) }
{
    match bay.sync(slot) {
        Ok(()) => read_header(alloc, bay, slot, size),
        Err(Fault) => Err(BayError::Fault),
    }
}

/// The open header of the disk of a slot, which has so many bytes, as the disk holds it.
pub fn read_header<B: Bay>(
    alloc: Global,
    bay: &mut B,
    slot: u32,
    size: u64,
) -> Result<Option<Header>, BayError>
    requires attached { (B.state bay.old).attached slot ≡ Some size }
    ensures { ReadsHeader slot 2 (IsAllowed size) (IsHeaderHeld slot) result (B.state bay.old)
        (B.state bay.new) }
{
    if size < LEAST_SIZE {
        return Ok(None);
    }
    match is_open(bay, slot, header_slot(4096)) {
        Ok(true) => read_body(alloc, bay, slot),
        Ok(false) => Ok(None),
        Err(Fault) => Err(BayError::Fault),
    }
}

/// The header behind an open gate.
fn read_body<B: Bay>(alloc: Global, bay: &mut B, slot: u32) -> Result<Option<Header>, BayError>
    requires attached { IsSome ((B.state bay.old).attached slot) }
    requires long { 8192 ≤ size_of (B.state bay.old) slot }
    ensures { ReadsHeader slot 1 (λ header. IsTrue (is_header header)) (IsDecoded slot) result
        (B.state bay.old) (B.state bay.new) }
{
    let mut block = Block::zeros();
    if bay.read(slot, BLOCK, &mut block.bytes[..]).is_err() {
        return Err(BayError::Fault);
    }
    match decode(alloc, &block) {
        Ok(header) => Ok(header),
        Err(NoMemory) => Err(BayError::NoMemory),
    }
}
