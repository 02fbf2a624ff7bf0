//! Status records of an ADD or ONLINE.
ghost use Rattle.std.specs.Prelude.{◌≡◌, OnOk};
ghost use Rattle.asm_formats.specs.Status.{entry_of};
ghost use Rattle.file_extents.specs.group_engine.Mounts.{Takes};
ghost use Rattle.file_extents.specs.group_engine.Pending.{GoesOn};
ghost use Rattle.status_register.specs.Holders.{with_next_number};

use bay::Bay;
use file_extents::Mounted;
use refusal_lines::Refusal;
use status_table::{PstEntry, PstRecord};
use std::alloc::Global;

/// The entry of a disk among these.
#[tactic(auto, unfolding(asm_formats::specs::Status::entry_of))]
fn entry_among(entries: &[PstEntry], number: u8) -> Option<PstEntry>
    ensures { result ≡ entry_of entries.now number }
{
    for entry in entries {
        if entry.number == number {
            return Some(*entry);
        }
    }
    None
}

/// The entry of a disk.
pub fn entry_of(status: &PstRecord, number: u8) -> Option<PstEntry>
    ensures { result ≡ entry_of status.now.entries number }
{
    entry_among(status.entries(), number)
}

/// Writes a status record. One that may not come next is answered as want of memory: no call makes
/// such a record. Refusals: Dismounted, NoMemory; NoMemory leaves the value as before.
pub fn write_next<B: Bay>(
    m: &mut Mounted,
    alloc: Global,
    bay: &mut B,
    next: &PstRecord,
) -> Result<(), Refusal>
    requires takes { Takes m.old (B.state bay.old) }
    ensures goes { GoesOn m.old result m.new (B.state bay.old) (B.state bay.new) }
    ensures tables { m.new.catalog.tables ≡ m.old.catalog.tables }
    ensures recorded { OnOk result (m.new.register.value
        ≡ with_next_number m.old.register next.now) }
{
    if !m.may_get(next) {
        return Err(Refusal::NoMemory);
    }
    m.set_status(alloc, bay, next)
}
