// The births of disks by their entries.
ghost use Rattle.std.specs.Prelude.{◌≡◌};
ghost use Rattle.std.specs.Bool.{OnTrue};
ghost use Rattle.group_engine.specs.Trying.{HasEntryBirth, birth_in};

use status_register::PstEntry;

/// The birth of a disk by its entry.
#[tactic(auto, unfolding(asm_formats::specs::Status::entry_of))]
fn birth_of(entries: &[PstEntry], disk: u8) -> Option<u64>
    ensures { result ≡ birth_in entries.now disk }
{
    for entry in entries {
        if entry.number == disk {
            return Some(entry.birth);
        }
    }
    None
}

/// Whether a disk has this birth by its entry, where it has one.
pub(crate) fn has_birth(entries: &[PstEntry], disk: u8, birth: u64) -> bool
    ensures { OnTrue result (HasEntryBirth entries.now disk birth) }
{
    match birth_of(entries, disk) {
        Some(other) => birth == other,
        None => true,
    }
}

/// Whether a disk has the same birth by some entries and by others, or no entry in both.
pub(crate) fn has_same_birth(one: &[PstEntry], other: &[PstEntry], disk: u8) -> bool
    ensures { OnTrue result (birth_in one.now disk ≡ birth_in other.now disk) }
{
    let first = birth_of(one, disk);
    let second = birth_of(other, disk);
    match first {
        Some(birth) => match second {
            Some(same) => birth == same,
            None => false,
        },
        None => second.is_none(),
    }
}
