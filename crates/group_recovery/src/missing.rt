// Which disks of a record are missing.
ghost use Rattle.std.specs.Prelude.{◌≡◌, find};
ghost use Rattle.std.specs.List.{list_any};
ghost use Rattle.asm_placement.specs.Modes.{serves};
ghost use Rattle.group_recovery.specs.Missing.{first_missing, has_disk_of_entry, has_units, has_units_of, is_disk_of, is_missing};

use crate::finding::Headed;
use asm_base::Mode;
use status_table::PstEntry;

/// Whether a disk in this mode serves where it is attached.
fn serves(mode: Mode) -> bool
    ensures { result ≡ serves mode }
{
    matches!(mode, Mode::Online | Mode::Syncing | Mode::Dropping)
}

/// Whether an image is the disk of an entry: a member of the id with its number and birth, and at
/// least its units.
fn is_disk_of(id: u64, entry: PstEntry, headed: &Headed) -> bool
    ensures { result ≡ is_disk_of id entry headed.now }
{
    headed.header.id == id
        && (headed.header.number == entry.number
            && (headed.header.birth == entry.birth
                && entry.units as u64 * headed.header.au_size as u64 <= headed.size))
}

/// Whether an image has the number of an entry, and at least its units.
fn has_units_of(entry: PstEntry, headed: &Headed) -> bool
    ensures { result ≡ has_units_of headed.now entry }
{
    headed.header.number == entry.number
        && entry.units as u64 * headed.header.au_size as u64 <= headed.size
}

/// Whether an image has at least the units that the entry of its number has.
pub fn has_units(entries: &[PstEntry], headed: &Headed) -> bool
    ensures { result ≡ has_units entries.now headed.now }
{
    entries.iter().any(|entry| has_units_of(*entry, headed))
}

/// Whether the disk of an entry is among these.
fn has_disk(id: u64, headed: &[Headed], entry: PstEntry) -> bool
    ensures { result ≡ has_disk_of_entry id headed.now entry }
{
    headed.iter().any(|disk| is_disk_of(id, entry, disk))
}

/// Whether an entry's disk must be there, and isn't.
pub fn is_missing(id: u64, headed: &[Headed], entry: PstEntry) -> bool
    ensures { result ≡ is_missing id headed.now entry }
{
    serves(entry.mode) && !has_disk(id, headed, entry)
}

/// The first entry whose disk is missing.
pub fn first_missing(id: u64, headed: &[Headed], entries: &[PstEntry]) -> Option<PstEntry>
    ensures { result ≡ first_missing id headed.now entries.now }
{
    let [first, rest @ ..] = entries else {
        return None;
    };
    if is_missing(id, headed, *first) {
        return Some(*first);
    }
    first_missing(id, headed, rest)
}
