//! What a mounted group tells of its status record.

use super::fact::Fact;
use asm_base::Mode;
use disk_modes::syncing;
use extent_copies::serving_groups;
use group_engine::Mounted;
use relocation::syncing_disk;
use status_table::PstEntry;

/// The entry of a disk among these.
fn entry_in(entries: &[PstEntry], disk: u8) -> Option<PstEntry> {
    for entry in entries {
        if entry.number == disk {
            return Some(*entry);
        }
    }
    None
}

/// The mode of a disk by these entries.
fn mode_in(entries: &[PstEntry], disk: u8) -> Option<Mode> {
    match entry_in(entries, disk) {
        Some(entry) => Some(entry.mode),
        None => None,
    }
}

/// Whether the group tells this of its status record.
pub fn is_of_record(m: &Mounted, fact: Fact) -> bool {
    let value = m.status();
    match fact {
        Fact::Record(epoch, turn) => value.epoch == epoch && value.turn == turn,
        Fact::Holders(holders, next) => {
            value.holders.bits() == holders && value.next_holders.bits() == next
        }
        Fact::Dirs(dirs) => value.dirs.bits() == dirs,
        Fact::Mode(disk, mode) => mode_in(value.entries(), disk) == mode,
        Fact::ServingGroups(count) => serving_groups(value) == count,
        Fact::Syncing(disk) => syncing_disk(m) == disk && syncing(value) == disk,
        _ => is_of_entry(value.entries(), fact),
    }
}

/// Whether the entries tell this.
fn is_of_entry(entries: &[PstEntry], fact: Fact) -> bool {
    match fact {
        Fact::Since(disk, since, repair) => match entry_in(entries, disk) {
            Some(entry) => entry.since == since && entry.repair == repair,
            None => false,
        },
        Fact::Units(disk, units) => match entry_in(entries, disk) {
            Some(entry) => entry.units == units,
            None => false,
        },
        Fact::Partners(disk, set) => match entry_in(entries, disk) {
            Some(entry) => entry.partners.bits() == set,
            None => false,
        },
        _ => false,
    }
}
