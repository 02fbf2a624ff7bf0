// Whether the disks that were read are a majority of each set of a record.
ghost use Rattle.std.specs.Prelude.{◌≡◌, ◌≤◌, ◌<◌, ◌+◌, ◌∷◌, [], Some, length};
ghost use Rattle.std.specs.Option.{option_map};
ghost use Rattle.asm_formats.specs.Status.{entry_of};
ghost use Rattle.asm_formats.specs.Following.{disks_of, sets_of};
ghost use Rattle.status_register.specs.Surveys.{is_holder_there, missing, seen_of, shortfall};
ghost use Rattle.status_register.specs.Counting.{of_disk};

use crate::Member;
use status_table::{DiskSet, PstEntry, PstRecord};

/// How many disks of a set are among the members, and how many disks the set has.
#[derive(Clone, Copy)]
pub struct Presence {
    pub seen: u8,
    pub all: u8,
}

/// The birth of a disk by its entry.
#[tactic(auto, unfolding(asm_formats::specs::Status::entry_of))]
pub fn birth_of(entries: &[PstEntry], disk: u8) -> Option<u64>
    ensures { result ≡ option_map (λ e. e.birth) (entry_of entries.now disk) }
{
    for entry in entries {
        if entry.number == disk {
            return Some(entry.birth);
        }
    }
    None
}

/// Whether the disk of this number and birth is one of the members.
fn is_there(members: &[Member], number: u8, birth: u64) -> bool
    ensures { result ≡ is_holder_there members.now (number, birth) }
{
    members
        .iter()
        .any(|member| member.number == number && member.birth == birth)
}

/// Counts a disk, if it is in the set.
fn count_disk(
    presence: Presence,
    members: &[Member],
    entries: &[PstEntry],
    set: DiskSet,
    disk: u8,
) -> Presence
    requires seen { presence.seen ≤ presence.all }
    requires all { presence.all ≤ disk }
    requires disk { disk < 64 }
    ensures seen { result.seen ≡ presence.seen
        + seen_of members.now (of_disk entries.now set disk) }
    ensures all { result.all ≡ presence.all + length (of_disk entries.now set disk) }
    ensures few { result.all ≤ presence.all + 1 }
    ensures fewer { result.seen ≤ result.all }
{
    if !set.has(disk) {
        return presence;
    }
    match birth_of(entries, disk) {
        None => presence,
        Some(birth) => {
            if is_there(members, disk, birth) {
                Presence {
                    seen: presence.seen + 1,
                    all: presence.all + 1,
                }
            } else {
                Presence {
                    seen: presence.seen,
                    all: presence.all + 1,
                }
            }
        }
    }
}

/// Counts the disks of a set.
pub fn count_set(members: &[Member], entries: &[PstEntry], set: DiskSet) -> Presence
    ensures seen { result.seen ≡ seen_of members.now (disks_of entries.now set) }
    ensures all { result.all ≡ length (disks_of entries.now set) }
    ensures few { result.all ≤ 64 }
    ensures fewer { result.seen ≤ result.all }
{
    let mut presence = Presence { seen: 0, all: 0 };
    for disk in 0..64 {
        presence = count_disk(presence, members, entries, set, disk);
    }
    presence
}

/// How many disks of a set are among the members, and how many are needed, where they aren't a
/// majority.
pub fn lacking(members: &[Member], entries: &[PstEntry], set: DiskSet) -> Option<(u8, u8)>
    ensures { result ≡ shortfall members.now (disks_of entries.now set ∷ []) }
{
    let presence = count_set(members, entries, set);
    if presence.all < 2 * presence.seen {
        None
    } else {
        Some((presence.seen, presence.all / 2 + 1))
    }
}

/// The same of a record's holders where these fall short, else of its next holders.
fn shortfall(
    members: &[Member],
    entries: &[PstEntry],
    holders: DiskSet,
    next_holders: DiskSet,
) -> Option<(u8, u8)>
    ensures { result ≡ shortfall members.now (sets_of entries.now holders next_holders) }
{
    match lacking(members, entries, holders) {
        Some(numbers) => Some(numbers),
        None => {
            if next_holders.bits() == 0 {
                None
            } else {
                lacking(members, entries, next_holders)
            }
        }
    }
}

/// Of the first set of a record without a majority among the members how many are there, and how
/// many are needed.
pub fn missing(members: &[Member], status: &PstRecord) -> Option<(u8, u8)>
    ensures { result ≡ missing members.now (Some status.now) }
{
    shortfall(
        members,
        status.entries(),
        status.holders,
        status.next_holders,
    )
}
